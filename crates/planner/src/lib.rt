// What a host calls, by way of the exports of `planner_c`, which return numbers.
#![tactic(auto)]

ghost use Rattle.std.specs.Prelude.{◌≡◌, ◌^◌, ◌<◌, length, IfOk};
ghost use Rattle.sheet.specs.Fields.{rows_of, plan_length};
ghost use Rattle.sheet.specs.Refusal.{refusal_of};
ghost use Rattle.sheet.specs.Told.{told};
ghost use Rattle.reason.specs.Reason.{reason_of};
ghost use Rattle.solomon_import.specs.Import.{import_answer, ImportAnswered, ImportAccepted};
ghost use Rattle.tariff_bill.specs.Bill.{BillAnswered, BillExact};
ghost use Rattle.crews_deal.specs.Rounds.{DealAnswered, DealShared, DealEven, DealBounded};
ghost use Rattle.planner.specs.Answer.{priced, plan_for, Answered, Once, Feasibly, Lawful, Alone, Closed};
ghost use Rattle.planner.specs.Limited.{LimitAnswered, LimitOnce, LimitFew, LimitStood, LimitAside};
ghost use Rattle.planner.specs.Reasoned.{Reasoned, LimitReasoned};

use constructive::tables::{RouteArrays, RouteTables};
use sheet::Sheet;
use sheet::refusal::Refusal;
use tariff::Rates;

// Whether a sheet would be planned into a buffer of `plan_len` bytes.
pub fn check_sheet(sheet: &[u8], plan_len: usize) -> Result<(), Refusal>
    ensures { told result ≡ refusal_of sheet.now plan_len }
{
    sheet_refusal::refusal(sheet, plan_len)
}

#[tactic(auto, unfolding(crate::specs::Answer::priced))]
fn is_priced(sheet: &Sheet) -> bool
    ensures { result ≡ priced sheet.now }
{
    sheet.depots() != 1 || 1 < sheet.rows()
}

// Why a stop is set aside, as the plan says it.
fn reason_number(sheet: &Sheet, row: u16) -> u16
    requires { row < rows_of sheet.now }
    ensures { result ≡ reason_of sheet.now row }
{
    reason::reason_of(sheet, row).into()
}

// The plan of an accepted sheet. The tables stand here, some kilobyte in all.
fn fill(sheet: &Sheet, plan: &mut [u8])
    requires { length plan.old ≡ plan_length sheet.now }
    ensures { plan.new ≡ plan_for sheet.now }
{
    let mut at = [0u16; sheet::MOST_ROWS];
    let mut marks = [0u16; sheet::MOST_ROWS];
    let mut arrays = RouteArrays::<{ sheet::MOST_ROWS }>::new();
    let mut tables = RouteTables {
        stops: &mut arrays.stops,
        ends: &mut arrays.ends,
        vehicles: &mut arrays.vehicles,
    };
    let total = plan_door::stops_in(sheet.bytes());
    let filled = multi_depot::outcome(sheet, &mut at, &mut marks, &mut tables);
    let tables = tables.as_ref();
    plan::write_plan(plan, sheet, &tables, filled.rounds, total, is_priced(sheet));
    let aside = plan_reasons::aside_of(sheet, &tables, filled.rounds, total);
    plan_reasons::write_reasons(plan, sheet, aside, |row| reason_number(sheet, row));
}

// Plans a sheet's rounds. A refusal leaves every byte of `plan` as it was.
pub fn plan_rounds(sheet: &[u8], plan: &mut [u8]) -> Result<(), Refusal>
    ensures answered { Answered sheet.now plan.old (told result) plan.new }
    ensures once { Once sheet.now (told result) plan.new }
    ensures feasibly { Feasibly sheet.now (told result) plan.new }
    ensures lawful { Lawful sheet.now (told result) plan.new }
    ensures alone { Alone sheet.now (told result) plan.new }
    ensures closed { Closed sheet.now (told result) plan.new }
    ensures reasoned { Reasoned sheet.now (told result) plan.new }
{
    sheet_refusal::refusal(sheet, plan.len())?;
    fill(&Sheet::new(sheet), plan);
    Ok(())
}

// Brings a plan down to at most `greatest` rounds. A refusal leaves every byte of `plan_out` as it was.
pub fn limit_rounds(
    sheet: &[u8],
    plan_in: &[u8],
    greatest: u32,
    plan_out: &mut [u8],
) -> Result<(), Refusal>
    ensures limit_answered { LimitAnswered sheet.now plan_in.now greatest plan_out.old (told result) plan_out.new }
    ensures limit_once { LimitOnce sheet.now (told result) plan_out.new }
    ensures limit_few { LimitFew sheet.now greatest (told result) plan_out.new }
    ensures limit_stood { LimitStood sheet.now plan_in.now (told result) plan_out.new }
    ensures limit_aside { LimitAside sheet.now plan_in.now (told result) plan_out.new }
    ensures limit_reasoned { LimitReasoned sheet.now plan_in.now (told result) plan_out.new }
{
    planner_limiting::limit(sheet, plan_in, greatest, plan_out)
}

// Imports one of Solomon's texts: the sheet's length, and the sheet at the start of `sheet`. A refusal leaves every byte of
// `sheet` as it was.
pub fn import_solomon(text: &[u8], sheet: &mut [u8]) -> Result<usize, Refusal>
    ensures import_answered { ImportAnswered text.now sheet.old (import_answer result) sheet.new }
    ensures import_accepted { ImportAccepted (import_answer result) sheet.new }
    ensures import_long { IfOk result (λ long. long < 2 ^ 31) }
{
    solomon_import::import(text, sheet)
}

// Bills a plan's rounds. A refusal leaves every byte of `bill` as it was.
pub fn bill_rounds(
    sheet: &[u8],
    plan: &[u8],
    distance_rate: u32,
    duration_rate: u32,
    least: u32,
    bill: &mut [u8],
) -> Result<(), Refusal>
    ensures bill_answered { BillAnswered sheet.now plan.now (record { distance = distance_rate; duration = duration_rate; least = least }) bill.old (told result) bill.new }
    ensures bill_exact { BillExact sheet.now plan.now (record { distance = distance_rate; duration = duration_rate; least = least }) (told result) bill.new }
{
    let rates = Rates {
        distance: distance_rate,
        duration: duration_rate,
        least,
    };
    tariff_bill::bill(sheet, plan, rates, bill)
}

// Deals a plan's rounds to crews. A refusal leaves every byte of `deal` as it was.
pub fn deal_rounds(sheet: &[u8], plan: &[u8], crews: u32, deal: &mut [u8]) -> Result<(), Refusal>
    ensures deal_answered { DealAnswered sheet.now plan.now crews deal.old (told result) deal.new }
    ensures deal_shared { DealShared sheet.now plan.now crews (told result) deal.new }
    ensures deal_even { DealEven sheet.now plan.now crews (told result) deal.new }
    ensures deal_bounded { DealBounded sheet.now plan.now crews (told result) deal.new }
{
    crews_deal::deal(sheet, plan, crews, deal)
}
