// What a host calls: the functions of `planner`, each with its clauses, as symbols of a static library. C has no `Result`:
// each answer is a number.
#![tactic(auto)]

ghost use Rattle.std.specs.Prelude.{◌≡◌, ◌^◌, ◌<◌, IfOk};
ghost use Rattle.sheet.specs.Refusal.{refusal_of};
ghost use Rattle.solomon_import.specs.Import.{import_answer, ImportAnswered, ImportAccepted};
ghost use Rattle.tariff_bill.specs.Bill.{BillAnswered, BillExact};
ghost use Rattle.crews_deal.specs.Rounds.{DealAnswered, DealShared, DealEven, DealBounded};
ghost use Rattle.planner.specs.Answer.{Answered, Once, Feasibly, Lawful, Alone, Closed};
ghost use Rattle.planner.specs.Limited.{LimitAnswered, LimitOnce, LimitFew, LimitStood, LimitAside};
ghost use Rattle.planner.specs.Reasoned.{Reasoned, LimitReasoned};

use sheet::refusal;
use sheet::refusal::Refusal;

// Whether a sheet would be planned into a buffer of `plan_len` bytes: 0, or the number of the refusal.
#[unsafe(no_mangle)]
pub extern "C" fn check_sheet(sheet: &[u8], plan_len: usize) -> u32
    ensures { result ≡ refusal_of sheet.now plan_len }
{
    let answer = planner::check_sheet(sheet, plan_len);
    refusal::number(answer)
}

// Plans a sheet's rounds: 0 and the plan, or the number of the refusal and every byte of `plan` as it was.
#[unsafe(no_mangle)]
pub extern "C" fn plan_rounds(sheet: &[u8], plan: &mut [u8]) -> u32
    ensures answered { Answered sheet.now plan.old result plan.new }
    ensures once { Once sheet.now result plan.new }
    ensures feasibly { Feasibly sheet.now result plan.new }
    ensures lawful { Lawful sheet.now result plan.new }
    ensures alone { Alone sheet.now result plan.new }
    ensures closed { Closed sheet.now result plan.new }
    ensures reasoned { Reasoned sheet.now result plan.new }
{
    let answer = planner::plan_rounds(sheet, plan);
    refusal::number(answer)
}

// Brings a plan down to at most `greatest` rounds: 0 and the plan out, or the number of the refusal and every byte of
// `plan_out` as it was.
#[unsafe(no_mangle)]
pub extern "C" fn limit_rounds(
    sheet: &[u8],
    plan_in: &[u8],
    greatest: u32,
    plan_out: &mut [u8],
) -> u32
    ensures limit_answered { LimitAnswered sheet.now plan_in.now greatest plan_out.old result plan_out.new }
    ensures limit_once { LimitOnce sheet.now result plan_out.new }
    ensures limit_few { LimitFew sheet.now greatest result plan_out.new }
    ensures limit_stood { LimitStood sheet.now plan_in.now result plan_out.new }
    ensures limit_aside { LimitAside sheet.now plan_in.now result plan_out.new }
    ensures limit_reasoned { LimitReasoned sheet.now plan_in.now result plan_out.new }
{
    let answer = planner::limit_rounds(sheet, plan_in, greatest, plan_out);
    refusal::number(answer)
}

// The sheet's length, or the refusal's number below zero.
fn returned(answer: Result<usize, Refusal>) -> i32
    requires { IfOk answer (λ long. long < 2 ^ 31) }
    ensures { result ≡ import_answer answer }
{
    match answer {
        Ok(long) => long as i32,
        Err(refusal) => -(refusal as i32),
    }
}

// Imports one of Solomon's texts: the sheet's length, and the sheet at the start of `sheet`, or the refusal's number below
// zero and every byte of `sheet` as it was.
#[unsafe(no_mangle)]
pub extern "C" fn import_solomon(text: &[u8], sheet: &mut [u8]) -> i32
    ensures import_answered { ImportAnswered text.now sheet.old result sheet.new }
    ensures import_accepted { ImportAccepted result sheet.new }
{
    let answer = planner::import_solomon(text, sheet);
    returned(answer)
}

// Bills a plan's rounds: 0 and the bill, or the number of the refusal and every byte of `bill` as it was.
#[unsafe(no_mangle)]
pub extern "C" fn bill_rounds(
    sheet: &[u8],
    plan: &[u8],
    distance_rate: u32,
    duration_rate: u32,
    least: u32,
    bill: &mut [u8],
) -> u32
    ensures bill_answered { BillAnswered sheet.now plan.now (record { distance = distance_rate; duration = duration_rate; least = least }) bill.old result bill.new }
    ensures bill_exact { BillExact sheet.now plan.now (record { distance = distance_rate; duration = duration_rate; least = least }) result bill.new }
{
    let answer = planner::bill_rounds(sheet, plan, distance_rate, duration_rate, least, bill);
    refusal::number(answer)
}

// Deals a plan's rounds to crews: 0 and the deal, or the number of the refusal and every byte of `deal` as it was.
#[unsafe(no_mangle)]
pub extern "C" fn deal_rounds(sheet: &[u8], plan: &[u8], crews: u32, deal: &mut [u8]) -> u32
    ensures deal_answered { DealAnswered sheet.now plan.now crews deal.old result deal.new }
    ensures deal_shared { DealShared sheet.now plan.now crews result deal.new }
    ensures deal_even { DealEven sheet.now plan.now crews result deal.new }
    ensures deal_bounded { DealBounded sheet.now plan.now crews result deal.new }
{
    let answer = planner::deal_rounds(sheet, plan, crews, deal);
    refusal::number(answer)
}
