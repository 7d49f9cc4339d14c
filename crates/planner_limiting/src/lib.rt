// The limiter's plan out: the plan in is read into tables, rounds are dropped there, and the plan out is written from them.
#![tactic(auto)]

ghost use Rattle.std.specs.Prelude.{◌≡◌, length};
ghost use Rattle.sheet.specs.Fields.{plan_length};
ghost use Rattle.sheet.specs.Told.{told};
ghost use Rattle.constructive.specs.Lent.{Lent};
ghost use Rattle.constructive.specs.Outcome.{outcome_in};
ghost use Rattle.plan.specs.Read.{read_plan};
ghost use Rattle.plan_reader.specs.Reading.{stop_count};
ghost use Rattle.fleet_limiter.specs.Limitable.{Limitable};
ghost use Rattle.planner_limiting.specs.Limiting.{limited_plan, LimitDone};

use constructive::tables::{RouteArrays, RouteTables};
use sheet::Sheet;
use sheet::refusal::Refusal;

// The plan out of the plan in, which stands in the tables. A table has the reason of each row: 8 but for those that the plan in
// sets aside, since the limiter sorts them among those that it drops.
fn limit_read(
    sheet: &Sheet,
    plan_in: &[u8],
    greatest: u32,
    plan_out: &mut [u8],
    tables: &mut RouteTables,
    rounds: usize,
)
    requires limitable { Limitable sheet.now tables.old.stops.now tables.old.ends.now tables.old.vehicles.now rounds (stop_count sheet.now) }
    requires outcome { outcome_in tables.old.stops.now tables.old.ends.now tables.old.vehicles.now rounds (stop_count sheet.now) ≡ read_plan sheet.now plan_in.now }
    requires plan_in_len { length plan_in.now ≡ plan_length sheet.now }
    requires plan_out_len { length plan_out.old ≡ plan_length sheet.now }
    ensures plan_out_after { plan_out.new ≡ limited_plan sheet.now plan_in.now greatest }
    ensures lent { Lent tables.old tables.new }
{
    let mut why = [plan_reasons::DROPPED; sheet::MOST_ROWS];
    let total = plan_door::stops_in(sheet.bytes());
    let earlier = plan_reasons::aside_of(sheet, &tables.as_ref(), rounds, total);
    plan_reasons::copy_reasons(sheet, plan_in, earlier, &mut why);
    let left = fleet_limiter::limit_routes(sheet, greatest, tables, rounds, total);
    let tables = tables.as_ref();
    plan::write_plan(plan_out, sheet, &tables, left, total, true);
    let aside = plan_reasons::aside_of(sheet, &tables, left, total);
    plan_reasons::write_reasons(plan_out, sheet, aside, |row| why[row as usize]);
}

// The plan out, or a refusal and nothing written. The tables stand here.
pub fn limit(
    sheet: &[u8],
    plan_in: &[u8],
    greatest: u32,
    plan_out: &mut [u8],
) -> Result<(), Refusal>
    ensures { LimitDone sheet.now plan_in.now greatest plan_out.old (told result) plan_out.new }
{
    let mut arrays = RouteArrays::<{ sheet::MOST_ROWS }>::new();
    let mut tables = RouteTables {
        stops: &mut arrays.stops,
        ends: &mut arrays.ends,
        vehicles: &mut arrays.vehicles,
    };
    let room = plan_out.len() == plan_in.len();
    let rounds = plan_door::enter(sheet, plan_in, room, true, &mut tables)?;
    let sheet = Sheet::new(sheet);
    limit_read(&sheet, plan_in, greatest, plan_out, &mut tables, rounds);
    Ok(())
}
