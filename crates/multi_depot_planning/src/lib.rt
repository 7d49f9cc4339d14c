// One planning: a depot with its members, and every depot in order. Stops turned down are marked.
#![tactic(auto)]

ghost use Rattle.std.specs.Prelude.{◌-◌, ◌≤◌, length};
ghost use Rattle.sheet.specs.Depots.{depots_of};
ghost use Rattle.sheet.specs.Fields.{rows_of};
ghost use Rattle.sheet.specs.Stops.{all_stops};
ghost use Rattle.constructive.specs.Lent.{Lent};
ghost use Rattle.constructive.specs.Tables.{AsLong};
ghost use Rattle.constructive.specs.TableContents.{HoldsOutcome};
ghost use Rattle.constructive.specs.Members.{members_of};
ghost use Rattle.multi_depot_offers.specs.ByDepot.{planned_of, planned_at};
ghost use Rattle.multi_depot_offers.specs.Promises.{PlanningTables, Next, Added, Planned};
ghost use Rattle.multi_depot_planning.specs.DepotLaid.{DepotLaid};

use constructive::tables::{Filled, RouteTables};
use sheet::Sheet;

// A depot with its members, which no other has, behind the rounds that the tables hold; without any it is not planned. Told
// with how far the tables are filled is where the stops that it turns down end.
fn lay_depot(
    sheet: &Sheet,
    at: &[u16],
    tables: &mut RouteTables,
    depot: usize,
    filled: Filled,
) -> (Filled, usize)
    requires planning_tables { PlanningTables sheet.now at.now tables.old.stops.now tables.old.ends.now tables.old.vehicles.now }
    requires next { Next sheet.now at.now depot filled }
    ensures depot_laid { DepotLaid tables.old.stops.now tables.old.ends.now tables.old.vehicles.now filled (planned_of sheet.now depot (members_of sheet.now at.now depot)) tables.new.stops.now tables.new.ends.now tables.new.vehicles.now result.0 result.1 }
    ensures lent { Lent tables.old tables.new }
{
    let from = filled.routed;
    let total = constructive::members::members_of(sheet, at, depot, tables.stops, from);
    if total == from {
        return (filled, total);
    }
    if multi_depot_methods::saves_many(sheet.bytes(), total - from) {
        let saved = multi_depot_methods::by_savings(sheet, depot, tables, filled, total);
        return (saved, total);
    }
    let done = multi_depot_methods::construct(sheet, depot, tables, filled, total);
    (done, total)
}

// The same with the stops that it turns down marked.
pub fn plan_depot(
    sheet: &Sheet,
    at: &[u16],
    marks: &mut [u16],
    tables: &mut RouteTables,
    depot: usize,
    filled: Filled,
) -> Filled
    requires planning_tables { PlanningTables sheet.now at.now tables.old.stops.now tables.old.ends.now tables.old.vehicles.now }
    requires next { Next sheet.now at.now depot filled × (rows_of sheet.now ≤ length marks.old) }
    ensures added { Added marks.old tables.old.stops.now tables.old.ends.now tables.old.vehicles.now filled (planned_of sheet.now depot (members_of sheet.now at.now depot)) marks.new tables.new.stops.now tables.new.ends.now tables.new.vehicles.now result }
    ensures as_long { AsLong tables.old.stops.now tables.old.ends.now tables.old.vehicles.now tables.new.stops.now tables.new.ends.now tables.new.vehicles.now }
    ensures lent { Lent tables.old tables.new }
{
    let (done, total) = lay_depot(sheet, at, tables, depot, filled);
    let stops = &mut *tables.stops;
    constructive::marks::mark(marks, stops, done.routed, total);
    done
}

// Every depot in order.
pub fn plan_depots(sheet: &Sheet, at: &[u16], marks: &mut [u16], tables: &mut RouteTables) -> Filled
    requires planning_tables { PlanningTables sheet.now at.now tables.old.stops.now tables.old.ends.now tables.old.vehicles.now }
    requires sheet_in_bounds { rows_of sheet.now ≤ length marks.old }
    ensures planned { Planned sheet.now marks.new tables.new.stops.now tables.new.ends.now tables.new.vehicles.now result (planned_at sheet.now at.now) }
    ensures as_long { AsLong tables.old.stops.now tables.old.ends.now tables.old.vehicles.now tables.new.stops.now tables.new.ends.now tables.new.vehicles.now }
    ensures lent { Lent tables.old tables.new }
{
    let depots = sheet.depots();
    marks.fill(0);
    let mut filled = Filled::default();
    // Over numbers: a depot is a row of the sheet, and no slice stands behind it.
    for depot in 0..depots {
        filled = plan_depot(sheet, at, marks, tables, depot, filled);
    }
    filled
}

// One depot with every stop.
pub fn one_depot(sheet: &Sheet, at: &mut [u16], tables: &mut RouteTables) -> Filled
    requires { PlanningTables sheet.now at.old tables.old.stops.now tables.old.ends.now tables.old.vehicles.now }
    ensures holds_outcome { HoldsOutcome tables.new.stops.now tables.new.ends.now tables.new.vehicles.now result (rows_of sheet.now - depots_of sheet.now) (planned_of sheet.now 0 (all_stops sheet.now)) }
    ensures as_long { AsLong tables.old.stops.now tables.old.ends.now tables.old.vehicles.now tables.new.stops.now tables.new.ends.now tables.new.vehicles.now }
    ensures lent { Lent tables.old tables.new }
{
    at.fill(0);
    let filled = Filled::default();
    let (done, _) = lay_depot(sheet, at, tables, 0, filled);
    done
}
