// Several depots, cluster first: each stop goes to the nearest that has a vehicle, and if turned down to the next. And the
// outcome of a sheet, with one depot or with several.
#![tactic(auto)]

ghost use Rattle.std.specs.Prelude.{◌-◌, ◌≤◌, length};
ghost use Rattle.sheet.specs.Depots.{depots_of};
ghost use Rattle.sheet.specs.Fields.{rows_of};
ghost use Rattle.constructive.specs.Lent.{Lent};
ghost use Rattle.constructive.specs.Tables.{AsLong};
ghost use Rattle.constructive.specs.TableContents.{HoldsOutcome};
ghost use Rattle.multi_depot_offers.specs.ByDepot.{by_depot, outcome_of};
ghost use Rattle.multi_depot_offers.specs.Promises.{PlanningTables};
ghost use Rattle.multi_depot.specs.Promises.{OutcomeTables, OutcomeStored};

use constructive::tables::{Filled, RouteTables};
use multi_depot_offers::members;
use sheet::Sheet;

// Every depot planned; then the stops are settled and, where one has moved, every depot is planned once more: between offers
// only the marks are kept.
fn by_depot(sheet: &Sheet, at: &mut [u16], marks: &mut [u16], tables: &mut RouteTables) -> Filled
    requires planning_tables { PlanningTables sheet.now at.old tables.old.stops.now tables.old.ends.now tables.old.vehicles.now }
    requires sheet_in_bounds { rows_of sheet.now ≤ length marks.old }
    ensures holds_outcome { HoldsOutcome tables.new.stops.now tables.new.ends.now tables.new.vehicles.now result (rows_of sheet.now - depots_of sheet.now) (by_depot sheet.now) }
    ensures as_long { AsLong tables.old.stops.now tables.old.ends.now tables.old.vehicles.now tables.new.stops.now tables.new.ends.now tables.new.vehicles.now }
    ensures lent { Lent tables.old tables.new }
{
    let rows = at.len();
    let mut before = [0u16; sheet::MOST_ROWS];
    multi_depot_offers::first_at(sheet, at);
    let filled = multi_depot_planning::plan_depots(sheet, at, marks, tables);
    if !multi_depot_settling::settle(sheet, &mut before[0..rows], at, marks, tables) {
        members::lay_aside(sheet, at, marks, tables.stops, filled.routed);
        return filled;
    }
    let last = multi_depot_planning::plan_depots(sheet, at, marks, tables);
    members::lay_aside(sheet, at, marks, tables.stops, last.routed);
    last
}

// The sheet's outcome in the tables that are lent: its rounds, and behind them the stops set aside. `at` and `marks` are for
// the offers.
pub fn outcome(sheet: &Sheet, at: &mut [u16], marks: &mut [u16], tables: &mut RouteTables) -> Filled
    requires { OutcomeTables sheet.now at.old marks.old tables.old.stops.now tables.old.ends.now tables.old.vehicles.now }
    ensures outcome_stored { OutcomeStored sheet.now tables.new.stops.now tables.new.ends.now tables.new.vehicles.now result (outcome_of sheet.now) }
    ensures as_long { AsLong tables.old.stops.now tables.old.ends.now tables.old.vehicles.now tables.new.stops.now tables.new.ends.now tables.new.vehicles.now }
    ensures lent { Lent tables.old tables.new }
{
    let rows = sheet.rows();
    if sheet.depots() == 1 {
        return multi_depot_planning::one_depot(sheet, &mut at[0..rows], tables);
    }
    by_depot(sheet, &mut at[0..rows], marks, tables)
}
