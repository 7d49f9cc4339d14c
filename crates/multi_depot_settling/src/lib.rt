// Each round of offers moves a stop on and plans the changed depots again: n (d - 1) rounds at most for n stops and d depots.
#![tactic(auto)]

ghost use Rattle.std.specs.Prelude.{◌≡◌, false, ◌≤◌, ◌<◌, length};
ghost use Rattle.sheet.specs.Depots.{depots_of};
ghost use Rattle.sheet.specs.Fields.{rows_of};
ghost use Rattle.constructive.specs.Lent.{Lent};
ghost use Rattle.constructive.specs.Tables.{AsLong};
ghost use Rattle.constructive.specs.Marks.{Marks};
ghost use Rattle.multi_depot_offers.specs.ByDepot.{planned_at, after_offers, first_depots, settled_at};
ghost use Rattle.multi_depot_offers.specs.Promises.{PlanningTables};
ghost use Rattle.multi_depot_settling.specs.Promises.{MarksUpdated, Untouched};

use constructive::tables::{Filled, RouteTables};
use sheet::Sheet;

// A depot planned anew, from the start of the tables on: only its marks are needed.
fn update_marks(
    sheet: &Sheet,
    at: &[u16],
    marks: &mut [u16],
    tables: &mut RouteTables,
    depot: usize,
)
    requires planning_tables { PlanningTables sheet.now at.now tables.old.stops.now tables.old.ends.now tables.old.vehicles.now }
    requires depot_bound { (depot < depots_of sheet.now) × (rows_of sheet.now ≤ length marks.old) }
    ensures marks_updated { MarksUpdated sheet.now at.now marks.old depot marks.new }
    ensures as_long { AsLong tables.old.stops.now tables.old.ends.now tables.old.vehicles.now tables.new.stops.now tables.new.ends.now tables.new.vehicles.now }
    ensures lent { Lent tables.old tables.new }
{
    multi_depot_offers::clear(at, marks, depot);
    let filled = Filled::default();
    multi_depot_planning::plan_depot(sheet, at, marks, tables, depot, filled);
}

// The marks after an offer. A depot whose members are the same turns the same ones down, so that it is not planned.
fn update_changed(
    sheet: &Sheet,
    before: &[u16],
    at: &[u16],
    marks: &mut [u16],
    tables: &mut RouteTables,
)
    requires planning_tables { PlanningTables sheet.now at.now tables.old.stops.now tables.old.ends.now tables.old.vehicles.now }
    requires at_value { at.now ≡ after_offers sheet.now before.now }
    requires marks { Marks sheet.now marks.old (planned_at sheet.now before.now).aside }
    ensures marks_after { Marks sheet.now marks.new (planned_at sheet.now at.now).aside }
    ensures as_long { AsLong tables.old.stops.now tables.old.ends.now tables.old.vehicles.now tables.new.stops.now tables.new.ends.now tables.new.vehicles.now }
    ensures lent { Lent tables.old tables.new }
{
    let depots = sheet.depots();
    // Over numbers: a depot is a row of the sheet, and no slice stands behind it.
    for depot in 0..depots {
        if !multi_depot_offers::is_changed(before, at, depot) {
            continue;
        }
        update_marks(sheet, at, marks, tables, depot);
    }
}

// Offers until no stop moves: each that moves one lowers the attempts left. Answers whether one has moved; what the tables held
// is lost then.
pub fn settle(
    sheet: &Sheet,
    before: &mut [u16],
    at: &mut [u16],
    marks: &mut [u16],
    tables: &mut RouteTables,
) -> bool
    requires planning_tables { PlanningTables sheet.now at.old tables.old.stops.now tables.old.ends.now tables.old.vehicles.now }
    requires before_len { length before.old ≡ rows_of sheet.now }
    requires at_value { (at.old ≡ first_depots sheet.now) × Marks sheet.now marks.old (planned_at sheet.now at.old).aside }
    ensures at_after { at.new ≡ settled_at sheet.now }
    ensures untouched { result ≡ false → Untouched at.old marks.old tables.old.stops.now tables.old.ends.now tables.old.vehicles.now at.new marks.new tables.new.stops.now tables.new.ends.now tables.new.vehicles.now }
    ensures as_long { AsLong tables.old.stops.now tables.old.ends.now tables.old.vehicles.now tables.new.stops.now tables.new.ends.now tables.new.vehicles.now }
    ensures lent { Lent tables.old tables.new }
{
    let mut any = false;
    'offers: loop {
        sorting::copy(at, before);
        if !multi_depot_offers::offer(sheet, at, marks) {
            break 'offers;
        }
        update_changed(sheet, before, at, marks, tables);
        any = true;
    }
    any
}
