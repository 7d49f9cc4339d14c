// Savings (Clarke and Wright 1964): each stop starts alone, and rounds are joined end to end, greatest saving first.
// O(n^2 log n) to sort the savings of n stops; where windows or limits are asked, a join is walked, O(n^3) at most.
#![tactic(auto)]

ghost use Rattle.std.specs.Prelude.{◌≡◌, ℕ, ◌-◌, ◌*◌, ◌≤◌, ◌<◌};
ghost use Rattle.lists.specs.Count.{count};
ghost use Rattle.sheet.specs.Fields.{vehicles_of, most_rows};
ghost use Rattle.constructive.specs.Lent.{Lent};
ghost use Rattle.constructive.specs.Stored.{Stored, Room, filled_by};
ghost use Rattle.constructive.specs.Members.{part, Members};
ghost use Rattle.clarke_wright_savings.specs.Savings.{clarke_wright};

use clarke_wright_savings::{Savings, SavingsArrays};
use clarke_wright_slots::{RouteSlots, SlotArrays};
use constructive::tables::{Filled, RouteTables};
use sheet::Sheet;

// The plan by way of tables for so many pairs of members, and for the stops of the rounds. Each size is a function of its own:
// the large tables' frame is no part of the plans with small ones.
fn by_tables<const PAIRS: usize, const CELLS: usize>(
    sheet: &Sheet,
    depot: usize,
    vehicle: u16,
    tables: &mut RouteTables,
    filled: Filled,
    total: usize,
) -> Filled
    requires members { Members sheet.now depot tables.old.stops.now filled.routed total }
    requires room { Room tables.old.ends.now tables.old.vehicles.now filled total }
    requires vehicle_bound { vehicle < vehicles_of sheet.now }
    requires by_index { (x : ℕ) → count x (part tables.old.stops.now filled.routed total) ≤ 1 }
    requires members_in_bounds { (total - filled.routed) * (total - filled.routed) ≤ PAIRS }
    requires cells_in_bounds { (total - filled.routed) * most_rows ≤ CELLS }
    requires sizes_bound { (PAIRS ≤ most_rows * most_rows) × (CELLS ≤ most_rows * most_rows) }
    ensures value { result ≡ filled_by filled (clarke_wright sheet.now depot vehicle (part tables.old.stops.now filled.routed total)).rounds }
    ensures stored { Stored tables.old.stops.now tables.old.ends.now tables.old.vehicles.now filled (clarke_wright sheet.now depot vehicle (part tables.old.stops.now filled.routed total)) tables.new.stops.now tables.new.ends.now tables.new.vehicles.now }
    ensures lent { Lent tables.old tables.new }
{
    let mut savings = SavingsArrays::<PAIRS>::new();
    let mut slots = SlotArrays::<CELLS>::new();
    let savings = &mut Savings {
        from: &mut savings.from,
        to: &mut savings.to,
        values: &mut savings.values,
        entries: &mut savings.entries,
        count: 0,
    };
    let slots = &mut RouteSlots {
        cells: &mut slots.cells,
        lens: &mut slots.lens,
        loads: &mut slots.loads,
        slots: &mut slots.slots,
        count: 0,
    };
    clarke_wright_planning::plan_by(sheet, depot, vehicle, tables, filled, total, savings, slots)
}

// The members stand in `stops` from where the tables are filled up to `total`; every round is the vehicle's, by its index.
// Answers how far the tables are filled with the rounds; the stops set aside stand after them, up to `total`.
pub fn clarke_wright_savings(
    sheet: &Sheet,
    depot: usize,
    vehicle: u16,
    tables: &mut RouteTables,
    filled: Filled,
    total: usize,
) -> Filled
    requires members { Members sheet.now depot tables.old.stops.now filled.routed total }
    requires room { Room tables.old.ends.now tables.old.vehicles.now filled total }
    requires vehicle_bound { vehicle < vehicles_of sheet.now }
    requires by_index { (x : ℕ) → count x (part tables.old.stops.now filled.routed total) ≤ 1 }
    ensures value { result ≡ filled_by filled (clarke_wright sheet.now depot vehicle (part tables.old.stops.now filled.routed total)).rounds }
    ensures stored { Stored tables.old.stops.now tables.old.ends.now tables.old.vehicles.now filled (clarke_wright sheet.now depot vehicle (part tables.old.stops.now filled.routed total)) tables.new.stops.now tables.new.ends.now tables.new.vehicles.now }
    ensures lent { Lent tables.old tables.new }
{
    by_tables::<10201, 10201>(sheet, depot, vehicle, tables, filled, total)
}

// The same of at most 24 members, whose tables are a tenth as large: to set up the others takes longer than such a plan. That they
// are no more is a clause, here and of who calls it: the members are a part of a table. Not inlined, so that no other method's
// planning has its frame.
#[inline(never)]
pub fn clarke_wright_few(
    sheet: &Sheet,
    depot: usize,
    vehicle: u16,
    tables: &mut RouteTables,
    filled: Filled,
    total: usize,
) -> Filled
    requires members { Members sheet.now depot tables.old.stops.now filled.routed total }
    requires room { Room tables.old.ends.now tables.old.vehicles.now filled total }
    requires vehicle_bound { vehicle < vehicles_of sheet.now }
    requires by_index { (x : ℕ) → count x (part tables.old.stops.now filled.routed total) ≤ 1 }
    requires routed_bound { total - filled.routed ≤ 24 }
    ensures value { result ≡ filled_by filled (clarke_wright sheet.now depot vehicle (part tables.old.stops.now filled.routed total)).rounds }
    ensures stored { Stored tables.old.stops.now tables.old.ends.now tables.old.vehicles.now filled (clarke_wright sheet.now depot vehicle (part tables.old.stops.now filled.routed total)) tables.new.stops.now tables.new.ends.now tables.new.vehicles.now }
    ensures lent { Lent tables.old tables.new }
{
    by_tables::<576, 2424>(sheet, depot, vehicle, tables, filled, total)
}
