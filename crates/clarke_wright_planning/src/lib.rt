// A plan by way of tables that are lent: the members' savings ranked, their rounds started, merged and laid down.
#![tactic(auto)]

ghost use Rattle.std.specs.Prelude.{◌≡◌, ℕ, ◌-◌, ◌*◌, ◌≤◌, ◌<◌, length};
ghost use Rattle.lists.specs.Count.{count};
ghost use Rattle.sheet.specs.Fields.{vehicles_of, most_rows};
ghost use Rattle.evaluation.specs.Routed.{Routed};
ghost use Rattle.constructive.specs.Lent.{Lent};
ghost use Rattle.constructive.specs.Stored.{Stored, Room, filled_by};
ghost use Rattle.constructive.specs.Members.{part, Members};
ghost use Rattle.clarke_wright_savings.specs.Savings.{routes_of, aside_of, clarke_wright};
ghost use Rattle.clarke_wright_savings.specs.Listed.{Space, SavingsAsLong};
ghost use Rattle.clarke_wright_savings.specs.Lent.{SavingsLent};
ghost use Rattle.clarke_wright_slots.specs.Slots.{slots_in, Roomy, Slotted, SlotsAsLong};
ghost use Rattle.clarke_wright_slots.specs.Lent.{SlotsLent};

use clarke_wright_savings::terms::Directed;
use clarke_wright_savings::{Savings, terms};
use clarke_wright_slots::{RouteSlots, laying};
use constructive::tables::{Filled, RouteTables};
use sheet::Sheet;

// The members' rounds in the slots, once no saving is left; answers the stops that are set aside.
fn merge_members<'a>(
    sheet: &Sheet,
    terms: Directed,
    members: &[u16],
    savings: &mut Savings,
    slots: &mut RouteSlots,
    aside: &'a mut [u16],
) -> &'a [u16]
    requires routed { Routed sheet.now terms.common.depot members.now }
    requires by_index { (x : ℕ) → count x members.now ≤ 1 }
    requires space { Space savings.old.from.now savings.old.to.now savings.old.values.now savings.old.entries.now (length members.now * length members.now) }
    requires roomy { Roomy (length members.now) slots.old.cells.now slots.old.lens.now slots.old.loads.now slots.old.slots.now }
    requires most_rows_in_bounds { most_rows ≤ length aside.old }
    ensures value { result.now ≡ aside_of sheet.now terms.common members.now }
    ensures count_after { slots.new.count ≡ length members.now }
    ensures slotted { Slotted sheet.now slots.new.count slots.new.cells.now slots.new.lens.now slots.new.loads.now slots.new.slots.now }
    ensures lens_after { slots_in slots.new.count slots.new.cells.now slots.new.lens.now ≡ routes_of sheet.now terms members.now }
    ensures savings_as_long { SavingsAsLong savings.old.from.now savings.old.to.now savings.old.values.now savings.old.entries.now savings.new.from.now savings.new.to.now savings.new.values.now savings.new.entries.now }
    ensures slots_as_long { SlotsAsLong slots.old.cells.now slots.old.lens.now slots.old.loads.now slots.old.slots.now slots.new.cells.now slots.new.lens.now slots.new.loads.now slots.new.slots.now }
    ensures savings_lent { SavingsLent savings.old savings.new }
    ensures slots_lent { SlotsLent slots.old slots.new }
{
    // The stops of the rounds, none of which has started, lend their room to the sort.
    savings.rank(sheet, terms, members, slots.cells);
    let left = slots.start(sheet, terms.common, members, aside);
    // `&mut` though they are only read: the check has no rule yet for two fields of a lent struct, both lent as `&`
    let from: &[u16] = &mut *savings.from;
    let to: &[u16] = &mut *savings.to;
    let entries: &[u16] = &mut *savings.entries;
    clarke_wright_merging::merge_all(sheet, terms, from, to, &entries[..savings.count], slots);
    &aside[..left]
}

// The rounds by way of tables that are lent.
pub fn plan_by(
    sheet: &Sheet,
    depot: usize,
    vehicle: u16,
    tables: &mut RouteTables,
    filled: Filled,
    total: usize,
    savings: &mut Savings,
    slots: &mut RouteSlots,
) -> Filled
    requires members { Members sheet.now depot tables.old.stops.now filled.routed total }
    requires room { Room tables.old.ends.now tables.old.vehicles.now filled total }
    requires vehicle_bound { vehicle < vehicles_of sheet.now }
    requires by_index { (x : ℕ) → count x (part tables.old.stops.now filled.routed total) ≤ 1 }
    requires space { Space savings.old.from.now savings.old.to.now savings.old.values.now savings.old.entries.now ((total - filled.routed) * (total - filled.routed)) }
    requires roomy { Roomy (total - filled.routed) slots.old.cells.now slots.old.lens.now slots.old.loads.now slots.old.slots.now }
    ensures value { result ≡ filled_by filled (clarke_wright sheet.now depot vehicle (part tables.old.stops.now filled.routed total)).rounds }
    ensures stored { Stored tables.old.stops.now tables.old.ends.now tables.old.vehicles.now filled (clarke_wright sheet.now depot vehicle (part tables.old.stops.now filled.routed total)) tables.new.stops.now tables.new.ends.now tables.new.vehicles.now }
    ensures savings_as_long { SavingsAsLong savings.old.from.now savings.old.to.now savings.old.values.now savings.old.entries.now savings.new.from.now savings.new.to.now savings.new.values.now savings.new.entries.now }
    ensures slots_as_long { SlotsAsLong slots.old.cells.now slots.old.lens.now slots.old.loads.now slots.old.slots.now slots.new.cells.now slots.new.lens.now slots.new.loads.now slots.new.slots.now }
    ensures savings_lent { SavingsLent savings.old savings.new }
    ensures slots_lent { SlotsLent slots.old slots.new }
    ensures lent { Lent tables.old tables.new }
{
    let start = filled.routed;
    // `&mut` though it is only read: of a field that was lent as `&` a proof knows no element afterwards
    let stops: &[u16] = &mut *tables.stops;
    let members = &stops[start..total];
    let terms = terms::directed_of(sheet, depot, vehicle, members);
    let mut table = [0u16; sheet::MOST_ROWS];
    let aside = merge_members(sheet, terms, members, savings, slots, &mut table);
    // as above
    let cells: &[u16] = &mut *slots.cells;
    let lens: &[u16] = &mut *slots.lens;
    laying::lay(slots.count, cells, lens, aside, vehicle, tables, filled)
}
