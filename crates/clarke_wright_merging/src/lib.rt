// The merges: what a saving makes of the rounds, and the savings one after another.
#![tactic(auto)]

ghost use Rattle.std.specs.Prelude.{◌≡◌, ◌≤◌, ◌<◌, length};
ghost use Rattle.sheet.specs.Fields.{rows_of, most_rows};
ghost use Rattle.clarke_wright_savings.specs.Savings.{merge_of, after_merge};
ghost use Rattle.clarke_wright_slots.specs.Slots.{slots_in, Slotted, SlotsAsLong};
ghost use Rattle.clarke_wright_slots.specs.Lent.{SlotsLent};
ghost use Rattle.clarke_wright_merging.specs.Legs.{Legs, merged_in};

use clarke_wright_savings::terms::Directed;
use clarke_wright_slots::RouteSlots;
use sheet::Sheet;

// What the saving of the leg from a stop to another makes of the rounds. `trial` is a slice with room for the longest round, as
// every scratch table here: an array would ask for the very length.
fn merge(sheet: &Sheet, terms: Directed, i: u16, j: u16, slots: &mut RouteSlots, trial: &mut [u16])
    requires slotted { Slotted sheet.now slots.old.count slots.old.cells.now slots.old.lens.now slots.old.loads.now slots.old.slots.now }
    requires depot_bound { terms.common.depot < rows_of sheet.now }
    requires i_bound { (i < rows_of sheet.now) × (j < rows_of sheet.now) }
    requires most_rows_in_bounds { most_rows ≤ length trial.old }
    ensures count_kept { slots.new.count ≡ slots.old.count }
    ensures slotted_2 { Slotted sheet.now slots.new.count slots.new.cells.now slots.new.lens.now slots.new.loads.now slots.new.slots.now }
    ensures lens_after { slots_in slots.new.count slots.new.cells.now slots.new.lens.now ≡ after_merge (slots_in slots.old.count slots.old.cells.now slots.old.lens.now) (merge_of sheet.now terms (slots_in slots.old.count slots.old.cells.now slots.old.lens.now) i j) }
    ensures as_long { SlotsAsLong slots.old.cells.now slots.old.lens.now slots.old.loads.now slots.old.slots.now slots.new.cells.now slots.new.lens.now slots.new.loads.now slots.new.slots.now }
    ensures lent { SlotsLent slots.old slots.new }
{
    let a = slots.slots[i as usize] as usize;
    let b = slots.slots[j as usize] as usize;
    if a == b
        || a == slots.count
        || b == slots.count
        || terms.common.capacity < slots.loads[a] + slots.loads[b]
    {
        return;
    }
    let (ri, rj) = (slots.route(a), slots.route(b));
    let way = clarke_wright_joining::way_between(terms.directed, i, j, a, b, ri, rj);
    clarke_wright_joining::merge_by(sheet, terms.common, way, slots, trial);
}

// The savings at the places in `entries`, one after another. Three tables, and not `Savings`: they are only read here, and a caller
// may hold them so.
pub fn merge_all(
    sheet: &Sheet,
    terms: Directed,
    from: &[u16],
    to: &[u16],
    entries: &[u16],
    slots: &mut RouteSlots,
)
    requires slotted { Slotted sheet.now slots.old.count slots.old.cells.now slots.old.lens.now slots.old.loads.now slots.old.slots.now }
    requires depot_bound { terms.common.depot < rows_of sheet.now }
    requires legs { Legs sheet.now from.now to.now entries.now }
    ensures count_kept { slots.new.count ≡ slots.old.count }
    ensures slotted_2 { Slotted sheet.now slots.new.count slots.new.cells.now slots.new.lens.now slots.new.loads.now slots.new.slots.now }
    ensures lens_after { slots_in slots.new.count slots.new.cells.now slots.new.lens.now ≡ merged_in sheet.now terms from.now to.now entries.now (slots_in slots.old.count slots.old.cells.now slots.old.lens.now) }
    ensures as_long { SlotsAsLong slots.old.cells.now slots.old.lens.now slots.old.loads.now slots.old.slots.now slots.new.cells.now slots.new.lens.now slots.new.loads.now slots.new.slots.now }
    ensures lent { SlotsLent slots.old slots.new }
{
    let mut trial = [0u16; sheet::MOST_ROWS];
    for &entry in entries {
        let e = entry as usize;
        merge(sheet, terms, from[e], to[e], slots, &mut trial);
    }
}
