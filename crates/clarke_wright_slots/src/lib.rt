// The rounds so far, each in a slot.
#![tactic(auto)]

pub mod laying;
pub mod starting;

ghost use Rattle.std.specs.Prelude.{◌≡◌, cond, reverse, ℕ, ◌+◌, ◌*◌, ◌≤◌, ◌<◌, ltb, length, get_or, take};
ghost use Rattle.sheet.specs.Fields.{most_rows};
ghost use Rattle.lists.specs.Count.{count};
ghost use Rattle.wire.specs.Bytes.{write};
ghost use Rattle.clarke_wright_slots.specs.Slots.{slot_at, Roomy, or_reversed, end_to_end, SlotTaken};
ghost use Rattle.clarke_wright_slots.specs.Lent.{SlotsLent};

// The stops of slot k stand in `cells` from 101 times k on, `lens` says how many they are, `loads` what they ask of a vehicle,
// `slots` has the slot of each row, and `count` slots are in use. A row with no round has `count` in `slots`: a u16 for each row is
// all it takes. Without a heap there is no Vec of rounds. Lengths and loads are two tables: a round is read by the one, a merge is
// tried by the other, and together they would take a third as much again. Each is lent at a length of its own, and each function
// that is lent this struct leaves the slices in it that it found there (`SlotsLent`).
#[derive(Drop)]
pub struct RouteSlots<'a> {
    pub cells: &'a mut [u16],
    pub lens: &'a mut [u16],
    pub loads: &'a mut [u32],
    pub slots: &'a mut [u16],
    pub count: usize,
}

// Tables of a caller's own, for slots with so many stops in all, which it lends in `RouteSlots`.
#[derive(Drop)]
pub struct SlotArrays<const CELLS: usize> {
    pub cells: [u16; CELLS],
    pub lens: [u16; sheet::MOST_ROWS],
    pub loads: [u32; sheet::MOST_ROWS],
    pub slots: [u16; sheet::MOST_ROWS],
}

impl<const CELLS: usize> SlotArrays<CELLS> {
    pub fn new() -> Self
        ensures { (n : ℕ) → n ≤ most_rows → n * most_rows ≤ CELLS → Roomy n result.cells result.lens result.loads result.slots }
    {
        SlotArrays {
            cells: [0; CELLS],
            lens: [0; sheet::MOST_ROWS],
            loads: [0; sheet::MOST_ROWS],
            slots: [0; sheet::MOST_ROWS],
        }
    }

    // The stops of slot k: `RouteSlots::route` for who has the arrays to be read alone, and can't lend them to be written.
    pub fn route(&self, k: usize) -> &[u16]
        requires celled { (k < most_rows) × (k * most_rows + most_rows ≤ length self.now.cells) }
        requires long { get_or self.now.lens k 0 ≤ most_rows }
        ensures { result.now ≡ slot_at self.now.cells self.now.lens k }
    {
        let start = k * sheet::MOST_ROWS;
        let cells = &self.cells[..];
        &cells[start..start + self.lens[k] as usize]
    }
}

// Copies a round over the front of a table, last stop first. By a loop: `copy_from_slice` and `reverse` take twice the time.
fn copy_back(route: &[u16], to: &mut [u16])
    requires { length route.now ≤ length to.old }
    ensures { to.new ≡ write to.old 0 (reverse route.now) }
{
    let n = route.len();
    for i in 0..n {
        to[n - 1 - i] = route[i];
    }
}

fn copy_turned(route: &[u16], back: bool, to: &mut [u16])
    requires { length route.now ≤ length to.old }
    ensures { to.new ≡ write to.old 0 (or_reversed back route.now) }
{
    if back {
        copy_back(route, to);
        return;
    }
    to[..route.len()].copy_from_slice(route);
}

// Lays two rounds end to end, each as it is or reversed; answers how many stops they have.
pub fn join(into: &[u16], from: &[u16], back: bool, forth: bool, trial: &mut [u16]) -> usize
    requires { length into.now + length from.now ≤ length trial.old }
    ensures value { result ≡ length into.now + length from.now }
    ensures trial_after { take result trial.new ≡ end_to_end back forth into.now from.now }
{
    let half = into.len();
    copy_turned(into, back, trial);
    copy_turned(from, forth, &mut trial[half..]);
    half + from.len()
}

// Notes for each row of a round that it is in this slot.
fn relabel(slots: &mut [u16], route: &[u16], slot: u16)
    requires { (k : ℕ) → k < length route.now → get_or route.now k 0 < length slots.old }
    ensures { (x : ℕ) → x < length slots.old → get_or slots.new x 0 ≡ cond (ltb 0 (count x route.now)) slot (get_or slots.old x 0) }
{
    for &row in route {
        slots[row as usize] = slot;
    }
}

impl RouteSlots<'_> {
    // The stops of slot k.
    pub fn route(&self, k: usize) -> &[u16]
        requires celled { (k < most_rows) × (k * most_rows + most_rows ≤ length self.now.cells.now) }
        requires measured { k < length self.now.lens.now }
        requires long { get_or self.now.lens.now k 0 ≤ most_rows }
        ensures { result.now ≡ slot_at self.now.cells.now self.now.lens.now k }
    {
        let at = k * sheet::MOST_ROWS;
        &self.cells[at..at + self.lens[k] as usize]
    }

    // Empties slot `from` into slot `into`, which then has these stops.
    pub fn take_over(&mut self, into: usize, from: usize, stops: &[u16])
        requires roomy { Roomy (into + 1) self.old.cells.now self.old.lens.now self.old.loads.now self.old.slots.now }
        requires roomy_2 { Roomy (from + 1) self.old.cells.now self.old.lens.now self.old.loads.now self.old.slots.now }
        requires stops_len_bound { length stops.now ≤ most_rows }
        requires from_bound { get_or self.old.lens.now from 0 ≤ most_rows }
        requires by_index { (k : ℕ) → k < get_or self.old.lens.now from 0 → get_or (slot_at self.old.cells.now self.old.lens.now from) k 0 < most_rows }
        requires from_bound_2 { get_or self.old.loads.now into 0 + get_or self.old.loads.now from 0 < 0x1_0000_0000 }
        ensures slot_taken { SlotTaken self.old.cells.now self.old.lens.now self.old.loads.now self.old.slots.now into from stops.now self.new.cells.now self.new.lens.now self.new.loads.now self.new.slots.now }
        ensures slots_len { length self.new.slots.now ≡ length self.old.slots.now }
        ensures count_kept { self.new.count ≡ self.old.count }
        ensures lent { SlotsLent self.old self.new }
    {
        let at = into * sheet::MOST_ROWS;
        let start = from * sheet::MOST_ROWS;
        let gone = self.lens[from] as usize;
        let cells = &mut *self.cells;
        relabel(self.slots, &cells[start..start + gone], into as u16);
        cells[at..at + stops.len()].copy_from_slice(stops);
        self.lens[into] = stops.len() as u16;
        self.lens[from] = 0;
        self.loads[into] += self.loads[from];
        self.loads[from] = 0;
    }
}

#[cfg(test)]
mod tests {
    use super::*;

    #[test]
    fn reads_the_stops_of_a_slot(rt: HostRuntime) {
        let mut arrays = SlotArrays::<202>::new();
        // the second slot begins at place 101
        arrays.cells[101] = 7;
        arrays.cells[102] = 9;
        arrays.lens[1] = 2;
        assert!(rt; arrays.route(1) == [7u16, 9].as_slice());
    }
}
