// Each stop starts on a round of its own, or is set aside.
ghost use Rattle.std.specs.Prelude.{◌≡◌, ℕ, ◌+◌, ◌≤◌, ◌<◌, length, replicate, take};
ghost use Rattle.lists.specs.Count.{count};
ghost use Rattle.sheet.specs.Fields.{rows_of, most_rows};
ghost use Rattle.evaluation.specs.Routed.{Routed};
ghost use Rattle.clarke_wright_savings.specs.Savings.{starts_of, aside_of};
ghost use Rattle.clarke_wright_slots.specs.Slots.{slots_in, Roomy, Slotted, RouteStarted, SlotsAsLong};
ghost use Rattle.clarke_wright_slots.specs.Lent.{SlotsLent};

use crate::RouteSlots;
use constructive::terms::Terms;
use sheet::Sheet;

impl RouteSlots<'_> {
    // A slot with one stop.
    fn start_route(&mut self, sheet: &Sheet, row: u16, slot: usize)
        requires row_bound { row < rows_of sheet.now }
        requires roomy { Roomy (slot + 1) self.old.cells.now self.old.lens.now self.old.loads.now self.old.slots.now }
        ensures route_started { RouteStarted sheet.now row slot self.old.cells.now self.old.lens.now self.old.loads.now self.old.slots.now self.new.cells.now self.new.lens.now self.new.loads.now self.new.slots.now }
        ensures lent { SlotsLent self.old self.new }
    {
        sheet.accepted();
        self.cells[sheet::MOST_ROWS * slot] = row;
        self.lens[slot] = 1;
        self.loads[slot] = sheet.demand(row as usize);
        self.slots[row as usize] = slot as u16;
    }

    // A slot for each member, in order; the stops that no round can take stand in `aside`. Answers how many those are, and not
    // that part of it: of a table that is lent on nothing can be said when the call ends.
    pub fn start(
        &mut self,
        sheet: &Sheet,
        terms: Terms,
        members: &[u16],
        aside: &mut [u16],
    ) -> usize
        requires routed { Routed sheet.now terms.depot members.now }
        requires by_index { (x : ℕ) → count x members.now ≤ 1 }
        requires roomy { Roomy (length members.now) self.old.cells.now self.old.lens.now self.old.loads.now self.old.slots.now }
        requires most_rows_in_bounds { most_rows ≤ length aside.old }
        ensures value { result ≡ length (aside_of sheet.now terms members.now) }
        ensures aside_after { take result aside.new ≡ aside_of sheet.now terms members.now }
        ensures count_after { self.new.count ≡ length members.now }
        ensures slotted { Slotted sheet.now self.new.count self.new.cells.now self.new.lens.now self.new.loads.now self.new.slots.now }
        ensures lens_after { slots_in self.new.count self.new.cells.now self.new.lens.now ≡ starts_of sheet.now terms members.now }
        ensures as_long { SlotsAsLong self.old.cells.now self.old.lens.now self.old.loads.now self.old.slots.now self.new.cells.now self.new.lens.now self.new.loads.now self.new.slots.now }
        ensures lent { SlotsLent self.old self.new }
    {
        // No row has a round yet.
        self.slots.fill(members.len() as u16);
        let mut end: usize = 0;
        for (k, &row) in members.iter().enumerate() {
            if terms.fits(sheet, &[row]) {
                self.start_route(sheet, row, k);
                continue;
            }
            self.lens[k] = 0;
            self.loads[k] = 0;
            aside[end] = row;
            end += 1;
        }
        self.count = members.len();
        end
    }
}
