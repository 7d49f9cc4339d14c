// The clock of a round with a rest: one label with the rest still to take, and one with it taken.
ghost use Rattle.std.specs.Prelude.{◌≡◌, ◌+◌, ◌<◌, Some};
ghost use Rattle.sheet.specs.Fields.{rows_of};
ghost use Rattle.evaluation_clock.specs.Clocked.{Clocked};
ghost use Rattle.sheet.specs.Values.{time_of};
ghost use Rattle.evaluation_clock.specs.Clock.{started, next_of, alive_of, home_schedule, end_of, finish_of, clock_of, break_clock, next_by};

use crate::label;
use crate::label::{Label, RestAnswer};
use sheet::Sheet;
use sheet::customer::Stop;
use sheet::vehicle::VehicleBreak;

// What a round comes to, depot to depot.
#[derive(Clone, Copy)]
pub struct Schedule {
    pub distance: f64,
    pub duration: f64,
    pub lateness: f64,
    pub lateness_cost: f64,
    pub rest: RestAnswer,
}

#[derive(Clone, Copy)]
pub struct BreakClock {
    pub rest: VehicleBreak,
    pub before: Option<Label>,
    pub after: Option<Label>,
    pub prev: usize,
    pub place: u16,
}

// The label back at the depot.
pub fn home(label: Label, distance: f64, back: f64, rest: RestAnswer) -> Schedule
    ensures { result ≡ home_schedule label distance back rest }
{
    Schedule {
        distance,
        duration: label.time + back,
        lateness: label.lateness,
        lateness_cost: label.lateness_cost,
        rest,
    }
}

fn ended(after: Option<Label>, distance: f64, back: f64) -> Option<Schedule>
    ensures { result ≡ end_of after distance back }
{
    let l = after?;
    Some(home(l, distance, back, l.rest))
}

impl BreakClock {
    // At the depot at 0, with the rest to take.
    pub fn new(rest: VehicleBreak, depot: usize) -> Self
        ensures { result ≡ break_clock rest (started (Some rest) depot) }
    {
        BreakClock {
            rest,
            before: Some(label::start()),
            after: None,
            prev: depot,
            place: 1,
        }
    }

    // Whether some way of placing the rest serves the stops so far. Where none does, no longer round is served.
    pub fn alive(self) -> bool
        ensures { result ≡ alive_of (clock_of self) }
    {
        self.before.is_some() || self.after.is_some()
    }

    // Drives on to `row`, one stop further. Inlined wherever it is asked, so that the clock goes on in registers.
    #[inline(always)]
    pub fn next(self, sheet: &Sheet, row: usize) -> Self
        requires clocked { Clocked sheet.now self }
        requires row_bound { row < rows_of sheet.now }
        ensures { result ≡ next_by sheet.now self row }
    {
        let travel = sheet.travel_time(self.prev, row);
        let stop = sheet.stop_at(row);
        let rest = self.rest;
        let before = self.before;
        let after = self.after;
        let place = self.place;
        let skipped = label::step(before, travel, stop);
        let here = label::step_rested(before, travel, stop, place, rest);
        let carried = label::step(after, travel, stop);
        let taken = label::earlier(carried, here);
        let next = place + 1;
        BreakClock {
            rest,
            before: skipped,
            after: taken,
            prev: row,
            place: next,
        }
    }

    // The same, in the clock that is lent. Answers whether it is alive.
    #[tactic(auto, unfolding(crate::specs::Clock::moved_of))]
    pub fn push(&mut self, sheet: &Sheet, row: usize) -> bool
        requires clocked { Clocked sheet.now self.old }
        requires row_bound { row < rows_of sheet.now }
        ensures clock { self.new ≡ next_by sheet.now self.old row }
        ensures alive { result ≡ alive_of (next_of sheet.now (clock_of self.old) row) }
    {
        *self = self.next(sheet, row);
        self.alive()
    }

    // The way home, with `distance` driven in all: without the rest if the return is not after `earliest`.
    pub fn finish(self, sheet: &Sheet, distance: f64, depot: usize) -> Option<Schedule>
        requires clocked { Clocked sheet.now self }
        requires depot_bound { depot < rows_of sheet.now }
        ensures { result ≡ finish_of (clock_of self) distance (time_of sheet.now self.prev depot) }
    {
        let back = sheet.travel_time(self.prev, depot);
        let Some(l) = self.before else {
            return ended(self.after, distance, back);
        };
        if l.time + back <= self.rest.earliest {
            return Some(home(l, distance, back, None));
        }
        ended(self.after, distance, back)
    }
}
