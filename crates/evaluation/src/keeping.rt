// Whether the limits are kept by a round with one stop more, from the clock of the round so far. Clock, sheet, depot and distance are
// each of another holder: the round so far, the host, its vehicle, and a sum that is made for the question.
ghost use Rattle.std.specs.Prelude.{◌≡◌, ◌<◌, Some};
ghost use Rattle.sheet.specs.Fields.{rows_of};
ghost use Rattle.sheet.specs.Values.{time_of};
ghost use Rattle.evaluation_clock.specs.Clocked.{Clocked};
ghost use Rattle.evaluation_clock.specs.Clock.{taken_of, next_of, unrested, end_of, finish_of, clock_of};
ghost use Rattle.evaluation.specs.Verdict.{no_schedule, held_to, mended_by, is_feasible};

use crate::home;
use crate::limits::RouteLimits;
use evaluation_clock::clock::BreakClock;
use evaluation_clock::label;
use sheet::Sheet;
use sheet::customer::Stop;

// Whether the limits are kept with the rest taken at the next stop or before, and the way home after it.
fn keeps_rested(
    clock: BreakClock,
    travel: f64,
    stop: Stop,
    back: f64,
    distance: f64,
    limits: RouteLimits,
) -> bool
    ensures { result ≡ is_feasible (held_to limits (end_of (taken_of (Some clock.rest) clock.before clock.after travel stop clock.place) distance back)) }
{
    let here = label::step_rested(clock.before, travel, stop, clock.place, clock.rest);
    let carried = label::step(clock.after, travel, stop);
    let Some(l) = label::earlier(carried, here) else {
        return false;
    };
    limits.allow(distance, l.time + back)
}

// Whether the limits are kept with `row` as the last stop and `distance` driven in all: the clock pushed on to it and
// brought home, of which only the time is asked. The rest at home is a question of its own, so that this one stays small
// enough to be inlined where every candidate is judged.
pub fn keeps_with(
    clock: BreakClock,
    sheet: &Sheet,
    row: usize,
    depot: usize,
    distance: f64,
    limits: RouteLimits,
) -> bool
    requires clocked { Clocked sheet.now clock }
    requires row_bound { (row < rows_of sheet.now) × (depot < rows_of sheet.now) }
    ensures { result ≡ is_feasible (held_to limits (finish_of (next_of sheet.now (clock_of clock) row) distance (time_of sheet.now row depot))) }
{
    let travel = sheet.travel_time(clock.prev, row);
    let back = sheet.travel_time(row, depot);
    let stop = sheet.stop_at(row);
    let Some(l) = label::step(clock.before, travel, stop) else {
        return keeps_rested(clock, travel, stop, back, distance, limits);
    };
    if l.time + back <= clock.rest.earliest {
        return limits.allow(distance, l.time + back);
    }
    keeps_rested(clock, travel, stop, back, distance, limits)
}

// Whether they are kept with the rest at home, for a vehicle that may take it there.
// Not one function with `keeps_with`: that took 1.03 to 1.72 of the instructions (docs/BENCHMARKS.md).
pub fn keeps_home(
    clock: BreakClock,
    sheet: &Sheet,
    row: usize,
    depot: usize,
    distance: f64,
    limits: RouteLimits,
) -> bool
    requires clocked { Clocked sheet.now clock }
    requires row_bound { (row < rows_of sheet.now) × (depot < rows_of sheet.now) }
    ensures { result ≡ is_feasible (mended_by limits clock.rest (next_of sheet.now (clock_of clock) row).place (unrested (next_of sheet.now (clock_of clock) row).before distance (time_of sheet.now row depot)) no_schedule) }
{
    let travel = sheet.travel_time(clock.prev, row);
    let back = sheet.travel_time(row, depot);
    let stop = sheet.stop_at(row);
    let Some(l) = label::step(clock.before, travel, stop) else {
        return false;
    };
    home::mends(limits, clock.rest, distance, l.time + back)
}
