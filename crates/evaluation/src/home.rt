// A rest at the depot on return.
ghost use Rattle.std.specs.Prelude.{◌≡◌, ◌<◌, Some};
ghost use Rattle.sheet.specs.Fields.{rows_of};
ghost use Rattle.sheet.specs.Values.{time_of};
ghost use Rattle.evaluation_clock.specs.Clocked.{Clocked};
ghost use Rattle.evaluation_clock.specs.Clock.{unrested};
ghost use Rattle.evaluation.specs.Verdict.{mends, rested_home};
ghost use Rattle.evaluation.specs.Soonest.{outlasts, sooner_of};

use crate::limits::RouteLimits;
use evaluation_clock::clock::{BreakClock, Schedule};
use evaluation_clock::{clock, label};
use sheet::Sheet;
use sheet::vehicle::VehicleBreak;

// Whether the rest may be taken after the return at `back`, and the limits are kept by its end.
pub fn mends(limits: RouteLimits, rest: VehicleBreak, distance: f64, back: f64) -> bool
    ensures { result ≡ mends limits rest distance back }
{
    let begun = label::later(back, rest.earliest);
    begun <= rest.latest && limits.allow(distance, begun + rest.duration)
}

// The schedule without a rest, with it at home.
pub fn rested(rest: VehicleBreak, place: u16, plain: Schedule) -> Schedule
    ensures { result ≡ rested_home rest place plain }
{
    let begun = label::later(plain.duration, rest.earliest);
    Schedule {
        duration: begun + rest.duration,
        rest: Some((place, begun)),
        ..plain
    }
}

// Whether a rest at home that ends at `end` ends before the schedule found, where there is one. Limits are of any bits here, and
// an end that is no number ends before nothing.
fn outlasts(found: Option<Schedule>, end: f64) -> bool
    ensures { result ≡ outlasts found end }
{
    found.is_none_or(|s| !(s.duration <= end) && end <= end)
}

// The schedule found, or the one without a rest with it at home, where that ends sooner.
fn sooner(
    rest: VehicleBreak,
    place: u16,
    plain: Schedule,
    found: Option<Schedule>,
) -> Option<Schedule>
    ensures { result ≡ sooner_of rest place (Some plain) found }
{
    let from = label::later(plain.duration, rest.earliest);
    if from <= rest.latest && outlasts(found, from + rest.duration) {
        return Some(rested(rest, place, plain));
    }
    found
}

// The schedule found of a clock, or the one with the rest at home, where that ends sooner.
pub fn finish(
    clock: BreakClock,
    sheet: &Sheet,
    distance: f64,
    depot: usize,
    found: Option<Schedule>,
) -> Option<Schedule>
    requires clocked { Clocked sheet.now clock }
    requires depot_bound { depot < rows_of sheet.now }
    ensures { result ≡ sooner_of clock.rest clock.place (unrested clock.before distance (time_of sheet.now clock.prev depot)) found }
{
    let back = sheet.travel_time(clock.prev, depot);
    let Some(l) = clock.before else {
        return found;
    };
    let plain = clock::home(l, distance, back, None);
    sooner(clock.rest, clock.place, plain, found)
}
