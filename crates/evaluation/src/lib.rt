// What a round is worth: its times, its lateness and its rest, and whether its vehicle allows it. Sheet, round, depot and limits
// are apart, as in the Rust and in the definitions.
#![tactic(auto)]

pub mod checks;
pub mod home;
pub mod keeping;
pub mod limits;
pub mod schedule;
pub mod walker;

ghost use Rattle.std.specs.Prelude.{◌≡◌, Some};
ghost use Rattle.evaluation.specs.Routed.{Routed};
ghost use Rattle.evaluation.specs.Verdict.{no_schedule, held_to, mended_by, is_feasible, eval_of};
ghost use Rattle.evaluation.specs.Feasible.{route_feasible, route_eval, priced_distance, cost_of, effective_cost};

use evaluation_clock::clock::Schedule;
use limits::RouteLimits;
use sheet::Sheet;
use sheet::vehicle::VehicleBreak;

// The schedule held to the limits.
pub fn eval_by(limits: RouteLimits, scheduled: Option<Schedule>) -> Option<Schedule>
    ensures { result ≡ eval_of (held_to limits scheduled) }
{
    scheduled.filter(|s| limits.allow(s.distance, s.duration))
}

// Whether it keeps them.
pub fn kept_by(limits: RouteLimits, scheduled: Option<Schedule>) -> bool
    ensures { result ≡ is_feasible (held_to limits scheduled) }
{
    eval_by(limits, scheduled).is_some()
}

// The figures with the rest at home, where the walk without it misses no hard window.
pub fn eval_home(
    limits: RouteLimits,
    rest: VehicleBreak,
    place: u16,
    plain: Option<Schedule>,
) -> Option<Schedule>
    ensures { result ≡ eval_of (mended_by limits rest place plain no_schedule) }
{
    let s = plain?;
    if home::mends(limits, rest, s.distance, s.duration) {
        return Some(home::rested(rest, place, s));
    }
    None
}

// The figures of a round of a vehicle with a rest, where it is feasible. The walk without the rest is made only where it can
// mend what is turned down.
pub fn eval_rested(
    sheet: &Sheet,
    route: &[u16],
    depot: usize,
    limits: RouteLimits,
    rest: VehicleBreak,
) -> Option<Schedule>
    requires routed { Routed sheet.now depot route.now }
    requires rest_value { limits.rest ≡ Some rest }
    ensures { result ≡ route_eval sheet.now depot limits route.now }
{
    let scheduled = schedule::schedule(sheet, route, depot, rest, false);
    if let Some(figures) = eval_by(limits, scheduled) {
        return Some(figures);
    }
    if !limits.at_home {
        return None;
    }
    let place = (route.len() + 1) as u16;
    eval_home(limits, rest, place, schedule::walk(sheet, route, depot))
}

// Whether a round from `depot` and back misses no hard window, has its rest placed or needs none, and keeps the limits.
// Capacity is not asked here.
pub fn route_feasible(sheet: &Sheet, route: &[u16], depot: usize, limits: RouteLimits) -> bool
    requires { Routed sheet.now depot route.now }
    ensures { result ≡ route_feasible sheet.now depot limits route.now }
{
    match limits.rest {
        None => kept_by(limits, schedule::walk(sheet, route, depot)),
        Some(b) => kept_by(
            limits,
            schedule::schedule(sheet, route, depot, b, limits.at_home),
        ),
    }
}

// The figures of a round, where it is feasible.
pub fn route_eval(
    sheet: &Sheet,
    route: &[u16],
    depot: usize,
    limits: RouteLimits,
) -> Option<Schedule>
    requires { Routed sheet.now depot route.now }
    ensures { result ≡ route_eval sheet.now depot limits route.now }
{
    match limits.rest {
        None => eval_by(limits, schedule::walk(sheet, route, depot)),
        Some(b) => eval_rested(sheet, route, depot, limits, b),
    }
}

// Lateness is priced like distance.
pub fn priced_distance(figures: Schedule) -> f64
    ensures { result ≡ priced_distance figures }
{
    figures.distance + figures.lateness_cost
}

fn cost(eval: Option<Schedule>) -> f64
    ensures { result ≡ cost_of eval }
{
    eval.map_or(f64::INFINITY, priced_distance)
}

// What a search minimises: infinite where the round is not allowed.
pub fn effective_cost(sheet: &Sheet, route: &[u16], depot: usize, limits: RouteLimits) -> f64
    requires { Routed sheet.now depot route.now }
    ensures { result ≡ effective_cost sheet.now depot limits route.now }
{
    cost(route_eval(sheet, route, depot, limits))
}
