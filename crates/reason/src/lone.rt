// What holds of a stop's lone round: each rule by itself, and the first that does. The rules are handed what was read of the
// vehicle, so that none reads it again; their clauses speak of whichever vehicle that is.
ghost use Rattle.std.specs.Prelude.{◌≡◌, ◌<◌, ℕ, not, [], ◌∷◌};
ghost use Rattle.sheet.specs.Fields.{rows_of, vehicles_of};
ghost use Rattle.sheet.specs.Values.{vehicle_of};
ghost use Rattle.evaluation.specs.Limits.{within_of, limits_at};
ghost use Rattle.evaluation.specs.Routed.{Routed};
ghost use Rattle.reason.specs.Reason.{over_capacity, misses_hard, window_missed, over_distance, over_plain_duration, plain_reason, walked_reason, lone_reason};
ghost use Rattle.reason.specs.Asked.{Lone};
ghost use Rattle.reason.specs.Told.{FirstReason, DecidesLone};

use crate::Reason;
use evaluation::limits::RouteLimits;
use evaluation::{limits, schedule};
use evaluation_clock::clock::Schedule;
use evaluation_clock::window;
use sheet::Sheet;
use sheet::customer::Gate;
use sheet::method::Method;
use sheet::vehicle::Vehicle;

// Limits are inclusive: a figure that equals its maximum is not over it.
fn is_over(max: Option<f64>, x: f64) -> bool
    ensures { result ≡ not (within_of max x) }
{
    !max.is_none_or(|end| x <= end)
}

#[tactic(auto, unfolding(crate::specs::Reason::over_capacity))]
fn over_capacity(sheet: &Sheet, vehicle: Vehicle, row: u16) -> bool
    requires { row < rows_of sheet.now }
    ensures { (index : ℕ) → vehicle ≡ vehicle_of sheet.now index → result ≡ over_capacity sheet.now index row }
{
    vehicle.capacity < sheet.demand(row as usize)
}

fn misses_hard(gate: Gate, arrival: f64) -> bool
    ensures { result ≡ misses_hard gate arrival }
{
    match gate {
        Gate::Open | Gate::Soft(_, _) => false,
        Gate::Hard(w) => window::violated(w, arrival),
    }
}

// On the walk without a rest.
#[tactic(auto, unfolding(crate::specs::Reason::window_missed))]
fn window_missed(sheet: &Sheet, depot: usize, row: u16) -> bool
    requires { (depot < rows_of sheet.now) × (row < rows_of sheet.now) }
    ensures { result ≡ window_missed sheet.now depot row }
{
    let gate = sheet.stop_at(row as usize).gate;
    misses_hard(gate, 0.0 + sheet.travel_time(depot, row as usize))
}

// The schedule of the lone round that ends soonest; none where a hard window is missed or the rest has no place.
fn soonest(sheet: &Sheet, depot: usize, limits: RouteLimits, row: u16) -> Option<Schedule>
    requires { Routed sheet.now depot (row ∷ []) }
    ensures { DecidesLone sheet.now depot row limits result }
{
    match limits.rest {
        None => schedule::walk(sheet, &[row], depot),
        Some(b) => schedule::schedule(sheet, &[row], depot, b, limits.at_home),
    }
}

#[tactic(auto, unfolding(crate::specs::Reason::over_distance))]
fn over_distance(sheet: &Sheet, depot: usize, max: Option<f64>, row: u16) -> bool
    requires { (depot < rows_of sheet.now) × (row < rows_of sheet.now) }
    ensures { (index : ℕ) → max ≡ (limits_at sheet.now index).max_distance → result ≡ over_distance sheet.now depot index row }
{
    let row = row as usize;
    let distance = 0.0 + sheet.distance(depot, row) + sheet.distance(row, depot);
    is_over(max, distance)
}

// By plain nearest neighbour's own sum, which counts no waiting.
#[tactic(auto, unfolding(crate::specs::Reason::over_plain_duration))]
fn over_plain_duration(sheet: &Sheet, depot: usize, vehicle: Vehicle, row: u16) -> bool
    requires { (depot < rows_of sheet.now) × (row < rows_of sheet.now) }
    ensures { (index : ℕ) → vehicle ≡ vehicle_of sheet.now index → result ≡ over_plain_duration sheet.now depot index row }
{
    let row = row as usize;
    let there = 0.0 + sheet.travel_time(depot, row);
    let duration = there + sheet.stop_at(row).service + sheet.travel_time(row, depot);
    is_over(vehicle.max_duration, duration)
}

// What plain nearest neighbour asks of a vehicle without a rest.
#[tactic(auto, unfolding(crate::specs::Reason::plain_reason))]
fn plain_reason(sheet: &Sheet, depot: usize, vehicle: Vehicle, row: u16) -> Option<Reason>
    requires { (depot < rows_of sheet.now) × (row < rows_of sheet.now) }
    ensures { (index : ℕ) → vehicle ≡ vehicle_of sheet.now index → FirstReason result (plain_reason sheet.now depot index row) }
{
    if over_capacity(sheet, vehicle, row) {
        return Some(Reason::OverCapacity);
    }
    if over_distance(sheet, depot, vehicle.max_distance, row) {
        return Some(Reason::OverDistance);
    }
    over_plain_duration(sheet, depot, vehicle, row).then_some(Reason::OverDuration)
}

// The window is the quickest to ask. The round is walked once: every schedule of it drives the same legs, so that one keeps the
// greatest duration exactly if the one that ends soonest does.
#[tactic(auto, unfolding(crate::specs::Reason::walked_reason))]
fn walked_reason(sheet: &Sheet, depot: usize, index: usize, row: u16) -> Option<Reason>
    requires { Lone sheet.now depot index row }
    ensures { FirstReason result (walked_reason sheet.now depot index row) }
{
    if window_missed(sheet, depot, row) {
        return Some(Reason::WindowMissed);
    }
    sheet.accepted();
    let limits = limits::limits_at(sheet, index);
    let Some(schedule) = soonest(sheet, depot, limits, row) else {
        return Some(Reason::NoRestPlace);
    };
    if over_distance(sheet, depot, limits.max_distance, row) {
        return Some(Reason::OverDistance);
    }
    is_over(limits.max_duration, schedule.duration).then_some(Reason::OverDuration)
}

// The first that holds of the vehicle's lone round with the stop; none where it could make the round.
#[tactic(auto, unfolding(crate::specs::Reason::lone_reason))]
pub fn lone_reason(sheet: &Sheet, depot: usize, index: usize, row: u16) -> Option<Reason>
    requires { Lone sheet.now depot index row }
    ensures { FirstReason result (lone_reason sheet.now depot index row) }
{
    let vehicle = sheet.vehicle_at(index);
    let method = sheet.method();
    if method == Method::NearestNeighbor && vehicle.rest.is_none() {
        return plain_reason(sheet, depot, vehicle, row);
    }
    if method != Method::Savings && over_capacity(sheet, vehicle, row) {
        return Some(Reason::OverCapacity);
    }
    walked_reason(sheet, depot, index, row)
}
