// A round's record: what each stop's visit and the whole round come to, and what a plan costs.
#![tactic(auto)]

ghost use Rattle.std.specs.Prelude.{◌≡◌, ◌+◌, ◌*◌, ◌≤◌, ◌<◌, Some};
ghost use Rattle.sheet.specs.Fields.{rows_of};
ghost use Rattle.evaluation.specs.Routed.{Routed};
ghost use Rattle.evaluation.specs.Verdict.{held_to, verdict_on, placed_rest};
ghost use Rattle.evaluator.specs.Record.{placed_of, ready_for, late_after, cost_after, begin_of, visited_of, progress_of, record_of, build_route, route_cost, price_start, price_with};
ghost use Rattle.evaluator.specs.Driven.{Driven};

use evaluation::limits::RouteLimits;
use evaluation::schedule;
use evaluation_clock::clock::Schedule;
use evaluation_clock::label::RestAnswer;
use evaluation_clock::window;
use sheet::Sheet;
use sheet::customer::Gate;
use sheet::vehicle::{Vehicle, VehicleBreak};

// The round so far: its last visit, and what it has come to. `load` is after that visit.
#[derive(Clone, Copy)]
pub struct Progress {
    pub arrival: f64,
    pub departure: f64,
    pub load: u32,
    pub distance: f64,
    pub lateness: f64,
    pub lateness_cost: f64,
    pub prev: usize,
    pub place: u16,
}

// What a whole round comes to. It holds no `Schedule`, which is the clock's, where this is summed visit by visit: nothing makes one
// of the other, and each reader of a figure would name the field between.
#[derive(Clone, Copy)]
pub struct Record {
    pub load: u32,
    pub distance: f64,
    pub duration: f64,
    pub lateness: f64,
    pub lateness_cost: f64,
    pub rest: RestAnswer,
}

// The rest of a round: where it stands, and how long it is. Not one Option: a round's record tells the place and the start alone.
// Sheet and depot go beside it: a caller has the three of the sheet, of its vehicle and of the walk.
#[derive(Clone, Copy)]
pub struct Placed {
    pub answer: RestAnswer,
    pub duration: f64,
}

// Where the schedule has its rest, whatever the limits say of it.
fn answer(scheduled: Option<Schedule>) -> RestAnswer
    ensures { (limits : RouteLimits) → result ≡ placed_rest (held_to limits scheduled) }
{
    scheduled?.rest
}

// Where a vehicle that has a rest takes it. The limits are asked only where it may be at home: that is for a round that they
// turn down, and one that it does not mend keeps the schedule's.
fn rest_answer(
    sheet: &Sheet,
    route: &[u16],
    depot: usize,
    limits: RouteLimits,
    rest: VehicleBreak,
) -> RestAnswer
    requires routed { Routed sheet.now depot route.now }
    requires rest_value { limits.rest ≡ Some rest }
    ensures { result ≡ placed_rest (verdict_on sheet.now depot limits route.now) }
{
    if !limits.at_home {
        return answer(schedule::schedule(sheet, route, depot, rest, false));
    }
    match evaluation::eval_rested(sheet, route, depot, limits, rest) {
        Some(figures) => figures.rest,
        None => answer(schedule::schedule(sheet, route, depot, rest, false)),
    }
}

// The rest that a vehicle takes on a round; none where the round has no schedule.
pub fn place_rest(sheet: &Sheet, route: &[u16], depot: usize, limits: RouteLimits) -> Placed
    requires { Routed sheet.now depot route.now }
    ensures { result ≡ placed_of sheet.now depot limits route.now }
{
    match limits.rest {
        None => Placed {
            answer: None,
            duration: 0.0,
        },
        Some(b) => {
            let answer = rest_answer(sheet, route, depot, limits, b);
            Placed {
                answer,
                duration: b.duration,
            }
        }
    }
}

// When the vehicle is ready at the place counted so, a stop or home: on arrival, or after the rest there.
fn ready_for(answer: RestAnswer, duration: f64, place: u16, arrival: f64) -> f64
    ensures { result ≡ ready_for answer duration place arrival }
{
    match answer {
        None => arrival,
        Some((at, start)) => {
            if at == place {
                return start + duration;
            }
            arrival
        }
    }
}

// The lateness so far and its cost, after a stop that the vehicle is ready for at `ready`: a soft window that is missed counts.
#[tactic(auto, unfolding(crate::specs::Record::late_after, crate::specs::Record::cost_after))]
fn late_after(gate: Gate, ready: f64, late: f64, cost: f64) -> (f64, f64)
    ensures { (result.0 ≡ late_after gate ready late) × (result.1 ≡ cost_after gate ready cost) }
{
    match gate {
        Gate::Soft(w, penalty) if window::violated(w, ready) => {
            let more = window::lateness(w, ready);
            (late + more, cost + penalty * more)
        }
        _ => (late, cost),
    }
}

impl Progress {
    // At the depot at 0.
    pub fn new(depot: usize) -> Self
        ensures { result ≡ begin_of depot }
    {
        Progress {
            arrival: 0.0,
            departure: 0.0,
            load: 0,
            distance: 0.0,
            lateness: 0.0,
            lateness_cost: 0.0,
            prev: depot,
            place: 1,
        }
    }

    // The visit of one row more.
    pub fn visited(self, sheet: &Sheet, placed: Placed, row: usize) -> Self
        requires driven { Driven sheet.now self }
        requires row_bound { row < rows_of sheet.now }
        ensures { result ≡ visited_of sheet.now placed self row }
    {
        let prev = self.prev;
        let arrival = self.departure + sheet.travel_time(prev, row);
        let answer = placed.answer;
        let ready = ready_for(answer, placed.duration, self.place, arrival);
        let stop = sheet.stop_at(row);
        let gate = stop.gate;
        let (lateness, lateness_cost) = late_after(gate, ready, self.lateness, self.lateness_cost);
        Progress {
            arrival,
            departure: window::service_start(gate, ready) + stop.service,
            load: self.load + stop.demand,
            distance: self.distance + sheet.distance(prev, row),
            lateness,
            lateness_cost,
            prev: row,
            place: self.place + 1,
        }
    }

    // Home at `depot`.
    pub fn record(self, sheet: &Sheet, depot: usize, placed: Placed) -> Record
        requires { (self.prev < rows_of sheet.now) × (depot < rows_of sheet.now) }
        ensures { result ≡ record_of sheet.now depot placed self }
    {
        let prev = self.prev;
        let answer = placed.answer;
        let back = self.departure + sheet.travel_time(prev, depot);
        Record {
            load: self.load,
            distance: self.distance + sheet.distance(prev, depot),
            duration: ready_for(answer, placed.duration, self.place, back),
            lateness: self.lateness,
            lateness_cost: self.lateness_cost,
            rest: answer,
        }
    }
}

// The round so far after `route`, with its rest where `placed` says.
pub fn progress_after(sheet: &Sheet, route: &[u16], depot: usize, placed: Placed) -> Progress
    requires { Routed sheet.now depot route.now }
    ensures value { result ≡ progress_of sheet.now placed (begin_of depot) route.now }
    ensures prev_bound { result.prev < rows_of sheet.now }
{
    let mut progress = Progress::new(depot);
    for &stop in route {
        progress = progress.visited(sheet, placed, stop as usize);
    }
    progress
}

// The figures of a round from `depot` and back.
pub fn build_route(sheet: &Sheet, route: &[u16], depot: usize, limits: RouteLimits) -> Record
    requires { Routed sheet.now depot route.now }
    ensures { result ≡ build_route sheet.now depot limits route.now }
{
    let placed = place_rest(sheet, route, depot, limits);
    progress_after(sheet, route, depot, placed).record(sheet, depot, placed)
}

// What a round of `distance` costs.
pub fn route_cost(vehicle: Vehicle, distance: f64) -> f64
    ensures { result ≡ route_cost vehicle distance }
{
    vehicle.fixed_cost + vehicle.cost_per_distance * distance
}

// The cost of a plan without rounds.
pub fn price_start() -> f64
    ensures { result ≡ price_start }
{
    -0.0
}

// The cost of a plan with one round more. Lateness is priced like distance.
pub fn price_with(total: f64, vehicle: Vehicle, figures: Record) -> f64
    ensures { result ≡ price_with total vehicle figures }
{
    total + route_cost(vehicle, figures.distance + figures.lateness_cost)
}
