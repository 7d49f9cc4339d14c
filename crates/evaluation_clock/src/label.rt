// The vehicle at a stop with its service done.
ghost use Rattle.std.specs.Prelude.{◌≡◌};
ghost use Rattle.evaluation_clock.specs.Serve.{rest_place, rest_start, at_depot, leaving_at, late_by, rested_at, departure_of, later_of, visit_of, serve_of, serve_rested};
ghost use Rattle.evaluation_clock.specs.Clock.{step_of, step_rested, earlier_of};

use crate::window;
use sheet::customer::{Gate, Stop, Window};
use sheet::vehicle::VehicleBreak;

// Where the rest stands: before the stop counted so, from 1, with its start.
pub type RestAnswer = Option<(u16, f64)>;

// The stop before which it stands, 0 where there is none.
pub fn rest_place(rest: RestAnswer) -> u16
    ensures { result ≡ rest_place rest }
{
    rest.map_or(0, |(place, _)| place)
}

// When it starts, 0 where there is none.
pub fn rest_start(rest: RestAnswer) -> f64
    ensures { result ≡ rest_start rest }
{
    rest.map_or(0.0, |(_, start)| start)
}

#[derive(Clone, Copy)]
pub struct Label {
    pub time: f64,
    pub lateness: f64,
    pub lateness_cost: f64,
    pub rest: RestAnswer,
}

// At the depot at 0.
pub fn start() -> Label
    ensures { result ≡ at_depot }
{
    let rest = None;
    Label {
        time: 0.0,
        lateness: 0.0,
        lateness_cost: 0.0,
        rest,
    }
}

// The later of two times; the first where one is no number, or both are zeros of either sign, as `f64::max` would not have it.
pub fn later(a: f64, b: f64) -> f64
    ensures { result ≡ later_of a b }
{
    if a < b { b } else { a }
}

// The same answer, put together anew: its fields then go from stop to stop in registers, and not as bytes of memory.
fn rebuilt(rest: RestAnswer) -> RestAnswer
    ensures { result ≡ rest }
{
    match rest {
        None => None,
        Some((place, start)) => Some((place, start)),
    }
}

fn leaving(label: Label, time: f64) -> Label
    ensures { result ≡ leaving_at label time }
{
    let answer = label.rest;
    let rest = rebuilt(answer);
    Label {
        time,
        lateness: label.lateness,
        lateness_cost: label.lateness_cost,
        rest,
    }
}

fn late_by(label: Label, penalty: f64, late: f64) -> Label
    ensures { result ≡ late_by label penalty late }
{
    Label {
        lateness: label.lateness + late,
        lateness_cost: label.lateness_cost + penalty * late,
        ..label
    }
}

fn departure(w: Window, arrival: f64, service: f64) -> f64
    ensures { result ≡ departure_of w arrival service }
{
    (arrival + window::waiting(w, arrival)) + service
}

// The wait and the service at a stop, for a vehicle that is there at `arrival`.
pub fn visit(label: Label, arrival: f64, stop: Stop) -> Option<Label>
    ensures { result ≡ visit_of label arrival stop }
{
    let service = stop.service;
    let gate = stop.gate;
    match gate {
        Gate::Open => Some(leaving(label, arrival + service)),
        Gate::Hard(w) => {
            if window::violated(w, arrival) {
                return None;
            }
            Some(leaving(label, departure(w, arrival, service)))
        }
        Gate::Soft(w, penalty) => {
            let time = departure(w, arrival, service);
            if window::violated(w, arrival) {
                let late = late_by(label, penalty, window::lateness(w, arrival));
                return Some(leaving(late, time));
            }
            Some(leaving(label, time))
        }
    }
}

// One stop: the way there, then the visit.
pub fn serve(label: Label, travel: f64, stop: Stop) -> Option<Label>
    ensures { result ≡ serve_of label travel stop }
{
    visit(label, label.time + travel, stop)
}

fn rested(label: Label, place: u16, start: f64) -> Label
    ensures { result ≡ rested_at label place start }
{
    let rest = Some((place, start));
    Label { rest, ..label }
}

// One stop with the rest before it. It is a function of its own and not a case of `serve`: each then holds one visit, and is inlined.
pub fn serve_rested(
    label: Label,
    travel: f64,
    stop: Stop,
    place: u16,
    rest: VehicleBreak,
) -> Option<Label>
    ensures { result ≡ serve_rested label travel stop place rest }
{
    let start = later(label.time + travel, rest.earliest);
    if rest.latest < start {
        return None;
    }
    visit(rested(label, place, start), start + rest.duration, stop)
}

// The same two, likewise apart, from a label that may be gone.
pub fn step(from: Option<Label>, travel: f64, stop: Stop) -> Option<Label>
    ensures { result ≡ step_of from travel stop }
{
    serve(from?, travel, stop)
}

pub fn step_rested(
    from: Option<Label>,
    travel: f64,
    stop: Stop,
    place: u16,
    rest: VehicleBreak,
) -> Option<Label>
    ensures { result ≡ step_rested from travel stop place rest }
{
    serve_rested(from?, travel, stop, place, rest)
}

// Whether a label is preferred to one that is carried.
fn wins_over(y: Label, x: Label) -> bool
    ensures { result ≡ Rattle.evaluation_clock.specs.Clock.wins_over y x }
{
    (y.time, y.lateness_cost) < (x.time, x.lateness_cost)
}

// Of two labels the one with the smaller time, then with the smaller lateness cost, then the first. Each is put together anew,
// so that neither has to lie in memory to be chosen from.
pub fn earlier(carried: Option<Label>, here: Option<Label>) -> Option<Label>
    ensures { result ≡ earlier_of carried here }
{
    match carried {
        None => match here {
            None => None,
            Some(y) => Some(leaving(y, y.time)),
        },
        Some(x) => match here {
            None => Some(leaving(x, x.time)),
            Some(y) => {
                if wins_over(y, x) {
                    return Some(leaving(y, y.time));
                }
                Some(leaving(x, x.time))
            }
        },
    }
}
