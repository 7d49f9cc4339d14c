// An arrival at a window. Callers know these functions by their definitions alone.
ghost use Rattle.std.specs.Prelude.{◌≡◌};
ghost use Rattle.evaluation_clock.specs.Window.{violated_of, waiting_of, lateness_of, service_start};

use sheet::customer::{Gate, Window};

pub fn violated(w: Window, arrival: f64) -> bool
    ensures { result ≡ violated_of w arrival }
{
    w.due < arrival
}

// How long an early vehicle waits. Added to the arrival it may come out other than `ready`. Here and in `lateness` not by `max`,
// for the reason that stands at `label::later`.
pub fn waiting(w: Window, arrival: f64) -> f64
    ensures { result ≡ waiting_of w arrival }
{
    let ready = w.ready;
    if arrival < ready {
        ready - arrival
    } else {
        0.0
    }
}

// When the service begins: arrival, plus the wait. The nearest neighbours ask it of every candidate.
#[inline(always)]
pub fn service_start(gate: Gate, arrival: f64) -> f64
    ensures { result ≡ service_start gate arrival }
{
    match gate {
        Gate::Open => arrival,
        Gate::Hard(w) | Gate::Soft(w, _) => arrival + waiting(w, arrival),
    }
}

// How long after `due` an arrival is.
pub fn lateness(w: Window, arrival: f64) -> f64
    ensures { result ≡ lateness_of w arrival }
{
    let late = arrival - w.due;
    if late < 0.0 { 0.0 } else { late }
}
