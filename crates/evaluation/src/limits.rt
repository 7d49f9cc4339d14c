// What a vehicle and its depot ask of a round besides the capacity.
ghost use Rattle.std.specs.Prelude.{◌≡◌, ◌<◌};
ghost use Rattle.sheet.specs.Fields.{rows_of, vehicles_of};
ghost use Rattle.evaluation.specs.Limits.{limits_of, latest_return, lower_of, returning_by, limits_at, is_unlimited, within_of, allow_of};

use sheet::Sheet;
use sheet::customer::Gate;
use sheet::vehicle::{Vehicle, VehicleBreak};

// `at_home` says that the rest may be taken at the depot on return, and a sheet may say so only of a vehicle with a rest. It stands
// beside the rest: the clocks take the rest alone, and who reads the flag has the rest or its clock in hand already.
#[derive(Clone, Copy)]
pub struct RouteLimits {
    pub max_distance: Option<f64>,
    pub max_duration: Option<f64>,
    pub rest: Option<VehicleBreak>,
    pub at_home: bool,
}

// Limits are inclusive: a figure that equals its maximum keeps it.
fn within(max: Option<f64>, x: f64) -> bool
    ensures { result ≡ within_of max x }
{
    max.is_none_or(|end| x <= end)
}

// The vehicle's own limits, without its depot's due and without a rest at home.
pub fn limits_of(vehicle: Vehicle) -> RouteLimits
    ensures { result ≡ limits_of vehicle }
{
    RouteLimits {
        max_distance: vehicle.max_distance,
        max_duration: vehicle.max_duration,
        rest: vehicle.rest,
        at_home: false,
    }
}

// When a round has to be home by the gate of its depot. A penalty there changes nothing.
fn latest_return(gate: Gate) -> Option<f64>
    ensures { result ≡ latest_return gate }
{
    match gate {
        Gate::Open => None,
        Gate::Hard(w) | Gate::Soft(w, _) => Some(w.due),
    }
}

// Put together anew, so that neither has to lie in memory to be chosen from.
fn lower(a: Option<f64>, b: Option<f64>) -> Option<f64>
    ensures { result ≡ lower_of a b }
{
    match (a, b) {
        (Some(x), Some(y)) => Some(if y < x { y } else { x }),
        (Some(x), None) => Some(x),
        (None, Some(y)) => Some(y),
        (None, None) => None,
    }
}

fn returning_by(due: Option<f64>, at_home: bool, limits: RouteLimits) -> RouteLimits
    ensures { result ≡ returning_by due at_home limits }
{
    RouteLimits {
        max_duration: lower(limits.max_duration, due),
        at_home,
        ..limits
    }
}

// The limits of the vehicle at `index` of the sheet.
pub fn limits_at(sheet: &Sheet, index: usize) -> RouteLimits
    requires { (index < vehicles_of sheet.now) × (0 < rows_of sheet.now) }
    ensures { result ≡ limits_at sheet.now index }
{
    let vehicle = sheet.vehicle_at(index);
    let depot = vehicle.depot as usize;
    let home = sheet.stop_at(depot);
    let at_home = sheet.rests_home(index);
    returning_by(latest_return(home.gate), at_home, limits_of(vehicle))
}

impl RouteLimits {
    // Whether there is no maximum and no rest.
    pub fn is_unlimited(self) -> bool
        ensures { result ≡ is_unlimited self }
    {
        self.max_distance.is_none() && self.max_duration.is_none() && self.rest.is_none()
    }

    // Whether a round of these figures keeps the limits.
    pub fn allow(self, distance: f64, duration: f64) -> bool
        ensures { result ≡ allow_of self distance duration }
    {
        within(self.max_distance, distance) && within(self.max_duration, duration)
    }
}
