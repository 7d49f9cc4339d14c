// The vehicle with an id, in a list of vehicles that is lent.
#![tactic(auto)]

ghost use Rattle.std.specs.Prelude.{◌≡◌, ◌<◌, eqb, find, length};
ghost use Rattle.fleet_vehicle.specs.Find.{fleet_vehicle};

use sheet::vehicle::Vehicle;

// The first vehicle with the id.
fn with_id(vehicles: &[Vehicle], id: u32) -> Option<Vehicle>
    ensures { result ≡ find (λ v. eqb v.id id) vehicles.now }
{
    vehicles.iter().copied().find(|vehicle| vehicle.id == id)
}

// The first vehicle with the id; the first of all where none has it, so there must be one.
pub fn fleet_vehicle(vehicles: &[Vehicle], id: u32) -> Vehicle
    requires { 0 < length vehicles.now }
    ensures { result ≡ fleet_vehicle id vehicles.now }
{
    with_id(vehicles, id).unwrap_or(vehicles[0])
}
