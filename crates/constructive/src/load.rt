// What the stops of a round ask of a vehicle.
ghost use Rattle.std.specs.Prelude.{◌≡◌, ℕ};
ghost use Rattle.evaluation.specs.Routed.{Routed};
ghost use Rattle.constructive.specs.Load.{load_of};

use sheet::Sheet;

// What its stops ask of a vehicle.
pub fn load_of(sheet: &Sheet, route: &[u16]) -> u32
    requires { (depot : ℕ) × Routed sheet.now depot route.now }
    ensures { result ≡ load_of sheet.now route.now }
{
    let mut load: u32 = 0;
    for &stop in route {
        load += sheet.demand(stop as usize);
    }
    load
}
