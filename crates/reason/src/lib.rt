// Why a stop is set aside: the first rule that its lone round breaks, with the first vehicle of the depot tried last.
#![tactic(auto)]

ghost use Rattle.std.specs.Prelude.{◌≡◌, ◌&&◌, ◌+◌, ◌<◌, eqb, Some, IfSome, unwrap_or};
ghost use Rattle.std.specs.Option.{ForSome};
ghost use Rattle.sheet.specs.Depots.{depots_of};
ghost use Rattle.sheet.specs.Fields.{rows_of, vehicles_of};
ghost use Rattle.sheet.specs.Fleet.{fleet_of};
ghost use Rattle.sheet.specs.Values.{vehicle_of};
ghost use Rattle.reason.specs.Reason.{tried, last_tried, lone_reason, some_makes, is_nearest, reason_by, reason_of};
ghost use Rattle.reason.specs.Asked.{Lone};
ghost use Rattle.reason.specs.Told.{reason_number, fleet_from, fleet_by_first};

use multi_depot_offers::depots;
use sheet::Sheet;
use sheet::method::Method;

mod lone;

// The reasons of request Six, each with its number, but for the 8 of a stop that the limiter drops.
#[derive(Clone, Copy, Debug, PartialEq, Eq)]
pub enum Reason {
    NoVehicle = 1,
    OverCapacity = 2,
    WindowMissed = 3,
    NoRestPlace = 4,
    OverDistance = 5,
    OverDuration = 6,
    FleetUsedUp = 7,
}

impl From<Reason> for u16 {
    ghost from_gives = { λ reason number. number ≡ reason_number reason };

    fn from(reason: Reason) -> u16 {
        reason as u16
    }
}

// Whether depot d is tried after the last so far: it has a vehicle, and the last is nearer.
fn is_later(sheet: &Sheet, stop: usize, last: Option<usize>, d: usize) -> bool
    requires row { stop < rows_of sheet.now }
    requires last_bound { ForSome last (λ e. e < depots_of sheet.now) }
    requires d_lt_depots { d < depots_of sheet.now }
    ensures { result ≡ tried sheet.now stop (unwrap_or last (depots_of sheet.now)) d }
{
    let Some(last) = last else {
        return depots::has_vehicle(sheet, d);
    };
    depots::is_sooner(sheet, stop, last, d) && depots::has_vehicle(sheet, d)
}

// The depot that a stop is tried at last: of those with a vehicle the farthest.
fn last_tried(sheet: &Sheet, stop: usize) -> Option<usize>
    requires { stop < rows_of sheet.now }
    ensures value { unwrap_or result (depots_of sheet.now) ≡ last_tried sheet.now stop }
    ensures bound { IfSome result (λ d. d < depots_of sheet.now) }
{
    let mut last = None;
    // Over numbers: a depot is a row of the sheet, and no slice stands behind it.
    for d in 0..sheet.depots() {
        if is_later(sheet, stop, last, d) {
            last = Some(d);
        }
    }
    last
}

// The depot's first vehicle, by its index.
fn first_vehicle(sheet: &Sheet, depot: usize) -> Option<usize>
    ensures value { fleet_of sheet.now depot ≡ fleet_by_first sheet.now depot result }
    ensures bound { IfSome result (λ v. v < vehicles_of sheet.now) }
{
    (0..sheet.vehicles()).find(|&v| sheet.vehicle_at(v).depot as usize == depot)
}

// Whether a vehicle is the depot's and could make the lone round.
fn makes(sheet: &Sheet, depot: usize, index: usize, row: u16) -> bool
    requires { Lone sheet.now depot index row }
    ensures { result ≡ (eqb (vehicle_of sheet.now index).depot depot && eqb (lone_reason sheet.now depot index row) 7) }
{
    let is_own = sheet.vehicle_at(index).depot as usize == depot;
    is_own && lone::lone_reason(sheet, depot, index, row).is_none()
}

// Whether another vehicle of the depot could make the lone round.
fn another_makes(sheet: &Sheet, depot: usize, first: usize, row: u16) -> bool
    requires { Lone sheet.now depot first row }
    ensures { result ≡ some_makes sheet.now depot row (fleet_from sheet.now depot (first + 1)) }
{
    let vehicles = sheet.vehicles();
    (first + 1..vehicles).any(|v| makes(sheet, depot, v, row))
}

fn is_nearest(sheet: &Sheet) -> bool
    ensures { result ≡ is_nearest sheet.now }
{
    matches!(
        sheet.method(),
        Method::NearestNeighbor | Method::NearestNeighborTw
    )
}

// The reason by the depot's first vehicle and the others. For both nearest neighbours any of them could have taken the stop.
#[tactic(auto, unfolding(crate::specs::Reason::reason_by))]
fn reason_by(sheet: &Sheet, depot: usize, first: usize, row: u16) -> Reason
    requires { Lone sheet.now depot first row }
    ensures { reason_number result ≡ reason_by sheet.now depot row (fleet_by_first sheet.now depot (Some first)) }
{
    if is_nearest(sheet) && another_makes(sheet, depot, first, row) {
        return Reason::FleetUsedUp;
    }
    lone::lone_reason(sheet, depot, first, row).unwrap_or(Reason::FleetUsedUp)
}

// Why a stop is set aside.
pub fn reason_of(sheet: &Sheet, row: u16) -> Reason
    requires { row < rows_of sheet.now }
    ensures { reason_number result ≡ reason_of sheet.now row }
{
    sheet.accepted();
    let Some(depot) = last_tried(sheet, row as usize) else {
        return Reason::NoVehicle;
    };
    // A depot that is tried has a vehicle, so that this answer is never given; the definition has it too.
    let Some(first) = first_vehicle(sheet, depot) else {
        return Reason::NoVehicle;
    };
    reason_by(sheet, depot, first, row)
}
