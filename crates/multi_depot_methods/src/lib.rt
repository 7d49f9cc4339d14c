// A depot's members given to the constructor of the sheet's method, with the depot's vehicles.
#![tactic(auto)]

ghost use Rattle.std.specs.Prelude.{◌≡◌, true, false, ℕ, ◌-◌, ◌≤◌, ◌<◌, length};
ghost use Rattle.lists.specs.Count.{count};
ghost use Rattle.sheet.specs.Fields.{vehicles_of, method_of, header_size};
ghost use Rattle.constructive.specs.Lent.{Lent};
ghost use Rattle.constructive.specs.Stored.{Stored, Room, filled_by};
ghost use Rattle.constructive.specs.Members.{part, Members};
ghost use Rattle.multi_depot_offers.specs.ByDepot.{with_vehicle};
ghost use Rattle.multi_depot_offers.specs.Promises.{Ready, construct_at};

use constructive::tables::{Filled, RouteTables};
use multi_depot_offers::members;
use sheet::method::Method;
use sheet::{Sheet, method};

// Savings with the depot's first vehicle, by way of the large tables; without one every stop is set aside, as it stands. Not
// inlined, so that no other planning has its frame.
#[inline(never)]
pub fn by_savings(
    sheet: &Sheet,
    depot: usize,
    tables: &mut RouteTables,
    filled: Filled,
    total: usize,
) -> Filled
    requires ready { Ready sheet.now depot tables.old.stops.now tables.old.ends.now tables.old.vehicles.now filled total }
    requires sheet_value { method_of sheet.now ≡ 0 }
    ensures value { result ≡ filled_by filled (construct_at sheet.now depot (part tables.old.stops.now filled.routed total)).rounds }
    ensures stored { Stored tables.old.stops.now tables.old.ends.now tables.old.vehicles.now filled (construct_at sheet.now depot (part tables.old.stops.now filled.routed total)) tables.new.stops.now tables.new.ends.now tables.new.vehicles.now }
    ensures lent { Lent tables.old tables.new }
{
    let mut fleet = [0u16; sheet::MOST_VEHICLES];
    if members::fleet_of(sheet, depot, &mut fleet) == 0 {
        return filled;
    }
    clarke_wright::clarke_wright_savings(sheet, depot, fleet[0], tables, filled, total)
}

// One vehicle for all rounds: savings of few members, insertion or sweep, by the method.
fn with_vehicle(
    sheet: &Sheet,
    depot: usize,
    vehicle: u16,
    tables: &mut RouteTables,
    filled: Filled,
    total: usize,
) -> Filled
    requires members { Members sheet.now depot tables.old.stops.now filled.routed total }
    requires room { Room tables.old.ends.now tables.old.vehicles.now filled total }
    requires vehicle_bound { vehicle < vehicles_of sheet.now }
    requires by_index { (x : ℕ) → count x (part tables.old.stops.now filled.routed total) ≤ 1 }
    requires routed_bound { method_of sheet.now ≡ 0 → total - filled.routed ≤ 24 }
    ensures value { result ≡ filled_by filled (with_vehicle sheet.now depot (part tables.old.stops.now filled.routed total) vehicle).rounds }
    ensures stored { Stored tables.old.stops.now tables.old.ends.now tables.old.vehicles.now filled (with_vehicle sheet.now depot (part tables.old.stops.now filled.routed total) vehicle) tables.new.stops.now tables.new.ends.now tables.new.vehicles.now }
    ensures lent { Lent tables.old tables.new }
{
    match sheet.method() {
        Method::Savings => clarke_wright::clarke_wright_few(
            sheet, depot, vehicle, tables, filled, total,
        ),
        Method::Insertion => {
            solomon_i1::solomon_i1(sheet, depot, vehicle, tables, filled, total)
        }
        // The nearest neighbours take the whole fleet, and come here by no caller; the definition `with_vehicle` has their case too.
        // One match, in `construct`, would ask for a first vehicle in each of three arms.
        Method::NearestNeighbor | Method::NearestNeighborTw | Method::Sweep => {
            sweep::sweep(sheet, depot, vehicle, tables, filled, total)
        }
    }
}

// Every other planning: the nearest neighbours with the depot's vehicles, the other methods with the first. Likewise.
#[inline(never)]
pub fn construct(
    sheet: &Sheet,
    depot: usize,
    tables: &mut RouteTables,
    filled: Filled,
    total: usize,
) -> Filled
    requires ready { Ready sheet.now depot tables.old.stops.now tables.old.ends.now tables.old.vehicles.now filled total }
    requires routed_bound { method_of sheet.now ≡ 0 → total - filled.routed ≤ 24 }
    ensures value { result ≡ filled_by filled (construct_at sheet.now depot (part tables.old.stops.now filled.routed total)).rounds }
    ensures stored { Stored tables.old.stops.now tables.old.ends.now tables.old.vehicles.now filled (construct_at sheet.now depot (part tables.old.stops.now filled.routed total)) tables.new.stops.now tables.new.ends.now tables.new.vehicles.now }
    ensures lent { Lent tables.old tables.new }
{
    let mut table = [0u16; sheet::MOST_VEHICLES];
    let n = members::fleet_of(sheet, depot, &mut table);
    let fleet = &table[0..n];
    let method = sheet.method();
    match method {
        Method::NearestNeighbor => {
            nearest_neighbor::nearest_neighbor(sheet, depot, fleet, tables, filled, total)
        }
        Method::NearestNeighborTw => {
            nearest_neighbor::nearest_neighbor_tw(sheet, depot, fleet, tables, filled, total)
        }
        Method::Savings | Method::Insertion | Method::Sweep => {
            if n == 0 {
                return filled;
            }
            with_vehicle(sheet, depot, fleet[0], tables, filled, total)
        }
    }
}

// Whether savings are asked of more members than `construct` takes them of. The contract leaves the choice for fewer members
// open: either way the outcome is the same.
pub fn saves_many(sheet: &[u8], members: usize) -> bool
    requires { header_size ≤ length sheet.now }
    ensures sheet_value { result ≡ true → method_of sheet.now ≡ 0 }
    ensures members_bound { result ≡ false → method_of sheet.now ≡ 0 → members ≤ 24 }
{
    matches!(method::method_of(sheet), Ok(Method::Savings)) && 24 < members
}
