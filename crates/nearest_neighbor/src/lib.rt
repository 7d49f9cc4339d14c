// The nearest neighbours (with windows: Solomon 1987): each vehicle in turn drives on to the best stop left.
// Every choice looks at each stop left once: O(n^2 + n v) for n stops and v vehicles, with a rest or without one.
#![tactic(auto)]

pub mod greedy;

ghost use Rattle.std.specs.Prelude.{◌≡◌};
ghost use Rattle.constructive.specs.Lent.{Lent};
ghost use Rattle.constructive.specs.Stored.{Stored, Room, filled_by};
ghost use Rattle.constructive.specs.Members.{part, Members, Fleet};
ghost use Rattle.nearest_neighbor.specs.Nearest.{nearest_neighbor, nearest_neighbor_tw};

use constructive::tables::{Filled, RouteTables};
use nearest_neighbor_choice::nearest::NearestNeighbor;
use nearest_neighbor_choice::nn_tw::NearestNeighborTw;
use sheet::Sheet;

// The members stand in `stops` from where the tables are filled up to `total`, ascending; the fleet is the depot's vehicles.
// Answers how far the tables are filled with the rounds; the stops set aside stand after them, up to `total`.
pub fn nearest_neighbor(
    sheet: &Sheet,
    depot: usize,
    fleet: &[u16],
    tables: &mut RouteTables,
    filled: Filled,
    total: usize,
) -> Filled
    requires members { Members sheet.now depot tables.old.stops.now filled.routed total }
    requires room { Room tables.old.ends.now tables.old.vehicles.now filled total }
    requires fleet { Fleet sheet.now fleet.now }
    ensures value { result ≡ filled_by filled (nearest_neighbor sheet.now depot (part tables.old.stops.now filled.routed total) fleet.now).rounds }
    ensures stored { Stored tables.old.stops.now tables.old.ends.now tables.old.vehicles.now filled (nearest_neighbor sheet.now depot (part tables.old.stops.now filled.routed total) fleet.now) tables.new.stops.now tables.new.ends.now tables.new.vehicles.now }
    ensures lent { Lent tables.old tables.new }
{
    greedy::lay_rounds(sheet, depot, NearestNeighbor, fleet, tables, filled, total)
}

// The same with windows.
pub fn nearest_neighbor_tw(
    sheet: &Sheet,
    depot: usize,
    fleet: &[u16],
    tables: &mut RouteTables,
    filled: Filled,
    total: usize,
) -> Filled
    requires members { Members sheet.now depot tables.old.stops.now filled.routed total }
    requires room { Room tables.old.ends.now tables.old.vehicles.now filled total }
    requires fleet { Fleet sheet.now fleet.now }
    ensures value { result ≡ filled_by filled (nearest_neighbor_tw sheet.now depot (part tables.old.stops.now filled.routed total) fleet.now).rounds }
    ensures stored { Stored tables.old.stops.now tables.old.ends.now tables.old.vehicles.now filled (nearest_neighbor_tw sheet.now depot (part tables.old.stops.now filled.routed total) fleet.now) tables.new.stops.now tables.new.ends.now tables.new.vehicles.now }
    ensures lent { Lent tables.old tables.new }
{
    let start = filled.routed;
    // `&mut` though it is only read: of a field that was lent as `&` a proof knows no element afterwards
    let stops: &[u16] = &mut *tables.stops;
    let soft = evaluation::checks::has_soft_windows(sheet, depot, &stops[start..total]);
    greedy::lay_rounds(
        sheet,
        depot,
        NearestNeighborTw { soft },
        fleet,
        tables,
        filled,
        total,
    )
}
