// The sweep (Gillett and Miller 1974): stops by their angle from the depot, packed into rounds in that order.
// O(n log n) to sort n stops; where windows or limits are asked, a round is walked at each stop, O(n^2) at most.
#![tactic(auto)]

mod angle;
mod by_angle;
mod rounds;

ghost use Rattle.std.specs.Prelude.{◌≡◌, ◌<◌};
ghost use Rattle.sheet.specs.Fields.{vehicles_of};
ghost use Rattle.constructive.specs.Lent.{Lent};
ghost use Rattle.constructive.specs.Stored.{Stored, Room, filled_by};
ghost use Rattle.constructive.specs.Members.{part, Members};
ghost use Rattle.sweep.specs.Sweep.{sweep};

use constructive::tables::{Filled, RouteTables};
use constructive::terms;
use evaluation::limits;
use sheet::Sheet;

// The members stand in `stops` from where the tables are filled up to `total`, ascending; the vehicle is the depot's first, by
// its index. Answers how far the tables are filled with the rounds; the stops set aside stand after them, up to `total`.
pub fn sweep(
    sheet: &Sheet,
    depot: usize,
    vehicle: u16,
    tables: &mut RouteTables,
    filled: Filled,
    total: usize,
) -> Filled
    requires members { Members sheet.now depot tables.old.stops.now filled.routed total }
    requires room { Room tables.old.ends.now tables.old.vehicles.now filled total }
    requires vehicle_bound { vehicle < vehicles_of sheet.now }
    ensures value { result ≡ filled_by filled (sweep sheet.now depot vehicle (part tables.old.stops.now filled.routed total)).rounds }
    ensures stored { Stored tables.old.stops.now tables.old.ends.now tables.old.vehicles.now filled (sweep sheet.now depot vehicle (part tables.old.stops.now filled.routed total)) tables.new.stops.now tables.new.ends.now tables.new.vehicles.now }
    ensures lent { Lent tables.old tables.new }
{
    let start = filled.routed;
    let limits = limits::limits_at(sheet, vehicle as usize);
    let stops = &mut *tables.stops;
    let terms = terms::terms_with(sheet, depot, vehicle, &stops[start..total], limits);
    let mut scratch = [0u16; sheet::MOST_ROWS];
    by_angle::sort_by_angle(sheet, depot, &mut stops[start..total], &mut scratch);
    rounds::pack(sheet, terms, tables, filled, total)
}
