// Insertion (Solomon 1987): the farthest stop opens a round, and the cheapest insertion joins it until none is left.
// O(n^3) places of n stops in all; where windows or limits are asked, a place that may win is walked, O(n^4) at most.
#![tactic(auto)]

mod growing;
mod seed;

ghost use Rattle.std.specs.Prelude.{◌≡◌, ◌<◌};
ghost use Rattle.sheet.specs.Fields.{vehicles_of};
ghost use Rattle.constructive.specs.Lent.{Lent};
ghost use Rattle.constructive.specs.Stored.{Stored, Room, filled_by};
ghost use Rattle.constructive.specs.Members.{part, Members};
ghost use Rattle.solomon_i1.specs.Insertion.{solomon_i1};

use constructive::tables::{Filled, RouteTables};
use constructive::terms;
use sheet::Sheet;

// The members stand in `stops` from where the tables are filled up to `total`, ascending; the vehicle, by its index, makes
// all rounds. Answers how far the tables are filled with the rounds; the stops set aside stand after them, up to `total`.
pub fn solomon_i1(
    sheet: &Sheet,
    depot: usize,
    vehicle: u16,
    tables: &mut RouteTables,
    filled: Filled,
    total: usize,
) -> Filled
    requires members { Members sheet.now depot tables.old.stops.now filled.routed total }
    requires room { Room tables.old.ends.now tables.old.vehicles.now filled total }
    requires vehicle_bound { vehicle < vehicles_of sheet.now }
    ensures value { result ≡ filled_by filled (solomon_i1 sheet.now depot vehicle (part tables.old.stops.now filled.routed total)).rounds }
    ensures stored { Stored tables.old.stops.now tables.old.ends.now tables.old.vehicles.now filled (solomon_i1 sheet.now depot vehicle (part tables.old.stops.now filled.routed total)) tables.new.stops.now tables.new.ends.now tables.new.vehicles.now }
    ensures lent { Lent tables.old tables.new }
{
    let start = filled.routed;
    // `&mut` though it is only read: of a field that was lent as `&` a proof knows no element afterwards
    let stops: &[u16] = &mut *tables.stops;
    let terms = terms::terms_of(sheet, depot, vehicle, &stops[start..total]);
    let mut trial = [0u16; sheet::MOST_ROWS];
    growing::lay_rounds(sheet, terms, tables, filled, total, &mut trial)
}
