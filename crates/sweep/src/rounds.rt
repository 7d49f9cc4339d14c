// Stops packed into rounds in the order in which they stand, in place: the rounds closed come first, then the one that is
// being filled, the stops not met yet, and those set aside.
ghost use Rattle.std.specs.Prelude.{◌≡◌, [], ◌∷◌, ◌++◌, ◌+◌, ◌≤◌, ◌<◌, length, get_or};
ghost use Rattle.wire.specs.Bytes.{write};
ghost use Rattle.sheet.specs.Values.{demand_of};
ghost use Rattle.evaluation.specs.Routed.{Routed};
ghost use Rattle.constructive.specs.Load.{load_of};
ghost use Rattle.constructive.specs.Lent.{Lent};
ghost use Rattle.constructive.specs.Stored.{Stored, Room, filled_by};
ghost use Rattle.constructive.specs.Members.{part, Members};
ghost use Rattle.sweep.specs.Sweep.{unservable, closes, swept_by};
ghost use Rattle.sweep.specs.Met.{Midway, Met};

use constructive::tables;
use constructive::tables::{Filled, RouteTables};
use constructive::terms::Terms;
use sheet::Sheet;

// How far the tables are filled with the rounds closed; where the round that is being filled ends, and its load; where the
// stops not met yet end.
#[derive(Clone, Copy)]
pub struct Packing {
    pub filled: Filled,
    pub end: usize,
    pub load: u32,
    pub mid: usize,
}

// Whether no round can take the stop at `at`, even alone.
fn is_unservable(sheet: &Sheet, terms: Terms, stops: &[u16], at: usize, demand: u32) -> bool
    requires routed { Routed sheet.now terms.depot (part stops.now at (at + 1)) }
    requires at_in_bounds { at < length stops.now }
    requires demand_value { demand ≡ demand_of sheet.now (get_or stops.now at 0) }
    ensures { result ≡ unservable sheet.now terms (get_or stops.now at 0) }
{
    if terms.capacity < demand {
        return true;
    }
    let next = at + 1;
    !terms.fits(sheet, &stops[at..next])
}

// Whether the round from `start` to `end` closes before the stop at `end`, with which it has this load. It is not walked with
// the stop where the load closes it already.
fn is_closing(
    sheet: &Sheet,
    terms: Terms,
    stops: &[u16],
    start: usize,
    end: usize,
    load: u32,
) -> bool
    requires routed { Routed sheet.now terms.depot (part stops.now start (end + 1)) }
    requires start_le_end { (start ≤ end) × (end < length stops.now) }
    requires load_value { load ≡ load_of sheet.now (part stops.now start end) + demand_of sheet.now (get_or stops.now end 0) }
    ensures { result ≡ closes sheet.now terms (part stops.now start end) (get_or stops.now end 0) }
{
    if start == end {
        return false;
    }
    if terms.capacity < load {
        return true;
    }
    let next = end + 1;
    !terms.fits(sheet, &stops[start..next])
}

// The stop at `at` goes behind those up to `total`.
fn set_aside(stops: &mut [u16], at: usize, total: usize)
    requires { (at < total) × (total ≤ length stops.old) }
    ensures { stops.new ≡ write stops.old at (part stops.old (at + 1) total ++ (get_or stops.old at 0 ∷ [])) }
{
    tables::send_last(&mut stops[..total], at);
}

// The next stop is set aside, begins a round, or joins the one that is being filled.
fn meet(
    sheet: &Sheet,
    terms: Terms,
    tables: &mut RouteTables,
    packing: Packing,
    total: usize,
) -> Packing
    requires members { Members sheet.now terms.depot tables.old.stops.now packing.filled.routed total }
    requires room { Room tables.old.ends.now tables.old.vehicles.now packing.filled total }
    requires midway { Midway sheet.now tables.old.stops.now packing total }
    ensures met { Met sheet.now terms total tables.old.stops.now tables.old.ends.now tables.old.vehicles.now packing tables.new.stops.now tables.new.ends.now tables.new.vehicles.now result }
    ensures lent { Lent tables.old tables.new }
{
    let filled = packing.filled;
    let end = packing.end;
    let stops = &mut *tables.stops;
    let demand = sheet.demand(stops[end] as usize);
    if is_unservable(sheet, terms, stops, end, demand) {
        set_aside(stops, end, total);
        return Packing {
            mid: packing.mid - 1,
            ..packing
        };
    }
    let load = packing.load + demand;
    if is_closing(sheet, terms, stops, filled.routed, end, load) {
        let closed = tables.close_round(filled, terms.vehicle, end);
        return Packing {
            filled: closed,
            end: end + 1,
            load: demand,
            ..packing
        };
    }
    Packing {
        end: end + 1,
        load,
        ..packing
    }
}

// Packs the stops from where the tables are filled up to `total`.
pub fn pack(
    sheet: &Sheet,
    terms: Terms,
    tables: &mut RouteTables,
    filled: Filled,
    total: usize,
) -> Filled
    requires members { Members sheet.now terms.depot tables.old.stops.now filled.routed total }
    requires room { Room tables.old.ends.now tables.old.vehicles.now filled total }
    ensures value { result ≡ filled_by filled (swept_by sheet.now terms (part tables.old.stops.now filled.routed total)).rounds }
    ensures stored { Stored tables.old.stops.now tables.old.ends.now tables.old.vehicles.now filled (swept_by sheet.now terms (part tables.old.stops.now filled.routed total)) tables.new.stops.now tables.new.ends.now tables.new.vehicles.now }
    ensures lent { Lent tables.old tables.new }
{
    let mut packing = Packing {
        filled,
        end: filled.routed,
        load: 0,
        mid: total,
    };
    // No range: a turn moves one of the two ends, the round's or that of the stops not met yet.
    while packing.end < packing.mid {
        packing = meet(sheet, terms, tables, packing, total);
    }
    let closed = packing.filled;
    let end = packing.end;
    if closed.routed == end {
        return closed;
    }
    tables.close_round(closed, terms.vehicle, end)
}
