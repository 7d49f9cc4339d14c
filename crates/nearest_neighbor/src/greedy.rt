// What both nearest neighbours share: each vehicle in turn grows one round by the best stop left.
ghost use Rattle.std.specs.Prelude.{◌≡◌, ◌++◌, ◌+◌, ◌<◌, length};
ghost use Rattle.wire.specs.Bytes.{write};
ghost use Rattle.sheet.specs.Fields.{rows_of, vehicles_of};
ghost use Rattle.sheet.specs.Values.{vehicle_of};
ghost use Rattle.constructive.specs.Lent.{Lent};
ghost use Rattle.constructive.specs.Stored.{Stored, Room, filled_by};
ghost use Rattle.constructive.specs.Members.{part, Members, Fleet};
ghost use Rattle.nearest_neighbor.specs.Greedy.{vehicle_round, greedy};
ghost use Rattle.nearest_neighbor_choice.specs.Partial.{PartialRoute};
ghost use Rattle.nearest_neighbor.specs.Heuristic.{limits_by, rule_of, onward_by};

use constructive::tables;
use constructive::tables::{Filled, RouteTables};
use evaluation::limits;
use evaluation::limits::RouteLimits;
use nearest_neighbor_choice::partial::Partial;
use nearest_neighbor_choice::rule::Rule;
use nearest_neighbor_choice::{partial, rule};
use sheet::Sheet;
use sheet::vehicle::Vehicle;

// What the rounds of the vehicle at `index` are held to.
fn limits_for<R: Rule>(sheet: &Sheet, rule: R, vehicle: Vehicle, index: usize) -> RouteLimits
    requires index_bound { (index < vehicles_of sheet.now) × (0 < rows_of sheet.now) }
    requires vehicle_value { vehicle ≡ vehicle_of sheet.now index }
    ensures { result ≡ limits_by sheet.now (R.which rule) index }
{
    if rule.ignores_due(vehicle.rest) {
        return limits::limits_of(vehicle);
    }
    limits::limits_at(sheet, index)
}

// The round one stop further.
fn drive_on<R: Rule>(sheet: &Sheet, rule: R, partial: Partial, row: usize) -> Partial
    requires partial_route { PartialRoute sheet.now partial }
    requires row_bound { row < rows_of sheet.now }
    ensures { result ≡ onward_by sheet.now (R.which rule) partial row }
{
    Partial {
        current: row,
        served: partial.served + 1,
        load: partial.load + sheet.demand(row),
        travelled: partial.travelled + sheet.distance(partial.current, row),
        clock: rule.clock_at(sheet, partial, row),
        rest: partial::pushed_by(sheet, partial.rest, row),
    }
}

// A vehicle's round of the stops from `start` to `total`: they then stand first, in order, and those that are left after
// them. Answers where the round ends.
fn grow_round<R: Rule>(
    sheet: &Sheet,
    depot: usize,
    rule: R,
    index: usize,
    stops: &mut [u16],
    start: usize,
    total: usize,
) -> usize
    requires members { Members sheet.now depot stops.old start total }
    requires index_bound { index < vehicles_of sheet.now }
    ensures value { result ≡ start + length (vehicle_round (rule_of sheet.now depot (R.which rule) index) depot (part stops.old start total)).stops }
    ensures stops_after { stops.new ≡ write stops.old start ((vehicle_round (rule_of sheet.now depot (R.which rule) index) depot (part stops.old start total)).stops ++ (vehicle_round (rule_of sheet.now depot (R.which rule) index) depot (part stops.old start total)).left) }
{
    let vehicle = sheet.vehicle_at(index);
    let limits = limits_for(sheet, rule, vehicle, index);
    let rest = limits.rest;
    let mut partial = partial::empty_partial(rest, depot);
    // by numbers: each is where the round may end, and that is answered
    for end in start..total {
        let Some((j, _)) = rule::nearest(
            rule,
            sheet,
            depot,
            vehicle,
            limits,
            partial,
            &stops[end..total],
        ) else {
            return end;
        };
        let from = end + j;
        partial = drive_on(sheet, rule, partial, stops[from] as usize);
        tables::bring(stops, end, from);
    }
    total
}

// Lays down the rounds of the fleet over the members, which stand in `stops` from where the tables are filled up to `total`.
pub fn lay_rounds<R: Rule>(
    sheet: &Sheet,
    depot: usize,
    rule: R,
    fleet: &[u16],
    tables: &mut RouteTables,
    filled: Filled,
    total: usize,
) -> Filled
    requires members { Members sheet.now depot tables.old.stops.now filled.routed total }
    requires room { Room tables.old.ends.now tables.old.vehicles.now filled total }
    requires fleet { Fleet sheet.now fleet.now }
    ensures value { result ≡ filled_by filled (greedy (rule_of sheet.now depot (R.which rule)) depot fleet.now (part tables.old.stops.now filled.routed total)).rounds }
    ensures stored { Stored tables.old.stops.now tables.old.ends.now tables.old.vehicles.now filled (greedy (rule_of sheet.now depot (R.which rule)) depot fleet.now (part tables.old.stops.now filled.routed total)) tables.new.stops.now tables.new.ends.now tables.new.vehicles.now }
    ensures lent { Lent tables.old tables.new }
{
    let mut done = filled;
    for &index in fleet {
        let start = done.routed;
        let end = grow_round(
            sheet,
            depot,
            rule,
            index as usize,
            tables.stops,
            start,
            total,
        );
        if end == start {
            continue;
        }
        done = tables.close_round(done, index, end);
    }
    done
}
