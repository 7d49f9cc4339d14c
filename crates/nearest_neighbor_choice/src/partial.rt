// A round so far, with what a next stop is judged by.
ghost use Rattle.std.specs.Prelude.{◌≡◌, ◌<◌};
ghost use Rattle.sheet.specs.Fields.{rows_of};
ghost use Rattle.nearest_neighbor_choice.specs.Offers.{there_and_home};
ghost use Rattle.nearest_neighbor_choice.specs.Partial.{trip_of, empty_partial, clock_for, pushed_by, allows_by, allows_on_way, allows_home, partial_carries, PartialRoute, ClockKept};

use evaluation::keeping;
use evaluation::limits::RouteLimits;
use evaluation_clock::clock::BreakClock;
use sheet::Sheet;
use sheet::vehicle::{Vehicle, VehicleBreak};

// The clock after the round so far, where the vehicle has a rest to place.
#[derive(Clone, Copy)]
pub struct Partial {
    pub current: usize,
    pub served: usize,
    pub load: u32,
    pub travelled: f64,
    pub clock: f64,
    pub rest: Option<BreakClock>,
}

fn clock_for(rest: Option<VehicleBreak>, depot: usize) -> Option<BreakClock>
    ensures { result ≡ clock_for rest depot }
{
    rest.map(|b| BreakClock::new(b, depot))
}

// At the depot at 0, with nothing loaded.
pub fn empty_partial(rest: Option<VehicleBreak>, depot: usize) -> Partial
    ensures { result ≡ empty_partial rest depot }
{
    let clock = clock_for(rest, depot);
    Partial {
        current: depot,
        served: 0,
        load: 0,
        travelled: 0.0,
        clock: 0.0,
        rest: clock,
    }
}

// The clock driven on to `row`.
#[tactic(auto, unfolding(crate::specs::Partial::pushed_by))]
pub fn pushed_by(sheet: &Sheet, kept: Option<BreakClock>, row: usize) -> Option<BreakClock>
    requires clock_kept { ClockKept sheet.now kept }
    requires row_bound { row < rows_of sheet.now }
    ensures { result ≡ pushed_by sheet.now kept row }
{
    let clock = kept?;
    Some(clock.next(sheet, row))
}

// Whether the vehicle can load what the row asks.
pub fn carries(sheet: &Sheet, vehicle: Vehicle, partial: Partial, row: usize) -> bool
    requires partial_route { PartialRoute sheet.now partial }
    requires row_bound { row < rows_of sheet.now }
    ensures { result ≡ partial_carries sheet.now vehicle partial row }
{
    partial.load + sheet.demand(row) <= vehicle.capacity
}

// Whether the limits are kept with the row as the last stop and no rest at home: by the clock, where there is one to keep;
// else by the distance and the duration that are given. Depot, limits, row and distance go apart here and in `allows_home`, as in
// `evaluation::keeping`, which is called with them.
pub fn allows_on_way(
    sheet: &Sheet,
    depot: usize,
    limits: RouteLimits,
    kept: Option<BreakClock>,
    row: usize,
    distance: f64,
    duration: f64,
) -> bool
    requires clock_kept { ClockKept sheet.now kept }
    requires row_bound { (row < rows_of sheet.now) × (depot < rows_of sheet.now) }
    ensures { result ≡ allows_on_way sheet.now depot limits kept row distance duration }
{
    match kept {
        None => limits.allow(distance, duration),
        Some(clock) => keeping::keeps_with(clock, sheet, row, depot, distance, limits),
    }
}

// Whether they are kept with the rest at home, where the vehicle has one and may take it there: asked only of what is
// turned down.
pub fn allows_home(
    sheet: &Sheet,
    depot: usize,
    limits: RouteLimits,
    kept: Option<BreakClock>,
    row: usize,
    distance: f64,
) -> bool
    requires clock_kept { ClockKept sheet.now kept }
    requires row_bound { (row < rows_of sheet.now) × (depot < rows_of sheet.now) }
    ensures { result ≡ allows_home sheet.now depot limits kept row distance }
{
    match kept {
        None => false,
        Some(clock) => {
            limits.at_home && keeping::keeps_home(clock, sheet, row, depot, distance, limits)
        }
    }
}

// Whether the limits are kept with the row as the last stop, and the duration as given where there is no clock to keep.
// Each rule judges every stop by it, so it is inlined in both.
#[inline(always)]
pub fn allows(
    sheet: &Sheet,
    depot: usize,
    limits: RouteLimits,
    partial: Partial,
    row: usize,
    duration: f64,
) -> bool
    requires partial_route { PartialRoute sheet.now partial }
    requires row_bound { (row < rows_of sheet.now) × (depot < rows_of sheet.now) }
    ensures { result ≡ allows_by sheet.now depot limits partial.rest row (there_and_home sheet.now depot (trip_of partial) row) duration }
{
    let kept = partial.rest;
    let distance = partial.travelled
        + sheet.distance(partial.current, row)
        + sheet.distance(row, depot);
    allows_on_way(sheet, depot, limits, kept, row, distance, duration)
        || allows_home(sheet, depot, limits, kept, row, distance)
}
