// Nearest neighbour: without a rest it ignores windows and waiting.
ghost use Rattle.std.specs.Prelude.{◌≡◌, ◌<◌};
ghost use Rattle.sheet.specs.Fields.{rows_of};
ghost use Rattle.evaluation_clock.specs.Sums.{◌⊕◌};
ghost use Rattle.sheet.specs.Values.{stop_of, time_of};
ghost use Rattle.nearest_neighbor_choice.specs.Offers.{there_and_home};
ghost use Rattle.nearest_neighbor_choice.specs.Heuristic.{Nearest as plain_rule};
ghost use Rattle.nearest_neighbor_choice.specs.Partial.{trip_of, allows_by, PartialRoute};

use crate::choice::StopChoice;
use crate::partial::Partial;
use crate::rule::Rule;
use crate::{choice, partial};
use evaluation::limits::RouteLimits;
use sheet::Sheet;
use sheet::vehicle::{Vehicle, VehicleBreak};

// Whether the limits are kept with the row as the last stop.
fn fits(sheet: &Sheet, depot: usize, limits: RouteLimits, partial: Partial, row: usize) -> bool
    requires partial_route { PartialRoute sheet.now partial }
    requires row_bound { (row < rows_of sheet.now) × (depot < rows_of sheet.now) }
    ensures { result ≡ allows_by sheet.now depot limits partial.rest row (there_and_home sheet.now depot (trip_of partial) row) (partial.clock ⊕ time_of sheet.now partial.current row ⊕ (stop_of sheet.now row).service ⊕ time_of sheet.now row depot) }
{
    let stop = sheet.stop_at(row);
    let duration = partial.clock
        + sheet.travel_time(partial.current, row)
        + stop.service
        + sheet.travel_time(row, depot);
    partial::allows(sheet, depot, limits, partial, row, duration)
}

#[derive(Clone, Copy)]
pub struct NearestNeighbor;

impl Rule for NearestNeighbor {
    ghost which = { λ _. plain_rule };

    fn ignores_due(self, rest: Option<VehicleBreak>) -> bool {
        rest.is_none()
    }

    // What is no nearer is not looked at further.
    fn nearer(
        self,
        sheet: &Sheet,
        depot: usize,
        vehicle: Vehicle,
        limits: RouteLimits,
        partial: Partial,
        best: StopChoice,
        j: usize,
        row: u16,
    ) -> StopChoice {
        let at = row as usize;
        let distance = sheet.distance(partial.current, at);
        if choice::wins(distance, best)
            && partial::carries(sheet, vehicle, partial, at)
            && fits(sheet, depot, limits, partial, at)
        {
            return Some((j, distance));
        }
        best
    }

    // It grows by the leg and the service, summed first.
    fn clock_at(self, sheet: &Sheet, partial: Partial, row: usize) -> f64 {
        let stop = sheet.stop_at(row);
        partial.clock + (sheet.travel_time(partial.current, row) + stop.service)
    }
}
