// The rule that a round grows by. A stop is judged by the depot, the vehicle and its limits, which go apart: a struct of the three
// was tried, with 1.02 to 1.04 of the instructions of a plan of 50 and 101 rows by plain nearest neighbour.
ghost use Rattle.std.specs.Prelude.{◌≡◌, ℕ, ◌≤◌, ◌<◌, false, None, length, get_or};
ghost use Rattle.sheet.specs.Fields.{rows_of};
ghost use Rattle.sheet.specs.Values.{distance_of};
ghost use Rattle.evaluation.specs.Routed.{Routed};
ghost use Rattle.nearest_neighbor_choice.specs.Choice.{wins_of, better_stop, choose};
ghost use Rattle.nearest_neighbor_choice.specs.Heuristic.{Heuristic, ignores_due, offer_by, clock_by};
ghost use Rattle.nearest_neighbor_choice.specs.Partial.{PartialRoute};

use crate::choice;
use crate::choice::StopChoice;
use crate::partial::Partial;
use evaluation::limits::RouteLimits;
use sheet::Sheet;
use sheet::vehicle::{Vehicle, VehicleBreak};

// Either nearest neighbour.
pub trait Rule: Copy {
    // which of the two it is
    ghost which: { Self → Heuristic };

    // Whether the depot's due is passed over.
    fn ignores_due(self, rest: Option<VehicleBreak>) -> bool
        ensures { result ≡ ignores_due (which self) rest };

    // The better of the best so far and the stop at place j.
    fn nearer(
        self,
        sheet: &Sheet,
        depot: usize,
        vehicle: Vehicle,
        limits: RouteLimits,
        partial: Partial,
        best: StopChoice,
        j: usize,
        row: u16,
    ) -> StopChoice
        requires partial_route { PartialRoute sheet.now partial }
        requires row_bound { (row < rows_of sheet.now) × (depot < rows_of sheet.now) }
        ensures { result ≡ better_stop best j (offer_by sheet.now depot (which self) vehicle limits partial row) };

    // The clock after the stop.
    fn clock_at(self, sheet: &Sheet, partial: Partial, row: usize) -> f64
        requires partial_route { PartialRoute sheet.now partial }
        requires row_bound { row < rows_of sheet.now }
        ensures { result ≡ clock_by sheet.now (which self) partial row };
}

// The next place from `start` on whose stop is nearer than the key of the best so far, or the end. By either rule no stop before it
// wins: a key is not below the distance. Most stops are passed here, so this is a loop of its own, with little to a turn.
fn next_nearer(sheet: &Sheet, from: usize, best: StopChoice, left: &[u16], start: usize) -> usize
    requires from_bound { from < rows_of sheet.now }
    requires rows { (j : ℕ) → j < length left.now → get_or left.now j 0 < rows_of sheet.now }
    requires start_bound { start ≤ length left.now }
    ensures bounds { (start ≤ result) × (result ≤ length left.now) }
    ensures passed { (j : ℕ) → start ≤ j → j < result → wins_of (distance_of sheet.now from (get_or left.now j 0)) best ≡ false }
{
    for j in start..left.len() {
        if choice::wins(sheet.distance(from, left[j] as usize), best) {
            return j;
        }
    }
    left.len()
}

// The best of the stops left that the round can take.
pub fn nearest<R: Rule>(
    rule: R,
    sheet: &Sheet,
    depot: usize,
    vehicle: Vehicle,
    limits: RouteLimits,
    partial: Partial,
    left: &[u16],
) -> StopChoice
    requires partial_route { PartialRoute sheet.now partial }
    requires routed { Routed sheet.now depot left.now }
    ensures { result ≡ choose (offer_by sheet.now depot (R.which rule) vehicle limits partial) None 0 left.now }
{
    let mut best = None;
    let mut j = 0;
    // No range: places are passed over.
    while j < left.len() {
        best = rule.nearer(sheet, depot, vehicle, limits, partial, best, j, left[j]);
        j = next_nearer(sheet, partial.current, best, left, j + 1);
    }
    best
}
