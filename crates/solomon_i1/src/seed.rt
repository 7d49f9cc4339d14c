// The seed of a round: the farthest of the stops left.
ghost use Rattle.std.specs.Prelude.{◌≡◌, ◌<◌};
ghost use Rattle.sheet.specs.Fields.{rows_of};
ghost use Rattle.evaluation.specs.Routed.{Routed};
ghost use Rattle.solomon_i1.specs.Insertion.{seed_of, goes_alone};

use constructive::terms::Terms;
use sheet::Sheet;

// Its place among the stops left, the first of equals; `max_by` answers the last.
pub fn farthest(sheet: &Sheet, depot: usize, left: &[u16]) -> usize
    requires { Routed sheet.now depot left.now }
    ensures { result ≡ seed_of sheet.now depot left.now }
{
    let mut place = 0;
    let mut most = 0.0;
    for (j, &row) in left.iter().enumerate() {
        let distance = sheet.distance(depot, row as usize);
        if most < distance {
            place = j;
            most = distance;
        }
    }
    place
}

// Whether a round can take the stop alone. Not by `Terms::fits`: a seed is walked even where no round is checked.
pub fn goes_alone(sheet: &Sheet, terms: Terms, row: u16) -> bool
    requires { (terms.depot < rows_of sheet.now) × (row < rows_of sheet.now) }
    ensures { result ≡ goes_alone sheet.now terms row }
{
    sheet.accepted();
    sheet.demand(row as usize) <= terms.capacity
        && evaluation::route_feasible(sheet, &[row], terms.depot, terms.limits)
}
