// One place of a round for one stop, and what is kept while the places are tried.
ghost use Rattle.std.specs.Prelude.{◌≡◌, ◌≤◌, ◌<◌, length};
ghost use Rattle.sheet.specs.Fields.{rows_of};
ghost use Rattle.evaluation.specs.Routed.{Routed};
ghost use Rattle.insertion.specs.Place.{row_before, row_after, detour};
ghost use Rattle.insertion.specs.Trial.{soft_cost};

use crate::choice::Choice;
use constructive::terms::Terms;
use sheet::Sheet;

// The best so far, and where the stop stands in the round on trial.
#[derive(Clone, Copy)]
pub struct Tried {
    pub choice: Choice,
    pub at: usize,
}

// With soft windows: what the round costs without the stop, and what the stop must stay below.
#[derive(Clone, Copy)]
pub struct Prices {
    pub round: f64,
    pub alone: f64,
}

// The row before place k: the depot before the first stop.
fn before_at(depot: usize, route: &[u16], k: usize) -> usize
    requires { k ≤ length route.now }
    ensures { result ≡ row_before depot route.now k }
{
    if k == 0 {
        return depot;
    }
    route[k - 1] as usize
}

// The row after it: the depot after the last.
fn behind_at(depot: usize, route: &[u16], k: usize) -> usize
    requires { k ≤ length route.now }
    ensures { result ≡ row_after depot route.now k }
{
    if k == route.len() {
        return depot;
    }
    route[k] as usize
}

// The way past the stop, less the leg that it breaks.
pub fn detour(sheet: &Sheet, depot: usize, route: &[u16], row: usize, k: usize) -> f64
    requires routed { Routed sheet.now depot route.now }
    requires row_bound { (row < rows_of sheet.now) × (k ≤ length route.now) }
    ensures { result ≡ detour sheet.now depot route.now row k }
{
    let prev = before_at(depot, route, k);
    let next = behind_at(depot, route, k);
    sheet.distance(prev, row) + sheet.distance(row, next) - sheet.distance(prev, next)
}

// What a round costs, which only the soft rules ask.
pub fn soft_cost(sheet: &Sheet, terms: Terms, route: &[u16]) -> Option<f64>
    requires { Routed sheet.now terms.depot route.now }
    ensures { result ≡ soft_cost sheet.now terms route.now }
{
    if !terms.soft {
        return None;
    }
    let limits = terms.limits;
    let cost = evaluation::effective_cost(sheet, route, terms.depot, limits);
    Some(cost)
}
