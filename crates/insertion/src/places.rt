// The places of one round for one stop. Insertion and the limiter each have an instance of their own, by how they walk the
// rounds on trial: behind one function for both, which is not inlined, terms and choice go through memory for every round.
// Sheet, terms, round, stop and its place j go apart: either caller would make a struct of them anew for each stop of each round,
// its clauses would name every field, and `weigh` knows neither round nor stop.
ghost use Rattle.std.specs.Prelude.{◌≡◌, false, [], ◌∷◌, suc, ◌≤◌, length};
ghost use Rattle.evaluation.specs.Routed.{Routed};
ghost use Rattle.insertion.specs.Place.{judge, better_place, try_places};
ghost use Rattle.insertion.specs.Trial.{Trial, Joinable, prices_of, judge_trial};

use crate::choice::Choice;
use crate::place::{Prices, Tried};
use crate::{choice, place, trial};
use constructive::terms::Terms;
use evaluation::walker::Walker;
use sheet::Sheet;

// Where no check is asked, from before the first stop to after the last: by the legs alone.
#[inline(always)]
pub fn try_free(
    sheet: &Sheet,
    terms: Terms,
    route: &[u16],
    row: u16,
    best: Choice,
    j: usize,
) -> Choice
    requires joinable { Joinable sheet.now terms route.now (row ∷ []) }
    requires constrained_value { terms.constrained ≡ false }
    ensures { result ≡ try_places sheet.now terms route.now j row best (suc (length route.now)) 0 }
{
    let mut done = best;
    // by places, one more than stops
    for k in 0..route.len() + 1 {
        let cost = place::detour(sheet, terms.depot, route, row as usize, k);
        let next = choice::better(done, j, k, cost);
        done = choice::rebuilt(next);
    }
    done
}

// The best so far, and a walk of no stop behind the places left.
#[derive(Clone, Copy)]
struct Walked<W> {
    tried: Tried,
    walk: W,
}

fn walked_to<W: Walker>(choice: Choice, at: usize, walk: W) -> Walked<W>
    ensures { result ≡ record { tried = record { choice = choice; at = at }; walk = walk } }
{
    let tried = Tried { choice, at };
    Walked { tried, walk }
}

// With soft windows: the better of the best so far and the round on trial, walked once for its verdict and its cost.
fn weigh<W: Walker>(
    sheet: &Sheet,
    terms: Terms,
    prices: Prices,
    trial: &[u16],
    walk: W,
    best: Choice,
    j: usize,
    k: usize,
) -> Choice
    requires routed { Routed sheet.now terms.depot trial.now }
    requires knows { W.knows sheet.now terms.depot terms.limits trial.now walk }
    ensures { result ≡ better_place best j k (judge_trial sheet.now terms prices trial.now) }
{
    let limits = terms.limits;
    let eval = walk.eval(sheet, trial, terms.depot, limits);
    let Some(figures) = eval else {
        return best;
    };
    let cost = evaluation::priced_distance(figures) - prices.round;
    if prices.alone <= cost {
        return best;
    }
    choice::better(best, j, k, cost)
}

// Without soft windows: a place that does not win is not walked.
fn try_hard<W: Walker>(
    sheet: &Sheet,
    terms: Terms,
    route: &[u16],
    row: u16,
    trial: &mut [u16],
    walked: Walked<W>,
    j: usize,
    k: usize,
) -> Walked<W>
    requires joinable { Joinable sheet.now terms route.now (row ∷ []) }
    requires trial { Trial route.now row walked.tried.at trial.old }
    requires knows { W.knows sheet.now terms.depot terms.limits route.now walked.walk }
    requires soft_value { (terms.soft ≡ false) × ((W.reach walked.walk ≤ k) × (k ≤ length route.now)) }
    ensures choice_value { result.tried.choice ≡ better_place walked.tried.choice j k (judge sheet.now terms route.now row k) }
    ensures trial_2 { Trial route.now row result.tried.at trial.new }
    ensures knows_2 { W.knows sheet.now terms.depot terms.limits route.now result.walk × (W.reach result.walk ≤ k) }
{
    let tried = walked.tried;
    let best = tried.choice;
    let walk = walked.walk;
    let cost = place::detour(sheet, terms.depot, route, row as usize, k);
    if !choice::wins(cost, best) {
        return walked;
    }
    trial::slide(trial, tried.at, k);
    let limits = terms.limits;
    let next = walk.towards(sheet, route, terms.depot, limits, k);
    if !next.feasible(sheet, trial, terms.depot, limits) {
        return walked_to(best, k, next);
    }
    walked_to(Some((j, k, cost)), k, next)
}

// The better of the best so far and the stop at place k of the round.
fn try_place<W: Walker>(
    sheet: &Sheet,
    terms: Terms,
    prices: Option<Prices>,
    route: &[u16],
    row: u16,
    trial: &mut [u16],
    walked: Walked<W>,
    j: usize,
    k: usize,
) -> Walked<W>
    requires joinable { Joinable sheet.now terms route.now (row ∷ []) }
    requires trial { Trial route.now row walked.tried.at trial.old }
    requires knows { W.knows sheet.now terms.depot terms.limits route.now walked.walk }
    requires prices_value { (prices ≡ prices_of sheet.now terms route.now row) × ((W.reach walked.walk ≤ k) × (k ≤ length route.now)) }
    ensures choice_value { result.tried.choice ≡ better_place walked.tried.choice j k (judge sheet.now terms route.now row k) }
    ensures trial_2 { Trial route.now row result.tried.at trial.new }
    ensures knows_2 { W.knows sheet.now terms.depot terms.limits route.now result.walk × (W.reach result.walk ≤ k) }
{
    let Some(prices) = prices else {
        return try_hard(sheet, terms, route, row, trial, walked, j, k);
    };
    let tried = walked.tried;
    let best = tried.choice;
    let walk = walked.walk;
    trial::slide(trial, tried.at, k);
    let limits = terms.limits;
    let next = walk.towards(sheet, route, terms.depot, limits, k);
    let choice = weigh(sheet, terms, prices, trial, next, best, j, k);
    walked_to(choice, k, next)
}

// Each field put together anew, so that none goes from place to place as bytes of memory.
fn rebuilt<W: Walker>(walked: Walked<W>) -> Walked<W>
    ensures { result ≡ walked }
{
    let tried = walked.tried;
    let best = tried.choice;
    let choice = choice::rebuilt(best);
    let walk = walked.walk.rebuilt();
    walked_to(choice, tried.at, walk)
}

// From before the first stop to after the last.
pub fn try_places<W: Walker>(
    sheet: &Sheet,
    terms: Terms,
    prices: Option<Prices>,
    route: &[u16],
    row: u16,
    trial: &mut [u16],
    tried: Tried,
    j: usize,
) -> Tried
    requires joinable { Joinable sheet.now terms route.now (row ∷ []) }
    requires trial { Trial route.now row tried.at trial.old }
    requires prices_value { prices ≡ prices_of sheet.now terms route.now row }
    ensures choice_value { result.choice ≡ try_places sheet.now terms route.now j row tried.choice (suc (length route.now)) 0 }
    ensures trial_2 { Trial route.now row result.at trial.new }
{
    let walk = W::start(terms.depot);
    let mut done = Walked { tried, walk };
    // by places, one more than stops
    for k in 0..route.len() + 1 {
        let next = try_place(sheet, terms, prices, route, row, trial, done, j, k);
        done = rebuilt(next);
    }
    done.tried
}
