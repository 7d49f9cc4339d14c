// The best insertion of the stops unrouted: each stop that the round can load, at each place.
#![tactic(auto)]

ghost use Rattle.std.specs.Prelude.{◌≡◌, [], ◌∷◌, ◌+◌, ◌<◌, length, get_or, None};
ghost use Rattle.evaluation.specs.Routed.{Routed};
ghost use Rattle.insertion.specs.Trial.{Trial, Joinable, alone_cost};
ghost use Rattle.solomon_i1_judging.specs.Choice.{try_stop, try_stops, best_of};
ghost use Rattle.solomon_i1_judging.specs.Figures.{figures_of};

use constructive::load;
use constructive::terms::Terms;
use evaluation::walker::FromDepot;
use insertion::choice::Choice;
use insertion::place::{Prices, Tried};
use insertion::{choice, place, places, trial};
use sheet::Sheet;

// A round's load, and with soft windows its cost.
#[derive(Clone, Copy)]
pub struct Figures {
    pub load: u32,
    pub cost: Option<f64>,
}

fn figures_of(sheet: &Sheet, terms: Terms, route: &[u16]) -> Figures
    requires { Routed sheet.now terms.depot route.now }
    ensures { result ≡ figures_of sheet.now terms route.now }
{
    let cost = place::soft_cost(sheet, terms, route);
    let load = load::load_of(sheet, route);
    Figures { load, cost }
}

// What the stop costs alone, with the fixed cost.
fn alone_cost(sheet: &Sheet, terms: Terms, row: u16) -> f64
    requires { Routed sheet.now terms.depot (row ∷ []) }
    ensures { result ≡ alone_cost sheet.now terms row }
{
    let lone = [row];
    let limits = terms.limits;
    evaluation::effective_cost(sheet, &lone, terms.depot, limits) + terms.fixed
}

// What was tried, with its choice put together anew, which then goes from stop to stop in registers.
fn rebuilt(tried: Tried) -> Tried
    ensures { result ≡ tried }
{
    let best = tried.choice;
    let choice = choice::rebuilt(best);
    Tried {
        choice,
        at: tried.at,
    }
}

// The stop at place j of those unrouted, if the round can load it.
fn try_stop(
    sheet: &Sheet,
    terms: Terms,
    figures: Figures,
    route: &[u16],
    row: u16,
    trial: &mut [u16],
    tried: Tried,
    j: usize,
) -> Tried
    requires joinable { Joinable sheet.now terms route.now (row ∷ []) }
    requires trial { Trial route.now (get_or trial.old tried.at 0) tried.at trial.old }
    requires figures_value { figures ≡ figures_of sheet.now terms route.now }
    ensures choice_value { result.choice ≡ try_stop sheet.now terms route.now tried.choice j row }
    ensures trial_2 { Trial route.now (get_or trial.new result.at 0) result.at trial.new }
{
    if terms.capacity < figures.load + sheet.demand(row as usize) {
        return tried;
    }
    let at = tried.at;
    trial[at] = row;
    if !terms.constrained {
        let best = tried.choice;
        let choice = places::try_free(sheet, terms, route, row, best, j);
        return Tried { choice, at };
    }
    // not by `map`: its closure wants a lemma where this needs none
    let prices = match figures.cost {
        None => None,
        Some(round) => Some(Prices {
            round,
            alone: alone_cost(sheet, terms, row),
        }),
    };
    places::try_places::<FromDepot>(sheet, terms, prices, route, row, trial, tried, j)
}

// Each stop unrouted in turn.
fn try_stops(
    sheet: &Sheet,
    terms: Terms,
    figures: Figures,
    route: &[u16],
    left: &[u16],
    trial: &mut [u16],
) -> Choice
    requires joinable { Joinable sheet.now terms route.now left.now }
    requires trial { Trial route.now (get_or trial.old (length route.now) 0) (length route.now) trial.old }
    requires figures_value { figures ≡ figures_of sheet.now terms route.now }
    ensures { result ≡ try_stops sheet.now terms route.now None 0 left.now }
{
    let none = None;
    let mut tried = Tried {
        choice: none,
        at: route.len(),
    };
    for (j, &row) in left.iter().enumerate() {
        let next = try_stop(sheet, terms, figures, route, row, trial, tried, j);
        tried = rebuilt(next);
    }
    tried.choice
}

// The cheapest insertion of the stops unrouted into the round, the first of equals; `trial` has room for the round with one
// stop more.
pub fn best_insertion(
    sheet: &Sheet,
    terms: Terms,
    route: &[u16],
    left: &[u16],
    trial: &mut [u16],
) -> Choice
    requires joinable { Joinable sheet.now terms route.now left.now }
    requires trial_len { length trial.old ≡ length route.now + 1 }
    ensures { result ≡ best_of sheet.now terms route.now left.now }
{
    trial::lay_out(trial, route);
    let figures = figures_of(sheet, terms, route);
    try_stops(sheet, terms, figures, route, left, trial)
}
