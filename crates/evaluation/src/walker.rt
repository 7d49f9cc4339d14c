// How the rounds are walked that differ from one round by a stop more at some place.
ghost use Rattle.std.specs.Prelude.{◌≡◌, ℕ, ◌≤◌, List, length, take};
ghost use Rattle.evaluation.specs.Routed.{Routed};
ghost use Rattle.evaluation.specs.Feasible.{route_feasible, route_eval};
ghost use Rattle.evaluation.specs.declared.limits.RouteLimits.{RouteLimits as Limits};

use crate::limits::RouteLimits;
use evaluation_clock::clock::Schedule;
use sheet::Sheet;

pub trait Walker: Copy {
    // how many stops of a round are behind it
    ghost reach: { Self → ℕ };

    // what it knows of them, on a sheet, for a depot and limits: a fact of all four, so each function has it as a clause
    ghost knows: { List ℕ → ℕ → Limits → List ℕ → Self → Type 0 };

    // Before the first stop.
    fn start(depot: usize) -> Self
        ensures reach { reach result ≡ 0 }
        ensures knows { (s : List ℕ) (limits : Limits) (round : List ℕ) → Routed s depot round → knows s depot limits round result };

    // Nearer to place k of the round.
    fn towards(
        self,
        sheet: &Sheet,
        round: &[u16],
        depot: usize,
        limits: RouteLimits,
        k: usize,
    ) -> Self
        requires routed { Routed sheet.now depot round.now }
        requires knows { knows sheet.now depot limits round.now self }
        requires reach { (reach self ≤ k) × (k ≤ length round.now) }
        ensures reach_2 { reach result ≤ k }
        ensures knows_2 { knows sheet.now depot limits round.now result };

    // `route_feasible` of the round.
    fn feasible(self, sheet: &Sheet, round: &[u16], depot: usize, limits: RouteLimits) -> bool
        requires routed { Routed sheet.now depot round.now }
        requires knows { knows sheet.now depot limits round.now self }
        ensures { result ≡ route_feasible sheet.now depot limits round.now };

    // `route_eval` of the round.
    fn eval(
        self,
        sheet: &Sheet,
        round: &[u16],
        depot: usize,
        limits: RouteLimits,
    ) -> Option<Schedule>
        requires routed { Routed sheet.now depot round.now }
        requires knows { knows sheet.now depot limits round.now self }
        ensures { result ≡ route_eval sheet.now depot limits round.now };

    // The same, put together anew, so that it does not go from place to place as bytes of memory.
    fn rebuilt(self) -> Self
        ensures { result ≡ self };

    // of a round with the same stops behind it it knows the same
    ghost alike: { (s : List ℕ) (depot : ℕ) (limits : Limits) (round other : List ℕ) (walk : Self) → knows s depot limits round walk → length round ≤ length other → take (reach walk) other ≡ take (reach walk) round → knows s depot limits other walk };
}

// Each from the depot.
#[derive(Clone, Copy)]
pub struct FromDepot;

impl Walker for FromDepot {
    ghost reach = { λ _. 0 };

    ghost knows = { λ _ _ _ _ _. Unit };

    fn start(_depot: usize) -> Self {
        FromDepot
    }

    fn towards(
        self,
        _sheet: &Sheet,
        _round: &[u16],
        _depot: usize,
        _limits: RouteLimits,
        _k: usize,
    ) -> Self {
        self
    }

    fn feasible(self, sheet: &Sheet, round: &[u16], depot: usize, limits: RouteLimits) -> bool {
        crate::route_feasible(sheet, round, depot, limits)
    }

    fn eval(
        self,
        sheet: &Sheet,
        round: &[u16],
        depot: usize,
        limits: RouteLimits,
    ) -> Option<Schedule> {
        crate::route_eval(sheet, round, depot, limits)
    }

    fn rebuilt(self) -> Self {
        self
    }

    ghost alike = { λ _ _ _ _ _ _ _ _ _. tt };
}
