// A round walked up to some place without a rest: what all rounds with the same first stops have in common.
#![tactic(auto)]

ghost use Rattle.std.specs.Prelude.{◌≡◌, ℕ, ◌<◌, ◌≤◌, IfSome, length};
ghost use Rattle.sheet.specs.Fields.{rows_of};
ghost use Rattle.evaluation.specs.Routed.{Routed};
ghost use Rattle.evaluation.specs.Underway.{WalksTo};
ghost use Rattle.evaluation.specs.Walk.{Position, walked_over, home_from};
ghost use Rattle.evaluation_prefix.specs.Laws.Front.{same_front};
ghost use Rattle.evaluation_prefix.specs.Prefix.{at_start, WalkedBefore};

use evaluation::limits::RouteLimits;
use evaluation::schedule;
use evaluation::schedule::Underway;
use evaluation::walker::Walker;
use evaluation_clock::clock::Schedule;
use sheet::Sheet;

// So many stops are walked again for a place before the walk up to them is kept.
const STRIDE: usize = 4;

// So many stops of a round, and where they bring the vehicle; nowhere once a hard window is missed.
#[derive(Clone, Copy)]
pub struct Prefix {
    pub stops: usize,
    pub walk: Option<Underway>,
}

impl Prefix {
    // At the depot at 0.
    pub fn new(depot: usize) -> Self
        ensures { result ≡ at_start depot }
    {
        let walk = Some(Underway::new(depot));
        Prefix { stops: 0, walk }
    }

    // Nearer to place k of the round, where the way is long enough for a walk from there to gain by it.
    #[inline(always)]
    pub fn nearer(self, sheet: &Sheet, round: &[u16], limits: RouteLimits, k: usize) -> Self
        requires routed { IfSome self.walk (λ walk. Routed sheet.now walk.prev round.now) }
        requires stops_le_k { (self.stops ≤ k) × (k ≤ length round.now) }
        ensures stops { result.stops ≤ k }
        ensures walked_before { (depot : ℕ) → WalkedBefore sheet.now depot limits round.now self → WalkedBefore sheet.now depot limits round.now result }
    {
        let at = self.stops;
        if k - at < STRIDE || limits.rest.is_some() {
            return self;
        }
        let Some(walk) = self.walk else {
            return self;
        };
        Prefix {
            stops: k,
            walk: schedule::walk_over(sheet, walk, &round[at..k]),
        }
    }
}

// The walk of the rows left, and home.
fn walk_on(sheet: &Sheet, from: Prefix, rows: &[u16], depot: usize) -> Option<Schedule>
    requires routed { IfSome from.walk (λ walk. Routed sheet.now walk.prev rows.now) }
    requires depot_bound { depot < rows_of sheet.now }
    ensures { (place : ℕ) (p : Position) → WalksTo from.walk place p → result ≡ home_from sheet.now depot (walked_over sheet.now p rows.now) }
{
    schedule::walk_home(sheet, from.walk?, rows, depot)
}

impl Walker for Prefix {
    ghost reach = { λ prefix. prefix.stops };

    ghost knows = { WalkedBefore };

    fn start(depot: usize) -> Self {
        Prefix::new(depot)
    }

    fn towards(
        self,
        sheet: &Sheet,
        round: &[u16],
        _depot: usize,
        limits: RouteLimits,
        k: usize,
    ) -> Self {
        self.nearer(sheet, round, limits, k)
    }

    fn feasible(self, sheet: &Sheet, round: &[u16], depot: usize, limits: RouteLimits) -> bool {
        let at = self.stops;
        if at == 0 {
            return evaluation::route_feasible(sheet, round, depot, limits);
        }
        evaluation::kept_by(limits, walk_on(sheet, self, &round[at..], depot))
    }

    fn eval(
        self,
        sheet: &Sheet,
        round: &[u16],
        depot: usize,
        limits: RouteLimits,
    ) -> Option<Schedule> {
        let at = self.stops;
        if at == 0 {
            return evaluation::route_eval(sheet, round, depot, limits);
        }
        evaluation::eval_by(limits, walk_on(sheet, self, &round[at..], depot))
    }

    fn rebuilt(self) -> Self {
        let stops = self.stops;
        match self.walk {
            None => Prefix { stops, walk: None },
            Some(w) => {
                let walk = Some(Underway {
                    prev: w.prev,
                    distance: w.distance,
                    time: w.time,
                    lateness: w.lateness,
                    lateness_cost: w.lateness_cost,
                });
                Prefix { stops, walk }
            }
        }
    }

    ghost alike = { same_front };
}
