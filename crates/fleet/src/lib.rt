// The limiter's choices: the cheapest of all insertions of the stops that a dropped round leaves. The definitions and
// theorems of the limiter are this crate's specs.
#![tactic(auto)]

ghost use Rattle.std.specs.Prelude.{◌≡◌};
ghost use Rattle.fleet.specs.Cheapest.{cheaper, pick_with};

use insertion::choice::Choice;

// The stop by its place among those pending, the round, the place in the round, and what it costs.
pub type Pick = Option<(usize, usize, usize, f64)>;

// Whether a cost is below that of the pick so far: the first of equals stays.
fn cheaper(cost: f64, best: Pick) -> bool
    ensures { result ≡ cheaper cost best }
{
    best.is_none_or(|(_, _, _, least)| cost < least)
}

// The better of the pick so far and the cheapest insertion of the stop at place j of those pending.
pub fn pick_with(best: Pick, j: usize, choice: Choice) -> Pick
    ensures { result ≡ pick_with best j choice }
{
    match choice {
        None => best,
        Some((round, place, cost)) => {
            if cheaper(cost, best) {
                return Some((j, round, place, cost));
            }
            best
        }
    }
}
