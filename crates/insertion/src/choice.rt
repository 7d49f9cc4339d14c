// The best insertion so far.
ghost use Rattle.std.specs.Prelude.{◌≡◌};
ghost use Rattle.insertion.specs.Place.{costs, wins, better_place};

// The stop by its place among those unrouted, its place in the round, and what it costs.
pub type Choice = Option<(usize, usize, f64)>;

// Whether a cost wins over it: the first of equals stays. `wins` of nearest_neighbor_choice and `cheaper` of fleet are the same over
// other tuples: one function of an `Option<f64>` would need a `map` at each call.
pub fn wins(cost: f64, best: Choice) -> bool
    ensures { result ≡ wins cost best }
{
    best.is_none_or(|(_, _, least)| cost < least)
}

// The better of it and a place that the stop may have at such a cost.
pub fn better(best: Choice, j: usize, k: usize, cost: f64) -> Choice
    ensures { result ≡ better_place best j k (costs cost) }
{
    if wins(cost, best) {
        return Some((j, k, cost));
    }
    best
}

// The same choice, put together anew: its fields then go from place to place in registers, and not as bytes of memory.
pub fn rebuilt(best: Choice) -> Choice
    ensures { result ≡ best }
{
    match best {
        None => None,
        Some((j, k, cost)) => Some((j, k, cost)),
    }
}
