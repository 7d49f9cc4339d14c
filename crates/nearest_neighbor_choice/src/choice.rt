// The best stop so far.
ghost use Rattle.std.specs.Prelude.{◌≡◌};
ghost use Rattle.nearest_neighbor_choice.specs.Choice.{wins_of};

// Its place among the stops left, and its key.
pub type StopChoice = Option<(usize, f64)>;

// Whether a key wins over it: the first of equals stays.
pub fn wins(key: f64, best: StopChoice) -> bool
    ensures { result ≡ wins_of key best }
{
    best.is_none_or(|(_, least)| key < least)
}
