// The round on trial: the round with one stop in it. The next stop is written over it, and it slides from place to place, so
// that no round is copied to try a place. Where its stop stands goes beside it, in `Tried`: it is told of each stop anew.
ghost use Rattle.std.specs.Prelude.{◌≡◌, ◌+◌, ◌<◌, length, get_or};
ghost use Rattle.lists.specs.Moved.{without, inserted};
ghost use Rattle.insertion.specs.Trial.{Trial};

use constructive::tables;

// The round, with whatever stop behind its last.
pub fn lay_out(trial: &mut [u16], route: &[u16])
    requires { length trial.old ≡ length route.now + 1 }
    ensures { Trial route.now (get_or trial.new (length route.now) 0) (length route.now) trial.new }
{
    let end = route.len();
    sorting::copy(route, &mut trial[..end]);
}

// The stop at `at` goes to place `to` among the others.
pub fn slide(trial: &mut [u16], at: usize, to: usize)
    requires { (at < length trial.old) × (to < length trial.old) }
    ensures { trial.new ≡ inserted to (get_or trial.old at 0) (without at trial.old) }
{
    if to <= at {
        tables::bring(trial, to, at);
        return;
    }
    let end = to + 1;
    tables::send_last(&mut trial[..end], at);
}
