// The depots that a stop is offered to, nearest first.
ghost use Rattle.std.specs.Prelude.{◌≡◌, ◌||◌, ◌<◌, IfSome, unwrap_or};
ghost use Rattle.std.specs.Option.{ForSome};
ghost use Rattle.sheet.specs.Depots.{depots_of};
ghost use Rattle.sheet.specs.Fields.{rows_of};
ghost use Rattle.multi_depot_offers.specs.ByDepot.{has_vehicle, is_no_depot, sooner, asked_after, next_depot};

use sheet::Sheet;

// Whether a depot has a vehicle.
pub fn has_vehicle(sheet: &Sheet, depot: usize) -> bool
    ensures { result ≡ has_vehicle sheet.now depot }
{
    (0..sheet.vehicles()).any(|v| sheet.vehicle_at(v).depot as usize == depot)
}

// Whether the stop is nearer to depot d than to depot e; a tie goes to the lower. Not by tuples compared: that took 1.5 times as
// long where there are many depots.
#[tactic(auto, unfolding(crate::specs::ByDepot::sooner))]
pub fn is_sooner(sheet: &Sheet, stop: usize, d: usize, e: usize) -> bool
    requires { (stop < rows_of sheet.now) × ((d < rows_of sheet.now) × (e < rows_of sheet.now)) }
    ensures { result ≡ sooner sheet.now stop d e }
{
    let here = sheet.distance(d, stop);
    let there = sheet.distance(e, stop);
    here < there || (here == there && d < e)
}

// Whether depot d is asked: it has a vehicle, and is no nearer than `after`, if that is a depot. Here and below `is_none_or` was tried:
// the proof did not close, since nothing was told of what this closure answers.
#[tactic(auto, unfolding(crate::specs::ByDepot::asked_after))]
fn is_asked(sheet: &Sheet, stop: usize, after: Option<usize>, d: usize) -> bool
    requires row { stop < rows_of sheet.now }
    requires d_lt_depots { d < depots_of sheet.now }
    ensures { result ≡ asked_after sheet.now stop (unwrap_or after (depots_of sheet.now)) d }
{
    let Some(after) = after else {
        return has_vehicle(sheet, d);
    };
    (sheet.depots() <= after || is_sooner(sheet, stop, after, d)) && has_vehicle(sheet, d)
}

// Whether depot d is nearer than the nearest so far.
fn wins(sheet: &Sheet, stop: usize, d: usize, best: Option<usize>) -> bool
    requires row { stop < rows_of sheet.now }
    requires best_bound { ForSome best (λ b. b < depots_of sheet.now) }
    requires d_lt_depots { d < depots_of sheet.now }
    ensures { result ≡ (is_no_depot sheet.now (unwrap_or best (depots_of sheet.now)) || sooner sheet.now stop d (unwrap_or best (depots_of sheet.now))) }
{
    let Some(best) = best else {
        return true;
    };
    is_sooner(sheet, stop, d, best)
}

// The nearest depot with a vehicle after `after`, or of all where that is none.
pub fn next_depot(sheet: &Sheet, stop: usize, after: Option<usize>) -> Option<usize>
    requires { stop < rows_of sheet.now }
    ensures value { unwrap_or result (depots_of sheet.now) ≡ next_depot sheet.now stop (unwrap_or after (depots_of sheet.now)) }
    ensures bound { IfSome result (λ d. d < depots_of sheet.now) }
{
    let depots = sheet.depots();
    let mut best = None;
    // Over numbers: a depot is a row of the sheet, and no slice stands behind it. `min_by` would
    // want an `Ordering`, which `is_sooner` would have to be made into.
    for d in 0..depots {
        if wins(sheet, stop, d, best) && is_asked(sheet, stop, after, d) {
            best = Some(d);
        }
    }
    best
}
