// The walk of a round from `depot` and back, without a rest and with one.
ghost use Rattle.std.specs.Prelude.{◌≡◌, ℕ, ◌+◌, ◌<◌, length, None, IfSome};
ghost use Rattle.sheet.specs.Fields.{rows_of};
ghost use Rattle.evaluation.specs.Routed.{Routed};
ghost use Rattle.evaluation.specs.Underway.{setting_out, label_by, position_of, WalksTo};
ghost use Rattle.evaluation.specs.Walk.{walked_over, home_from, scheduled_of};
ghost use Rattle.evaluation.specs.Soonest.{soonest_of};

use crate::home;
use evaluation_clock::clock::{BreakClock, Schedule};
use evaluation_clock::label::Label;
use evaluation_clock::{clock, label};
use sheet::Sheet;
use sheet::vehicle::VehicleBreak;

// The vehicle on its way without a rest, with the service of its last stop done. It holds no `Label`, which brings an answer for a
// rest that none is here: a prefix keeps this in memory, and would keep that with it.
#[derive(Clone, Copy)]
pub struct Underway {
    pub prev: usize,
    pub distance: f64,
    pub time: f64,
    pub lateness: f64,
    pub lateness_cost: f64,
}

impl Underway {
    // At the depot at 0.
    pub fn new(depot: usize) -> Self
        ensures { result ≡ setting_out depot }
    {
        Underway {
            prev: depot,
            distance: 0.0,
            time: 0.0,
            lateness: 0.0,
            lateness_cost: 0.0,
        }
    }

    fn label(self) -> Label
        ensures { result ≡ label_by self }
    {
        let rest = None;
        Label {
            time: self.time,
            lateness: self.lateness,
            lateness_cost: self.lateness_cost,
            rest,
        }
    }
}

// On over `rows`, up to the first hard window that is missed.
#[inline(always)]
pub fn walk_over(sheet: &Sheet, from: Underway, rows: &[u16]) -> Option<Underway>
    requires { Routed sheet.now from.prev rows.now }
    ensures stands { (place : ℕ) → WalksTo result (place + length rows.now) (walked_over sheet.now (position_of from place) rows.now) }
    ensures prev_bound { IfSome result (λ end. end.prev < rows_of sheet.now) }
{
    let mut label = from.label();
    let mut distance = from.distance;
    let mut prev = from.prev;
    for &stop in rows {
        let row = stop as usize;
        distance = distance + sheet.distance(prev, row);
        let travel = sheet.travel_time(prev, row);
        label = label::serve(label, travel, sheet.stop_at(row))?;
        prev = row;
    }
    Some(Underway {
        prev,
        distance,
        time: label.time,
        lateness: label.lateness,
        lateness_cost: label.lateness_cost,
    })
}

// And home.
#[inline(always)]
pub fn walk_home(sheet: &Sheet, from: Underway, rows: &[u16], depot: usize) -> Option<Schedule>
    requires routed { Routed sheet.now from.prev rows.now }
    requires depot_bound { depot < rows_of sheet.now }
    ensures { (place : ℕ) → result ≡ home_from sheet.now depot (walked_over sheet.now (position_of from place) rows.now) }
{
    let end = walk_over(sheet, from, rows)?;
    let distance = end.distance + sheet.distance(end.prev, depot);
    let back = sheet.travel_time(end.prev, depot);
    Some(clock::home(end.label(), distance, back, None))
}

// A round without a rest.
pub fn walk(sheet: &Sheet, route: &[u16], depot: usize) -> Option<Schedule>
    requires { Routed sheet.now depot route.now }
    ensures { result ≡ scheduled_of sheet.now depot None route.now }
{
    walk_home(sheet, Underway::new(depot), route, depot)
}

// With a rest, for as long as the clock is alive; with `home` the rest at the depot too, where that ends sooner.
// A flag, as in the definition: the loop would stand twice for its two answers.
pub fn schedule(
    sheet: &Sheet,
    route: &[u16],
    depot: usize,
    rest: VehicleBreak,
    home: bool,
) -> Option<Schedule>
    requires { Routed sheet.now depot route.now }
    ensures { result ≡ soonest_of home sheet.now depot rest route.now }
{
    let mut clock = BreakClock::new(rest, depot);
    let mut distance = 0.0;
    for &stop in route {
        let row = stop as usize;
        distance = distance + sheet.distance(clock.prev, row);
        clock = clock.next(sheet, row);
        if !clock.alive() {
            return None;
        }
    }
    distance = distance + sheet.distance(clock.prev, depot);
    let found = clock.finish(sheet, distance, depot);
    if !home {
        return found;
    }
    home::finish(clock, sheet, distance, depot, found)
}
