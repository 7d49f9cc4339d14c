// Rounds that grow from their seeds.
ghost use Rattle.std.specs.Prelude.{◌≡◌, [], ◌+◌, ◌-◌, ◌≤◌, ◌<◌, length, get_or, take, drop};
ghost use Rattle.sheet.specs.Fields.{most_rows};
ghost use Rattle.lists.specs.Moved.{without};
ghost use Rattle.wire.specs.Bytes.{write};
ghost use Rattle.constructive.specs.Lent.{Lent};
ghost use Rattle.constructive.specs.Members.{part};
ghost use Rattle.constructive.specs.Outcome.{stops_of};
ghost use Rattle.constructive.specs.Stored.{Room};
ghost use Rattle.constructive.specs.Entered.{Entered};
ghost use Rattle.insertion.specs.Trial.{Joinable};
ghost use Rattle.solomon_i1_judging.specs.Choice.{best_of};
ghost use Rattle.solomon_i1.specs.Insertion.{round_from, route_in, plan_on};
ghost use Rattle.solomon_i1.specs.Tabled.{growth_stops};

use crate::seed;
use constructive::tables;
use constructive::tables::{Filled, RouteTables};
use constructive::terms::Terms;
use insertion::choice::Choice;
use sheet::Sheet;

// The best insertion of a stop from `end` on into the round of those before it.
fn best_joining(sheet: &Sheet, terms: Terms, stops: &[u16], end: usize, trial: &mut [u16]) -> Choice
    requires joinable { Joinable sheet.now terms (take end stops.now) (drop end stops.now) }
    requires end_in_bounds { (end < length stops.now) × (length stops.now ≤ length trial.old) }
    ensures { result ≡ best_of sheet.now terms (take end stops.now) (drop end stops.now) }
{
    solomon_i1_judging::best_insertion(
        sheet,
        terms,
        &stops[..end],
        &stops[end..],
        &mut trial[..end + 1],
    )
}

// Grows the round whose seed is the first of the stops left: its stops then stand first, in order, and those still left after
// them. Answers how many stops it has.
fn grow_round(sheet: &Sheet, terms: Terms, left: &mut [u16], trial: &mut [u16]) -> usize
    requires joinable { Joinable sheet.now terms [] left.old }
    requires left_nonzero { (0 < length left.old) × (length left.old ≤ length trial.old) }
    ensures value { result ≡ length (route_in (round_from sheet.now terms (get_or left.old 0 0) (drop 1 left.old))) }
    ensures left_after { left.new ≡ growth_stops (round_from sheet.now terms (get_or left.old 0 0) (drop 1 left.old)) }
{
    let count = left.len();
    // by numbers: each is where the round may end, and that is answered
    for end in 1..count {
        let Some((j, k, _)) = best_joining(sheet, terms, left, end, trial) else {
            return end;
        };
        tables::bring(left, k, end + j);
    }
    count
}

// The same for the seed at a place among the stops left.
fn open_round(
    sheet: &Sheet,
    terms: Terms,
    left: &mut [u16],
    seed: usize,
    trial: &mut [u16],
) -> usize
    requires joinable { Joinable sheet.now terms [] left.old }
    requires seed_in_bounds { (seed < length left.old) × (length left.old ≤ length trial.old) }
    ensures value { result ≡ length (route_in (round_from sheet.now terms (get_or left.old seed 0) (without seed left.old))) }
    ensures left_after { left.new ≡ growth_stops (round_from sheet.now terms (get_or left.old seed 0) (without seed left.old)) }
{
    tables::bring(left, 0, seed);
    grow_round(sheet, terms, left, trial)
}

// Lays down the rounds of the members, which stand in the table of stops from where the tables are filled up to `total`: the
// rounds then stand first, and the stops set aside after them, in the order met.
pub fn lay_rounds(
    sheet: &Sheet,
    terms: Terms,
    tables: &mut RouteTables,
    filled: Filled,
    total: usize,
    trial: &mut [u16],
) -> Filled
    requires joinable { Joinable sheet.now terms [] (part tables.old.stops.now filled.routed total) }
    requires total_bound { (total ≤ most_rows) × (filled.routed ≤ total) }
    requires total_in_bounds { (total ≤ length tables.old.stops.now) × (total - filled.routed ≤ length trial.old) }
    requires room { Room tables.old.ends.now tables.old.vehicles.now filled total }
    ensures entered { Entered tables.old.ends.now tables.old.vehicles.now filled (plan_on sheet.now terms (length (part tables.old.stops.now filled.routed total)) (part tables.old.stops.now filled.routed total)).rounds tables.new.ends.now tables.new.vehicles.now result }
    ensures stops_after { tables.new.stops.now ≡ write tables.old.stops.now filled.routed (stops_of (plan_on sheet.now terms (length (part tables.old.stops.now filled.routed total)) (part tables.old.stops.now filled.routed total))) }
    ensures lent { Lent tables.old tables.new }
{
    let mut done = filled;
    let mut at = filled.routed;
    let mut end = total;
    // two ends move towards each other: which one is told by the stop between
    while at < end {
        let stops = &mut *tables.stops;
        let seed = seed::farthest(sheet, terms.depot, &stops[at..end]);
        if !seed::goes_alone(sheet, terms, stops[at + seed]) {
            tables::send_last(&mut stops[0..total], at + seed);
            end = end - 1;
            continue;
        }
        at = at + open_round(sheet, terms, &mut stops[at..end], seed, trial);
        done = tables.close_round(done, terms.vehicle, at);
    }
    done
}
