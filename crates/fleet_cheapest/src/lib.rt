// The cheapest insertion of the stops pending, over every round and place. Sheet, windows, tables and their n rounds go apart,
// as in the limiter, and so do a round, the stop and the best so far: each comes of another loop.
#![tactic(auto)]

ghost use Rattle.std.specs.Prelude.{◌≡◌, false, ◌+◌, ◌≤◌, ◌<◌, length};
ghost use Rattle.sheet.specs.Fields.{rows_of, vehicles_of, most_rows};
ghost use Rattle.evaluation.specs.Routed.{Routed};
ghost use Rattle.constructive.specs.Outcome.{rounds_in};
ghost use Rattle.fleet.specs.Cheapest.{in_round, cheapest_insertion, pick_of};
ghost use Rattle.fleet_cheapest.specs.Promises.{WindowsOf, Unwon, RoomToTry, terms_at};

use constructive::load;
use constructive::tables::RouteTablesRef;
use constructive::terms::Terms;
use evaluation::limits;
use evaluation_prefix::Prefix;
use fleet::Pick;
use insertion::choice::Choice;
use insertion::place::{Prices, Tried};
use insertion::{choice, place, places, trial};
use sheet::Sheet;

// Whether some row has a window, and whether one has a window with a penalty. Two flags for three cases: `any` is asked for the
// terms alone, and `soft` goes into the definitions as a Bool, so that an enum would be compared at each.
#[derive(Clone, Copy)]
pub struct Windows {
    pub any: bool,
    pub soft: bool,
}

// What a vehicle's rounds are judged by. A stop that no round takes does not go alone: that costs without end.
fn terms_at(sheet: &Sheet, windows: Windows, index: u16) -> Terms
    requires { (index < vehicles_of sheet.now) × (0 < rows_of sheet.now) }
    ensures { result ≡ terms_at sheet.now windows index }
{
    let own = sheet.vehicle_at(index as usize);
    let limits = limits::limits_at(sheet, index as usize);
    let unlimited = limits.is_unlimited();
    let constrained = windows.any || !unlimited;
    Terms {
        depot: 0,
        vehicle: index,
        constrained,
        soft: windows.soft,
        capacity: own.capacity,
        fixed: f64::INFINITY,
        limits,
    }
}

// Whether the stop would cost less than the best so far at some place of the round, windows and limits apart. With soft windows
// that is not told by the legs.
fn may_win(sheet: &Sheet, windows: Windows, route: &[u16], row: u16, best: Choice) -> bool
    requires routed { Routed sheet.now 0 route.now }
    requires row_bound { row < rows_of sheet.now }
    ensures { result ≡ false → (windows.soft ≡ false) × Unwon sheet.now route.now row best (length route.now + 1) }
{
    windows.soft
        || (0..route.len() + 1).any(|k| {
            let detour = place::detour(sheet, 0, route, row as usize, k);
            choice::wins(detour, best)
        })
}

// The better of the best so far and the stop at its places in the round counted i, each that may win walked: rounds grow long
// here, so from a place that all places after it share (docs/BENCHMARKS.md). `trial` has room for the round with the stop.
fn try_walks(
    sheet: &Sheet,
    windows: Windows,
    index: u16,
    route: &[u16],
    row: u16,
    trial: &mut [u16],
    best: Choice,
    i: usize,
) -> Choice
    requires windows_of { WindowsOf sheet.now windows }
    requires routed { Routed sheet.now 0 route.now }
    requires row_bound { (row < rows_of sheet.now) × (index < vehicles_of sheet.now) }
    requires route_len_bound { (length route.now < most_rows) × (length trial.old ≡ length route.now + 1) }
    ensures { result ≡ in_round sheet.now windows.soft row best i (record { vehicle = index; stops = route.now }) }
{
    let terms = terms_at(sheet, windows, index);
    if terms.capacity < load::load_of(sheet, route) + sheet.demand(row as usize) {
        return best;
    }
    if !terms.constrained {
        return places::try_free(sheet, terms, route, row, best, i);
    }
    let mut prices = None;
    if terms.soft {
        // A round that is not allowed as it stands takes no stop; going alone costs without end, as in the terms.
        let Some(figures) = evaluation::route_eval(sheet, route, terms.depot, terms.limits) else {
            return best;
        };
        let round = evaluation::priced_distance(figures);
        let alone = f64::INFINITY;
        prices = Some(Prices { round, alone });
    }
    let end = route.len();
    trial::lay_out(trial, route);
    trial[end] = row;
    let tried = Tried {
        choice: best,
        at: end,
    };
    let done = places::try_places::<Prefix>(sheet, terms, prices, route, row, trial, tried, i);
    done.choice
}

// The same. Most rounds have no place that may win, and are looked at no further.
fn try_round(
    sheet: &Sheet,
    windows: Windows,
    index: u16,
    route: &[u16],
    row: u16,
    trial: &mut [u16],
    best: Choice,
    i: usize,
) -> Choice
    requires windows_of { WindowsOf sheet.now windows }
    requires routed { Routed sheet.now 0 route.now }
    requires row_bound { (row < rows_of sheet.now) × (index < vehicles_of sheet.now) }
    requires route_len_bound { (length route.now < most_rows) × (length trial.old ≡ length route.now + 1) }
    ensures { result ≡ in_round sheet.now windows.soft row best i (record { vehicle = index; stops = route.now }) }
{
    if !may_win(sheet, windows, route, row, best) {
        return best;
    }
    try_walks(sheet, windows, index, route, row, trial, best, i)
}

// The cheapest insertion of one stop into the n rounds of the tables.
fn cheapest_insertion(
    sheet: &Sheet,
    windows: Windows,
    tables: &RouteTablesRef,
    n: usize,
    row: u16,
    trial: &mut [u16],
) -> Choice
    requires windows_of { WindowsOf sheet.now windows }
    requires room { RoomToTry sheet.now tables.now.stops.now tables.now.ends.now tables.now.vehicles.now n }
    requires row_bound { row < rows_of sheet.now }
    requires most_rows_in_bounds { most_rows ≤ length trial.old }
    ensures { result ≡ cheapest_insertion sheet.now windows.soft (rounds_in tables.now.stops.now tables.now.ends.now tables.now.vehicles.now n 0 0) row }
{
    let mut best = None;
    // by rounds: one stands in two tables, and the choice names it by i
    for i in 0..n {
        let route = tables.route(i);
        let room = route.len() + 1;
        let next = try_round(
            sheet,
            windows,
            tables.vehicle_of(i),
            route,
            row,
            &mut trial[..room],
            best,
            i,
        );
        best = choice::rebuilt(next);
    }
    best
}

// The cheapest insertion of the stops pending, which stand in `pending`, into the n rounds of the tables.
pub fn cheapest(
    sheet: &Sheet,
    windows: Windows,
    tables: &RouteTablesRef,
    n: usize,
    pending: &[u16],
) -> Pick
    requires windows_of { WindowsOf sheet.now windows }
    requires room { RoomToTry sheet.now tables.now.stops.now tables.now.ends.now tables.now.vehicles.now n }
    requires routed { Routed sheet.now 0 pending.now }
    ensures { result ≡ pick_of sheet.now windows.soft (rounds_in tables.now.stops.now tables.now.ends.now tables.now.vehicles.now n 0 0) pending.now }
{
    let mut trial = [0u16; sheet::MOST_ROWS];
    let mut best = None;
    for (j, &row) in pending.iter().enumerate() {
        let choice = cheapest_insertion(sheet, windows, tables, n, row, &mut trial);
        best = fleet::pick_with(best, j, choice);
    }
    best
}
