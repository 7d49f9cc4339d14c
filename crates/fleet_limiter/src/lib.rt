// The limiter (Bräysy and Gendreau 2005): the round of least load is dropped, its stops put back, cheapest first.
// For each round of p stops dropped O(p^2 n) places; where windows or limits are asked, one that may win is walked.
// Sheet, windows, tables and their n rounds go apart: the tables are lent to be changed and n falls with each round dropped, and
// every clause on them would go by one name more.
#![tactic(auto)]

ghost use Rattle.std.specs.Prelude.{◌≡◌, ◌-◌, ◌<◌, drop};
ghost use Rattle.evaluation.specs.Routed.{Routed};
ghost use Rattle.constructive.specs.Lent.{Lent};
ghost use Rattle.constructive.specs.Outcome.{start_in, outcome_in};
ghost use Rattle.constructive.specs.Tables.{Tables, AsLong};
ghost use Rattle.fleet.specs.Cheapest.{pick_of};
ghost use Rattle.fleet.specs.Limit.{dropped, limit_on, limit_routes, soft_in};
ghost use Rattle.fleet_limiter.specs.Limitable.{Limitable};
ghost use Rattle.fleet_limiter.specs.Promises.{windows_in, TablesHold, Triable, pending_first, refit_outcome};

use constructive::tables::{RouteTables, RouteTablesRef};
use evaluation::checks;
use fleet::Pick;
use fleet_cheapest::Windows;
use sheet::Sheet;

// What rows have of windows: the depot's, and these.
fn windows_in(sheet: &Sheet, stops: &[u16]) -> Windows
    requires { Routed sheet.now 0 stops.now }
    ensures { result ≡ windows_in sheet.now stops.now }
{
    let any = checks::has_time_windows(sheet, 0, stops);
    let soft = checks::has_soft_windows(sheet, 0, stops);
    Windows { any, soft }
}

// The cheapest insertion of the stops behind the n rounds, up to `total`.
fn choose(sheet: &Sheet, windows: Windows, tables: &RouteTablesRef, n: usize, total: usize) -> Pick
    requires tables { Tables sheet.now tables.now.stops.now tables.now.ends.now tables.now.vehicles.now n total }
    requires triable { Triable sheet.now windows total }
    ensures { result ≡ pick_of sheet.now windows.soft (outcome_in tables.now.stops.now tables.now.ends.now tables.now.vehicles.now n total).rounds (outcome_in tables.now.stops.now tables.now.ends.now tables.now.vehicles.now n total).aside }
{
    let routed = tables.start_of(n);
    let stops = &tables.stops[..];
    fleet_cheapest::cheapest(sheet, windows, tables, n, &stops[routed..total])
}

// The stops behind the n rounds, up to `total`, go into them, the cheapest first, until no round takes one.
fn refit(sheet: &Sheet, windows: Windows, tables: &mut RouteTables, n: usize, total: usize)
    requires tables { Tables sheet.now tables.old.stops.now tables.old.ends.now tables.old.vehicles.now n total }
    requires triable { Triable sheet.now windows total }
    ensures held { TablesHold sheet.now tables.new.stops.now tables.new.ends.now tables.new.vehicles.now n total (refit_outcome sheet.now windows.soft (pending_first (outcome_in tables.old.stops.now tables.old.ends.now tables.old.vehicles.now n total))) }
    ensures behind_kept { drop total tables.new.stops.now ≡ drop total tables.old.stops.now }
    ensures as_long { AsLong tables.old.stops.now tables.old.ends.now tables.old.vehicles.now tables.new.stops.now tables.new.ends.now tables.new.vehicles.now }
    ensures lent { Lent tables.old tables.new }
{
    loop {
        let Some((j, round, place, _)) = choose(sheet, windows, &tables.as_ref(), n, total) else {
            return;
        };
        fleet_tables::put_in(tables, n, round, place, j);
    }
}

// Drops one of the n rounds, which have all stops up to `total`: those that no other takes stand behind the rounds.
fn drop_round(sheet: &Sheet, windows: Windows, tables: &mut RouteTables, n: usize, total: usize)
    requires tables { Tables sheet.now tables.old.stops.now tables.old.ends.now tables.old.vehicles.now n total }
    requires triable { Triable sheet.now windows total }
    requires n_nonzero { (0 < n) × (start_in tables.old.ends.now n ≡ total) }
    ensures held { TablesHold sheet.now tables.new.stops.now tables.new.ends.now tables.new.vehicles.now (n - 1) total (refit_outcome sheet.now windows.soft (dropped sheet.now (outcome_in tables.old.stops.now tables.old.ends.now tables.old.vehicles.now n total).rounds)) }
    ensures behind_kept { drop total tables.new.stops.now ≡ drop total tables.old.stops.now }
    ensures as_long { AsLong tables.old.stops.now tables.old.ends.now tables.old.vehicles.now tables.new.stops.now tables.new.ends.now tables.new.vehicles.now }
    ensures lent { Lent tables.old tables.new }
{
    let round = fleet_tables::victim(sheet, &tables.as_ref(), n);
    fleet_tables::take_out(tables, n, round);
    refit(sheet, windows, tables, n - 1, total);
}

// Drops rounds until there are no more than `greatest`; answers how many are left. What no round takes stands before the stops
// set aside already.
fn drop_rounds(
    sheet: &Sheet,
    windows: Windows,
    greatest: usize,
    tables: &mut RouteTables,
    rounds: usize,
    total: usize,
) -> usize
    requires tables { Tables sheet.now tables.old.stops.now tables.old.ends.now tables.old.vehicles.now rounds total }
    requires triable { Triable sheet.now windows total }
    ensures held { TablesHold sheet.now tables.new.stops.now tables.new.ends.now tables.new.vehicles.now result total (limit_on sheet.now windows.soft greatest rounds (outcome_in tables.old.stops.now tables.old.ends.now tables.old.vehicles.now rounds total)) }
    ensures as_long { AsLong tables.old.stops.now tables.old.ends.now tables.old.vehicles.now tables.new.stops.now tables.new.ends.now tables.new.vehicles.now }
    ensures lent { Lent tables.old tables.new }
{
    let mut n = rounds;
    // Not over a range turned round: `greatest + 1` might overflow, and the number left is answered.
    while greatest < n {
        let routed = tables.start_of(n);
        drop_round(sheet, windows, tables, n, routed);
        n = n - 1;
    }
    n
}

// The same; windows are read only where a round is dropped.
fn limit(
    sheet: &Sheet,
    greatest: usize,
    tables: &mut RouteTables,
    rounds: usize,
    total: usize,
) -> usize
    requires { Limitable sheet.now tables.old.stops.now tables.old.ends.now tables.old.vehicles.now rounds total }
    ensures held { TablesHold sheet.now tables.new.stops.now tables.new.ends.now tables.new.vehicles.now result total (limit_on sheet.now (soft_in sheet.now (outcome_in tables.old.stops.now tables.old.ends.now tables.old.vehicles.now rounds total)) greatest rounds (outcome_in tables.old.stops.now tables.old.ends.now tables.old.vehicles.now rounds total)) }
    ensures as_long { AsLong tables.old.stops.now tables.old.ends.now tables.old.vehicles.now tables.new.stops.now tables.new.ends.now tables.new.vehicles.now }
    ensures lent { Lent tables.old tables.new }
{
    if rounds <= greatest {
        return rounds;
    }
    // `&mut` though it is only read: of a field that was lent as `&` a proof knows no element afterwards
    let stops: &[u16] = &mut *tables.stops;
    let windows = windows_in(sheet, &stops[..total]);
    drop_rounds(sheet, windows, greatest, tables, rounds, total)
}

// Brings the `rounds` rounds of the tables, which have every stop, down to `greatest`; answers how many are left. The stops set
// aside come out ascending.
pub fn limit_routes(
    sheet: &Sheet,
    greatest: u32,
    tables: &mut RouteTables,
    rounds: usize,
    total: usize,
) -> usize
    requires { Limitable sheet.now tables.old.stops.now tables.old.ends.now tables.old.vehicles.now rounds total }
    ensures total_after { outcome_in tables.new.stops.now tables.new.ends.now tables.new.vehicles.now result total ≡ limit_routes sheet.now greatest (outcome_in tables.old.stops.now tables.old.ends.now tables.old.vehicles.now rounds total) }
    ensures tables { Tables sheet.now tables.new.stops.now tables.new.ends.now tables.new.vehicles.now result total }
    ensures as_long { AsLong tables.old.stops.now tables.old.ends.now tables.old.vehicles.now tables.new.stops.now tables.new.ends.now tables.new.vehicles.now }
    ensures lent { Lent tables.old tables.new }
{
    let n = limit(sheet, greatest as usize, tables, rounds, total);
    let from = tables.start_of(n);
    fleet_tables::order_aside(sheet, tables.stops, from, total);
    n
}
