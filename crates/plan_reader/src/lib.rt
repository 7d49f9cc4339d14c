// The plan's reader: what stands in its bytes, as an outcome's tables.
#![tactic(auto)]

ghost use Rattle.std.specs.Prelude.{◌≡◌, ℕ, IfSome, unwrap_or, ◌+◌, ◌<◌, ◌≤◌, ◌++◌, T, length, take, get_or};
ghost use Rattle.sheet.specs.Fields.{rows_of, vehicles_of, vehicle_at, id_field, plan_length, most_rows};
ghost use Rattle.sheet.specs.Fleet.{index_of};
ghost use Rattle.constructive.specs.Lent.{Lent};
ghost use Rattle.constructive.specs.Right.{links_right, each_once};
ghost use Rattle.constructive.specs.Tables.{AsLong};
ghost use Rattle.plan.specs.Read.{rounds_at, next_at, chain_of};
ghost use Rattle.plan_reader.specs.Reading.{stop_count, ReaderTables, ReadAs};
ghost use Rattle.plan_reader.specs.Chains.{FollowedAs, RoundsRead, RoundsAs, ChainsAs, SingleAs};

use constructive::tables::{Filled, RouteTables};
use sheet::Sheet;

// The id of a vehicle, of which nothing else is read.
fn id_at(sheet: &Sheet, index: usize) -> u32
    requires { index < vehicles_of sheet.now }
    ensures { result ≡ id_field sheet.now (vehicle_at sheet.now index) }
{
    wire::u32_at(sheet.bytes(), sheet::vehicle_place(sheet.rows(), index))
}

// The vehicle with an id.
fn index_of(sheet: &Sheet, id: u32) -> Option<usize>
    ensures value { unwrap_or result (vehicles_of sheet.now) ≡ index_of sheet.now id }
    ensures bound { IfSome result (λ v. v < vehicles_of sheet.now) }
{
    (0..sheet.vehicles()).find(|&v| id_at(sheet, v) == id)
}

fn next(sheet: &Sheet, plan: &[u8], row: usize) -> usize
    requires { (row < rows_of sheet.now) × (length plan.now ≡ plan_length sheet.now) }
    ensures { result ≡ next_at plan.now (rows_of sheet.now) row }
{
    wire::u16_at(plan, plan::visit_place(sheet.rows(), row)) as usize
}

// A chain from its first link on, into the table from `from` on.
fn follow(sheet: &Sheet, plan: &[u8], first: usize, stops: &mut [u16], from: usize) -> Option<usize>
    requires plan_len { length plan.now ≡ plan_length sheet.now }
    requires sheet_in_bounds { (rows_of sheet.now ≤ length stops.old) × (from ≤ stop_count sheet.now) }
    requires t { T (links_right sheet.now (take from stops.old)) }
    ensures { FollowedAs sheet.now (take from stops.old ++ chain_of sheet.now plan.now first) result stops.new }
{
    let rows = sheet.rows();
    let depots = sheet.depots();
    let mut link = first;
    let mut at = from;
    // A chain is no slice to walk: where it goes on is told by the link that is read.
    while link != 0 {
        if link < depots {
            return None;
        }
        if rows <= link {
            return None;
        }
        if rows - depots <= at {
            return None;
        }
        stops[at] = link as u16;
        link = next(sheet, plan, link);
        at += 1;
    }
    Some(at)
}

// The k-th round, its stops from `at` on.
fn read_round(
    sheet: &Sheet,
    plan: &[u8],
    k: usize,
    tables: &mut RouteTables,
    at: usize,
) -> Option<usize>
    requires reader_tables { ReaderTables sheet.now plan.now tables.old.stops.now tables.old.ends.now tables.old.vehicles.now }
    requires k_bound { (k < rounds_at plan.now) × (rounds_at plan.now ≤ rows_of sheet.now) }
    requires rounds_read { RoundsRead sheet.now plan.now tables.old.stops.now tables.old.ends.now tables.old.vehicles.now k at }
    ensures rounds_as { RoundsAs sheet.now plan.now (k + 1) result tables.new.stops.now tables.new.ends.now tables.new.vehicles.now }
    ensures as_long { AsLong tables.old.stops.now tables.old.ends.now tables.old.vehicles.now tables.new.stops.now tables.new.ends.now tables.new.vehicles.now }
    ensures lent { Lent tables.old tables.new }
{
    let place = plan::round_place(k);
    let index = index_of(sheet, wire::u32_at(plan, place))?;
    let first = wire::u16_at(plan, place + 8) as usize;
    let end = follow(sheet, plan, first, tables.stops, at)?;
    let filled = Filled {
        rounds: k,
        routed: at,
    };
    tables.close_round(filled, index as u16, end);
    Some(end)
}

fn read_rounds(sheet: &Sheet, plan: &[u8], rounds: usize, tables: &mut RouteTables) -> Option<usize>
    requires reader_tables { ReaderTables sheet.now plan.now tables.old.stops.now tables.old.ends.now tables.old.vehicles.now }
    requires rounds_value { (rounds ≡ rounds_at plan.now) × (rounds_at plan.now ≤ rows_of sheet.now) }
    ensures rounds_as { RoundsAs sheet.now plan.now (rounds_at plan.now) result tables.new.stops.now tables.new.ends.now tables.new.vehicles.now }
    ensures as_long { AsLong tables.old.stops.now tables.old.ends.now tables.old.vehicles.now tables.new.stops.now tables.new.ends.now tables.new.vehicles.now }
    ensures lent { Lent tables.old tables.new }
{
    let mut at = 0;
    // Over numbers: a round is read into three tables, at k in two of them.
    for k in 0..rounds {
        at = read_round(sheet, plan, k, tables, at)?;
    }
    Some(at)
}

// Whether no row stands twice.
fn single(rows: &[u16]) -> bool
    requires { (i : ℕ) → i < length rows.now → get_or rows.now i 0 < most_rows }
    ensures { SingleAs result rows.now }
{
    let mut met = [false; sheet::MOST_ROWS];
    for &row in rows {
        let row = row as usize;
        if met[row] {
            return false;
        }
        met[row] = true;
    }
    true
}

// Whether each stop stands exactly once.
fn each_once(sheet: &Sheet, rows: &[u16]) -> bool
    requires rows_bound { length rows.now ≤ stop_count sheet.now }
    requires t { T (links_right sheet.now rows.now) }
    ensures { result ≡ each_once sheet.now rows.now }
{
    sheet.rows() <= rows.len() + sheet.depots() && single(rows)
}

// The rounds, then the stops set aside.
fn read_chains(sheet: &Sheet, plan: &[u8], tables: &mut RouteTables) -> Option<usize>
    requires { ReaderTables sheet.now plan.now tables.old.stops.now tables.old.ends.now tables.old.vehicles.now }
    ensures chains_as { ChainsAs sheet.now plan.now result tables.new.stops.now tables.new.ends.now tables.new.vehicles.now }
    ensures as_long { AsLong tables.old.stops.now tables.old.ends.now tables.old.vehicles.now tables.new.stops.now tables.new.ends.now tables.new.vehicles.now }
    ensures lent { Lent tables.old tables.new }
{
    let rounds = wire::u16_at(plan, 0) as usize;
    if sheet.rows() < rounds {
        return None;
    }
    let start = read_rounds(sheet, plan, rounds, tables)?;
    let aside = wire::u16_at(plan, 2) as usize;
    follow(sheet, plan, aside, tables.stops, start)
}

// The outcome of a plan, into the tables.
pub fn read_plan(sheet: &Sheet, plan: &[u8], tables: &mut RouteTables) -> Option<usize>
    requires { ReaderTables sheet.now plan.now tables.old.stops.now tables.old.ends.now tables.old.vehicles.now }
    ensures read_as { ReadAs sheet.now plan.now result tables.new.stops.now tables.new.ends.now tables.new.vehicles.now }
    ensures as_long { AsLong tables.old.stops.now tables.old.ends.now tables.old.vehicles.now tables.new.stops.now tables.new.ends.now tables.new.vehicles.now }
    ensures lent { Lent tables.old tables.new }
{
    let total = read_chains(sheet, plan, tables)?;
    // `&mut` though it is only read: of a field that was lent as `&` a proof knows no element afterwards
    let stops: &[u16] = &mut *tables.stops;
    if !each_once(sheet, &stops[..total]) {
        return None;
    }
    Some(wire::u16_at(plan, 0) as usize)
}
