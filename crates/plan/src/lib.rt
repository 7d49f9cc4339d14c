// The plan's bytes, written from an outcome's tables.
#![tactic(auto)]

ghost use Rattle.std.specs.Prelude.{◌≡◌, ◌+◌, ◌*◌, ◌≤◌, ◌<◌, ◌^◌, length, drop};
ghost use Rattle.wire.specs.Bytes.{write};
ghost use Rattle.sheet.specs.Fields.{rows_of, plan_length, most_rows};
ghost use Rattle.sheet.specs.Values.{vehicle_of};
ghost use Rattle.evaluation.specs.Limits.{limits_at};
ghost use Rattle.evaluation.specs.Routed.{Routed};
ghost use Rattle.evaluator.specs.Driven.{Driven};
ghost use Rattle.evaluator.specs.Record.{begin_of, visited_of, progress_of, build_route, price_start};
ghost use Rattle.constructive.specs.Outcome.{rounds_in, start_in, outcome_in};
ghost use Rattle.constructive.specs.Tables.{RoundOf, Tables, RoundTables};
ghost use Rattle.plan.specs.Plan.{first_of, round_record_at, row_record_at, visit_bytes, aside_bytes, with_visits, with_round, with_rounds, with_aside, price_after, price_of, priced_cost, plan_of};
ghost use Rattle.plan.specs.Writable.{VisitWritable, VisitsWritable, RoundWritable, Writable, Chained};

use constructive::tables::RouteTablesRef;
use evaluation::limits;
use evaluation::limits::RouteLimits;
use evaluator::{Placed, Progress, Record};
use sheet::Sheet;
use sheet::vehicle::Vehicle;

mod records;

// What a chain links to at place i: the stop there, or 0 at its end.
fn link(chain: &[u16], i: usize) -> u16
    ensures { result ≡ first_of (drop i chain.now) }
{
    if i < chain.len() { chain[i] } else { 0 }
}

// Where the record of the round counted k from 0 stands in a plan.
pub fn round_place(k: usize) -> usize
    requires { round_record_at k < 2 ^ 64 }
    ensures { result ≡ round_record_at k }
{
    16 + 56 * k
}

// Where the record of a row stands in the plan of a sheet of so many rows.
pub fn visit_place(rows: usize, row: usize) -> usize
    requires { (rows ≤ most_rows) × (row < rows) }
    ensures { (result ≡ row_record_at rows row) × (result + 24 ≤ 16 + 80 * rows) }
{
    16 + 56 * rows + 24 * row
}

// One stop's visit.
fn write_visit(
    plan: &mut [u8],
    sheet: &Sheet,
    placed: Placed,
    progress: Progress,
    row: usize,
    next: u16,
) -> Progress
    requires driven { Driven sheet.now progress }
    requires row_bound { (row < rows_of sheet.now) × (length plan.old ≡ plan_length sheet.now) }
    requires visit_writable { VisitWritable (visited_of sheet.now placed progress row) }
    ensures value { result ≡ visited_of sheet.now placed progress row }
    ensures plan_after { plan.new ≡ write plan.old (row_record_at (rows_of sheet.now) row) (visit_bytes next result) }
{
    let visit = progress.visited(sheet, placed, row);
    records::put_visit(plan, visit_place(sheet.rows(), row), next, visit);
    visit
}

// The visits of a round's stops, and what they come to.
fn write_visits(
    plan: &mut [u8],
    sheet: &Sheet,
    placed: Placed,
    route: &[u16],
    depot: usize,
) -> Progress
    requires routed { Routed sheet.now depot route.now }
    requires plan_len { length plan.old ≡ plan_length sheet.now }
    requires visits_writable { VisitsWritable sheet.now placed (begin_of depot) route.now }
    ensures value { result ≡ progress_of sheet.now placed (begin_of depot) route.now }
    ensures plan_after { plan.new ≡ with_visits sheet.now placed (begin_of depot) route.now plan.old }
{
    let mut progress = Progress::new(depot);
    for (i, &row) in route.iter().enumerate() {
        let next = link(route, i + 1);
        progress = write_visit(plan, sheet, placed, progress, row as usize, next);
    }
    progress
}

// A vehicle's round, counted k from 0, and its figures.
fn write_round(
    plan: &mut [u8],
    sheet: &Sheet,
    k: usize,
    vehicle: Vehicle,
    limits: RouteLimits,
    route: &[u16],
) -> Record
    requires routed { Routed sheet.now vehicle.depot route.now }
    requires k_bound { (k < rows_of sheet.now) × (length plan.old ≡ plan_length sheet.now) }
    requires round_writable { RoundWritable sheet.now vehicle limits route.now }
    ensures value { result ≡ build_route sheet.now vehicle.depot limits route.now }
    ensures plan_after { plan.new ≡ with_round sheet.now k vehicle limits route.now plan.old }
{
    let depot = vehicle.depot as usize;
    let placed = evaluator::place_rest(sheet, route, depot, limits);
    let progress = write_visits(plan, sheet, placed, route, depot);
    let figures = progress.record(sheet, depot, placed);
    records::put_round(plan, round_place(k), vehicle.id, link(route, 0), figures);
    figures
}

// The round of the vehicle at `index`, and the plan's cost with it.
fn write_priced(
    plan: &mut [u8],
    sheet: &Sheet,
    k: usize,
    index: usize,
    route: &[u16],
    cost: f64,
) -> f64
    requires round_of { RoundOf sheet.now (record { vehicle = index; stops = route.now }) }
    requires k_bound { (k < rows_of sheet.now) × (length plan.old ≡ plan_length sheet.now) }
    requires writable { Writable sheet.now }
    ensures value { result ≡ price_after sheet.now cost index route.now }
    ensures plan_after { plan.new ≡ with_round sheet.now k (vehicle_of sheet.now index) (limits_at sheet.now index) route.now plan.old }
{
    let vehicle = sheet.vehicle_at(index);
    let limits = limits::limits_at(sheet, index);
    let figures = write_round(plan, sheet, k, vehicle, limits, route);
    evaluator::price_with(cost, vehicle, figures)
}

// The rounds one after another, and what they cost.
fn write_rounds(plan: &mut [u8], sheet: &Sheet, tables: &RouteTablesRef, rounds: usize) -> f64
    requires round_tables { RoundTables sheet.now tables.now.stops.now tables.now.ends.now tables.now.vehicles.now rounds }
    requires plan_len { length plan.old ≡ plan_length sheet.now }
    ensures value { result ≡ price_of sheet.now price_start (rounds_in tables.now.stops.now tables.now.ends.now tables.now.vehicles.now rounds 0 0) }
    ensures plan_after { plan.new ≡ with_rounds sheet.now 0 (rounds_in tables.now.stops.now tables.now.ends.now tables.now.vehicles.now rounds 0 0) plan.old }
{
    let mut cost = evaluator::price_start();
    // by rounds: one stands in two tables, and its record at a place told by k
    for k in 0..rounds {
        cost = write_priced(
            plan,
            sheet,
            k,
            tables.vehicle_of(k) as usize,
            tables.route(k),
            cost,
        );
    }
    cost
}

// One stop set aside.
fn write_link(plan: &mut [u8], sheet: &Sheet, row: usize, next: u16)
    requires { (row < rows_of sheet.now) × (length plan.old ≡ plan_length sheet.now) }
    ensures { plan.new ≡ write plan.old (row_record_at (rows_of sheet.now) row) (aside_bytes next) }
{
    wire::put_u16(plan, visit_place(sheet.rows(), row), next);
}

// The stops set aside, and the first of them.
fn write_aside(plan: &mut [u8], sheet: &Sheet, aside: &[u16]) -> u16
    requires chained { Chained sheet.now aside.now }
    requires plan_len { length plan.old ≡ plan_length sheet.now }
    ensures value { result ≡ first_of aside.now }
    ensures plan_after { plan.new ≡ with_aside sheet.now aside.now plan.old }
{
    for (i, &row) in aside.iter().enumerate() {
        write_link(plan, sheet, row as usize, link(aside, i + 1));
    }
    link(aside, 0)
}

fn cost_of(priced: bool, price: f64) -> f64
    ensures { result ≡ priced_cost priced price }
{
    if priced { price } else { 0.0 }
}

// The plan of the outcome in the tables: `rounds` rounds, `total` stops with those set aside.
pub fn write_plan(
    plan: &mut [u8],
    sheet: &Sheet,
    tables: &RouteTablesRef,
    rounds: usize,
    total: usize,
    priced: bool,
)
    requires tables { Tables sheet.now tables.now.stops.now tables.now.ends.now tables.now.vehicles.now rounds total }
    requires plan_len { length plan.old ≡ plan_length sheet.now }
    ensures { plan.new ≡ plan_of sheet.now (outcome_in tables.now.stops.now tables.now.ends.now tables.now.vehicles.now rounds total) priced }
{
    plan.fill(0);
    let price = write_rounds(plan, sheet, tables, rounds);
    let start = tables.start_of(rounds);
    let aside = write_aside(plan, sheet, &tables.stops[start..total]);
    records::put_header(
        plan,
        rounds as u16,
        aside,
        sheet.rows() as u16,
        cost_of(priced, price),
    );
}
