// A plan read, and each of its rounds walked anew to its figures.
#![tactic(auto)]

ghost use Rattle.std.specs.Prelude.{◌≡◌, ◌≤◌, length, take, map, IfOk};
ghost use Rattle.sheet.specs.Fields.{most_rows};
ghost use Rattle.sheet.specs.Told.{told};
ghost use Rattle.constructive.specs.Outcome.{rounds_in};
ghost use Rattle.constructive.specs.Tables.{RoundOf, RoundTables};
ghost use Rattle.plan_door.specs.Door.{door_refusal};
ghost use Rattle.plan_figures.specs.Walked.{route_figures, Walked};

use constructive::tables::{RouteArrays, RouteTables, RouteTablesRef};
use evaluation::limits;
use sheet::Sheet;
use sheet::refusal::Refusal;

// What a round comes to, as far as it is billed.
#[derive(Clone, Copy)]
pub struct RouteFigures {
    pub distance: f64,
    pub duration: f64,
}

// The figures of a round of the vehicle at `index`, from that vehicle's depot.
fn built(sheet: &Sheet, index: usize, route: &[u16]) -> RouteFigures
    requires { RoundOf sheet.now (record { vehicle = index; stops = route.now }) }
    ensures { result ≡ route_figures sheet.now (record { vehicle = index; stops = route.now }) }
{
    let vehicle = sheet.vehicle_at(index);
    let depot = vehicle.depot as usize;
    let limits = limits::limits_at(sheet, index);
    let record = evaluator::build_route(sheet, route, depot, limits);
    RouteFigures {
        distance: record.distance,
        duration: record.duration,
    }
}

// The figures of the rounds in the tables, each in its place.
fn walk_rounds(sheet: &Sheet, tables: &RouteTablesRef, figures: &mut [RouteFigures])
    requires { RoundTables sheet.now tables.now.stops.now tables.now.ends.now tables.now.vehicles.now (length figures.old) }
    ensures { figures.new ≡ map (route_figures sheet.now) (rounds_in tables.now.stops.now tables.now.ends.now tables.now.vehicles.now (length figures.old) 0 0) }
{
    // by places: a round stands in two tables, told by k; the loop of `plan` writes the bytes of what it makes
    for (k, place) in figures.iter_mut().enumerate() {
        *place = built(sheet, tables.vehicle_of(k) as usize, tables.route(k));
    }
}

// The plan's refusal, or how many rounds are walked: their figures stand first in `figures`. The tables stand here.
pub fn walk_plan(
    sheet: &[u8],
    plan: &[u8],
    room: bool,
    one: bool,
    figures: &mut [RouteFigures],
) -> Result<usize, Refusal>
    requires { most_rows ≤ length figures.old }
    ensures told { told result ≡ door_refusal sheet.now plan.now room one }
    ensures in_bounds { IfOk result (λ rounds. rounds ≤ length figures.new) }
    ensures walked { IfOk result (λ rounds. Walked sheet.now plan.now room one (take rounds figures.new)) }
{
    let mut arrays = RouteArrays::<{ sheet::MOST_ROWS }>::new();
    let mut tables = RouteTables {
        stops: &mut arrays.stops,
        ends: &mut arrays.ends,
        vehicles: &mut arrays.vehicles,
    };
    let rounds = plan_door::enter(sheet, plan, room, one, &mut tables)?;
    walk_rounds(&Sheet::new(sheet), &tables.as_ref(), &mut figures[..rounds]);
    Ok(rounds)
}
