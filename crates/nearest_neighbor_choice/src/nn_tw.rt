// Nearest neighbour with windows: a stop's key is its distance plus its penalty times its lateness.
ghost use Rattle.std.specs.Prelude.{◌≡◌, ◌<◌};
ghost use Rattle.sheet.specs.Fields.{rows_of};
ghost use Rattle.sheet.specs.Values.{stop_of};
ghost use Rattle.evaluation_clock.specs.Sums.{◌⊕◌};
ghost use Rattle.nearest_neighbor_choice.specs.Choice.{better_stop};
ghost use Rattle.nearest_neighbor_choice.specs.Offers.{late_at, penalty_of, missed, arrival_at, marginal};
ghost use Rattle.nearest_neighbor_choice.specs.Heuristic.{NearestTw as window_rule};
ghost use Rattle.nearest_neighbor_choice.specs.Partial.{trip_of, partial_too_dear, candidate_of, takes_by, window_by, window_clock, PartialRoute};

use crate::choice::StopChoice;
use crate::partial::Partial;
use crate::rule::Rule;
use crate::{choice, partial};
use evaluation::limits::RouteLimits;
use evaluation_clock::window;
use sheet::customer::Gate;
use sheet::vehicle::{Vehicle, VehicleBreak};
use sheet::{Sheet, vehicle};

// By how much an arrival is late, whatever the window costs.
fn late_at(gate: Gate, arrival: f64) -> f64
    ensures { result ≡ late_at gate arrival }
{
    match gate {
        Gate::Open => 0.0,
        Gate::Hard(w) | Gate::Soft(w, _) => window::lateness(w, arrival),
    }
}

fn penalty_of(gate: Gate) -> f64
    ensures { result ≡ penalty_of gate }
{
    match gate {
        Gate::Open | Gate::Hard(_) => 0.0,
        Gate::Soft(_, penalty) => penalty,
    }
}

// Late at a hard window.
fn is_missed(gate: Gate, late: f64) -> bool
    ensures { result ≡ missed gate late }
{
    match gate {
        Gate::Hard(_) => 0.0 < late,
        Gate::Open | Gate::Soft(_, _) => false,
    }
}

fn arrival_at(sheet: &Sheet, partial: Partial, row: usize) -> f64
    requires partial_route { PartialRoute sheet.now partial }
    requires row_bound { row < rows_of sheet.now }
    ensures { result ≡ arrival_at sheet.now (trip_of partial) row }
{
    partial.clock + sheet.travel_time(partial.current, row)
}

// What a stop adds to the round so far, with its lateness.
fn added(sheet: &Sheet, depot: usize, partial: Partial, row: usize, late_cost: f64) -> f64
    requires partial_route { PartialRoute sheet.now partial }
    requires row_bound { (row < rows_of sheet.now) × (depot < rows_of sheet.now) }
    ensures { result ≡ marginal sheet.now depot (trip_of partial) row late_cost }
{
    sheet.distance(partial.current, row) + sheet.distance(row, depot)
        - sheet.distance(partial.current, depot)
        + late_cost
}

// Whether the stop had better go by itself: asked where a window has a penalty, and of no round's first stop.
fn is_too_dear(
    sheet: &Sheet,
    depot: usize,
    vehicle: Vehicle,
    limits: RouteLimits,
    soft: bool,
    partial: Partial,
    row: u16,
    late_cost: f64,
) -> bool
    requires partial_route { PartialRoute sheet.now partial }
    requires row_bound { (row < rows_of sheet.now) × (depot < rows_of sheet.now) }
    ensures { result ≡ partial_too_dear sheet.now depot vehicle limits soft partial row late_cost }
{
    if !soft || partial.served == 0 {
        return false;
    }
    let alone = [row];
    let cost = evaluation::effective_cost(sheet, &alone, depot, limits);
    let most = cost + vehicle::fixed_cost_in_distance(vehicle);
    most <= added(sheet, depot, partial, row as usize, late_cost)
}

// What the key of a stop is made of.
#[derive(Clone, Copy)]
pub struct Candidate {
    pub arrival: f64,
    pub late: f64,
    pub late_cost: f64,
    pub key: f64,
}

fn candidate_at(sheet: &Sheet, partial: Partial, row: usize) -> Candidate
    requires partial_route { PartialRoute sheet.now partial }
    requires row_bound { row < rows_of sheet.now }
    ensures { result ≡ candidate_of sheet.now partial row }
{
    let stop = sheet.stop_at(row);
    let gate = stop.gate;
    let arrival = arrival_at(sheet, partial, row);
    let late = late_at(gate, arrival);
    let late_cost = penalty_of(gate) * late;
    let key = sheet.distance(partial.current, row) + late_cost;
    Candidate {
        arrival,
        late,
        late_cost,
        key,
    }
}

// Whether the round can take the stop.
fn takes(
    sheet: &Sheet,
    depot: usize,
    vehicle: Vehicle,
    limits: RouteLimits,
    soft: bool,
    partial: Partial,
    row: u16,
    seen: Candidate,
) -> bool
    requires partial_route { PartialRoute sheet.now partial }
    requires row_bound { (row < rows_of sheet.now) × (depot < rows_of sheet.now) }
    ensures { result ≡ takes_by sheet.now depot vehicle limits soft partial row seen }
{
    let at = row as usize;
    // Asked before the rest of the stop is read.
    if !partial::carries(sheet, vehicle, partial, at) {
        return false;
    }
    let stop = sheet.stop_at(at);
    let gate = stop.gate;
    !is_missed(gate, seen.late)
        && partial::allows(
            sheet,
            depot,
            limits,
            partial,
            at,
            window::service_start(gate, seen.arrival) + stop.service + sheet.travel_time(at, depot),
        )
        && !is_too_dear(
            sheet,
            depot,
            vehicle,
            limits,
            soft,
            partial,
            row,
            seen.late_cost,
        )
}

// With windows; `soft` where some window has a penalty.
#[derive(Clone, Copy)]
pub struct NearestNeighborTw {
    pub soft: bool,
}

impl Rule for NearestNeighborTw {
    ghost which = { λ rule. window_rule rule.soft };

    fn ignores_due(self, _rest: Option<VehicleBreak>) -> bool {
        false
    }

    // What does not win is not looked at further.
    fn nearer(
        self,
        sheet: &Sheet,
        depot: usize,
        vehicle: Vehicle,
        limits: RouteLimits,
        partial: Partial,
        best: StopChoice,
        j: usize,
        row: u16,
    ) -> StopChoice {
        let seen = candidate_at(sheet, partial, row as usize);
        if choice::wins(seen.key, best)
            && takes(sheet, depot, vehicle, limits, self.soft, partial, row, seen)
        {
            return Some((j, seen.key));
        }
        best
    }

    // Waiting counted.
    fn clock_at(self, sheet: &Sheet, partial: Partial, row: usize) -> f64 {
        let stop = sheet.stop_at(row);
        window::service_start(stop.gate, arrival_at(sheet, partial, row)) + stop.service
    }
}
