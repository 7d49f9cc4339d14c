// Vehicles of the sheet.
ghost use Rattle.std.specs.Prelude.{◌≡◌, ◌+◌, ◌*◌, ◌<◌, ◌≤◌, T, length};
ghost use Rattle.wire.specs.Bytes.{is_number};
ghost use Rattle.sheet.specs.Accepted.{Accepted};
ghost use Rattle.sheet.specs.Fields.{vehicles_of, vehicle_at, vehicle_marks, vehicle_size};
ghost use Rattle.sheet.specs.Finite.{VehicleNumbers};
ghost use Rattle.sheet.specs.Values.{limit_at, rest_after, vehicle_of, rests_home_at, fixed_in_distance};

use crate::Sheet;

// The marks of a vehicle: a maximum of distance; one of duration; a rest; a rest that may be taken at home.
pub const MAX_DISTANCE: u32 = 1;

pub const MAX_DURATION: u32 = 2;

pub const REST: u32 = 4;

pub const HOME_REST: u32 = 8;

// A rest of `duration` that starts from `earliest` to `latest`.
#[derive(Clone, Copy)]
pub struct VehicleBreak {
    pub earliest: f64,
    pub latest: f64,
    pub duration: f64,
}

#[derive(Clone, Copy)]
pub struct Vehicle {
    pub id: u32,
    pub depot: u32,
    pub capacity: u32,
    pub cost_per_distance: f64,
    pub fixed_cost: f64,
    pub max_distance: Option<f64>,
    pub max_duration: Option<f64>,
    pub rest: Option<VehicleBreak>,
}

fn limit_at(sheet: &[u8], at: usize, mark: u32, field: usize) -> Option<f64>
    requires at_in_bounds { (at + 16 ≤ length sheet.now) × ((field + 8 ≤ length sheet.now) × (0 < mark)) }
    requires t { T (is_number sheet.now field) }
    ensures { result ≡ limit_at mark sheet.now at field }
{
    if !crate::has_mark(mark, wire::u32_at(sheet, at + 12)) {
        return None;
    }
    Some(wire::f64_at(sheet, field))
}

fn rest_at(sheet: &[u8], at: usize) -> Option<VehicleBreak>
    requires vehicle_size_in_bounds { at + vehicle_size ≤ length sheet.now }
    requires vehicle_numbers { VehicleNumbers sheet.now at }
    ensures { result ≡ rest_after sheet.now at }
{
    if !crate::has_mark(REST, wire::u32_at(sheet, at + 12)) {
        return None;
    }
    Some(VehicleBreak {
        earliest: wire::f64_at(sheet, at + 48),
        latest: wire::f64_at(sheet, at + 56),
        duration: wire::f64_at(sheet, at + 64),
    })
}

impl<'a> Sheet<'a> {
    // Where the record of a vehicle starts.
    fn start(&self, index: usize) -> usize
        requires { index < vehicles_of self.now }
        ensures { (result ≡ vehicle_at self.now index) × (result + vehicle_size ≤ length self.now) }
    {
        crate::vehicle_place(self.rows, index)
    }

    pub fn vehicle_at(&self, index: usize) -> Vehicle
        requires { index < vehicles_of self.now }
        ensures value { result ≡ vehicle_of self.now index }
        ensures accepted { Accepted self.now }
    {
        let at = self.start(index);
        let max_distance = limit_at(self.bytes, at, MAX_DISTANCE, at + 32);
        let max_duration = limit_at(self.bytes, at, MAX_DURATION, at + 40);
        let rest = rest_at(self.bytes, at);
        Vehicle {
            id: wire::u32_at(self.bytes, at),
            depot: wire::u32_at(self.bytes, at + 4),
            capacity: wire::u32_at(self.bytes, at + 8),
            cost_per_distance: wire::f64_at(self.bytes, at + 16),
            fixed_cost: wire::f64_at(self.bytes, at + 24),
            max_distance,
            max_duration,
            rest,
        }
    }

    // Whether its rest may be taken at the depot on return.
    pub fn rests_home(&self, index: usize) -> bool
        requires { index < vehicles_of self.now }
        ensures { result ≡ rests_home_at self.now index }
    {
        let at = self.start(index);
        crate::has_mark(HOME_REST, wire::u32_at(self.bytes, at + 12))
    }
}

// What the fixed cost of a round is worth in distance.
pub fn fixed_cost_in_distance(vehicle: Vehicle) -> f64
    ensures { result ≡ fixed_in_distance vehicle }
{
    let cost = vehicle.cost_per_distance;
    if 0.0 < cost {
        vehicle.fixed_cost / cost
    } else {
        0.0
    }
}
