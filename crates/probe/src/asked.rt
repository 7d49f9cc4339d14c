// Whether a question is right.
ghost use Rattle.std.specs.Prelude.{◌≡◌};
ghost use Rattle.probe.specs.Promises.{accepted_of, rows_right, round_right, rounds_right};
ghost use Rattle.probe.specs.Drivers.{DriverAsked};

use evaluation::limits;
use evaluation::limits::RouteLimits;
use sheet::Sheet;

// Whether a sheet is accepted, with a plan buffer of its own length.
fn accepted(sheet: &[u8]) -> bool
    ensures { result ≡ accepted_of sheet.now }
{
    if sheet.len() < sheet::HEADER_SIZE {
        return false;
    }
    sheet_refusal::refusal(sheet, sheet::plan_length(sheet)).is_ok()
}

// Whether rounds of a vehicle can be asked about.
fn askable(sheet: &[u8], vehicle: usize) -> bool
    ensures { result ≡ Rattle.probe.specs.Promises.askable sheet.now vehicle }
{
    if !accepted(sheet) {
        return false;
    }
    let sheet = Sheet::new(sheet);
    if sheet.vehicles() <= vehicle {
        return false;
    }
    (sheet.vehicle_at(vehicle).depot as usize) < sheet.rows()
}

// A vehicle that rounds are asked about: its depot, its limits, and how many rows its sheet has.
#[derive(Clone, Copy)]
pub struct Driver {
    pub depot: usize,
    pub limits: RouteLimits,
    pub rows: u16,
}

// The vehicle, where its rounds can be asked about.
pub fn driver_of(sheet: &[u8], index: usize) -> Option<Driver>
    ensures { DriverAsked sheet.now index result }
{
    if !askable(sheet, index) {
        return None;
    }
    let sheet = Sheet::new(sheet);
    Some(Driver {
        depot: sheet.vehicle_at(index).depot as usize,
        limits: limits::limits_at(&sheet, index),
        rows: sheet.rows() as u16,
    })
}

// Whether all stops are rows. Without a way out of the loop it is a few instructions for every eight of them.
pub fn rows_right(stops: &[u16], rows: u16) -> bool
    ensures { result ≡ rows_right stops.now rows }
{
    let mut right = true;
    for &stop in stops {
        right &= stop < rows;
    }
    right
}

// Whether `route` is a round of rows.
pub fn round_right(route: &[u16], rows: u16) -> bool
    ensures { result ≡ round_right route.now rows }
{
    if sheet::MOST_ROWS < route.len() {
        return false;
    }
    rows_right(route, rows)
}

// Whether `stops` holds rounds of `len` rows.
pub fn rounds_right(stops: &[u16], len: usize, rows: u16) -> bool
    ensures { result ≡ rounds_right stops.now len rows }
{
    if len == 0 {
        return false;
    }
    if sheet::MOST_ROWS < len {
        return false;
    }
    if 0xffff_ffff <= stops.len() {
        return false;
    }
    if stops.len() % len != 0 {
        return false;
    }
    rows_right(stops, rows)
}
