// The ranges of single fields. Signed fields are tested as the patterns they are read from.
ghost use Rattle.std.specs.Prelude.{◌≡◌, ◌+◌, ◌≤◌, ◌<◌, true, length};
ghost use Rattle.std.specs.Float.{binary64};
ghost use Rattle.std.specs.Float.Ieee.{of_bits};
ghost use Rattle.wire.specs.Bytes.{signed};
ghost use Rattle.sheet.specs.Ranges.{vehicle_marking, cost_per_distance};

use sheet::vehicle;

// The patterns of 10^6, 10^9 and 10^12.
pub const MILLION: u64 = f64::to_bits(1_000_000.0);

pub const BILLION: u64 = f64::to_bits(1_000_000_000.0);

pub const TRILLION: u64 = f64::to_bits(1_000_000_000_000.0);

#[tactic(auto, unfolding(sheet::specs::Ranges::coordinate, wire::specs::Bytes::signed))]
pub fn coordinate(pattern: u32) -> bool
    ensures { result ≡ Rattle.sheet.specs.Ranges.coordinate (signed pattern) }
{
    pattern.cast_signed().unsigned_abs() <= 1_000_000
}

pub fn demand(pattern: u32) -> bool
    ensures { result ≡ Rattle.sheet.specs.Ranges.demand (signed pattern) }
{
    pattern <= 1_000_000
}

pub fn capacity(pattern: u32) -> bool
    ensures { result ≡ Rattle.sheet.specs.Ranges.capacity (signed pattern) }
{
    pattern < 0x8000_0000
}

pub fn marks(marks: u32) -> bool
    ensures { result ≡ Rattle.sheet.specs.Ranges.marks marks }
{
    marks <= 7
}

// A vehicle's marks. A rest at home is a rest.
#[tactic(auto, unfolding(sheet::specs::Ranges::vehicle_marking))]
pub fn vehicle_marks(marks: u32) -> bool
    ensures { result ≡ vehicle_marking marks }
{
    marks <= 15
        && (!sheet::has_mark(vehicle::HOME_REST, marks) || sheet::has_mark(vehicle::REST, marks))
}

// From 0 to 10^9.
pub fn amount(sheet: &[u8], at: usize) -> bool
    requires { at + 8 ≤ length sheet.now }
    ensures { result ≡ Rattle.sheet.specs.Ranges.amount sheet.now at }
{
    numbers::in_range(wire::u64_at(sheet, at), BILLION)
}

// From 0 to the number of the pattern `max` where its mark is, and all zero bits where not: then its maximum is 0.
pub fn optional(sheet: &[u8], at: usize, present: bool, max: u64) -> bool
    requires at_in_bounds { at + 8 ≤ length sheet.now }
    requires max_finite { max < 0x7ff0_0000_0000_0000 }
    ensures { result ≡ Rattle.sheet.specs.Ranges.optional present (of_bits binary64 max) sheet.now at }
{
    let most = if present { max } else { 0 };
    wire::u64_at(sheet, at) <= most
}

// Two fields in order where their mark is, and all zero bits where not.
#[tactic(auto, unfolding(sheet::specs::Ranges::interval, sheet::specs::Ranges::zero_bits))]
pub fn interval(sheet: &[u8], at: usize, present: bool) -> bool
    requires { at + 16 ≤ length sheet.now }
    ensures { result ≡ Rattle.sheet.specs.Ranges.interval present sheet.now at }
{
    if present {
        return ordered(sheet, at);
    }
    wire::u64_at(sheet, at) == 0 && wire::u64_at(sheet, at + 8) == 0
}

fn ordered(sheet: &[u8], at: usize) -> bool
    requires { at + 16 ≤ length sheet.now }
    ensures { result ≡ Rattle.sheet.specs.Ranges.interval true sheet.now at }
{
    if !amount(sheet, at) {
        return false;
    }
    if !amount(sheet, at + 8) {
        return false;
    }
    numbers::not_above(wire::u64_at(sheet, at), wire::u64_at(sheet, at + 8))
}

// 0, or from 0.001 to 10^6.
#[tactic(auto, unfolding(sheet::specs::Ranges::cost_per_distance, sheet::specs::Ranges::zero_bits, wire::specs::Bytes::f64_at))]
pub fn cost_per_distance(sheet: &[u8], at: usize) -> bool
    requires { at + 8 ≤ length sheet.now }
    ensures { result ≡ cost_per_distance sheet.now at }
{
    let bits = wire::u64_at(sheet, at);
    numbers::in_range(bits, MILLION) && (bits == 0 || numbers::at_least(bits, 0.001))
}
