// The ranges of a row and of a vehicle, whose record starts at `at`.
ghost use Rattle.std.specs.Prelude.{◌≡◌, ◌+◌, ◌≤◌, ◌<◌, length};
ghost use Rattle.sheet.specs.Fields.{row_size, vehicle_size};
ghost use Rattle.sheet.specs.Depots.{depots_of};
ghost use Rattle.sheet.specs.Ranges.{serving_in_range, row_in_range, maxima_in_range, rest_in_range, vehicle_in_range};

use crate::field;
use sheet::{customer, vehicle};

#[tactic(auto, unfolding(sheet::specs::Ranges::serving_in_range, sheet::specs::Fields::row_marks))]
fn serving_in_range(sheet: &[u8], at: usize) -> bool
    requires { at + row_size ≤ length sheet.now }
    ensures { result ≡ serving_in_range sheet.now at }
{
    let marks = wire::u32_at(sheet, at + 12);
    field::amount(sheet, at + 16)
        && field::interval(sheet, at + 24, sheet::has_mark(customer::WINDOW, marks))
        && field::optional(
            sheet,
            at + 40,
            sheet::has_mark(customer::PENALTY, marks),
            field::MILLION,
        )
}

#[tactic(auto, unfolding(sheet::specs::Ranges::row_in_range, sheet::specs::Fields::row_marks))]
pub fn row_in_range(sheet: &[u8], at: usize) -> bool
    requires { at + row_size ≤ length sheet.now }
    ensures { result ≡ row_in_range sheet.now at }
{
    field::coordinate(wire::u32_at(sheet, at))
        && field::coordinate(wire::u32_at(sheet, at + 4))
        && field::demand(wire::u32_at(sheet, at + 8))
        && field::marks(wire::u32_at(sheet, at + 12))
        && serving_in_range(sheet, at)
}

#[tactic(auto, unfolding(sheet::specs::Ranges::maxima_in_range, sheet::specs::Fields::vehicle_marks))]
fn maxima_in_range(sheet: &[u8], at: usize) -> bool
    requires { at + vehicle_size ≤ length sheet.now }
    ensures { result ≡ maxima_in_range sheet.now at }
{
    let marks = wire::u32_at(sheet, at + 12);
    field::optional(
        sheet,
        at + 32,
        sheet::has_mark(vehicle::MAX_DISTANCE, marks),
        field::TRILLION,
    ) && field::optional(
        sheet,
        at + 40,
        sheet::has_mark(vehicle::MAX_DURATION, marks),
        field::TRILLION,
    )
}

#[tactic(auto, unfolding(sheet::specs::Ranges::rest_in_range, sheet::specs::Fields::vehicle_marks))]
fn rest_in_range(sheet: &[u8], at: usize) -> bool
    requires { at + vehicle_size ≤ length sheet.now }
    ensures { result ≡ rest_in_range sheet.now at }
{
    let rests = sheet::has_mark(vehicle::REST, wire::u32_at(sheet, at + 12));
    field::interval(sheet, at + 48, rests) && field::optional(sheet, at + 64, rests, field::BILLION)
}

#[tactic(auto, unfolding(sheet::specs::Ranges::vehicle_in_range, sheet::specs::Fields::depot_field, sheet::specs::Fields::vehicle_marks))]
pub fn vehicle_in_range(sheet: &[u8], at: usize, depots: usize) -> bool
    requires vehicle_size_in_bounds { at + vehicle_size ≤ length sheet.now }
    requires depots_value { depots ≡ depots_of sheet.now }
    ensures { result ≡ vehicle_in_range sheet.now at }
{
    (wire::u32_at(sheet, at + 4) as usize) < depots
        && field::capacity(wire::u32_at(sheet, at + 8))
        && field::vehicle_marks(wire::u32_at(sheet, at + 12))
        && field::cost_per_distance(sheet, at + 16)
        && field::amount(sheet, at + 24)
        && maxima_in_range(sheet, at)
        && rest_in_range(sheet, at)
}
