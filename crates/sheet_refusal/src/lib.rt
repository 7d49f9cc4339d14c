// Why a sheet is turned back: document 01's refusals 1 to 8, in its order.
#![tactic(auto)]

mod field;
mod record;
mod table;

ghost use Rattle.std.specs.Prelude.{◌≡◌, eqb, ℕ, ◌+◌, ◌*◌, ◌≤◌, length, OnOk};
ghost use Rattle.sheet.specs.Accepted.{Sized};
ghost use Rattle.sheet.specs.Fields.{rows_of, vehicles_of, times_of, spare_of, header_size, most_rows, most_vehicles};
ghost use Rattle.sheet.specs.Refusal.{header_right, counts_right, lengths_right, needs_vehicle, fleet_right, form, refusal_of};
ghost use Rattle.sheet.specs.Told.{told};
ghost use Rattle.sheet.specs.Method.{Decodes};

use sheet::method;
use sheet::method::Method;
use sheet::refusal::Refusal;

// Whether the ten spare bytes are zero.
fn spare_is_zero(sheet: &[u8]) -> bool
    requires { header_size ≤ length sheet.now }
    ensures { result ≡ eqb (spare_of sheet.now) 0 }
{
    wire::u16_at(sheet, 6) == 0 && wire::u64_at(sheet, 8) == 0
}

#[tactic(auto, unfolding(sheet::specs::Refusal::header_right))]
pub fn header_right(sheet: &[u8]) -> bool
    ensures { result ≡ header_right sheet.now }
{
    sheet::HEADER_SIZE <= sheet.len() && sheet::times(sheet) <= 1 && spare_is_zero(sheet)
}

#[tactic(auto, unfolding(sheet::specs::Refusal::counts_right))]
fn counts_right(sheet: &[u8]) -> bool
    requires { header_size ≤ length sheet.now }
    ensures { result ≡ counts_right sheet.now }
{
    sheet::rows(sheet) <= sheet::MOST_ROWS && sheet::vehicles(sheet) <= sheet::MOST_VEHICLES
}

// How many distances and times a sheet of these counts has.
fn entries(rows: usize, times: usize) -> usize
    requires { (rows ≤ most_rows) × (times ≤ 1) }
    ensures { (result ≡ (1 + times) * (rows * rows)) × (result ≤ 20402) }
{
    (1 + times) * (rows * rows)
}

#[tactic(auto, unfolding(sheet::specs::Refusal::lengths_right))]
fn lengths_right(sheet: &[u8], plan_len: usize) -> bool
    requires header_size_in_bounds { header_size ≤ length sheet.now }
    requires sheet_bound { (rows_of sheet.now ≤ most_rows) × ((vehicles_of sheet.now ≤ most_vehicles) × (times_of sheet.now ≤ 1)) }
    ensures { result ≡ lengths_right sheet.now plan_len }
{
    let rows = sheet::rows(sheet);
    let entries = entries(rows, sheet::times(sheet) as usize);
    let sheet_len = sheet::vehicle_place(rows, sheet::vehicles(sheet)) + 8 * entries;
    sheet.len() == sheet_len && plan_len == sheet::plan_length(sheet)
}

// A method that the sheet does not have needs none.
#[tactic(auto, unfolding(sheet::specs::Refusal::needs_vehicle))]
fn needs_vehicle(method: Result<Method, Refusal>) -> bool
    ensures { (byte : ℕ) → Decodes byte method → result ≡ needs_vehicle byte }
{
    matches!(
        method,
        Ok(Method::Savings | Method::Insertion | Method::Sweep)
    )
}

#[tactic(auto, unfolding(sheet::specs::Refusal::fleet_right))]
fn fleet_right(sheet: &[u8]) -> bool
    requires { header_size ≤ length sheet.now }
    ensures { result ≡ fleet_right sheet.now }
{
    sheet::vehicles(sheet) != 0 || !needs_vehicle(method::method_of(sheet))
}

// The refusals 5 to 8 of a sheet whose fields all lie within its bytes.
#[tactic(auto, unfolding(sheet::specs::Refusal::contents))]
pub fn contents(sheet: &[u8]) -> Result<(), Refusal>
    requires { Sized sheet.now }
    ensures { told result ≡ Rattle.sheet.specs.Refusal.contents sheet.now }
{
    if !table::rows_in_range(sheet) {
        return Err(Refusal::Rows);
    }
    if !table::entries_in_range(sheet) {
        return Err(Refusal::Entries);
    }
    if !table::vehicles_in_range(sheet) {
        return Err(Refusal::Vehicles);
    }
    if !fleet_right(sheet) {
        return Err(Refusal::Fleet);
    }
    Ok(())
}

// The refusals 1 to 4, for which the header and the lengths are enough.
#[tactic(auto, unfolding(sheet::specs::Refusal::form))]
pub fn form(sheet: &[u8], plan_len: usize) -> Result<(), Refusal>
    ensures form { told result ≡ form sheet.now plan_len }
    ensures sized { OnOk result (Sized sheet.now) }
{
    if !header_right(sheet) {
        return Err(Refusal::Header);
    }
    if !counts_right(sheet) {
        return Err(Refusal::Counts);
    }
    method::method_of(sheet)?;
    if !lengths_right(sheet, plan_len) {
        return Err(Refusal::Lengths);
    }
    Ok(())
}

// Whether a sheet with a plan buffer of `plan_len` bytes is accepted.
pub fn refusal(sheet: &[u8], plan_len: usize) -> Result<(), Refusal>
    ensures { told result ≡ refusal_of sheet.now plan_len }
{
    form(sheet, plan_len)?;
    contents(sheet)
}
