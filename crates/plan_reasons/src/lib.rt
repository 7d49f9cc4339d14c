// The reasons of a plan's set-aside stops.
#![tactic(auto)]

ghost use Rattle.std.specs.Prelude.{◌≡◌, ℕ, ◌^◌, ◌<◌, ◌≤◌, length};
ghost use Rattle.wire.specs.Bytes.{bytes, write};
ghost use Rattle.sheet.specs.Fields.{rows_of, plan_length};
ghost use Rattle.constructive.specs.Outcome.{outcome_in};
ghost use Rattle.constructive.specs.Tables.{Tables};
ghost use Rattle.plan.specs.Writable.{Chained};
ghost use Rattle.plan_reasons.specs.Reasons.{reason_place, with_reasons, reason_at, reasons_right};
ghost use Rattle.plan_reasons.specs.Copying.{AllDropped, Copied};

use constructive::tables::RouteTablesRef;
use sheet::Sheet;

// The limiter's reason for each stop that it drops: no reason is above it.
pub const DROPPED: u16 = 8;

// The stops set aside, of the outcome in the tables.
#[tactic(auto, unfolding(constructive::specs::Outcome::outcome_in))]
pub fn aside_of<'a>(
    _sheet: &Sheet,
    tables: &RouteTablesRef<'a>,
    rounds: usize,
    total: usize,
) -> &'a [u16]
    requires { Tables _sheet.now tables.now.stops.now tables.now.ends.now tables.now.vehicles.now rounds total }
    ensures value { result.now ≡ (outcome_in tables.now.stops.now tables.now.ends.now tables.now.vehicles.now rounds total).aside }
    ensures chained { Chained _sheet.now result.now }
{
    &tables.stops[tables.start_of(rounds)..total]
}

// The reason of a row, as it stands in a plan.
fn reason_at(sheet: &Sheet, plan: &[u8], row: usize) -> u16
    requires { (row < rows_of sheet.now) × (length plan.now ≡ plan_length sheet.now) }
    ensures { result ≡ reason_at plan.now (rows_of sheet.now) row }
{
    wire::u16_at(plan, plan::visit_place(sheet.rows(), row) + 2)
}

fn put_reason(plan: &mut [u8], sheet: &Sheet, row: usize, reason: u16)
    requires { (row < rows_of sheet.now) × (length plan.old ≡ plan_length sheet.now) }
    ensures { plan.new ≡ write plan.old (reason_place (rows_of sheet.now) row) (bytes 2 reason) }
{
    wire::put_u16(plan, plan::visit_place(sheet.rows(), row) + 2, reason);
}

// Whether no reason of these rows is above 8.
#[tactic(auto, unfolding(crate::specs::Reasons::reasons_right))]
pub fn reasons_right(sheet: &Sheet, plan: &[u8], aside: &[u16]) -> bool
    requires chained { Chained sheet.now aside.now }
    requires plan_len { length plan.now ≡ plan_length sheet.now }
    ensures { result ≡ reasons_right sheet.now plan.now aside.now }
{
    aside
        .iter()
        .all(|&row| reason_at(sheet, plan, row as usize) <= DROPPED)
}

// The reason of each of these rows, into a plan.
#[tactic(auto, unfolding(crate::specs::Reasons::with_reasons))]
pub fn write_reasons<F: Fn(u16) -> u16>(plan: &mut [u8], sheet: &Sheet, aside: &[u16], why: F)
    ghost reason: { ℕ → ℕ }
    requires chained { Chained sheet.now aside.now }
    requires plan_len { length plan.old ≡ plan_length sheet.now }
    requires callable { (row : ℕ) → row < rows_of sheet.now → F.pre why row }
    requires tells { (row told : ℕ) → row < rows_of sheet.now → F.post why row told → told ≡ reason row }
    ensures { plan.new ≡ with_reasons sheet.now reason aside.now plan.old }
{
    for &row in aside {
        put_reason(plan, sheet, row as usize, why(row));
    }
}

// Into a table that has 8 for every row: the reason in a plan of each of these rows.
pub fn copy_reasons(sheet: &Sheet, plan: &[u8], aside: &[u16], why: &mut [u16])
    requires chained { Chained sheet.now aside.now }
    requires plan_len { length plan.now ≡ plan_length sheet.now }
    requires rows_in_bounds { rows_of sheet.now ≤ length why.old }
    requires all_dropped { AllDropped why.old }
    ensures { Copied sheet.now plan.now aside.now why.new }
{
    for &row in aside {
        why[row as usize] = reason_at(sheet, plan, row as usize);
    }
}
