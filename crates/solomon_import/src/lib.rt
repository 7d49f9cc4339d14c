// From one of Solomon's texts to a sheet.
#![tactic(auto)]

mod reading;
mod rows;
mod walk;
mod writing;

ghost use Rattle.std.specs.Prelude.{◌≡◌, ◌^◌, ◌≤◌, ◌<◌, IfOk};
ghost use Rattle.sheet.specs.Fields.{most_rows};
ghost use Rattle.solomon_import.specs.Import.{import_length, import_answer, ImportAnswered, ImportAccepted};

use sheet::refusal::Refusal;

// Bytes of the sheet of so many rows and one vehicle.
fn import_length(rows: usize) -> usize
    requires { rows ≤ most_rows }
    ensures { result ≡ import_length rows }
{
    sheet::vehicle_place(rows, 1) + 8 * (rows * rows)
}

// The sheet's length, and the sheet at the start of `sheet`.
pub fn import(text: &[u8], sheet: &mut [u8]) -> Result<usize, Refusal>
    ensures import_answered { ImportAnswered text.now sheet.old (import_answer result) sheet.new }
    ensures import_accepted { ImportAccepted (import_answer result) sheet.new }
    ensures import_long { IfOk result (λ long. long < 2 ^ 31) }
{
    let rows = reading::read(text)?;
    let long = import_length(rows);
    if sheet.len() < long {
        return Err(Refusal::Lengths);
    }
    writing::write_sheet(text, rows, sheet);
    Ok(long)
}
