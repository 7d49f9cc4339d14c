// What a text holds, and the refusals that do not depend on the buffer.
ghost use Rattle.std.specs.Prelude.{◌≡◌, ◌≤◌, ◌<◌, T, length, drop};
ghost use Rattle.sheet.specs.Told.{told};
ghost use Rattle.solomon_text.specs.Lines.{first_or, after_first, first_line, has_digit, number_lines};
ghost use Rattle.solomon_import.specs.Instance.{capacity_of};
ghost use Rattle.solomon_import.specs.Import.{capacity_range};
ghost use Rattle.solomon_import.specs.Reading.{lines_from, rows_refusal, TextRead};

use crate::rows::RowLines;
use crate::{rows, walk};
use sheet::refusal::Refusal;
use solomon_text::{lines, words};

// The first line with a digit past the name line; empty if there is none.
fn vehicle_line(text: &[u8]) -> &[u8]
    ensures { result.now ≡ first_or (number_lines text.now) }
{
    walk::line_at(text, lines::first_number_line(text))
}

pub fn capacity(text: &[u8]) -> i32
    requires { T (capacity_range (capacity_of text.now)) }
    ensures { result ≡ capacity_of text.now }
{
    words::value(vehicle_line(text), 1)
}

// Where the first row line starts; the text's end if there is none.
pub fn first_row_line(text: &[u8]) -> usize
    ensures upper_bound { (result ≤ length text.now) × (result < length text.now → T (has_digit (first_line (drop result text.now)))) }
    ensures result_value { lines_from text.now result ≡ after_first (number_lines text.now) }
{
    let at = lines::first_number_line(text);
    if at == text.len() {
        return at;
    }
    walk::line_after(text, at)
}

#[tactic(auto, unfolding(crate::specs::Reading::rows_refusal))]
fn rows_refusal(found: RowLines, capacity: bool) -> Result<(), Refusal>
    ensures { told result ≡ rows_refusal found capacity }
{
    if found.count == 0 {
        return Err(Refusal::Text);
    }
    if sheet::MOST_ROWS < found.count {
        return Err(Refusal::TextRows);
    }
    if !found.in_range {
        return Err(Refusal::Rows);
    }
    if !capacity {
        return Err(Refusal::Vehicles);
    }
    Ok(())
}

// How many rows the text has.
pub fn read(text: &[u8]) -> Result<usize, Refusal>
    ensures { TextRead text.now result }
{
    let vehicle = vehicle_line(text);
    if !words::holds_numbers(vehicle, 2) {
        return Err(Refusal::Text);
    }
    let Some(found) = rows::row_lines(text, first_row_line(text)) else {
        return Err(Refusal::Text);
    };
    rows_refusal(found, words::is_up_to(vehicle, 1, 0x7fff_ffff))?;
    Ok(found.count)
}
