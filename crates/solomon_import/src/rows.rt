// The row lines of a text: their form, their number and their ranges.
ghost use Rattle.std.specs.Prelude.{◌≡◌, ◌≤◌, ◌<◌, T, length, drop};
ghost use Rattle.solomon_text.specs.Lines.{first_line, has_digit};
ghost use Rattle.solomon_text.specs.Numbers.{number_at};
ghost use Rattle.solomon_import.specs.Instance.{is_row_line, customer_of};
ghost use Rattle.solomon_import.specs.Import.{window_range, customer_range};
ghost use Rattle.solomon_import.specs.Reading.{lines_from, RowLinesFound};

use crate::walk;
use solomon_text::words;

// What is found of row lines in form. The count is refused before the ranges are (document 01's order), so one walk finds both.
#[derive(Clone, Copy)]
pub struct RowLines {
    pub count: usize,
    pub in_range: bool,
}

#[tactic(auto, unfolding(crate::specs::Instance::is_row_line))]
fn is_row_line(line: &[u8], k: usize) -> bool
    requires { k < 10000000000000000000 }
    ensures { result ≡ is_row_line k line.now }
{
    words::holds_numbers(line, 7) && words::number_is(line, 0, k)
}

#[tactic(auto, using(crate::proofs::Ranges::up_to_order), unfolding(crate::specs::Import::window_range))]
fn window_in_range(line: &[u8]) -> bool
    ensures { result ≡ window_range (number_at line.now 4) (number_at line.now 5) }
{
    words::is_up_to(line, 4, 1_000_000_000)
        && words::is_up_to(line, 5, 1_000_000_000)
        && words::value(line, 4) <= words::value(line, 5)
}

#[tactic(auto, using(crate::proofs::Ranges::demand_up_to), unfolding(crate::specs::Import::customer_range, crate::specs::Instance::customer_of, sheet::specs::Ranges::coordinate))]
fn customer_in_range(line: &[u8]) -> bool
    ensures { result ≡ customer_range (customer_of line.now) }
{
    words::is_within(line, 1, 1_000_000)
        && words::is_within(line, 2, 1_000_000)
        && words::is_up_to(line, 3, 1_000_000)
        && window_in_range(line)
        && words::is_up_to(line, 6, 1_000_000_000)
}

// The row lines from the one at `from` on, which has a digit unless it is the text's end; none if they are not in form.
pub fn row_lines(text: &[u8], from: usize) -> Option<RowLines>
    requires from_in_bounds { from ≤ length text.now }
    requires t { from < length text.now → T (has_digit (first_line (drop from text.now))) }
    ensures { RowLinesFound (lines_from text.now from) result }
{
    let mut at = from;
    let mut count: usize = 0;
    let mut in_range = true;
    // By places: a part of `split` does not tell whether an LF followed it, with which a CR at its end would go. One of
    // `split_inclusive` does, but has both to be cut off, and the chain with that cut and a `filter` is longer than this.
    while at < text.len() {
        let line = walk::line_at(text, at);
        if !is_row_line(line, count) {
            return None;
        }
        // Not by `&=`, which would ask the lines after one out of range too.
        in_range = in_range && customer_in_range(line);
        count += 1;
        at = walk::line_after(text, at);
    }
    Some(RowLines { count, in_range })
}
