// Lines of a text, by where they start and end: a refusal and the rows go by places of the whole text, which a slice of it would
// have lost. That a place lies within the text is a clause, of both.
ghost use Rattle.std.specs.Prelude.{◌≡◌, ◌-◌, ◌≤◌, ◌<◌, T, length, take, drop};
ghost use Rattle.std.specs.List.{list_any};
ghost use Rattle.solomon_text.specs.Lines.{is_digit, is_feed, lines_of, first_line, after_first, has_digit, digit_lines, number_lines};
ghost use Rattle.solomon_text.specs.Laws.Parts.{FirstPart};

// The first LF from `at` on; the text's end if there is none. The end is a place like any other, from which the lines are none,
// so that the clauses here and above need no case for it, as they would for an Option.
fn feed(text: &[u8], at: usize) -> usize
    requires { at ≤ length text.now }
    ensures { FirstPart is_feed text.now at result }
{
    at + text[at..]
        .iter()
        .position(|&b| b == b'\n')
        .unwrap_or(text.len() - at)
}

// Where the line that starts at `at` ends: before its LF or CR LF, or at the text's end.
pub fn line_end(text: &[u8], at: usize) -> usize
    requires { at ≤ length text.now }
    ensures { (at ≤ result) × (result ≤ length text.now) × (take (result - at) (drop at text.now) ≡ first_line (drop at text.now)) }
{
    let end = feed(text, at);
    if end == text.len() {
        return end;
    }
    if end == at {
        return end;
    }
    if text[end - 1] == b'\r' {
        return end - 1;
    }
    end
}

// Where the line after it starts; the text's end if there is none.
pub fn next_line(text: &[u8], at: usize) -> usize
    requires { at < length text.now }
    ensures { (at < result) × (result ≤ length text.now) × (digit_lines (after_first (lines_of (drop at text.now))) ≡ digit_lines (lines_of (drop result text.now))) }
{
    let end = feed(text, at);
    if end == text.len() {
        return end;
    }
    end + 1
}

fn has_digit(line: &[u8]) -> bool
    ensures { result ≡ list_any is_digit line.now }
{
    line.iter().any(u8::is_ascii_digit)
}

// The first line from the one at `at` on that has a digit; the text's end if there is none.
pub fn next_digit_line(text: &[u8], at: usize) -> usize
    requires { at ≤ length text.now }
    ensures { (at ≤ result) × (result ≤ length text.now) × (digit_lines (lines_of (drop at text.now)) ≡ digit_lines (lines_of (drop result text.now))) × (result < length text.now → T (has_digit (first_line (drop result text.now)))) }
{
    let mut start = at;
    // By places: the answer is the place of a line, which a part of `split` does not tell.
    while start < text.len() {
        let end = line_end(text, start);
        if has_digit(&text[start..end]) {
            return start;
        }
        start = next_line(text, start);
    }
    start
}

// The first line that counts, past the name line; the text's end if there is none.
pub fn first_number_line(text: &[u8]) -> usize
    ensures { (result ≤ length text.now) × (number_lines text.now ≡ digit_lines (lines_of (drop result text.now))) × (result < length text.now → T (has_digit (first_line (drop result text.now)))) }
{
    if text.is_empty() {
        return 0;
    }
    next_digit_line(text, next_line(text, 0))
}
