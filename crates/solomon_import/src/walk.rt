// From one of a text's lines to the next that has a digit.
ghost use Rattle.std.specs.Prelude.{◌≡◌, ◌≤◌, ◌<◌, length, drop};
ghost use Rattle.solomon_text.specs.Lines.{first_line};
ghost use Rattle.solomon_import.specs.Reading.{Onward};

use solomon_text::lines;

pub fn line_at(text: &[u8], at: usize) -> &[u8]
    requires { at ≤ length text.now }
    ensures { result.now ≡ first_line (drop at text.now) }
{
    &text[at..lines::line_end(text, at)]
}

// Where the next line with a digit starts; the text's end if there is none.
pub fn line_after(text: &[u8], at: usize) -> usize
    requires { at < length text.now }
    ensures { Onward text.now at result }
{
    lines::next_digit_line(text, lines::next_line(text, at))
}
