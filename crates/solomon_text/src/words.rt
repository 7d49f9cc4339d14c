// Words of a line, which are whole numbers.
ghost use Rattle.std.specs.Prelude.{◌≡◌, ◌^◌, ◌≤◌, ◌<◌, not, leb, nat_abs, [], MatchOption};
ghost use Rattle.solomon_text.specs.Lines.{is_blank, words_of};
ghost use Rattle.solomon_text.specs.Numbers.{holds_numbers, word_at, number_at, equals, is_up_to};
ghost use Rattle.solomon_text.specs.Laws.Parts.{FirstPart};
ghost use Rattle.solomon_text.specs.Laws.Words.{FirstWord};
ghost use Rattle.solomon_text.specs.Kept.{KeptNumber};

use crate::number;

fn is_blank(b: u8) -> bool
    ensures { result ≡ is_blank b }
{
    matches!(b, b' ' | b'\t')
}

// How many blanks the line starts with. By `position`, as the next: `split` makes an empty part of each blank, and takes longer.
fn blanks(line: &[u8]) -> usize
    ensures { FirstPart (λ b. not (is_blank b)) line.now 0 result }
{
    line.iter()
        .position(|&b| !is_blank(b))
        .unwrap_or(line.len())
}

// How many bytes come before its first blank.
fn word_length(line: &[u8]) -> usize
    ensures { FirstPart is_blank line.now 0 result }
{
    line.iter().position(|&b| is_blank(b)).unwrap_or(line.len())
}

// The line's first word and what follows it; none of a line without words.
fn first_word(line: &[u8]) -> Option<(&[u8], &[u8])>
    ensures { MatchOption result (words_of line.now ≡ []) (λ (word, rest). FirstWord line.now word.now rest.now) }
{
    let from = &line[blanks(line)..];
    if from.is_empty() {
        return None;
    }
    Some(from.split_at(word_length(from)))
}

// Whether the line holds n whole numbers and nothing else but spaces and tabs.
pub fn holds_numbers(line: &[u8], n: usize) -> bool
    ensures { result ≡ holds_numbers n line.now }
{
    let mut count: usize = 0;
    let mut rest = line;
    while let Some((word, after)) = first_word(rest) {
        if !number::is_whole_number(word) {
            return false;
        }
        count += 1;
        rest = after;
    }
    count == n
}

// Its word counted n from 0; empty if there are fewer.
fn word_at(line: &[u8], n: usize) -> &[u8]
    ensures { result.now ≡ word_at line.now n }
{
    let mut rest = line;
    for _ in 0..n {
        let Some((_, after)) = first_word(rest) else {
            return &[];
        };
        rest = after;
    }
    match first_word(rest) {
        Some((word, _)) => word,
        None => &[],
    }
}

fn number_at(line: &[u8], n: usize) -> number::WholeNumber
    ensures { KeptNumber (number_at line.now n) result.negative result.size }
{
    number::read(word_at(line, n))
}

// Whether the line's number counted n from 0 is k. This and the next two are three comparisons, of which one told which to make
// would be longer.
pub fn number_is(line: &[u8], n: usize, k: usize) -> bool
    requires { k < 10 ^ 19 }
    ensures { result ≡ equals k (number_at line.now n) }
{
    let number = number_at(line, n);
    !number.negative && number.size == k as u64
}

// Whether its size is at most `most`.
pub fn is_within(line: &[u8], n: usize, most: u64) -> bool
    requires { most < 10 ^ 19 }
    ensures { result ≡ leb (nat_abs (number_at line.now n)) most }
{
    let number = number_at(line, n);
    number.size <= most
}

// Whether it is from 0 to `most`.
pub fn is_up_to(line: &[u8], n: usize, most: u64) -> bool
    requires { most < 10 ^ 19 }
    ensures { result ≡ is_up_to most (number_at line.now n) }
{
    let number = number_at(line, n);
    !number.negative && number.size <= most
}

// The number itself.
pub fn value(line: &[u8], n: usize) -> i32
    requires { nat_abs (number_at line.now n) ≤ 0x7fff_ffff }
    ensures { result ≡ number_at line.now n }
{
    let number = number_at(line, n);
    let size = number.size as i32;
    if number.negative { -size } else { size }
}
