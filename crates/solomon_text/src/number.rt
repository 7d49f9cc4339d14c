// A word as a whole number.
ghost use Rattle.std.specs.Prelude.{◌≡◌, ℕ, ◌+◌, ◌-◌, ◌*◌};
ghost use Rattle.std.specs.List.{list_all};
ghost use Rattle.solomon_text.specs.Lines.{is_digit};
ghost use Rattle.solomon_text.specs.Numbers.{has_minus, without_minus, is_whole_number, size_of, whole_number};
ghost use Rattle.solomon_text.specs.Kept.{Kept, KeptNumber};

// A size from 10^19 on is kept as some number from there on: no number that it is compared with is as large.
// The sign stands beside it: one signed number of such sizes would take 128 bits.
#[derive(Clone, Copy)]
pub struct WholeNumber {
    pub negative: bool,
    pub size: u64,
}

fn has_minus(word: &[u8]) -> bool
    ensures { result ≡ has_minus word.now }
{
    word.starts_with(b"-")
}

fn digits(word: &[u8]) -> &[u8]
    ensures { result.now ≡ without_minus word.now }
{
    word.strip_prefix(b"-").unwrap_or(word)
}

fn all_digits(bytes: &[u8]) -> bool
    ensures { result ≡ list_all is_digit bytes.now }
{
    bytes.iter().all(u8::is_ascii_digit)
}

pub fn is_whole_number(word: &[u8]) -> bool
    ensures { result ≡ is_whole_number word.now }
{
    let digits = digits(word);
    !digits.is_empty() && all_digits(digits)
}

// The size with one more digit.
fn with_digit(size: u64, b: u8) -> u64
    ensures { (n : ℕ) → Kept n size → Kept (10 * n + (b - 48)) result }
{
    if size < 1_000_000_000_000_000_000 {
        10 * size + u64::from(b.saturating_sub(b'0'))
    } else {
        10_000_000_000_000_000_000
    }
}

fn size(word: &[u8]) -> u64
    ensures { Kept (size_of word.now) result }
{
    let mut size = 0;
    for &b in digits(word) {
        size = with_digit(size, b);
    }
    size
}

pub fn read(word: &[u8]) -> WholeNumber
    ensures { KeptNumber (whole_number word.now) result.negative result.size }
{
    let size = size(word);
    WholeNumber {
        negative: size != 0 && has_minus(word),
        size,
    }
}
