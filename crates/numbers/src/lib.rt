// Tests of f64 bit patterns.
#![tactic(auto)]

ghost use Rattle.std.specs.Prelude.{◌≡◌, ◌<◌, not, T};
ghost use Rattle.std.specs.Float.{binary64};
ghost use Rattle.std.specs.Float.Ieee.{of_bits, nan_bits, le};
ghost use Rattle.numbers.specs.Range.{in_range};

// Whether a pattern is that of a number from 0 to the one whose pattern is `max`. One comparison: the patterns of such numbers ascend
// as the numbers do, and those of the NaNs and of every set sign, -0 too, lie above them.
pub fn in_range(bits: u64, max: u64) -> bool
    requires { max < 0x7ff0_0000_0000_0000 }
    ensures { result ≡ in_range bits (of_bits binary64 max) }
{
    bits <= max
}

pub fn at_least(bits: u64, min: f64) -> bool
    requires { T (not (nan_bits binary64 bits)) }
    ensures { result ≡ le min (of_bits binary64 bits) }
{
    min <= f64::from_bits(bits)
}

pub fn not_above(a: u64, b: u64) -> bool
    requires t { T (not (nan_bits binary64 a)) }
    requires t_2 { T (not (nan_bits binary64 b)) }
    ensures { result ≡ le (of_bits binary64 a) (of_bits binary64 b) }
{
    f64::from_bits(a) <= f64::from_bits(b)
}
