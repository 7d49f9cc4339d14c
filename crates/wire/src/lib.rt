// Little-endian numbers in a slice of bytes. The compiler makes one load or store of each. Not one function for every width:
// a call names the width of the field that it reads.
#![tactic(auto)]

ghost use Rattle.std.specs.Prelude.{◌≡◌, ◌+◌, ◌*◌, ◌≤◌, ◌<◌, not, T, length};
ghost use Rattle.std.specs.Float.{binary64};
ghost use Rattle.std.specs.Float.Ieee.{is_nan, to_bits};
ghost use Rattle.wire.specs.Bytes.{bytes, write, u16_at, u32_at, u64_at, i32_at, f64_at, is_number};

pub fn u16_at(s: &[u8], at: usize) -> u16
    requires { at + 2 ≤ length s.now }
    ensures { result ≡ u16_at s.now at }
{
    u16::from_le_bytes([s[at], s[at + 1]])
}

pub fn u32_at(s: &[u8], at: usize) -> u32
    requires { at + 4 ≤ length s.now }
    ensures { result ≡ u32_at s.now at }
{
    u32::from_le_bytes([s[at], s[at + 1], s[at + 2], s[at + 3]])
}

pub fn u64_at(s: &[u8], at: usize) -> u64
    requires { at + 8 ≤ length s.now }
    ensures { result ≡ u64_at s.now at }
{
    // By a slice, where two and four bytes are listed in a line: the compiler makes the same of both.
    u64::from_le_bytes(s[at..at + 8].try_into().unwrap())
}

pub fn i32_at(s: &[u8], at: usize) -> i32
    requires { at + 4 ≤ length s.now }
    ensures { result ≡ i32_at s.now at }
{
    u32_at(s, at).cast_signed()
}

pub fn f64_at(s: &[u8], at: usize) -> f64
    requires at_in_bounds { at + 8 ≤ length s.now }
    requires t { T (is_number s.now at) }
    ensures { result ≡ f64_at s.now at }
{
    f64::from_bits(u64_at(s, at))
}

pub fn put_u16(s: &mut [u8], at: usize, v: u16)
    requires { at + 2 ≤ length s.old }
    ensures { s.new ≡ write s.old at (bytes 2 v) }
{
    s[at..at + 2].copy_from_slice(&v.to_le_bytes());
}

pub fn put_u32(s: &mut [u8], at: usize, v: u32)
    requires { at + 4 ≤ length s.old }
    ensures { s.new ≡ write s.old at (bytes 4 v) }
{
    s[at..at + 4].copy_from_slice(&v.to_le_bytes());
}

pub fn put_u64(s: &mut [u8], at: usize, v: u64)
    requires { at + 8 ≤ length s.old }
    ensures { s.new ≡ write s.old at (bytes 8 v) }
{
    s[at..at + 8].copy_from_slice(&v.to_le_bytes());
}

pub fn put_f64(s: &mut [u8], at: usize, v: f64)
    requires at_in_bounds { at + 8 ≤ length s.old }
    requires t { T (not (is_nan v)) }
    ensures { s.new ≡ write s.old at (bytes 8 (to_bits binary64 v)) }
{
    put_u64(s, at, f64::to_bits(v));
}
