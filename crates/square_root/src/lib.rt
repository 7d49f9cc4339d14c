// The square root of a whole number, rounded to the nearest f64.
#![tactic(auto)]

ghost use Rattle.std.specs.Prelude.{◌+◌, ◌*◌, ◌^◌, ◌≤◌, ◌<◌};
ghost use Rattle.square_root.specs.ClosestRoot.{ClosestRoot};

// The largest r with r * r <= n, by Newton's iteration: a step from any number leads to one that is not below the root. The
// number that it starts from suits an n from 2^62 up. The library's `isqrt` halves an interval in 32 steps, and takes twice as
// long.
fn whole_root(n: u64) -> u64
    requires { 1 ≤ n }
    ensures { (result * result ≤ n) × (n < (result + 1) * (result + 1)) }
{
    let mut r = (0xc000_0000 + n / 0xc000_0000) / 2;
    while n / r < r {
        r = (r + n / r) / 2;
    }
    r
}

// The same of n * 2^44, from r, that of n: 22 binary digits more. They are what r * r lacks of n, divided by twice r, or one less, since the quotient leaves
// their own square out.
fn longer_root(n: u64, r: u64) -> u64
    requires { (r * r ≤ n) × (n < (r + 1) * (r + 1)) × (2 ^ 31 ≤ r) }
    ensures { (result * result ≤ n * 2 ^ 44) × (n * 2 ^ 44 < (result + 1) * (result + 1)) }
{
    let left = (n - r * r) * 0x20_0000;
    let q = left / r;
    let s = r * 0x40_0000 + q;
    if left % r * 0x80_0000 < q * q {
        s - 1
    } else {
        s
    }
}

// p squared takes the leading zeros of n away, but for one at most: √n times p has 32 binary digits before its point, and 22 more make 54. The last of them
// rounds the 53 that an f64 holds. The division by a power of two is exact.
pub fn square_root(n: u64) -> f64
    ensures { ClosestRoot n result }
{
    if n == 0 {
        return 0.0;
    }
    let p = 1u64 << (n.leading_zeros() / 2);
    let scaled = n * (p * p);
    let r = longer_root(scaled, whole_root(scaled));
    ((r + 1) / 2) as f64 / (p * 0x20_0000) as f64
}
