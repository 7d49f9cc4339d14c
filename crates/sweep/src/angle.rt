// The angle of a stop from its depot, by exact signs and products.
ghost use Rattle.std.specs.Prelude.{◌≡◌, ◌<◌, ◌-ℤ◌};
ghost use Rattle.sheet.specs.Fields.{rows_of};
ghost use Rattle.sweep.specs.Angle.{direction_of, Short, part_of, turns_left, below};

use sheet::Sheet;

// From the depot to a stop.
#[derive(Clone, Copy)]
pub struct Direction {
    pub dx: i64,
    pub dy: i64,
}

fn offset(from: i32, to: i32) -> i64
    ensures { result ≡ to -ℤ from }
{
    to as i64 - from as i64
}

pub fn direction_to(sheet: &Sheet, depot: usize, row: usize) -> Direction
    requires { (depot < rows_of sheet.now) × (row < rows_of sheet.now) }
    ensures { result ≡ direction_of sheet.now depot row }
{
    Direction {
        dx: offset(sheet.x(depot), sheet.x(row)),
        dy: offset(sheet.y(depot), sheet.y(row)),
    }
}

// The part of the circle, in the order of the angle: below 0, at 0, above 0, at π. The depot's own point is at 0.
// A number, and no enum, which the order alone is asked of: it is a sum of three tests, so that no jump depends on a difference.
fn part(a: Direction) -> u8
    ensures { result ≡ part_of a }
{
    let above = (0 < a.dy) as u8;
    let level = (a.dy == 0) as u8;
    let back = (a.dx < 0) as u8;
    2 * above + level * (1 + 2 * back)
}

// Whether the cross product is above 0.
fn turns_left(a: Direction, b: Direction) -> bool
    requires { Short a × Short b }
    ensures { result ≡ turns_left a b }
{
    a.dy * b.dx < a.dx * b.dy
}

// Whether the angle of `a` is below that of `b`: by the part of the circle, and within one by the cross product.
pub fn is_below(a: Direction, b: Direction) -> bool
    requires { Short a × Short b }
    ensures { result ≡ below a b }
{
    let p = part(a);
    let q = part(b);
    if p != q {
        return p < q;
    }
    turns_left(a, b)
}
