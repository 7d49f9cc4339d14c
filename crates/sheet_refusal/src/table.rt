// The ranges of all rows, of all entries of the tables and of all vehicles, ascending.
ghost use Rattle.std.specs.Prelude.{◌≡◌, ◌+◌, ◌*◌, ◌≤◌, ◌<◌, ◌&&◌, length};
ghost use Rattle.sheet.specs.Accepted.{Sized};
ghost use Rattle.sheet.specs.Depots.{depots_of};
ghost use Rattle.sheet.specs.Fields.{rows_of, vehicles_of, row_at, vehicle_at, entries_of, entry_at};
ghost use Rattle.sheet.specs.Ranges.{row_in_range, amount, vehicle_in_range, same_id, new_id, rows_in_range, entries_in_range, vehicles_in_range};

use crate::{field, record};

pub fn rows_in_range(sheet: &[u8]) -> bool
    requires { Sized sheet.now }
    ensures { result ≡ rows_in_range sheet.now }
{
    (0..sheet::rows(sheet)).all(|i| record::row_in_range(sheet, sheet::row_place(i)))
}

// An entry is in range where neither its pattern nor the maximum's less it has its highest bit set. These bits are or-ed, with no
// early exit and no comparison, of which SSE2 has none at 64 bits: so the compiler takes several entries at a time.
pub fn entries_in_range(sheet: &[u8]) -> bool
    requires { Sized sheet.now }
    ensures { result ≡ entries_in_range sheet.now }
{
    let base = sheet::matrix::tables(sheet);
    let entries = crate::entries(sheet::rows(sheet), sheet::times(sheet) as usize);
    let mut signs: u64 = 0;
    for k in 0..entries {
        let bits = wire::u64_at(sheet, base + 8 * k);
        signs |= bits | field::BILLION.wrapping_sub(bits);
    }
    signs < 0x8000_0000_0000_0000
}

fn same_id(sheet: &[u8], v: usize, w: usize) -> bool
    requires sized { Sized sheet.now }
    requires v_bound { (v < vehicles_of sheet.now) × (w < vehicles_of sheet.now) }
    ensures { result ≡ same_id sheet.now v w }
{
    let rows = sheet::rows(sheet);
    wire::u32_at(sheet, sheet::vehicle_place(rows, w))
        == wire::u32_at(sheet, sheet::vehicle_place(rows, v))
}

// Whether no vehicle before `v` has its id.
fn new_id(sheet: &[u8], v: usize) -> bool
    requires sized { Sized sheet.now }
    requires v_bound { v < vehicles_of sheet.now }
    ensures { result ≡ new_id sheet.now v }
{
    (0..v).all(|w| !same_id(sheet, v, w))
}

fn vehicle_right(sheet: &[u8], v: usize, depots: usize) -> bool
    requires sized { Sized sheet.now }
    requires v_bound { (v < vehicles_of sheet.now) × (depots ≡ depots_of sheet.now) }
    ensures { result ≡ (vehicle_in_range sheet.now (vehicle_at sheet.now v) && new_id sheet.now v) }
{
    record::vehicle_in_range(sheet, sheet::vehicle_place(sheet::rows(sheet), v), depots)
        && new_id(sheet, v)
}

pub fn vehicles_in_range(sheet: &[u8]) -> bool
    requires { Sized sheet.now }
    ensures { result ≡ vehicles_in_range sheet.now }
{
    let depots = sheet::customer::depots(sheet);
    (0..sheet::vehicles(sheet)).all(|v| vehicle_right(sheet, v, depots))
}
