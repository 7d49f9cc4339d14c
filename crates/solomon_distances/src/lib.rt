// The distances of rows that stand in a sheet, from their coordinates.
#![tactic(auto)]

ghost use Rattle.std.specs.Prelude.{◌≡◌, ◌+◌, ◌*◌, ◌<◌};
ghost use Rattle.square_root.specs.ClosestRoot.{ClosestRoot};
ghost use Rattle.solomon_distances.specs.Distances.{squared_between, DistancesRoom, DistancesWritten};
ghost use Rattle.solomon_distances.specs.Filled.{PointAt, FilledTo};

// The squared distance of two rows.
fn squared(sheet: &[u8], i: usize, j: usize) -> u64
    requires { PointAt sheet.now i × PointAt sheet.now j }
    ensures { result ≡ squared_between sheet.now i j }
{
    let from = sheet::row_place(i);
    let to = sheet::row_place(j);
    let dx = u64::from(wire::i32_at(sheet, from).abs_diff(wire::i32_at(sheet, to)));
    let dy = u64::from(wire::i32_at(sheet, from + 4).abs_diff(wire::i32_at(sheet, to + 4)));
    dx * dx + dy * dy
}

// The distance of rows i and j. The table is symmetric: what stands there already is read back, which saves half of the roots.
fn entry(sheet: &[u8], rows: usize, at: usize, i: usize, j: usize) -> f64
    requires i_lt_rows { (i < rows) × (j < rows) }
    requires filled_to { FilledTo sheet.now rows at (i * rows + j) }
    ensures { ClosestRoot (squared_between sheet.now i j) result }
{
    if j < i {
        return wire::f64_at(sheet, at + 8 * (j * rows + i));
    }
    square_root::square_root(squared(sheet, i, j))
}

// Writes the table of distances of the first `rows` rows, row by row, from `at` on. An entry's row, column and place all come of its index.
pub fn write_distances(sheet: &mut [u8], rows: usize, at: usize)
    requires { DistancesRoom sheet.old rows at }
    ensures { DistancesWritten sheet.old rows at sheet.new }
{
    for k in 0..rows * rows {
        let distance = entry(sheet, rows, at, k / rows, k % rows);
        wire::put_f64(sheet, at + 8 * k, distance);
    }
}
