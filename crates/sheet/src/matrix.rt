// The tables of distances and times.
ghost use Rattle.std.specs.Prelude.{◌≡◌, ◌+◌, ◌*◌, ◌<◌, ◌≤◌};
ghost use Rattle.sheet.specs.Accepted.{Sized};
ghost use Rattle.sheet.specs.Fields.{rows_of, tables_at, most_rows};
ghost use Rattle.sheet.specs.Values.{distance_of, time_of};

use crate::Sheet;

// Where the distances start.
pub fn tables(sheet: &[u8]) -> usize
    requires { Sized sheet.now }
    ensures { result ≡ tables_at sheet.now }
{
    crate::vehicle_place(crate::rows(sheet), crate::vehicles(sheet))
}

// The place of an entry in a table of `n` rows.
fn cell(n: usize, i: usize, j: usize) -> usize
    requires { (n ≤ most_rows) × ((i < n) × (j < n)) }
    ensures { (result ≡ i * n + j) × (result < n * n) }
{
    i * n + j
}

impl<'a> Sheet<'a> {
    pub fn distance(&self, from: usize, to: usize) -> f64
        requires { (from < rows_of self.now) × (to < rows_of self.now) }
        ensures { result ≡ distance_of self.now from to }
    {
        wire::f64_at(self.bytes, self.distances + 8 * cell(self.rows, from, to))
    }

    // The time of a leg: its own where there is a table of times, else its distance.
    pub fn travel_time(&self, from: usize, to: usize) -> f64
        requires { (from < rows_of self.now) × (to < rows_of self.now) }
        ensures { result ≡ time_of self.now from to }
    {
        wire::f64_at(self.bytes, self.times + 8 * cell(self.rows, from, to))
    }
}
