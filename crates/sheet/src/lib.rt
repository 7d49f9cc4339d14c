// The sheet: what its bytes hold. A field is read from the lent bytes when it is needed; only where its tables start is kept.
#![tactic(auto)]

ghost use Rattle.std.specs.Prelude.{◌≡◌, ℕ, ◌+◌, ◌*◌, ◌<◌, ◌≤◌, List, length};
ghost use Rattle.sheet.specs.Accepted.{Accepted};
ghost use Rattle.sheet.specs.Depots.{depots_of};
ghost use Rattle.sheet.specs.Fields.{rows_of, vehicles_of, method_of, times_of, marked, row_at, header_size, row_size, vehicle_size, plan_length, most_rows, most_vehicles};
ghost use Rattle.sheet.specs.Located.{Located};
ghost use Rattle.sheet.specs.Method.{code_of};

use method::Method;
use std::marker::Model;

pub mod customer;
pub mod matrix;
pub mod method;
pub mod refusal;
pub mod vehicle;

// The sizes of the header, of a row and of a vehicle.
pub const HEADER_SIZE: usize = 16;

pub const ROW_SIZE: usize = 48;

pub const VEHICLE_SIZE: usize = 72;

// The most rows and vehicles that a sheet has.
pub const MOST_ROWS: usize = 101;

pub const MOST_VEHICLES: usize = 16;

// Where the record of a row starts.
#[inline(always)]
pub fn row_place(row: usize) -> usize
    requires { row ≤ most_rows }
    ensures { result ≡ row_at row }
{
    HEADER_SIZE + ROW_SIZE * row
}

// Where the record of a vehicle starts in a sheet of so many rows. That of the first past the last is the end of the records.
#[inline(always)]
pub fn vehicle_place(rows: usize, index: usize) -> usize
    requires { (rows ≤ most_rows) × (index ≤ most_vehicles) }
    ensures { result ≡ header_size + row_size * rows + vehicle_size * index }
{
    row_place(rows) + VEHICLE_SIZE * index
}

pub fn rows(sheet: &[u8]) -> usize
    requires { header_size ≤ length sheet.now }
    ensures { result ≡ rows_of sheet.now }
{
    wire::u16_at(sheet, 0) as usize
}

// How long the sheet's plan is. Asked before the check too, so that the rows may be more than a sheet has.
#[inline(always)]
pub fn plan_length(sheet: &[u8]) -> usize
    requires { header_size ≤ length sheet.now }
    ensures { result ≡ plan_length sheet.now }
{
    16 + 80 * rows(sheet)
}

pub fn vehicles(sheet: &[u8]) -> usize
    requires { header_size ≤ length sheet.now }
    ensures { result ≡ vehicles_of sheet.now }
{
    wire::u16_at(sheet, 2) as usize
}

// How many tables follow the distances: 0 or 1 in an accepted sheet.
pub fn times(sheet: &[u8]) -> u8
    requires { header_size ≤ length sheet.now }
    ensures { result ≡ times_of sheet.now }
{
    sheet[5]
}

// Whether a mark stands in a sum of marks.
pub fn has_mark(mark: u32, marks: u32) -> bool
    requires { 0 < mark }
    ensures { result ≡ marked mark marks }
{
    marks / mark % 2 == 1
}

// A sheet that passed its check: no contract has to ask for that. A clause sees its bytes. Beside them it holds how many rows and
// depots it has, since depots are counted row by row, and where its distances and its times start, which is one place where it has
// no times.
//
// A row and a vehicle stay numbers, whose bound a clause says: a type of theirs would have to name the sheet, and be made anew of
// each number of a table. Before the check there are no types either, for a header, for counts or for a record that lies within
// the bytes: each would hold the bytes alone, for the one function that goes on to the next.
#[derive(Drop)]
pub struct Sheet<'a> {
    bytes: &'a [u8],
    rows: usize,
    depots: usize,
    distances: usize,
    times: usize,
}

impl<'a> Model for Sheet<'a> {
    ghost Value = { List ℕ };

    ghost view = { λ a. a.bytes.now };

    ghost invariant = { λ a. Located a.bytes.now a.rows a.depots a.distances a.times };
}

impl<'a> Sheet<'a> {
    pub fn new(bytes: &'a [u8]) -> Self
        requires { Accepted bytes.now }
        ensures { result ≡ bytes.now }
    {
        let rows = rows(bytes);
        let depots = customer::depots(bytes);
        let distances = matrix::tables(bytes);
        let times = distances + 8 * (times(bytes) as usize * (rows * rows));
        Sheet {
            bytes,
            rows,
            depots,
            distances,
            times,
        }
    }

    // What the type says, for a function that has to hand it on to a proof. It does nothing.
    #[inline(always)]
    pub fn accepted(&self)
        ensures { Accepted self.now }
    {
        let _ = &self.bytes;
    }

    // For what asks less of a sheet than that it is accepted.
    pub fn bytes(&self) -> &'a [u8]
        ensures value { result.now ≡ self.now }
        ensures accepted { Accepted self.now }
    {
        self.bytes
    }

    pub fn rows(&self) -> usize
        ensures value { result ≡ rows_of self.now }
        ensures few { result ≤ most_rows }
    {
        self.rows
    }

    pub fn vehicles(&self) -> usize
        ensures value { result ≡ vehicles_of self.now }
        ensures accepted { Accepted self.now }
    {
        vehicles(self.bytes)
    }

    pub fn depots(&self) -> usize
        ensures value { result ≡ depots_of self.now }
        ensures accepted { Accepted self.now }
    {
        self.depots
    }

    pub fn method(&self) -> Method
        ensures { code_of result ≡ method_of self.now }
    {
        method::accepted_method(self.bytes)
    }
}
