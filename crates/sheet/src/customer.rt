// Rows of the sheet: stops and depots.
ghost use Rattle.std.specs.Prelude.{◌≡◌, ◌+◌, ◌*◌, ◌<◌, ◌≤◌, length};
ghost use Rattle.sheet.specs.Accepted.{Sized};
ghost use Rattle.sheet.specs.Depots.{depots_of, leading, is_depot};
ghost use Rattle.sheet.specs.Fields.{rows_of, row_at, x_field, y_field, row_marks, row_size, most_rows};
ghost use Rattle.sheet.specs.Finite.{RowNumbers};
ghost use Rattle.sheet.specs.Values.{gate_at, demand_of, stop_of};

use crate::Sheet;

// The marks of a row: a depot; a window; a window whose `due` may be missed for a penalty.
pub const DEPOT: u32 = 1;

pub const WINDOW: u32 = 2;

pub const PENALTY: u32 = 4;

// When service may begin: an early vehicle waits for `ready`.
#[derive(Clone, Copy)]
pub struct Window {
    pub ready: f64,
    pub due: f64,
}

// What a stop asks of an arrival: nothing, none after `due`, or a penalty for each unit of time after it. No `Option`: the two
// kinds of window are asked of in different ways.
#[derive(Clone, Copy)]
pub enum Gate {
    Open,
    Hard(Window),
    Soft(Window, f64),
}

#[derive(Clone, Copy)]
pub struct Stop {
    pub x: i32,
    pub y: i32,
    pub demand: u32,
    pub service: f64,
    pub gate: Gate,
}

fn is_depot(sheet: &[u8], row: usize) -> bool
    requires { (row ≤ most_rows) × (row_at row + row_size ≤ length sheet.now) }
    ensures { result ≡ is_depot sheet.now row }
{
    crate::has_mark(DEPOT, wire::u32_at(sheet, crate::row_place(row) + 12))
}

// How many leading rows are marked as depots.
fn marked_depots(sheet: &[u8], rows: usize) -> usize
    requires { (rows ≤ most_rows) × (row_at rows ≤ length sheet.now) }
    ensures { result ≡ leading sheet.now rows 0 }
{
    (0..rows).find(|&row| !is_depot(sheet, row)).unwrap_or(rows)
}

// The number of depots, at least one.
pub fn depots(sheet: &[u8]) -> usize
    requires { Sized sheet.now }
    ensures { result ≡ depots_of sheet.now }
{
    marked_depots(sheet, crate::rows(sheet)).max(1)
}

fn gate_at(sheet: &[u8], at: usize) -> Gate
    requires row_size_in_bounds { at + row_size ≤ length sheet.now }
    requires row_numbers { RowNumbers sheet.now at }
    ensures { result ≡ gate_at sheet.now at }
{
    let marks = wire::u32_at(sheet, at + 12);
    if !crate::has_mark(WINDOW, marks) {
        return Gate::Open;
    }
    let ready = wire::f64_at(sheet, at + 24);
    let due = wire::f64_at(sheet, at + 32);
    if !crate::has_mark(PENALTY, marks) {
        return Gate::Hard(Window { ready, due });
    }
    Gate::Soft(Window { ready, due }, wire::f64_at(sheet, at + 40))
}

impl<'a> Sheet<'a> {
    // The horizontal coordinate of a row.
    pub fn x(&self, row: usize) -> i32
        requires { row < rows_of self.now }
        ensures { result ≡ x_field self.now (row_at row) }
    {
        wire::i32_at(self.bytes, crate::row_place(row))
    }

    // The vertical coordinate of a row.
    pub fn y(&self, row: usize) -> i32
        requires { row < rows_of self.now }
        ensures { result ≡ y_field self.now (row_at row) }
    {
        wire::i32_at(self.bytes, crate::row_place(row) + 4)
    }

    // What a row loads.
    pub fn demand(&self, row: usize) -> u32
        requires { row < rows_of self.now }
        ensures { result ≡ demand_of self.now row }
    {
        wire::u32_at(self.bytes, crate::row_place(row) + 8)
    }

    pub fn stop_at(&self, row: usize) -> Stop
        requires { row < rows_of self.now }
        ensures { result ≡ stop_of self.now row }
    {
        let bytes = self.bytes;
        let at = crate::row_place(row);
        let gate = gate_at(bytes, at);
        Stop {
            x: self.x(row),
            y: self.y(row),
            demand: self.demand(row),
            service: wire::f64_at(bytes, at + 16),
            gate,
        }
    }
}
