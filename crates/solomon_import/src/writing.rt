// The sheet's bytes, from a text that no refusal is told of.

ghost use Rattle.std.specs.Prelude.{◌≡◌, ◌+◌, ◌*◌, ◌≤◌, ◌<◌, map, T, length, drop};
ghost use Rattle.wire.specs.Bytes.{write};
ghost use Rattle.sheet.specs.Fields.{header_size, row_size};
ghost use Rattle.sheet_writer.specs.Sheet.{row_record, records_bytes};
ghost use Rattle.solomon_text.specs.Lines.{first_line, has_digit};
ghost use Rattle.solomon_import.specs.Instance.{customer_of, customers_of};
ghost use Rattle.solomon_import.specs.Import.{customer_range, customers_range, row_fields_of, rows_fields_from, vehicle_fields_of, import_length, SheetWritten};
ghost use Rattle.solomon_import.specs.Reading.{lines_from, text_refusal};
ghost use Rattle.solomon_import.specs.Writing.{records_of};

use crate::{reading, walk};
use sheet::customer;
use sheet::method::Method;
use sheet_writer::{RowFields, VehicleFields};
use solomon_text::words;

fn row_fields(line: &[u8], marks: u32) -> RowFields
    requires { T (customer_range (customer_of line.now)) }
    ensures { result ≡ row_fields_of marks (customer_of line.now) }
{
    RowFields {
        x: words::value(line, 1),
        y: words::value(line, 2),
        demand: words::value(line, 3),
        marks,
        service: words::value(line, 6) as f64,
        ready: words::value(line, 4) as f64,
        due: words::value(line, 5) as f64,
        penalty: 0.0,
    }
}

fn vehicle_fields(capacity: i32) -> VehicleFields
    ensures { result ≡ vehicle_fields_of capacity }
{
    VehicleFields {
        id: 0,
        depot: 0,
        capacity,
        marks: 0,
        cost_per_distance: 1.0,
        fixed_cost: 0.0,
        max_distance: 0.0,
        max_duration: 0.0,
        earliest: 0.0,
        latest: 0.0,
        rest_duration: 0.0,
    }
}

// The rows of the lines from the one at `from` on, which has a digit unless it is the text's end.
fn write_rows(text: &[u8], from: usize, sheet: &mut [u8])
    requires from_in_bounds { (from ≤ length text.now) × (from < length text.now → T (has_digit (first_line (drop from text.now)))) }
    requires t { T (customers_range (map customer_of (lines_from text.now from))) }
    requires from_in_bounds_2 { header_size + row_size * length (lines_from text.now from) ≤ length sheet.old }
    ensures { sheet.new ≡ write sheet.old header_size (records_bytes row_record (rows_fields_from 0 (map customer_of (lines_from text.now from)))) }
{
    let mut at = from;
    let mut place = sheet::HEADER_SIZE;
    let mut marks = customer::DEPOT | customer::WINDOW;
    // By places, as the rows are read (rows.rt).
    while at < text.len() {
        let line = walk::line_at(text, at);
        sheet_writer::put_row(sheet, place, row_fields(line, marks));
        place += sheet::ROW_SIZE;
        marks = customer::WINDOW;
        at = walk::line_after(text, at);
    }
}

// All but the distances.
fn write_records(text: &[u8], rows: usize, sheet: &mut [u8])
    requires text_value { (text_refusal text.now ≡ 0) × (rows ≡ length (customers_of text.now)) }
    requires rows_in_bounds { import_length rows ≤ length sheet.old }
    ensures { sheet.new ≡ write sheet.old 0 (records_of text.now) }
{
    let first = reading::first_row_line(text);
    let vehicle = vehicle_fields(reading::capacity(text));
    sheet_writer::put_header(sheet, rows, 1, Method::Insertion as u8, 0);
    write_rows(text, first, sheet);
    sheet_writer::put_vehicle(sheet, sheet::vehicle_place(rows, 0), vehicle);
}

// The sheet of a text of so many rows.
pub fn write_sheet(text: &[u8], rows: usize, sheet: &mut [u8])
    requires text_value { (text_refusal text.now ≡ 0) × (rows ≡ length (customers_of text.now)) }
    requires rows_in_bounds { import_length rows ≤ length sheet.old }
    ensures { SheetWritten text.now sheet.old sheet.new }
{
    let tables = sheet::vehicle_place(rows, 1);
    write_records(text, rows, sheet);
    solomon_distances::write_distances(sheet, rows, tables);
}
