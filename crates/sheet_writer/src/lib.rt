// The sheet's bytes, written from the values of its fields.
#![tactic(auto)]

ghost use Rattle.std.specs.Prelude.{◌≡◌, ◌+◌, ◌*◌, ◌≤◌, ◌<◌, not, T, All, length};
ghost use Rattle.std.specs.Float.Ieee.{is_nan};
ghost use Rattle.wire.specs.Bytes.{bytes, write};
ghost use Rattle.sheet.specs.Fields.{header_size, row_size, vehicle_size};
ghost use Rattle.sheet_writer.specs.Sheet.{unsigned, float_bytes, records_bytes, header_record, row_record, vehicle_record};
ghost use Rattle.sheet_writer.specs.Numbered.{RowNumbered, VehicleNumbered};

// A row as its record holds it.
#[derive(Clone, Copy)]
pub struct RowFields {
    pub x: i32,
    pub y: i32,
    pub demand: i32,
    pub marks: u32,
    pub service: f64,
    pub ready: f64,
    pub due: f64,
    pub penalty: f64,
}

// A vehicle as its record holds it.
#[derive(Clone, Copy)]
pub struct VehicleFields {
    pub id: u32,
    pub depot: u32,
    pub capacity: i32,
    pub marks: u32,
    pub cost_per_distance: f64,
    pub fixed_cost: f64,
    pub max_distance: f64,
    pub max_duration: f64,
    pub earliest: f64,
    pub latest: f64,
    pub rest_duration: f64,
}

// The counts fit their fields; method and time byte are written as one number. The method is any byte, so that a damaged sheet can
// be written too: the enum would ask more.
pub fn put_header(sheet: &mut [u8], rows: usize, vehicles: usize, method: u8, times: u8)
    requires header_size_in_bounds { header_size ≤ length sheet.old }
    requires rows_bound { rows < 65536 }
    requires vehicles_bound { vehicles < 65536 }
    ensures { sheet.new ≡ write sheet.old 0 (header_record rows vehicles method times) }
{
    wire::put_u16(sheet, 0, rows as u16);
    wire::put_u16(sheet, 2, vehicles as u16);
    wire::put_u16(sheet, 4, method as u16 + 0x100 * (times as u16));
    wire::put_u16(sheet, 6, 0);
    wire::put_u64(sheet, 8, 0);
}

// In two's complement.
#[tactic(auto, using(crate::proofs::Run::cast_unsigned_is))]
fn put_i32(sheet: &mut [u8], at: usize, v: i32)
    requires { at + 4 ≤ length sheet.old }
    ensures { sheet.new ≡ write sheet.old at (bytes 4 (unsigned v)) }
{
    wire::put_u32(sheet, at, v.cast_unsigned());
}

// One after another.
fn put_floats(sheet: &mut [u8], at: usize, values: &[f64])
    requires at_in_bounds { at + 8 * length values.now ≤ length sheet.old }
    requires numbers { All (λ x. T (not (is_nan x))) values.now }
    ensures { sheet.new ≡ write sheet.old at (records_bytes float_bytes values.now) }
{
    for (i, &v) in values.iter().enumerate() {
        wire::put_f64(sheet, at + 8 * i, v);
    }
}

pub fn put_row(sheet: &mut [u8], at: usize, row: RowFields)
    requires row_size_in_bounds { at + row_size ≤ length sheet.old }
    requires row_numbered { RowNumbered row }
    ensures { sheet.new ≡ write sheet.old at (row_record row) }
{
    put_i32(sheet, at, row.x);
    put_i32(sheet, at + 4, row.y);
    put_i32(sheet, at + 8, row.demand);
    wire::put_u32(sheet, at + 12, row.marks);
    put_floats(
        sheet,
        at + 16,
        &[row.service, row.ready, row.due, row.penalty],
    );
}

pub fn put_vehicle(sheet: &mut [u8], at: usize, vehicle: VehicleFields)
    requires vehicle_size_in_bounds { at + vehicle_size ≤ length sheet.old }
    requires vehicle_numbered { VehicleNumbered vehicle }
    ensures { sheet.new ≡ write sheet.old at (vehicle_record vehicle) }
{
    wire::put_u32(sheet, at, vehicle.id);
    wire::put_u32(sheet, at + 4, vehicle.depot);
    put_i32(sheet, at + 8, vehicle.capacity);
    wire::put_u32(sheet, at + 12, vehicle.marks);
    put_floats(
        sheet,
        at + 16,
        &[
            vehicle.cost_per_distance,
            vehicle.fixed_cost,
            vehicle.max_distance,
            vehicle.max_duration,
            vehicle.earliest,
            vehicle.latest,
            vehicle.rest_duration,
        ],
    );
}
