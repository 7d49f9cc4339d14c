// The records of a plan, each written at its place.
ghost use Rattle.std.specs.Prelude.{◌≡◌, ◌+◌, ◌≤◌, length};
ghost use Rattle.wire.specs.Bytes.{write};
ghost use Rattle.plan.specs.Plan.{visit_bytes, round_counts, round_figures, round_bytes, header_bytes};
ghost use Rattle.plan.specs.Writable.{Number, VisitWritable, RecordWritable};

use evaluation_clock::label::{rest_place, rest_start};
use evaluator::{Progress, Record};

pub fn put_visit(plan: &mut [u8], at: usize, next: u16, visit: Progress)
    requires at_in_bounds { at + 24 ≤ length plan.old }
    requires visit_writable { VisitWritable visit }
    ensures { plan.new ≡ write plan.old at (visit_bytes next visit) }
{
    wire::put_u16(plan, at, next);
    wire::put_u16(plan, at + 2, 0);
    wire::put_u32(plan, at + 4, visit.load);
    wire::put_f64(plan, at + 8, visit.arrival);
    wire::put_f64(plan, at + 16, visit.departure);
}

fn put_counts(plan: &mut [u8], at: usize, id: u32, first: u16, figures: Record)
    requires { at + 16 ≤ length plan.old }
    ensures { plan.new ≡ write plan.old at (round_counts id first figures) }
{
    wire::put_u32(plan, at, id);
    wire::put_u32(plan, at + 4, figures.load);
    wire::put_u16(plan, at + 8, first);
    wire::put_u16(plan, at + 10, rest_place(figures.rest));
    wire::put_u32(plan, at + 12, 0);
}

fn put_figures(plan: &mut [u8], at: usize, figures: Record)
    requires at_in_bounds { at + 40 ≤ length plan.old }
    requires record_writable { RecordWritable figures }
    ensures { plan.new ≡ write plan.old at (round_figures figures) }
{
    wire::put_f64(plan, at, figures.distance);
    wire::put_f64(plan, at + 8, figures.duration);
    wire::put_f64(plan, at + 16, figures.lateness);
    wire::put_f64(plan, at + 24, figures.lateness_cost);
    wire::put_f64(plan, at + 32, rest_start(figures.rest));
}

pub fn put_round(plan: &mut [u8], at: usize, id: u32, first: u16, figures: Record)
    requires at_in_bounds { at + 56 ≤ length plan.old }
    requires record_writable { RecordWritable figures }
    ensures { plan.new ≡ write plan.old at (round_bytes id first figures) }
{
    put_counts(plan, at, id, first, figures);
    put_figures(plan, at + 16, figures);
}

pub fn put_header(plan: &mut [u8], rounds: u16, aside: u16, rows: u16, cost: f64)
    requires in_bounds { 16 ≤ length plan.old }
    requires number { Number cost }
    ensures { plan.new ≡ write plan.old 0 (header_bytes rounds aside rows cost) }
{
    wire::put_u16(plan, 0, rounds);
    wire::put_u16(plan, 2, aside);
    wire::put_u16(plan, 4, rows);
    wire::put_u16(plan, 6, 0);
    wire::put_f64(plan, 8, cost);
}
