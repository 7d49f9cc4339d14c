// Plans the sheet on standard input and prints the plan's listing, or `refused N`. Where standard
// input cannot be read it says why on standard error.
#![tactic(auto)]

ghost use Rattle.std.specs.Prelude.{◌≤◌, ◌<◌, length, take, IfSome, IfOk, OnOk};
ghost use Rattle.std.specs.Io.{ReadsAtMost};
ghost use Rattle.std.specs.Io.KnownBytes.{Appends, Consumes, IsAtEnd};
ghost use Rattle.listing_text.specs.Listing.{listing_rows};
ghost use Rattle.sheet.specs.Fields.{rows_of};
ghost use Rattle.sheet.specs.Refusal.{refusal_of};
ghost use Rattle.listing_text.specs.Put.{Put};
ghost use Rattle.planner.specs.Answer.{plan_for};
ghost use Rattle.listing.specs.Answer.{answer_text, listed_text};

use anyhow::Context;
use std::io;
use std::io::{Read, Write};

// One byte more than the longest sheet that is listed, which has 16 + 48 * 48 + 72 * 16 + 16 * 48 * 48
// bytes. A longer input is refused as its first ROOM bytes are: refusals 1 to 3 read the header
// alone, and where none of them holds, the exact length is below ROOM, so both are refused by 4.
const ROOM: usize = 40_337;

// The plan of 48 rows.
const PLAN_ROOM: usize = 3_856;

// The listing of a sheet of at most 48 rows, which is planned into `plan`, or its refusal.
fn write_planned(out: &mut [u8], sheet: &[u8], plan: &mut [u8]) -> usize
    requires out_long { 8192 ≤ length out.old }
    requires few_rows { rows_of sheet.now ≤ listing_rows }
    ensures { Put out.old out.new 0 (answer_text (refusal_of sheet.now (length plan.old)) sheet.now (plan_for sheet.now)) result }
{
    match planner::plan_rounds(sheet, plan) {
        Ok(()) => listing_text::write_listing(out, sheet, plan),
        Err(refusal) => listing_text::write_refused(out, refusal.into()),
    }
}

// What is printed, in the buffer, and where it ends.
fn write_answer(out: &mut [u8], sheet: &[u8], plan: &mut [u8]) -> usize
    requires out_long { 8192 ≤ length out.old }
    requires plan_long { 3856 ≤ length plan.old }
    ensures { Put out.old out.new 0 (listed_text sheet.now) result }
{
    if let Err(refusal) = listing_text::early_refusal(sheet) {
        return listing_text::write_refused(out, refusal.into());
    }
    let n = sheet::plan_length(sheet);
    write_planned(out, sheet, &mut plan[..n])
}

// What is printed, put into the buffer and written from there.
fn print_answer<W: Write>(
    output: &mut W,
    out: &mut [u8],
    sheet: &[u8],
    plan: &mut [u8],
) -> io::Result<()>
    requires out_long { 8192 ≤ length out.old }
    requires plan_long { 3856 ≤ length plan.old }
    ensures { OnOk result (Appends (W.contents output.old) (W.contents output.new) (listed_text sheet.now)) }
{
    let end = write_answer(out, sheet, plan);
    output.write_all(&out[..end])
}

// Reads until `room` is full or the input ends, and answers how many bytes it put at the start of
// `room`. `read_exact` fails where the input is shorter, and `read_to_end` needs a heap.
fn read_full<R: Read>(input: &mut R, room: &mut [u8]) -> io::Result<usize>
    ensures in_bounds { ReadsAtMost result room.new }
    ensures bytes { IfOk result (λ n. Consumes (R.remaining input.old) (R.remaining input.new) (take n room.new)) }
    ensures end { IfOk result (λ n. n < length room.new → IsAtEnd (R.remaining input.new)) }
{
    let mut done = 0;
    while done < room.len() {
        let n = input.read(&mut room[done..])?;
        if n == 0 {
            break;
        }
        done += n;
    }
    Ok(done)
}

// Prints what is printed of the sheet that the input holds.
fn list<R: Read, W: Write>(input: &mut R, output: &mut W) -> anyhow::Result<()>
    ensures { OnOk result (IfSome (R.remaining input.old)
        (λ sheet. Appends (W.contents output.old) (W.contents output.new) (listed_text sheet))) }
{
    let mut room = [0u8; ROOM];
    let n = read_full(input, &mut room).context("standard input")?;
    let mut out = [0u8; listing_text::LISTING_BYTES];
    let mut plan = [0u8; PLAN_ROOM];
    print_answer(output, &mut out, &room[..n], &mut plan)?;
    Ok(())
}

fn main(rt: HostRuntime) -> anyhow::Result<()> {
    list(&mut rt.stdin(), &mut io::writer(&rt))
}
