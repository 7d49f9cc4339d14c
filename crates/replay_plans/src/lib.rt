// A replay's records of plans, of limited plans and of bills, a function for each kind. It reads what
// follows the kind's byte, makes the call and prints its answer.
#![tactic(auto)]

use replay_io::record::{Ending, ROOM};
use replay_io::{line, record};
use sheet::refusal;
use std::io::{Read, Write};

// The sheet's length and the plan's, and the sheet. Prints `refused N`, or the plan.
pub fn replay_plan<R: Read, W: Write>(input: &mut R, out: &mut W) -> Result<(), Ending> {
    let [sheet_len, plan_len]: [u32; 2] = record::read_numbers(input)?;
    let mut sheet = [0u8; ROOM];
    let mut plan = [0u8; ROOM];
    let sheet = record::part(input, sheet_len, &mut sheet)?;
    let plan = record::lend(plan_len, &mut plan)?;
    let answer = planner::plan_rounds(sheet, plan);
    line::print_answer(out, refusal::number(answer), plan)?;
    Ok(())
}

// The sheet's length, the plan in's, the greatest number of rounds and the plan out's length, then
// the sheet and the plan in. Prints `refused N`, or the plan out.
pub fn replay_limit<R: Read, W: Write>(input: &mut R, out: &mut W) -> Result<(), Ending> {
    let [sheet_len, in_len, greatest, out_len]: [u32; 4] = record::read_numbers(input)?;
    let mut sheet = [0u8; ROOM];
    let mut plan_in = [0u8; ROOM];
    let mut plan_out = [0u8; ROOM];
    let sheet = record::part(input, sheet_len, &mut sheet)?;
    let plan_in = record::part(input, in_len, &mut plan_in)?;
    let plan_out = record::lend(out_len, &mut plan_out)?;
    let answer = planner::limit_rounds(sheet, plan_in, greatest, plan_out);
    line::print_answer(out, refusal::number(answer), plan_out)?;
    Ok(())
}

// The sheet's length, the plan's, the rates of distance and of duration, the least charge and the
// bill's length, then the sheet and the plan. Prints `refused N`, or the bill.
pub fn replay_bill<R: Read, W: Write>(input: &mut R, out: &mut W) -> Result<(), Ending> {
    let [
        sheet_len,
        plan_len,
        distance_rate,
        duration_rate,
        least,
        bill_len,
    ]: [u32; 6] = record::read_numbers(input)?;
    let mut sheet = [0u8; ROOM];
    let mut plan = [0u8; ROOM];
    let mut bill = [0u8; ROOM];
    let sheet = record::part(input, sheet_len, &mut sheet)?;
    let plan = record::part(input, plan_len, &mut plan)?;
    let bill = record::lend(bill_len, &mut bill)?;
    let answer = planner::bill_rounds(sheet, plan, distance_rate, duration_rate, least, bill);
    line::print_answer(out, refusal::number(answer), bill)?;
    Ok(())
}
