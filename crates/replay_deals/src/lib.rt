// A replay's records of deals.
#![tactic(auto)]

use replay_io::record::{Ending, ROOM};
use replay_io::{line, record};
use sheet::refusal;
use std::io::{Read, Write};

// The sheet's length, the plan's, the number of crews and the deal's length, then the sheet and the plan. Prints `refused N`, or
// the deal.
pub fn replay_deal<R: Read, W: Write>(input: &mut R, out: &mut W) -> Result<(), Ending> {
    let [sheet_len, plan_len, crews, deal_len]: [u32; 4] = record::read_numbers(input)?;
    let mut sheet = [0u8; ROOM];
    let mut plan = [0u8; ROOM];
    let mut deal = [0u8; ROOM];
    let sheet = record::part(input, sheet_len, &mut sheet)?;
    let plan = record::part(input, plan_len, &mut plan)?;
    let deal = record::lend(deal_len, &mut deal)?;
    let answer = planner::deal_rounds(sheet, plan, crews, deal);
    line::print_answer(out, refusal::number(answer), deal)?;
    Ok(())
}
