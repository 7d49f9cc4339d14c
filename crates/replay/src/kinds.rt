// The kinds of records that are no plans', a function for each as in `replay_plans`.
use replay_io::record::{Ending, ROOM};
use replay_io::{line, record};
use sheet::refusal;
use std::io::{Read, Write};

// One byte more than the longest sheet, so that a sample can hold a sheet that is too long.
const LONG: usize = 169_233;

// The sheet's length and the plan's, and the sheet. Prints the refusal, 0 for an accepted sheet.
pub fn replay_refusal<R: Read, W: Write>(input: &mut R, out: &mut W) -> Result<(), Ending> {
    let [sheet_len, plan_len]: [u32; 2] = record::read_numbers(input)?;
    let mut sheet = [0u8; LONG];
    let sheet = record::part(input, sheet_len, &mut sheet)?;
    let answer = planner::check_sheet(sheet, plan_len as usize);
    line::print_number(out, refusal::number(answer))?;
    Ok(())
}

// The text's length and the sheet buffer's, and the text. Prints `refused N`, or the sheet.
pub fn replay_import<R: Read, W: Write>(input: &mut R, out: &mut W) -> Result<(), Ending> {
    let [text_len, sheet_len]: [u32; 2] = record::read_numbers(input)?;
    let mut text = [0u8; ROOM];
    let mut sheet = [0u8; ROOM];
    let text = record::part(input, text_len, &mut text)?;
    let sheet = record::lend(sheet_len, &mut sheet)?;
    // By the number that a host has: a slice of `long` bytes would have to be shown to lie within the sheet.
    let answer = match planner::import_solomon(text, sheet) {
        Ok(long) => long as i32,
        Err(refusal) => -(refusal as i32),
    };
    line::print_counted(out, answer, sheet)?;
    Ok(())
}
