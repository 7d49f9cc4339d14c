// Replays calls of the planner from standard input, and prints a line for the answer of each. A
// record is a byte that says its kind, then what the kind's function reads (kinds.rt and the crate
// `replay_plans` and `replay_deals`). One that is cut short, or has more bytes than there is room for, ends the run
// with `cut`, and one of another kind with `unknown kind` and its byte.
#![tactic(auto)]

mod kinds;

use replay_io::record::Ending;
use replay_io::{line, record};
use std::io;
use std::io::{Read, Write};

// Replays one record. Its kind is a number in this one place.
fn replay_record<R: Read, W: Write>(input: &mut R, out: &mut W) -> Result<(), Ending> {
    match record::read_kind(input)? {
        0 => kinds::replay_refusal(input, out),
        1 => replay_plans::replay_plan(input, out),
        2 => replay_plans::replay_limit(input, out),
        3 => kinds::replay_import(input, out),
        4 => replay_plans::replay_bill(input, out),
        5 => replay_deals::replay_deal(input, out),
        other => Err(Ending::Unknown(other)),
    }
}

// A proved loop has to end, and nothing says that the input does. So the loop counts its turns, up
// to a number that no run comes to.
fn main(rt: HostRuntime) {
    let mut input = rt.stdin();
    let mut out = io::writer(&rt);
    for _ in 0..u64::MAX {
        if let Err(stop) = replay_record(&mut input, &mut out) {
            if !line::stop_at_ending(&mut out, stop) {
                break;
            }
        }
    }
}
