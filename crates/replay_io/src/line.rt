// The lines that are printed.
ghost use Rattle.std.specs.Prelude.{◌≡◌, false, OnOk};
ghost use Rattle.std.specs.Io.KnownBytes.{Appends};
ghost use Rattle.replay_io.specs.Lines.{number_line, refused_line, bytes_line, answer_line, counted_line, ending_line};

use crate::record::Ending;
use std::io;
use std::io::Write;

// Ends a run whose record is cut short, or has more bytes than there is room for.
pub fn stop_at_cut<W: Write>(out: &mut W) -> bool
    ensures { result ≡ false }
{
    let _ = out.write_all(b"cut\n");
    false
}

// Ends a run at a record of another kind.
pub fn stop_at_unknown<W: Write>(out: &mut W, kind: u8) -> bool
    ensures { result ≡ false }
{
    let _ = writeln!(out, "unknown kind {kind}");
    false
}

// What is printed where a run ends. Fails where it can't be written.
pub fn print_stop<W: Write>(out: &mut W, stop: Ending) -> io::Result<()>
    ensures { OnOk result (Appends (W.contents out.old) (W.contents out.new) (ending_line stop)) }
{
    match stop {
        Ending::Done | Ending::Unwritten => Ok(()),
        Ending::Cut => out.write_all(b"cut\n"),
        Ending::Unknown(kind) => writeln!(out, "unknown kind {kind}"),
    }
}

// Ends a run, whatever ended it: cannot fail, and answers that it does not go on.
pub fn stop_at_ending<W: Write>(out: &mut W, stop: Ending) -> bool
    ensures { result ≡ false }
{
    match stop {
        Ending::Done | Ending::Unwritten => false,
        Ending::Cut => stop_at_cut(out),
        Ending::Unknown(kind) => stop_at_unknown(out, kind),
    }
}

pub fn print_number<W: Write>(out: &mut W, n: u32) -> io::Result<()>
    ensures { OnOk result (Appends (W.contents out.old) (W.contents out.new) (number_line n)) }
{
    writeln!(out, "{n}")
}

fn print_refused<W: Write>(out: &mut W, number: u32) -> io::Result<()>
    ensures { OnOk result (Appends (W.contents out.old) (W.contents out.new) (refused_line number)) }
{
    writeln!(out, "refused {number}")
}

// In hexadecimal.
fn print_bytes<W: Write>(out: &mut W, bytes: &[u8]) -> io::Result<()>
    ensures { OnOk result (Appends (W.contents out.old) (W.contents out.new) (bytes_line bytes.now)) }
{
    for byte in bytes {
        write!(out, "{byte:02x}")?;
    }
    out.write_all(b"\n")
}

// `refused N`, or the bytes where the number is 0. It is the number that the line shows, of which the enum takes some alone.
pub fn print_answer<W: Write>(out: &mut W, number: u32, bytes: &[u8]) -> io::Result<()>
    ensures { OnOk result (Appends (W.contents out.old) (W.contents out.new) (answer_line number bytes.now)) }
{
    if number != 0 {
        return print_refused(out, number);
    }
    print_bytes(out, bytes)
}

// `refused N` where the answer is -N, else the first bytes of `room`, as many as it says.
pub fn print_counted<W: Write>(out: &mut W, answer: i32, room: &[u8]) -> io::Result<()>
    ensures { OnOk result (Appends (W.contents out.old) (W.contents out.new) (counted_line answer room.now)) }
{
    if answer < 0 {
        return print_refused(out, answer.unsigned_abs());
    }
    print_bytes(out, &room[..room.len().min(answer as usize)])
}

#[cfg(test)]
mod tests {
    use super::*;
    use std::io::Cursor;

    #[test]
    fn prints_where_a_run_ends(rt: HostRuntime) {
        let mut out = Cursor::new([0u8; 21]);
        assert!(rt; print_stop(&mut out, Ending::Done).is_ok());
        assert!(rt; print_stop(&mut out, Ending::Cut).is_ok());
        assert!(rt; print_stop(&mut out, Ending::Unwritten).is_ok());
        assert!(rt; print_stop(&mut out, Ending::Unknown(200)).is_ok());
        assert!(rt; out.into_inner() == *b"cut\nunknown kind 200\n");
    }

    // Who prints is told where it can't be written; a run ends all the same.
    #[test]
    fn tells_where_there_is_no_room(rt: HostRuntime) {
        for stop in [Ending::Cut, Ending::Unknown(7)] {
            let mut out = Cursor::new([0u8; 3]);
            assert!(rt; print_stop(&mut out, stop).is_err());
        }
        let mut out = Cursor::new([0u8; 3]);
        assert!(rt; !stop_at_ending(&mut out, Ending::Cut));
    }
}
