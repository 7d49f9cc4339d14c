// The parts of a record.
ghost use Rattle.std.specs.Prelude.{◌≡◌, ◌≤◌, ◌↔◌, min, [], ◌∷◌, length, take, IfOk, IsOk};
ghost use Rattle.std.specs.Counts.{IsPrefixLen};
ghost use Rattle.std.specs.Int.{w32, to_le_bytes};
ghost use Rattle.std.specs.List.{flat_map};
ghost use Rattle.std.specs.Io.KnownBytes.{Consumes};

use std::io;
use std::io::Read;

// The most bytes of a plan, a bill or a text, and of a sheet that is not only checked: no sample has more.
pub const ROOM: usize = 8192;

// Why a run ends.
#[derive(Drop)]
pub enum Ending {
    // The input has no more records.
    Done,
    // A record is cut short, or has more bytes than there is room for.
    Cut,
    // A record is of this other kind.
    Unknown(u8),
    // An answer could not be written.
    Unwritten,
}

impl From<io::Error> for Ending {
    fn from(_: io::Error) -> Ending {
        Ending::Unwritten
    }
}

// How many bytes of `room` are lent where a record says `len`: fewer, where there is no room.
pub fn room_for(len: u32, room: &[u8]) -> usize
    ensures in_bounds { IsPrefixLen result room.now }
    ensures value { result ≡ min len (length room.now) }
{
    room.len().min(len as usize)
}

// Reads until `room` is full, the input ends or a read fails, and answers how many bytes it put at
// the start of `room`. Not the listing's, which has to tell of a read that failed.
pub fn read_full<R: Read>(input: &mut R, room: &mut [u8]) -> usize
    ensures in_bounds { IsPrefixLen result room.new }
    ensures bytes { Consumes (R.remaining input.old) (R.remaining input.new) (take result room.new) }
{
    let mut done = 0;
    while done < room.len() {
        let Ok(n) = input.read(&mut room[done..]) else {
            return done;
        };
        if n == 0 {
            return done;
        }
        done += n;
    }
    done
}

// Reads `len` bytes into `room`, and answers how many it read: fewer, where there is no room or no
// input.
pub fn read_part<R: Read>(input: &mut R, len: u32, room: &mut [u8]) -> usize
    ensures in_bounds { IsPrefixLen result room.new }
    ensures at_most { result ≤ len }
    ensures bytes { Consumes (R.remaining input.old) (R.remaining input.new) (take result room.new) }
{
    let n = room_for(len, room);
    read_full(input, &mut room[..n])
}

// The kind of the next record.
pub fn read_kind<R: Read>(input: &mut R) -> Result<u8, Ending>
    ensures { IfOk result (λ kind. Consumes (R.remaining input.old) (R.remaining input.new) (kind ∷ [])) }
{
    let mut kind = [0u8; 1];
    if read_full(input, &mut kind) == 0 {
        return Err(Ending::Done);
    }
    Ok(kind[0])
}

// Little-endian.
fn number_of(bytes: [u8; 4]) -> u32
    ensures { to_le_bytes w32 result ≡ bytes }
{
    u32::from_le_bytes(bytes)
}

// So many numbers, little-endian.
pub fn read_numbers<R: Read, const N: usize>(input: &mut R) -> Result<[u32; N], Ending>
    ensures { IfOk result (λ numbers. Consumes (R.remaining input.old) (R.remaining input.new) (flat_map (to_le_bytes w32) numbers)) }
{
    let mut numbers = [0; N];
    for number in &mut numbers {
        let mut bytes = [0u8; 4];
        if read_full(input, &mut bytes) < 4 {
            return Err(Ending::Cut);
        }
        *number = number_of(bytes);
    }
    Ok(numbers)
}

// The first `len` bytes of `room`.
pub fn lend(len: u32, room: &mut [u8]) -> Result<&mut [u8], Ending>
    ensures len { IfOk result (λ part. length part.now ≡ len) }
    ensures ok { IsOk result ↔ (len ≤ length room.old) }
{
    room.get_mut(..len as usize).ok_or(Ending::Cut)
}

// Reads `len` bytes into `room`, and lends them.
pub fn part<'a, R: Read>(input: &mut R, len: u32, room: &'a mut [u8]) -> Result<&'a [u8], Ending>
    ensures len { IfOk result (λ part. length part.now ≡ len) }
    ensures bytes { IfOk result (λ part. Consumes (R.remaining input.old) (R.remaining input.new) part.now) }
{
    let n = read_part(input, len, room);
    if n < len as usize {
        return Err(Ending::Cut);
    }
    Ok(&room[..n])
}
