// Rounds of offers: where each row goes at first, and where it goes once it is turned down. `at` has the depot of each row, `marks`
// a 1 for those turned down: two tables, since each step reads one and writes the other, and of u16, since the limiter gathers by
// marks as by depots.
#![tactic(auto)]

ghost use Rattle.std.specs.Prelude.{◌≡◌, ◌≢◌, false, ◌≤◌, ◌<◌, length, IfSome, unwrap_or};
ghost use Rattle.sheet.specs.Depots.{depots_of};
ghost use Rattle.sheet.specs.Fields.{rows_of};
ghost use Rattle.constructive.specs.Marks.{Marks};
ghost use Rattle.multi_depot_offers.specs.ByDepot.{planned_at, moves_to, after_offers, moved, first_depots};
ghost use Rattle.multi_depot_offers.specs.Promises.{Cleared, Alike};

use sheet::Sheet;

pub mod depots;
pub mod members;

// Every row at its nearest depot with a vehicle; the table, in fixed memory, has the number of depots for none.
pub fn first_at(sheet: &Sheet, at: &mut [u16])
    requires { length at.old ≡ rows_of sheet.now }
    ensures { at.new ≡ first_depots sheet.now }
{
    let depots = sheet.depots();
    for (row, home) in at.iter_mut().enumerate() {
        *home = depots::next_depot(sheet, row, None).unwrap_or(depots) as u16;
    }
}

// Takes the marks off a depot's rows.
pub fn clear(at: &[u16], marks: &mut [u16], depot: usize)
    requires { length at.now ≤ length marks.old }
    ensures { Cleared at.now marks.old depot marks.new }
{
    // by rows: over a `zip` the loop's invariant has no table of marks to speak of, only what was yielded
    for (row, &home) in at.iter().enumerate() {
        if home as usize == depot {
            marks[row] = 0;
        }
    }
}

// Whether a row has left a depot or come to it. The contract says what `false` means and leaves `true` open: a depot that is
// planned again though its members are the same has the same outcome.
pub fn is_changed(before: &[u16], at: &[u16], depot: usize) -> bool
    requires { length before.now ≡ length at.now }
    ensures { result ≡ false → Alike before.now at.now depot }
{
    before.iter().zip(at).any(|(&was, &is)| (was as usize == depot) != (is as usize == depot))
}

// The depot that a row at `depot` moves to: a stop turned down goes to its next depot, where there is one.
fn moves_to(sheet: &Sheet, turned: bool, row: usize, depot: usize) -> Option<usize>
    requires { row < rows_of sheet.now }
    ensures value { unwrap_or result depot ≡ moves_to sheet.now turned row depot }
    ensures another { IfSome result (λ d. (d < depots_of sheet.now) × (d ≢ depot)) }
{
    if !turned {
        return None;
    }
    depots::next_depot(sheet, row, (depot < sheet.depots()).then_some(depot))
}

// Offers every stop turned down to its next depot; answers whether one has moved.
pub fn offer(sheet: &Sheet, at: &mut [u16], marks: &[u16]) -> bool
    requires rows { length at.old ≡ rows_of sheet.now }
    requires marks { Marks sheet.now marks.now (planned_at sheet.now at.old).aside }
    ensures value { result ≡ moved at.old (after_offers sheet.now at.old) }
    ensures at_after { at.new ≡ after_offers sheet.now at.old }
{
    sheet.accepted();
    let mut any = false;
    for (row, home) in at.iter_mut().enumerate() {
        let here = *home as usize;
        if let Some(next) = moves_to(sheet, marks[row] == 1, row, here) {
            *home = next as u16;
            any = true;
        }
    }
    any
}
