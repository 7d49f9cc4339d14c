// Rows that are gathered in a table, ascending.
ghost use Rattle.std.specs.Prelude.{◌≡◌, ◌+◌, ◌≤◌, length};
ghost use Rattle.wire.specs.Bytes.{write};
ghost use Rattle.sheet.specs.Fields.{rows_of};
ghost use Rattle.sheet.specs.Fleet.{fleet_of};
ghost use Rattle.constructive.specs.Members.{members_of, Gathers};
ghost use Rattle.multi_depot_offers.specs.Promises.{aside_by_marks};

use constructive::members;
use sheet::Sheet;

// The vehicles of a depot, by their index; answers how many. Not that part of the table: a clause could not say of a table that is
// lent to the answer what the rest of it is after the call. An `ArrayVec` would be one more crate in the archive.
#[tactic(auto, unfolding(sheet::specs::Fleet::fleet_of))]
pub fn fleet_of(sheet: &Sheet, depot: usize, fleet: &mut [u16]) -> usize
    requires { 16 ≤ length fleet.old }
    ensures value { result ≡ length (fleet_of sheet.now depot) }
    ensures fleet_after { fleet.new ≡ write fleet.old 0 (fleet_of sheet.now depot) }
{
    let is_own = |v: usize| sheet.vehicle_at(v).depot as usize == depot;
    members::gather(0, sheet.vehicles(), is_own, fleet, 0)
}

// The stops set aside, no depot's or turned down, from `from` on.
#[tactic(auto, unfolding(crate::specs::Promises::aside_by_marks))]
pub fn lay_aside(sheet: &Sheet, at: &[u16], marks: &[u16], stops: &mut [u16], from: usize)
    requires gathers { Gathers sheet.now at.now }
    requires sheet_in_bounds { rows_of sheet.now ≤ length marks.now }
    requires marks_in_bounds { from + length (aside_by_marks sheet.now at.now marks.now) ≤ length stops.old }
    ensures { stops.new ≡ write stops.old from (aside_by_marks sheet.now at.now marks.now) }
{
    let depots = sheet.depots();
    let is_aside = move |stop: usize| depots <= at[stop] as usize || marks[stop] == 1;
    members::gather(depots, at.len(), is_aside, stops, from);
}
