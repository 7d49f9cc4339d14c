// The front door of every function that takes a sheet and a plan: what is refused, in the order of the refusals, and the plan
// read into tables.
#![tactic(auto)]

ghost use Rattle.std.specs.Prelude.{◌≡◌, ℕ, List, length};
ghost use Rattle.sheet.specs.Accepted.{Sized};
ghost use Rattle.sheet.specs.Fields.{plan_length};
ghost use Rattle.sheet.specs.Told.{told};
ghost use Rattle.constructive.specs.Lent.{Lent};
ghost use Rattle.constructive.specs.Tables.{AsLong};
ghost use Rattle.plan.specs.Read.{read_plan};
ghost use Rattle.plan_reader.specs.Reading.{stop_count, ReadRight};
ghost use Rattle.plan_reasons.specs.Reasons.{reasons_right};
ghost use Rattle.plan_door.specs.Door.{unread_refusal, DoorTables, EntryAs};

use constructive::tables::{RouteTables, RouteTablesRef};
use sheet::refusal::Refusal;
use sheet::{Sheet, customer};

// What is told before the plan is read. `room` says whether a further buffer has its length, `one` whether one depot is asked for:
// apart, as in the definition, where each is a question of its own.
pub fn unread_refusal(sheet: &[u8], plan_len: usize, room: bool, one: bool) -> Result<(), Refusal>
    ensures { told result ≡ unread_refusal sheet.now plan_len room one }
{
    sheet_refusal::form(sheet, plan_len)?;
    if !room {
        return Err(Refusal::Lengths);
    }
    sheet_refusal::contents(sheet)?;
    if one && 1 < customer::depots(sheet) {
        return Err(Refusal::Depots);
    }
    Ok(())
}

// How many rows are no depots.
pub fn stops_in(sheet: &[u8]) -> usize
    requires { Sized sheet.now }
    ensures { result ≡ stop_count sheet.now }
{
    sheet::rows(sheet).saturating_sub(customer::depots(sheet))
}

// Whether the stops that the plan in the tables sets aside have reasons that there are.
fn reasons_taken(sheet: &Sheet, plan: &[u8], tables: &RouteTablesRef, rounds: usize) -> bool
    requires read_right { ReadRight sheet.now plan.now tables.now.stops.now tables.now.ends.now tables.now.vehicles.now rounds }
    requires plan_len { length plan.now ≡ plan_length sheet.now }
    ensures { result ≡ reasons_right sheet.now plan.now (read_plan sheet.now plan.now).aside }
{
    let total = stops_in(sheet.bytes());
    let aside = plan_reasons::aside_of(sheet, tables, rounds, total);
    plan_reasons::reasons_right(sheet, plan, aside)
}

// The same, and the plan read: how many rounds are in the tables.
pub fn enter(
    sheet: &[u8],
    plan: &[u8],
    room: bool,
    one: bool,
    tables: &mut RouteTables,
) -> Result<usize, Refusal>
    requires { DoorTables tables.old.stops.now tables.old.ends.now tables.old.vehicles.now }
    ensures entry_as { EntryAs sheet.now plan.now room one result tables.new.stops.now tables.new.ends.now tables.new.vehicles.now }
    ensures as_long { AsLong tables.old.stops.now tables.old.ends.now tables.old.vehicles.now tables.new.stops.now tables.new.ends.now tables.new.vehicles.now }
    ensures lent { Lent tables.old tables.new }
{
    unread_refusal(sheet, plan.len(), room, one)?;
    let sheet = Sheet::new(sheet);
    let Some(rounds) = plan_reader::read_plan(&sheet, plan, tables) else {
        return Err(Refusal::Plan);
    };
    if !reasons_taken(&sheet, plan, &tables.as_ref(), rounds) {
        return Err(Refusal::Plan);
    }
    Ok(rounds)
}
