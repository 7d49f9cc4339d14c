// Rounds that stand one after another in a list of rows.
ghost use Rattle.std.specs.Prelude.{◌≡◌, ◌≤◌, ◌<◌, length};
ghost use Rattle.sheet.specs.Fields.{most_rows};
ghost use Rattle.probe.specs.Promises.{RowsAsked};
ghost use Rattle.probe.specs.Rounds.{passed_of};

use evaluation::limits::RouteLimits;
use sheet::Sheet;

// How many of the rounds of `len` rows are feasible.
pub fn passed(sheet: &Sheet, stops: &[u16], len: usize, depot: usize, limits: RouteLimits) -> u32
    requires rows_asked { RowsAsked sheet.now depot stops.now }
    requires len_nonzero { (0 < len) × ((len ≤ most_rows) × (length stops.now < 0xffff_ffff)) }
    ensures { result ≡ passed_of sheet.now depot limits stops.now len }
{
    // `filter(..).count() as u32` was tried: `search` proves neither that each round may be asked nor that the count is the promised one.
    let mut count = 0;
    for round in stops.chunks_exact(len) {
        count += u32::from(evaluation::route_feasible(sheet, round, depot, limits));
    }
    count
}
