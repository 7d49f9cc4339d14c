// The members of a depot, gathered in the table of stops.
ghost use Rattle.std.specs.Prelude.{◌≡◌, ◌+◌, ◌-◌, ◌≤◌, ◌<◌, ℕ, Bool, length};
ghost use Rattle.lists.specs.Filter.{filtered};
ghost use Rattle.wire.specs.Bytes.{write};
ghost use Rattle.sheet.specs.Fields.{most_rows};
ghost use Rattle.constructive.specs.Members.{members_of, Gathers};

use sheet::Sheet;

// The numbers from `start` up to `stop` that pass a test, in a table from `from` on; answers where they end. By a loop over them,
// since they are what is kept.
pub fn gather<F: Fn(usize) -> bool>(
    start: usize,
    stop: usize,
    keeps: F,
    table: &mut [u16],
    from: usize,
) -> usize
    ghost test: { ℕ → Bool }
    requires stop_bound { stop ≤ most_rows }
    requires callable { (x : ℕ) → x < stop → F.pre keeps x }
    requires tests { (x : ℕ) (b : Bool) → F.post keeps x b → b ≡ test x }
    requires test_in_bounds { from + length (filtered test (stop - start) start) ≤ length table.old }
    ensures value { result ≡ from + length (filtered test (stop - start) start) }
    ensures table_after { table.new ≡ write table.old from (filtered test (stop - start) start) }
{
    let mut end = from;
    for number in start..stop {
        if keeps(number) {
            table[end] = number as u16;
            end += 1;
        }
    }
    end
}

// The stops at a depot, from `from` on; answers where they end.
#[tactic(auto, unfolding(crate::specs::Members::members_of))]
pub fn members_of(sheet: &Sheet, at: &[u16], depot: usize, stops: &mut [u16], from: usize) -> usize
    requires gathers { Gathers sheet.now at.now }
    requires depot_in_bounds { from + length (members_of sheet.now at.now depot) ≤ length stops.old }
    ensures value { result ≡ from + length (members_of sheet.now at.now depot) }
    ensures stops_after { stops.new ≡ write stops.old from (members_of sheet.now at.now depot) }
{
    gather(
        sheet.depots(),
        at.len(),
        |stop| at[stop] as usize == depot,
        stops,
        from,
    )
}
