// A number for each row of a sheet, by which rows are marked.
ghost use Rattle.std.specs.Prelude.{◌≡◌, ℕ, ◌≤◌, ◌<◌, length, get_or};
ghost use Rattle.constructive.specs.Members.{part};
ghost use Rattle.constructive.specs.Marks.{marked_by};

// Marks the stops that a depot turned down: in the table of stops from `from` up to `total`.
pub fn mark(marks: &mut [u16], stops: &[u16], from: usize, total: usize)
    requires total_in_bounds { total ≤ length stops.now }
    requires by_index { (k : ℕ) → from ≤ k → k < total → get_or stops.now k 0 < length marks.old }
    ensures { marks.new ≡ marked_by marks.old (part stops.now from total) }
{
    // Over numbers: where `from` is past `total` there is no slice, and to skip in one counts as well.
    for i in from..total {
        let stop = stops[i] as usize;
        marks[stop] = 1;
    }
}
