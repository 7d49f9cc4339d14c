// The savings, as they are generated and in the order in which they are tried.
#![tactic(auto)]

pub mod terms;

ghost use Rattle.std.specs.Prelude.{◌≡◌, [], ◌∷◌, ◌+◌, ◌*◌, ◌≤◌, ◌<◌, length, take, replicate};
ghost use Rattle.std.specs.Float.{binary64};
ghost use Rattle.std.specs.Float.Ieee.{of_bits};
ghost use Rattle.sheet.specs.Fields.{rows_of};
ghost use Rattle.sheet.specs.Values.{distance_of};
ghost use Rattle.evaluation.specs.Routed.{Routed};
ghost use Rattle.clarke_wright_savings.specs.Savings.{paired, value_of, savings_from, savings_of, ranked};
ghost use Rattle.clarke_wright_savings.specs.Listed.{Space, SavingsPushed, SavingsAsLong, Listed};
ghost use Rattle.clarke_wright_savings.specs.Lent.{SavingsLent};

use constructive::terms::Terms;
use sheet::Sheet;
use terms::Directed;

// The savings: from where, to where, what each saves, the places in which they are tried, and how many there are. The values stand
// by themselves, as the keys that are sorted by; and the rows from and to in two tables, as the definition of the legs has them.
// Each table is lent, at a length of its own; that there is room in all four for the pairs of some members is a clause.
#[derive(Drop)]
pub struct Savings<'a> {
    pub from: &'a mut [u16],
    pub to: &'a mut [u16],
    pub values: &'a mut [f64],
    pub entries: &'a mut [u16],
    pub count: usize,
}

// Tables of a caller's own for N savings, which it lends in `Savings`.
#[derive(Drop)]
pub struct SavingsArrays<const N: usize> {
    pub from: [u16; N],
    pub to: [u16; N],
    pub values: [f64; N],
    pub entries: [u16; N],
}

impl<const N: usize> SavingsArrays<N> {
    pub fn new() -> Self
        ensures places { (result.from ≡ replicate N 0) × (result.to ≡ replicate N 0) × (result.entries ≡ replicate N 0) }
        ensures values { result.values ≡ replicate N (of_bits binary64 0) }
    {
        SavingsArrays {
            from: [0; N],
            to: [0; N],
            values: [0.0; N],
            entries: [0; N],
        }
    }
}

// Whether a pair is met: once, unless legs have a direction.
fn is_paired(directed: bool, from: u16, to: u16) -> bool
    ensures { result ≡ paired directed from to }
{
    to != from && (directed || !(to < from))
}

// What the leg between two members saves; the leg home is known.
fn value_of(sheet: &Sheet, terms: Terms, home: f64, from: u16, to: u16) -> f64
    requires depot_bound { (terms.depot < rows_of sheet.now) × (from < rows_of sheet.now) × (to < rows_of sheet.now) }
    requires home_value { home ≡ distance_of sheet.now from terms.depot }
    ensures { result ≡ value_of sheet.now terms from to }
{
    let out = sheet.distance(terms.depot, to as usize);
    let leg = sheet.distance(from as usize, to as usize);
    home + out - leg + terms.fixed
}

// Puts a saving into the tables. Over slices and not by a method, as its caller's loop: through the struct each store has the next
// read where the other tables are.
fn push(
    from: &mut [u16],
    to: &mut [u16],
    values: &mut [f64],
    entries: &mut [u16],
    at: usize,
    start: u16,
    end: u16,
    value: f64,
)
    requires space { Space from.old to.old values.old entries.old (at + 1) }
    requires at_bound { at < 0x10000 }
    ensures { SavingsPushed from.old to.old values.old entries.old at (record { from = start; to = end; value = value } ∷ []) from.new to.new values.new entries.new }
{
    from[at] = start;
    to[at] = end;
    values[at] = value;
    entries[at] = at as u16;
}

impl Savings<'_> {
    // Adds the savings of the legs from a member behind the others.
    fn push_from(&mut self, sheet: &Sheet, terms: Directed, start: u16, members: &[u16])
        requires routed { Routed sheet.now terms.common.depot members.now }
        requires start_bound { start < rows_of sheet.now }
        requires space { Space self.old.from.now self.old.to.now self.old.values.now self.old.entries.now (self.old.count + length members.now) }
        requires members_bound { self.old.count + length members.now < 0x10000 }
        ensures count_after { self.new.count ≡ self.old.count + length (savings_from sheet.now terms start members.now) }
        ensures savings_pushed { SavingsPushed self.old.from.now self.old.to.now self.old.values.now self.old.entries.now self.old.count (savings_from sheet.now terms start members.now) self.new.from.now self.new.to.now self.new.values.now self.new.entries.now }
        ensures as_long { SavingsAsLong self.old.from.now self.old.to.now self.old.values.now self.old.entries.now self.new.from.now self.new.to.now self.new.values.now self.new.entries.now }
        ensures lent { SavingsLent self.old self.new }
    {
        let home = sheet.distance(start as usize, terms.common.depot);
        let from = &mut *self.from;
        let to = &mut *self.to;
        let values = &mut *self.values;
        let entries = &mut *self.entries;
        let mut end = self.count;
        for &other in members {
            if !is_paired(terms.directed, start, other) {
                continue;
            }
            let value = value_of(sheet, terms.common, home, start, other);
            if !(0.0 < value) {
                continue;
            }
            push(from, to, values, entries, end, start, other, value);
            end += 1;
        }
        self.count = end;
    }

    // The savings of all legs between members, and none from before.
    fn push_all(&mut self, sheet: &Sheet, terms: Directed, members: &[u16])
        requires routed { Routed sheet.now terms.common.depot members.now }
        requires space { Space self.old.from.now self.old.to.now self.old.values.now self.old.entries.now (length members.now * length members.now) }
        ensures count_after { self.new.count ≡ length (savings_of sheet.now terms members.now members.now) }
        ensures savings_pushed { SavingsPushed self.old.from.now self.old.to.now self.old.values.now self.old.entries.now 0 (savings_of sheet.now terms members.now members.now) self.new.from.now self.new.to.now self.new.values.now self.new.entries.now }
        ensures as_long { SavingsAsLong self.old.from.now self.old.to.now self.old.values.now self.old.entries.now self.new.from.now self.new.to.now self.new.values.now self.new.entries.now }
        ensures lent { SavingsLent self.old self.new }
    {
        self.count = 0;
        for &start in members {
            self.push_from(sheet, terms, start, members);
        }
    }

    // The savings, and in `entries` their places, greatest first.
    pub fn rank(&mut self, sheet: &Sheet, terms: Directed, members: &[u16], scratch: &mut [u16])
        requires routed { Routed sheet.now terms.common.depot members.now }
        requires space { Space self.old.from.now self.old.to.now self.old.values.now self.old.entries.now (length members.now * length members.now) }
        requires scratch_in_bounds { length members.now * length members.now ≤ length scratch.old }
        ensures count_after { self.new.count ≡ length (savings_of sheet.now terms members.now members.now) }
        ensures listed { Listed (savings_of sheet.now terms members.now members.now) self.new.from.now self.new.to.now self.new.values.now }
        ensures entries_after { take self.new.count self.new.entries.now ≡ ranked (savings_of sheet.now terms members.now members.now) }
        ensures as_long { SavingsAsLong self.old.from.now self.old.to.now self.old.values.now self.old.entries.now self.new.from.now self.new.to.now self.new.values.now self.new.entries.now }
        ensures lent { SavingsLent self.old self.new }
    {
        // a sheet of its own: in one that is lent each saving that is stored might change where the legs are, for all the compiler
        // knows
        let own = Sheet::new(sheet.bytes());
        self.push_all(&own, terms, members);
        let count = self.count;
        // `&mut` though it is only read: of a field that was lent as `&` a proof knows no element afterwards
        let values: &[f64] = &mut *self.values;
        sorting::sort_descending(&values[..count], &mut self.entries[..count], scratch);
    }
}
