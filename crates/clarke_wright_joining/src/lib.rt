// Two rounds joined: which way, whether they may, and the slots after it.
#![tactic(auto)]

ghost use Rattle.std.specs.Prelude.{◌≡◌, ◌≤◌, ◌<◌, length};
ghost use Rattle.sheet.specs.Fields.{rows_of, most_rows};
ghost use Rattle.evaluation.specs.Routed.{Routed};
ghost use Rattle.clarke_wright_savings.specs.Savings.{first_is, last_is, merge_too_dear, joined_passes, passing, after_merge};
ghost use Rattle.clarke_wright_slots.specs.Slots.{slots_in, Slotted, SlotsAsLong};
ghost use Rattle.clarke_wright_slots.specs.Lent.{SlotsLent};
ghost use Rattle.clarke_wright_joining.specs.Ways.{meant, way_of, WaySlots};

use clarke_wright_slots::RouteSlots;
use constructive::terms::Terms;
use sheet::Sheet;

// Two rounds stay apart, or the first slot takes the stops of the second; then whether its own are reversed, and whether those
// that it takes are.
pub type Way = Option<(usize, usize, bool, bool)>;

// The way for i in slot `a` and j in slot `b`, each first or last there.
fn way_of(
    directed: bool,
    i_first: bool,
    i_last: bool,
    j_first: bool,
    j_last: bool,
    a: usize,
    b: usize,
) -> Way
    ensures { result ≡ way_of directed i_first i_last j_first j_last a b }
{
    if i_last && j_first {
        return Some((a, b, false, false));
    }
    if directed {
        return None;
    }
    if j_last && i_first {
        return Some((b, a, false, false));
    }
    if i_last && j_last {
        return Some((a, b, false, true));
    }
    if i_first && j_first {
        return Some((a, b, true, false));
    }
    None
}

// The way for two stops on different rounds.
pub fn way_between(
    directed: bool,
    i: u16,
    j: u16,
    a: usize,
    b: usize,
    ri: &[u16],
    rj: &[u16],
) -> Way
    requires { (0 < length ri.now) × (0 < length rj.now) }
    ensures { result ≡ way_of directed (first_is i ri.now) (last_is i ri.now) (first_is j rj.now) (last_is j rj.now) a b }
{
    let i_last = ri[ri.len() - 1] == i;
    let j_last = rj[rj.len() - 1] == j;
    way_of(directed, ri[0] == i, i_last, rj[0] == j, j_last, a, b)
}

// With a soft window: whether two rounds joined cost no less than the two apart and the vehicle that joining saves.
fn is_too_dear(sheet: &Sheet, terms: Terms, into: &[u16], from: &[u16], stops: &[u16]) -> bool
    requires routed { Routed sheet.now terms.depot into.now }
    requires routed_2 { Routed sheet.now terms.depot from.now }
    requires routed_3 { Routed sheet.now terms.depot stops.now }
    ensures { result ≡ merge_too_dear sheet.now terms into.now from.now stops.now }
{
    if !terms.soft {
        return false;
    }
    let apart = evaluation::effective_cost(sheet, into, terms.depot, terms.limits)
        + evaluation::effective_cost(sheet, from, terms.depot, terms.limits);
    apart + terms.fixed <= evaluation::effective_cost(sheet, stops, terms.depot, terms.limits)
}

// Whether two rounds may be joined so. Not by `Terms::fits`: both questions are asked only where rounds are checked.
fn is_passed(sheet: &Sheet, terms: Terms, into: &[u16], from: &[u16], stops: &[u16]) -> bool
    requires routed { Routed sheet.now terms.depot into.now }
    requires routed_2 { Routed sheet.now terms.depot from.now }
    requires routed_3 { Routed sheet.now terms.depot stops.now }
    ensures { result ≡ joined_passes sheet.now terms into.now from.now stops.now }
{
    if !terms.constrained {
        return true;
    }
    evaluation::route_feasible(sheet, stops, terms.depot, terms.limits)
        && !is_too_dear(sheet, terms, into, from, stops)
}

// Joins two slots this way, where that passes.
pub fn merge_by(sheet: &Sheet, terms: Terms, way: Way, slots: &mut RouteSlots, trial: &mut [u16])
    requires slotted { Slotted sheet.now slots.old.count slots.old.cells.now slots.old.lens.now slots.old.loads.now slots.old.slots.now }
    requires depot_bound { terms.depot < rows_of sheet.now }
    requires way_slots { WaySlots (slots_in slots.old.count slots.old.cells.now slots.old.lens.now) way }
    requires most_rows_in_bounds { most_rows ≤ length trial.old }
    ensures count_kept { slots.new.count ≡ slots.old.count }
    ensures slotted_2 { Slotted sheet.now slots.new.count slots.new.cells.now slots.new.lens.now slots.new.loads.now slots.new.slots.now }
    ensures lens_after { slots_in slots.new.count slots.new.cells.now slots.new.lens.now ≡ after_merge (slots_in slots.old.count slots.old.cells.now slots.old.lens.now) (passing sheet.now terms (slots_in slots.old.count slots.old.cells.now slots.old.lens.now) (meant (slots_in slots.old.count slots.old.cells.now slots.old.lens.now) way)) }
    ensures as_long { SlotsAsLong slots.old.cells.now slots.old.lens.now slots.old.loads.now slots.old.slots.now slots.new.cells.now slots.new.lens.now slots.new.loads.now slots.new.slots.now }
    ensures lent { SlotsLent slots.old slots.new }
{
    let Some((into, from, back, forth)) = way else {
        return;
    };
    let ri = slots.route(into);
    let rj = slots.route(from);
    let n = clarke_wright_slots::join(ri, rj, back, forth, trial);
    if !is_passed(sheet, terms, ri, rj, &trial[..n]) {
        return;
    }
    slots.take_over(into, from, &trial[..n]);
}
