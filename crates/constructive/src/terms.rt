// What a constructor goes by that makes all rounds of a depot with one vehicle.
ghost use Rattle.std.specs.Prelude.{false, ◌≡◌, ◌<◌};
ghost use Rattle.sheet.specs.Fields.{vehicles_of};
ghost use Rattle.evaluation.specs.Checks.{has_soft_windows};
ghost use Rattle.evaluation.specs.Limits.{limits_at};
ghost use Rattle.evaluation.specs.Routed.{Routed};
ghost use Rattle.constructive.specs.Terms.{terms_of, route_fits};

use evaluation::limits::RouteLimits;
use evaluation::{checks, limits};
use sheet::{Sheet, vehicle};

// The vehicle by its index; whether rounds are checked, and by the soft rules; the vehicle's capacity, its fixed cost in
// distance and its limits. `constrained` and `soft` are two flags for three cases, since a soft window is a window too. Most
// places ask one of them alone, and the definitions take each as a Bool: an enum would be compared at each.
#[derive(Clone, Copy)]
pub struct Terms {
    pub depot: usize,
    pub vehicle: u16,
    pub constrained: bool,
    pub soft: bool,
    pub capacity: u32,
    pub fixed: f64,
    pub limits: RouteLimits,
}

impl Terms {
    // Whether a round may stand, but for its load. It is walked only where rounds are checked. Inlined, as `route_feasible` is.
    #[inline(always)]
    #[tactic(auto, unfolding(crate::specs::Terms::route_fits))]
    pub fn fits(self, sheet: &Sheet, route: &[u16]) -> bool
        requires { Routed sheet.now self.depot route.now }
        ensures { result ≡ route_fits sheet.now self route.now }
    {
        !self.constrained || evaluation::route_feasible(sheet, route, self.depot, self.limits)
    }
}

// Whether the soft rules hold. A depot whose rounds are not checked has no window at all, so its rows are not read again.
fn soft_rules(sheet: &Sheet, depot: usize, members: &[u16], constrained: bool) -> bool
    requires routed { Routed sheet.now depot members.now }
    requires members_value { constrained ≡ false → has_soft_windows sheet.now depot members.now ≡ false }
    ensures { result ≡ has_soft_windows sheet.now depot members.now }
{
    if !constrained {
        return false;
    }
    checks::has_soft_windows(sheet, depot, members)
}

// The terms of a depot with its members, and limits that are read already. Without their reading this is small enough to be
// inlined, and the terms need not lie in memory.
pub fn terms_with(
    sheet: &Sheet,
    depot: usize,
    index: u16,
    members: &[u16],
    limits: RouteLimits,
) -> Terms
    requires routed { Routed sheet.now depot members.now }
    requires index_bound { index < vehicles_of sheet.now }
    requires limits_value { limits ≡ limits_at sheet.now index }
    ensures { result ≡ terms_of sheet.now depot index members.now }
{
    let own = sheet.vehicle_at(index as usize);
    let constrained = checks::route_checks_needed(sheet, depot, members, limits);
    let soft = soft_rules(sheet, depot, members, constrained);
    let fixed = vehicle::fixed_cost_in_distance(own);
    Terms {
        depot,
        vehicle: index,
        constrained,
        soft,
        capacity: own.capacity,
        fixed,
        limits,
    }
}

// The terms of a depot with its members.
pub fn terms_of(sheet: &Sheet, depot: usize, index: u16, members: &[u16]) -> Terms
    requires routed { Routed sheet.now depot members.now }
    requires index_bound { index < vehicles_of sheet.now }
    ensures { result ≡ terms_of sheet.now depot index members.now }
{
    let limits = limits::limits_at(sheet, index as usize);
    terms_with(sheet, depot, index, members, limits)
}
