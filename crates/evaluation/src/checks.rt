// Whether the rounds of a depot have to be checked at all: read from the depot's row and its members' alone.
ghost use Rattle.std.specs.Prelude.{◌≡◌, ◌<◌};
ghost use Rattle.sheet.specs.Fields.{rows_of};
ghost use Rattle.evaluation.specs.Routed.{Routed};
ghost use Rattle.evaluation.specs.Checks.{row_windowed, any_windowed, has_time_windows, has_soft_windows, route_checks_needed};

use crate::limits::RouteLimits;
use sheet::Sheet;
use sheet::customer::Gate;

// Whether a row has a window, or with `soft` a window with a penalty.
fn row_windowed(sheet: &Sheet, row: usize, soft: bool) -> bool
    requires { row < rows_of sheet.now }
    ensures { result ≡ row_windowed soft sheet.now row }
{
    match sheet.stop_at(row).gate {
        Gate::Open => false,
        Gate::Hard(_) => !soft,
        Gate::Soft(_, _) => true,
    }
}

fn any_windowed(sheet: &Sheet, depot: usize, members: &[u16], soft: bool) -> bool
    requires { Routed sheet.now depot members.now }
    ensures { result ≡ any_windowed soft sheet.now depot members.now }
{
    row_windowed(sheet, depot, soft)
        || members
            .iter()
            .any(|&row| row_windowed(sheet, row as usize, soft))
}

// Two names of the Rust over one function: a call says what it asks.
pub fn has_time_windows(sheet: &Sheet, depot: usize, members: &[u16]) -> bool
    requires { Routed sheet.now depot members.now }
    ensures { result ≡ has_time_windows sheet.now depot members.now }
{
    any_windowed(sheet, depot, members, false)
}

// Whether lateness is a cost to weigh and not only a limit to check.
pub fn has_soft_windows(sheet: &Sheet, depot: usize, members: &[u16]) -> bool
    requires { Routed sheet.now depot members.now }
    ensures { result ≡ has_soft_windows sheet.now depot members.now }
{
    any_windowed(sheet, depot, members, true)
}

// Without a window and without limits every round is feasible.
pub fn route_checks_needed(
    sheet: &Sheet,
    depot: usize,
    members: &[u16],
    limits: RouteLimits,
) -> bool
    requires { Routed sheet.now depot members.now }
    ensures { result ≡ route_checks_needed sheet.now depot members.now limits }
{
    has_time_windows(sheet, depot, members) || !limits.is_unlimited()
}
