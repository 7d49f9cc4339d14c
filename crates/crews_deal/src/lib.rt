// A plan's rounds dealt to crews.
#![tactic(auto)]

ghost use Rattle.std.specs.Prelude.{◌≡◌, ◌≤◌, length, map};
ghost use Rattle.lists.specs.Every.{Every};
ghost use Rattle.sheet.specs.Told.{told};
ghost use Rattle.crews_deal.specs.Rounds.{deal_room, DealAnswered, DealShared, DealEven, DealBounded};
ghost use Rattle.crews_deal.specs.Wholes.{Timed, rounded_up};

use plan_figures::RouteFigures;
use sheet::refusal::Refusal;
use tariff::units;

// Whether a deal of so many bytes has one for each round that the plan states. A plan without a count is refused for its own
// length.
fn deal_room(plan: &[u8], deal_len: usize) -> bool
    ensures { 2 ≤ length plan.now → result ≡ deal_room plan.now deal_len }
{
    if plan.len() < 2 {
        return false;
    }
    deal_len == wire::u16_at(plan, 0) as usize
}

// The rounds' durations in whole units, rounded up.
fn whole_durations(figures: &[RouteFigures], wholes: &mut [u64])
    requires timed { Every Timed figures.now }
    requires figures_len { length wholes.old ≡ length figures.now }
    ensures { wholes.new ≡ map rounded_up figures.now }
{
    for (k, whole) in wholes.iter_mut().enumerate() {
        *whole = units::begun(figures[k].duration, 1);
    }
}

// Deals a plan's rounds, or a refusal and nothing written. The tables stand here, two and a half kilobytes in all.
pub fn deal(sheet: &[u8], plan: &[u8], crews: u32, deal: &mut [u8]) -> Result<(), Refusal>
    ensures deal_answered { DealAnswered sheet.now plan.now crews deal.old (told result) deal.new }
    ensures deal_shared { DealShared sheet.now plan.now crews (told result) deal.new }
    ensures deal_even { DealEven sheet.now plan.now crews (told result) deal.new }
    ensures deal_bounded { DealBounded sheet.now plan.now crews (told result) deal.new }
{
    let mut figures = [RouteFigures {
        distance: 0.0,
        duration: 0.0,
    }; sheet::MOST_ROWS];
    let mut wholes = [0u64; sheet::MOST_ROWS];
    let room = deal_room(plan, deal.len());
    let rounds = plan_figures::walk_plan(sheet, plan, room, false, &mut figures)?;
    let figures = &figures[..rounds];
    if !crews::crews_right(crews) {
        return Err(Refusal::Crews);
    }
    let wholes = &mut wholes[..figures.len()];
    whole_durations(figures, wholes);
    crews::deal(wholes, crews, deal);
    Ok(())
}
