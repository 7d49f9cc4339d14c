// Single figures of a round.
ghost use Rattle.std.specs.Prelude.{◌≡◌, ◌<◌, get_or};
ghost use Rattle.std.specs.Float.{nan};
ghost use Rattle.evaluation.specs.Routed.{Routed};
ghost use Rattle.evaluator.specs.Record.{begin_of, progress_of};
ghost use Rattle.probe.specs.Figures.{six_of, eval_figure, record_figure, visit_figure, visit_figures, figure_of};

use evaluation::limits::RouteLimits;
use evaluation_clock::clock::Schedule;
use evaluation_clock::label::{RestAnswer, rest_place, rest_start};
use evaluator::{Progress, Record};
use sheet::Sheet;

fn six(
    distance: f64,
    duration: f64,
    lateness: f64,
    cost: f64,
    rest: RestAnswer,
    which: usize,
) -> f64
    requires { which < 6 }
    ensures { result ≡ get_or (six_of distance duration lateness cost rest) which nan }
{
    let figures = [
        distance,
        duration,
        lateness,
        cost,
        rest_place(rest) as f64,
        rest_start(rest),
    ];
    figures[which]
}

fn eval_figure(eval: Option<Schedule>, which: usize) -> f64
    requires { which < 6 }
    ensures { result ≡ eval_figure eval which }
{
    eval.map_or(-1.0, |s| {
        six(
            s.distance,
            s.duration,
            s.lateness,
            s.lateness_cost,
            s.rest,
            which,
        )
    })
}

fn record_figure(built: Record, which: usize) -> f64
    ensures { result ≡ record_figure built which }
{
    if which < 6 {
        let rest = built.rest;
        return six(
            built.distance,
            built.duration,
            built.lateness,
            built.lateness_cost,
            rest,
            which,
        );
    }
    built.load as f64
}

fn visit_figure(progress: Progress, which: usize) -> f64
    requires { which < 3 }
    ensures { result ≡ visit_figure progress which }
{
    let figures = [progress.arrival, progress.departure, progress.load as f64];
    figures[which]
}

// Three figures a stop; -2.0 past the last.
fn visit_figures(
    sheet: &Sheet,
    route: &[u16],
    depot: usize,
    limits: RouteLimits,
    which: usize,
) -> f64
    requires { Routed sheet.now depot route.now }
    ensures { result ≡ visit_figures sheet.now depot limits route.now which }
{
    let last = which / 3;
    if route.len() <= last {
        return -2.0;
    }
    let placed = evaluator::place_rest(sheet, route, depot, limits);
    let end = last + 1;
    visit_figure(
        evaluator::progress_after(sheet, &route[..end], depot, placed),
        which % 3,
    )
}

pub fn figure(sheet: &Sheet, route: &[u16], depot: usize, limits: RouteLimits, which: usize) -> f64
    requires { Routed sheet.now depot route.now }
    ensures { result ≡ figure_of sheet.now depot limits route.now which }
{
    if which < 6 {
        return eval_figure(evaluation::route_eval(sheet, route, depot, limits), which);
    }
    if which < 13 {
        return record_figure(
            evaluator::build_route(sheet, route, depot, limits),
            which - 6,
        );
    }
    visit_figures(sheet, route, depot, limits, which - 13)
}
