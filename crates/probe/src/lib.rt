// A test surface: what the evaluation says of rounds, for comparison and for benchmarks. No part of what a host calls.
#![tactic(auto)]

mod asked;
mod figure;
mod rounds;

ghost use Rattle.std.specs.Prelude.{◌≡◌};
ghost use Rattle.square_root.specs.ClosestRoot.{ClosestRoot};
ghost use Rattle.probe.specs.Figures.{probe_figure};
ghost use Rattle.probe.specs.Rounds.{probe_rounds};

use sheet::Sheet;

// How many of the rounds of `len` rows in `stops` the vehicle may drive; 0xffff_ffff where the question is not right.
#[unsafe(no_mangle)]
pub extern "C" fn probe_rounds(sheet: &[u8], stops: &[u16], len: u32, vehicle: u32) -> u32
    ensures { result ≡ probe_rounds sheet.now stops.now len vehicle }
{
    let rows = len as usize;
    let Some(driver) = asked::driver_of(sheet, vehicle as usize) else {
        return 0xffff_ffff;
    };
    if !asked::rounds_right(stops, rows, driver.rows) {
        return 0xffff_ffff;
    }
    rounds::passed(&Sheet::new(sheet), stops, rows, driver.depot, driver.limits)
}

// One figure of a round of at most 101 rows, by its number, as C has it (specs/Figures.antt): 0 to 5 are `route_eval`'s, -1.0 where the round is
// not allowed, 6 to 12 `build_route`'s, 13 on its stops', three each. -2.0 where the question is not right.
#[unsafe(no_mangle)]
pub extern "C" fn probe_figure(sheet: &[u8], route: &[u16], vehicle: u32, which: u32) -> f64
    ensures { result ≡ probe_figure sheet.now route.now vehicle which }
{
    let Some(driver) = asked::driver_of(sheet, vehicle as usize) else {
        return -2.0;
    };
    if !asked::round_right(route, driver.rows) {
        return -2.0;
    }
    figure::figure(
        &Sheet::new(sheet),
        route,
        driver.depot,
        driver.limits,
        which as usize,
    )
}

// The square root of a whole number, as the importer works it out.
#[unsafe(no_mangle)]
pub extern "C" fn probe_root(n: u64) -> f64
    ensures { ClosestRoot n result }
{
    square_root::square_root(n)
}
