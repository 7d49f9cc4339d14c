// The rounds of the slots, laid down in the tables of a plan.
ghost use Rattle.std.specs.Prelude.{◌≡◌, [], ◌+◌, ◌≤◌, length};
ghost use Rattle.constructive.specs.Lent.{Lent};
ghost use Rattle.constructive.specs.Stored.{Stored, filled_by};
ghost use Rattle.clarke_wright_savings.specs.Savings.{rounds_of};
ghost use Rattle.clarke_wright_slots.specs.Slots.{slots_in, routed_stops, Laying};

use constructive::tables::{Filled, RouteTables};

// The slots that have stops, in order, each a round of the vehicle, behind what the tables hold.
fn lay_slots(
    count: usize,
    cells: &[u16],
    lens: &[u16],
    vehicle: u16,
    tables: &mut RouteTables,
    filled: Filled,
) -> Filled
    requires { Laying count cells.now lens.now tables.old.stops.now tables.old.ends.now tables.old.vehicles.now filled }
    ensures value { result ≡ filled_by filled (rounds_of vehicle (slots_in count cells.now lens.now)) }
    ensures stored { Stored tables.old.stops.now tables.old.ends.now tables.old.vehicles.now filled (record { rounds = rounds_of vehicle (slots_in count cells.now lens.now); aside = [] }) tables.new.stops.now tables.new.ends.now tables.new.vehicles.now }
    ensures lent { Lent tables.old tables.new }
{
    let mut done = filled;
    // k is the slot, by which the stops stand in `cells` too; over the lengths with `enumerate` each goal kept a `take`.
    for k in 0..count {
        let n = lens[k] as usize;
        if n == 0 {
            continue;
        }
        let at = sheet::MOST_ROWS * k;
        let start = done.routed;
        let stops = &mut *tables.stops;
        // not by `copy_from_slice`: both are lent, and it calls memmove then, which the archive does not want of its host
        sorting::copy(&cells[at..at + n], &mut stops[start..start + n]);
        done = tables.close_round(done, vehicle, start + n);
    }
    done
}

// The same, and behind the rounds the stops set aside. The slots' count and two of their tables, and not `RouteSlots`: they are
// only read here, and a caller may hold them so.
pub fn lay(
    count: usize,
    cells: &[u16],
    lens: &[u16],
    aside: &[u16],
    vehicle: u16,
    tables: &mut RouteTables,
    filled: Filled,
) -> Filled
    requires laying { Laying count cells.now lens.now tables.old.stops.now tables.old.ends.now tables.old.vehicles.now filled }
    requires aside_in_bounds { filled.routed + routed_stops (slots_in count cells.now lens.now) + length aside.now ≤ length tables.old.stops.now }
    ensures value { result ≡ filled_by filled (rounds_of vehicle (slots_in count cells.now lens.now)) }
    ensures stored { Stored tables.old.stops.now tables.old.ends.now tables.old.vehicles.now filled (record { rounds = rounds_of vehicle (slots_in count cells.now lens.now); aside = aside.now }) tables.new.stops.now tables.new.ends.now tables.new.vehicles.now }
    ensures lent { Lent tables.old tables.new }
{
    let done = lay_slots(count, cells, lens, vehicle, tables, filled);
    let end = done.routed;
    let stops = &mut *tables.stops;
    stops[end..end + aside.len()].copy_from_slice(aside);
    done
}
