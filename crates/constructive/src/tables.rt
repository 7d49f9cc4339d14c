// The tables that constructors fill: the rounds' stops one after another, where each round ends, and its vehicle.
ghost use Rattle.std.specs.Prelude.{◌≡◌, [], ◌∷◌, ◌++◌, ◌+◌, ◌-◌, ◌≤◌, ◌<◌, length, get_or, replicate, take, drop};
ghost use Rattle.sheet.specs.Fields.{most_rows};
ghost use Rattle.wire.specs.Bytes.{write};
ghost use Rattle.constructive.specs.Members.{part};
ghost use Rattle.constructive.specs.Outcome.{start_in};
ghost use Rattle.constructive.specs.Lent.{Lent};

// How far the tables are filled: so many rounds, with so many stops in all. It goes beside them: it is what each constructor
// answers, and a caller that drops what was laid down goes on from the one before. That there are no more rounds than stops is
// a clause of who adds rounds (`Room`): as an invariant it would have `close_round` ask for a stop in each round, which it
// does not. Nor does one struct take the sheet, the depot, the tables, this and the end of the members, which go through all
// constructors: the tables are lent to be changed and the others are not, and every clause on them would go by one name more.
#[derive(Clone, Copy, Default)]
pub struct Filled {
    pub rounds: usize,
    pub routed: usize,
}

// The tables, each lent at a length of its own: a caller may hold them as arrays, as parts of others or on a heap. Ends and
// vehicles are two of them: loads are summed by the one alone, and definitions and proofs go by each. Each function that is lent
// this struct leaves the three slices in it that it found there (`Lent`), so that who made it finds in them what was written.
#[derive(Drop)]
pub struct RouteTables<'a> {
    pub stops: &'a mut [u16],
    pub ends: &'a mut [u16],
    pub vehicles: &'a mut [u16],
}

// Tables of a caller's own, of N stops and N rounds at most, which it lends in `RouteTables`.
#[derive(Drop)]
pub struct RouteArrays<const N: usize> {
    pub stops: [u16; N],
    pub ends: [u16; N],
    pub vehicles: [u16; N],
}

impl<const N: usize> RouteArrays<N> {
    pub fn new() -> Self
        ensures { result ≡ record { stops = replicate N 0; ends = replicate N 0; vehicles = replicate N 0 } }
    {
        RouteArrays {
            stops: [0; N],
            ends: [0; N],
            vehicles: [0; N],
        }
    }
}

impl RouteTables<'_> {
    // Adds a round.
    pub fn close_round(&mut self, filled: Filled, index: u16, end: usize) -> Filled
        requires rounds_in_bounds { (filled.rounds < length self.old.ends.now) × (filled.rounds < length self.old.vehicles.now) }
        requires end_le_most_rows { end ≤ most_rows }
        ensures value { result ≡ record { rounds = filled.rounds + 1; routed = end } }
        ensures ends_after { (self.new.ends.now ≡ write self.old.ends.now filled.rounds (end ∷ [])) × (self.new.vehicles.now ≡ write self.old.vehicles.now filled.rounds (index ∷ [])) }
        ensures stops_kept { self.new.stops.now ≡ self.old.stops.now }
        ensures lent { Lent self.old self.new }
    {
        let rounds = filled.rounds;
        self.ends[rounds] = end as u16;
        self.vehicles[rounds] = index;
        Filled {
            rounds: rounds + 1,
            routed: end,
        }
    }

    // The tables to be read.
    pub fn as_ref(&self) -> RouteTablesRef<'_>
        ensures stops { result.stops.now ≡ self.now.stops.now }
        ensures ends { result.ends.now ≡ self.now.ends.now }
        ensures vehicles { result.vehicles.now ≡ self.now.vehicles.now }
    {
        RouteTablesRef {
            stops: self.stops,
            ends: self.ends,
            vehicles: self.vehicles,
        }
    }

    // Where the round after the first n starts, and where the round counted k from 0 ends.
    pub fn start_of(&self, n: usize) -> usize
        requires { n ≤ length self.now.ends.now }
        ensures { result ≡ start_in self.now.ends.now n }
    {
        self.as_ref().start_of(n)
    }

    pub fn end_of(&self, k: usize) -> usize
        requires { k < length self.now.ends.now }
        ensures { result ≡ get_or self.now.ends.now k 0 }
    {
        self.as_ref().end_of(k)
    }
}

// The tables lent to be read, likewise: who reads them alone may hold them so.
#[derive(Clone, Copy)]
pub struct RouteTablesRef<'a> {
    pub stops: &'a [u16],
    pub ends: &'a [u16],
    pub vehicles: &'a [u16],
}

impl<'a> RouteTablesRef<'a> {
    // Where the round after the first n starts.
    pub fn start_of(&self, n: usize) -> usize
        requires { n ≤ length self.now.ends.now }
        ensures { result ≡ start_in self.now.ends.now n }
    {
        if n == 0 { 0 } else { self.ends[n - 1] as usize }
    }

    // Where the round counted k from 0 ends.
    pub fn end_of(&self, k: usize) -> usize
        requires { k < length self.now.ends.now }
        ensures { result ≡ get_or self.now.ends.now k 0 }
    {
        self.ends[k] as usize
    }

    // Its stops. What asks for them and the vehicle takes each apart (`Round` of the definitions is both): a struct of a part that
    // is lent would need an `impl Model` to be that, for four functions.
    pub fn route(&self, k: usize) -> &'a [u16]
        requires k_bound { k < length self.now.ends.now }
        requires route_within { (start_in self.now.ends.now k ≤ get_or self.now.ends.now k 0) × (get_or self.now.ends.now k 0 ≤ length self.now.stops.now) }
        ensures { result.now ≡ part self.now.stops.now (start_in self.now.ends.now k) (get_or self.now.ends.now k 0) }
    {
        &self.stops[self.start_of(k)..self.end_of(k)]
    }

    // Its vehicle, by the index in the sheet.
    pub fn vehicle_of(&self, k: usize) -> u16
        requires { k < length self.now.vehicles.now }
        ensures { result ≡ get_or self.now.vehicles.now k 0 }
    {
        self.vehicles[k]
    }
}

// Brings the stop at `from` to `to`, before it; those between move up. By a loop, as the next: insertion moves a stop by a few
// places at a time, and `rotate_right` calls memmove, which takes 21 ns for one place where this takes 7.
pub fn bring(stops: &mut [u16], to: usize, from: usize)
    requires { (to ≤ from) × (from < length stops.old) }
    ensures { stops.new ≡ write stops.old to (get_or stops.old from 0 ∷ take (from - to) (drop to stops.old)) }
{
    let mut carried = stops[from];
    for i in to..from + 1 {
        let here = stops[i];
        stops[i] = carried;
        carried = here;
    }
}

// Sends the stop at `from` behind those after it, to the end; they move down.
pub fn send_last(stops: &mut [u16], from: usize)
    requires { from < length stops.old }
    ensures { stops.new ≡ write stops.old from (drop (from + 1) stops.old ++ (get_or stops.old from 0 ∷ [])) }
{
    let sent = stops[from];
    let last = stops.len() - 1;
    for i in from..last {
        stops[i] = stops[i + 1];
    }
    stops[last] = sent;
}
