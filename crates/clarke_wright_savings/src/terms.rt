// What the merges of one depot go by.
ghost use Rattle.std.specs.Prelude.{◌≡◌, ◌∷◌, ◌<◌};
ghost use Rattle.sheet.specs.Fields.{vehicles_of};
ghost use Rattle.evaluation.specs.Routed.{Routed};
ghost use Rattle.clarke_wright_savings.specs.Savings.{same_back, symmetric, directed_of};

use constructive::terms;
use constructive::terms::Terms;
use sheet::Sheet;

// The terms of a constructor with one vehicle, and whether legs have a direction.
#[derive(Clone, Copy)]
pub struct Directed {
    pub common: Terms,
    pub directed: bool,
}

// Whether each leg from a row is as long as the way back.
fn same_back(sheet: &Sheet, row: usize, others: &[u16]) -> bool
    requires { Routed sheet.now row others.now }
    ensures { result ≡ same_back sheet.now row others.now }
{
    others.iter().all(|&other| {
        let there = sheet.distance(row, other as usize);
        there == sheet.distance(other as usize, row)
    })
}

// Whether the distances among the depot and its members are symmetric.
fn symmetric_among(sheet: &Sheet, depot: usize, members: &[u16]) -> bool
    requires { Routed sheet.now depot members.now }
    ensures { result ≡ symmetric sheet.now (depot ∷ members.now) }
{
    same_back(sheet, depot, members)
        && members.iter().enumerate().all(|(i, &row)| {
            let behind = &members[i + 1..];
            same_back(sheet, row as usize, behind)
        })
}

// The terms of a depot with its members, all of whose rounds a vehicle makes.
pub fn directed_of(sheet: &Sheet, depot: usize, index: u16, members: &[u16]) -> Directed
    requires routed { Routed sheet.now depot members.now }
    requires index_bound { index < vehicles_of sheet.now }
    ensures { result ≡ directed_of sheet.now depot index members.now }
{
    let symmetric = symmetric_among(sheet, depot, members);
    let common = terms::terms_of(sheet, depot, index, members);
    Directed {
        common,
        directed: !symmetric,
    }
}
