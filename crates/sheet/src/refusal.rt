// The refusals of document 01, each with its number.
ghost use Rattle.std.specs.Prelude.{◌≡◌};
ghost use Rattle.sheet.specs.Told.{number_of, told};

#[derive(Clone, Copy, Debug, PartialEq, Eq)]
pub enum Refusal {
    Header = 1,
    Counts = 2,
    Method = 3,
    Lengths = 4,
    Rows = 5,
    Entries = 6,
    Vehicles = 7,
    Fleet = 8,
    Depots = 9,
    Plan = 10,
    Text = 11,
    TextRows = 12,
    Rates = 13,
    Crews = 14,
}

impl From<Refusal> for u32 {
    ghost from_gives = { λ refusal number. number ≡ number_of refusal };

    fn from(refusal: Refusal) -> u32 {
        refusal as u32
    }
}

// The refusal's number, and 0 where nothing is refused.
pub fn number(answer: Result<(), Refusal>) -> u32
    ensures { result ≡ told answer }
{
    match answer {
        Ok(()) => 0,
        Err(refusal) => refusal.into(),
    }
}
