// The five methods, each with its number.
ghost use Rattle.std.specs.Prelude.{◌≡◌, ◌≤◌, length};
ghost use Rattle.sheet.specs.Fields.{method_of, header_size};
ghost use Rattle.sheet.specs.Method.{code_of, Decodes};

use crate::refusal::Refusal;

#[derive(Clone, Copy, Debug, PartialEq, Eq)]
pub enum Method {
    Savings = 0,
    Insertion = 1,
    NearestNeighbor = 2,
    NearestNeighborTw = 3,
    Sweep = 4,
}

impl TryFrom<u8> for Method {
    type Error = Refusal;

    ghost try_from_gives = { Decodes };

    fn try_from(byte: u8) -> Result<Self, Refusal> {
        match byte {
            0 => Ok(Method::Savings),
            1 => Ok(Method::Insertion),
            2 => Ok(Method::NearestNeighbor),
            3 => Ok(Method::NearestNeighborTw),
            4 => Ok(Method::Sweep),
            _ => Err(Refusal::Method),
        }
    }
}

// The byte that names a sheet's method: before the check it may be any.
pub fn method_byte(sheet: &[u8]) -> u8
    requires { header_size ≤ length sheet.now }
    ensures { result ≡ method_of sheet.now }
{
    sheet[4]
}

// A sheet's method, or refusal 3.
pub fn method_of(sheet: &[u8]) -> Result<Method, Refusal>
    requires { header_size ≤ length sheet.now }
    ensures { Decodes (method_of sheet.now) result }
{
    Method::try_from(method_byte(sheet))
}

// The same where the method is known to be one of the five: it cannot fail.
pub fn accepted_method(sheet: &[u8]) -> Method
    requires header_size_in_bounds { header_size ≤ length sheet.now }
    requires one_of_five { method_of sheet.now ≤ 4 }
    ensures { code_of result ≡ method_of sheet.now }
{
    method_of(sheet).unwrap()
}
