//! The nine codes of a line: their numbers and the sizes of their payloads.

ghost use Rattle.std.specs.Prelude.{◌≡◌, ◌<◌, ◌↔◌, IfSome, IsNone};
ghost use Rattle.bdi_line.specs.Coded.{code_number, size_of};

/// How a line of 64 bytes is kept: `B8D1` has values of 8 bytes and deltas of 1, and so on.
#[derive(Clone, Copy, PartialEq, Eq, Debug)]
pub enum Code {
    Zeros,
    Repeated,
    B8D1,
    B8D2,
    B8D4,
    B4D1,
    B4D2,
    B2D1,
    Raw,
}

impl Code {
    /// The number that stands for the code in a packing, 0 to 8.
    pub fn number(self) -> u8
        ensures { result ≡ code_number self }
    {
        match self {
            Code::Zeros => 0,
            Code::Repeated => 1,
            Code::B8D1 => 2,
            Code::B8D2 => 3,
            Code::B8D4 => 4,
            Code::B4D1 => 5,
            Code::B4D2 => 6,
            Code::B2D1 => 7,
            Code::Raw => 8,
        }
    }

    /// The code with this number; None above 8.
    pub fn of_number(n: u8) -> Option<Code>
        ensures some { IfSome result (λ code. code_number code ≡ n) }
        ensures one { IfSome result (λ code. (other : Code) → code_number other ≡ n
            → other ≡ code) }
        ensures none { IsNone result ↔ (8 < n) }
    {
        match n {
            0 => Some(Code::Zeros),
            1 => Some(Code::Repeated),
            2 => Some(Code::B8D1),
            3 => Some(Code::B8D2),
            4 => Some(Code::B8D4),
            5 => Some(Code::B4D1),
            6 => Some(Code::B4D2),
            7 => Some(Code::B2D1),
            8 => Some(Code::Raw),
            _ => None,
        }
    }

    /// The length of a payload under the code in bytes, 0 to 64.
    pub fn size(self) -> u32
        ensures { result ≡ size_of self }
    {
        match self {
            Code::Zeros => 0,
            Code::Repeated => 8,
            Code::B8D1 => 17,
            Code::B8D2 => 25,
            Code::B8D4 => 41,
            Code::B4D1 => 22,
            Code::B4D2 | Code::B2D1 => 38,
            Code::Raw => 64,
        }
    }
}
