//! What follows of the definitions alone, for those who pack lines one after another.

ghost use Rattle.std.specs.Prelude.{◌≡◌, ◌<◌, ◌≤◌, ℕ, List, length, All};
ghost use Rattle.bdi_line.specs.Coded.{code_number, IsByteLine, IsCoded};
ghost use Rattle.bdi_line.specs.Packed.{payload_of, HasOneCoding};
ghost use Rattle.bdi_line.specs.declared.codes.Code.{Code};

/// Each line has one code and one payload, and a code's number fits four bits.
#[inline]
pub fn lines_have_one_coding()
    ensures one { (line : List ℕ) → length line ≡ 64 → HasOneCoding line }
    ensures few { (code : Code) → code_number code ≤ 8 }
{}

/// A code and a payload are those of one line at most, and a number that of one code.
#[inline]
pub fn codings_have_one_line()
    ensures line { (code : Code) → (payload one other : List ℕ) → IsByteLine one
        → IsByteLine other → IsCoded one code payload → IsCoded other code payload → one ≡ other }
    ensures code { (code other : Code) → code_number code ≡ code_number other → code ≡ other }
{}

/// The payload of a line of bytes has bytes.
#[inline]
pub fn payloads_are_bytes()
    ensures { (line : List ℕ) → IsByteLine line → All (λ b. b < 256) (payload_of line) }
{}
