//! How a sector is printed.

ghost use Rattle.std.specs.Prelude.{◌≡◌, ℕ, List, length};
ghost use Rattle.std.specs.Int.{w64, from_le_bytes};
ghost use Rattle.job_print.specs.declared.line.OutLine.TheVariants as lines;
ghost use Rattle.job_print.specs.Texts.{IsFilled, sector_line, word_at};

/// A sector is printed as one word exactly where its 64 words are equal, and else as its bytes.
pub fn equal_words_fill()
    ensures fill { (bytes : List ℕ) → length bytes ≡ 512 → IsFilled bytes
        → sector_line bytes ≡ lines.Fill (from_le_bytes w64 (word_at bytes 0)) }
    ensures hex { (bytes : List ℕ) → length bytes ≡ 512 → ¬ IsFilled bytes
        → sector_line bytes ≡ lines.Hex bytes }
{}
