//! What follows of the definitions alone.

ghost use Rattle.std.specs.Prelude.{ℕ, ◌<◌, ◌≤◌};
ghost use Rattle.size_class.specs.Classes.{stands_of};

/// A class whose cells take a packed object stands as one below class 254, at any limit that is
/// built.
#[inline]
pub fn packed_classes_stay_below()
    ensures { (limit k : ℕ) → 4 ≤ limit → limit ≤ 16 → k ≤ 202 → stands_of limit k < 254 }
{}
