//! The limits of kept forms.

/// The most bytes of a packing that is kept; a page with a longer one is huge.
pub const MOST_PACKED: u32 = 3256;

/// The class of huge pages, whose cells have 4096 bytes.
pub const HUGE_CLASS: u8 = 254;
