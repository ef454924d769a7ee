//! The forms in which a page is kept.

use zr_base::Handle;

/// Where the bytes of a page in the pool are: the class and the handle of its object, the object's
/// length in bytes, and whether it is the page itself, as its 4096 bytes.
#[derive(Clone, Copy, PartialEq, Eq, Debug)]
pub struct Stored {
    pub class: u8,
    pub handle: Handle,
    pub len: u32,
    pub huge: bool,
}

/// The form in which a page is kept.
#[derive(Clone, Copy, PartialEq, Eq, Debug)]
pub enum Kept {
    /// Nothing was put: the page of zeros.
    Empty,
    /// All words of 8 bytes are this one.
    Same(u64),
    /// The page is in the pool, packed or as it is.
    Obj(Stored),
    /// The page is in this block of the backing device.
    Wb(u32),
}
