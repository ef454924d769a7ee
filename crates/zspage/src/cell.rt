//! An object in a cell: a header of 8 bytes with the object's handle, and then the object.

ghost use Rattle.std.specs.Prelude.{◌≡◌, length};
ghost use Rattle.zspage.specs.Cells.{IsStored, Fits};

use cell_arena::Cell;
use zr_base::Handle;

/// The bytes of an object that is a whole page, and has no header.
const PAGE: usize = 4096;

/// The bytes of a header.
const HEADER: u32 = 8;

/// Writes an object under its handle.
pub(crate) fn store(cell: &mut Cell, handle: Handle, bytes: &[u8])
    requires { Fits (length bytes.now) (length cell.old.bytes) }
    ensures stored { IsStored handle.0 bytes.now cell.new }
    ensures same { cell.new ≡ record cell.old { bytes = cell.new.bytes } }
    ensures len { length cell.new.bytes ≡ length cell.old.bytes }
{
    if bytes.len() == PAGE {
        cell.write(0, bytes);
    } else {
        cell.write(0, &handle.0.to_le_bytes());
        cell.write(HEADER, bytes);
    }
}
