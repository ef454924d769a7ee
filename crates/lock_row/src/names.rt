//! The names of locks and of what they guard, and the plain data that the machine speaks of.

use call_history::{Done, Part, PartEnd};
use mem_account::Weight;
use std::collections::LinkedList;
use zr_base::PageIx;

/// Names a lock.
#[derive(Clone, Copy, PartialEq, Eq, Debug)]
pub enum LockNo {
    /// A page's slot, with its entry and its order.
    Slot(PageIx),
    /// The pool of a size class.
    Class(u8),
    /// The account of memory.
    Account,
    /// The blocks of the backing device.
    Blocks,
    /// The backing device.
    Device,
}

/// What a lock guards, one case for each kind of lock.
#[derive(Drop)]
pub enum Held<E, P, A, B, V> {
    Slot(E),
    Class(P),
    Account(A),
    Blocks(B),
    Device(V),
}

/// The next event of an actor.
pub enum Plan {
    Finished,
    Take(LockNo),
    Give(LockNo),
}

/// The stage of an actor's piece, by its next event.
pub enum At {
    /// It takes the page's slot, the account for a request beyond the disk, the first page's slot
    /// to mark pages or to write them back, or the first class for a compaction.
    Start,
    /// It gives the account, which counted a request beyond the disk.
    Refusing,
    /// It takes the class of the page's object, to pin it.
    Seen,
    /// It gives that class, with the object's cell out.
    Pinning,
    /// It takes that class, to unpin the object.
    Pinned,
    /// It gives that class, with the cell at home.
    Unpinning,
    /// It gives the slot, whose page is kept as it was.
    Leaving,
    /// It takes the device, to read the page's block.
    Away,
    /// It gives the device, which has read the block or has failed.
    Fetching,
    /// It takes the account, to count that the device failed.
    Failing,
    /// It gives the account.
    Counting,
    /// It gives the slot, whose page couldn't be read: a read is noted, a write is not.
    Missed,
    /// It takes the class of the new object.
    Wanting,
    /// It takes the account, to charge the new object.
    Inside,
    /// It gives the account, and makes the new object.
    Both,
    /// It gives the class of the new object.
    Made,
    /// It takes the class of the old object, to free it.
    Old,
    /// It gives that class, without the object.
    Freeing,
    /// It takes the blocks, to free the one that has the page.
    Backed,
    /// It gives the blocks, without that one.
    Releasing,
    /// It takes the account, to give back frames and to count the page.
    Owing,
    /// It gives the account.
    Giving,
    /// It gives the slot, with the page's new form.
    Ready,
    /// It takes the slot of the next page that may be marked idle.
    Scanning(Scan),
    /// It gives that slot, with the mark where it may be marked.
    Marking(Scan),
    /// It is at a step of a writeback.
    Visiting(Step, Trip),
    /// It takes the next class of a compaction.
    Sweeping(Compaction),
    /// It gives that class, where it has moved one object or none.
    Moving(Compaction),
    /// It takes the account, to give back the frames that a move freed.
    Shrunk(Compaction),
    /// It gives the account.
    Shrinking(Compaction),
}

/// Where a scan that marks pages stands: the page that it is at, and how many marks are new so far.
#[derive(Clone, Copy, PartialEq, Eq, Debug)]
pub struct Scan {
    pub page: u32,
    pub marked: u32,
}

/// A step of a writeback's visit of a page, by its next event.
#[derive(Clone, Copy, PartialEq, Eq, Debug)]
pub enum Step {
    /// It takes the page's slot.
    Arriving,
    /// It gives the slot, whose page isn't written back.
    Passing,
    /// It takes the blocks, to reserve one.
    Asking,
    /// It gives the blocks, with one reserved or none.
    Reserving,
    /// It gives the slot, where none was reserved: it is over.
    Quitting,
    /// It takes the class of the page's object, to pin it.
    Seen,
    /// It gives that class, with the object's cell out.
    Pinning,
    /// It takes that class, to unpin the object.
    Pinned,
    /// It gives that class, with the cell at home.
    Unpinning,
    /// It gives the slot, with the mark of its block.
    Marking,
    /// It takes the device, to write the page to the block.
    Flying,
    /// It gives the device, which has written the block or has failed.
    Storing,
    /// It takes the slot again.
    Landing,
    /// Its mark still stands: it takes the class of the page's object, to free it.
    Won,
    /// It gives that class, without the object.
    Freeing,
    /// It takes the blocks, to make the block the page's.
    Backing,
    /// It gives the blocks.
    Committing,
    /// It takes the account, to give back frames and to count the page.
    Owing,
    /// It gives the account.
    Paying,
    /// It gives the slot, whose page is kept in the block.
    Putting,
    /// It gives the slot, whose mark is gone or whose write failed.
    Losing,
    /// It takes the blocks, to free its block.
    Undoing,
    /// It gives the blocks, without that one.
    Releasing,
}

/// Where a writeback stands: the page that it visits, how many pages it has left on the device so far,
/// and how many it has written in vain, and the block that it has reserved or made the page's.
#[derive(Clone, Copy, PartialEq, Eq, Debug)]
pub struct Trip {
    pub page: u32,
    pub wrote: u32,
    pub lost: u32,
    pub block: Option<u32>,
}

/// Where a compaction stands: the class that it is at; how many objects it may still move there,
/// none before it has given the class for the first time; and how many objects it has moved so far,
/// and how many frames of 4096 bytes it has given back.
#[derive(Clone, Copy, PartialEq, Eq, Debug)]
pub struct Compaction {
    pub class: u8,
    pub budget: Option<u32>,
    pub moves: u64,
    pub frames: u64,
}

/// An object of a pool, by its class and its handle, with its bytes. No running code makes one.
pub struct Object {
    pub class: u8,
    pub handle: u64,
    pub bytes: LinkedList<u8>,
}

/// A cell that an actor has pinned: the class and the handle of its object, and the cell as its
/// pool sees it, with the place of its chain, its number there, its size and its bytes.
/// No running code makes one.
pub struct Pin {
    pub class: u8,
    pub handle: u64,
    pub chain: *const u8,
    pub number: u32,
    pub size: u32,
    pub bytes: LinkedList<u8>,
}

/// What an actor is at. No running code makes one.
pub struct Local<V> {
    pub actor: u32,
    pub at: At,
    /// the pieces to do, the one in work first
    pub todo: LinkedList<Part>,
    /// the locks that it holds with their values, the last taken first
    pub held: LinkedList<(LockNo, V)>,
    /// the pieces that are over
    pub done: LinkedList<Done>,
    /// the new object, from its making to the slot's giving
    pub fresh: Option<Object>,
    /// the cell that it has pinned
    pub pin: Option<Pin>,
    /// frames that it freed and hasn't given back yet
    pub owed: u64,
    /// what the account counts of the page, beside what the entry shows
    pub ahead: Option<Weight>,
    /// what the entry shows, and the account doesn't count any more
    pub behind: Option<Weight>,
    /// the page that it read from a pinned cell or from the device
    pub page: Option<LinkedList<u8>>,
    /// the refusal that ends its piece
    pub fail: Option<PartEnd>,
}

/// A row of locks, with each value that is at home, and the actors. No running code makes one.
pub struct State<V> {
    pub row: LinkedList<Option<V>>,
    pub locals: LinkedList<Local<V>>,
}
