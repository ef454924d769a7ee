//! Why a text is no job.

use std::alloc::AllocError;

/// What is wrong with a line.
#[derive(Clone, Copy, PartialEq, Eq, Debug)]
pub enum Cause {
    /// Its first word names no line, it has too few or too many words, or a fixed word isn't there.
    Word,
    /// A word isn't of its form, or there are too few or too many digits after `hex`.
    Number,
    /// A value isn't allowed.
    Range,
    /// An actor begins before the disk has a size.
    NoDisk,
    /// A limit of a job is passed.
    TooMany,
    /// It stands where it may not.
    Order,
}

/// The first faulty line, counted from 1, and its cause. A text that is too long is `TooMany` at
/// line 0.
#[derive(Clone, Copy, PartialEq, Eq, Debug)]
pub struct JobFault {
    pub line: u32,
    pub cause: Cause,
}

/// Why no job was read.
#[derive(Clone, Copy, PartialEq, Eq, Debug)]
pub enum ReadFault {
    /// The bytes are no job.
    Bad(JobFault),
    /// Memory was refused.
    Memory(AllocError),
}

/// Why a line wasn't taken.
#[derive(Clone, Copy, PartialEq, Eq, Debug)]
pub(crate) enum NotTaken {
    /// It is faulty.
    Faulty(Cause),
    /// Memory was refused.
    Memory(AllocError),
}

impl From<AllocError> for NotTaken {
    ghost use Rattle.std.specs.Prelude.{◌≡◌};
    ghost use Rattle.job_text.specs.declared.fault.NotTaken.TheVariants.{Memory};

    ghost from_gives = { λ e n. n ≡ Memory e };

    fn from(e: AllocError) -> NotTaken {
        NotTaken::Memory(e)
    }
}

impl From<Cause> for NotTaken {
    ghost use Rattle.std.specs.Prelude.{◌≡◌};
    ghost use Rattle.job_text.specs.declared.fault.NotTaken.TheVariants.{Faulty};

    ghost from_gives = { λ cause n. n ≡ Faulty cause };

    fn from(cause: Cause) -> NotTaken {
        NotTaken::Faulty(cause)
    }
}
