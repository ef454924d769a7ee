//! Why a run was given up.

ghost use Rattle.std.specs.Prelude.{◌≡◌};
ghost use Rattle.job_session.specs.Telling.{stop_status};

use crate::sim::Status;
use std::alloc::AllocError;
use zr_base::Failed;

/// Why a call that writes was given up.
#[derive(Clone, Copy, PartialEq, Eq, Debug)]
pub(crate) enum Stop {
    /// There was no memory left.
    Memory,
    /// The sink failed, or took nothing of some bytes.
    Write,
}

/// The status of a run that was given up.
pub(crate) fn stopped(stop: Stop) -> Status
    ensures { result ≡ stop_status stop }
{
    match stop {
        Stop::Memory => Status::NoMemory,
        Stop::Write => Status::WriteFault,
    }
}

impl From<AllocError> for Stop {
    ghost use Rattle.std.specs.Prelude.{◌≡◌};
    ghost use Rattle.job_session.specs.declared.stop.Stop.TheVariants.{Memory};

    ghost from_gives = { λ e stop. stop ≡ Memory };

    fn from(_: AllocError) -> Stop {
        Stop::Memory
    }
}

impl From<Failed> for Stop {
    ghost use Rattle.std.specs.Prelude.{◌≡◌};
    ghost use Rattle.job_session.specs.declared.stop.Stop.TheVariants.{Write};

    ghost from_gives = { λ failed stop. stop ≡ Write };

    fn from(_: Failed) -> Stop {
        Stop::Write
    }
}

/// Why no text of a job was read.
#[derive(Clone, Copy, PartialEq, Eq, Debug)]
pub(crate) enum NoText {
    /// There was no memory left.
    Memory,
    /// The source failed.
    Failed,
    /// The source gave more bytes than a job's text may have.
    Long,
}

impl From<AllocError> for NoText {
    ghost use Rattle.std.specs.Prelude.{◌≡◌};
    ghost use Rattle.job_session.specs.declared.stop.NoText.TheVariants.{Memory};

    ghost from_gives = { λ e why. why ≡ Memory };

    fn from(_: AllocError) -> NoText {
        NoText::Memory
    }
}
