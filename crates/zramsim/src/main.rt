//! `zramsim run` reads a job from standard input, runs it over a backing device in memory and writes
//! its output to standard output. `zramsim gen PAGES SEED` makes a job, and writes the end of its
//! output. The exit status is the number of the top call's status; where no
//! memory is found for the words or the device, it is 6.
#![tactic(auto)]

ghost use Rattle.std.specs.Prelude.{◌≡◌};
ghost use Rattle.std.specs.Process.{exit_status};
ghost use Rattle.job_session.specs.Runs.{status_number};

use backing_dev::MemBacking;
use job_session::{Status, sim_main};
use std::process::ExitCode;
use std::{env, io};
use zr_base::{StdSink, StdSource};

// How many blocks of 4096 bytes the backing device has.
const BLOCKS: u32 = 4096;

fn run(rt: &HostRuntime) -> io::Result<Status> {
    let mut args = Vec::new(rt.alloc());
    for word in env::args(rt)?.skip(1) {
        args.push(word)?;
    }
    let mut words = Vec::new(rt.alloc());
    for word in &args {
        words.push(word.as_str())?;
    }
    let mut job = StdSource::new(rt.stdin());
    let mut out = StdSink::new(rt.stdout());
    let mut dev = MemBacking::new(rt.alloc(), BLOCKS, &[], &[])?;
    Ok(sim_main(rt.alloc(), &words, &mut job, &mut out, &mut dev))
}

fn exit_code(status: Status) -> ExitCode
    ensures { exit_status result ≡ status_number status }
{
    ExitCode::from(status.number())
}

fn main(rt: HostRuntime) -> ExitCode {
    exit_code(run(&rt).unwrap_or(Status::NoMemory))
}
