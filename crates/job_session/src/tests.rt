//! Whole jobs over a source and a sink in memory, and what each fault leaves.

use crate::{Status, sim_main};
use backing_dev::MemBacking;
use std::alloc::{AllocError, Global};
use std::test::Fail;
use zr_base::{MemSink, MemSource};

const JOB: &str =
    "disksize 4K\nactor\nwrite 0 4 fill 1\nwrite 3 1 fill 2\nread 2 3\nread 8 1\nrun\n";

const USAGE: &str = "usage: zramsim run | zramsim gen PAGES SEED\n";

const OUTPUT: &str =
    "op 0 0 ok\nop 0 1 ok\nop 0 2 ok\nfill 0000000000000001\nfill 0000000000000002\nfill 0000000000000000\nop 0 3 range\norder 0 0:0 0:1 0:2\n";

// The status of a run over a device of 4,096 blocks, and whether it wrote this.
fn ends(
    alloc: Global,
    words: &[&str],
    text: &str,
    failing: &[u64],
    room: usize,
    wanted: &str,
) -> Result<(Status, bool), AllocError> {
    let mut job = MemSource::new(alloc, text.as_bytes(), failing)?;
    let mut out = MemSink::new(alloc, room, &[])?;
    let mut dev = MemBacking::new(alloc, 4096, &[], &[])?;
    let status = sim_main(alloc, words, &mut job, &mut out, &mut dev);
    Ok((status, out.bytes() == wanted.as_bytes()))
}

#[test]
fn runs_jobs(rt: HostRuntime) -> Result<(), Fail> {
    let run: &[&str] = &["run"];
    let table: [(&[&str], &str, &[u64], usize, Status, &str); 7] = [
        (run, JOB, &[], 1000, Status::Refused, OUTPUT),
        (run, "run\n", &[], 1000, Status::Done, ""),
        (run, "\nstop\n", &[], 1000, Status::Job, "job 2 word\n"),
        (&[], JOB, &[], 1000, Status::Words, USAGE),
        (&["run", "now"], JOB, &[], 1000, Status::Words, USAGE),
        (run, JOB, &[1], 1000, Status::ReadFault, ""),
        (run, JOB, &[], 3, Status::WriteFault, "op "),
    ];
    for (words, text, failing, room, status, wanted) in table {
        let end = ends(rt.alloc(), words, text, failing, room, wanted)?;
        assert_eq!(rt; end, (status, true), "at {text}");
    }
    Ok(())
}

const REPORTS: &str = "mm_stat 65536 15104 24576 0 40960 4 0 0 4\nio_stat 0 0 0 0\nbd_stat 4 4 4\n";

// Generated jobs, and words that ask for none; a source that fails at once isn't read.
#[test]
fn generates_jobs(rt: HostRuntime) -> Result<(), Fail> {
    let table: [(&[&str], usize, Status, &str); 13] = [
        (&["gen", "16", "0"], 1000, Status::Done, REPORTS),
        (&["gen", "0016", "00"], 1000, Status::Done, REPORTS),
        (
            &["gen", "16", "18446744073709551615"],
            1000,
            Status::Done,
            REPORTS,
        ),
        (&["gen", "16", "0"], 3, Status::WriteFault, "mm_"),
        (&["gen", "0", "0"], 1000, Status::Words, USAGE),
        (&["gen", "16385", "0"], 1000, Status::Words, USAGE),
        (
            &["gen", "16", "18446744073709551616"],
            1000,
            Status::Words,
            USAGE,
        ),
        (&["gen", "+16", "0"], 1000, Status::Words, USAGE),
        (&["gen", "16", ""], 1000, Status::Words, USAGE),
        (&["gen", "10", "f"], 1000, Status::Words, USAGE),
        (&["gen", "16"], 1000, Status::Words, USAGE),
        (&["gen", "16", "0", "0"], 1000, Status::Words, USAGE),
        (&["Gen", "16", "0"], 3, Status::WriteFault, "usa"),
    ];
    for (words, room, status, wanted) in table {
        let end = ends(rt.alloc(), words, JOB, &[1], room, wanted)?;
        assert_eq!(rt; end, (status, true), "at {wanted}");
    }
    Ok(())
}

// One page, written by one actor and read by another, with these lines between their operations and
// the `run`.
const WRITTEN: &str = "op 0 0 ok\nop 1 0 ok\nfill 0000000000000001\norder 0 0:0 1:0\n";

const ZEROS: &str = "op 0 0 ok\nop 1 0 ok\nfill 0000000000000000\norder 0 1:0 0:0\n";

#[test]
fn follows_schedules(rt: HostRuntime) -> Result<(), Fail> {
    let two = "disksize 4K\nactor\nwrite 0 8 fill 1\nactor\nread 0 1\n";
    let table = [
        ("run\n", WRITTEN),
        ("schedule 1*2\nrun\n", ZEROS),
        ("schedule 0 1*9 0 1\nrun\n", WRITTEN),
        ("schedule 1\nschedule 0*9\nrun\n", ZEROS),
    ];
    for (end, wanted) in table {
        let job = format!(in rt.alloc(); "{two}{end}")?;
        let ended = ends(rt.alloc(), &["run"], &job, &[], 1000, wanted)?;
        assert_eq!(rt; ended, (Status::Done, true), "at {end}");
    }
    Ok(())
}

#[test]
fn keeps_the_disk_between_phases(rt: HostRuntime) -> Result<(), Fail> {
    let job =
        "run\ndisksize 8K\nactor\nwrite 8 8 seq 1 1\nrun\nrun\nactor\ndiscard 8 4\nread 7 2\nrun\n";
    let mut out = MemSink::new(rt.alloc(), 10_000, &[])?;
    let mut source = MemSource::new(rt.alloc(), job.as_bytes(), &[])?;
    let mut dev = MemBacking::new(rt.alloc(), 1, &[], &[])?;
    assert_eq!(rt;
        sim_main(rt.alloc(), &["run"], &mut source, &mut out, &mut dev),
        Status::Done
    );
    let first =
        "op 0 0 ok\norder 1 0:0\nop 0 0 ok\nop 0 1 ok\nfill 0000000000000000\nhex 0100000000000000";
    let last = "order 0 0:1\norder 1 0:1\n";
    assert!(rt; out.bytes().starts_with(first.as_bytes()));
    assert!(rt; out.bytes().ends_with(last.as_bytes()));
    Ok(())
}

// Attributes that are refused, and the statistics of the device.
#[test]
fn tells_the_device(rt: HostRuntime) -> Result<(), Fail> {
    let table = [
        (
            "bd_stat\nbacking 4\ndisksize 4K\nrun\nbd_stat\n",
            Status::Done,
            "bd_stat 0 0 0\nbd_stat 0 0 0\n",
        ),
        (
            "backing 5000\ndisksize 4K\ndisksize 8K\nbacking 1\nrun\n",
            Status::Refused,
            "attr backing range\nattr disksize busy\nattr backing busy\n",
        ),
        (
            "backing 4097\nbacking 4096\nbacking 1\ndisksize 4K\nactor\nwrite 8 1 fill 1\nrun\n",
            Status::Refused,
            "attr backing range\nop 0 0 range\n",
        ),
    ];
    for (job, status, wanted) in table {
        let ended = ends(rt.alloc(), &["run"], job, &[], 1000, wanted)?;
        assert_eq!(rt; ended, (status, true), "at {job}");
    }
    Ok(())
}

// Jobs over a device whose first read or first write fails.
#[test]
fn tells_faults_of_the_device(rt: HostRuntime) -> Result<(), Fail> {
    let table: [(&str, &[u64], &[u64], &str); 2] = [
        (
            "backing 1\ndisksize 4K\nactor\nwrite 0 4 fill 1\nidle all\nwriteback idle\nread 0 1\nread 0 1\nrun\nio_stat\nbd_stat\n",
            &[1],
            &[],
            "op 0 0 ok\nop 0 1 marked 1\nop 0 2 wrote 1 lost 0\nop 0 3 eio 1 done 0\nop 0 4 ok\nfill 0000000000000001\norder 0 0:0 0:3 0:4\nio_stat 1 0 0 0\nbd_stat 1 1 1\n",
        ),
        (
            "backing 1\ndisksize 4K\nactor\nwrite 0 4 fill 1\nidle all\nwriteback idle\nwriteback idle\nrun\nbd_stat\n",
            &[],
            &[1],
            "op 0 0 ok\nop 0 1 marked 1\nop 0 2 eio 1 wrote 0 lost 0\nop 0 3 wrote 1 lost 0\norder 0 0:0\nbd_stat 1 0 1\n",
        ),
    ];
    for (job, bad_reads, bad_writes, wanted) in table {
        let mut source = MemSource::new(rt.alloc(), job.as_bytes(), &[])?;
        let mut out = MemSink::new(rt.alloc(), 1000, &[])?;
        let mut dev = MemBacking::new(rt.alloc(), 1, bad_reads, bad_writes)?;
        let status = sim_main(rt.alloc(), &["run"], &mut source, &mut out, &mut dev);
        let wrote = out.bytes() == wanted.as_bytes();
        assert_eq!(rt; (status, wrote), (Status::Refused, true), "at {job}");
    }
    Ok(())
}

// Reports and refusals, on a disk before its size is given, and after phases.
#[test]
fn tells_reports(rt: HostRuntime) -> Result<(), Fail> {
    let table = [
        (
            "mem_limit 8K\nmm_stat\nio_stat\nstates\nclasses\n",
            Status::Done,
            "mm_stat 0 0 0 8192 0 0 0 0 0\nio_stat 0 0 0 0\n",
        ),
        (
            "disksize 4K\nactor\nwrite 0 8 fill aa\nrun\nmm_stat\n",
            Status::Done,
            "op 0 0 ok\norder 0 0:0\nmm_stat 4096 0 0 0 0 1 0 0 0\n",
        ),
        (
            "disksize 4K\nactor\nwrite 0 8 seq f4240 1\nrun\nmm_stat\nclasses\n",
            Status::Done,
            "op 0 0 ok\norder 0 0:0\nmm_stat 4096 1120 8192 0 8192 0 0 0 0\nclass 71 1168 pages 2 per 7 used 1 zspages 1 groups 0 1 0 0 0 0 0 0 0 0 0\n",
        ),
        (
            "disksize 4K\nactor\nwrite 0 8 seq 0 9e3779b97f4a7c15\nrun\nmm_stat\nstates\n",
            Status::Done,
            "op 0 0 ok\norder 0 0:0\nmm_stat 4096 4096 4096 0 4096 0 0 1 1\nstate 0 ..h. 0\n",
        ),
        (
            "mem_limit 4K\ndisksize 4K\nactor\nwrite 0 8 seq f4240 1\nwrite 0 8 seq 0 9e3779b97f4a7c15\nrun\nmm_stat\nio_stat\n",
            Status::Refused,
            "op 0 0 limit 0 2 1 done 0\nop 0 1 ok\norder 0 0:1\nmm_stat 4096 4096 4096 4096 4096 0 0 1 1\nio_stat 0 1 0 0\n",
        ),
        (
            "mem_used_max 0\ndisksize 4K\nactor\nwrite 0 8 seq f4240 1\ndiscard 0 8\nrun\nmm_stat\nmem_used_max 0\nmm_stat\n",
            Status::Done,
            "op 0 0 ok\nop 0 1 ok\norder 0 0:0 0:1\nmm_stat 0 0 0 0 8192 0 0 0 0\nmm_stat 0 0 0 0 0 0 0 0 0\n",
        ),
        (
            "disksize 4K\nactor\nwrite 8 1 fill 1\nwrite 7 1 fill 1\nrun\nio_stat\n",
            Status::Refused,
            "op 0 0 range\nop 0 1 ok\norder 0 0:1\nio_stat 0 0 1 0\n",
        ),
        (
            "mem_limit 8K\ndisksize 16K\nactor\nwrite 0 24 seq 0 9e3779b97f4a7c15\nrun\nmm_stat\n",
            Status::Refused,
            "op 0 0 limit 2 1 2 done 2\norder 0 0:0\norder 1 0:0\nmm_stat 8192 8192 8192 8192 8192 0 0 2 2\n",
        ),
        (
            "disksize 12K\nactor\nwrite 0 24 fill 5\ndiscard 4 16\nread 4 1\nrun\nio_stat\n",
            Status::Done,
            "op 0 0 ok\nop 0 1 ok\nop 0 2 ok\nfill 0000000000000005\norder 0 0:0 0:2\norder 1 0:0 0:1\norder 2 0:0\nio_stat 0 0 0 1\n",
        ),
    ];
    for (job, status, wanted) in table {
        let ended = ends(rt.alloc(), &["run"], job, &[], 1000, wanted)?;
        assert_eq!(rt; ended, (status, true), "at {job}");
    }
    Ok(())
}

// Pages that are written back: one, none without a backing, one where a block is left for one, and one
// that is written by another actor meanwhile.
#[test]
fn writes_pages_back(rt: HostRuntime) -> Result<(), Fail> {
    let huge = "actor\nwrite 0 8 seq 0 9e3779b97f4a7c15\n";
    let two = "actor\nwrite 0 16 seq 0 9e3779b97f4a7c15\n";
    let back = "run\nbd_stat\nstates\n";
    let table = [
        (
            format!(in rt.alloc();
                "backing 2\ndisksize 4K\n{huge}writeback huge\nwriteback huge\n{back}"
            )?,
            Status::Done,
            "op 0 0 ok\nop 0 1 wrote 1 lost 0\nop 0 2 wrote 0 lost 0\norder 0 0:0\nbd_stat 1 0 1\nstate 0 .w.. 0\n",
        ),
        (
            format!(in rt.alloc(); "disksize 4K\n{huge}writeback huge\n{back}")?,
            Status::Refused,
            "op 0 0 ok\nop 0 1 nobacking\norder 0 0:0\nbd_stat 0 0 0\nstate 0 ..h. 0\n",
        ),
        (
            format!(in rt.alloc(); "backing 1\ndisksize 8K\n{two}writeback huge\n{back}")?,
            Status::Refused,
            "op 0 0 ok\nop 0 1 noblock wrote 1 lost 0\norder 0 0:0\norder 1 0:0\nbd_stat 1 0 1\nstate 0 .w.. 0\nstate 1 ..h. 0\n",
        ),
        (
            format!(in rt.alloc();
                "backing 1\ndisksize 4K\n{huge}run\nactor\nwriteback huge\nactor\nwrite 0 8 fill 1\nschedule 0*8 1*6\n{back}"
            )?,
            Status::Done,
            "op 0 0 ok\norder 0 0:0\nop 0 0 wrote 0 lost 1\nop 1 0 ok\norder 0 1:0\nbd_stat 0 0 1\nstate 0 s... 0\n",
        ),
    ];
    for (job, status, wanted) in table {
        let ended = ends(rt.alloc(), &["run"], &job, &[], 1000, wanted)?;
        assert_eq!(rt; ended, (status, true), "at {job}");
    }
    Ok(())
}

// Marks by ages, at the times that are set, and by whether an access comes before or after.
#[test]
fn marks_idle_pages(rt: HostRuntime) -> Result<(), Fail> {
    let table = [
        (
            "disksize 8K\nclock 10\nactor\nwrite 0 4 fill 1\nwrite 8 8 fill 2\nrun\nclock 15\nactor\nidle 5\nidle 4\nidle all\nread 0 1\nidle all\nrun\nstates\n",
            "op 0 0 ok\nop 0 1 ok\norder 0 0:0\norder 1 0:1\nop 0 0 marked 0\nop 0 1 marked 1\nop 0 2 marked 0\nop 0 3 ok\nfill 0000000000000001\nop 0 4 marked 1\norder 0 0:3\nstate 0 ...i 15\nstate 1 s... 10\n",
        ),
        (
            "disksize 4K\nactor\nwrite 0 4 fill 1\nrun\nactor\nidle all\nactor\nread 0 1\nschedule 0*2 1*6\nrun\nstates\n",
            "op 0 0 ok\norder 0 0:0\nop 0 0 marked 1\nop 1 0 ok\nfill 0000000000000001\norder 0 1:0\nstate 0 .... 0\n",
        ),
        (
            "disksize 4K\nactor\nwrite 0 4 fill 1\nrun\nactor\nidle all\nactor\nread 0 1\nschedule 1*6 0*2\nrun\nstates\n",
            "op 0 0 ok\norder 0 0:0\nop 0 0 marked 1\nop 1 0 ok\nfill 0000000000000001\norder 0 1:0\nstate 0 ...i 0\n",
        ),
    ];
    for (job, wanted) in table {
        let ended = ends(rt.alloc(), &["run"], job, &[], 1000, wanted)?;
        assert_eq!(rt; ended, (Status::Done, true), "at {job}");
    }
    Ok(())
}
