//! Texts with their first fault, the values of jobs as they arrive, and texts at a limit.

use crate::{Attr, Cause, Item, Job, JobFault, MOST_BYTES, PhaseText, ReadFault, read_job};
use std::alloc::{AllocError, Global};
use std::test::Fail;
use zr_base::{ActorOps, Mode, Op, Stuff};

// The first fault of a text; None where it is a job.
fn fault_in(alloc: Global, text: &str) -> Result<Option<JobFault>, AllocError> {
    match read_job(alloc, text.as_bytes()) {
        Ok(_) => Ok(None),
        Err(ReadFault::Bad(fault)) => Ok(Some(fault)),
        Err(ReadFault::Memory(e)) => Err(e),
    }
}

#[test]
fn tells_jobs(rt: HostRuntime) -> Result<(), Fail> {
    let table = [
        "",
        "run",
        "\n \t\nrun\n",
        "run\nrun\n",
        "disksize 1G\nactor\nread 0 2048\nrun\n",
        "disksize 1g\nactor\nwrite 4294967295 1 fill ABCDEFabcdef0123\nrun\n",
        "disksize 4096 # one page\r\n# none\r\nactor#0\r\nrun\r",
        "disksize 1\nactor\nactor\ndiscard 00 01\nschedule 1 0*2\nschedule 1*16777212\nrun",
        "disksize 1\nactor\nschedule\t0\nrun",
        "mem_limit 0\nmm_stat\nstates # of no pages",
        "mem_limit 1073741824K\ndisksize 4K\nmem_limit 1048576m\nactor\nrun\nmem_limit 1024G",
        "mem_used_max 0\nmem_used_max 00\ndisksize 4K\nactor\nrun\nmem_used_max 0 # now",
        "mem_limit 1099511627776\nmem_limit 00\nio_stat\nio_stat\nclasses\nrun\nclasses",
        "backing 1\nbacking 65536\ndisksize 4K\nbacking 0001\nactor\nrun\nbacking 65536 # late",
        "bd_stat\ndisksize 4K\nbd_stat # none\nactor\nread 0 1\nrun\n\tbd_stat\nbd_stat",
        "clock 0\nclock 00\nclock 18446744073709551615\nclock 18446744073709551615\nmm_stat",
        "disksize 4K\nactor\nidle all\nidle 0\nidle 18446744073709551615\nrun\nclock 5 # later",
        "disksize 4K\nactor\nwriteback idle\nwriteback huge\nwriteback huge_idle # both\nrun",
        "writeback_limit 0\nwriteback_limit 4294967296\nwriteback_limit 007 # before a disk",
        "writeback_limit_enable 0\nwriteback_limit_enable 1\nwriteback_limit_enable 01\nrun",
        "disksize 4K\nwriteback_limit 1\nbacking 1\nwriteback_limit_enable 1\nactor\nrun\nwriteback_limit 1\nmm_stat\nwriteback_limit_enable 000",
        "disksize 4K\ndisksize 4K\nrun\n\ndisksize 1G\nactor\nrun\ndisksize 4K",
    ];
    for text in table {
        assert_eq!(rt; fault_in(rt.alloc(), text)?, None, "at {text}");
    }
    Ok(())
}

// Texts with their first faulty line and its cause: by their words alone, then by their places.
const FAULTY: [(&str, u32, Cause); 96] = [
    ("stop", 1, Cause::Word),
    ("RUN", 1, Cause::Word),
    ("run now", 1, Cause::Word),
    ("backing", 1, Cause::Word),
    ("backing 1 1", 1, Cause::Word),
    ("backing x #\nbacking x 1", 1, Cause::Number),
    ("disksize 4K\nactor\nbacking", 3, Cause::Word),
    ("MM_STAT", 1, Cause::Word),
    ("mem_limit", 1, Cause::Word),
    ("mem_limit 4 K", 1, Cause::Word),
    ("mem_limit x 1", 1, Cause::Word),
    ("mem_used_max", 1, Cause::Word),
    ("mem_used_max 0 0", 1, Cause::Word),
    ("mm_stat 0", 1, Cause::Word),
    ("io_stat io_stat", 1, Cause::Word),
    ("bd_stat 0", 1, Cause::Word),
    ("bd_stats", 1, Cause::Word),
    ("states all", 1, Cause::Word),
    ("disksize 4K\nactor\nclasses 71", 3, Cause::Word),
    ("write x 1 fil 0", 1, Cause::Word),
    ("write 0 1 hex", 1, Cause::Word),
    ("compact 1", 1, Cause::Word),
    ("disksize 4K\nactor\ncompact all", 3, Cause::Word),
    ("schedule", 1, Cause::Word),
    ("run\r\r\n", 1, Cause::Word),
    ("run\r#x", 1, Cause::Word),
    ("disksize 1T", 1, Cause::Number),
    ("disksize K", 1, Cause::Number),
    ("mem_limit -1", 1, Cause::Number),
    ("mem_limit 1KK", 1, Cause::Number),
    ("mem_limit none", 1, Cause::Number),
    ("disksize 4K\nactor\nmem_limit G", 3, Cause::Number),
    ("backing 1K", 1, Cause::Number),
    ("backing -1", 1, Cause::Number),
    ("disksize 4K\nactor\nbacking +1", 3, Cause::Number),
    ("mem_used_max 0K", 1, Cause::Number),
    ("mem_used_max -0", 1, Cause::Number),
    ("write 99999999999999999999 1 fill g", 1, Cause::Number),
    ("write 0 0 fill 00000000000000001", 1, Cause::Number),
    ("write 0 1 hex 0g", 1, Cause::Number),
    ("write 4294967296 1 hex 00", 1, Cause::Number),
    ("disksize 4K\nactor\nwrite 0 1 hex 00", 3, Cause::Number),
    ("schedule 0* 1", 1, Cause::Number),
    ("schedule 0 1*2*3", 1, Cause::Number),
    ("disksize 0", 1, Cause::Range),
    ("disksize 1048577K", 1, Cause::Range),
    ("disksize 18446744073709551616", 1, Cause::Range),
    ("disksize 18446744073709551615G", 1, Cause::Range),
    ("mem_limit 1073741825K", 1, Cause::Range),
    ("mem_limit 1099511627777", 1, Cause::Range),
    ("mem_limit 18446744073709551616", 1, Cause::Range),
    ("mem_limit 18014398509481984K", 1, Cause::Range),
    ("disksize 4K\nactor\nmem_limit 1025G", 3, Cause::Range),
    ("backing 0", 1, Cause::Range),
    ("backing 65536\nbacking 65537", 2, Cause::Range),
    ("backing 4294967297", 1, Cause::Range),
    ("backing 18446744073709551616", 1, Cause::Range),
    ("disksize 4K\nactor\nbacking 0", 3, Cause::Range),
    ("mem_used_max 1", 1, Cause::Range),
    ("mem_used_max 18446744073709551616", 1, Cause::Range),
    ("disksize 4K\nactor\nmem_used_max 1", 3, Cause::Range),
    ("read 4294967296 1", 1, Cause::Range),
    ("discard 0 0", 1, Cause::Range),
    ("write 0 2049 hex 00", 1, Cause::Range),
    ("disksize 4K\nactor\nschedule 0*0", 3, Cause::Range),
    ("disksize 4K\nactor\nschedule 0 1", 3, Cause::Range),
    ("disksize 4K\nactor\nschedule 0*16777217", 3, Cause::Range),
    ("schedule 0", 1, Cause::Range),
    ("read 0 1", 1, Cause::Order),
    ("disksize 4K\nactor\ndisksize 4K", 3, Cause::Order),
    ("disksize 4K\nactor\nschedule 0\nread 0 1", 4, Cause::Order),
    ("disksize 4K\nactor\nschedule 0\nactor", 4, Cause::Order),
    ("compact", 1, Cause::Order),
    ("disksize 4K\nactor\nrun\ncompact", 4, Cause::Order),
    ("disksize 4K\nactor\nschedule 0\ncompact", 4, Cause::Order),
    ("disksize 4K\nactor\nread 0 1", 2, Cause::Order),
    ("disksize 4K\nactor\nactor\n\n", 2, Cause::Order),
    ("disksize 4K\nactor\nmem_limit 0", 3, Cause::Order),
    (
        "disksize 4K\nactor\nread 0 1\nmem_limit 4K",
        4,
        Cause::Order,
    ),
    ("disksize 4K\nactor\nmem_used_max 0", 3, Cause::Order),
    ("backing 1\ndisksize 4K\nactor\nbacking 1", 4, Cause::Order),
    ("disksize 4K\nactor\nschedule 0\nbacking 1", 4, Cause::Order),
    ("disksize 4K\nactor\nread 0 1\nbd_stat", 4, Cause::Order),
    ("disksize 4K\nactor\nmm_stat", 3, Cause::Order),
    ("disksize 4K\nactor\nread 0 1\nio_stat", 4, Cause::Order),
    ("disksize 4K\nactor\nactor\nstates", 4, Cause::Order),
    ("disksize 4K\nactor\nschedule 0\nclasses", 4, Cause::Order),
    (
        "disksize 4K\ndisksize 8K\nactor\nread 0 1\ndisksize 4K",
        5,
        Cause::Order,
    ),
    ("actor", 1, Cause::NoDisk),
    ("run\nactor\nstop", 2, Cause::NoDisk),
    ("mem_limit 4K\nactor\nrun", 2, Cause::NoDisk),
    ("backing 4096\nactor\nrun\ndisksize 4K", 2, Cause::NoDisk),
    ("mem_used_max 0\nactor\nrun", 2, Cause::NoDisk),
    ("bd_stat\nactor\nrun", 2, Cause::NoDisk),
    ("classes\nactor\nrun", 2, Cause::NoDisk),
    (
        "disksize 4K\nactor\nschedule 0*16777216\nschedule 0",
        4,
        Cause::TooMany,
    ),
];

#[test]
fn tells_faults(rt: HostRuntime) -> Result<(), Fail> {
    for (text, line, cause) in FAULTY {
        let wanted = Some(JobFault { line, cause });
        assert_eq!(rt; fault_in(rt.alloc(), text)?, wanted, "at {text}");
    }
    Ok(())
}

#[test]
fn tells_faults_of_times(rt: HostRuntime) -> Result<(), Fail> {
    let table = [
        ("clock", 1, Cause::Word),
        ("clock 1 1", 1, Cause::Word),
        ("clock 5\nCLOCK 6", 2, Cause::Word),
        ("idle", 1, Cause::Word),
        ("idle all 1", 1, Cause::Word),
        ("disksize 4K\nactor\nidle 5 6", 3, Cause::Word),
        ("clock 1s", 1, Cause::Number),
        ("clock 5\nclock -1", 2, Cause::Number),
        ("idle ALL", 1, Cause::Number),
        ("idle 1K", 1, Cause::Number),
        ("disksize 4K\nactor\nidle every", 3, Cause::Number),
        ("clock 18446744073709551616", 1, Cause::Range),
        ("clock 5\nclock 4", 2, Cause::Range),
        ("clock 5\nclock 6\nrun\nclock 5", 4, Cause::Range),
        ("clock 1\ndisksize 4K\nactor\nclock 0", 4, Cause::Range),
        ("idle 18446744073709551616", 1, Cause::Range),
        (
            "disksize 4K\nactor\nidle 99999999999999999999",
            3,
            Cause::Range,
        ),
        ("clock 5\ndisksize 4K\nactor\nclock 5", 4, Cause::Order),
        ("disksize 4K\nactor\nidle 0\nclock 1", 4, Cause::Order),
        ("idle all", 1, Cause::Order),
        ("disksize 4K\nactor\nrun\nidle 5", 4, Cause::Order),
        ("disksize 4K\nactor\nschedule 0\nidle all", 4, Cause::Order),
        ("clock 5\nactor\nidle all\nrun", 2, Cause::NoDisk),
    ];
    for (text, line, cause) in table {
        let wanted = Some(JobFault { line, cause });
        assert_eq!(rt; fault_in(rt.alloc(), text)?, wanted, "at {text}");
    }
    Ok(())
}

#[test]
fn tells_faults_of_writebacks(rt: HostRuntime) -> Result<(), Fail> {
    let table = [
        ("writeback", 1, Cause::Word),
        ("writeback all", 1, Cause::Word),
        ("disksize 4K\nWRITEBACK idle", 2, Cause::Word),
        ("disksize 4K\nactor\nwriteback", 3, Cause::Word),
        ("disksize 4K\nactor\nwriteback IDLE", 3, Cause::Word),
        ("disksize 4K\nactor\nwriteback 5", 3, Cause::Word),
        ("disksize 4K\nactor\nwriteback idle huge", 3, Cause::Word),
        ("disksize 4K\nactor\nwriteback hugeidle", 3, Cause::Word),
        ("disksize 4K\nactor\nwriteback huge_idl", 3, Cause::Word),
        ("writeback idle", 1, Cause::Order),
        ("backing 1\ndisksize 4K\nwriteback huge", 3, Cause::Order),
        (
            "disksize 4K\nactor\nrun\nwriteback huge_idle",
            4,
            Cause::Order,
        ),
        (
            "disksize 4K\nactor\nschedule 0\nwriteback idle",
            4,
            Cause::Order,
        ),
        ("backing 1\nactor\nwriteback idle\nrun", 2, Cause::NoDisk),
    ];
    for (text, line, cause) in table {
        let wanted = Some(JobFault { line, cause });
        assert_eq!(rt; fault_in(rt.alloc(), text)?, wanted, "at {text}");
    }
    Ok(())
}

#[test]
fn tells_faults_of_budgets(rt: HostRuntime) -> Result<(), Fail> {
    let table = [
        ("writeback_limit", 1, Cause::Word),
        ("writeback_limit 1 1", 1, Cause::Word),
        ("writeback_limit x 1", 1, Cause::Word),
        ("run\nWRITEBACK_LIMIT 1", 2, Cause::Word),
        ("writeback_limits 1", 1, Cause::Word),
        ("disksize 4K\nactor\nwriteback_limit", 3, Cause::Word),
        ("writeback_limit_enable", 1, Cause::Word),
        ("writeback_limit_enable 0 1", 1, Cause::Word),
        ("run\nwriteback_limit_enabl 1", 2, Cause::Word),
        ("disksize 4K\nactor\nwriteback_limit_enable", 3, Cause::Word),
        ("writeback_limit 1K", 1, Cause::Number),
        ("writeback_limit -1", 1, Cause::Number),
        ("writeback_limit none", 1, Cause::Number),
        ("disksize 4K\nactor\nwriteback_limit 0x1", 3, Cause::Number),
        ("writeback_limit_enable on", 1, Cause::Number),
        ("writeback_limit_enable -0", 1, Cause::Number),
        (
            "disksize 4K\nactor\nwriteback_limit_enable true",
            3,
            Cause::Number,
        ),
        (
            "writeback_limit 4294967296\nwriteback_limit 4294967297",
            2,
            Cause::Range,
        ),
        ("writeback_limit 18446744073709551615", 1, Cause::Range),
        ("writeback_limit 18446744073709551616", 1, Cause::Range),
        (
            "disksize 4K\nactor\nwriteback_limit 4294967297",
            3,
            Cause::Range,
        ),
        ("writeback_limit_enable 2", 1, Cause::Range),
        (
            "writeback_limit_enable 1\nwriteback_limit_enable 10",
            2,
            Cause::Range,
        ),
        (
            "writeback_limit_enable 18446744073709551617",
            1,
            Cause::Range,
        ),
        (
            "disksize 4K\nactor\nwriteback_limit_enable 3",
            3,
            Cause::Range,
        ),
        ("disksize 4K\nactor\nwriteback_limit 1", 3, Cause::Order),
        (
            "disksize 4K\nactor\nschedule 0\nwriteback_limit 1",
            4,
            Cause::Order,
        ),
        (
            "disksize 4K\nactor\nwriteback_limit_enable 1",
            3,
            Cause::Order,
        ),
        (
            "disksize 4K\nactor\nread 0 1\nwriteback_limit_enable 0",
            4,
            Cause::Order,
        ),
        ("writeback_limit 1\nactor\nrun", 2, Cause::NoDisk),
        ("writeback_limit_enable 1\nactor\nrun", 2, Cause::NoDisk),
    ];
    for (text, line, cause) in table {
        let wanted = Some(JobFault { line, cause });
        assert_eq!(rt; fault_in(rt.alloc(), text)?, wanted, "at {text}");
    }
    Ok(())
}

// 64 bytes that say nothing.
const COMMENT: &str = "###############################################################\n";

fn push_repeated(text: &mut String, line: &str, times: u32) -> Result<(), AllocError> {
    for _ in 0..times {
        text.push_str(line)?;
    }
    Ok(())
}

#[test]
fn tells_limits(rt: HostRuntime) -> Result<(), Fail> {
    // before, a line so many times, after it; and the line at which a limit is passed
    let table = [
        ("", "run\n", 1000, "", None),
        ("", "run\n", 1000, "run\n", Some(1001)),
        ("", "mm_stat\nmem_limit 4K\nrun\n", 1000, "classes\n", None),
        ("disksize 4K\n", "run\n", 1000, "actor\n", Some(1002)),
        ("disksize 4K\n", "actor\n", 64, "run\n", None),
        ("disksize 4K\n", "actor\n", 65, "run\n", Some(66)),
        (
            "disksize 4K\nactor\n",
            "read 0 2048\n",
            129,
            "run\n",
            Some(131),
        ),
        (
            "disksize 4K\nactor\n",
            "discard 0 2048\n",
            4097,
            "run\n",
            Some(4099),
        ),
        (
            "disksize 4K\nactor\n",
            "compact\n",
            1_000_001,
            "run\n",
            Some(1_000_003),
        ),
        ("disksize 1G\nactor\n", "idle all\n", 64, "run\n", None),
        ("disksize 1G\nactor\n", "idle 5\n", 65, "run\n", Some(67)),
        (
            "disksize 1G\nactor\nidle 5\n",
            "writeback huge\n",
            64,
            "run\n",
            Some(67),
        ),
        (
            "disksize 8K\ndisksize 1G\nactor\n",
            "idle all\n",
            100,
            "compact\nread 0 1\nrun\n",
            None,
        ),
        (
            "disksize 1G\ndisksize 4K\nactor\nidle 5\nrun\nactor\n",
            "idle all\n",
            64,
            "run\n",
            Some(70),
        ),
        ("", COMMENT, 262_144, "", None),
        ("stop\n", COMMENT, 262_144, "", Some(0)),
    ];
    for (before, line, times, after, wanted) in table {
        let mut text = String::new(rt.alloc());
        text.push_str(before)?;
        push_repeated(&mut text, line, times)?;
        text.push_str(after)?;
        let wanted = wanted.map(|line| JobFault {
            line,
            cause: Cause::TooMany,
        });
        assert_eq!(rt; fault_in(rt.alloc(), &text)?, wanted, "at {line}");
    }
    assert_eq!(rt; MOST_BYTES, 16_777_216);
    Ok(())
}

fn op_shown(alloc: Global, op: &Op) -> Result<String, AllocError> {
    match op {
        Op::Write {
            start,
            count,
            stuff,
        } => {
            let stuff = stuff_shown(alloc, stuff)?;
            format!(in alloc; "write {start} {count} {stuff}; ")
        }
        Op::Read { start, count } => format!(in alloc; "read {start} {count}; "),
        Op::Discard { start, count } => format!(in alloc; "discard {start} {count}; "),
        Op::Idle { age: None } => format!(in alloc; "idle all; "),
        Op::Idle { age: Some(age) } => format!(in alloc; "idle {age}; "),
        Op::Writeback { mode } => {
            let mode = mode_shown(*mode);
            format!(in alloc; "writeback {mode}; ")
        }
        Op::Compact => format!(in alloc; "compact; "),
    }
}

fn mode_shown(mode: Mode) -> &'static str {
    match mode {
        Mode::Idle => "idle",
        Mode::Huge => "huge",
        Mode::HugeIdle => "both",
    }
}

// The first two bytes and the last one stand for all.
fn stuff_shown(alloc: Global, stuff: &Stuff) -> Result<String, AllocError> {
    match stuff {
        Stuff::Fill(word) => format!(in alloc; "fill {word:x}"),
        Stuff::Seq { base, step } => format!(in alloc; "seq {base:x} {step:x}"),
        Stuff::Hex(bytes) => match bytes.as_slice() {
            [a, b, middle @ .., last] => {
                let more = middle.len();
                format!(in alloc; "hex {a:02x} {b:02x} and {more} to {last:02x}")
            }
            _ => format!(in alloc; "hex of few bytes"),
        },
    }
}

fn ops_shown(alloc: Global, ops: &ActorOps) -> Result<String, AllocError> {
    let mut shown = String::new(alloc);
    shown.push_str("actor; ")?;
    for op in ops.as_slice() {
        let op = op_shown(alloc, op)?;
        shown.push_str(&op)?;
    }
    Ok(shown)
}

fn actors_shown(alloc: Global, text: &PhaseText) -> Result<String, AllocError> {
    let mut shown = String::new(alloc);
    for ops in text.actors.as_slice() {
        let ops = ops_shown(alloc, ops)?;
        shown.push_str(&ops)?;
    }
    Ok(shown)
}

fn phase_shown(alloc: Global, text: &PhaseText) -> Result<String, AllocError> {
    let mut shown = actors_shown(alloc, text)?;
    for turns in text.schedule.as_slice() {
        let (actor, times) = (turns.actor, turns.times);
        let turns = format!(in alloc; "{actor}*{times}; ")?;
        shown.push_str(&turns)?;
    }
    shown.push_str("run; ")?;
    Ok(shown)
}

fn attr_shown(alloc: Global, attr: Attr) -> Result<String, AllocError> {
    match attr {
        Attr::DiskPages(pages) => format!(in alloc; "pages {pages}; "),
        Attr::LimitPages(pages) => format!(in alloc; "limit {pages}; "),
        Attr::Backing(blocks) => format!(in alloc; "backing {blocks}; "),
        Attr::WritebackLimit(units) => format!(in alloc; "budget {units}; "),
        Attr::WritebackLimitEnable(on) => format!(in alloc; "budgeted {on}; "),
        Attr::Clock(seconds) => format!(in alloc; "clock {seconds}; "),
        Attr::LowerMax => format!(in alloc; "lower; "),
    }
}

fn item_shown(alloc: Global, item: &Item) -> Result<String, AllocError> {
    match item {
        Item::Attr(attr) => attr_shown(alloc, *attr),
        Item::Report(report) => format!(in alloc; "{report:?}; "),
        Item::Phase(text) => phase_shown(alloc, text),
    }
}

fn job_shown(alloc: Global, job: &Job) -> Result<String, AllocError> {
    let mut shown = String::new(alloc);
    for item in job.as_slice() {
        let item = item_shown(alloc, item)?;
        shown.push_str(&item)?;
    }
    Ok(shown)
}

// What a job says, in one form; the word `fault` where the text is none.
fn text_shown(alloc: Global, text: &str) -> Result<String, AllocError> {
    match read_job(alloc, text.as_bytes()) {
        Ok(job) => job_shown(alloc, &job),
        Err(ReadFault::Bad(_)) => format!(in alloc; "fault"),
        Err(ReadFault::Memory(e)) => Err(e),
    }
}

#[test]
fn reads_values(rt: HostRuntime) -> Result<(), Fail> {
    let mut hex = String::new(rt.alloc());
    hex.push_str("disksize 4K\nactor\nwrite 1 1 hex 0 1fF\tab")?;
    push_repeated(&mut hex, "Ab", 508)?;
    hex.push_str(" 7f # the last\nrun\n")?;
    let table = [
        ("disksize 5K\nrun\n", "pages 2; run; "),
        (
            "disksize 1M\nactor\nwrite 4294967295 2048 fill Ff\nread 007 1\nrun\nactor\nrun",
            "pages 256; actor; write 4294967295 2048 fill ff; read 7 1; run; actor; run; ",
        ),
        (
            "disksize 4095\nactor\nactor\nwrite 0 2 seq 10 ffffffffffffffff\ndiscard 8 9\nrun",
            "pages 1; actor; actor; write 0 2 seq 10 ffffffffffffffff; discard 8 9; run; ",
        ),
        (
            "disksize 4K\nactor\nactor\nschedule 0*2 1*16777213\nschedule 0 # last\nrun\nrun",
            "pages 1; actor; actor; 0*2; 1*16777213; 0*1; run; run; ",
        ),
        (
            "disksize 4K\nactor\ncompact\nread 0 1\n\tcompact # again\nschedule 0*2\nrun",
            "pages 1; actor; compact; read 0 1; compact; 0*2; run; ",
        ),
        (
            "mem_limit 0\nmem_limit 1\nmem_limit 4096\nmem_limit 4097\nmem_limit 1073741824k\n",
            "limit 0; limit 1; limit 1; limit 2; limit 268435456; ",
        ),
        (
            "mem_used_max 0\ndisksize 4K\nmm_stat\nmem_used_max 000",
            "lower; pages 1; MmStat; lower; ",
        ),
        (
            "backing 1\nbacking 65536\ndisksize 4K\nbd_stat\nbacking 010\ndisksize 8K\nactor\nrun",
            "backing 1; backing 65536; pages 1; BdStat; backing 10; pages 2; actor; run; ",
        ),
        (
            "clock 007\ndisksize 4K\nactor\nidle all\nidle 010\nidle 0\nrun\nclock 7\nclock 8",
            "clock 7; pages 1; actor; idle all; idle 10; idle 0; run; clock 7; clock 8; ",
        ),
        (
            "backing 1\ndisksize 4K\nactor\nwriteback idle\n\twriteback huge # now\nwriteback huge_idle\nrun",
            "backing 1; pages 1; actor; writeback idle; writeback huge; writeback both; run; ",
        ),
        (
            "writeback_limit 007\ndisksize 4K\nwriteback_limit_enable 1\nwriteback_limit 4294967296\nwriteback_limit_enable 00",
            "budget 7; pages 1; budgeted true; budget 4294967296; budgeted false; ",
        ),
        (
            "clock 18446744073709551615\ndisksize 4K\nactor\nidle 18446744073709551615\nrun",
            "clock 18446744073709551615; pages 1; actor; idle 18446744073709551615; run; ",
        ),
        (
            "mm_stat\ndisksize 4K\nmem_limit 5K\nio_stat\nactor\nrun\nstates\nclasses\nmm_stat",
            "MmStat; pages 1; limit 2; IoStat; actor; run; States; Classes; MmStat; ",
        ),
        (
            hex.as_str(),
            "pages 1; actor; write 1 1 hex 01 ff and 509 to 7f; run; ",
        ),
    ];
    for (text, wanted) in table {
        let shown = text_shown(rt.alloc(), text)?;
        assert_eq!(rt; shown.as_str(), wanted, "at {text}");
    }
    Ok(())
}
