//! Vectors of pieces and words, the planned faults of the forms in memory, and the adapters over
//! std.

use crate::{
    Failed, MemSink, MemSource, PageIx, Piece, Sink, Source, StdSink, StdSource, Stuff, pieces,
};
use std::io;
use std::io::{ErrorKind, Read, Write};
use std::test::Fail;

#[test]
fn cuts_requests(rt: HostRuntime) -> Result<(), Fail> {
    // a request's start and count, and its pieces: page, first sector there, sectors
    let table: [(u64, u32, &[(u32, u8, u8)]); 5] = [
        (0, 0, &[]),
        (3, 2, &[(0, 3, 2)]),
        (7, 2, &[(0, 7, 1), (1, 0, 1)]),
        (8, 16, &[(1, 0, 8), (2, 0, 8)]),
        (4294967295, 1, &[(536870911, 7, 1)]),
    ];
    for (start, count, wanted) in table {
        let mut walk = pieces(start, count);
        for (page, first, count) in wanted {
            let piece = Piece {
                page: PageIx(*page),
                first: *first,
                count: *count,
            };
            assert_eq!(rt; walk.next(), Some(piece));
        }
        assert_eq!(rt; walk.next(), None);
    }
    Ok(())
}

#[test]
fn counts_words_up(rt: HostRuntime) {
    let stuff = Stuff::Seq {
        base: u64::MAX - 64,
        step: 1,
    };
    let mut sector = [0; 512];
    stuff.sector(1, &mut sector);
    let (words, _) = sector.as_chunks::<8>();
    assert_eq!(rt; words.len(), 64);
    assert_eq!(rt; u64::from_le_bytes(words[0]), u64::MAX);
    assert_eq!(rt; u64::from_le_bytes(words[63]), 62);
}

#[test]
fn reads_fail_by_plan(rt: HostRuntime) -> Result<(), Fail> {
    let mut source = MemSource::new(rt.alloc(), b"job", &[1, 3])?;
    let mut into = [0; 2];
    assert_eq!(rt; source.read(&mut into), Err(Failed));
    assert_eq!(rt; source.read(&mut into), Ok(2));
    assert_eq!(rt; source.read(&mut into), Err(Failed));
    assert_eq!(rt; source.read(&mut into), Ok(1));
    assert_eq!(rt; source.read(&mut into), Ok(0));
    assert_eq!(rt; source.faults(), 2);
    Ok(())
}

#[test]
fn writes_fail_by_plan(rt: HostRuntime) -> Result<(), Fail> {
    let mut sink = MemSink::new(rt.alloc(), 3, &[2])?;
    assert_eq!(rt; sink.write(b"op"), Ok(2));
    assert_eq!(rt; sink.write(b"op"), Err(Failed));
    assert_eq!(rt; sink.write(b"op"), Ok(1));
    assert_eq!(rt; sink.write(b"op"), Ok(0));
    assert_eq!(rt; sink.bytes(), b"opo".as_slice());
    assert_eq!(rt; sink.faults(), 1);
    Ok(())
}

/// A stream whose first call fails, and whose later ones give or take one byte.
#[derive(Drop)]
struct Faulty {
    has_failed: bool,
}

impl Faulty {
    fn turn(&mut self) -> io::Result<()> {
        if self.has_failed {
            return Ok(());
        }
        self.has_failed = true;
        Err(ErrorKind::Other.into())
    }
}

impl Read for Faulty {
    fn read(&mut self, buf: &mut [u8]) -> io::Result<usize> {
        self.turn()?;
        Ok(buf.len().min(1))
    }
}

impl Write for Faulty {
    fn write(&mut self, buf: &[u8]) -> io::Result<usize> {
        self.turn()?;
        Ok(buf.len().min(1))
    }

    fn flush(&mut self) -> io::Result<()> {
        Ok(())
    }
}

#[test]
fn counts_errors_of_a_reader(rt: HostRuntime) {
    let mut source = StdSource::new(Faulty { has_failed: false });
    let mut into = [0; 2];
    assert_eq!(rt; source.read(&mut into), Err(Failed));
    assert_eq!(rt; source.faults(), 1);
    assert_eq!(rt; source.read(&mut into), Ok(1));
}

#[test]
fn counts_errors_of_a_writer(rt: HostRuntime) {
    let mut sink = StdSink::new(Faulty { has_failed: false });
    assert_eq!(rt; sink.write(b"op"), Err(Failed));
    assert_eq!(rt; sink.faults(), 1);
    assert_eq!(rt; sink.write(b"op"), Ok(1));
}
