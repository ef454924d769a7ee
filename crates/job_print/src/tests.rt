//! Texts that are read and printed back, and texts with their first line that isn't one.

ghost use Rattle.std.specs.Prelude.{◌<◌, ◌^◌, length};
ghost use Rattle.std.specs.List.{AllByRecursion};
ghost use Rattle.job_print.specs.Proper.{IsProper};

use crate::{
    OutFault, OutLine, Refusal, print, put_class, put_device, put_op, put_order, put_refused,
    put_state, read_output,
};
use backing_dev::BdStat;
use size_class::ClassStat;
use std::alloc::{AllocError, Global};
use std::test::Fail;
use zr_base::{OpEnd, Tag};

fn printed(alloc: Global, lines: &[OutLine]) -> Result<Vec<u8>, AllocError>
    requires { AllByRecursion IsProper lines.now }
{
    let mut out = Vec::new(alloc);
    for line in lines {
        print(line, &mut out)?;
    }
    Ok(out)
}

// The text of the lines that a text is read as; the number of the first that isn't one.
fn read_back(alloc: Global, text: &[u8]) -> Result<Result<Vec<u8>, u32>, AllocError>
    requires { length text.now < 2 ^ 32 }
{
    match read_output(alloc, text) {
        Ok(lines) => Ok(Ok(printed(alloc, lines.as_slice())?)),
        Err(OutFault::Line(number)) => Ok(Err(number)),
        Err(OutFault::Memory(e)) => Err(e),
    }
}

fn is_text(back: &Result<Vec<u8>, u32>, text: &[u8]) -> bool {
    match back {
        Ok(out) => out.as_slice() == text,
        Err(_) => false,
    }
}

#[test]
fn prints_what_it_read(rt: HostRuntime) -> Result<(), Fail> {
    let table = [
        "",
        "usage: zramsim run | zramsim gen PAGES SEED\n",
        "job 0 toomany\n",
        "job 4294967295 word\njob 1 number\njob 2 range\njob 3 nodisk\njob 10 order\n",
        "op 0 0 ok\nop 63 999999 range\n",
        "op 0 1 limit 2 1 2 done 0\nop 4294967295 0 nomem done 4294967295\n",
        "op 0 0 eio 1 done 0\nop 0 1 eio 18446744073709551615 done 4294967295\n",
        "op 0 0 eio 12 done 1\nfill 00000000000000aa\norder 0 0:0\n",
        "op 1 2 compacted 0 0\nop 0 0 compacted 18446744073709551615 10\n",
        "op 0 0 marked 0\nop 3 1 marked 262144\nop 0 0 marked 4294967295\n",
        "op 0 0 wrote 0 lost 0\nop 3 1 wrote 4294967295 lost 10\nop 0 0 wrote 2 lost 4294967295\n",
        "op 0 0 budget wrote 0 lost 0\nop 1 0 budget wrote 4294967295 lost 4294967295\n",
        "op 0 0 noblock wrote 1 lost 0\nop 1 0 noblock wrote 0 lost 262144\nop 2 0 nobacking\n",
        "op 0 0 eio 1 wrote 0 lost 0\nop 0 1 eio 18446744073709551615 wrote 12 lost 4294967295\n",
        "fill 00000000000000aa\nfill 0123456789abcdef\n",
        "order 0 0:0 1:0\norder 262143 4294967295:4294967295\n",
        "mm_stat 4096 74 12288 0 18446744073709551615 0 0 0 1\nio_stat 0 10 100 99\n",
        "attr disksize busy\nattr backing range\nattr backing busy\nbd_stat 0 0 0\n",
        "bd_stat 3 18446744073709551615 10\nmm_stat 0 0 0 0 0 0 0 0 0\n",
        "state 0 s... 0\nstate 1 .w.. 5\nstate 2 ..hi 18446744073709551615\nstate 3 .... 7\n",
        "state 0 ...i 0\nstate 262143 ..h. 18446744073709551615\n",
        "class 71 1168 pages 2 per 7 used 1 zspages 1 groups 0 1 0 0 0 0 0 0 0 0 0\n",
    ];
    for text in table {
        let back = read_back(rt.alloc(), text.as_bytes())?;
        assert!(rt; is_text(&back, text.as_bytes()), "at {text}");
    }
    Ok(())
}

#[test]
fn tells_the_first_faulty_end(rt: HostRuntime) -> Result<(), Fail> {
    let table = [
        ("op 0 0 ok", 1),
        ("op 00 0 ok\n", 1),
        ("op 0 0  ok\n", 1),
        ("op 0 0 ok \n", 1),
        ("op 0 0 OK\n", 1),
        ("op 4294967296 0 ok\n", 1),
        ("op 0 0 ok\nop 0 1 nomem done\n", 2),
        ("op 0 0 ok\n\nop 0 1 ok\n", 2),
        ("op 0 0 eio 1\n", 1),
        ("op 0 0 eio done 0\n", 1),
        ("op 0 0 eio 1 done\n", 1),
        ("op 0 0 eio 01 done 0\n", 1),
        ("op 0 0 eio 1 lost 0\n", 1),
        ("op 0 0 eio 18446744073709551616 done 0\n", 1),
        ("op 0 0 eio 1 done 0\nop 0 1 eio 1 done 4294967296\n", 2),
        ("op 0 0 compacted 01 0\n", 1),
        ("op 0 0 compacted 0 18446744073709551616\n", 1),
        ("op 0 0 compacted 1\n", 1),
        ("op 0 0 marked\n", 1),
        ("op 0 0 marked 01\n", 1),
        ("op 0 0 marked 4294967296\n", 1),
        ("op 0 0 marked 1 2\n", 1),
        ("op 0 0 marks 1\n", 1),
        ("op 0 0 compacted 1 2\nop 0 1 compacted 1 2 3\n", 2),
    ];
    for (text, number) in table {
        let back = read_back(rt.alloc(), text.as_bytes())?;
        assert!(rt; matches!(back, Err(n) if n == number), "at {text}");
    }
    Ok(())
}

#[test]
fn tells_the_first_faulty_end_of_a_writeback(rt: HostRuntime) -> Result<(), Fail> {
    let table = [
        ("op 0 0 wrote\n", 1),
        ("op 0 0 wrote 1\n", 1),
        ("op 0 0 wrote 1 lost\n", 1),
        ("op 0 0 lost 1 wrote 0\n", 1),
        ("op 0 0 wrote 01 lost 0\n", 1),
        ("op 0 0 wrote 1 done 0\n", 1),
        ("op 0 0 wrote 4294967296 lost 0\n", 1),
        ("op 0 0 wrote 0 lost 4294967296\n", 1),
        ("op 0 0 wrote 1 lost 0 0\n", 1),
        ("op 0 0 budget\n", 1),
        ("op 0 0 budget 1 lost 0\n", 1),
        ("op 0 0 budget wrote 1 done 0\n", 1),
        ("op 0 0 noblocks wrote 1 lost 0\n", 1),
        ("op 0 0 nobacking wrote 0 lost 0\n", 1),
        ("op 0 0 nobacking\nop 0 1 nobackings\n", 2),
        ("op 0 0 eio 1 wrote 0\n", 1),
        ("op 0 0 eio wrote 1 lost 0\n", 1),
        ("op 0 0 eio 1 wrote 0 done 0\n", 1),
        ("op 0 0 eio 18446744073709551616 wrote 0 lost 0\n", 1),
        ("op 0 0 wrote 1 lost 0\nop 0 1 limit 1 wrote 1 lost 0\n", 2),
    ];
    for (text, number) in table {
        let back = read_back(rt.alloc(), text.as_bytes())?;
        assert!(rt; matches!(back, Err(n) if n == number), "at {text}");
    }
    Ok(())
}

#[test]
fn tells_the_first_faulty_line(rt: HostRuntime) -> Result<(), Fail> {
    let table = [
        ("\n", 1),
        ("fill AA00000000000000\n", 1),
        ("fill 0\n", 1),
        ("hex 00\n", 1),
        ("order 0\n", 1),
        ("order 0 0:0:0\n", 1),
        ("order 0 0\n", 1),
        ("mm_stat 0 0 0 0 0 0 0 0\n", 1),
        ("io_stat 0 0 0 18446744073709551616\n", 1),
        ("bd_stat 0 0\n", 1),
        ("bd_stat 0 0 0 0\n", 1),
        ("bd_stat 0 18446744073709551616 0\n", 1),
        ("attr backing busy\nattr disksize range\n", 2),
        ("attr disksize\n", 1),
        ("attr backing busy 1\n", 1),
        ("attr mem_limit busy\n", 1),
        ("attr  backing range\n", 1),
        ("state 0 .s.. 0\n", 1),
        ("state 0 ..ih 0\n", 1),
        ("state 0 ...I 0\n", 1),
        (
            "class 256 32 pages 1 per 1 used 0 zspages 0 groups 0 0 0 0 0 0 0 0 0 0 0\n",
            1,
        ),
        ("job 1 why\n", 1),
        ("usage: zramsim run\n", 1),
        ("usage: zramsim run | zramsim gen PAGES SEEDS\n", 1),
    ];
    for (text, number) in table {
        let back = read_back(rt.alloc(), text.as_bytes())?;
        assert!(rt; matches!(back, Err(n) if n == number), "at {text}");
    }
    Ok(())
}

#[test]
fn tells_sectors_by_their_words(rt: HostRuntime) -> Result<(), Fail> {
    let mut text = Vec::new(rt.alloc());
    let mut sector = [7; 512];
    let mut filled = [b'7'; 1029];
    for k in 0..512 {
        filled[4 + 2 * k] = b'0';
    }
    filled[..4].copy_from_slice(b"hex ");
    filled[1028] = b'\n';
    put_op(&mut text, Tag { actor: 0, op: 0 }, OpEnd::Ok, &[sector])?;
    assert!(rt; text.as_slice() == b"op 0 0 ok\nfill 0707070707070707\n".as_slice());
    let back = read_back(rt.alloc(), &filled)?;
    assert!(rt; matches!(back, Err(1)));
    sector[511] = 0xa0;
    filled[1026] = b'a';
    filled[1027] = b'0';
    text.clear();
    put_op(&mut text, Tag { actor: 0, op: 0 }, OpEnd::Ok, &[sector])?;
    assert!(rt; text.as_slice().ends_with(&filled));
    let back = read_back(rt.alloc(), &filled)?;
    assert!(rt; is_text(&back, &filled));
    Ok(())
}

#[test]
fn prints_parts(rt: HostRuntime) -> Result<(), Fail> {
    let mut out = Vec::new(rt.alloc());
    put_order(&mut out, 5, &[])?;
    put_state(&mut out, 1, b"s...", 0)?;
    put_state(&mut out, 2, b"....", 0)?;
    put_state(&mut out, 3, b"..h.", 12)?;
    put_state(&mut out, 4, b".w..", 0)?;
    put_state(&mut out, 5, b"...i", 1)?;
    put_state(&mut out, 6, b"..hi", 0)?;
    let device = BdStat {
        count: 1,
        reads: 0,
        writes: 12,
    };
    put_device(&mut out, &device)?;
    put_refused(&mut out, Refusal::DisksizeBusy)?;
    put_refused(&mut out, Refusal::BackingBusy)?;
    put_refused(&mut out, Refusal::BackingRange)?;
    let stat = ClassStat {
        class: 254,
        size: 4096,
        chain: 1,
        per: 1,
        used: 3,
        zspages: 3,
        groups: [0, 0, 0, 0, 0, 0, 0, 0, 0, 0, 3],
    };
    put_class(&mut out, &stat)?;
    let text = b"state 1 s... 0\nstate 2 .... 0\nstate 3 ..h. 12\n\
        state 4 .w.. 0\nstate 5 ...i 1\nstate 6 ..hi 0\nbd_stat 1 0 12\n\
        attr disksize busy\nattr backing busy\nattr backing range\n\
        class 254 4096 pages 1 per 1 used 3 zspages 3 groups 0 0 0 0 0 0 0 0 0 0 3\n";
    assert!(rt; out.as_slice() == text.as_slice());
    Ok(())
}
