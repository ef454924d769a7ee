//! The planned faults as tables, worked out by hand.

use crate::{Backing, Dev, MemBacking};
use std::test::Fail;
use zr_base::{Failed, Page};

#[test]
fn reads_fail_at_planned_calls(rt: HostRuntime) -> Result<(), Fail> {
    let mut device = MemBacking::new(rt.alloc(), 2, &[1, 3], &[])?;
    let mut page = Page::zero();
    page.put_bytes(&[7; 4096]);
    for (fails, faults, byte) in [(true, 1, 7), (false, 1, 0), (true, 2, 0), (false, 2, 0)] {
        assert_eq!(rt; device.blocks(), 2);
        assert_eq!(rt;
            device.read(1, &mut page) == Err(Failed),
            fails,
            "with {faults} faults"
        );
        assert_eq!(rt; device.faults(), faults);
        assert_eq!(rt; page.bytes()[4095], byte, "with {faults} faults");
    }
    Ok(())
}

#[test]
fn failed_writes_spoil_their_block(rt: HostRuntime) -> Result<(), Fail> {
    let mut device = MemBacking::new(rt.alloc(), 2, &[], &[2])?;
    let mut page = Page::zero();
    for (written, fails, byte) in [(5, false, 5), (6, true, 0xff), (7, false, 7)] {
        page.put_bytes(&[written; 4096]);
        assert_eq!(rt; device.blocks(), 2);
        assert_eq!(rt;
            device.write(0, &page) == Err(Failed),
            fails,
            "of {written}"
        );
        assert_eq!(rt; device.blocks(), 2);
        device
            .read(0, &mut page)
            .map_err(|_failed| "a read failed")?;
        assert_eq!(rt; page.bytes()[0], byte, "after the write of {written}");
    }
    Ok(())
}

#[test]
fn a_device_counts_what_succeeds(rt: HostRuntime) -> Result<(), Fail> {
    let mut memory = MemBacking::new(rt.alloc(), 1, &[2], &[1])?;
    let mut page = Page::zero();
    let mut device = Dev::new(&mut memory);
    assert_eq!(rt; device.write(0, &page), Err(1));
    assert_eq!(rt; device.write(0, &page), Ok(()));
    assert_eq!(rt; device.read(0, &mut page), Ok(()));
    assert_eq!(rt; device.read(0, &mut page), Err(2));
    assert_eq!(rt; (device.reads(), device.writes()), (1, 1));
    assert_eq!(rt; device.into_inner().faults(), 2);
    Ok(())
}
