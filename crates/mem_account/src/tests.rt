//! Values of Linux's zram and edges of the limit, worked out by hand.

use crate::{Account, Charge, Delta, IoStat, MmStat, Weight};

const NOTHING: MmStat = MmStat {
    orig: 0,
    compr: 0,
    used: 0,
    limit: 0,
    max: 0,
    same: 0,
    compacted: 0,
    huge: 0,
    huge_since: 0,
};

#[test]
fn weights_show_in_mm_stat(rt: HostRuntime) {
    let mut account = Account::new();
    account.count(Delta::Kept {
        old: Weight::Empty,
        new: Weight::Packed(1120),
    });
    let packed = MmStat {
        orig: 4096,
        compr: 1120,
        ..NOTHING
    };
    assert_eq!(rt; account.mm_stat(), packed);
    account.count(Delta::Kept {
        old: Weight::Packed(1120),
        new: Weight::Huge,
    });
    let huge = MmStat {
        orig: 4096,
        compr: 4096,
        huge: 1,
        huge_since: 1,
        ..NOTHING
    };
    assert_eq!(rt; account.mm_stat(), huge);
    account.count(Delta::Kept {
        old: Weight::Huge,
        new: Weight::Back,
    });
    let back = MmStat {
        orig: 4096,
        huge_since: 1,
        ..NOTHING
    };
    assert_eq!(rt; account.mm_stat(), back);
    account.count(Delta::Kept {
        old: Weight::Back,
        new: Weight::Same,
    });
    let same = MmStat { same: 1, ..back };
    assert_eq!(rt; account.mm_stat(), same);
}

#[test]
fn events_show_in_their_fields(rt: HostRuntime) {
    let mut account = Account::new();
    account.count(Delta::FailedRead);
    account.count(Delta::FailedWrite);
    account.count(Delta::FailedWrite);
    account.count(Delta::InvalidIo);
    account.count(Delta::NotifyFree);
    account.count(Delta::Compacted(3));
    let events = IoStat {
        failed_reads: 1,
        failed_writes: 2,
        invalid_io: 1,
        notify_free: 1,
    };
    assert_eq!(rt; account.io_stat(), events);
    let compacted = MmStat {
        compacted: 3,
        ..NOTHING
    };
    assert_eq!(rt; account.mm_stat(), compacted);
}

#[test]
fn limit_has_its_edge_where_it_is_reached(rt: HostRuntime) {
    for (limit, need, fits) in [(0, 2, true), (1, 2, false), (2, 2, true), (1, 0, true)] {
        let mut account = Account::default();
        account.set_limit(limit);
        let answer = if fits {
            Charge::Charged
        } else {
            Charge::AtLimit {
                pages: 0,
                need,
                limit,
            }
        };
        assert_eq!(rt;
            account.charge(need),
            answer,
            "{need} frames at the limit {limit}"
        );
        let used = if fits { 4096 * need } else { 0 };
        assert_eq!(rt;
            account.mm_stat().max,
            used,
            "{need} frames at the limit {limit}"
        );
    }
}

#[test]
fn maximum_falls_to_what_is_charged(rt: HostRuntime) {
    for (charged, given_back, most) in [(0, 0, 0), (3, 0, 12288), (3, 1, 8192), (3, 3, 0)] {
        let mut account = Account::new();
        account.charge(charged);
        account.give_back(given_back);
        assert_eq!(rt; account.mm_stat().max, 4096 * charged);
        account.lower_max();
        assert_eq!(rt;
            account.mm_stat().max,
            most,
            "{given_back} of {charged} frames given back"
        );
        account.charge(1);
        assert_eq!(rt; account.mm_stat().max, most + 4096);
    }
}
