//! The numbers of the table, and the edges of the fullness groups.

use crate::{ClassTable, group, size};
use std::process::Abort;

fn rows_hold(rt: &impl Abort, table: &ClassTable, rows: &[(u8, u32, u32, u32, u8)]) {
    for (class, bytes, frames, cells, stands) in rows {
        let class = *class;
        assert!(rt; class < 255);
        assert_eq!(rt; size(class), *bytes);
        assert_eq!(rt; table.chain(class), *frames);
        assert_eq!(rt; table.per(class), *cells);
        assert_eq!(rt; table.stands_as(class), *stands);
    }
}

#[test]
fn table_rows(rt: HostRuntime) {
    let four = ClassTable::new(4);
    let rows = [
        (0, 32, 1, 128, 0),
        (69, 1136, 2, 7, 71),
        (70, 1152, 2, 7, 71),
        (71, 1168, 2, 7, 71),
        (94, 1536, 3, 8, 94),
        (95, 1552, 2, 5, 100),
        (100, 1632, 2, 5, 100),
        (165, 2672, 2, 3, 168),
        (166, 2688, 2, 3, 168),
        (167, 2704, 2, 3, 168),
        (168, 2720, 2, 3, 168),
        (202, 3264, 4, 5, 202),
        (203, 3280, 1, 1, 254),
        (254, 4096, 1, 1, 254),
    ];
    rows_hold(&rt, &four, &rows);
    assert_eq!(rt; four.class_for(1120), 71);
    assert_eq!(rt; four.class_for(3256), 202);
    rows_hold(&rt, &ClassTable::new(5), &[(211, 3408, 5, 6, 211)]);
    rows_hold(
        &rt,
        &ClassTable::new(8),
        &[(69, 1136, 5, 18, 69), (225, 3632, 8, 9, 225)],
    );
    rows_hold(
        &rt,
        &ClassTable::new(16),
        &[(203, 3280, 13, 16, 206), (238, 3840, 15, 16, 238)],
    );
}

#[test]
fn group_edges(rt: HostRuntime) {
    let edges = [
        (0, 7, 0),
        (1, 7, 2),
        (6, 7, 9),
        (7, 7, 11),
        (1, 1, 11),
        (1, 11, 1),
        (10, 11, 10),
        (9, 100, 1),
        (10, 100, 2),
        (19, 100, 2),
        (20, 100, 3),
        (30, 100, 4),
        (40, 100, 5),
        (50, 100, 6),
        (60, 100, 7),
        (70, 100, 8),
        (80, 100, 9),
        (90, 100, 10),
        (99, 100, 10),
        (100, 100, 11),
    ];
    for (used, per, expected) in edges {
        assert!(rt; 1 <= per && used <= per && per <= 4096);
        assert_eq!(rt; group(used, per), expected);
    }
}
