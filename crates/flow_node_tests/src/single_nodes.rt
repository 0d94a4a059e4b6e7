// Each transducer by itself, through its trait: the rows of the tables in `tables/`, as `bench.rt` writes them again.

use crate::bench::written_again;
use crate::tables::{PRINT, SCALARS, SEGMENTS, VALUES};
use std::alloc::Global;
use std::process::Abort;

// Whether a node does what its row tells.
fn holds(alloc: Global, row: &str) -> bool {
    match written_again(alloc, row) {
        Ok(again) => again.as_slice() == row.as_bytes(),
        Err(_) => false,
    }
}

// Asserts what the rows of a table tell. How many they are.
fn assert_rows(rt: &impl Abort, alloc: Global, table: &str) -> usize {
    let mut count = 0usize;
    for row in table.trim().split("\n\n") {
        if !row.starts_with('#') {
            assert!(rt; holds(alloc, row), "{row}");
            count = count.saturating_add(1);
        }
    }
    count
}

#[test]
fn tables(rt: HostRuntime) {
    let counts = [
        assert_rows(&rt, rt.alloc(), SCALARS),
        assert_rows(&rt, rt.alloc(), SEGMENTS),
        assert_rows(&rt, rt.alloc(), VALUES),
        assert_rows(&rt, rt.alloc(), PRINT),
    ];
    assert_eq!(rt; counts, [78, 32, 22, 24]);
}

const DO_NOT_HOLD: [&str; 13] = [
    "# a remark",
    "in .\nnode iota\nends",
    "node iotas\nends",
    "node fork int 1\nends",
    "node length\nends",
    "node scan_add three\nends",
    "node binary add\nends",
    "node iota\nin [7]\nends",
    "node iota\nin .\nout .\nout .",
    "node iota\nin .\nout .\nout .\nends\nends",
    "node iota\nin .\nin .\nout .\nout .\nends",
    "node iota\nin .\nout .\nout .\nout\nends",
    "node iota\nin .\nout .\nout .\nfaults Shape 7",
];

#[test]
fn rows_that_do_not_hold(rt: HostRuntime) {
    for row in DO_NOT_HOLD {
        assert!(rt; !holds(rt.alloc(), row), "{row}");
    }
    assert!(rt; holds(rt.alloc(), "node iota\nin .\nout .\nout .\nends"));
}
