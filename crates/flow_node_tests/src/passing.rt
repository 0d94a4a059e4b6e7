// Nodes that pass blocks on, each by itself.

use flow_base::Transducer;
use flow_messages::Kind;
use flow_samples::{block, node_of};
use std::test::Fail;

// What a new node does with a block of scalars, each of which stands for a number. `End` is the last of it where it closes.
#[derive(Clone, Copy)]
struct Pass {
    node: &'static str,
    kind: Kind,
    numbers: &'static [i128],
    closes: bool,
    // Whether it passes the block on.
    passes: bool,
    // What the other block holds then, which held 7.
    out_kind: Kind,
    out: &'static [i128],
    out_closes: bool,
}

// Whether the node does what the row tells.
fn holds<T: Transducer>(node: &mut T, row: Pass) -> bool {
    if matches!(row.kind, Kind::Vec) || matches!(row.out_kind, Kind::Vec) {
        return false;
    }
    let read = block(row.kind, row.numbers, row.closes);
    let mut out = block(row.out_kind, &[7], false);
    if node.kind_in(0) != row.kind {
        return false;
    }
    node.pass(&read, &mut out) == row.passes
        && out.as_slice() == block(row.out_kind, row.out, row.out_closes).as_slice()
}

const PASSES: [Pass; 9] = [
    Pass {
        node: "const 5",
        kind: Kind::Unit,
        numbers: &[0, 0],
        closes: false,
        passes: true,
        out_kind: Kind::Int,
        out: &[5, 5],
        out_closes: false,
    },
    Pass {
        node: "const 5",
        kind: Kind::Unit,
        numbers: &[0],
        closes: true,
        passes: true,
        out_kind: Kind::Int,
        out: &[5],
        out_closes: true,
    },
    Pass {
        node: "sink int",
        kind: Kind::Int,
        numbers: &[1, 2],
        closes: false,
        passes: true,
        out_kind: Kind::Int,
        out: &[],
        out_closes: false,
    },
    // It has no output to which it could write the end.
    Pass {
        node: "sink int",
        kind: Kind::Int,
        numbers: &[1],
        closes: true,
        passes: true,
        out_kind: Kind::Int,
        out: &[],
        out_closes: false,
    },
    Pass {
        node: "units_of",
        kind: Kind::Bool,
        numbers: &[0, 0, 1, 0],
        closes: false,
        passes: true,
        out_kind: Kind::Unit,
        out: &[0, 0, 0],
        out_closes: false,
    },
    Pass {
        node: "units_of",
        kind: Kind::Bool,
        numbers: &[1],
        closes: true,
        passes: true,
        out_kind: Kind::Unit,
        out: &[],
        out_closes: true,
    },
    Pass {
        node: "fork int 2",
        kind: Kind::Int,
        numbers: &[3, 4],
        closes: false,
        passes: true,
        out_kind: Kind::Int,
        out: &[3, 4],
        out_closes: false,
    },
    Pass {
        node: "fork int 2",
        kind: Kind::Int,
        numbers: &[3],
        closes: true,
        passes: true,
        out_kind: Kind::Int,
        out: &[3],
        out_closes: true,
    },
    Pass {
        node: "iota",
        kind: Kind::Int,
        numbers: &[2],
        closes: true,
        passes: false,
        out_kind: Kind::Int,
        out: &[7],
        out_closes: false,
    },
];

#[test]
fn blocks_that_nodes_pass_on(rt: HostRuntime) -> Result<(), Fail> {
    for row in PASSES {
        let mut node = node_of(rt.alloc(), row.node, 0)?;
        assert!(rt; holds(&mut node, row), "{}", row.node);
    }
    Ok(())
}
