// How large networks are, and how many messages go over their edges. The numbers are counted by hand.

use flow_drives::Outcome;
use snesl_trials::{Done, ran_in_one_thread};
use std::alloc::{AllocError, Global};
use std::process::Abort;
use std::test::Fail;
use std::thread::Threads;

// How many nodes and edges a network has, and how many messages were sent and received over all of its edges.
type Size = (usize, usize, u64, u64);

fn size_of(done: &Done) -> Size {
    let (mut sent, mut received) = (0u64, 0u64);
    for &(put, taken) in &done.counts {
        sent = sent.saturating_add(put);
        received = received.saturating_add(taken);
    }
    (done.nodes, done.counts.len(), sent, received)
}

// Asserts that a program writes this line, and has a network of this size, whatever the edges hold.
fn assert_sized<R: Abort + Threads>(
    rt: &R,
    alloc: Global,
    program: &[u8],
    line: &[u8],
    size: Size,
) -> Result<(), AllocError> {
    for capacity in [1, 2, 4, 256] {
        for chunk in [1, 16] {
            let done = ran_in_one_thread(rt, alloc, program, b"", capacity, chunk)?;
            let told = (done.ending, done.written.as_slice(), size_of(&done));
            assert_eq!(rt; told, (Ok(Outcome::Value), line, size));
        }
    }
    Ok(())
}

// `a` doubles a number, and each of the other functions calls the one before it twice.
const ELEVEN_THAT_DOUBLE: &[u8] = b"\
function a(x : int) : int = x + x;
function b(x : int) : int = a(x) + a(x);
function c(x : int) : int = b(x) + b(x);
function d(x : int) : int = c(x) + c(x);
function e(x : int) : int = d(x) + d(x);
function f(x : int) : int = e(x) + e(x);
function g(x : int) : int = f(x) + f(x);
function h(x : int) : int = g(x) + g(x);
function i(x : int) : int = h(x) + h(x);
function j(x : int) : int = i(x) + i(x);
function k(x : int) : int = j(x) + j(x);
k(1)";

// A program, its line and the size of its network.
const SIZES: [(&[u8], &[u8], Size); 3] = [
    // Source, Const, Iota, Reduce and Print. Each stream has one reader: the control stream and the constant of one item and
    // the end, the flags of six and the end, the numbers of five and the end, and the sum of one and the end.
    (b"reduce_add(iota(5))", b"10\n", (5, 5, 19, 19)),
    // Source, Const, Iota, a Fork of its flags and one of its numbers, UnitsOf, whose Units go into a Sink, the product,
    // Reduce and Print. Over the edges go 2, 2, 7, 6, twice 7 from the first Fork, twice 6 from the second, 6, 6 and 2.
    (
        b"reduce_add({x * x : x in iota(5)})",
        b"30\n",
        (10, 11, 57, 57),
    ),
    // 2,047 sums, and beside them Source, Const, a Fork and Print. One item and the end go over each edge: two into each sum, and
    // one into each of the other three that read.
    (ELEVEN_THAT_DOUBLE, b"2048\n", (2_051, 4_097, 8_194, 8_194)),
];

#[test]
fn sizes_of_networks(rt: HostRuntime) -> Result<(), Fail> {
    for (program, line, size) in SIZES {
        assert_sized(&rt, rt.alloc(), program, line, size)?;
    }
    Ok(())
}
