// The table of a program's size.

ghost use Rattle.std.specs.Prelude.{◌≡◌, ◌++◌, IfOk, OnOk};
ghost use Rattle.snesl_flatten.specs.network.NodesAtRest.{final_view};
ghost use Rattle.snesl_size.specs.Tables.{AddsBusiest, AddsSizes, FindsBusiest, IsSizeTable, count_over, full_part, message_count, name_and_number};

use flow_drives::Rested;
use flow_nodes::StreamNode;
use itoa::Buffer;
use std::alloc::{AllocError, Global};

/// The table of a network that has ended at its least capacity: this capacity, how many nodes and edges there are, how many
/// messages went over all edges, the first of the edges over which most of them went, how many these are, and the edge that was full
/// where each held one message less. Each is a line, a name and a number. The error is that memory was refused.
pub fn size_table(
    alloc: Global,
    least: usize,
    full: Option<usize>,
    rested: &Rested<StreamNode>,
) -> Result<Vec<u8>, AllocError>
    ensures { IfOk result (λ table. IsSizeTable least full (final_view rested.now) table.items) }
{
    let mut table = Vec::new(alloc);
    append_sizes(&mut table, least, rested)?;
    append_busiest(&mut table, rested)?;
    append_full(&mut table, full)?;
    Ok(table)
}

// The lines of the busiest edge, if there is an edge.
fn append_busiest(table: &mut Vec<u8>, rested: &Rested<StreamNode>) -> Result<(), AllocError>
    ensures { OnOk result (AddsBusiest (final_view rested.now) table.old.items table.new.items) }
{
    match busiest(rested) {
        Some(edge) => {
            append_line(table, b"busiest edge: ", edge as u64)?;
            append_line(table, b"messages on it: ", rested.counts(edge).0)
        }
        None => Ok(()),
    }
}

// The line of the edge that was full, if there is one.
fn append_full(table: &mut Vec<u8>, full: Option<usize>) -> Result<(), AllocError>
    ensures { OnOk result (table.new.items ≡ table.old.items ++ full_part full) }
{
    match full {
        Some(edge) => append_line(table, b"full at one less: edge ", edge as u64),
        None => Ok(()),
    }
}

// The lines of all but the busiest edge.
fn append_sizes(
    table: &mut Vec<u8>,
    least: usize,
    rested: &Rested<StreamNode>,
) -> Result<(), AllocError>
    ensures { OnOk result (AddsSizes least (final_view rested.now) table.old.items table.new.items) }
{
    append_line(table, b"least capacity: ", least as u64)?;
    append_line(table, b"nodes: ", rested.nodes() as u64)?;
    append_line(table, b"edges: ", rested.edges() as u64)?;
    append_line(table, b"messages: ", messages(rested))
}

// How many messages went over all edges. The sum stays at `u64::MAX`.
fn messages(rested: &Rested<StreamNode>) -> u64
    ensures { result ≡ message_count (final_view rested.now) }
{
    let mut sum: u64 = 0;
    for edge in 0..rested.edges() {
        sum = sum.saturating_add(rested.counts(edge).0);
    }
    sum
}

// The first edge over which most messages went.
fn busiest(rested: &Rested<StreamNode>) -> Option<usize>
    ensures { FindsBusiest (final_view rested.now) result }
{
    let mut busiest = None;
    let mut most = 0;
    for edge in 0..rested.edges() {
        let count = rested.counts(edge).0;
        if busiest.is_none() || count > most {
            busiest = Some(edge);
            most = count;
        }
    }
    busiest
}

fn append_line(table: &mut Vec<u8>, name: &[u8], number: u64) -> Result<(), AllocError>
    ensures { OnOk result (table.new.items ≡ table.old.items ++ name_and_number name.now number) }
{
    let mut buffer = Buffer::new();
    table.extend_from_slice(name)?;
    table.extend_from_slice(buffer.format(number).as_bytes())?;
    table.extend_from_slice(b"\n")
}
