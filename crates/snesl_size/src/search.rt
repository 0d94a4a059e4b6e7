// Searching for the least capacity.

ghost use Rattle.std.specs.Prelude.{◌+◌, ◌<◌, ◌≤◌, IfErr, IfOk};
ghost use Rattle.flow_messages.specs.Limits.{greatest_capacity};
ghost use Rattle.flow_drives.specs.Configs.{IsWithin};
ghost use Rattle.snesl_flatten.specs.network.NodesAtRest.{final_view};
ghost use Rattle.snesl_size.specs.Sizes.{IsLeft, IsRefusedAtAll, IsSizeOf};

use crate::laws::ending_stays;
use crate::size::Size;
use flow_drives::{Config, Drive, NoGate, Outcome, Rested};
use flow_messages::MAX_CAPACITY;
use flow_nodes::StreamNode;
use snesl_data::Refusal;
use snesl_flatten::network::drive_program;
use snesl_meaning::one_meaning;
use std::alloc::Global;
use std::sync::Arc;
use std::thread::Threads;

/// The least capacity at which a program ends for its input text, where it ends at one, or why it ends at none.
///
/// It is driven in one thread, each node with at most so many steps at a visit: at the capacities 1, 2, 4 and so on up to the
/// greatest, 65,536, until it does not stall, and then between the last two by halving. So at one message less than the least it has
/// stalled, and the edge that was full there is told too.
///
/// # Errors
///
/// As a run of it in one thread is refused: `BadConfig` where the chunk is not lawful, the refusals of the program and of its
/// input text, and `NoMemory`, at any time.
pub fn least_capacity<R: Threads>(
    rt: &R,
    alloc: Global,
    program: &[u8],
    input: &[u8],
    chunk: usize,
) -> Result<Size, Refusal>
    ensures size { IfOk result (IsSizeOf program.now input.now) }
    ensures refused { IfErr result (IsRefusedAtAll program.now input.now chunk) }
{
    ending_stays();
    one_meaning();
    let mut least = 1;
    let mut enough = MAX_CAPACITY + 1;
    let mut ended = None;
    let mut full = None;
    while least < enough {
        let capacity = next_capacity(least, enough);
        let rested = left_at(rt, alloc, program, input, chunk, capacity)?;
        match rested.outcome() {
            Outcome::Value => {
                enough = capacity;
                ended = Some(rested);
            }
            Outcome::Fault(fault) => return Ok(Size::Faults(fault)),
            Outcome::Stalled { edge } => {
                least = capacity + 1;
                full = Some(edge);
            }
        }
    }
    match ended {
        Some(rested) => Ok(Size::Ends {
            least,
            full,
            rested,
        }),
        None => Ok(Size::NeverEnds),
    }
}

// The capacity to be tried next, where one below `least` is not enough: twice the last one, as long as none is known that is
// enough, and then one in the middle.
fn next_capacity(least: usize, enough: usize) -> usize
    requires some { 1 ≤ least }
    requires left { least < enough }
    requires limit { enough ≤ greatest_capacity + 1 }
    ensures from { least ≤ result }
    ensures below { result < enough }
{
    if enough > MAX_CAPACITY {
        (2 * (least - 1)).max(1).min(MAX_CAPACITY)
    } else {
        least + (enough - least) / 2
    }
}

// The network of a program, driven in one thread at this capacity.
fn left_at<R: Threads>(
    rt: &R,
    alloc: Global,
    program: &[u8],
    input: &[u8],
    chunk: usize,
    capacity: usize,
) -> Result<Rested<StreamNode>, Refusal>
    requires { IsWithin greatest_capacity capacity }
    ensures left { IfOk result (λ rested. IsLeft program.now input.now capacity
        (final_view rested)) }
    ensures refused { IfErr result (IsRefusedAtAll program.now input.now chunk) }
{
    let config = Config {
        capacity,
        chunk,
        threads: 1,
        idle: 1,
        share: vec![in alloc; 0]?,
        drive: Drive::Serial,
    };
    let gate = Arc::new(alloc, NoGate)?;
    drive_program(rt, alloc, program, input, &config, gate)
}
