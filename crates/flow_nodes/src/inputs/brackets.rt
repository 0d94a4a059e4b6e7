// What a scanner passes over that counts brackets.

ghost use Rattle.std.specs.Prelude.{◌≡◌, ℕ, ◌+◌, ◌<◌, ◌≤◌, ◌^◌, List, length};
ghost use Rattle.snesl_values.specs.Marks.{sign_mark};
ghost use Rattle.flow_nodes.specs.declared.inputs.turns.Component.{Component};
ghost use Rattle.flow_nodes.specs.declared.inputs.turns.Leaf.{Leaf};
ghost use Rattle.flow_nodes.specs.inputs.Turns.{state, depth_of};
ghost use Rattle.flow_nodes.specs.inputs.Scans.{LeavesSame};
ghost use Rattle.flow_nodes.specs.inputs.Passing.{depth_after, SameLeft};

use crate::inputs::turns::Mode;
use snesl_values::{Mark, sign_mark};

// How many brackets are open after this byte, if a scanner passes over it. It does not where the
// byte closes the brackets in which it stands, and at a comma outside the brackets that it counts,
// unless it passes over commas.
#[inline(always)]
fn depth_after(byte: u8, depth: usize, passes_commas: bool) -> Option<usize>
    requires { depth + 1 < 2 ^ 64 }
    ensures { result ≡ depth_after (sign_mark byte) depth passes_commas }
{
    match sign_mark(byte) {
        Mark::Open(_) => Some(depth + 1),
        Mark::Close(_) => { if depth == 0 { None } else { Some(depth - 1) } }
        Mark::Comma => {
            if depth == 0 && !passes_commas {
                None
            } else {
                Some(depth)
            }
        }
        _ => Some(depth),
    }
}

// The offset after the bytes that a scanner passes over from here on, with so many brackets open,
// and how many are open there.
#[inline(always)]
fn past_brackets(text: &[u8], from: usize, opened: usize, passes_commas: bool) -> (usize, usize)
    requires within { from ≤ length text.now }
    requires shallow { opened ≤ from }
    ensures same { SameLeft text.now passes_commas from opened result.0 result.1 }
    ensures from { from ≤ result.0 }
    ensures within { result.0 ≤ length text.now }
    ensures shallow { result.1 ≤ result.0 }
{
    let mut at = from;
    let mut depth = opened;
    'bytes: while at < text.len() {
        match depth_after(text[at], depth, passes_commas) {
            Some(behind) => {
                depth = behind;
                at += 1;
            }
            None => return (at, depth),
        }
    }
    (at, depth)
}

// The offset after what a scanner passes over from here on, and where it stands then. It counts
// brackets byte by byte. A token that begins in the bytes between ends in them.
#[inline(always)]
pub(crate) fn past(text: &[u8], mode: Mode, at: usize) -> (usize, Mode)
    requires within { at ≤ length text.now }
    requires shallow { depth_of mode ≤ at }
    ensures same { LeavesSame text.now at mode result.0 result.1 }
    ensures from { at ≤ result.0 }
    ensures within { result.0 ≤ length text.now }
    ensures shallow { depth_of result.1 ≤ result.0 }
{
    match mode {
        Mode::Passing(depth) => {
            let (end, depth) = past_brackets(text, at, depth, false);
            (end, Mode::Passing(depth))
        }
        Mode::Counting(depth) => {
            let (end, depth) = past_brackets(text, at, depth, false);
            (end, Mode::Counting(depth))
        }
        Mode::Within(depth) => {
            let (end, depth) = past_brackets(text, at, depth, true);
            (end, Mode::Within(depth))
        }
        _ => (at, mode),
    }
}
