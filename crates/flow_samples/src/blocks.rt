// Blocks of scalars, by numbers.
ghost use Rattle.std.specs.Prelude.{◌≡◌, ◌≢◌, true, false};
ghost use Rattle.std.specs.List.{All};
ghost use Rattle.flow_messages.specs.declared.message.Kind.TheVariants.{Vec as VecKind};
ghost use Rattle.flow_messages.specs.Signals.{signals, signal_of, is_stop, orderly};
ghost use Rattle.flow_messages.specs.Kinds.{fits};
ghost use Rattle.flow_messages.specs.Flats.{message_of, messages_of};

use flow_messages::{Block, Flat, Kind};

// The item of this kind that stands for a number: of truth values `false` for 0.
fn flat(kind: Kind, number: i128) -> Flat
    requires scalar { kind ≢ VecKind }
    ensures fits { fits kind (signal_of (message_of result)) ≡ true }
    ensures item { is_stop (signal_of (message_of result)) ≡ false }
{
    match kind {
        Kind::Unit => Flat::Unit,
        Kind::Bool => Flat::Bool(number != 0),
        _ => Flat::Int(number),
    }
}

/// The block of the items of this kind that stand for these numbers, and of `End` where it closes, as far as it has room.
pub fn block(kind: Kind, numbers: &[i128], closes: bool) -> Block
    requires scalar { kind ≢ VecKind }
    ensures fit { All (λ x. fits kind (signal_of (message_of x)) ≡ true) result.items }
    ensures last { orderly (signals (messages_of result.items)) ≡ true }
{
    let mut block = Block::new();
    for &number in numbers {
        if block.is_full() {
            return block;
        }
        block.push(flat(kind, number));
    }
    if !closes || block.is_full() {
        return block;
    }
    block.push(Flat::End);
    block
}
