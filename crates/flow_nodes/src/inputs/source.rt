// Sources whose items are scanned from a text.

ghost use Rattle.std.specs.Prelude.{◌≡◌, ◌<◌, ◌≤◌, ◌^◌, ℕ, List, length, take, IfOk, OnOk, OnErr, IsOk, true, false};
ghost use Rattle.std.specs.List.{All};
ghost use Rattle.std.specs.Arc.{arc_value};
ghost use Rattle.snesl_data.specs.Types.{ty_of};
ghost use Rattle.flow_messages.specs.Cells.{cell_of, is_of};
ghost use Rattle.flow_messages.specs.Blocks.{flag_signals, int_signals};
ghost use Rattle.flow_messages.specs.Ends.{SameEnds};
ghost use Rattle.flow_messages.specs.Kinds.{TakesKind};
ghost use Rattle.flow_messages.specs.Signals.{signal_of};
ghost use Rattle.flow_messages.specs.declared.message.Kind.TheVariants.{Vec as VecKind};
ghost use Rattle.flow_base.specs.Visits.{Visited, BrokeOff};
ghost use Rattle.flow_base.specs.Impls.{KeepsState, ReadsAs, takes_memory_at};
ghost use Rattle.flow_values.specs.Flats.{width};
ghost use Rattle.flow_scalar.specs.SourceBehaviour.{source_opening, source_behaviour};
ghost use Rattle.flow_nodes.specs.inputs.Left.{left, cell};
ghost use Rattle.snesl_values.specs.Places.{value_at};
ghost use Rattle.flow_nodes.specs.inputs.Turns.{depth_of};
ghost use Rattle.flow_nodes.specs.inputs.Ways.{way_to, leaf_at};
ghost use Rattle.flow_nodes.specs.inputs.Items.{items_from, leaf_kind, opening_state, IsRest};
ghost use Rattle.flow_nodes.specs.inputs.Sends.{Sends};

use crate::inputs::scanner::{BLOCK, flags_ahead, ints_ahead, scan};
use crate::inputs::turns::{Component, Leaf, Mode, Piece, State};
use crate::inputs::ways::{add_way, kept_type_at};
use flow_base::{Port, Side, Transducer, put_in_space};
use flow_messages::{Ends, Item, Items, Msg};
use flow_values::item_of_type;
use kahn::Want;
use snesl_data::{Datum, Elements, Ty};
use snesl_values::datum_at;
use std::alloc::{AllocError, Global};
use std::sync::Arc;

/// Reads no message. It writes what a value puts on one edge of its type, and then the end. The
/// value is spelled by a text, which others may share.
///
/// It scans the text forward. Only a vector takes memory. Where memory is refused, nothing is
/// written, and the same item comes next.
#[derive(Drop)]
pub struct TextSource {
    alloc: Global,
    text: Arc<Vec<u8>>,
    // Where the value begins, and the way from its type to the edge.
    place: usize,
    way: Vec<Component>,
    leaf: Leaf,
    // The type of the elements of the vectors there, where it is kept.
    of: Option<Arc<Ty>>,
    // How far it has read, and in what state.
    at: usize,
    state: State,
    // Whether the end was written.
    ended: bool,
    ghost inside: { at ≤ length (arc_value text).items },
    ghost shallow: { depth_of state.mode ≤ at },
    ghost rest: { IsRest (left (arc_value text).items way.items leaf place opening_state)
        (left (arc_value text).items way.items leaf at state) },
}

impl TextSource {
    ghost use Rattle.flow_nodes.specs.inputs.TextSources.{items_in, text_source_state};
    ghost use Rattle.flow_nodes.specs.inputs.SourceSteps.{OutputTakes, SourceIsPlaced, SourceSends, SourceWent, items_on_edge};

    /// A source that has written nothing, for the edge of this number, counted from 0. It will write
    /// what a value puts on that edge, where the text spells a value of the type `ty` from `place`
    /// on, an offset in bytes from the start of the text. The place must not be after the end of
    /// the text, and the type must have fewer than 2^64 edges.
    ///
    /// # Errors
    ///
    /// `AllocError` where memory is refused.
    pub fn new(
        alloc: Global,
        text: Arc<Vec<u8>>,
        place: usize,
        ty: &Ty,
        edge: usize,
    ) -> Result<TextSource, AllocError>
        requires inside { place ≤ length (arc_value text).items }
        requires fits { width (ty_of ty.now) < 2 ^ 64 }
        ensures opens { IfOk result (λ n. text_source_state n ≡ source_opening (items_in n)) }
        ensures items { IfOk result (λ n. items_in n ≡ items_on_edge text ty.now edge place) }
    {
        let mut way = Vec::new(alloc);
        let leaf = add_way(&mut way, ty, edge)?;
        let of = kept_type_at(alloc, ty, edge)?;
        Ok(TextSource {
            alloc,
            text,
            place,
            way,
            leaf,
            of,
            at: place,
            state: State {
                level: 0,
                mode: Mode::Value,
            },
            ended: false,
        })
    }

    // Scans the integers that come next, at most so many, and goes on after them. How many.
    #[inline(always)]
    fn scan_ints(&mut self, ints: &mut [i64; BLOCK], most: usize) -> usize
        requires sending { self.old.ended ≡ false }
        requires block { most ≤ 16 }
        ensures sending { self.new.ended ≡ false }
        ensures most { result ≤ most }
        ensures long { length ints.new ≡ 16 }
        ensures sends { SourceSends self.old (int_signals (take result ints.new)) self.new }
    {
        let (at, state) = (self.at, self.state);
        let ahead = ints_ahead(&self.text, &self.way, self.leaf, at, state, ints, most);
        self.at = ahead.at;
        self.state = ahead.state;
        ahead.count
    }

    // Scans the truth values that come next, at most so many, and goes on after them. How many.
    #[inline(always)]
    fn scan_flags(&mut self, flags: &mut [bool; BLOCK], most: usize) -> usize
        requires sending { self.old.ended ≡ false }
        requires block { most ≤ 16 }
        ensures sending { self.new.ended ≡ false }
        ensures most { result ≤ most }
        ensures long { length flags.new ≡ 16 }
        ensures sends { SourceSends self.old (flag_signals (take result flags.new)) self.new }
    {
        let (at, state) = (self.at, self.state);
        let ahead = flags_ahead(&self.text, &self.way, self.leaf, at, state, flags, most);
        self.at = ahead.at;
        self.state = ahead.state;
        ahead.count
    }

    // Writes items in blocks while room is certain, at most so many. How many: none where vectors
    // come, or the end.
    #[inline(always)]
    fn write_blocks<E: Ends>(&mut self, outputs: &[usize], ends: &mut E, most: usize) -> usize
        requires one { length outputs.now ≡ 1 }
        requires writes { All (λ e. (E.view ends.old).writes e ≡ true) outputs.now }
        requires kind { OutputTakes (E.view ends.old) outputs.now (leaf_kind self.old.leaf) }
        ensures same { E.same ends.old ends.new }
        ensures ends { SameEnds (E.view ends.old) (E.view ends.new) }
        ensures within { result ≤ most }
        ensures went { SourceWent E.Ends outputs.now self.old ends.old self.new ends.new result }
    {
        if self.ended {
            return 0;
        }
        let (edge, leaf) = (outputs[0], self.leaf);
        let mut ints = [0i64; BLOCK];
        let mut flags = [false; BLOCK];
        let mut made = 0;
        while made < most {
            let room = ends.space(edge).min(most - made).min(BLOCK);
            let items = match leaf {
                Leaf::Ints => {
                    let count = self.scan_ints(&mut ints, room);
                    Items::Ints(&ints[..count])
                }
                Leaf::Flags | Leaf::Bools => {
                    let count = self.scan_flags(&mut flags, room);
                    Items::Flags(&flags[..count])
                }
                Leaf::Vectors => Items::Nothing,
            };
            let count = items.len();
            if count == 0 {
                break;
            }
            ends.put_all(edge, items);
            made += count;
        }
        made
    }

    // Writes one message after another while room is certain, at most `chunk`. Whether it wrote any.
    #[inline(always)]
    fn write_singly<E: Ends>(
        &mut self,
        inputs: &[usize],
        outputs: &[usize],
        ends: &mut E,
        chunk: usize,
    ) -> Result<bool, AllocError>
        requires some { 0 < chunk }
        requires placed { SourceIsPlaced inputs.now outputs.now self.old (E.view ends.old) }
        ensures same { E.same ends.old ends.new }
        ensures ends { SameEnds (E.view ends.old) (E.view ends.new) }
        ensures visited { IfOk result (λ any. Visited inputs.now outputs.now source_behaviour
            (text_source_state self.old) (E.view ends.old)
            (text_source_state self.new) (E.view ends.new) any) }
        ensures broke { OnErr result (BrokeOff inputs.now outputs.now source_behaviour
            (text_source_state self.old) (E.view ends.old)
            (text_source_state self.new) (E.view ends.new)) }
    {
        let edge = outputs[0];
        let mut moved = false;
        for _ in 0..chunk {
            if self.ended {
                break;
            }
            if !ends.room(edge) {
                break;
            }
            let message = self.emit()?;
            put_in_space(ends, edge, message);
            moved = true;
        }
        Ok(moved)
    }
}

// The item that a piece is, in memory of its own. Only a vector takes memory. It is empty where the text spells none. Its
// elements are known to be of this type where they are.
fn item_of(
    alloc: Global,
    text: &[u8],
    piece: Piece,
    of: &Option<Arc<Ty>>,
) -> Result<Item, AllocError>
    ensures ok { IfOk result (λ item. cell_of item ≡ cell (value_at text.now) piece) }
    ensures scalar { is_of VecKind (cell (value_at text.now) piece) ≡ false → IsOk result }
{
    match piece {
        Piece::Flag(truth) => Ok(Item::Bool(truth)),
        Piece::Int(number) => Ok(Item::Int(number)),
        Piece::VectorAt(place) => {
            let elements = match datum_at(alloc, text, place)? {
                Datum::Vec(all) => all,
                _ => Elements::of_data(alloc, Vec::new(alloc))?,
            };
            item_of_type(of, elements)
        }
    }
}

impl Transducer for TextSource {
    ghost use Rattle.flow_scalar.specs.SourceBehaviour.{SourceState};
    ghost use Rattle.flow_scalar.specs.laws.Source.{source_laws};
    ghost use Rattle.flow_nodes.specs.inputs.TextSources.{text_source_state};

    ghost State = { SourceState };

    ghost state = { text_source_state };

    ghost behaviour = { source_behaviour };

    ghost laws = { source_laws };

    fn want(&self) -> Want {
        if self.ended {
            Want::Ended
        } else {
            Want::Write(0)
        }
    }

    fn port(&self, side: Side, _number: usize) -> Port {
        let count = match side {
            Side::In => 0,
            Side::Out => 1,
        };
        Port {
            count,
            kind: self.leaf.kind(),
        }
    }

    fn give(&mut self, _port: usize, message: Msg) -> Result<(), AllocError>
        ensures ok { OnOk result (ReadsAs ⟦<TextSource as Transducer>⟧ self.old message self.new) }
        ensures err { OnErr result (KeepsState ⟦<TextSource as Transducer>⟧ self.old self.new) }
        ensures sure { takes_memory_at ⟦<TextSource as Transducer>⟧ self.old ≡ false → IsOk result }
    {
        Ok(())
    }

    fn emit(&mut self) -> Result<Msg, AllocError> {
        let found = scan(&self.text, &self.way, self.leaf, self.at, self.state);
        match found.piece {
            Some(piece) => {
                let item = item_of(self.alloc, &self.text, piece, &self.of)?;
                self.at = found.at;
                self.state = found.state;
                Ok(Msg::Item(item))
            }
            None => {
                self.ended = true;
                Ok(Msg::End)
            }
        }
    }

    // Items that take no memory are written in blocks. The end, and vectors, are written singly.
    #[inline(never)]
    fn run<E: Ends>(
        &mut self,
        inputs: &[usize],
        outputs: &[usize],
        ends: &mut E,
        chunk: usize,
    ) -> Result<bool, AllocError> {
        if self.write_blocks(outputs, ends, chunk) > 0 {
            return Ok(true);
        }
        self.write_singly(inputs, outputs, ends, chunk)
    }
}
