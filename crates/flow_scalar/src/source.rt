// The beginning of a stream whose items are there before the network runs.

ghost use Rattle.std.specs.Prelude.{◌≡◌, ◌<◌, false, IfOk, OnOk, OnErr, IsOk, IsSome, option_map};
ghost use Rattle.std.specs.List.{slice_get};
ghost use Rattle.snesl_data.specs.declared.dialect.Dialect.{Dialect};
ghost use Rattle.flow_messages.specs.Cells.{cell_of, is_of};
ghost use Rattle.flow_messages.specs.Signals.{signal_of};
ghost use Rattle.flow_base.specs.Ranges.{AllOf};
ghost use Rattle.flow_base.specs.Impls.{KeepsState, ReadsAs, takes_memory_at};
ghost use Rattle.flow_scalar.specs.Written.{SourceInRange, StreamInRange};
ghost use Rattle.flow_scalar.specs.Streams.{stream_kind, stream_cells, items_of};
ghost use Rattle.flow_scalar.specs.SourceBehaviour.{is_vector, source_opening, source_behaviour};

use flow_base::{Port, Side, Transducer};
use flow_messages::{Item, Kind, Msg};
use kahn::Want;
use snesl_data::Elements;
use std::alloc::AllocError;

/// The items of a stream, all of one kind.
#[derive(Debug, Drop)]
pub enum Stream {
    /// So many units.
    Units(usize),
    Bools(Vec<bool>),
    Ints(Vec<i128>),
    /// Vectors, by their elements.
    Vectors(Vec<Elements>),
}

impl Stream {
    /// The kind of its items.
    pub fn kind(&self) -> Kind
        ensures { result ≡ stream_kind self.now }
    {
        match self {
            Stream::Units(_) => Kind::Unit,
            Stream::Bools(_) => Kind::Bool,
            Stream::Ints(_) => Kind::Int,
            Stream::Vectors(_) => Kind::Vec,
        }
    }

    // An item that carries the same as the one at this index, counted from 0, or `None` past the last. Its only error is
    // that too many share a vector.
    fn item(&self, index: usize) -> Result<Option<Item>, AllocError>
        ensures ok { IfOk result (λ x. option_map cell_of x ≡
            slice_get (stream_cells self.now) index) }
        ensures within { IfOk result (λ item. IsSome item → index < usize.MAX) }
        ensures scalar { is_vector (slice_get (stream_cells self.now) index) ≡ false → IsOk result }
    {
        match self {
            Stream::Units(count) => Ok(if index < *count {
                Some(Item::Unit)
            } else {
                None
            }),
            Stream::Bools(all) => Ok(match all.get(index) {
                Some(truth) => Some(Item::Bool(*truth)),
                None => None,
            }),
            Stream::Ints(all) => Ok(match all.get(index) {
                Some(number) => Some(Item::Int(*number)),
                None => None,
            }),
            Stream::Vectors(all) => match all.get(index) {
                Some(elements) => Ok(Some(Item::of_elements(elements.share()?))),
                None => Ok(None),
            },
        }
    }
}

/// Reads nothing, and writes the items of a stream to its only output, and then the end. It has no fault.
///
/// It keeps its stream and writes copies, which share its vectors. Where a copy is refused, nothing was written, and the
/// same item is written next.
///
/// Row: `SourceRow` (specs/Rows.antt).
#[derive(Drop)]
pub struct Source {
    stream: Stream,
    // How many items were written.
    written: usize,
    // Whether the end was.
    ended: bool,
}

impl Source {
    /// A source that has written nothing. All that it writes is of the stream's kind, and lies in the range of each
    /// dialect where the integers of its stream do.
    #[tactic(auto, using(crate::specs::Streams::stream_all_of))]
    pub fn new(stream: Stream) -> Source
        ensures state { ⟦<Source as Transducer>⟧.state result ≡ source_opening (items_of stream) }
        ensures of_kind { AllOf (stream_kind stream) (stream_cells stream) }
        ensures in_range { (d : Dialect) → StreamInRange d stream → SourceInRange d stream }
    {
        Source {
            stream,
            written: 0,
            ended: false,
        }
    }
}

impl Transducer for Source {
    ghost use Rattle.flow_scalar.specs.SourceBehaviour.{SourceState, source_state};
    ghost use Rattle.flow_scalar.specs.laws.Source.{source_laws};

    ghost State = { SourceState };

    ghost state = { λ n. source_state n.stream n.written n.ended };

    ghost behaviour = { source_behaviour };

    ghost laws = { source_laws };

    fn want(&self) -> Want {
        if self.ended {
            Want::Ended
        } else {
            Want::Write(0)
        }
    }

    fn port(&self, side: Side, _number: usize) -> Port {
        let count = match side {
            Side::In => 0,
            Side::Out => 1,
        };
        Port {
            count,
            kind: self.stream.kind(),
        }
    }

    fn give(&mut self, _port: usize, message: Msg) -> Result<(), AllocError>
        ensures ok { OnOk result (ReadsAs ⟦<Source as Transducer>⟧ self.old message self.new) }
        ensures err { OnErr result (KeepsState ⟦<Source as Transducer>⟧ self.old self.new) }
        ensures sure { takes_memory_at ⟦<Source as Transducer>⟧ self.old ≡ false → IsOk result }
    {
        Ok(())
    }

    #[tactic(auto, using(crate::proofs::Sending::sends_end))]
    fn emit(&mut self) -> Result<Msg, AllocError> {
        match self.stream.item(self.written)? {
            Some(item) => {
                self.written += 1;
                Ok(Msg::Item(item))
            }
            None => {
                self.ended = true;
                Ok(Msg::End)
            }
        }
    }
}
