// What is called at the ring ends that a share of a network owns.
ghost use Rattle.std.specs.Prelude.{◌≡◌, ◌≢◌, ◌<◌, ℕ, Some, None, length, slice_set, IfOk};
ghost use Rattle.flow_edges.specs.lanes.Rings.{ends_of, writer_at, reader_at, HasNoEndAt, HasNumbersBelow, JoinsEdge, OutOf, ToldAt, SameRings, Kept, RingsHaveMet};

use crate::lanes::ends::{LaneReader, LaneWriter};
use crate::lanes::meeting::meet_lane;
use crate::lanes::rings::Rings;
use flow_messages::{CountedEnds, Ends, Items, Kind, Msg, Refused};
use flow_rings::Held;
use std::alloc::{AllocError, Global};

impl Ends for Rings {
    ghost use Rattle.flow_edges.specs.lanes.Rings.{ends_of, SameRings, AllOut};
    ghost use Rattle.flow_edges.specs.lanes.SameEnds.{same_rings_refl, same_rings_trans};

    ghost view = { ends_of };

    ghost same = { SameRings };

    ghost all_out = { AllOut };

    fn has_writer(&self, edge: usize) -> bool {
        match self.writers.get(edge) {
            Some(Some(_)) => true,
            _ => false,
        }
    }

    fn has_reader(&self, edge: usize) -> bool {
        match self.readers.get(edge) {
            Some(Some(_)) => true,
            _ => false,
        }
    }

    fn takes(&self, edge: usize, kind: Kind) -> bool {
        match &self.writers[edge] {
            Some(writer) => writer.takes(kind),
            None => unreachable!(),
        }
    }

    #[inline(always)]
    fn room(&mut self, edge: usize) -> bool {
        match &mut self.writers[edge] {
            Some(writer) => writer.room(),
            None => unreachable!(),
        }
    }

    #[inline(always)]
    fn ready(&mut self, edge: usize) -> bool {
        match &mut self.readers[edge] {
            Some(reader) => reader.ready(),
            None => unreachable!(),
        }
    }

    #[inline(always)]
    fn scalar_is_next(&mut self, edge: usize) -> bool {
        match &mut self.readers[edge] {
            Some(reader) => reader.scalar_is_next(),
            None => unreachable!(),
        }
    }

    #[inline(always)]
    fn space(&mut self, edge: usize) -> usize {
        match &mut self.writers[edge] {
            Some(writer) => writer.space(),
            None => unreachable!(),
        }
    }

    #[inline(always)]
    fn front(&self, edge: usize) -> Option<&Msg> {
        match &self.readers[edge] {
            Some(reader) => reader.front(),
            None => unreachable!(),
        }
    }

    #[inline(always)]
    fn put(&mut self, edge: usize, message: Msg) -> Result<(), Refused> {
        match &mut self.writers[edge] {
            Some(writer) => writer.put(message),
            None => unreachable!(),
        }
    }

    #[inline(always)]
    fn take(&mut self, edge: usize) -> Option<Msg> {
        match &mut self.readers[edge] {
            Some(reader) => reader.take(),
            None => unreachable!(),
        }
    }

    #[inline(always)]
    fn shown(&self, edge: usize) -> Items<'_> {
        match &self.readers[edge] {
            Some(reader) => reader.shown(),
            None => unreachable!(),
        }
    }

    #[inline(always)]
    fn skip(&mut self, edge: usize, count: usize) {
        match &mut self.readers[edge] {
            Some(reader) => reader.skip(count),
            None => unreachable!(),
        }
    }

    fn put_all(&mut self, edge: usize, items: Items<'_>) {
        match &mut self.writers[edge] {
            Some(writer) => writer.put_all(items),
            None => unreachable!(),
        }
    }

    fn put_out(&mut self) {
        for edge in 0..self.writers.len() {
            self.put_out_at(edge);
        }
        for edge in 0..self.readers.len() {
            self.tell_at(edge);
        }
    }

    ghost same_refl = { same_rings_refl };

    ghost same_trans = { same_rings_trans };
}

impl CountedEnds for Rings {
    fn sent_count(&self, edge: usize) -> u64 {
        match &self.writers[edge] {
            Some(writer) => writer.sent_count(),
            None => unreachable!(),
        }
    }

    fn received_count(&self, edge: usize) -> u64 {
        match &self.readers[edge] {
            Some(reader) => reader.received_count(),
            None => unreachable!(),
        }
    }
}

impl Rings {
    /// No end at any of the numbers below `edges`. The room for the ends is reserved here, and the
    /// call is refused where there is no memory for it.
    pub fn none(alloc: Global, edges: usize) -> Result<Rings, AllocError>
        ensures count { IfOk result (HasNumbersBelow edges) }
        ensures free { IfOk result (λ rings. (e : ℕ) → HasNoEndAt rings e) }
    {
        let mut writers = Vec::with_capacity(alloc, edges)?;
        let mut readers = Vec::with_capacity(alloc, edges)?;
        for _ in 0..edges {
            writers.push(None)?;
            readers.push(None)?;
        }
        Ok(Rings { writers, readers })
    }

    /// Puts a writer at the number of its edge.
    pub fn put_writer(&mut self, edge: usize, writer: LaneWriter)
        requires there { edge < length self.old.writers.items }
        requires free { writer_at self.old edge ≡ None }
        ensures put { self.new.writers.items ≡ slice_set self.old.writers.items edge (Some writer) }
        ensures readers { self.new.readers.items ≡ self.old.readers.items }
    {
        self.writers[edge] = Some(writer);
    }

    /// Puts a reader at the number of its edge.
    pub fn put_reader(&mut self, edge: usize, reader: LaneReader)
        requires there { edge < length self.old.readers.items }
        requires free { reader_at self.old edge ≡ None }
        ensures put { self.new.readers.items ≡ slice_set self.old.readers.items edge (Some reader) }
        ensures writers { self.new.writers.items ≡ self.old.writers.items }
    {
        self.readers[edge] = Some(reader);
    }

    // The writer of one edge puts out what it gathered, where it is here.
    #[inline(always)]
    fn put_out_at(&mut self, edge: usize)
        requires { edge < length self.old.writers.items }
        ensures same { SameRings self.old self.new }
        ensures view { ends_of self.new ≡ ends_of self.old }
        ensures out { OutOf (writer_at self.new edge) }
        ensures others { (k : ℕ) → k ≢ edge → writer_at self.new k ≡ writer_at self.old k }
    {
        if let Some(writer) = &mut self.writers[edge] {
            writer.put_out();
        }
    }

    // The reader of one edge tells how many messages it took, where it is here.
    #[inline(always)]
    fn tell_at(&mut self, edge: usize)
        requires { edge < length self.old.readers.items }
        ensures same { SameRings self.old self.new }
        ensures view { ends_of self.new ≡ ends_of self.old }
        ensures told { ToldAt (reader_at self.new edge) }
        ensures others { (k : ℕ) → k ≢ edge → reader_at self.new k ≡ reader_at self.old k }
        ensures writers { self.new.writers.items ≡ self.old.writers.items }
    {
        if let Some(reader) = &mut self.readers[edge] {
            reader.tell();
        }
    }

    /// The writer that is here meets the reader that is there.
    pub fn meet_with(&mut self, other: &mut Rings, edge: usize) -> Held
        requires { JoinsEdge self.old other.old edge }
        ensures writer { SameRings self.old self.new }
        ensures reader { SameRings other.old other.new }
        ensures writer_kept { Kept (ends_of self.old) (ends_of self.new) }
        ensures reader_kept { Kept (ends_of other.old) (ends_of other.new) }
        ensures met { RingsHaveMet self.new other.new edge result }
        ensures joined { JoinsEdge self.new other.new edge }
    {
        match (&mut self.writers[edge], &mut other.readers[edge]) {
            (Some(writer), Some(reader)) => meet_lane(writer, reader),
            _ => unreachable!(),
        }
    }

    /// The writer and the reader of one edge meet, where both are here.
    pub fn meet_own(&mut self, edge: usize) -> Held
        requires { JoinsEdge self.old self.old edge }
        ensures same { SameRings self.old self.new }
        ensures kept { Kept (ends_of self.old) (ends_of self.new) }
        ensures met { RingsHaveMet self.new self.new edge result }
        ensures joined { JoinsEdge self.new self.new edge }
    {
        match (&mut self.writers[edge], &mut self.readers[edge]) {
            (Some(writer), Some(reader)) => meet_lane(writer, reader),
            _ => unreachable!(),
        }
    }
}
