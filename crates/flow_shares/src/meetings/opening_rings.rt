// Ends of edges are put among rings.
use crate::meetings::opening::Opening;
use flow_edges::lanes::{Rings, lane};
use flow_messages::Kind;
use std::alloc::{AllocError, Global};

// So many scalars are gathered in a writer whose reader is in another thread. Within a thread they would only come later.
const MOST_GATHERED: usize = 64;

impl Opening for Rings {
    ghost use Rattle.flow_shares.specs.meetings.RingOpenings.{RingsHavePlace, RingsOpen, rings_opens_refl, rings_opens_place, rings_opens_places, rings_open_join_writer, rings_open_join_reader};

    ghost has_place = { RingsHavePlace };

    ghost opens = { RingsOpen };

    fn none(alloc: Global, kinds: &[Kind], _: usize) -> Result<Rings, AllocError> {
        Rings::none(alloc, kinds.len())
    }

    fn open_with(
        &mut self,
        other: &mut Rings,
        alloc: Global,
        edge: usize,
        kind: Kind,
        capacity: usize,
    ) -> Result<(), AllocError> {
        let (writer, reader) = lane(alloc, kind, capacity, MOST_GATHERED)?;
        self.put_writer(edge, writer);
        other.put_reader(edge, reader);
        Ok(())
    }

    fn open_own(
        &mut self,
        alloc: Global,
        edge: usize,
        kind: Kind,
        capacity: usize,
    ) -> Result<(), AllocError> {
        let (writer, reader) = lane(alloc, kind, capacity, 0)?;
        self.put_writer(edge, writer);
        self.put_reader(edge, reader);
        Ok(())
    }

    ghost opens_refl = { rings_opens_refl };

    ghost opens_place = { rings_opens_place };

    ghost opens_places = { rings_opens_places };

    ghost open_join_writer = { rings_open_join_writer };

    ghost open_join_reader = { rings_open_join_reader };
}
