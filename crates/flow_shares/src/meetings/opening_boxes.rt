// Boxes of edges are opened.
use crate::meetings::opening::Opening;
use flow_boxes::Boxes;
use flow_messages::Kind;
use std::alloc::{AllocError, Global};

impl Opening for Boxes {
    ghost use Rattle.flow_shares.specs.meetings.BoxOpenings.{BoxesHavePlace, BoxesOpen, boxes_opens_refl, boxes_opens_place, boxes_opens_places, boxes_open_join_writer, boxes_open_join_reader};

    ghost has_place = { BoxesHavePlace };

    ghost opens = { BoxesOpen };

    fn none(alloc: Global, kinds: &[Kind], capacity: usize) -> Result<Boxes, AllocError> {
        Boxes::new(alloc, kinds, capacity)
    }

    fn open_with(
        &mut self,
        other: &mut Boxes,
        alloc: Global,
        edge: usize,
        _: Kind,
        _: usize,
    ) -> Result<(), AllocError> {
        self.open_writer(alloc, edge)?;
        other.open_reader(alloc, edge)
    }

    fn open_own(
        &mut self,
        alloc: Global,
        edge: usize,
        _: Kind,
        _: usize,
    ) -> Result<(), AllocError> {
        self.open_writer(alloc, edge)?;
        self.open_reader(alloc, edge)
    }

    ghost opens_refl = { boxes_opens_refl };

    ghost opens_place = { boxes_opens_place };

    ghost opens_places = { boxes_opens_places };

    ghost open_join_writer = { boxes_open_join_writer };

    ghost open_join_reader = { boxes_open_join_reader };
}
