// Rings meet where their ends see each other.
use crate::meetings::meeting::Meeting;
use flow_edges::lanes::Rings;

impl Meeting for Rings {
    ghost use Rattle.flow_edges.specs.lanes.Rings.{SameRings};
    ghost use Rattle.flow_edges.specs.lanes.SameEnds.{same_rings_trans};
    ghost use Rattle.flow_edges.proofs.OfLanes.Meetings.{joins-kept};
    ghost use Rattle.flow_shares.specs.meetings.RingMeetings.{RingsJoin, ring_slots, RingsMeet, rings_join_ends, rings_meet_refl, rings_meet_kept, rings_meet_slots, rings_meet_same, rings_same_stay, rings_join_writer, rings_join_reader, rings_keep_slots};

    ghost joins = { RingsJoin };

    ghost slots = { ring_slots };

    ghost meets = { RingsMeet };

    ghost stays = { SameRings };

    fn meet_with(&mut self, other: &mut Rings, edge: usize) {
        Rings::meet_with(self, other, edge);
    }

    fn meet_own(&mut self, edge: usize) {
        Rings::meet_own(self, edge);
    }

    ghost join_ends = { rings_join_ends };

    ghost meets_refl = { rings_meet_refl };

    ghost meets_kept = { rings_meet_kept };

    ghost meets_slots = { rings_meet_slots };

    ghost meets_stays = { rings_meet_same };

    ghost same_stays = { rings_same_stay };

    ghost stays_trans = { same_rings_trans };

    ghost join_writer = { rings_join_writer };

    ghost join_reader = { rings_join_reader };

    ghost stay_joined = { joins-kept };

    ghost keep_slots = { rings_keep_slots };
}
