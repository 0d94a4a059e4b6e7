// Boxes meet where the messages are carried.
use crate::meetings::meeting::Meeting;
use flow_boxes::{Boxes, carry, carry_own};

impl Meeting for Boxes {
    ghost use Rattle.flow_shares.specs.meetings.BoxMeetings.{BoxesJoin, box_slots, BoxesMeet, BoxesStay, boxes_join_ends, boxes_meet_refl, boxes_meet_kept, boxes_meet_slots, boxes_meet_same, boxes_same_stay, boxes_stay_trans, boxes_join_writer, boxes_join_reader, boxes_stay_joined, boxes_keep_slots};

    ghost joins = { BoxesJoin };

    ghost slots = { box_slots };

    ghost meets = { BoxesMeet };

    ghost stays = { BoxesStay };

    fn meet_with(&mut self, other: &mut Boxes, edge: usize) {
        carry(self, other, edge);
    }

    fn meet_own(&mut self, edge: usize) {
        carry_own(self, edge);
    }

    ghost join_ends = { boxes_join_ends };

    ghost meets_refl = { boxes_meet_refl };

    ghost meets_kept = { boxes_meet_kept };

    ghost meets_slots = { boxes_meet_slots };

    ghost meets_stays = { boxes_meet_same };

    ghost same_stays = { boxes_same_stay };

    ghost stays_trans = { boxes_stay_trans };

    ghost join_writer = { boxes_join_writer };

    ghost join_reader = { boxes_join_reader };

    ghost stay_joined = { boxes_stay_joined };

    ghost keep_slots = { boxes_keep_slots };
}
