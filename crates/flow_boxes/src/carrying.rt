// What passes between two rounds.
ghost use Rattle.flow_boxes.specs.Contents.{contents};
ghost use Rattle.flow_boxes.specs.Rounds.{IsLinked, IsCarried, CarriesAt, CarriesFrom, CarriesTo};

use crate::boxes::Boxes;

/// Carries all messages of an edge from its writer's box to its reader's, in order, and tells the
/// writer its new room. The boxes lie in two shares.
pub fn carry(writer: &mut Boxes, reader: &mut Boxes, edge: usize)
    requires { IsLinked (contents writer.old) (contents reader.old) edge }
    ensures writer { CarriesFrom edge (contents writer.old) (contents writer.new) }
    ensures reader { CarriesTo edge (contents reader.old) (contents reader.new) }
    ensures carried { IsCarried (contents writer.new) (contents reader.new) edge }
    ensures linked { IsLinked (contents writer.new) (contents reader.new) edge }
{
    let capacity = writer.capacity;
    match (&mut writer.outboxes[edge], &mut reader.inboxes[edge]) {
        (Some(outbox), Some(inbox)) => outbox.carry_into(inbox, capacity),
        _ => unreachable!(),
    }
}

/// Carries all messages of an edge from its writer's box to its reader's, in order, and tells the
/// writer its new room. Both boxes lie in one share.
pub fn carry_own(boxes: &mut Boxes, edge: usize)
    requires { IsLinked (contents boxes.old) (contents boxes.old) edge }
    ensures others { CarriesAt edge (contents boxes.old) (contents boxes.new) }
    ensures carried { IsCarried (contents boxes.new) (contents boxes.new) edge }
    ensures linked { IsLinked (contents boxes.new) (contents boxes.new) edge }
{
    let capacity = boxes.capacity;
    match (&mut boxes.outboxes[edge], &mut boxes.inboxes[edge]) {
        (Some(outbox), Some(inbox)) => outbox.carry_into(inbox, capacity),
        _ => unreachable!(),
    }
}
