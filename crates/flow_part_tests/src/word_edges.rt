// Both ends of an edge of words in one thread: what is put in slices and one by one comes in order.
use crate::messages::is_message;
use flow_boxes::Inbox;
use flow_messages::{Items, Kind, Msg};
use flow_words::{meet, same_ends_are_an_edge, what_came_is_in_turn, word_edge};
use std::test::Fail;

#[test]
fn units_come_over_an_edge_of_words(rt: HostRuntime) -> Result<(), Fail> {
    let (mut writer, mut reader) = word_edge(rt.alloc(), Kind::Unit, 4)?;
    let mut inbox = Inbox::new(rt.alloc(), Kind::Unit, 4)?;
    writer.put_all(Items::Units(3));
    let ended = writer.put(Msg::End).is_ok();
    assert_eq!(rt;
        (ended, writer.is_closed(), writer.sent_count()),
        (true, true, 4)
    );
    let more = reader.take_into(&mut inbox);
    assert_eq!(rt;
        (more, reader.received_count(), inbox.store.shown().units()),
        (true, 4, 3)
    );
    Ok(())
}

#[test]
fn truth_values_come_over_an_edge_of_words(rt: HostRuntime) -> Result<(), Fail> {
    let (mut writer, mut reader) = word_edge(rt.alloc(), Kind::Bool, 3)?;
    let mut inbox = Inbox::new(rt.alloc(), Kind::Bool, 3)?;
    writer.put_all(Items::Flags(&[true, false]));
    let more = reader.take_into(&mut inbox);
    assert_eq!(rt;
        (more, inbox.store.shown().flags()),
        (false, [true, false].as_slice())
    );
    assert!(rt; writer.takes(Kind::Bool) && !writer.takes(Kind::Int));
    Ok(())
}

#[test]
fn integers_come_over_an_edge_of_words(rt: HostRuntime) -> Result<(), Fail> {
    let (mut writer, mut reader) = word_edge(rt.alloc(), Kind::Int, 8)?;
    let mut inbox = Inbox::new(rt.alloc(), Kind::Int, 8)?;
    writer.put_all(Items::Ints(&[1, i64::MIN]));
    let more = reader.take_into(&mut inbox);
    let first = is_message(inbox.take(), Some(1));
    let second = is_message(inbox.take(), Some(i128::from(i64::MIN)));
    assert_eq!(rt; (more, first, second), (false, true, true));
    meet(&mut writer, &mut reader);
    let (room, space, fits) = (writer.room(), writer.space(), writer.room_for(9));
    assert_eq!(rt; (room, space, fits), (true, 8, false));
    Ok(())
}

#[test]
fn nothing_is_taken_where_nothing_was_put(rt: HostRuntime) -> Result<(), Fail> {
    let (writer, mut reader) = word_edge(rt.alloc(), Kind::Int, 1)?;
    let mut inbox = Inbox::new(rt.alloc(), Kind::Int, 1)?;
    reader.take_certain(&mut inbox);
    same_ends_are_an_edge();
    what_came_is_in_turn();
    assert_eq!(rt;
        (
            inbox.store.len(),
            writer.sent_count(),
            reader.received_count()
        ),
        (0, 0, 0)
    );
    Ok(())
}
