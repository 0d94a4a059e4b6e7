// The boxes of a share.
ghost use Rattle.std.specs.Prelude.{◌≡◌, length};
ghost use Rattle.flow_boxes.specs.Reserved.{OutboxesReserved, InboxesReserved};
ghost use Rattle.flow_boxes.specs.Kinds.{outbox_kind, inbox_kind, AreOfKinds};

use crate::inbox::Inbox;
use crate::outbox::Outbox;
use flow_messages::Kind;

/// Some writers' and some readers' boxes, each at the number of its edge, and for items of that edge's kind. No edge holds
/// more messages than the capacity.
#[derive(Drop)]
pub struct Boxes {
    pub(crate) kinds: Vec<Kind>,
    pub(crate) outboxes: Vec<Option<Outbox>>,
    pub(crate) inboxes: Vec<Option<Inbox>>,
    pub(crate) capacity: usize,
    ghost even: { length inboxes.items ≡ length outboxes.items },
    ghost each_kind: { length kinds.items ≡ length outboxes.items },
    ghost outboxes_reserved: { OutboxesReserved capacity outboxes.items },
    ghost inboxes_reserved: { InboxesReserved capacity inboxes.items },
    ghost outbox_kinds: { AreOfKinds outbox_kind kinds.items outboxes.items },
    ghost inbox_kinds: { AreOfKinds inbox_kind kinds.items inboxes.items },
}
