// Blocks of the messages that an edge is certain to give next.
ghost use Rattle.std.specs.Prelude.{◌≡◌, ◌<◌, ◌≤◌, true, length};
ghost use Rattle.flow_messages.specs.Flats.{flat_signals};
ghost use Rattle.flow_networks.specs.Blocks.{ComeNext, ComeNextAtAny};

use flow_messages::{Block, Ends, Flat, Kind, Msg};

/// The messages of the port's kind that the edge is certain to give next, as far as the ends show them, or the end of
/// the stream. None is taken.
pub fn messages_ahead<E: Ends>(ends: &E, edge: usize, kind: Kind, most: usize) -> Block
    requires reads { (E.view ends.now).reads edge ≡ true }
    requires some { 0 < most }
    requires room { most ≤ 64 }
    ensures next { ComeNext kind ((E.view ends.now).coming edge) (flat_signals result.items) }
    ensures most { length result.items ≤ most }
{
    let items = items_ahead(ends, edge, kind, most);
    if items.is_empty() {
        return end_ahead(ends, edge);
    }
    items
}

/// The items of this kind that the edge is certain to give next, as far as the ends show them.
fn items_ahead<E: Ends>(ends: &E, edge: usize, kind: Kind, most: usize) -> Block
    requires reads { (E.view ends.now).reads edge ≡ true }
    requires room { most ≤ 64 }
    ensures next { ComeNext kind ((E.view ends.now).coming edge) (flat_signals result.items) }
    ensures most { length result.items ≤ most }
{
    let items = ends.shown(edge);
    let mut block = Block::new();
    for at in 0..items.len().min(most) {
        let message = items.message(at);
        match (&message, Flat::of(&message)) {
            (Msg::Item(item), Some(flat)) if kind.fits(item) => block.push(flat),
            _ => break,
        }
    }
    block
}

/// The end of the stream, where it is certain to come next and the ends show it.
fn end_ahead<E: Ends>(ends: &E, edge: usize) -> Block
    requires { (E.view ends.now).reads edge ≡ true }
    ensures next { ComeNextAtAny ((E.view ends.now).coming edge) (flat_signals result.items) }
    ensures most { length result.items ≤ 1 }
{
    let mut block = Block::new();
    if let Some(Msg::End) = ends.front(edge) {
        block.push(Flat::End);
    }
    block
}
