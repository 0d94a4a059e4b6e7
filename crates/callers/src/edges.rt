// Messages over an edge.
ghost use Rattle.std.specs.Prelude.{◌≡◌, IfOk};
ghost use Rattle.flow_edges.specs.Msg.TheVariants.{Item as ItemMsg, End as EndMsg};

use flow_edges::{Item, Msg, edge, meet, same_ends_are_an_edge};
use std::alloc::{AllocError, Global};

/// Two items and `End`, put on an edge and taken from it in order. An error where memory was refused.
pub fn messages(alloc: Global, first: Item, second: Item) -> Result<(Msg, Msg, Msg), AllocError>
    ensures first { IfOk result (λ taken. taken.0 ≡ ItemMsg first) }
    ensures second { IfOk result (λ taken. taken.1 ≡ ItemMsg second) }
    ensures end { IfOk result (λ taken. taken.2 ≡ EndMsg) }
{
    let (mut writer, mut reader) = edge(alloc, 3)?;
    writer.put(Msg::Item(first)).unwrap();
    writer.put(Msg::Item(second)).unwrap();
    writer.put(Msg::End).unwrap();
    same_ends_are_an_edge();
    meet(&mut writer, &mut reader);
    let one = reader.take().unwrap();
    let two = reader.take().unwrap();
    let end = reader.take().unwrap();
    Ok((one, two, end))
}
