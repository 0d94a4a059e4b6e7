// Where nodes lie in their shares.
ghost use Rattle.std.specs.Prelude.{◌≡◌, ◌<◌, length, IfOk};
ghost use Rattle.flow_shares.specs.Deals.{AreDealt};
ghost use Rattle.flow_shares.specs.meetings.Deals.{nodes_in};
ghost use Rattle.flow_shares.specs.meetings.SharedNetworks.{SharedNetwork};
ghost use Rattle.flow_drives.specs.Apart.{AreThePlaces};

use flow_base::Transducer;
use flow_messages::Ends;
use flow_shares::Share;
use std::alloc::{AllocError, Global};

/// At which place of its share each of so many nodes lies, by the nodes' numbers.
///
/// Its only error is that memory was refused.
pub fn places_of<T: Transducer, E: Ends>(
    alloc: Global,
    shares: &[Share<T, E>],
    count: usize,
) -> Result<Vec<usize>, AllocError>
    ghost network: { SharedNetwork ⟦<T as Transducer>⟧ }
    requires count { count ≡ length network.nodes }
    requires deals { AreDealt network.share network.nodes (nodes_in shares.now) }
    ensures { IfOk result (λ places. AreThePlaces network shares.now places.items) }
{
    let mut places = Vec::new(alloc);
    places.resize(count, 0)?;
    for s in 0..shares.len() {
        let nodes = shares[s].nodes();
        for place in 0..nodes.len() {
            let number = nodes[place].number();
            places[number] = place;
        }
    }
    Ok(places)
}
