// A share without its boxes.
ghost use Rattle.std.specs.Prelude.{◌≡◌, false};

use flow_base::Transducer;
use flow_boxes::Boxes;
use flow_networks::Placed;
use flow_shares::Share;
use std::snapshot::Snapshot;

/// What is left of a share without its boxes.
#[derive(Drop)]
pub(crate) struct Part<T: Transducer> {
    pub(crate) number: usize,
    pub(crate) nodes: Vec<Placed<T>>,
    pub(crate) share: Snapshot<Share<T, Boxes>>,
    ghost same_number: { number ≡ share.value.number },
    ghost same_nodes: { nodes ≡ share.value.nodes },
    ghost fed: { share.value.starved ≡ false },
}
