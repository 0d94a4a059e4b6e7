// Which share has a node.
ghost use Rattle.std.specs.Prelude.{◌≡◌, ◌<◌, length};
ghost use Rattle.flow_shares.specs.Deals.{share_of};

/// The share that has node `k`.
pub fn share_of(share: &[u8], k: usize) -> usize
    requires { 0 < length share.now }
    ensures { result ≡ share_of share.now k }
{
    share[k % share.len()] as usize
}
