// Ends of two shares, and of one, that are opened and given to tests.
ghost use Rattle.std.specs.Prelude.{◌≡◌, [], ◌∷◌, replicate, IfOk};
ghost use Rattle.flow_samples.specs.Taking.{AllTake};

use flow_messages::Kind;
use flow_shares::meetings::{EdgeOwners, Opening, open_all};
use std::alloc::{AllocError, Global};

/// Edge 0 goes from the first share to the second, and edge 1 back.
pub fn owners() -> [EdgeOwners; 2]
    ensures { result ≡ record { writer = 0; reader = 1 } ∷ record { writer = 1; reader = 0 } ∷ [] }
{
    let there = EdgeOwners {
        writer: 0,
        reader: 1,
    };
    let back = EdgeOwners {
        writer: 1,
        reader: 0,
    };
    [there, back]
}

/// So many edges of one kind.
pub fn alike(alloc: Global, edges: usize, kind: Kind) -> Result<Vec<Kind>, AllocError>
    ensures { IfOk result (λ kinds. kinds.items ≡ replicate edges kind) }
{
    let mut kinds = Vec::new(alloc);
    kinds.resize(edges, kind)?;
    Ok(kinds)
}

/// The ends of two shares over these owners. Each edge is of the kind and holds two messages.
pub fn crossed<E: Opening + Drop>(alloc: Global, kind: Kind) -> Result<(E, E), AllocError>
    ensures left { IfOk result (λ shares. AllTake (E.view shares.0) kind) }
    ensures right { IfOk result (λ shares. AllTake (E.view shares.1) kind) }
    ensures there { IfOk result (λ shares. E.joins shares.0 shares.1 0) }
    ensures back { IfOk result (λ shares. E.joins shares.1 shares.0 1) }
{
    let kinds = alike(alloc, 2, kind)?;
    let mut ends: Vec<E> = open_all(alloc, 2, &owners(), &kinds, 2)?;
    let right = ends.swap_remove(1);
    let left = ends.swap_remove(0);
    Ok((left, right))
}

/// Edge 0 goes from a share to itself.
pub fn own_owner() -> [EdgeOwners; 1]
    ensures { result ≡ record { writer = 0; reader = 0 } ∷ [] }
{
    [EdgeOwners {
        writer: 0,
        reader: 0,
    }]
}

/// The ends of a share over this owner. The edge is of the kind and holds one message.
pub fn lone<E: Opening + Drop>(alloc: Global, kind: Kind) -> Result<E, AllocError>
    ensures joined { IfOk result (λ share. E.joins share share 0) }
    ensures takes { IfOk result (λ share. AllTake (E.view share) kind) }
{
    let kinds = alike(alloc, 1, kind)?;
    let mut ends: Vec<E> = open_all(alloc, 1, &own_owner(), &kinds, 1)?;
    Ok(ends.swap_remove(0))
}
