// Sets of ends that can be opened.
use crate::meetings::meeting::Meeting;
use flow_messages::Kind;
use std::alloc::{AllocError, Global};

/// Some ends of some edges. Both ends of an edge can be opened in one of such sets, or each in one of two.
pub trait Opening: Meeting {
    ghost use Rattle.std.specs.Prelude.{◌≡◌, ◌≢◌, ℕ, ◌<◌, ◌≤◌, false, IfOk, OnOk};
    ghost use Rattle.flow_messages.specs.Limits.{greatest_capacity};
    ghost use Rattle.flow_messages.specs.declared.message.Kind.{Kind};
    ghost use Rattle.flow_shares.specs.meetings.Opens.{IsWithoutEnds, HasPlaces, BringsWriter, BringsReader, BringsBoth};

    /// Ends of this edge can be here, if it is to be of this kind and to hold so many messages at most.
    ghost has_place: { Self → ℕ → Kind → ℕ → Type 0 };

    /// Before and after ends of this edge were opened here.
    ghost opens: { ℕ → Self → Self → Type 0 };

    /// No end is there, and there is a place for those of each edge that has a kind in `kinds`, at its number, if it is to
    /// be of this kind and to hold `capacity` messages at most. Its only error is that memory was refused.
    fn none(alloc: Global, kinds: &[Kind], capacity: usize) -> Result<Self, AllocError>
        ensures place { IfOk result (HasPlaces has_place kinds.now capacity) }
        ensures none { IfOk result (λ ends. IsWithoutEnds (Self.view ends)) };

    /// Opens an edge, the writer's end here and the reader's there. It takes all items of the kind, and holds at most
    /// `capacity` messages.
    ///
    /// Its only error is that memory was refused, and then the writer's end may be there without the reader's.
    fn open_with(
        &mut self,
        other: &mut Self,
        alloc: Global,
        edge: usize,
        kind: Kind,
        capacity: usize,
    ) -> Result<(), AllocError>
        requires some { 0 < capacity }
        requires limit { capacity ≤ greatest_capacity }
        requires writer_place { has_place self.old edge kind capacity }
        requires reader_place { has_place other.old edge kind capacity }
        requires no_writer { (Self.view self.old).writes edge ≡ false }
        requires no_reader { (Self.view other.old).reads edge ≡ false }
        ensures writer { OnOk result (BringsWriter opens Self.view edge kind capacity
            self.old self.new) }
        ensures reader { OnOk result (BringsReader opens Self.view edge kind capacity
            other.old other.new) }
        ensures joined { OnOk result (Self.joins self.new other.new edge) }
        ensures places { OnOk result (Self.slots self.new edge ≡ capacity) };

    /// Opens an edge, both ends here. It takes all items of the kind, and holds at most `capacity` messages.
    ///
    /// Its only error is that memory was refused, and then the writer's end may be there without the reader's.
    fn open_own(
        &mut self,
        alloc: Global,
        edge: usize,
        kind: Kind,
        capacity: usize,
    ) -> Result<(), AllocError>
        requires some { 0 < capacity }
        requires limit { capacity ≤ greatest_capacity }
        requires place { has_place self.old edge kind capacity }
        requires no_writer { (Self.view self.old).writes edge ≡ false }
        requires no_reader { (Self.view self.old).reads edge ≡ false }
        ensures both { OnOk result (BringsBoth opens Self.view edge kind capacity
            self.old self.new) }
        ensures joined { OnOk result (Self.joins self.new self.new edge) }
        ensures places { OnOk result (Self.slots self.new edge ≡ capacity) };

    /// Where no edge was opened, all is as after an opening.
    ghost opens_refl: { (e : ℕ) (a : Self) → opens e a a };

    /// An opening takes no place of another.
    ghost opens_place: { (e : ℕ) (a b : Self) → opens e a b →
        (k : ℕ) (kind : Kind) (capacity : ℕ) → has_place a k kind capacity →
        has_place b k kind capacity };

    /// An opening changes no number of places at another edge.
    ghost opens_places: { (e : ℕ) (a b : Self) → opens e a b →
        (k : ℕ) → k ≢ e → Self.slots b k ≡ Self.slots a k };

    /// What joins stays so over an opening at another edge, in the writer's share.
    ghost open_join_writer: { (a a' b : Self) (e k : ℕ) → Self.joins a b k →
        k ≢ e → opens e a a' → Self.joins a' b k };

    /// What joins stays so over an opening at another edge, in the reader's share.
    ghost open_join_reader: { (a b b' : Self) (e k : ℕ) → Self.joins a b k →
        k ≢ e → opens e b b' → Self.joins a b' k };
}
