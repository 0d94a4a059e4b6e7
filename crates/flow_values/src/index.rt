// An element of each vector.

ghost use Rattle.std.specs.Prelude.{◌≡◌, ◌<◌, ◌≤◌, ℕ, pos, [], ◌∷◌, length, true, option_map, IfOk, IfSome, OnErr, IsSome, false};
ghost use Rattle.std.specs.List.{All};
ghost use Rattle.snesl_data.specs.Types.{Ty as ElementType, ty_of};
ghost use Rattle.snesl_data.specs.Values.{value_of, a_vec, elements_of};
ghost use Rattle.flow_messages.specs.Cells.{cell_of, datum};
ghost use Rattle.flow_messages.specs.Ends.{SameEnds};
ghost use Rattle.flow_values.specs.Shapes.{kinds_of, kind_at};
ghost use Rattle.flow_values.specs.Rows.{element_at};
ghost use Rattle.flow_values.specs.IndexMachine.{index_state, index_machine, writing, holds_such};
ghost use Rattle.flow_values.specs.IndexPairs.{ScalarAt};
ghost use Rattle.flow_values.specs.VectorsRead.{VectorComes};

use crate::dues::{Due, add_value};
use crate::shapes::{add_types, are_elements, kind_at, kinds};
use crate::vectors::vector_in;
use flow_base::{Ask, Stop, Worker, put_in_space, take_front};
use flow_messages::{Ends, Flat, Item, Kind, Msg};
use snesl_data::{Datum, Elements, FaultKind, Ty};
use std::alloc::{AllocError, Global};
use std::collections::VecDeque;
use std::sync::Arc;

/// Writes of each vector the element at an index, counted from 0. A vector and its index are an instance.
///
/// Reads port 0, vectors of elements of one type, and port 1, of kind Int. Writes what the element puts on the edges of
/// its type to the ports from 0 on. Faults: `Shape` where an item at port 0 is not a vector of such elements, or one at
/// port 1 is not an integer; `Index` where the index is negative or not below the vector's length.
///
/// It lays out what it writes when it takes the index. Where memory for that is refused, nothing was taken.
///
/// Row: `IndexRow` (specs/Rows.antt).
#[derive(Drop)]
pub struct Index {
    alloc: Global,
    element: Ty,
    // Of the outputs.
    kinds: Vec<Kind>,
    // Of the vectors on them, as far as they are kept.
    types: Vec<Option<Arc<Ty>>>,
    // A vector that was read, and whose index is due.
    held: Option<Elements>,
    // These items are due where no vector is held. Where there are none, the next instance may begin.
    dues: VecDeque<Due>,
    ghost kinds_are: { kinds.items ≡ kinds_of (ty_of element) },
    ghost holds: { holds_such (ty_of element) held ≡ true },
}

impl Index {
    ghost use Rattle.flow_values.specs.IndexSteps.{IndexHasEdges, IndexTakesKinds, IndexWent, PairComes};

    /// A worker for vectors of elements of this type, before its first vector. Its only error is that memory was
    /// refused.
    pub fn new(alloc: Global, element: Ty) -> Result<Index, AllocError>
        ensures { IfOk result (λ worker. ⟦<Index as Worker>⟧.state worker ≡
            (ty_of element, writing [])) }
    {
        let kinds = kinds(alloc, &element)?;
        let mut types = Vec::new(alloc);
        add_types(&mut types, alloc, &element)?;
        Ok(Index {
            alloc,
            element,
            kinds,
            types,
            held: None,
            dues: VecDeque::new(alloc),
        })
    }

    // The item of the element of the next vector at the next index, where both are shown, and the element is a scalar that
    // is packed. It takes neither.
    #[inline(always)]
    fn element_shown<E: Ends>(&self, inputs: &[usize], ends: &E) -> Option<Item>
        requires ports { 1 < length inputs.now }
        requires reads { All (λ e. (E.view ends.now).reads e ≡ true) inputs.now }
        ensures { IfSome result (λ item.
            PairComes self.now.element (E.view ends.now) inputs.now item) }
    {
        let Some(all) = vector_shown(ends, inputs[0]) else {
            return None;
        };
        let ints = ends.shown(inputs[1]).ints();
        if ints.is_empty() {
            return None;
        }
        let Some(place) = place_of(ints[0]) else {
            return None;
        };
        let Some(item) = scalar_at(all, place) else {
            return None;
        };
        if !are_elements(&self.element, all) {
            return None;
        }
        Some(item)
    }

    // One instance between two others, where its vector and its index are shown, and there is room for its element. How
    // many steps: 3, or none.
    #[inline(always)]
    fn pair_on<E: Ends>(&self, inputs: &[usize], outputs: &[usize], ends: &mut E) -> usize
        requires between { index_state self.now.held self.now.dues.items ≡ writing [] }
        requires some { 0 < length outputs.now }
        requires wired { IndexHasEdges self.now.element inputs.now outputs.now
            (E.view ends.old) }
        requires kinds { IndexTakesKinds self.now.element outputs.now (E.view ends.old) }
        ensures same { E.same ends.old ends.new }
        ensures ends { SameEnds (E.view ends.old) (E.view ends.new) }
        ensures within { result ≤ 3 }
        ensures went { IndexWent E.Ends inputs.now outputs.now self.now ends.old ends.new
            result }
    {
        if !ends.room(outputs[0]) {
            return 0;
        }
        let Some(item) = self.element_shown(inputs, ends) else {
            return 0;
        };
        take_front(ends, inputs[0]);
        take_front(ends, inputs[1]);
        put_in_space(ends, outputs[0], Msg::Item(item));
        3
    }

    // One such instance after another, at most `most` steps. How many steps.
    #[inline(always)]
    fn pairs<E: Ends>(
        &self,
        inputs: &[usize],
        outputs: &[usize],
        ends: &mut E,
        most: usize,
    ) -> usize
        requires between { index_state self.now.held self.now.dues.items ≡ writing [] }
        requires some { 0 < length outputs.now }
        requires wired { IndexHasEdges self.now.element inputs.now outputs.now
            (E.view ends.old) }
        requires kinds { IndexTakesKinds self.now.element outputs.now (E.view ends.old) }
        ensures same { E.same ends.old ends.new }
        ensures ends { SameEnds (E.view ends.old) (E.view ends.new) }
        ensures within { result ≤ most }
        ensures went { IndexWent E.Ends inputs.now outputs.now self.now ends.old ends.new
            result }
    {
        let mut made = 0;
        while most - made >= 3 {
            let steps = self.pair_on(inputs, outputs, ends);
            if steps == 0 {
                return made;
            }
            made += steps;
        }
        made
    }
}

// The elements of the vector that comes next on the edge, where one is shown. It stays.
#[inline(always)]
fn vector_shown<E: Ends>(ends: &E, edge: usize) -> Option<&Elements>
    requires { (E.view ends.now).reads edge ≡ true }
    ensures { IfSome result (λ all. VectorComes (E.view ends.now) edge all.now) }
{
    match ends.front(edge) {
        Some(Msg::Item(Item::Vec(all))) => Some(all),
        Some(Msg::Item(Item::Typed(typed))) => Some(&typed.elements),
        _ => None,
    }
}

// The place that the index names, where it is not negative.
#[inline(always)]
fn place_of(index: i64) -> Option<usize>
    ensures { IfSome result (λ place. index ≡ pos place) }
{
    if index < 0 {
        return None;
    }
    Some(index as usize)
}

// The item of the element at this place, counted from 0, where there is one and it is packed. It takes no memory.
#[inline(always)]
fn scalar_at(all: &Elements, place: usize) -> Option<Item>
    ensures { IfSome result (λ item. ScalarAt (elements_of all.now) place (cell_of item)) }
{
    match all {
        Elements::Ints(all) => match all.get(place) {
            Some(number) => Some(Item::Int(*number as i128)),
            None => None,
        },
        Elements::Wides(all) => match all.get(place) {
            Some(number) => Some(Item::Int(*number)),
            None => None,
        },
        Elements::Bools(all) => match all.get(place) {
            Some(truth) => Some(Item::Bool(*truth)),
            None => None,
        },
        // A copy of it may take memory.
        Elements::Others(_) => None,
    }
}

// A copy of the element at this index, counted from 0, where there is one. Memory is refused only there.
fn element_at(alloc: Global, all: &Elements, index: i128) -> Result<Option<Datum>, AllocError>
    ensures ok { IfOk result (λ d. option_map value_of d ≡
        element_at (elements_of all.now) index) }
    ensures err { OnErr result (IsSome (element_at (elements_of all.now) index)) }
{
    if index < 0 || index >= all.len() as i128 {
        return Ok(None);
    }
    all.at(alloc, index as usize)
}

impl Worker for Index {
    ghost use Rattle.flow_values.specs.IndexMachine.{IndexState, index_state, index_machine};
    ghost use Rattle.flow_values.specs.laws.Index.{index_laws};

    ghost Parameters = { ElementType };

    ghost State = { IndexState };

    ghost state = { λ n. (ty_of n.element, index_state n.held n.dues.items) };

    ghost machine = { index_machine };

    ghost passes = { λ _. false };

    ghost laws = { index_laws };

    #[inline(always)]
    fn ask(&self) -> Ask {
        match (&self.held, self.dues.front()) {
            (Some(_), _) => Ask::Take(1),
            (None, Some(due)) => Ask::Give(due.output(self.kinds.len())),
            (None, None) => Ask::Begin,
        }
    }

    fn inputs(&self) -> usize {
        2
    }

    fn outputs(&self) -> usize {
        self.kinds.len()
    }

    fn kind_in(&self, port: usize) -> Kind {
        match port {
            0 => Kind::Vec,
            _ => Kind::Int,
        }
    }

    fn kind_out(&self, port: usize) -> Kind {
        kind_at(&self.kinds, port)
    }

    fn passes(&self) -> bool {
        false
    }

    // It is not asked.
    fn follows(&self, _item: Flat) -> Option<Flat> {
        None
    }

    #[inline(always)]
    fn take(&mut self, item: Item) -> Result<(), Stop> {
        let Some(all) = &self.held else {
            let all = vector_in(&self.element, item)?;
            self.held = Some(all);
            return Ok(());
        };
        let Item::Int(index) = item else {
            return Err(Stop::Faulted(FaultKind::Shape));
        };
        let Some(datum) = element_at(self.alloc, all, index)? else {
            return Err(Stop::Faulted(FaultKind::Index));
        };
        self.dues.clear();
        add_value(&mut self.dues, &self.types, &self.element, 0, &datum)?;
        self.held = None;
        Ok(())
    }

    #[inline(always)]
    fn give(&mut self) -> Result<Item, AllocError> {
        match self.dues.pop_front() {
            Some(due) => Ok(due.item),
            None => unreachable!(),
        }
    }

    fn is_between(&self) -> bool {
        matches!(self.ask(), Ask::Begin)
    }

    #[inline(always)]
    fn blocks<E: Ends>(
        &mut self,
        inputs: &[usize],
        outputs: &[usize],
        ends: &mut E,
        most: usize,
    ) -> usize {
        let Ask::Begin = self.ask() else {
            return 0;
        };
        self.pairs(inputs, outputs, ends, most)
    }
}
