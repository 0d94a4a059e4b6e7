// The numbers from 0 on that are below a number.

ghost use Rattle.std.specs.Prelude.{◌≡◌, ◌+ℤ◌, ◌≤ℤ◌, ◌+◌, ◌<◌, ◌≤◌, ◌++◌, pos, false, get_or, length, replicate, take, IfSome};
ghost use Rattle.flow_scalar.specs.IotaMachine.{number_after, numbers_from};
ghost use Rattle.flow_scalar.specs.Written.{FilledBehind};

use flow_base::{Ask, Moved, Stop, Worker, Written};
use flow_messages::{Flat, Item, Items, Kind};
use snesl_data::FaultKind;
use std::alloc::AllocError;

/// Writes for each integer n a segment of the numbers 0 to n - 1. Each integer is an instance.
///
/// Reads port 0, of kind Int. Writes for each number a flag that stands for an element to port 0, of kind Bool, and
/// then the number to port 1, of kind Int; at last the flag that ends the segment. A negative integer is a fault of
/// kind `NegativeCount`, and an item of another kind one of kind `Shape`.
///
/// Row: `IotaRow` (specs/Rows.antt).
#[derive(Clone, Copy, Debug, PartialEq, Eq)]
pub enum Iota {
    /// An integer comes.
    Between,
    /// A flag is due, and then the number `next` if it is below `end`.
    Flag { next: i128, end: i128 },
    /// The number `next` is due, and then a flag.
    Number { next: i128, end: i128 },
}

// How many numbers there are from `next` on below `end`, and at most `room`. The end less a negative number may not fit.
#[inline(always)]
fn numbers_left(next: i64, end: i64, room: usize) -> usize
    ensures room { result ≤ room }
    ensures below { 0 < result → (next +ℤ pos result) ≤ℤ end }
{
    if next < 0 || end <= next {
        return 0;
    }
    let left = (end - next) as usize;
    left.min(room)
}

// Puts so many numbers from `next` on behind the first places.
#[inline(always)]
fn fill_numbers(places: &mut [i64], from: usize, next: i64, end: i64, count: usize)
    requires within { from + count ≤ length places.old }
    requires below { (next +ℤ pos count) ≤ℤ end }
    ensures length { length places.new ≡ length places.old }
    ensures filled { take (from + count) places.new ≡
        take from places.old ++ numbers_from next count }
{
    for place in 0..count {
        places[from + place] = next + place as i64;
    }
}

// Puts the flags of so many elements behind the first places.
#[inline(always)]
fn fill_elements(places: &mut [bool], from: usize, count: usize)
    requires within { from + count ≤ length places.old }
    ensures length { length places.new ≡ length places.old }
    ensures filled { take (from + count) places.new ≡
        take from places.old ++ replicate count false }
{
    for place in 0..count {
        places[from + place] = false;
    }
}

// Puts numbers below `end` from `next` on behind the first integers, and a flag for each behind the first flags: what is left,
// and at most `room`. How many. Numbers of more bits are left to single steps.
#[inline(always)]
fn put_numbers(
    next: i128,
    end: i128,
    block: &mut Written,
    flags: usize,
    ints: usize,
    room: usize,
) -> usize
    requires flags { flags + room ≤ 256 }
    requires ints { ints + room ≤ 256 }
    ensures room { result ≤ room }
    ensures below { 0 < result → (next +ℤ pos result) ≤ℤ end }
    ensures flags { FilledBehind flags result block.old.flags (replicate result false)
        block.new.flags }
    ensures ints { FilledBehind ints result block.old.ints (numbers_from next result)
        block.new.ints }
{
    let (Ok(first), Ok(last)) = (i64::try_from(next), i64::try_from(end)) else {
        return 0;
    };
    let count = numbers_left(first, last, room);
    if count == 0 {
        return 0;
    }
    fill_elements(&mut block.flags, flags, count);
    fill_numbers(&mut block.ints, ints, first, last, count);
    count
}

// The integer at this place, where one is shown there that a segment can have.
#[inline(always)]
fn count_at(counts: &[i64], place: usize) -> Option<i128>
    ensures within { IfSome result (λ _. place < length counts.now) }
    ensures natural { IfSome result (λ n. pos 0 ≤ℤ n) }
    ensures shown { IfSome result (λ n. n ≡ get_or counts.now place (pos 0)) }
{
    if place >= counts.len() || counts[place] < 0 {
        return None;
    }
    Some(counts[place] as i128)
}

impl Iota {
    /// A worker before its first instance.
    pub fn new() -> Iota
        ensures { result ≡ Iota.Between }
    {
        Iota::Between
    }

    // The number after `number`, or `end` where `number` is not below it.
    fn number_after(number: i128, end: i128) -> i128
        ensures { result ≡ number_after number end }
    {
        if number < end { number + 1 } else { end }
    }
}

impl Worker for Iota {
    ghost use Rattle.flow_scalar.specs.declared.iota.Iota.{Iota};
    ghost use Rattle.flow_scalar.specs.IotaMachine.{iota_machine, iota_view};
    ghost use Rattle.flow_scalar.specs.laws.Iota.{iota_laws};

    ghost Parameters = { Unit {0} };

    ghost State = { Iota };

    ghost state = { iota_view };

    ghost machine = { iota_machine };

    ghost passes = { λ _. false };

    ghost laws = { iota_laws };

    #[inline(always)]
    fn ask(&self) -> Ask {
        match self {
            Iota::Between => Ask::Begin,
            Iota::Flag { .. } => Ask::Give(0),
            Iota::Number { .. } => Ask::Give(1),
        }
    }

    fn inputs(&self) -> usize {
        1
    }

    fn outputs(&self) -> usize {
        2
    }

    fn kind_in(&self, _port: usize) -> Kind {
        Kind::Int
    }

    fn kind_out(&self, port: usize) -> Kind {
        if port == 0 { Kind::Bool } else { Kind::Int }
    }

    fn passes(&self) -> bool {
        false
    }

    // It is not asked.
    fn follows(&self, _item: Flat) -> Option<Flat> {
        None
    }

    #[inline(always)]
    fn take(&mut self, item: Item) -> Result<(), Stop> {
        match item {
            Item::Int(end) => {
                if end < 0 {
                    return Err(Stop::Faulted(FaultKind::NegativeCount));
                }
                *self = Iota::Flag { next: 0, end };
                Ok(())
            }
            _ => Err(Stop::Faulted(FaultKind::Shape)),
        }
    }

    #[inline(always)]
    fn give(&mut self) -> Result<Item, AllocError> {
        match *self {
            Iota::Flag { next, end } => {
                if next < end {
                    *self = Iota::Number { next, end };
                    Ok(Item::Bool(false))
                } else {
                    *self = Iota::Between;
                    Ok(Item::Bool(true))
                }
            }
            Iota::Number { next, end } => {
                let after = Iota::number_after(next, end);
                *self = Iota::Flag { next: after, end };
                Ok(Item::Int(next))
            }
            Iota::Between => unreachable!(),
        }
    }

    // The first integer is read by a single step.
    fn is_between(&self) -> bool {
        matches!(self, Iota::Flag { .. })
    }

    // Each round is a flag, and then its number; or the flag that ends a segment, and then the integer of the next.
    #[inline(always)]
    fn along(
        &mut self,
        first: Items<'_>,
        second: Items<'_>,
        block: &mut Written,
        space: usize,
        most: usize,
    ) -> Moved {
        let Iota::Flag { mut next, mut end } = *self else {
            return Moved::nothing();
        };
        let counts = first.ints();
        let rounds = space.min(most / 2);
        let (mut read, mut made) = (0, 0);
        while made < rounds {
            if next < end {
                let count = put_numbers(next, end, block, made, made - read, rounds - made);
                if count == 0 {
                    break;
                }
                next += count as i128;
                made += count;
            } else {
                let Some(count) = count_at(counts, read) else {
                    break;
                };
                block.flags[made] = true;
                (next, end) = (0, count);
                read += 1;
                made += 1;
            }
        }
        *self = Iota::Flag { next, end };
        Moved {
            first: read,
            second: 0,
            units: 0,
            flags: made,
            ints: made - read,
            steps: 2 * made,
        }
    }
}
