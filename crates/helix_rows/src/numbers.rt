//! Numbers in room that is made once.

ghost use Rattle.std.specs.Prelude.{◌≡◌, ◌<◌, ◌≤◌, [], ◌∷◌, ◌++◌, length, take, IfOk, All};

use helix_base::Memory;
use std::alloc::Global;
use std::marker::Model;

/// A list of numbers that takes no memory once it is made. Contracts see the numbers, and for how many there is room.
#[derive(Debug, Drop)]
pub(crate) struct Numbers {
    numbers: Vec<u32>,
    count: usize,
}

impl Model for Numbers {
    ghost use Rattle.std.specs.Prelude.{◌≤◌, length, take};
    ghost use Rattle.helix_rows.specs.Inner.Numbers.{Listed};

    ghost Value = { Listed };

    ghost view = { λ n. record {
      items = take n.count n.numbers.items;
      room = length n.numbers.items;
    } };

    ghost invariant = { λ n. n.count ≤ length n.numbers.items };
}

impl Numbers {
    /// No numbers, with room for some.
    pub(crate) fn open(alloc: Global, room: usize) -> Result<Numbers, Memory>
        ensures { IfOk result (λ numbers. numbers ≡ record { items = []; room = room }) }
    {
        Ok(Numbers {
            numbers: zeros(alloc, room)?,
            count: 0,
        })
    }

    /// The numbers.
    #[inline(always)]
    pub(crate) fn as_slice(&self) -> &[u32]
        ensures items { result.now ≡ self.now.items }
        ensures room { length self.now.items ≤ self.now.room }
    {
        &self.numbers[..self.count]
    }

    /// Leaves no number.
    #[inline(always)]
    pub(crate) fn clear(&mut self)
        ensures { self.new ≡ record { items = []; room = self.old.room } }
    {
        self.count = 0;
    }

    /// Appends a number.
    #[inline(always)]
    pub(crate) fn push(&mut self, number: u32)
        requires { length self.old.items < self.old.room }
        ensures { self.new ≡ record { items = self.old.items ++ number ∷ []; room = self.old.room } }
    {
        self.numbers[self.count] = number;
        self.count += 1;
    }
}

/// A list of zeros.
fn zeros(alloc: Global, count: usize) -> Result<Vec<u32>, Memory>
    ensures { IfOk result (λ list. length list.items ≡ count) }
{
    let mut list = Vec::with_capacity(alloc, count)?;
    for _ in 0..count {
        list.push(0)?;
    }
    Ok(list)
}

/// Lists of numbers, all empty, each with room for some.
pub(crate) fn lists_of(alloc: Global, count: usize, room: usize) -> Result<Vec<Numbers>, Memory>
    ensures count { IfOk result (λ lists. length lists.items ≡ count) }
    ensures rooms { IfOk result (λ lists. All (λ listed. listed.room ≡ room) lists.items) }
    ensures few { IfOk result (λ lists. All (λ listed. length listed.items ≤ listed.room) lists.items) }
{
    let mut lists = Vec::new(alloc);
    for _ in 0..count {
        lists.push(Numbers::open(alloc, room)?)?;
    }
    Ok(lists)
}
