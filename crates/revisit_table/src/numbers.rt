//! The numbers of one digest.
ghost use Rattle.std.specs.Prelude.{◌≡◌, ◌≢◌, ◌<◌, ◌≤◌, not, ◌==◌, [], ◌∷◌, ◌++◌, filter, vec_len, IsFalse, IsTrue, IfOk, OnErr, OnOk};
ghost use Rattle.std.specs.List.Sorted.{IsStrictlyIncreasing};
ghost use Rattle.std.specs.Vec.{vec_capacity};
ghost use Rattle.revisit_table.specs.Lists.{items_of, spare_of};

use capture::Memory;
use std::alloc::Global;
use std::slice::from_ref;

/// The numbers of the captures with one digest, which rise. Most digests have one, which takes no memory of its own.
#[derive(Drop)]
pub(crate) enum Numbers {
    /// None, and room for one.
    Empty,
    One(u32),
    Many(Box<Vec<u32>>),
}

impl Numbers {
    /// The numbers in order.
    pub fn as_slice(&self) -> &[u32]
        ensures { result.now ≡ items_of self.now }
    {
        match self {
            Numbers::Empty => &[],
            Numbers::One(number) => from_ref(number),
            Numbers::Many(numbers) => numbers.as_slice(),
        }
    }

    /// Makes room for one more. After `Memory` there is the room that there was.
    pub fn reserve(&mut self, alloc: Global) -> Result<(), Memory>
        ensures items { items_of self.new ≡ items_of self.old }
        ensures spare { spare_of self.old ≤ spare_of self.new }
        ensures ok { OnOk result (0 < spare_of self.new) }
        ensures err { OnErr result (self.old ≢ Numbers.Empty) }
    {
        match self {
            Numbers::Empty => Ok(()),
            Numbers::One(only) => {
                let numbers = with_room(alloc, *only)?;
                *self = Numbers::Many(numbers);
                Ok(())
            }
            Numbers::Many(numbers) => {
                numbers.reserve(1)?;
                Ok(())
            }
        }
    }

    /// Adds a number, in the room that is there.
    pub fn push_reserved(&mut self, number: u32)
        requires { 0 < spare_of self.old }
        ensures { items_of self.new ≡ items_of self.old ++ number ∷ [] }
    {
        match self {
            Numbers::Empty => *self = Numbers::One(number),
            Numbers::One(_) => {}
            Numbers::Many(numbers) => numbers.push_reserved(number),
        }
    }

    /// Adds a number. After `Memory` the numbers and the room are as they were.
    pub fn put(&mut self, alloc: Global, number: u32) -> Result<(), Memory>
        ensures ok { OnOk result (items_of self.new ≡ items_of self.old ++ number ∷ []) }
        ensures same { OnErr result (items_of self.new ≡ items_of self.old) }
        ensures spare { OnErr result (spare_of self.old ≤ spare_of self.new) }
        ensures err { OnErr result (self.old ≢ Numbers.Empty) }
    {
        self.reserve(alloc)?;
        self.push_reserved(number);
        Ok(())
    }

    /// Takes a number out, if it's there. The room that is there stays.
    pub fn take_out(&mut self, number: u32)
        requires { IsStrictlyIncreasing (items_of self.old) }
        ensures items { items_of self.new ≡ filter (λ n. not (n == number)) (items_of self.old) }
        ensures spare { spare_of self.old ≤ spare_of self.new }
    {
        match self {
            Numbers::Empty => {}
            Numbers::One(only) => {
                if *only == number {
                    *self = Numbers::Empty;
                }
            }
            Numbers::Many(numbers) => take_out(numbers, number),
        }
    }
}

/// The only number of a digest, and room for another one.
fn with_room(alloc: Global, only: u32) -> Result<Box<Vec<u32>>, Memory>
    ensures items { IfOk result (λ numbers. numbers.value.items ≡ only ∷ []) }
    ensures spare { IfOk result (λ numbers. vec_len numbers.value < vec_capacity numbers.value) }
{
    let mut numbers = Vec::with_capacity(alloc, 2)?;
    numbers.push_reserved(only);
    let numbers = Box::new(alloc, numbers)?;
    Ok(numbers)
}

/// Takes a number out of a list, if it's there.
fn take_out(numbers: &mut Vec<u32>, number: u32)
    requires { IsStrictlyIncreasing numbers.old.items }
    ensures items { numbers.new.items ≡ filter (λ n. not (n == number)) numbers.old.items }
    ensures len { vec_len numbers.new ≤ vec_len numbers.old }
    ensures capacity { vec_capacity numbers.new ≡ vec_capacity numbers.old }
{
    match numbers.binary_search(&number) {
        Ok(place) => {
            numbers.remove(place);
        }
        Err(_) => {}
    }
}
