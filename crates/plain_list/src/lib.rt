//! A `Vec` that contracts see as the list of its elements and nothing else, so that records which
//! hold one are plain data: a copy equals what it copies, and a definition can compute one.
#![tactic(auto)]

ghost use Rattle.std.specs.Prelude.{◌≡◌, [], ◌∷◌, ◌++◌, ◌<◌, ◌↔◌, length, take, remove, slice_get, Some, IsTrue, IfOk, OnOk, OnErr};
ghost use Rattle.std.specs.Fn.{FnReturnsAt, CalledAt};
ghost use Rattle.std.specs.List.Retain.{IsFiltered};

use std::alloc::{AllocError, Global};
use std::marker::Model;

/// A growing list. Its length counts elements.
#[derive(Debug, Drop)]
pub struct Items<T> {
    items: Vec<T>,
}

impl<T> Model for Items<T> {
    ghost use Rattle.std.specs.Prelude.{List};
    ghost use Rattle.std.specs.Coded.{coded_list};

    ghost Value = { List T };

    ghost coded = { coded_list T.code };

    ghost view = { λ it. it.items.items };
}

impl<T> Items<T> {
    ghost use Rattle.std.specs.Borrow.{sem};
    ghost use Rattle.plain_list.specs.Lends.{LendsItem};

    /// The empty list. Takes no memory.
    pub fn new(alloc: Global) -> Items<T>
        ensures { result ≡ [] }
    {
        Items {
            items: Vec::new(alloc),
        }
    }

    /// The list of a vector's elements. Takes no memory.
    pub fn from_vec(items: Vec<T>) -> Items<T>
        ensures { result ≡ items.items }
    {
        Items { items }
    }

    /// The vector of the list's elements. Takes no memory.
    pub fn into_vec(self) -> Vec<T>
        ensures { result.items ≡ self }
    {
        let Items { items } = self;
        items
    }

    /// The elements in order.
    pub fn as_slice(&self) -> &[T]
        ensures { result.now ≡ self.now }
    {
        self.items.as_slice()
    }

    /// How many elements there are.
    pub fn len(&self) -> usize
        ensures { result ≡ length self.now }
    {
        self.items.len()
    }

    /// The element at a place that is counted from 0, for writing. The other elements stay.
    pub fn item_mut(&mut self, at: usize) -> &mut T
        requires { at < length self.old }
        ensures* writes_back { sem 𝓛 (LendsItem T.row self.entry at result) }
        ensures value { slice_get self.old at ≡ Some result.now }
    {
        &mut self.items[at]
    }

    /// Whether there is no element.
    pub fn is_empty(&self) -> bool
        ensures { IsTrue result ↔ (self.now ≡ []) }
    {
        self.items.is_empty()
    }
}

impl<T> Items<T> {
    /// Takes the element at a place, counted from 0, out; the later ones move down. Takes no memory.
    pub fn remove(&mut self, at: usize) -> T
        requires { at < length self.old }
        ensures value { slice_get self.old at ≡ Some result }
        ensures rest { self.new ≡ remove self.old at }
    {
        self.items.remove(at)
    }
}

impl<T: Drop> Items<T> {
    /// An equal list, of what `copy` makes of each element: it answers an equal one or want of
    /// memory.
    pub fn copied_by<F: Fn(&T) -> Result<T, AllocError>>(
        &self,
        copy: F,
    ) -> Result<Items<T>, AllocError>
        requires callable { F.IsAlwaysCallable copy }
        requires copies { (x y : T) → FnReturnsAt F.Fn copy x (Ok y) → y ≡ x }
        ensures { IfOk result (λ c. c ≡ self.now) }
    {
        let mut items = Vec::with_capacity(*self.items.allocator(), self.items.len())?;
        for item in &self.items {
            items.push(copy(item)?)?;
        }
        Ok(Items { items })
    }

    /// Puts an element at the end. After want of memory the list is as it was, and the element is
    /// dropped.
    pub fn push(&mut self, item: T) -> Result<(), AllocError>
        ensures ok { OnOk result (self.new ≡ self.old ++ item ∷ []) }
        ensures err { OnErr result (self.new ≡ self.old) }
    {
        self.items.push(item)?;
        Ok(())
    }

    /// Keeps the elements for which `keep` answers true, in order, and drops the others. Takes no
    /// memory.
    pub fn retain<F: FnMut(&T) -> bool>(&mut self, keep: F)
        requires { F.IsAlwaysCallable keep }
        ensures { IsFiltered (CalledAt F.FnMut) keep self.old self.new }
    {
        self.items.retain(keep);
    }

    /// Drops the elements after the first `len`. Takes no memory.
    pub fn truncate(&mut self, len: usize)
        ensures { self.new ≡ take len self.old }
    {
        self.items.truncate(len);
    }
}
