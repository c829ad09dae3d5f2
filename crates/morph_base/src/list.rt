ghost use Rattle.std.specs.Prelude.{◌≡◌, ℕ, ◌+◌, ◌-◌, ◌<◌, ◌≤◌, ◌↔◌, List, [], ◌∷◌, ◌++◌, length, slice_get};
ghost use Rattle.std.specs.Prelude.{slice_index_or, slice_set, replicate, IsTrue, IsNone, IfSome, IfNone};
ghost use Rattle.std.specs.Prelude.{IfOk, OnOk, OnErr};
ghost use Rattle.std.specs.Borrow.{sem, Lends, Array};

use crate::memory::OutOfMemory;
use std::alloc::Global;
use std::marker::Model;

/// A growable list whose contracts see its items and its spare room.
///
/// It is `Vec` with two differences: if room was taken beforehand, [`List::add`] appends without being able to fail,
/// and a refused [`List::push`] drops the item and leaves the list as it was.
#[derive(Debug, Drop)]
pub struct List<T> {
    vec: Vec<T>,
}

impl<T> Model for List<T> {
    ghost use Rattle.std.specs.Prelude.{◌-◌, vec_len, vec_capacity};
    ghost use Rattle.morph_base.specs.Contents.{Contents, contents_code};

    ghost Value = { Contents T };

    ghost coded = { contents_code T.code };

    ghost view = { λ l. record { items = l.vec.items; room = vec_capacity l.vec - vec_len l.vec } };
}

impl<T> List<T> {
    ghost use Rattle.morph_base.specs.Contents.{with_item, with_items};
    ghost use Rattle.morph_base.specs.contracts.list.List.{the_row};

    /// An empty list that takes no memory.
    pub fn new(alloc: Global) -> Self
        ensures items { result.items ≡ [] }
    {
        List {
            vec: Vec::new(alloc),
        }
    }

    /// An empty list with room for `n` items.
    pub fn with_room(alloc: Global, n: usize) -> Result<Self, OutOfMemory>
        ensures items { IfOk result (λ list. list.items ≡ []) }
        ensures room { IfOk result (λ list. list.room ≡ n) }
    {
        Ok(List {
            vec: Vec::with_capacity(alloc, n)?,
        })
    }

    /// Appends an item. If memory is refused, the item is dropped and the list stays as it was.
    pub fn push(&mut self, item: T) -> Result<(), OutOfMemory>
    where
        T: Drop,
        ensures items { OnOk result (self.new.items ≡ self.old.items ++ item ∷ []) }
        ensures room { self.old.room ≤ self.new.room + 1 }
        ensures refused { OnErr result (self.new.items ≡ self.old.items) }
        ensures full { OnErr result (self.old.room ≡ 0) }
    {
        self.vec.push(item)?;
        Ok(())
    }

    /// Appends an item if there is spare room, and takes no memory.
    pub fn add(&mut self, item: T)
        requires { 0 < self.old.room }
        ensures items { self.new.items ≡ self.old.items ++ item ∷ [] }
        ensures room { self.old.room ≡ self.new.room + 1 }
    {
        self.vec.push_reserved(item);
    }

    /// Takes memory for at least `n` more items. If it is refused, the items stay.
    pub fn reserve(&mut self, n: usize) -> Result<(), OutOfMemory>
        ensures items { self.new.items ≡ self.old.items }
        ensures room { OnOk result (n ≤ self.new.room) }
    {
        self.vec.reserve(n)?;
        Ok(())
    }

    /// The number of items.
    pub fn len(&self) -> usize
        ensures { result ≡ length self.now.items }
    {
        self.vec.len()
    }

    /// Whether there is no item.
    pub fn is_empty(&self) -> bool
        ensures { IsTrue result ↔ (self.now.items ≡ []) }
    {
        self.vec.is_empty()
    }

    /// The item at place `i`, counted from 0.
    pub fn get(&self, i: usize) -> &T
        requires { i < length self.now.items }
        ensures item { slice_get self.now.items i ≡ Some result.now }
        ensures at { (d : T) → result.now ≡ slice_index_or self.now.items i d }
    {
        &self.vec[i]
    }

    /// Lends the item at place `i` for change.
    pub fn get_mut(&mut self, i: usize) -> &mut T
        requires { i < length self.old.items }
        ensures* lends { sem 𝓛
            (Lends (the_row T.row) T.row self.entry result (with_item self.old i)) }
        ensures item { (d : T) → result.now ≡ slice_index_or self.old.items i d }
    {
        &mut self.vec[i]
    }

    /// Puts `item` at place `i`, in place of the item there, which is dropped.
    pub fn set(&mut self, i: usize, item: T)
    where
        T: Drop,
        requires { i < length self.old.items }
        ensures items { self.new.items ≡ slice_set self.old.items i item }
        ensures room { self.new.room ≡ self.old.room }
    {
        self.vec[i] = item;
    }

    /// Takes the last item out.
    pub fn pop(&mut self) -> Option<T>
        ensures empty { IsNone result ↔ (self.old.items ≡ []) }
        ensures last { IfSome result (λ item. self.old.items ≡ self.new.items ++ item ∷ []) }
        ensures none { IfNone result (self.new.items ≡ self.old.items) }
        ensures room { IfSome result (λ _. self.new.room ≡ self.old.room + 1) }
        ensures kept { IfNone result (self.new.room ≡ self.old.room) }
    {
        self.vec.pop()
    }

    /// The items in order.
    pub fn as_slice(&self) -> &[T]
        ensures { result.now ≡ self.now.items }
    {
        self.vec.as_slice()
    }

    /// Lends the items for change in place. Afterwards the list has what was left there.
    pub fn as_mut_slice(&mut self) -> &mut [T]
        ensures* lends { sem 𝓛
            (Lends (the_row T.row) (Array T.row 0) self.entry result (with_items self.old)) }
        ensures items { result.now ≡ self.old.items }
    {
        self.vec.as_mut_slice()
    }
}

impl<T: Copy> List<T> {
    /// A list of the given items.
    pub fn from_slice(alloc: Global, items: &[T]) -> Result<Self, OutOfMemory>
        ensures { IfOk result (λ list. list.items ≡ items.now) }
    {
        Ok(List {
            vec: Vec::from_slice(alloc, items)?,
        })
    }

    /// Appends copies of some items. If memory is refused, the list stays as it was.
    pub fn extend_from_slice(&mut self, items: &[T]) -> Result<(), OutOfMemory>
        ensures items { OnOk result (self.new.items ≡ self.old.items ++ items.now) }
        ensures refused { OnErr result (self.new.items ≡ self.old.items) }
    {
        self.vec.extend_from_slice(items)?;
        Ok(())
    }

    /// A list of `n` copies of the same item.
    pub fn filled(alloc: Global, n: usize, item: T) -> Result<Self, OutOfMemory>
        ensures { IfOk result (λ list. list.items ≡ replicate n item) }
    {
        let mut list = List::with_room(alloc, n)?;
        for _ in 0..n {
            list.add(item);
        }
        Ok(list)
    }
}
