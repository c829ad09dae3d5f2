ghost use Rattle.std.specs.Prelude.{◌≡◌, ℕ, ◌+◌, ◌*◌, ◌<◌, ◌≤◌, length, replicate, IfOk};
ghost use Rattle.morph_base.specs.Operations.{InLayout};
ghost use Rattle.morph_base.specs.States.{opening_state};
ghost use Rattle.morph_base.specs.Flat.{AreValues, place_of, contents, with_value, state_in};

use crate::key::{Key, Layout};
use crate::limits::MAX;
use crate::memory::OutOfMemory;
use std::alloc::Global;
use std::marker::Model;

/// A value for each key of a layout, in one flat list, table after table.
#[derive(Debug, Drop)]
pub struct Values {
    layout: Layout,
    values: Vec<u64>,
}

impl Model for Values {
    ghost use Rattle.morph_base.specs.Flat.{Kept, AreValues};

    ghost Value = { Kept };

    ghost view = { λ v. record { layout = v.layout; values = v.values.items } };

    ghost invariant = { λ v. AreValues v.layout v.values.items };
}

impl Values {
    /// The values of the opening state, all 0. All memory that they ever need is taken here.
    pub fn new(alloc: Global, layout: Layout) -> Result<Self, OutOfMemory>
        ensures layout { IfOk result (λ values. values.layout ≡ layout) }
        ensures opening { IfOk result (λ values. contents values ≡ opening_state) }
    {
        let len = usize::from(layout.tables) * layout.size as usize;
        Ok(Values {
            layout,
            values: zeros(alloc, len)?,
        })
    }

    /// Which keys there are.
    pub fn layout(&self) -> Layout
        ensures layout { result ≡ self.now.layout }
        ensures small { (key : Key) → contents self.now key ≤ MAX }
    {
        self.layout
    }

    /// The value of a key of the layout.
    pub fn get(&self, key: Key) -> u64
        requires { InLayout self.now.layout key }
        ensures value { result ≡ contents self.now key }
        ensures small { result ≤ MAX }
    {
        self.values[place(self.layout, key)]
    }

    /// Changes the value of one key of the layout to a value of at most [`MAX`].
    pub fn put(&mut self, key: Key, value: u64)
        requires key { InLayout self.old.layout key }
        requires small { value ≤ MAX }
        ensures state { contents self.new ≡ with_value (contents self.old) key value }
        ensures layout { self.new.layout ≡ self.old.layout }
    {
        self.values[place(self.layout, key)] = value;
    }
}

/// A list of `len` zeros.
fn zeros(alloc: Global, len: usize) -> Result<Vec<u64>, OutOfMemory>
    ensures { IfOk result (λ values. values.items ≡ replicate len 0) }
{
    Ok(vec![in alloc; 0; len]?)
}

/// The place of a key's value.
fn place(layout: Layout, key: Key) -> usize
    requires { InLayout layout key }
    ensures place { result ≡ place_of layout key }
    ensures inside { result < layout.tables * layout.size }
{
    usize::from(key.table) * layout.size as usize + key.id as usize
}
