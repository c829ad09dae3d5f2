ghost use Rattle.std.specs.Prelude.{◌≡◌, ℕ, ◌+◌, ◌-◌, ◌<◌, ◌≤◌, [], ◌∷◌, ◌++◌, length, map, take, slice_index_or};
ghost use Rattle.std.specs.Prelude.{All, IfOk, IfSome, OnOk, OnErr};
ghost use Rattle.morph_base.specs.declared.limits.TheConstants.{MAX, READS};
ghost use Rattle.morph_base.specs.Functions.{value_of};
ghost use Rattle.morph_base.specs.Operations.{IsShaped, no_key, no_op};
ghost use Rattle.morph_base.specs.OpRows.{all_keys, keys_before, keys_kept};
ghost use Rattle.morph_base.specs.RowViews.{row_limits_at, key_row, op_headed, shifted};

use crate::evaluation::eval_by;
use crate::event_ops::{EVENT_KEYS, EventOps};
use crate::key::Key;
use crate::limits::{FIRST_MAX, READS};
use crate::list::List;
use crate::memory::OutOfMemory;
use crate::operation::{Func, Op};
use std::alloc::Global;
use std::marker::Model;

/// What every operation has, in 16 bytes.
#[derive(Clone, Copy, Debug)]
pub(crate) struct OpHead {
    pub(crate) c: u64,
    /// Where its row begins in the list of keys.
    pub(crate) place: u32,
    pub(crate) func: Func,
    pub(crate) n_params: u8,
    /// How long its row is.
    pub(crate) width: u8,
}

/// The floor of an operation, and its greatest value.
#[derive(Clone, Copy, Debug)]
pub(crate) struct OpLimits {
    pub(crate) low: u64,
    pub(crate) high: u64,
}

/// The limits of most operations of version 1, which take no memory.
pub(crate) const FIRST_LIMITS: OpLimits = OpLimits {
    low: 0,
    high: FIRST_MAX,
};

/// With so many keys, those of one more event would not all have places below 2^32.
const MOST_KEYS: usize = 4_294_967_296 - EVENT_KEYS;

/// Operations in rows, which contracts see as a list of [`Op`].
///
/// They stand in three lists, in which an operation takes 16 bytes and 8 for each key that it reads, while an `Op` has
/// room for [`READS`](crate::READS) keys. One with a floor, or with the greatest value of version 2, takes 16 more. So a
/// walk over many operations moves a fraction of the memory.
#[derive(Debug)]
pub struct OpRows {
    heads: List<OpHead>,
    /// The keys of all operations, in rows, the target of each first.
    keys: List<Key>,
    /// The limits of operations. An operation past the end has those of version 1, and no floor.
    limits: List<OpLimits>,
}

// Not derived: see "What costs" in docs/CONTRIBUTING.md.
impl Drop for OpRows {
    fn drop(self) {
        let OpRows {
            heads: _,
            keys: _,
            limits: _,
        } = self;
    }
}

impl Model for OpRows {
    ghost use Rattle.std.specs.Prelude.{List};
    ghost use Rattle.morph_base.specs.declared.operation.Op.{Op};

    ghost Value = { List Op };

    ghost use Rattle.morph_base.specs.RowViews.{ops_in_rows, AreOpRows};

    ghost view = { ops_in_rows };

    ghost invariant = { AreOpRows };
}

impl OpRows {
    /// No operations. They take no memory.
    pub fn new(alloc: Global) -> Self
        ensures { result ≡ [] }
    {
        OpRows {
            heads: List::new(alloc),
            keys: List::new(alloc),
            limits: List::new(alloc),
        }
    }

    /// No operations, with memory for `ops` of them, which have `keys` keys in all.
    pub(crate) fn with_room(alloc: Global, ops: usize, keys: usize) -> Result<Self, OutOfMemory>
        ensures { IfOk result (λ rows. rows ≡ []) }
    {
        Ok(OpRows {
            heads: List::with_room(alloc, ops)?,
            keys: List::with_room(alloc, keys)?,
            limits: List::new(alloc),
        })
    }

    /// How many operations there are.
    pub fn len(&self) -> usize
        ensures { result ≡ length self.now }
    {
        self.heads.len()
    }

    /// How many keys are kept of all operations.
    pub(crate) fn key_count(&self) -> usize
        ensures count { result ≡ keys_before self.now (length self.now) }
        ensures few { result < 4_294_967_296 }
    {
        self.keys.len()
    }

    /// Appends the operations of an event. If memory is refused, or more than 2^32 keys would be kept, there are the
    /// operations that there were.
    pub fn append(&mut self, ops: &EventOps) -> Result<(), OutOfMemory>
        ensures ops { OnOk result (self.new ≡ self.old ++ ops.now) }
        ensures refused { OnErr result (self.new ≡ self.old) }
    {
        let base = self.keys.len();
        if base >= MOST_KEYS {
            return Err(OutOfMemory);
        }
        let (heads, keys, limits) = ops.rows();
        let o = self.heads.len();
        self.heads.reserve(heads.len())?;
        self.keys.reserve(keys.len())?;
        make_room_for_limits(&mut self.limits, o, limits.len())?;
        add_limits(&mut self.limits, o, limits);
        add_heads(&mut self.heads, heads, base as u32);
        add_keys(&mut self.keys, keys);
        Ok(())
    }

    /// Appends an operation. If memory is refused, or more than 2^32 keys would be kept, there are the operations that
    /// there were.
    pub fn push(&mut self, op: &Op) -> Result<(), OutOfMemory>
        ensures ops { OnOk result (self.new ≡ self.old ++ op.now ∷ []) }
        ensures refused { OnErr result (self.new ≡ self.old) }
    {
        let mut one = EventOps::new();
        one.add(*op);
        self.append(&one)
    }

    /// Appends operations. If memory is refused, there are those that there were, and perhaps some of these.
    pub fn extend_from_slice(&mut self, ops: &[Op]) -> Result<(), OutOfMemory>
        ensures ops { OnOk result (self.new ≡ self.old ++ ops.now) }
        ensures refused { OnErr result (take (length self.old) self.new ≡ self.old) }
    {
        for op in ops {
            self.push(op)?;
        }
        Ok(())
    }

    /// Operation `o`, put together from its row. It is large: the calls below read one part alone.
    pub fn get(&self, o: usize) -> Op
        requires { o < length self.now }
        ensures { result ≡ slice_index_or self.now o no_op }
    {
        let head = *self.heads.get(o);
        let OpLimits { low, high } = limits_at(&self.limits, o);
        op_in(head, row_of(&self.keys, head)).limited(low, high)
    }

    /// How many keys are kept of an operation.
    pub(crate) fn width(&self, o: usize) -> usize
        requires { o < length self.now }
        ensures count { result ≡ keys_kept (slice_index_or self.now o no_op) }
        ensures some { 0 < result }
        ensures few { result ≤ READS }
    {
        usize::from(self.heads.get(o).width)
    }

    /// How many keys are kept of the operations before this one.
    pub(crate) fn place(&self, o: usize) -> usize
        requires { o < length self.now }
        ensures count { result ≡ keys_before self.now o }
        ensures few { result < 4_294_967_296 }
    {
        self.heads.get(o).place as usize
    }

    /// A key that is kept of an operation: at place 0 its target, and behind it its parameters.
    pub(crate) fn key(&self, o: usize, j: usize) -> Key
        requires inside { o < length self.now }
        requires place { j < keys_kept (slice_index_or self.now o no_op) }
        ensures { result ≡ slice_index_or (all_keys (slice_index_or self.now o no_op)) j no_key }
    {
        let place = self.heads.get(o).place as usize;
        *self.keys.get(place + j)
    }

    /// The key at a place of the list that has the keys of all operations, one row behind another.
    pub(crate) fn key_at(&self, place: usize) -> Key
        requires { place < keys_before self.now (length self.now) }
        ensures { (o j : ℕ) → o < length self.now → j < keys_kept (slice_index_or self.now o no_op)
            → place ≡ keys_before self.now o + j
            → result ≡ slice_index_or (all_keys (slice_index_or self.now o no_op)) j no_key }
    {
        *self.keys.get(place)
    }

    /// The new value of an operation's target, as [`eval`](crate::eval) says.
    pub(crate) fn eval(&self, o: usize, xs: &[u64]) -> Option<u64>
        requires inside { o < length self.now }
        requires shaped { IsShaped (slice_index_or self.now o no_op) }
        requires reads { length xs.now ≡ (slice_index_or self.now o no_op).n_params + 1 }
        requires values { All (λ x. x ≤ MAX) xs.now }
        ensures value { result ≡ value_of (slice_index_or self.now o no_op) xs.now }
        ensures small { IfSome result (λ v. v ≤ MAX) }
        ensures within { All (λ x. x ≤ (slice_index_or self.now o no_op).high) xs.now
            → IfSome result (λ v. v ≤ (slice_index_or self.now o no_op).high) }
    {
        let head = self.heads.get(o);
        let OpLimits { low, high } = limits_at(&self.limits, o);
        eval_by(head.func, head.c, [low, high], xs)
    }
}

/// Takes memory for the limits of as many operations more from number `o` on, and of those before it that have none in
/// the list.
fn make_room_for_limits(
    limits: &mut List<OpLimits>,
    o: usize,
    more: usize,
) -> Result<(), OutOfMemory>
    requires short { length limits.old.items ≤ o }
    requires fits { o + more < 18446744073709551616 }
    ensures items { limits.new.items ≡ limits.old.items }
    ensures room { OnOk result (0 < more → o - length limits.old.items + more ≤ limits.new.room) }
{
    if more > 0 {
        limits.reserve(o - limits.len() + more)?;
    }
    Ok(())
}

/// The limits of operation `o`: those of version 1 past the end of the list.
pub(crate) fn limits_in(limits: &[OpLimits], o: usize) -> OpLimits
    ensures { result ≡ row_limits_at limits.now o }
{
    if o < limits.len() {
        limits[o]
    } else {
        FIRST_LIMITS
    }
}

/// The same in a list.
fn limits_at(limits: &List<OpLimits>, o: usize) -> OpLimits
    ensures { result ≡ row_limits_at limits.now.items o }
{
    limits_in(limits.as_slice(), o)
}

/// The row of an operation in the list that has the rows of all.
fn row_of(keys: &List<Key>, head: OpHead) -> &[Key]
    requires { head.place + head.width ≤ length keys.now.items }
    ensures { result.now ≡ key_row head keys.now.items }
{
    let place = head.place as usize;
    let end = place + usize::from(head.width);
    &keys.as_slice()[place..end]
}

/// The operation with this head and these keys, with the limits of version 1.
pub(crate) fn op_in(head: OpHead, keys: &[Key]) -> Op
    requires some { 0 < length keys.now }
    requires few { length keys.now ≤ READS }
    ensures { result ≡ op_headed head keys.now }
{
    let op = Op::new(head.func, keys[0], &keys[1..], head.c);
    Op {
        n_params: head.n_params,
        ..op
    }
}

/// Appends the heads of an event's operations where there is room. Their places are counted from `base` on.
fn add_heads(heads: &mut List<OpHead>, more: &[OpHead], base: u32)
    requires room { length more.now ≤ heads.old.room }
    requires fits { All (λ head. base + head.place < 4_294_967_296) more.now }
    ensures { heads.new.items ≡ heads.old.items ++ map (shifted base) more.now }
{
    for head in more {
        heads.add(OpHead {
            place: base + head.place,
            ..*head
        });
    }
}

/// Appends keys where there is room.
fn add_keys(keys: &mut List<Key>, more: &[Key])
    requires { length more.now ≤ keys.old.room }
    ensures { keys.new.items ≡ keys.old.items ++ more.now }
{
    for key in more {
        keys.add(*key);
    }
}

/// Appends the limits of operations from number `o` on, where there is room. Those before it that have none in the list
/// get those of version 1.
fn add_limits(limits: &mut List<OpLimits>, o: usize, more: &[OpLimits])
    requires short { length limits.old.items ≤ o }
    requires room { 0 < length more.now → o - length limits.old.items + length more.now ≤ limits.old.room }
    ensures short { length limits.new.items ≤ o + length more.now }
    ensures others { (k : ℕ) → k < o → row_limits_at limits.new.items k ≡ row_limits_at limits.old.items k }
    ensures own { (k : ℕ) → row_limits_at limits.new.items (o + k) ≡ row_limits_at more.now k }
{
    if more.is_empty() {
        return;
    }
    while limits.len() < o {
        limits.add(FIRST_LIMITS);
    }
    for one in more {
        limits.add(*one);
    }
}
