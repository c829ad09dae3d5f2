ghost use Rattle.std.specs.Prelude.{◌≡◌, ◌+◌, ◌-◌, ◌*◌, ◌<◌, ◌≤◌, ◌++◌, [], ◌∷◌, length, take, replicate, slice_index_or};
ghost use Rattle.std.specs.List.{list_all};
ghost use Rattle.morph_base.specs.declared.limits.TheConstants.{EVENT_OPS, PARAMS, READS};
ghost use Rattle.morph_base.specs.Operations.{no_key, no_op, same_key};
ghost use Rattle.morph_base.specs.OpRows.{keys_kept};
ghost use Rattle.morph_base.specs.RowViews.{first_limits, row_ops, AreKeyRows};

use crate::key::Key;
use crate::limits::{EVENT_OPS, FIRST_MAX, PARAMS, READS};
use crate::op_rows::{FIRST_LIMITS, OpHead, OpLimits, limits_in, op_in};
use crate::operation::{Func, Op};
use std::marker::Model;

/// How many keys the operations of an event have at most.
pub(crate) const EVENT_KEYS: usize = 128;

/// The operations of one event, in operation order: at most [`EVENT_OPS`](crate::EVENT_OPS), which contracts see as a
/// list. It takes no memory, and can be emptied and filled again.
///
/// They stand in rows, as those of a batch do, so that a batch takes them over with no look at each of their keys.
#[derive(Debug, Drop)]
pub struct EventOps {
    heads: [OpHead; EVENT_OPS],
    keys: [Key; EVENT_KEYS],
    limits: [OpLimits; EVENT_OPS],
    /// How many heads are in use.
    count: usize,
    /// How many keys are in use.
    used: usize,
    /// How many limits are in use. An operation past them has those of version 1, and no floor.
    limited: usize,
}

impl Model for EventOps {
    ghost use Rattle.std.specs.Prelude.{List};
    ghost use Rattle.morph_base.specs.declared.operation.Op.{Op};

    ghost Value = { List Op };

    ghost use Rattle.morph_base.specs.EventViews.{ops_of_event, AreEventOps};

    ghost view = { ops_of_event };

    ghost invariant = { AreEventOps };
}

impl EventOps {
    /// No operations.
    pub fn new() -> Self
        ensures { result ≡ [] }
    {
        let none = OpHead {
            c: 0,
            place: 0,
            func: Func::Keep,
            n_params: 0,
            width: 0,
        };
        EventOps {
            heads: [none; EVENT_OPS],
            keys: [Key { table: 0, id: 0 }; EVENT_KEYS],
            limits: [FIRST_LIMITS; EVENT_OPS],
            count: 0,
            used: 0,
            limited: 0,
        }
    }

    /// Takes all operations out.
    pub fn clear(&mut self)
        ensures { self.new ≡ [] }
    {
        self.count = 0;
        self.used = 0;
        self.limited = 0;
    }

    /// How many operations there are.
    pub fn len(&self) -> usize
        ensures { result ≡ length self.now }
    {
        self.count
    }

    /// Operation `i`, put together from its row.
    pub fn get(&self, i: usize) -> Op
        requires { i < length self.now }
        ensures { result ≡ slice_index_or self.now i no_op }
    {
        let (heads, keys, limits) = self.rows();
        let head = heads[i];
        let place = head.place as usize;
        let end = place + usize::from(head.width);
        let OpLimits { low, high } = limits_in(limits, i);
        op_in(head, &keys[place..end]).limited(low, high)
    }

    /// Appends an operation.
    #[inline(always)]
    pub fn add(&mut self, op: Op)
        requires { length self.old < EVENT_OPS }
        ensures { self.new ≡ self.old ++ op ∷ [] }
    {
        let width = width_of(&op.params, usize::from(op.n_params));
        self.heads[self.count] = OpHead {
            c: op.c,
            place: self.used as u32,
            func: op.func,
            n_params: op.n_params,
            width: width as u8,
        };
        put_keys(&mut self.keys, self.used, op.key, &op.params, width);
        if op.low > 0 || op.high != FIRST_MAX {
            let limits = OpLimits {
                low: op.low,
                high: op.high,
            };
            put_limits(&mut self.limits, self.limited, self.count, limits);
            self.limited = self.count + 1;
        }
        self.used += width;
        self.count += 1;
    }

    /// The heads of the operations, whose places are counted from the first key of the event on; the keys of all, in
    /// rows; and the limits of those that have any.
    pub(crate) fn rows(&self) -> (&[OpHead], &[Key], &[OpLimits])
        ensures ops { row_ops result.0.now result.1.now result.2.now ≡ self.now }
        ensures rows { AreKeyRows result.0.now result.1.now result.2.now }
        ensures count { length result.0.now ≤ EVENT_OPS }
        ensures used { length result.1.now ≤ READS * length result.0.now }
    {
        (
            &self.heads[..self.count],
            &self.keys[..self.used],
            &self.limits[..self.limited],
        )
    }
}

/// How long the row of an operation with these parameters is, of which it says that it uses `n`. The contract also says
/// how long the array is, since a proof does not know the length of an array inside a struct.
fn width_of(params: &[Key; PARAMS], n: usize) -> usize
    ensures count { result ≡ keys_kept (record no_op { n_params = n; params = params.now }) }
    ensures some { 0 < result }
    ensures few { result ≤ READS }
    ensures whole { length params.now ≡ PARAMS }
{
    if n < READS && are_blank(&params[n..]) {
        n + 1
    } else {
        READS
    }
}

/// Whether no key stands in these places.
fn are_blank(keys: &[Key]) -> bool
    ensures { result ≡ list_all (same_key no_key) keys.now }
{
    keys.iter().all(|key| *key == Key { table: 0, id: 0 })
}

/// Puts the row of an operation behind the first `used` keys.
fn put_keys(
    keys: &mut [Key; EVENT_KEYS],
    used: usize,
    key: Key,
    params: &[Key; PARAMS],
    width: usize,
)
    requires some { 0 < width }
    requires few { width ≤ READS }
    requires room { used + width ≤ EVENT_KEYS }
    ensures row { take (used + width) keys.new ≡ take used keys.old ++ take width (key ∷ params.now) }
    ensures whole { length keys.new ≡ EVENT_KEYS }
{
    keys[used] = key;
    keys[used + 1..used + width].copy_from_slice(&params[..width - 1]);
}

/// Gives operation `o` these limits. Those before it that have none in the first `limited` places get those of version
/// 1.
fn put_limits(limits: &mut [OpLimits; EVENT_OPS], limited: usize, o: usize, one: OpLimits)
    requires short { limited ≤ o }
    requires room { o < EVENT_OPS }
    ensures front { take (o + 1) limits.new
        ≡ take limited limits.old ++ replicate (o - limited) first_limits ++ one ∷ [] }
    ensures whole { length limits.new ≡ EVENT_OPS }
{
    limits[limited..o].fill(FIRST_LIMITS);
    limits[o] = one;
}
