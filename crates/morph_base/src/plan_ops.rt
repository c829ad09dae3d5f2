ghost use Rattle.std.specs.Prelude.{◌≡◌, ◌≢◌, ℕ, ◌+◌, ◌<◌, ◌≤◌, [], ◌∷◌, ◌++◌, length, map, take, drop, replicate, All};
ghost use Rattle.std.specs.Prelude.{slice_set, slice_index_or, IfOk, IfSome};
ghost use Rattle.morph_base.specs.declared.plan.Origin.TheVariants.{Base, Op as Written};
ghost use Rattle.morph_base.specs.declared.limits.TheConstants.{MAX, READS};
ghost use Rattle.morph_base.specs.Functions.{value_of};
ghost use Rattle.morph_base.specs.Flat.{contents};
ghost use Rattle.morph_base.specs.Operations.{reads, no_key, no_op, InLayout, IsShaped};
ghost use Rattle.morph_base.specs.OpRows.{keys_before, keys_kept};
ghost use Rattle.morph_base.specs.Plans.{filled, no_plan_op};
ghost use Rattle.morph_base.specs.Words.{finished};
ghost use Rattle.morph_base.specs.OpParts.{origin_of, origins_in};
ghost use Rattle.morph_base.specs.OpFills.{AreKeysIn, AreFilled, IsFilled, kept_key};
ghost use Rattle.morph_base.specs.OpLists.{with_origin, op_list, places_before};

use crate::key::Key;
use crate::limits::READS;
use crate::list::List;
use crate::memory::OutOfMemory;
use crate::op_rows::OpRows;
use crate::plan::{Origin, PlanOp};
use crate::values::Values;
use crate::word::{OpState, OpWord};
use std::alloc::Global;
use std::marker::Model;

/// The number of an operation's event, and its level.
#[derive(Clone, Copy, Debug)]
struct OpMark {
    event: u32,
    level: u32,
}

/// The operations of a plan.
///
/// All of them are there from the start, without their events: contracts see as `coming` those whose event is still to
/// be said, and as `items` the others, as a list of [`PlanOp`]. They stand in [`OpRows`], with 8 bytes more for each
/// operation and 8 for each place that it reads, while a `PlanOp` has room for [`READS`] places. So a walk over a large
/// plan moves a fifth of the memory.
#[derive(Debug)]
pub struct PlanOps {
    rows: OpRows,
    /// The marks of the first operations. The others are to come.
    marks: List<OpMark>,
    /// By place, the word of its source: a base value, or 2^63 and the number of an operation. An operation has as many
    /// places as keys, one behind another.
    places: List<u64>,
}

// Not derived: see "What costs" in docs/CONTRIBUTING.md.
impl Drop for PlanOps {
    fn drop(self) {
        let PlanOps {
            rows: _,
            marks: _,
            places: _,
        } = self;
    }
}

impl Model for PlanOps {
    ghost use Rattle.morph_base.specs.OpLists.{OpList};

    ghost Value = { OpList };

    ghost use Rattle.morph_base.specs.OpViews.{plan_ops_of, ArePlanOps};

    ghost view = { plan_ops_of };

    ghost invariant = { ArePlanOps };
}

impl PlanOps {
    /// Operations of a valid shape, whose events are all still to be said. The rows go into the list as they are.
    pub fn of(alloc: Global, rows: OpRows) -> Result<Self, OutOfMemory>
        requires { All IsShaped rows }
        ensures { IfOk result (λ list. list ≡ op_list [] rows) }
    {
        let marks = List::with_room(alloc, rows.len())?;
        let places = List::filled(alloc, rows.key_count(), 0)?;
        Ok(PlanOps {
            rows,
            marks,
            places,
        })
    }

    /// How many operations there are, but for those that are to come.
    pub fn len(&self) -> usize
        ensures { result ≡ length self.now.items }
    {
        self.marks.len()
    }

    /// Appends the next of the operations that are to come, with its event. It is at level 1, and its sources are all
    /// `Base(0)`, for the caller to set.
    pub fn add_next(&mut self, event: u32)
        requires { 0 < length self.old.coming }
        ensures items { self.new.items ≡ self.old.items ++ record {
          op = slice_index_or self.old.coming 0 no_op;
          event = event;
          origins = replicate READS (Base 0);
          level = 1;
        } ∷ [] }
        ensures coming { self.new.coming ≡ drop 1 self.old.coming }
    {
        self.marks.add(OpMark { event, level: 1 });
    }

    /// Replaces each base by the value of the key that is read there. Sources that are operations stay.
    pub fn fill_bases(&mut self, values: &Values)
        requires { All (λ q. All (InLayout values.now.layout) (reads q.op)) self.old.items }
        ensures { self.new
            ≡ record self.old { items = map (filled (contents values.now)) self.old.items } }
    {
        let end = self.all_places();
        fill_words(&self.rows, &mut self.places, end, values);
    }

    /// An operation, put together from its parts. It is large: the calls below read one part alone.
    pub fn get(&self, o: usize) -> PlanOp
        requires { o < length self.now.items }
        ensures { result ≡ slice_index_or self.now.items o no_plan_op }
    {
        let mark = self.marks.get(o);
        PlanOp {
            op: self.rows.get(o),
            event: mark.event,
            origins: self.origins(o),
            level: mark.level,
        }
    }

    /// The new value of an operation's target, as [`eval`](crate::eval) says.
    pub fn eval(&self, o: usize, xs: &[u64]) -> Option<u64>
        requires inside { o < length self.now.items }
        requires shaped { IsShaped (slice_index_or self.now.items o no_plan_op).op }
        requires reads { length xs.now ≡ (slice_index_or self.now.items o no_plan_op).op.n_params + 1 }
        requires values { All (λ x. x ≤ MAX) xs.now }
        ensures value { result ≡ value_of (slice_index_or self.now.items o no_plan_op).op xs.now }
        ensures small { IfSome result (λ v. v ≤ MAX) }
        ensures within { All (λ x. x ≤ (slice_index_or self.now.items o no_plan_op).op.high) xs.now
            → IfSome result (λ v. v ≤ (slice_index_or self.now.items o no_plan_op).op.high) }
    {
        self.rows.eval(o, xs)
    }

    /// The word that an attempt at an operation leaves, as [`evaluate`](crate::evaluate) says.
    pub fn evaluate(&self, o: usize, xs: &[u64], attempt: u8) -> OpWord
        requires inside { o < length self.now.items }
        requires shaped { IsShaped (slice_index_or self.now.items o no_plan_op).op }
        requires reads { length xs.now ≡ (slice_index_or self.now.items o no_plan_op).op.n_params + 1 }
        requires values { All (λ x. x ≤ MAX) xs.now }
        ensures { result ≡ finished (slice_index_or self.now.items o no_plan_op).op attempt xs.now }
    {
        let (value, state) = match self.eval(o, xs) {
            Some(value) => (value, OpState::Executed),
            None => (xs[0], OpState::Failed),
        };
        OpWord {
            value,
            attempt,
            state,
            by: 0,
        }
    }

    /// The number of an operation's event.
    pub fn event(&self, o: usize) -> u32
        requires { o < length self.now.items }
        ensures { result ≡ (slice_index_or self.now.items o no_plan_op).event }
    {
        self.marks.get(o).event
    }

    /// The level of an operation.
    pub fn level(&self, o: usize) -> u32
        requires { o < length self.now.items }
        ensures { result ≡ (slice_index_or self.now.items o no_plan_op).level }
    {
        self.marks.get(o).level
    }

    /// How many places an operation reads.
    pub fn places(&self, o: usize) -> usize
        requires { o < length self.now.items }
        ensures count { result ≡ length (reads (slice_index_or self.now.items o no_plan_op).op) }
        ensures some { 0 < result }
        ensures few { result ≤ READS }
    {
        self.rows.width(o)
    }

    /// How many places all operations read, but for those that are to come.
    pub fn all_places(&self) -> usize
        ensures count { result ≡ places_before self.now.items (length self.now.items) }
        ensures few { result < 4_294_967_296 }
    {
        let next = self.marks.len();
        if next < self.rows.len() {
            self.rows.place(next)
        } else {
            self.rows.key_count()
        }
    }

    /// How many places the operations before this one read.
    pub fn places_before(&self, o: usize) -> usize
        requires { o < length self.now.items }
        ensures count { result ≡ places_before self.now.items o }
        ensures few { result < 4_294_967_296 }
    {
        self.rows.place(o)
    }

    /// The target of an operation.
    pub fn key(&self, o: usize) -> Key
        requires { o < length self.now.items }
        ensures { result ≡ (slice_index_or self.now.items o no_plan_op).op.key }
    {
        self.rows.key(o, 0)
    }

    /// The key that the operation reads at a place.
    pub fn read_key(&self, o: usize, j: usize) -> Key
        requires inside { o < length self.now.items }
        requires place { j < length (reads (slice_index_or self.now.items o no_plan_op).op) }
        ensures { result ≡ slice_index_or (reads (slice_index_or self.now.items o no_plan_op).op) j no_key }
    {
        self.rows.key(o, j)
    }

    /// The source of a place that the operation reads.
    pub fn origin(&self, o: usize, j: usize) -> Origin
        requires inside { o < length self.now.items }
        requires place { j < length (reads (slice_index_or self.now.items o no_plan_op).op) }
        ensures { result ≡ slice_index_or (slice_index_or self.now.items o no_plan_op).origins j (Base 0) }
    {
        let place = self.rows.place(o);
        origin_of(*self.places.get(place + j))
    }

    /// The sources of its places, and `Base(0)` in those that it does not use.
    pub fn origins(&self, o: usize) -> [Origin; READS]
        requires { o < length self.now.items }
        ensures { result ≡ (slice_index_or self.now.items o no_plan_op).origins }
    {
        let place = self.rows.place(o);
        origins_in(row_of(&self.places, place, self.rows.width(o)))
    }

    /// Replaces the source of a place by an operation.
    pub fn set_source(&mut self, o: usize, j: usize, source: u32)
        requires inside { o < length self.old.items }
        requires place { j < length (reads (slice_index_or self.old.items o no_plan_op).op) }
        ensures { self.new ≡ record self.old {
          items = slice_set self.old.items o
              (with_origin (slice_index_or self.old.items o no_plan_op) j (Written source));
        } }
    {
        let place = self.rows.place(o);
        self.places.set(place + j, word_of(source));
    }

    /// Replaces the level of an operation.
    pub fn set_level(&mut self, o: usize, level: u32)
        requires { o < length self.old.items }
        ensures { self.new ≡ record self.old {
          items = slice_set self.old.items o
              (record (slice_index_or self.old.items o no_plan_op) { level = level });
        } }
    {
        let event = self.marks.get(o).event;
        self.marks.set(o, OpMark { event, level });
    }
}

/// The source that a word names.
fn origin_of(word: u64) -> Origin
    ensures { result ≡ origin_of word }
{
    if word < 9_223_372_036_854_775_808 {
        Origin::Base(word)
    } else {
        Origin::Op((word % 4_294_967_296) as u32)
    }
}

/// The word of a source that is an operation.
fn word_of(source: u32) -> u64
    ensures { origin_of result ≡ Written source }
{
    9_223_372_036_854_775_808 + u64::from(source)
}

/// The `width` words from a place on.
fn row_of(places: &List<u64>, place: usize, width: usize) -> &[u64]
    requires { place + width ≤ length places.now.items }
    ensures { result.now ≡ take width (drop place places.now.items) }
{
    &places.as_slice()[place..place + width]
}

/// Replaces the words of the first `end` places that are bases by the values of the keys that are read there.
fn fill_words(rows: &OpRows, places: &mut List<u64>, end: usize, values: &Values)
    requires rows { end ≤ keys_before rows.now (length rows.now) }
    requires places { end ≤ length places.old.items }
    requires keys { AreKeysIn values.now.layout rows.now end }
    ensures filled { AreFilled (contents values.now) rows.now end places.old.items places.new.items }
{
    'places: for place in 0..end {
        fill_word(rows, places, place, values);
    }
}

/// Replaces the word at a place, if it is a base, by the value of the key that is read there.
fn fill_word(rows: &OpRows, places: &mut List<u64>, place: usize, values: &Values)
    requires rows { place < keys_before rows.now (length rows.now) }
    requires places { place < length places.old.items }
    requires keys { AreKeysIn values.now.layout rows.now (place + 1) }
    ensures length { length places.new.items ≡ length places.old.items }
    ensures others { (k : ℕ) → k ≢ place
        → slice_index_or places.new.items k 0 ≡ slice_index_or places.old.items k 0 }
    ensures filled { (o j : ℕ) → o < length rows.now
        → j < keys_kept (slice_index_or rows.now o no_op) → place ≡ keys_before rows.now o + j
        → IsFilled (contents values.now) (kept_key rows.now o j)
        (slice_index_or places.old.items place 0) (slice_index_or places.new.items place 0) }
{
    if let Origin::Base(_) = origin_of(*places.get(place)) {
        places.set(place, values.get(rows.key_at(place)));
    }
}

/// The sources that words name, in an operation's places.
fn origins_in(words: &[u64]) -> [Origin; READS]
    requires { length words.now ≤ READS }
    ensures { result ≡ origins_in words.now }
{
    let mut origins = [Origin::Base(0); READS];
    for j in 0..words.len() {
        origins[j] = origin_of(words[j]);
    }
    origins
}
