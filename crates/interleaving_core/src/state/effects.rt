//! The single changes of a state.
ghost use Rattle.std.specs.Prelude.{◌≡◌, ℕ, ◌+◌, ◌*◌, ◌<◌, ◌≤◌, List, [], ◌∷◌, ◌++◌, length, Some};
ghost use Rattle.morph_base.specs.declared.limits.TheConstants.{READS};
ghost use Rattle.interleaving_core.specs.Core.{put};
ghost use Rattle.interleaving_core.specs.declared.claim.Claim.{Claim};
ghost use Rattle.interleaving_core.specs.Stored.{core_of, held_of, word_count, published_count};
ghost use Rattle.interleaving_core.specs.Stored.{decision_count, HasClaimedValues, IsSameShape};

use super::CoreState;
use crate::claim::Claim;
use crate::entry::{Entry, Record, Settling};
use morph_base::{OpWord, READS};

impl CoreState {
    pub(super) fn put_word(&mut self, op: u32, word: OpWord)
        requires { op < word_count self.old }
        ensures core { core_of self.new
            ≡ record (core_of self.old) { word = put (core_of self.old).word op word } }
        ensures shape { IsSameShape self.old self.new }
    {
        self.words.set(op as usize, word);
    }

    pub(super) fn put_record(&mut self, op: u32, j: u8, kept: Record)
        requires place { j < READS }
        requires in_range { op * READS + j < length self.old.records.items }
        ensures core { core_of self.new
            ≡ record (core_of self.old) {
              recorded = put (core_of self.old).recorded op
                  (put ((core_of self.old).recorded op) j (Some kept));
            } }
        ensures shape { IsSameShape self.old self.new }
    {
        self.records
            .set(op as usize * READS + j as usize, Some(kept));
    }

    pub(super) fn put_claim(&mut self, by: u8, claim: Option<Claim>)
        requires worker { by < length self.old.claims.items }
        requires fits { (k : Claim) → claim ≡ Some k → HasClaimedValues k }
        ensures core { core_of self.new
            ≡ record (core_of self.old)
            { claim = put (core_of self.old).claim by (held_of claim) } }
        ensures shape { IsSameShape self.old self.new }
    {
        self.claims.set(by as usize, claim);
    }

    pub(super) fn put_decision(&mut self, event: u32, committed: bool)
        requires { event < decision_count self.old }
        ensures core { core_of self.new
            ≡ record (core_of self.old)
            { decision = put (core_of self.old).decision event (Some committed) } }
        ensures shape { IsSameShape self.old self.new }
    {
        self.decisions.set(event as usize, Some(committed));
    }

    pub(super) fn publish(&mut self, entry: Entry)
        requires room { 0 < self.old.published.entries.room }
        requires op { entry.op < published_count self.old }
        ensures core { core_of self.new
            ≡ record (core_of self.old) { published = (core_of self.old).published ++ entry ∷ [] } }
        ensures shape { IsSameShape self.old self.new }
    {
        self.published.add(entry);
    }

    pub(super) fn book(&mut self, settling: Settling)
        requires { 0 < self.old.settlings.room }
        ensures core { core_of self.new
            ≡ record (core_of self.old)
            { settlings = (core_of self.old).settlings ++ settling ∷ [] } }
        ensures shape { IsSameShape self.old self.new }
    {
        self.settlings.add(settling);
    }
}
