ghost use Rattle.std.specs.Prelude.{◌≡◌, ◌<◌, ◌↔◌, IsTrue, IsSome, IfSome, Some};
ghost use Rattle.morph_base.specs.declared.word.OpWord.{OpWord};
ghost use Rattle.morph_base.specs.declared.word.OpState.{OpState};
ghost use Rattle.morph_base.specs.Words.{IsWord, packed, code_of, is_idle as is_idle_in};
ghost use Rattle.morph_base.specs.Words.{is_evaluated as is_evaluated_in, is_settled as is_settled_in};
ghost use Rattle.morph_base.specs.Words.{has_worker as has_worker_in, is_failed as is_failed_in};
ghost use Rattle.morph_base.specs.Words.{is_open as is_open_in, blocked as blocked_at};

use crate::limits::{MAX, VALUES, WORKERS};

/// The most attempts at an operation, which are numbered from 1.
pub const ATTEMPTS: u8 = 8;

/// The state of an operation.
#[derive(Clone, Copy, Debug, PartialEq, Eq)]
pub enum OpState {
    /// A source may have no value yet.
    Blocked,
    /// It may be claimed.
    Ready,
    /// A worker is reading its sources.
    Claimed,
    /// It has its function's value on what was read.
    Executed,
    /// Its function failed on what was read; it has its target's value before the event.
    Failed,
    /// Another operation of its event failed; it has its target's value before the event.
    Spread,
    /// It has its value for good, and its event committed.
    Settled,
    /// It has its value for good, and its event aborted.
    SettledAborted,
}

/// What is known of an operation at once: its value, at which attempt, its state, and the worker that it belongs to.
///
/// In range are attempts from 1 to [`ATTEMPTS`] and values of at most [`MAX`], 0 in the states blocked, ready and
/// claimed. A word in the states claimed, settled and settled-aborted has a worker, from 1 to [`WORKERS`]; in all
/// others it has 0.
#[derive(Clone, Copy, Debug, PartialEq, Eq)]
pub struct OpWord {
    /// What others read of it.
    pub value: u64,
    /// Its present attempt, from 1 on.
    pub attempt: u8,
    /// Its state.
    pub state: OpState,
    /// The worker that holds it or settled it.
    pub by: u8,
}

impl OpState {
    /// Whether there is no value at this attempt yet: blocked, ready or claimed.
    pub fn is_idle(self) -> bool
        ensures { result ≡ is_idle_in self }
    {
        matches!(self, OpState::Blocked | OpState::Ready | OpState::Claimed)
    }

    /// Whether there is a value that may still be taken back: executed, failed or spread.
    pub fn is_evaluated(self) -> bool
        ensures { result ≡ is_evaluated_in self }
    {
        matches!(self, OpState::Executed | OpState::Failed | OpState::Spread)
    }

    /// Whether the value is final: settled or settled-aborted.
    pub fn is_settled(self) -> bool
        ensures { result ≡ is_settled_in self }
    {
        matches!(self, OpState::Settled | OpState::SettledAborted)
    }

    /// Whether a word in this state names a worker: claimed, settled or settled-aborted.
    pub fn has_worker(self) -> bool
        ensures { result ≡ has_worker_in self }
    {
        matches!(
            self,
            OpState::Claimed | OpState::Settled | OpState::SettledAborted
        )
    }

    /// Whether the function failed on what was read.
    pub fn is_failed(self) -> bool
        ensures { result ≡ is_failed_in self }
    {
        matches!(self, OpState::Failed)
    }

    /// Whether nobody holds the operation, and it is not settled.
    pub fn is_open(self) -> bool
        ensures { result ≡ is_open_in self }
    {
        !self.has_worker()
    }

    /// The number of the state in a packed word.
    fn code(self) -> u64
        ensures code { result ≡ code_of self }
        ensures small { result < 8 }
    {
        match self {
            OpState::Blocked => 0,
            OpState::Ready => 1,
            OpState::Claimed => 2,
            OpState::Executed => 3,
            OpState::Failed => 4,
            OpState::Spread => 5,
            OpState::Settled => 6,
            OpState::SettledAborted => 7,
        }
    }

    /// The state with this number, which is below 8.
    fn at_code(code: u64) -> OpState
        requires { code < 8 }
        ensures { code_of result ≡ code }
    {
        match code {
            0 => OpState::Blocked,
            1 => OpState::Ready,
            2 => OpState::Claimed,
            3 => OpState::Executed,
            4 => OpState::Failed,
            5 => OpState::Spread,
            6 => OpState::Settled,
            _ => OpState::SettledAborted,
        }
    }

    /// The state with this number, or `None` if there is none.
    fn of_code(code: u64) -> Option<OpState>
        ensures state { IfSome result (λ state. code_of state ≡ code) }
        ensures every { (state : OpState) → code_of state ≡ code → result ≡ Some state }
    {
        if code < 8 {
            Some(OpState::at_code(code))
        } else {
            None
        }
    }
}

impl OpWord {
    /// The word of an operation that has no value at this attempt yet and may not be claimed.
    pub fn blocked(attempt: u8) -> OpWord
        ensures { result ≡ blocked_at attempt }
    {
        OpWord {
            value: 0,
            attempt,
            state: OpState::Blocked,
            by: 0,
        }
    }

    /// Whether the word is in range.
    pub fn is_in_range(self) -> bool
        ensures { IsTrue result ↔ IsWord self }
    {
        let attempt = 1 <= self.attempt && self.attempt <= ATTEMPTS;
        let value = self.value <= if self.state.is_idle() { 0 } else { MAX };
        let by = if self.state.has_worker() {
            1 <= self.by && self.by <= WORKERS
        } else {
            self.by == 0
        };
        attempt && value && by
    }

    /// The word as one number: the value in bits 0 to 43, the attempt in 44 to 47, the state in 48 to 51, blocked 0 to
    /// settled-aborted 7 in the order of [`OpState`], and the worker in 52 to 56.
    ///
    /// ```text
    /// blocked at attempt 1           0x0000_1000_0000_0000
    /// executed at attempt 1 with 40  0x0003_1000_0000_0028
    /// ```
    pub fn pack(self) -> u64
        requires { IsWord self }
        ensures { result ≡ packed self }
    {
        let state = self.state.code() + 16 * u64::from(self.by);
        self.value + VALUES * (u64::from(self.attempt) + 16 * state)
    }

    /// The word in range that packs to this number, if one is known to. Nothing is checked.
    pub fn of_packed(n: u64) -> OpWord
        requires { (w : OpWord) × IsWord w × (packed w ≡ n) }
        ensures { (w : OpWord) → IsWord w → packed w ≡ n → result ≡ w }
    {
        let above = n / VALUES;
        OpWord {
            value: n % VALUES,
            attempt: (above % 16) as u8,
            state: OpState::at_code(above / 16 % 8),
            by: (above / 256) as u8,
        }
    }

    /// The word in range that packs to this number, or `None` exactly if there is none.
    pub fn unpack(n: u64) -> Option<OpWord>
        ensures word { IfSome result (λ w. IsWord w × (packed w ≡ n)) }
        ensures every { (w : OpWord) → IsWord w → packed w ≡ n → result ≡ Some w }
    {
        let above = n / VALUES;
        let word = OpWord {
            value: n % VALUES,
            attempt: (above % 16) as u8,
            state: OpState::of_code(above / 16 % 16)?,
            by: u8::try_from(above / 256).ok()?,
        };
        if word.is_in_range() { Some(word) } else { None }
    }
}
