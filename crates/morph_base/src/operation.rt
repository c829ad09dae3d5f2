ghost use Rattle.std.specs.Prelude.{◌≡◌, ◌≤◌, ◌↔◌, ◌∷◌, length, IsTrue};
ghost use Rattle.morph_base.specs.declared.limits.TheConstants.{FIRST_MAX, MAX};
ghost use Rattle.morph_base.specs.Operations.{IsShaped, IsLimit, reads, op_of, limited_to, least_params, most_params};

use crate::key::Key;
use crate::limits::{FIRST_MAX, PARAMS};

/// How an operation computes the new value of its target.
///
/// It reads x, the target's value, and p1, p2 and so on, the values of its parameters, all before its event; c is its
/// constant, low its floor, and high the greatest value.
#[derive(Clone, Copy, Debug, PartialEq, Eq, Hash)]
pub enum Func {
    /// x. It has no parameter and never fails.
    Keep,
    /// x + c. It fails above high.
    Add,
    /// x - c. It fails if x is below c + low.
    Sub,
    /// x + c, with one parameter. It fails if p1 is below c + low, or if the result is above high.
    MoveIn,
    /// The sum of its parameters, which are one to [`PARAMS`](crate::PARAMS). It fails if the sum is above c.
    Sum,
    /// c if x is 0, else half of x + c, rounded down. It never fails.
    Blend,
    /// c. It never fails.
    Set,
    /// x if p1 is c, else x + 1, with one parameter. It fails above high.
    Enter,
    /// x and the toll, with two parameters: p1 is the average speed of a segment in hundredths of a mile per hour, p2
    /// its count of entries. The toll is 2 * (p2 - 50)^2 if p1 is below 4000 and p2 above 50, else 0, as in Linear Road
    /// (Arasu and others, VLDB 2004). It fails above c.
    Charge,
}

impl Func {
    /// Whether the function takes this many parameters.
    pub fn takes(self, params: usize) -> bool
        ensures { IsTrue result ↔ ((least_params self ≤ params) × (params ≤ most_params self)) }
    {
        match self {
            Func::Keep | Func::Add | Func::Sub | Func::Blend | Func::Set => params == 0,
            Func::MoveIn | Func::Enter => params == 1,
            Func::Charge => params == 2,
            Func::Sum => params >= 1 && params <= PARAMS,
        }
    }
}

/// One change of one key, by a function of the values before its event.
///
/// It has a valid shape if the number of its parameters is its function's, `c` and `low` are at most `high`, `high` is
/// [`FIRST_MAX`](crate::FIRST_MAX) or [`MAX`](crate::MAX), and the places of `params` from `n_params` on hold the key
/// of table 0 and id 0.
#[derive(Clone, Copy, Debug, PartialEq, Eq)]
pub struct Op {
    /// The target, whose value changes.
    pub key: Key,
    /// The keys of its parameters, in the first `n_params` places.
    pub params: [Key; PARAMS],
    /// How many parameters it has: 0 to [`PARAMS`](crate::PARAMS).
    pub n_params: u8,
    /// How the new value is computed.
    pub func: Func,
    /// The constant of its function.
    pub c: u64,
    /// The floor: what must be left when the function takes from a value, or moves in what another operation takes.
    pub low: u64,
    /// The greatest value, which is that of its input's version.
    pub high: u64,
}

impl Op {
    /// An operation of version 1 with these parameters, in the first places, and no floor.
    ///
    /// It has a valid shape if its function takes this many parameters and `c` is at most
    /// [`FIRST_MAX`](crate::FIRST_MAX).
    pub fn new(func: Func, key: Key, params: &[Key], c: u64) -> Self
        requires few { length params.now ≤ PARAMS }
        ensures parts { result ≡ op_of func key params.now c }
        ensures reads { reads result ≡ key ∷ params.now }
        ensures shaped { least_params func ≤ length params.now
            → length params.now ≤ most_params func → c ≤ FIRST_MAX
            → IsShaped result }
        ensures widest { least_params func ≤ length params.now
            → length params.now ≤ most_params func → c ≤ MAX
            → IsShaped (limited_to 0 MAX result) }
    {
        let mut places = [Key { table: 0, id: 0 }; PARAMS];
        places[..params.len()].copy_from_slice(params);
        Op {
            key,
            params: places,
            n_params: params.len() as u8,
            func,
            c,
            low: 0,
            high: FIRST_MAX,
        }
    }

    /// The operation with this floor and this greatest value.
    ///
    /// It has a valid shape if it has as many parameters as its function takes, `low` and its constant are at most
    /// `high`, and that is the greatest value of a version.
    pub fn limited(self, low: u64, high: u64) -> Self
        ensures parts { result ≡ limited_to low high self }
        ensures shaped { IsShaped (limited_to 0 MAX self) → low ≤ high → self.c ≤ high
            → IsLimit high → IsShaped result }
    {
        Op { low, high, ..self }
    }
}
