ghost use Rattle.std.specs.Prelude.{◌≡◌, ℕ, ◌+◌, ◌≤◌, ◌↔◌, List, [], ◌++◌, length, take, decimal, IsTrue};
ghost use Rattle.morph_io.specs.Limits.{line_bytes};

use crate::copy::copy_to;
use itoa::write_digits;
use std::marker::Model;

/// How many bytes a [`LineBuf`] has room for.
pub const LINE_BYTES: usize = 400;

/// A line that is being written, in memory of its own, which contracts see as the list of its bytes.
#[derive(Debug, Drop)]
pub struct LineBuf {
    bytes: [u8; LINE_BYTES],
    len: usize,
}

impl Model for LineBuf {
    ghost Value = { List ℕ };

    ghost view = { λ line. take line.len line.bytes };

    ghost invariant = { λ line. line.len ≤ line_bytes };
}

impl LineBuf {
    /// An empty line.
    pub fn new() -> Self
        ensures { result ≡ [] }
    {
        LineBuf {
            bytes: [0; LINE_BYTES],
            len: 0,
        }
    }

    /// The number of bytes, at most [`LINE_BYTES`].
    pub fn len(&self) -> usize
        ensures len { result ≡ length self.now }
        ensures bound { result ≤ line_bytes }
    {
        self.len
    }

    /// Whether the line has no byte.
    pub fn is_empty(&self) -> bool
        ensures { IsTrue result ↔ (self.now ≡ []) }
    {
        self.len == 0
    }

    /// Empties the line.
    pub fn clear(&mut self)
        ensures { self.new ≡ [] }
    {
        self.len = 0;
    }

    /// Appends `word`.
    pub fn word(&mut self, word: &[u8])
        requires { length self.old + length word.now ≤ line_bytes }
        ensures { self.new ≡ self.old ++ word.now }
    {
        copy_to(&mut self.bytes, self.len, word);
        self.len += word.len();
    }

    /// Appends the decimal digits of `n`, with no zeros in front: at most 20 bytes.
    #[inline(always)]
    pub fn number(&mut self, n: u64)
        requires { length self.old + 20 ≤ line_bytes }
        ensures digits { self.new ≡ self.old ++ decimal n }
        ensures bound { length self.new ≤ length self.old + 20 }
    {
        let end = self.len + digit_count(n);
        write_digits(n, &mut self.bytes, end);
        self.len = end;
    }

    /// The bytes of the line.
    pub fn bytes(&self) -> &[u8]
        ensures bytes { result.now ≡ self.now }
        ensures bound { length result.now ≤ line_bytes }
    {
        &self.bytes[..self.len]
    }
}

/// How many decimal digits a number has.
fn digit_count(n: u64) -> usize
    ensures count { result ≡ length (decimal n) }
    ensures few { result ≤ 20 }
{
    match n.checked_ilog10() {
        None => 1,
        Some(power) => power as usize + 1,
    }
}

impl Default for LineBuf {
    ghost is_default = { λ line. line ≡ [] };

    fn default() -> Self {
        LineBuf::new()
    }
}
