ghost use Rattle.std.specs.Prelude.{◌≡◌, ◌<◌, ◌≤◌, [], ◌++◌, length, vec_capacity, IsOk, OnOk, OnErr, IfOk};
ghost use Rattle.morph_io.specs.Told.{behind, HasRisen, Puts, kept_of};
ghost use Rattle.morph_io.specs.Limits.{out_bytes};
ghost use Rattle.morph_io.specs.SinkWrites.{AppendsPart, WritesAll, WritesFull};

use crate::copy::append;
use crate::line_buf::LineBuf;
use crate::sink::{Sink, WriteFailed};
use morph_base::OutOfMemory;
use std::alloc::Global;
use std::marker::Model;

/// How many bytes an [`Out`] keeps before it writes them.
pub const OUT_BYTES: usize = 8192;

/// A buffer of [`OUT_BYTES`] bytes between lines and a [`Sink`], which contracts see as the list of the bytes that it
/// keeps.
///
/// The sink is called only with a full buffer, or at a [`Out::flush`]. After a [`WriteFailed`] the sink has a part of
/// all that was put, from the front, what the buffer kept is dropped, and the `Out` is not used again.
#[derive(Debug, Drop)]
pub struct Out {
    kept: Vec<u8>,
}

impl Model for Out {
    ghost use Rattle.std.specs.Prelude.{ℕ, ◌<◌, ◌≤◌, List, length, vec_capacity};
    ghost use Rattle.morph_io.specs.Limits.{out_bytes};

    ghost Value = { List ℕ };

    ghost view = { λ out. out.kept.items };

    ghost invariant = { λ out. (length out.kept.items < out_bytes)
        × (out_bytes ≤ vec_capacity out.kept) };
}

/// Writes all of `bytes` to the sink, however few it takes at a time: each write is of all that is left, and none comes
/// after one that failed.
pub fn write_all<K: Sink>(sink: &mut K, bytes: &[u8]) -> Result<(), WriteFailed>
    ensures all { OnOk result (K.written sink.new ≡ behind (K.written sink.old) bytes.now) }
    ensures prefix { OnErr result
        (AppendsPart (K.written sink.old) bytes.now (K.written sink.new)) }
    ensures never_falls { K.faults sink.old ≤ K.faults sink.new }
    ensures steady { OnOk result (K.faults sink.new ≡ K.faults sink.old) }
    ensures cause { OnErr result (HasRisen (K.faults sink.old) (K.faults sink.new)) }
    ensures writes { WritesAll K.writes bytes.now sink.old result sink.new }
    ensures unused { bytes.now ≡ [] → IsOk result × (sink.new ≡ sink.old) }
{
    let mut at = 0;
    'pieces: while at < bytes.len() {
        at += sink.write(&bytes[at..])?;
    }
    Ok(())
}

/// Writes all of `kept` to the sink, and empties it.
fn write_out<K: Sink>(kept: &mut Vec<u8>, sink: &mut K) -> Result<(), WriteFailed>
    ensures all { OnOk result (K.written sink.new ≡ behind (K.written sink.old) kept.old.items) }
    ensures prefix { OnErr result
        (AppendsPart (K.written sink.old) kept.old.items (K.written sink.new)) }
    ensures empty { kept.new.items ≡ [] }
    ensures capacity { vec_capacity kept.old ≤ vec_capacity kept.new }
    ensures never_falls { K.faults sink.old ≤ K.faults sink.new }
    ensures steady { OnOk result (K.faults sink.new ≡ K.faults sink.old) }
    ensures cause { OnErr result (HasRisen (K.faults sink.old) (K.faults sink.new)) }
    ensures writes { WritesAll K.writes kept.old.items sink.old result sink.new }
    ensures unused { kept.old.items ≡ [] → IsOk result × (sink.new ≡ sink.old) }
{
    let result = write_all(sink, kept.as_slice());
    kept.clear();
    result
}

impl Out {
    /// An empty buffer, with memory for [`OUT_BYTES`] bytes.
    pub fn new(alloc: Global) -> Result<Self, OutOfMemory>
        ensures { IfOk result (λ out. out ≡ []) }
    {
        Ok(Out {
            kept: Vec::with_capacity(alloc, OUT_BYTES)?,
        })
    }

    /// Appends the bytes of `line`, and writes the buffer if that fills it.
    ///
    /// The line has its line feed, if it is to have one. `Err` is returned only if the sink's count of faults rose in
    /// this call. The sink then has a part of all that was put, and the buffer is not used again.
    #[inline(always)]
    pub fn put<K: Sink>(&mut self, sink: &mut K, line: &LineBuf) -> Result<(), WriteFailed>
        ensures puts { OnOk result
            (Puts (K.written sink.old) self.old line.now (K.written sink.new) self.new) }
        ensures kept { OnOk result (self.new ≡ kept_of out_bytes (self.old ++ line.now)) }
        ensures unused { length (self.old ++ line.now) < out_bytes
            → IsOk result × (sink.new ≡ sink.old) }

        ensures prefix { OnErr result
            (AppendsPart (K.written sink.old) (self.old ++ line.now) (K.written sink.new)) }
        ensures dropped { OnErr result (self.new ≡ []) }
        ensures never_falls { K.faults sink.old ≤ K.faults sink.new }
        ensures steady { OnOk result (K.faults sink.new ≡ K.faults sink.old) }
        ensures cause { OnErr result (HasRisen (K.faults sink.old) (K.faults sink.new)) }
        ensures writes { WritesFull K.writes (self.old ++ line.now) sink.old result sink.new }
    {
        let bytes = line.bytes();
        let room = OUT_BYTES - self.kept.len();
        if bytes.len() < room {
            append(&mut self.kept, bytes);
            return Ok(());
        }
        let (front, rest) = bytes.split_at(room);
        append(&mut self.kept, front);
        write_out(&mut self.kept, sink)?;
        append(&mut self.kept, rest);
        Ok(())
    }

    /// Writes all that the buffer keeps.
    ///
    /// `Err` is returned only if the sink's count of faults rose in this call. The sink then has a part of all that was
    /// put, and the buffer is not used again.
    pub fn flush<K: Sink>(&mut self, sink: &mut K) -> Result<(), WriteFailed>
        ensures all { OnOk result (K.written sink.new ≡ behind (K.written sink.old) self.old) }
        ensures puts { OnOk result
            (Puts (K.written sink.old) self.old [] (K.written sink.new) self.new) }
        ensures unused { self.old ≡ [] → IsOk result × (sink.new ≡ sink.old) }

        ensures prefix { OnErr result
            (AppendsPart (K.written sink.old) self.old (K.written sink.new)) }
        ensures empty { self.new ≡ [] }
        ensures never_falls { K.faults sink.old ≤ K.faults sink.new }
        ensures steady { OnOk result (K.faults sink.new ≡ K.faults sink.old) }
        ensures cause { OnErr result (HasRisen (K.faults sink.old) (K.faults sink.new)) }
        ensures writes { WritesAll K.writes self.old sink.old result sink.new }
    {
        write_out(&mut self.kept, sink)
    }
}
