ghost use Rattle.std.specs.Prelude.{◌≡◌, ◌+◌, ◌≤◌, ◌++◌, length, take, drop, vec_len, vec_capacity};

/// Copies `bytes` into `buf` from place `at` on.
pub(crate) fn copy_to(buf: &mut [u8], at: usize, bytes: &[u8])
    requires { at + length bytes.now ≤ length buf.old }
    ensures { buf.new ≡ take at buf.old ++ bytes.now ++ drop (at + length bytes.now) buf.old }
{
    buf[at..at + bytes.len()].copy_from_slice(bytes);
}

/// Appends `bytes` if there is room for them.
pub(crate) fn append(kept: &mut Vec<u8>, bytes: &[u8])
    requires { vec_len kept.old + length bytes.now ≤ vec_capacity kept.old }
    ensures items { kept.new.items ≡ kept.old.items ++ bytes.now }
    ensures capacity { vec_capacity kept.old ≤ vec_capacity kept.new }
{
    // The room is there, so no memory is asked for and the call cannot be refused.
    let _ = kept.extend_from_slice(bytes);
}
