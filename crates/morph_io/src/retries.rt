ghost use Rattle.std.specs.Prelude.{◌≡◌, ◌+◌, ◌<◌, ◌↔◌, IsTrue};
ghost use Rattle.std.specs.Bool.{OnFalse};
ghost use Rattle.std.specs.IoError.{error_kind};

use std::io::{Error, ErrorKind};

/// How often an interrupted read or write is tried again in one call.
pub const MAX_RETRIES: u32 = 1_000;

/// Whether a call that gave `error` is tried again: it was interrupted, and a try is left, which is then spent.
pub(crate) fn spends_retry(retries: &mut u32, error: &Error) -> bool
    ensures again { IsTrue result ↔ (error_kind error.now ≡ ErrorKind.Interrupted)
        × (0 < retries.old) }
    ensures spent { IsTrue result → retries.new + 1 ≡ retries.old }
    ensures kept { OnFalse result (retries.new ≡ retries.old) }
{
    if *retries == 0 || error.kind() != ErrorKind::Interrupted {
        return false;
    }
    *retries -= 1;
    true
}
