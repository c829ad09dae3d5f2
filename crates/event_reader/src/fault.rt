use morph_base::OutOfMemory;
use thiserror::Error;

/// Why a reader stops before the end of its input.
#[derive(Clone, Copy, Debug, PartialEq, Eq, Hash, Error)]
pub enum ReaderFault {
    /// The source failed: its count of faults rose in this call.
    #[error("read failed")]
    ReadFault,
    /// As many bytes as the limit were taken, none of their lines is refused, and the source gave one more.
    #[error("input too long")]
    TooLong,
    /// Memory for a batch was refused.
    #[error("out of memory")]
    OutOfMemory,
}

impl From<OutOfMemory> for ReaderFault {
    ghost use Rattle.event_reader.specs.declared.fault.ReaderFault.TheVariants.{OutOfMemory as MemoryRefused};
    ghost use Rattle.std.specs.Prelude.{◌≡◌};

    ghost from_gives = { λ _ fault. fault ≡ MemoryRefused };

    fn from(_error: OutOfMemory) -> Self {
        ReaderFault::OutOfMemory
    }
}
