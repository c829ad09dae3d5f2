ghost use Rattle.std.specs.Prelude.{◌≡◌};
ghost use Rattle.morph_cli.specs.declared.fault.Fault.TheVariants.{Write, OutOfMemory as NoMemory};

use event_reader::ReaderFault;
use morph_base::OutOfMemory;
use morph_io::WriteFailed;

/// What cut a run off.
#[derive(Clone, Copy, Debug, PartialEq, Eq)]
pub enum Fault {
    Read,
    Write,
    OutOfMemory,
    TooLong,
}

impl From<OutOfMemory> for Fault {
    ghost from_gives = { λ _ fault. fault ≡ NoMemory };

    fn from(_error: OutOfMemory) -> Self {
        Fault::OutOfMemory
    }
}

impl From<WriteFailed> for Fault {
    ghost from_gives = { λ _ fault. fault ≡ Write };

    fn from(_error: WriteFailed) -> Self {
        Fault::Write
    }
}

impl From<ReaderFault> for Fault {
    ghost use Rattle.morph_cli.specs.Faults.{fault_of};

    ghost from_gives = { λ error fault. fault ≡ fault_of error };

    fn from(error: ReaderFault) -> Self {
        match error {
            ReaderFault::ReadFault => Fault::Read,
            ReaderFault::TooLong => Fault::TooLong,
            ReaderFault::OutOfMemory => Fault::OutOfMemory,
        }
    }
}
