use morph_base::OutOfMemory;

/// Why a line is refused. The causes are tried in this order, and the first one that applies is the line's.
#[derive(Clone, Copy, Debug, PartialEq, Eq, Hash)]
pub enum Cause {
    /// The line has more than [`LONGEST_LINE`](crate::LONGEST_LINE) bytes.
    Long,
    /// The line has none of the application's forms, or a word in a number's place is no number.
    Form,
    /// A number is outside its range.
    Range,
    /// Two keys are the same that have to differ.
    Same,
    /// The timestamp is not greater than every timestamp of the batches closed before.
    Late,
    /// An earlier event of the batch has the same timestamp.
    Twice,
    /// The batch has as many events as it can have.
    Full,
}

/// Why the words of a line give no event.
#[derive(Clone, Copy, Debug, PartialEq, Eq, Hash)]
pub enum LineFault {
    /// The line is refused.
    Refused(Cause),
    /// Memory for the event was refused.
    OutOfMemory,
}

impl From<Cause> for LineFault {
    ghost use Rattle.std.specs.Prelude.{◌≡◌};
    ghost use Rattle.event_reader.specs.declared.cause.LineFault.TheVariants.{Refused};

    ghost from_gives = { λ cause fault. fault ≡ Refused cause };

    fn from(cause: Cause) -> Self {
        LineFault::Refused(cause)
    }
}

impl From<OutOfMemory> for LineFault {
    ghost use Rattle.std.specs.Prelude.{◌≡◌};
    ghost use Rattle.event_reader.specs.declared.cause.LineFault.TheVariants.{OutOfMemory as MemoryRefused};

    ghost from_gives = { λ _ fault. fault ≡ MemoryRefused };

    fn from(_error: OutOfMemory) -> Self {
        LineFault::OutOfMemory
    }
}
