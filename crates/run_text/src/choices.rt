ghost use Rattle.std.specs.Prelude.{◌≡◌};
ghost use Rattle.run_text.specs.Checks.{is_checked};
ghost use Rattle.run_text.specs.Reports.{report_of};

use crate::report::Report;
use morph_base::Strategy;

/// The application of a run.
#[derive(Clone, Copy, Debug, PartialEq, Eq)]
pub enum App {
    /// Accounts and assets: deposits and transfers.
    Ledger,
    /// Cells that are set, or that get the sum of others.
    Grep,
    /// Position reports of vehicles, and the tolls that they are charged.
    Toll,
}

/// An input that the program makes itself.
#[derive(Clone, Copy, Debug, PartialEq, Eq)]
pub struct Generated {
    /// The start of the generator: 0 to 10^12.
    pub seed: u64,
    /// How many events it makes: 0 to 1,000,000.
    pub events: u64,
}

/// How the strategy of each batch is found.
#[derive(Clone, Copy, Debug, PartialEq, Eq)]
pub enum Planning {
    /// It is this one for each batch.
    Fixed(Strategy),
    /// The program chooses one for each batch, from counts of its plan and from the outcome of the batch before.
    Auto,
}

/// What is done with the journal of a batch, which has the steps of its run.
#[derive(Clone, Copy, Debug, PartialEq, Eq)]
pub enum Check {
    /// None is kept.
    Off,
    /// It is kept and checked, and the notes say with what outcome.
    On,
    /// It is kept and checked, and the notes have the journal too.
    Text,
}

impl Check {
    /// Whether a journal is kept and checked.
    pub fn is_on(self) -> bool
        ensures { result ≡ is_checked self }
    {
        match self {
            Check::Off => false,
            Check::On | Check::Text => true,
        }
    }
}

/// What the words of the program ask for.
#[derive(Clone, Copy, Debug, PartialEq, Eq)]
pub struct Settings {
    /// The application whose events are read, or made.
    pub app: App,
    /// How many workers evaluate a batch: 1 to 16.
    pub workers: u32,
    /// The number of ids in each table: 1 to 1,000,000.
    pub size: u32,
    /// How each batch is scheduled: by which unit, how it is explored, and how it deals with failures.
    pub planning: Planning,
    /// Whether the notes have a line for each batch, and the tally at the end.
    pub notes: bool,
    /// The input if the program makes it itself; none if it reads one.
    pub generated: Option<Generated>,
    /// How many batches are read and planned while one is run: 0 to 2. With 0 a batch is read when the one before was
    /// run and written.
    pub ahead: u32,
    /// Whether a viewer looks at the balances beside each batch, and the notes get an audit line of what it saw. There
    /// is none if batches are read ahead.
    pub watch: bool,
    /// What is done with the journals of batches. None is kept if batches are read ahead or watched, if there are
    /// several workers, with eager abort, or if the program chooses the strategies.
    pub check: Check,
}

impl Settings {
    /// What a run reports: a summary if the program makes the input itself.
    pub fn report(&self) -> Report
        ensures { result ≡ report_of self.now }
    {
        match self.generated {
            None => Report::Whole,
            Some(_) => Report::Summary,
        }
    }
}

/// The number of workers if the words say none.
pub const DEFAULT_WORKERS: u64 = 1;

/// The number of ids in each table if the words say none.
pub const DEFAULT_SIZE: u64 = 10_000;

/// The start of the generator if the words say none.
pub const DEFAULT_SEED: u64 = 1;

/// How many events the generator makes if the words say nothing of it.
pub const DEFAULT_EVENTS: u64 = 1_000;

/// How many batches are read and planned ahead if the words say nothing of it.
pub const DEFAULT_AHEAD: u64 = 0;

/// The most batches that are read and planned ahead.
pub const MOST_AHEAD: u64 = 2;

/// The greatest number of ids in a table.
pub const GREATEST_SIZE: u64 = 1_000_000;

/// The greatest seed.
pub const GREATEST_SEED: u64 = 1_000_000_000_000;

/// The most events that a generator makes.
pub const GREATEST_EVENTS: u64 = 1_000_000;
