ghost use Rattle.std.specs.Prelude.{◌≡◌, [], ◌∷◌, ◌++◌};
ghost use Rattle.run_text.specs.Words.{text_of};

/// The names of the settings.
#[derive(Clone, Copy, Debug, PartialEq, Eq)]
pub enum Name {
    /// The application whose events are read.
    App,
    /// The application whose events the program makes itself.
    Own,
    /// How many workers evaluate a batch.
    Workers,
    /// The number of ids in each table.
    Size,
    /// What is scheduled as a whole.
    Unit,
    /// How a batch is explored.
    Explore,
    /// How it deals with failures.
    Abort,
    /// Whether the program chooses these three itself.
    Plan,
    /// The start of the generator.
    Seed,
    /// How many events it makes.
    Events,
    /// Whether there are notes.
    Notes,
    /// How many batches are read and planned ahead.
    Ahead,
    /// Whether a viewer looks at the balances beside each batch.
    Watch,
    /// Whether a journal of each batch is kept, checked and written.
    Check,
}

/// All names, each once.
pub const NAMES: [Name; 14] = [
    Name::App,
    Name::Own,
    Name::Workers,
    Name::Size,
    Name::Unit,
    Name::Explore,
    Name::Abort,
    Name::Plan,
    Name::Seed,
    Name::Events,
    Name::Notes,
    Name::Ahead,
    Name::Watch,
    Name::Check,
];

impl Name {
    /// The name as it is written at the front of a word, with its `=`.
    pub fn text(self) -> &'static [u8]
        ensures { result.now ≡ text_of self ++ 61 ∷ [] }
    {
        match self {
            Name::App => b"app=",
            Name::Own => b"self=",
            Name::Workers => b"workers=",
            Name::Size => b"size=",
            Name::Unit => b"unit=",
            Name::Explore => b"explore=",
            Name::Abort => b"abort=",
            Name::Plan => b"plan=",
            Name::Seed => b"seed=",
            Name::Events => b"events=",
            Name::Notes => b"notes=",
            Name::Ahead => b"ahead=",
            Name::Watch => b"watch=",
            Name::Check => b"check=",
        }
    }
}
