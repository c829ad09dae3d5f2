ghost use Rattle.std.specs.Prelude.{◌≡◌, ℕ, ◌<◌, ◌≤◌, List, [], Result, length};
ghost use Rattle.morph_base.specs.Transactions.{Transaction};
ghost use Rattle.event_reader.specs.Limits.{name_bytes};
ghost use Rattle.event_reader.specs.declared.cause.Cause.{Cause};
ghost use Rattle.event_reader.specs.declared.version.Version.{Version};
ghost use Rattle.event_reader.specs.Reader.{GivesEvent, GivesValid, IsOfWords};

use crate::cause::LineFault;
use crate::version::Version;
use crate::words::Words;
use morph_base::EventOps;
use std::alloc::Global;

/// An application: its tables, and what the words of its event lines say.
pub trait EventApp {
    /// The number of its tables.
    ghost table_count: { Self → ℕ };

    /// The printed name of a table.
    ghost name_of: { Self → ℕ → List ℕ };

    /// What the words of a line say if each table has this many ids, in an input of each version: an event, or the
    /// first that applies of the causes form, range and same.
    ghost event_of: { Self → ℕ → Version → List (List ℕ) → Result Transaction Cause };

    /// The number of tables, which are numbered from 0.
    fn tables(&self) -> u8
        ensures { result ≡ table_count self.now };

    /// The printed name of a table, of at most [`NAME_BYTES`](crate::NAME_BYTES) bytes.
    fn table_name(&self, table: u8) -> &'static str
        requires { table < table_count self.now }
        ensures name { result.now ≡ name_of self.now table }
        ensures short { length result.now ≤ name_bytes };

    /// Reads the words of an event line of an input of this version. Each table has `size` ids. Puts the event's
    /// operations into `ops`, which has none yet, and returns its timestamp. With a fault, what is in `ops` means
    /// nothing.
    fn read_event(
        &self,
        alloc: Global,
        words: &Words<'_>,
        size: u32,
        version: Version,
        ops: &mut EventOps,
    ) -> Result<u64, LineFault>
        requires none { ops.old ≡ [] }
        ensures gives { GivesEvent (event_of self.now size version words.now) result ops.new };

    /// Each event is valid, its keys are in the tables, and its greatest value is that of the version.
    ghost gives_valid: { GivesValid table_count event_of };

    /// Words have no other causes than form, range and same.
    ghost causes: { (app : Self) (size : ℕ) (version : Version) (words : List (List ℕ)) (cause : Cause)
        → event_of app size version words ≡ Result.Err cause → IsOfWords cause };
}
