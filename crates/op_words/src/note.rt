ghost use Rattle.std.specs.Prelude.{◌≡◌, ◌∷◌, ◌++◌, [], take};
ghost use Rattle.op_words.specs.Journals.{room_in, steps_in};

use crate::journal::Journal;
use interleaving_core::CoreEvent;

/// Writes a step down, if a journal is kept and has room.
pub(crate) fn note(journal: &mut Option<Journal>, step: CoreEvent)
    ensures room { room_in journal.new ≡ room_in journal.old }
    ensures steps { steps_in journal.new
        ≡ take (room_in journal.old) (steps_in journal.old ++ step ∷ []) }
{
    if let Some(journal) = journal {
        journal.add(step);
    }
}
