ghost use Rattle.std.specs.Prelude.{◌≡◌, false, None};
ghost use Rattle.morph_cli.specs.Outputs.{outputs_of};
ghost use Rattle.morph_cli.specs.Tellers.{teller_view, CanTell, TellsRan};

use crate::tell::tell_counted;
use crate::watch::Watched;
use batch_pipe::{Ran, Teller};
use morph_io::{Out, Sink};
use run_text::{Settings, Tally};
use std::alloc::Global;
use std::thread::Threads;

/// What counts and writes the result of each batch of a run that reads ahead, as soon as the batch was run. It refuses
/// a result if a write of it failed.
#[derive(Drop)]
pub struct BatchTeller<'rt, 'sink, 'notes, 'tally, R, K, N> {
    pub rt: &'rt R,
    pub alloc: Global,
    pub settings: &'sink Settings,
    /// What is not yet written: nothing between two batches.
    pub out: &'sink mut Out,
    pub sink: &'sink mut K,
    pub notes: &'notes mut N,
    pub tally: &'tally mut Tally,
}

impl<R: Threads, K: Sink, N: Sink> Teller for BatchTeller<'_, '_, '_, '_, R, K, N> {
    ghost use Rattle.morph_cli.specs.TellerLaws.{tells_on};

    ghost can_take = { λ it number. CanTell number (teller_view it.settings.now it.out.now it.tally.now
        (outputs_of (K.written it.sink.now) (N.written it.notes.now))
        (K.faults it.sink.now) (N.faults it.notes.now)) };

    ghost takes = { λ old ran all new. TellsRan
        (teller_view old.settings.now old.out.now old.tally.now
        (outputs_of (K.written old.sink.now) (N.written old.notes.now))
        (K.faults old.sink.now) (N.faults old.notes.now))
        ran all
        (teller_view new.settings.now new.out.now new.tally.now
        (outputs_of (K.written new.sink.now) (N.written new.notes.now))
        (K.faults new.sink.now) (N.faults new.notes.now))
        × (new.out.ghost_name ≡ old.out.ghost_name) × (new.sink.ghost_name ≡ old.sink.ghost_name)
        × (new.notes.ghost_name ≡ old.notes.ghost_name) × (new.tally.ghost_name ≡ old.tally.ghost_name) };

    ghost goes_on = { λ old new ran can result told. tells_on ran.number _ _ ran can result told.0 };

    fn take(&mut self, ran: Ran) -> bool {
        let ran = Watched {
            end: ran.end,
            audit: None,
        };
        tell_counted(
            self.rt,
            self.alloc,
            self.out,
            self.sink,
            self.notes,
            self.settings,
            self.tally,
            &ran,
        )
        .is_ok()
    }
}
