//! Laws of the definitions that the clauses of a run cite.
ghost use Rattle.std.specs.Prelude.{◌≡◌, ℕ, ◌+◌, Bool, false, List, length};
ghost use Rattle.morph_base.specs.States.{State};
ghost use Rattle.morph_base.specs.Transactions.{Transaction};
ghost use Rattle.morph_engine.specs.Accounts.{Account};
ghost use Rattle.run_text.specs.declared.choices.Settings.{Settings};
ghost use Rattle.run_text.specs.Checks.{is_checked};
ghost use Rattle.run_text.specs.Notes.{noted, batch_notes};
ghost use Rattle.morph_cli.specs.Outputs.{AreAudits, notes_from};

/// If the balances are not watched and no journal is checked, the notes have only the lines of the batches, if they are
/// on.
pub fn unwatched_runs_have_no_audit_lines()
    ensures { (s : Settings) (state : State) (before : ℕ) (done : List (List Transaction))
        (accounts : List Account) (audits : List Bool) → s.watch ≡ false
        → is_checked s.check ≡ false → length done ≡ length accounts → AreAudits s accounts audits
        → notes_from s state before done accounts audits
        ≡ noted s.notes (batch_notes (before + 1) accounts) }
{}
