//! What follows from the answers of the checker, and what journals are as texts, as the contracts of functions that do
//! nothing.
ghost use Rattle.std.specs.Prelude.{◌≡◌, ℕ, ◌<◌, List, All, Some};
ghost use Rattle.morph_base.specs.declared.plan.Plan.{Plan};
ghost use Rattle.morph_base.specs.Limits.{most_attempts};
ghost use Rattle.morph_base.specs.Plans.{IsPlan, op_count, final};
ghost use Rattle.interleaving_core.specs.declared.event.CoreEvent.{CoreEvent};
ghost use Rattle.interleaving_core.specs.Core.{Core, start, IsSettledIn, value_in};
ghost use Rattle.interleaving_core.specs.Steps.{May};
ghost use Rattle.interleaving_core.specs.Soundness.{IsSound};
ghost use Rattle.interleaving_core.specs.Orders.{Leads};
ghost use Rattle.run_checker.specs.Replay.{AllSettled};
ghost use Rattle.run_checker.specs.Answers.{AreFold, SettlesFold, SettlesWholeFold, Answers};
ghost use Rattle.run_checker.specs.Lines.{HasLine, line_of, text_of};
ghost use Rattle.run_checker.specs.LineEvents.{event_said, Says, IsFirstWrong};
ghost use Rattle.run_checker.specs.declared.checked.Checked.{Checked};
ghost use Rattle.run_checker.specs.declared.checked.Checked.TheVariants.{Yes, Unsettled, Differs};

/// At most one answer is right for a journal and a run's values, so [`check`](crate::check) returns each one exactly if
/// it is right.
pub fn one_answer_is_right()
    ensures { (p : Plan) (cap : ℕ) (journal : List CoreEvent) (values : List ℕ) (r s : Checked)
        → Answers p cap journal values r → Answers p cap journal values s → r ≡ s }
{}

/// If the machine takes a journal, what the journal settles is the fold's. After a yes, each operation is settled with
/// the fold's value, and the run's values are the fold's. After an unsettled operation, or values that differ, what the
/// journal settles has the fold's values. The other way round, the fold's values get a yes from each journal that the
/// machine takes and that settles all operations.
pub fn journals_settle_the_fold()
    ensures taken { (p : Plan) (cap : ℕ) (journal : List CoreEvent) (c : Core) (o : ℕ) → IsPlan p
        → cap < most_attempts → Leads p cap start journal c → o < op_count p → IsSettledIn c o
        → value_in c o ≡ final p o }
    ensures yes { (p : Plan) (cap : ℕ) (journal : List CoreEvent) (values : List ℕ) → IsPlan p
        → cap < most_attempts → Answers p cap journal values Yes
        → SettlesWholeFold p cap journal × AreFold p values }
    ensures unsettled { (p : Plan) (cap : ℕ) (journal : List CoreEvent) (values : List ℕ) (op : ℕ)
        → IsPlan p → cap < most_attempts → Answers p cap journal values (Unsettled op)
        → SettlesFold p cap journal }
    ensures differs { (p : Plan) (cap : ℕ) (journal : List CoreEvent) (values : List ℕ)
        (op own run : ℕ) → IsPlan p → cap < most_attempts
        → Answers p cap journal values (Differs op own run) → SettlesWholeFold p cap journal }
    ensures fold { (p : Plan) (cap : ℕ) (journal : List CoreEvent) (c : Core) (values : List ℕ)
        → IsPlan p → cap < most_attempts → Leads p cap start journal c → AllSettled p c
        → AreFold p values → Answers p cap journal values Yes }
{}

/// Each event that the machine takes has a line, and so has each event of a journal that it takes. Such a journal is
/// the one that its text says.
pub fn what_is_taken_has_lines()
    ensures event { (p : Plan) (cap : ℕ) (c : Core) (e : CoreEvent) → IsPlan p
        → cap < most_attempts → IsSound p cap c → May p cap c e → HasLine e }
    ensures journal { (p : Plan) (cap : ℕ) (journal : List CoreEvent) (c : Core) → IsPlan p
        → cap < most_attempts → Leads p cap start journal c → Says (text_of journal) journal }
{}

/// The line that is written for an event whose numbers are in range says that event; and a line that says an event is
/// the one that is written for it.
pub fn lines_say_their_events()
    ensures written { (e : CoreEvent) → HasLine e → event_said (line_of e) ≡ Some e }
    ensures read { (line : List ℕ) (e : CoreEvent) → event_said line ≡ Some e
        → (line_of e ≡ line) × HasLine e }
{}

/// The text that is written for a journal whose events have lines says that journal, and a text that says a journal is
/// the one that is written for it.
pub fn texts_say_their_journals()
    ensures written { (es : List CoreEvent) → All HasLine es → Says (text_of es) es }
    ensures read { (bytes : List ℕ) (es : List CoreEvent) → Says bytes es
        → (text_of es ≡ bytes) × All HasLine es }
{}

/// A text says at most one journal, or has at most one first wrong line, and never both, so
/// [`read_journal`](crate::read_journal) returns each answer exactly if it is right.
pub fn one_reading_is_right()
    ensures journal { (bytes : List ℕ) (es fs : List CoreEvent) → Says bytes es → Says bytes fs
        → es ≡ fs }
    ensures apart { (bytes : List ℕ) (es : List CoreEvent) (line : ℕ) → Says bytes es
        → IsFirstWrong bytes line → ⊥ }
    ensures line { (bytes : List ℕ) (a b : ℕ) → IsFirstWrong bytes a → IsFirstWrong bytes b
        → a ≡ b }
{}
