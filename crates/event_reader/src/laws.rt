//! Laws of definitions that callers of this crate cite.
ghost use Rattle.std.specs.Prelude.{◌≡◌, ℕ, ◌-◌, ◌<◌, ◌≤◌, ◌↔◌, nat_eq, List, [], map, flat_map, take, length, sum_by};
ghost use Rattle.std.specs.List.{All, AllPairs, IsDistinct};
ghost use Rattle.morph_base.specs.Transactions.{time};
ghost use Rattle.event_reader.specs.declared.cause.Cause.{Cause};
ghost use Rattle.event_reader.specs.Lines.{Reading, lines_of};
ghost use Rattle.event_reader.specs.Steps.{Meaning};
ghost use Rattle.event_reader.specs.Versions.{lines_read, version_of};
ghost use Rattle.event_reader.specs.LineEvents.{IsBefore, batches_said, closed_said, events_said};
ghost use Rattle.event_reader.specs.FirstRefused.{HasCauses, IsFirstRefusedIn};
ghost use Rattle.event_reader.specs.Limits.{generated_events, generated_ids, input_bytes};
ghost use Rattle.event_reader.specs.Accepted.{Ended, RefusedAt, CutOff, accepted, accepted_first, accepted_within};
ghost use Rattle.event_reader.specs.GeneratedText.{generated_text};

use crate::makes_input::MakesInput;

/// No line of a generated text is refused, whatever the seed. Its batches have as many events as were asked for, and
/// the text never reaches the greatest length of an input.
///
/// A run on a generated text therefore reads all of it.
pub fn generated_text_is_accepted<A: MakesInput>()
    ensures ended { (app : A) (size seed events : ℕ) → 0 < size → size ≤ generated_ids
        → events ≤ generated_events
        → (accepted (A.event_of app size)
        (generated_text (A.generated app size) seed events)).ending ≡ Ended }
    ensures events { (app : A) (size seed events : ℕ) → 0 < size → size ≤ generated_ids
        → events ≤ generated_events
        → sum_by (λ batch. length batch)
        (accepted (A.event_of app size) (generated_text (A.generated app size) seed events)).batches
        ≡ events }
    ensures short { (app : A) (size seed events : ℕ) → 0 < size → size ≤ generated_ids
        → events ≤ generated_events
        → length (generated_text (A.generated app size) seed events) < input_bytes }
    ensures within { (app : A) (size seed events : ℕ) → 0 < size → size ≤ generated_ids
        → events ≤ generated_events
        → let text = generated_text (A.generated app size) seed events in
        accepted_within (A.event_of app size) input_bytes text
        ≡ accepted (A.event_of app size) text }
{}

/// If no line of an input is refused, its batches are the events between its punctuations, wherever there are any. One
/// after another they are all events that its lines say, in order.
///
/// If a line is refused, or the lines are cut off, the batches are the events in front of the punctuations before that
/// place. The events of the unfinished batch are left out.
pub fn batches_stand_between_punctuations()
    ensures between { (meaning : Meaning) (input : List ℕ) → (accepted meaning input).ending ≡ Ended
        → (accepted meaning input).batches
        ≡ batches_said (meaning (version_of (lines_of input))) (lines_read (lines_of input)) }
    ensures joined { (meaning : Meaning) (input : List ℕ) → (accepted meaning input).ending ≡ Ended
        → flat_map (λ batch. batch) (accepted meaning input).batches
        ≡ events_said (meaning (version_of (lines_of input))) (lines_read (lines_of input)) }
    ensures refused { (meaning : Meaning) (reading : Reading) (line : ℕ) (cause : Cause)
        → (accepted_first meaning 0 [] reading).ending ≡ RefusedAt line cause
        → (accepted_first meaning 0 [] reading).batches
        ≡ closed_said (meaning (version_of reading.lines))
        (lines_read (take (line - 1) reading.lines)) }
    ensures cut { (meaning : Meaning) (reading : Reading)
        → (accepted_first meaning 0 [] reading).ending ≡ CutOff
        → (accepted_first meaning 0 [] reading).batches
        ≡ closed_said (meaning (version_of reading.lines)) (lines_read reading.lines) }
{}

/// Every event of a batch comes before every one of a later batch, and the events of a batch have different
/// timestamps, of whatever lines are read.
pub fn timestamps_rise_from_batch_to_batch()
    ensures later { (meaning : Meaning) (reading : Reading)
        → AllPairs IsBefore (accepted_first meaning 0 [] reading).batches }
    ensures apart { (meaning : Meaning) (reading : Reading)
        → All (λ batch. IsDistinct nat_eq (map time batch))
        (accepted_first meaning 0 [] reading).batches }
{}

/// A line is refused exactly if it is the first to which a cause applies, and its cause is the least that does, in the
/// order long, form, range, same, late, twice, full. The version line is not refused, and all others are lines of its
/// version.
pub fn the_first_line_with_a_cause_is_refused()
    ensures { (meaning : Meaning) (reading : Reading) (line : ℕ) (cause : Cause)
        → HasCauses meaning
        → ((accepted_first meaning 0 [] reading).ending ≡ RefusedAt line cause
        ↔ IsFirstRefusedIn meaning reading.lines line cause) }
{}
