ghost use Rattle.std.specs.Prelude.{◌≡◌, ℕ, ◌≤◌, []};
ghost use Rattle.event_reader.specs.Limits.{generated_events, generated_ids};
ghost use Rattle.event_reader.specs.Generated.{Drawn, GeneratesEvents};

use crate::app::EventApp;
use crate::draws::Draws;
use morph_io::LineBuf;

/// An application that makes input of its own, for runs of any size without a source.
///
/// An application whose input is only read needs none of this.
pub trait MakesInput: EventApp {
    /// What the generator writes as the line of event i if each table has `size` ids, from a state of its draws: the
    /// line without its LF, and the state after it.
    ghost generated: { Self → (size i state : ℕ) → Drawn };

    /// Writes the line of event `i` without its LF into an empty buffer, by draws in their order. Each table has `size`
    /// ids.
    fn generate(&self, draws: &mut Draws, i: u64, size: u32, line: &mut LineBuf)
        requires empty { line.old ≡ [] }
        requires event { 1 ≤ i }
        requires last { i ≤ generated_events }
        requires size { 1 ≤ size }
        requires ids { size ≤ generated_ids }
        ensures line { line.new ≡ (generated self.now size i draws.old).line }
        ensures state { draws.new ≡ (generated self.now size i draws.old).state };

    /// Each line that is generated is an event's in version 1, at the time of its number.
    ghost generates: { GeneratesEvents Self.event_of generated };
}
