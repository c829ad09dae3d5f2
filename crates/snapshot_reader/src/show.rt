ghost use Rattle.std.specs.Prelude.{◌≡◌, ◌++◌, [], ◌∷◌, drop, OnOk, OnErr};
ghost use Rattle.left_right.specs.Sides.{view};
ghost use Rattle.snapshot_reader.specs.Steady.{OneChangeWaits, NoChangeWaits, batches_in};

use crate::change::Change;
use crate::rule::{BalanceWriter, Publishing};
use core::mem::replace_with;
use morph_base::OutOfMemory;
use std::alloc::AllocError;
use std::sync::Wait;

/// Lets a change wait. If memory is refused, nothing waits.
pub fn add(writer: &mut BalanceWriter, change: Change) -> Result<(), OutOfMemory>
    requires { drop writer.old.behind writer.old.log.items ≡ [] }
    ensures due { OnOk result (drop writer.new.behind writer.new.log.items ≡ change ∷ []) }
    ensures refused { OnErr result (drop writer.new.behind writer.new.log.items ≡ []) }
    ensures kept { writer.new.desk ≡ writer.old.desk }
{
    match writer.append(change) {
        Ok(()) => Ok(()),
        Err(_) => Err(OutOfMemory),
    }
}

/// Shows the readers the change that waits.
fn shown<R: Wait>(rt: &R, writer: BalanceWriter) -> (BalanceWriter, Result<(), AllocError>)
    requires { OneChangeWaits writer.desk.shown.value (view writer.desk.place).seen
        (drop writer.behind writer.log.items) }
    ensures steady { let new = result.0 in NoChangeWaits new.desk.shown.value
        (view new.desk.place).seen (drop new.behind new.log.items) }
    ensures more { (view result.0.desk.place).seen
        ≡ (view writer.desk.place).seen ++ batches_in (drop writer.behind writer.log.items) }
    ensures layout { result.0.desk.shown.value.layout ≡ writer.desk.shown.value.layout }
{
    writer.publish_as::<Publishing, R>(rt)
}

/// Shows the change that waits, by reference. The writer is put back in every case, and overwriting never fails.
pub fn show<R: Wait>(rt: &R, writer: &mut BalanceWriter)
    requires { OneChangeWaits writer.old.desk.shown.value (view writer.old.desk.place).seen
        (drop writer.old.behind writer.old.log.items) }
    ensures steady { NoChangeWaits writer.new.desk.shown.value (view writer.new.desk.place).seen
        (drop writer.new.behind writer.new.log.items) }
    ensures more { (view writer.new.desk.place).seen ≡ (view writer.old.desk.place).seen
        ++ batches_in (drop writer.old.behind writer.old.log.items) }
    ensures layout { writer.new.desk.shown.value.layout ≡ writer.old.desk.shown.value.layout }
{
    let _ = replace_with(
        writer,
        rt,
        |writer: BalanceWriter, rt: &R|
            requires { OneChangeWaits writer.desk.shown.value (view writer.desk.place).seen
                (drop writer.behind writer.log.items) }
        { shown(rt, writer) },
    );
}
