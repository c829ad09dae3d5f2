ghost use Rattle.std.specs.Prelude.{◌≡◌, ◌<◌, ◌≤◌, [], length, drop, IfOk, All};
ghost use Rattle.left_right.specs.Sides.{view};
ghost use Rattle.snapshot_reader.specs.Known.{IsNew, most_ids, most_viewers};
ghost use Rattle.snapshot_reader.specs.Steady.{NoChangeWaits};

use crate::balances::Balances;
use crate::publisher::Publisher;
use crate::rule::BalanceWriter;
use crate::viewer::Viewer;
use left_right::writer::Writer;
use morph_base::{Layout, List, OutOfMemory};
use std::alloc::Global;

/// The most viewers of one publisher.
pub const MOST_VIEWERS: u32 = 4;

/// The writer of balances that are all 0, with room for `readers` readers.
fn writer(alloc: Global, layout: Layout, readers: usize) -> Result<BalanceWriter, OutOfMemory>
    requires some { 0 < readers }
    requires few { readers ≤ 5 }
    ensures steady { IfOk result (λ w. NoChangeWaits w.desk.shown.value (view w.desk.place).seen
        (drop w.behind w.log.items)) }
    ensures layout { IfOk result (λ w. w.desk.shown.value.layout ≡ layout) }
    ensures unseen { IfOk result (λ w. (view w.desk.place).seen ≡ []) }
{
    let first = Balances::opening(alloc, layout)?;
    let second = Balances::opening(alloc, layout)?;
    Ok(Writer::new(alloc, first, second, readers)?)
}

/// A viewer that has seen nothing.
fn viewer(writer: &BalanceWriter, layout: Layout) -> Viewer
    requires { layout.size ≤ most_ids }
    ensures { IsNew layout result }
{
    Viewer {
        layout,
        least: 0,
        reader: writer.factory().reader().ok(),
    }
}

/// A publisher that has published nothing, and `viewers` viewers of it, at most [`MOST_VIEWERS`]. The balances are
/// those of the layout, whose tables have at most 1,000,000 ids each, and are all 0.
///
/// If `left_right` hands out no reader for a viewer, that viewer sees nothing; this is not a lack of memory.
pub fn snapshots(
    alloc: Global,
    layout: Layout,
    viewers: u32,
) -> Result<(Publisher, List<Viewer>), OutOfMemory>
    requires size { layout.size ≤ most_ids }
    requires some { 0 < viewers }
    requires few { viewers ≤ most_viewers }
    ensures layout { IfOk result (λ made. made.0.layout ≡ layout) }
    ensures none { IfOk result (λ made. made.0.plans ≡ []) }
    ensures count { IfOk result (λ made. length made.1.items ≡ viewers) }
    ensures viewers { IfOk result (λ made. All (IsNew layout) made.1.items) }
{
    let mut list = List::with_room(alloc, viewers as usize)?;
    let writer = writer(alloc, layout, viewers as usize + 1)?;
    fill(&mut list, &writer, layout, viewers);
    Ok((Publisher { writer }, list))
}

/// Adds `viewers` viewers.
fn fill(list: &mut List<Viewer>, writer: &BalanceWriter, layout: Layout, viewers: u32)
    requires size { layout.size ≤ most_ids }
    requires room { list.old.room ≡ viewers }
    requires empty { list.old.items ≡ [] }
    ensures count { length list.new.items ≡ viewers }
    ensures viewers { All (IsNew layout) list.new.items }
{
    for i in 0..viewers {
        list.add(viewer(writer, layout));
    }
}
