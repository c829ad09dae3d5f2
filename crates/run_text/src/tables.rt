ghost use Rattle.std.specs.Prelude.{◌≡◌, ◌<◌, ◌≤◌, length};
ghost use Rattle.morph_base.specs.Flat.{contents};
ghost use Rattle.event_reader.specs.declared.limits.TheConstants.{NAME_BYTES};
ghost use Rattle.run_text.specs.declared.choices.TheConstants.{GREATEST_SIZE};
ghost use Rattle.run_text.specs.Calls.{buffered, PutsText};
ghost use Rattle.run_text.specs.Text.{value_line, table_lines, total_line, told_table, told_values};
ghost use Rattle.version_table.specs.Totals.{total_of};

use crate::report::Report;
use event_reader::EventApp;
use morph_base::Key;
use morph_io::{LineBuf, Out, Sink, WriteFailed};
use version_table::State;

/// Puts the line of a value, if it is not zero: the table's name, the id and the value.
fn put_value<K: Sink>(
    out: &mut Out,
    sink: &mut K,
    name: &str,
    id: u32,
    value: u64,
) -> Result<(), WriteFailed>
    requires short { length name.now ≤ NAME_BYTES }
    ensures { PutsText K.written K.faults (value_line name.now id value)
        result (buffered sink.old out.old) (buffered sink.new out.new) }
{
    if value == 0 {
        return Ok(());
    }
    let mut line = LineBuf::new();
    line.word(name.as_bytes());
    line.word(b" ");
    line.number(u64::from(id));
    line.word(b" ");
    line.number(value);
    line.word(b"\n");
    out.put(sink, &line)
}

/// Puts the lines of the values of a table that are not zero, by id.
fn put_table<K: Sink>(
    out: &mut Out,
    sink: &mut K,
    name: &str,
    values: &State,
    table: u8,
) -> Result<(), WriteFailed>
    requires table { table < values.now.layout.tables }
    requires short { length name.now ≤ NAME_BYTES }
    ensures { PutsText K.written K.faults
        (table_lines name.now (contents values.now) table values.now.layout.size)
        result (buffered sink.old out.old) (buffered sink.new out.new) }
{
    for id in 0..values.layout().size {
        let value = values.get(Key { table, id });
        put_value(out, sink, name, id, value)?;
    }
    Ok(())
}

/// The sum of the values of a table.
fn total(values: &State, table: u8) -> u64
    requires table { table < values.now.layout.tables }
    requires few_ids { values.now.layout.size ≤ GREATEST_SIZE }
    ensures { result ≡ total_of (contents values.now) table values.now.layout.size }
{
    let mut total = 0;
    for id in 0..values.layout().size {
        total += values.get(Key { table, id });
    }
    total
}

/// Puts the line of the sum of a table's values.
fn put_total<K: Sink>(
    out: &mut Out,
    sink: &mut K,
    name: &str,
    values: &State,
    table: u8,
) -> Result<(), WriteFailed>
    requires table { table < values.now.layout.tables }
    requires few_ids { values.now.layout.size ≤ GREATEST_SIZE }
    requires short { length name.now ≤ NAME_BYTES }
    ensures { PutsText K.written K.faults
        (total_line name.now (contents values.now) table values.now.layout.size)
        result (buffered sink.old out.old) (buffered sink.new out.new) }
{
    let mut line = LineBuf::new();
    line.word(name.as_bytes());
    line.word(b" total ");
    line.number(total(values, table));
    line.word(b"\n");
    out.put(sink, &line)
}

/// Puts what is reported of a table's values.
fn put_told_table<K: Sink>(
    out: &mut Out,
    sink: &mut K,
    report: Report,
    name: &str,
    values: &State,
    table: u8,
) -> Result<(), WriteFailed>
    requires table { table < values.now.layout.tables }
    requires few_ids { values.now.layout.size ≤ GREATEST_SIZE }
    requires short { length name.now ≤ NAME_BYTES }
    ensures { PutsText K.written K.faults
        (told_table report name.now (contents values.now) table values.now.layout.size)
        result (buffered sink.old out.old) (buffered sink.new out.new) }
{
    match report {
        Report::Whole => put_table(out, sink, name, values, table),
        Report::Summary => put_total(out, sink, name, values, table),
    }
}

/// Puts what is reported of the values, table by table.
pub fn put_told_values<A: EventApp, K: Sink>(
    out: &mut Out,
    sink: &mut K,
    app: &A,
    report: Report,
    values: &State,
) -> Result<(), WriteFailed>
    requires tables { values.now.layout.tables ≡ A.table_count app.now }
    requires few_ids { values.now.layout.size ≤ GREATEST_SIZE }
    ensures { PutsText K.written K.faults
        (told_values report values.now.layout (A.name_of app.now) (contents values.now))
        result (buffered sink.old out.old) (buffered sink.new out.new) }
{
    for table in 0..app.tables() {
        let name = app.table_name(table);
        put_told_table(out, sink, report, name, values, table)?;
    }
    Ok(())
}
