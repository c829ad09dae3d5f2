//! Texts that are long, made of lines that are alike.
use morph_base::{List, OutOfMemory};
use morph_io::LineBuf;
use std::alloc::Global;

/// A part of the line that is made for a number.
#[derive(Clone, Copy, Debug, PartialEq, Eq)]
pub enum Part {
    Text(&'static [u8]),
    /// The number itself.
    Number,
    /// The number before it.
    Before,
    /// The number behind it.
    After,
}

/// Appends bytes to a list.
pub fn append(list: &mut List<u8>, bytes: &[u8]) -> Result<(), OutOfMemory> {
    for byte in bytes {
        list.push(*byte)?;
    }
    Ok(())
}

/// Appends the digits of a number.
pub fn append_number(list: &mut List<u8>, number: u64) -> Result<(), OutOfMemory> {
    let mut digits = LineBuf::new();
    digits.number(number);
    append(list, digits.bytes())
}

/// Appends a part of the line of a number.
fn append_part(list: &mut List<u8>, part: Part, number: u64) -> Result<(), OutOfMemory> {
    match part {
        Part::Text(text) => append(list, text),
        Part::Number => append_number(list, number),
        Part::Before => append_number(list, number.saturating_sub(1)),
        Part::After => append_number(list, number.saturating_add(1)),
    }
}

/// Appends the lines of these parts for the numbers from 1 to `count`.
pub fn append_lines(list: &mut List<u8>, count: u64, parts: &[Part]) -> Result<(), OutOfMemory> {
    for number in 1..=count {
        for part in parts {
            append_part(list, *part, number)?;
        }
        append(list, b"\n")?;
    }
    Ok(())
}

/// Those lines.
pub fn lines(alloc: Global, count: u64, parts: &[Part]) -> Result<List<u8>, OutOfMemory> {
    let mut list = List::new(alloc);
    append_lines(&mut list, count, parts)?;
    Ok(list)
}

/// The number behind these bytes at the front of a text, and what follows it.
pub fn number_behind<'a>(text: &'a [u8], front: &[u8]) -> Option<(u64, &'a [u8])> {
    let rest = text.strip_prefix(front)?;
    let mut number: u64 = 0;
    for (i, byte) in rest.iter().enumerate() {
        if !byte.is_ascii_digit() {
            return Some((number, &rest[i..]));
        }
        number = number
            .wrapping_mul(10)
            .wrapping_add(u64::from(*byte - b'0'));
    }
    None
}
