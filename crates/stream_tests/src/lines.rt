use crate::readings::source_of;
use event_reader::{Draws, LineNext, Lines, Number, NumberPlaces, ReaderFault, Words, read_number};
use std::test::Fail;

/// Words, and what they say as numbers.
static NUMBERS: [(&[u8], Number); 14] = [
    (b"0", Number::Value(0)),
    (b"7", Number::Value(7)),
    (b"1000000000000", Number::Value(1_000_000_000_000)),
    (b"10000000000000", Number::Value(10_000_000_000_000)),
    (b"10000000000001", Number::TooGreat),
    (b"99999999999999999999999999", Number::TooGreat),
    (b"", Number::NotNumber),
    (b"00", Number::NotNumber),
    (b"007", Number::NotNumber),
    (b"+1", Number::NotNumber),
    (b"-1", Number::NotNumber),
    (b"1x", Number::NotNumber),
    (b"99999999999999999999999999x", Number::NotNumber),
    (b"1.0", Number::NotNumber),
];

#[test]
fn words_say_numbers(rt: HostRuntime) {
    for &(word, number) in &NUMBERS {
        assert_eq!(rt; read_number(word), number, "at {word:?}");
    }
}

/// Lines, and how many words they have.
static WORDS: [(&[u8], Option<usize>); 10] = [
    (b"P", Some(1)),
    (b"D 1 0 0 1 1", Some(6)),
    (b"1 2 3 4 5 6 7 8 9", Some(9)),
    (b"1 2 3 4 5 6 7 8 9 10 11 12 13 14 15 16 17 18 19", Some(19)),
    (b"1 2 3 4 5 6 7 8 9 10 11 12 13 14 15 16 17 18 19 20", None),
    (b"", None),
    (b" ", None),
    (b" 1", None),
    (b"1 ", None),
    (b"1  2", None),
];

#[test]
fn lines_are_cut_at_single_spaces(rt: HostRuntime) {
    for &(line, count) in &WORDS {
        assert_eq!(rt;
            Words::split(line, &mut NumberPlaces::new()).map(|words| words.count()),
            count,
            "at {line:?}"
        );
    }
}

#[test]
fn a_limit_ends_the_lines(rt: HostRuntime) -> Result<(), Fail> {
    let alloc = rt.alloc();
    let mut source = source_of(alloc, b"D 1 0 0 1 1\nP\nD 2 0 0 1 1\n", 4_096, &[])?;
    let mut lines = Lines::new(alloc, 14)?;
    assert_eq!(rt; lines.next_line(&mut source), Ok(LineNext::Line));
    assert_eq!(rt; lines.line(), b"D 1 0 0 1 1".as_slice());
    assert_eq!(rt; lines.number(), 1);
    assert!(rt; lines.live());
    assert_eq!(rt; lines.next_line(&mut source), Ok(LineNext::Line));
    assert_eq!(rt; lines.line(), b"P".as_slice());
    assert_eq!(rt; lines.number(), 2);
    assert!(rt; lines.live());
    assert_eq!(rt; lines.next_line(&mut source), Err(ReaderFault::TooLong));
    assert!(rt; !lines.live());
    Ok(())
}

#[test]
fn faults_tell_what_they_are(rt: HostRuntime) -> Result<(), Fail> {
    let rows = [
        (ReaderFault::ReadFault, "read failed"),
        (ReaderFault::TooLong, "input too long"),
        (ReaderFault::OutOfMemory, "out of memory"),
    ];
    for (fault, text) in rows {
        assert_eq!(rt; format!(in rt.alloc(); "{fault}")?.as_str(), text);
    }
    Ok(())
}

#[test]
fn the_first_draw_of_seed_0(rt: HostRuntime) {
    let mut draws = Draws::new(0);
    assert_eq!(rt; draws.draw(1_000), 807);
    let mut draws = Draws::new(0);
    assert_eq!(rt; draws.draw(4), 3);
}
