use interleaving_core::CoreEvent;
use morph_io::LineBuf;
use run_checker::{JournalFault, read_journal, write_event};
use std::test::Fail;

/// An event of each kind, and its line.
static EVENTS: [(CoreEvent, &[u8]); 9] = [
    (CoreEvent::Ready { op: 0 }, b"R 0"),
    (
        CoreEvent::Claim {
            op: 4_294_967_295,
            by: 255,
        },
        b"C 4294967295 255",
    ),
    (
        CoreEvent::Fetch {
            op: 1,
            j: 2,
            by: 3,
            value: 10_000_000_000_000,
        },
        b"F 1 2 3 10000000000000",
    ),
    (CoreEvent::Finish { op: 7, by: 16 }, b"N 7 16"),
    (CoreEvent::GiveBack { op: 7, by: 16 }, b"G 7 16"),
    (CoreEvent::Spread { op: 2, sibling: 10 }, b"S 2 10"),
    (CoreEvent::RollBack { op: 20, j: 3 }, b"B 20 3"),
    (
        CoreEvent::Decide {
            event: 100,
            committed: false,
        },
        b"D 100 a",
    ),
    (CoreEvent::Settle { op: 9, by: 1 }, b"T 9 1"),
];

#[test]
fn an_event_has_one_line(rt: HostRuntime) -> Result<(), Fail> {
    for &(event, bytes) in &EVENTS {
        let mut line = LineBuf::new();
        write_event(&event, &mut line);
        assert_eq!(rt; line.bytes(), bytes);
        line.word(b"\n");
        let events = read_journal(rt.alloc(), line.bytes())?;
        assert_eq!(rt; events.as_slice(), [event].as_slice());
    }
    Ok(())
}

/// Texts, and how many events they have as journals, or the first line that is none.
static JOURNALS: [(&[u8], Result<usize, JournalFault>); 10] = [
    (b"", Ok(0)),
    (b"R 0\n", Ok(1)),
    (b"R 0\nD 0 c\n", Ok(2)),
    (b"R 00\n", Err(JournalFault::Form { line: 1 })),
    (b"R 0\nD 0 x\n", Err(JournalFault::Form { line: 2 })),
    (b"R 0\nR 1", Err(JournalFault::Form { line: 2 })),
    (b"R 0\n\n", Err(JournalFault::Form { line: 2 })),
    (b"R 4294967296\n", Err(JournalFault::Form { line: 1 })),
    (
        b"F 0 0 1 10000000000001\n",
        Err(JournalFault::Form { line: 1 }),
    ),
    (b"C 0  1\n", Err(JournalFault::Form { line: 1 })),
];

#[test]
fn the_first_wrong_line_is_named(rt: HostRuntime) {
    for &(bytes, answer) in &JOURNALS {
        assert_eq!(rt;
            read_journal(rt.alloc(), bytes).map(|events| events.len()),
            answer,
            "at {bytes:?}"
        );
    }
}
