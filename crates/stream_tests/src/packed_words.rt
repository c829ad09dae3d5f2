//! Words as numbers.
use morph_base::{MAX, OpState, OpWord};

/// The value, the attempt, the state and the worker of a word, and the number that it packs to.
static PACKED: [(u64, u8, OpState, u8, u64); 6] = [
    (0, 1, OpState::Blocked, 0, 17_592_186_044_416),
    (40, 1, OpState::Executed, 0, 862_017_116_176_424),
    (100, 1, OpState::SettledAborted, 1, 6_491_516_650_389_604),
    (100, 1, OpState::Settled, 1, 6_210_041_673_678_948),
    (100, 2, OpState::Spread, 0, 1_442_559_255_642_212),
    (MAX, 1, OpState::Executed, 0, 0x0003_1918_4e72_a000),
];

#[test]
fn packs_as_laid_out(rt: HostRuntime) {
    for &(value, attempt, state, by, n) in &PACKED {
        let word = OpWord {
            value,
            attempt,
            state,
            by,
        };
        assert!(rt; word.is_in_range());
        assert_eq!(rt; (word.pack(), OpWord::unpack(n)), (n, Some(word)));
    }
}

/// No attempt; an attempt of 9; a value at blocked; a value above the greatest; a state of 8; nobody, and a
/// worker of 17, at claimed; a worker at executed; a bit above the worker.
static NO_WORDS: [u64; 9] = [
    0x0000_0000_0000_0000,
    0x0000_9000_0000_0000,
    0x0000_1000_0000_0001,
    0x0003_1918_4e72_a001,
    0x0008_1000_0000_0000,
    0x0002_1000_0000_0000,
    0x0112_1000_0000_0000,
    0x0013_1000_0000_0028,
    0x0203_1000_0000_0028,
];

#[test]
fn knows_what_no_word_packs_to(rt: HostRuntime) {
    for &n in &NO_WORDS {
        assert_eq!(rt; OpWord::unpack(n), None, "at {n}");
    }
    assert!(rt; OpWord::unpack(0x0003_1918_4e72_a000).is_some());
}
