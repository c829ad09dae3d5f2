use morph_io::{ReadFailed, Sink, Source, StdSink, StdSource, WriteFailed};
use std::io;
use std::io::{Error, ErrorKind, Read, Write};
use std::test::Fail;

/// A stream that is interrupted some times in a row before each of its calls is served.
#[derive(Debug, Drop)]
struct Interrupted {
    times: u32,
    left: u32,
    // How many bytes the next read or write moves, or the kind of its error.
    moves: Result<usize, ErrorKind>,
    flushes: u32,
}

impl Interrupted {
    fn new(times: u32, moves: Result<usize, ErrorKind>) -> Self {
        Interrupted {
            times,
            left: times,
            moves,
            flushes: 0,
        }
    }

    /// One call, which is interrupted if interruptions are left.
    fn call(&mut self) -> io::Result<usize> {
        if self.left > 0 {
            self.left -= 1;
            return Err(Error::from(ErrorKind::Interrupted));
        }
        self.left = self.times;
        match self.moves {
            Ok(count) => Ok(count),
            Err(kind) => Err(Error::from(kind)),
        }
    }
}

impl Read for Interrupted {
    fn read(&mut self, buf: &mut [u8]) -> io::Result<usize> {
        Ok(self.call()?.min(buf.len()))
    }
}

impl Write for Interrupted {
    fn write(&mut self, buf: &[u8]) -> io::Result<usize> {
        Ok(self.call()?.min(buf.len()))
    }

    fn flush(&mut self) -> io::Result<()> {
        self.flushes = self.flushes.saturating_add(1);
        if self.left > 0 {
            self.left -= 1;
            return Err(Error::from(ErrorKind::Interrupted));
        }
        Ok(())
    }
}

#[test]
fn standard_input_is_a_source(rt: HostRuntime) -> Result<(), Fail> {
    let mut source = StdSource::new(rt.stdin());
    let mut buf = [0; 8];
    assert!(rt; source.read(&mut buf)? <= 8);
    Ok(())
}

#[test]
fn standard_output_and_error_are_sinks(rt: HostRuntime) -> Result<(), Fail> {
    let mut output = StdSink::new(rt.stdout());
    assert_eq!(rt; output.write(b"out\n")?, 4);
    let mut error = StdSink::new(rt.stderr());
    assert_eq!(rt; error.write(b"error\n")?, 6);
    Ok(())
}

/// How often a reader is interrupted, what it does then, and the outcome of a read.
static READS: [(u32, Result<usize, ErrorKind>, Result<usize, ReadFailed>); 5] = [
    (0, Ok(3), Ok(3)),
    (0, Ok(0), Ok(0)),
    (1_000, Ok(3), Ok(3)),
    (1_001, Ok(3), Err(ReadFailed)),
    (1, Err(ErrorKind::Other), Err(ReadFailed)),
];

/// The outcome of a read for four bytes, if the reader is interrupted this often and then does this.
fn read_from(times: u32, moves: Result<usize, ErrorKind>) -> Result<usize, ReadFailed> {
    let mut source = StdSource::new(Interrupted::new(times, moves));
    source.read(&mut [0; 4])
}

#[test]
fn an_interrupted_read_is_tried_a_thousand_times_again(rt: HostRuntime) {
    for &(times, moves, answer) in &READS {
        assert_eq!(rt;
            read_from(times, moves),
            answer,
            "after {times} interruptions"
        );
    }
}

/// How often a writer is interrupted, what it does then, the outcome of a write, and how often the writer was flushed:
/// the flush after a write is interrupted as often as the write, and both share the tries of one call.
static WRITES: [(
    u32,
    Result<usize, ErrorKind>,
    (Result<usize, WriteFailed>, u32),
); 6] = [
    (0, Ok(3), (Ok(3), 1)),
    (0, Ok(0), (Err(WriteFailed), 0)),
    (500, Ok(3), (Ok(3), 501)),
    (501, Ok(3), (Err(WriteFailed), 500)),
    (1_001, Ok(3), (Err(WriteFailed), 0)),
    (1, Err(ErrorKind::BrokenPipe), (Err(WriteFailed), 0)),
];

/// The outcome of a write of four bytes, if the writer is interrupted this often and then does this, and how often the
/// writer was flushed.
fn write_to(times: u32, moves: Result<usize, ErrorKind>) -> (Result<usize, WriteFailed>, u32) {
    let mut writer = Interrupted::new(times, moves);
    let answer = StdSink::new(&mut writer).write(b"abcd");
    (answer, writer.flushes)
}

#[test]
fn an_interrupted_write_is_tried_a_thousand_times_again(rt: HostRuntime) {
    for &(times, moves, left) in &WRITES {
        assert_eq!(rt; write_to(times, moves), left, "after {times} interruptions");
    }
}
