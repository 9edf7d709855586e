use crate::{
    Batch, Failed, MemSink, MemSource, NumberError, OutOfMemory, Piece, ReaderSource, Sink,
    SinkError, Source, StdError, StdOutput, StdSource, SureSink, SureSource, Word, WriterSink,
    put_all, put_decimal, read_number,
};
use std::io;
use std::io::{Read, Write};

const NINES: &[u8] = b"9999999999999999999999999999999999999999";

#[test]
fn reads_numbers(rt: HostRuntime) {
    let cases: [(&[u8], Result<u64, NumberError>); 10] = [
        (b"", Err(NumberError::Digit)),
        (b"+7", Err(NumberError::Digit)),
        (b"7a", Err(NumberError::Digit)),
        (
            b"000000000000000000000000000000000000000a",
            Err(NumberError::Digit),
        ),
        (b"0000000000000000000000000000000000000007", Ok(7)),
        (b"2", Err(NumberError::Range)),
        (b"3", Ok(3)),
        (b"18446744073709551614", Ok(18446744073709551614)),
        (b"18446744073709551615", Err(NumberError::Range)),
        (NINES, Err(NumberError::Range)),
    ];
    for (text, want) in cases {
        assert_eq!(rt; read_number(text, 3, u64::MAX - 1), want, "at {text:?}");
    }
    assert_eq!(rt;
        read_number(b"18446744073709551615", 0, u64::MAX),
        Ok(u64::MAX)
    );
    assert_eq!(rt;
        read_number(b"18446744073709551616", 0, u64::MAX),
        Err(NumberError::Range)
    );
}

#[test]
fn puts_a_front_up_to_the_failure(rt: HostRuntime) -> Result<(), OutOfMemory> {
    let text = b"a text of thirty and five bytes now";
    for call in 1..=5 {
        let mut sink = MemSink::new(rt.alloc(), 10, vec![in rt.alloc(); call]?);
        let fails = call < 5;
        let want = if fails {
            Err(SinkError::Failed)
        } else {
            Ok(())
        };
        assert_eq!(rt; put_all(&mut sink, text), want, "at {call}");
        let stands = if fails { 10 * (call as usize - 1) } else { 35 };
        assert_eq!(rt; sink.written().len(), stands, "at {call}");
        assert!(rt; text.starts_with(sink.written()));
    }
    Ok(())
}

#[test]
fn puts_decimals(rt: HostRuntime) -> Result<(), OutOfMemory> {
    let mut sink = MemSink::new(rt.alloc(), 10, vec![in rt.alloc(); 3]?);
    assert_eq!(rt; put_decimal(&mut sink, u64::MAX), Ok(()));
    assert_eq!(rt; put_decimal(&mut sink, 5), Err(SinkError::Failed));
    assert_eq!(rt; put_decimal(&mut sink, 0), Ok(()));
    assert_eq!(rt; sink.written(), &b"184467440737095516150"[..]);
    Ok(())
}

// Three lines of a number and a word, which a batch writes in three calls.
fn put_lines<O: Sink>(batch: &mut Batch, sink: &mut O) -> Result<(), SinkError> {
    batch.put_decimal(sink, 1)?;
    batch.put(sink, b" word\n")?;
    for number in [22, 333] {
        batch.put_pieces(sink, &[Piece::Number(number), Piece::Text(b" word\n")])?;
    }
    batch.finish(sink)
}

#[test]
fn a_batch_writes_a_front_up_to_the_failure(rt: HostRuntime) -> Result<(), OutOfMemory> {
    let lines = b"1 word\n22 word\n333 word\n";
    for call in 1..=4 {
        let mut sink = MemSink::new(rt.alloc(), 10, vec![in rt.alloc(); call]?);
        let fails = call < 4;
        let want = if fails {
            Err(SinkError::Failed)
        } else {
            Ok(())
        };
        assert_eq!(rt; put_lines(&mut Batch::new(), &mut sink), want, "at {call}");
        let stands = if fails { 10 * (call as usize - 1) } else { 24 };
        assert_eq!(rt; sink.written().len(), stands, "at {call}");
        assert!(rt; lines.starts_with(sink.written()));
    }
    Ok(())
}

#[test]
fn a_batch_takes_a_text_longer_than_its_array(rt: HostRuntime) -> Result<(), OutOfMemory> {
    let text = vec![in rt.alloc(); 7u8; 70000]?;
    let part = &text[..60000];
    let mut sink = SureSink::new(rt.alloc(), 30000);
    let mut batch = Batch::new();
    assert_eq!(rt; batch.put(&mut sink, b"before"), Ok(()));
    assert_eq!(rt; batch.put(&mut sink, &text), Ok(()));
    assert_eq!(rt; sink.written().len(), 70006);
    assert_eq!(rt; batch.put(&mut sink, part), Ok(()));
    assert_eq!(rt; sink.written().len(), 70006);
    assert_eq!(rt; batch.put(&mut sink, part), Ok(()));
    assert_eq!(rt; sink.written().len(), 130006);
    assert_eq!(rt; batch.finish(&mut sink), Ok(()));
    assert_eq!(rt; sink.written().len(), 190006);
    Ok(())
}

#[test]
fn reads_from_memory(rt: HostRuntime) -> Result<(), OutOfMemory> {
    let bytes = b"sixteen bytes or twenty";
    let failing = vec![in rt.alloc(); 2, 3]?;
    let mut source = MemSource::new(Vec::from_slice(rt.alloc(), bytes)?, 16, failing);
    let mut buf = [0; 20];
    assert_eq!(rt; source.read(&mut buf), Ok(16));
    assert_eq!(rt; buf[..16], bytes[..16]);
    assert_eq!(rt; source.read(&mut buf), Err(Failed));
    assert_eq!(rt; source.read(&mut buf), Err(Failed));
    assert_eq!(rt; source.read(&mut buf[..3]), Ok(3));
    assert_eq!(rt; source.read(&mut buf), Ok(4));
    assert_eq!(rt; buf[..4], bytes[19..]);
    assert_eq!(rt; source.read(&mut buf), Ok(0));

    let mut sure = SureSource::new(Vec::from_slice(rt.alloc(), bytes)?, usize::MAX);
    assert_eq!(rt; sure.read(&mut buf), Ok(20));
    assert_eq!(rt; buf[..], bytes[..20]);
    Ok(())
}

// A reader of letters, whose second call fails.
#[derive(Drop)]
struct Letters {
    calls: u8,
}

impl Read for Letters {
    fn read(&mut self, buf: &mut [u8]) -> io::Result<usize> {
        self.calls = self.calls.saturating_add(1);
        if self.calls == 2 {
            return Err(io::ErrorKind::Interrupted.into());
        }
        let count = buf.len().min(5);
        buf[..count].fill(b'a' + self.calls % 26);
        Ok(count)
    }
}

#[test]
fn an_empty_buffer_reads_nothing_ahead(rt: HostRuntime) {
    let mut letters = ReaderSource::new(Letters { calls: 0 });
    assert_eq!(rt; letters.read(&mut []), Ok(0));
    let mut word = [0; 3];
    assert_eq!(rt; letters.read(&mut word), Ok(3));
    assert_eq!(rt; word, *b"bbb");
}

#[test]
fn reads_ahead(rt: HostRuntime) -> Result<(), OutOfMemory> {
    let bytes = vec![in rt.alloc(); 9u8; 70000]?;
    let mut source = ReaderSource::new(bytes.as_slice());
    let mut buf = vec![in rt.alloc(); 0u8; 65000]?;
    for want in [65000, 536, 4464, 0] {
        assert_eq!(rt; source.read(&mut buf), Ok(want));
    }

    let mut letters = ReaderSource::new(Letters { calls: 0 });
    let mut word = [0; 3];
    assert_eq!(rt; letters.read(&mut word), Ok(3));
    assert_eq!(rt; word, *b"bbb");
    assert_eq!(rt; letters.read(&mut word), Ok(2));
    assert_eq!(rt; letters.read(&mut word), Err(Failed));
    assert_eq!(rt; letters.read(&mut word), Ok(3));
    assert_eq!(rt; word, *b"ddd");
    Ok(())
}

#[test]
fn opens_the_standard_streams(rt: HostRuntime) {
    let mut input = StdSource::new(rt.stdin());
    assert_eq!(rt; input.read(&mut [0; 4]), Ok(0));
    let mut output = StdOutput::new(rt.stdout());
    assert_eq!(rt; output.write(b""), Ok(0));
    let mut error = StdError::new(rt.stderr());
    assert_eq!(rt; error.write(b""), Ok(0));
}

// A writer that takes at most so many bytes a call.
#[derive(Drop)]
struct Narrow<'a> {
    taken: &'a mut Vec<u8>,
    limit: usize,
}

impl Write for Narrow<'_> {
    fn write(&mut self, buf: &[u8]) -> io::Result<usize> {
        let count = buf.len().min(self.limit);
        match self.taken.extend_from_slice(&buf[..count]) {
            Ok(()) => Ok(count),
            Err(_) => Err(io::ErrorKind::OutOfMemory.into()),
        }
    }

    fn flush(&mut self) -> io::Result<()> {
        Ok(())
    }
}

#[test]
fn writes_to_a_narrow_writer(rt: HostRuntime) -> Result<(), OutOfMemory> {
    let lines = b"1 word\n22 word\n333 word\n";
    for limit in [0, 1, 7] {
        let mut taken = Vec::new(rt.alloc());
        let writer = Narrow {
            taken: &mut taken,
            limit,
        };
        let mut sink = WriterSink::new(writer);
        let want = if limit == 0 {
            Err(SinkError::Failed)
        } else {
            Ok(())
        };
        assert_eq!(rt; sink.write(b""), Ok(0));
        assert_eq!(rt; put_lines(&mut Batch::new(), &mut sink), want, "at {limit}");
        let stands: &[u8] = if limit == 0 { b"" } else { lines };
        assert_eq!(rt; taken.as_slice(), stands, "at {limit}");
    }
    Ok(())
}

#[test]
fn wants_memory_as_the_system_says(rt: HostRuntime) {
    let wanted = io::ErrorKind::OutOfMemory.into();
    assert!(rt; OutOfMemory::of_system(&wanted).is_some());
    let broken = io::ErrorKind::BrokenPipe.into();
    assert!(rt; OutOfMemory::of_system(&broken).is_none());
    assert!(rt; Vec::<u8>::with_capacity(rt.alloc(), usize::MAX).is_err());
}

#[test]
fn keeps_words(rt: HostRuntime) -> Result<(), OutOfMemory> {
    let word = Word::of(rt.alloc(), b"threshold=2")?;
    assert_eq!(rt; word.bytes(), &b"threshold=2"[..]);
    Ok(())
}
