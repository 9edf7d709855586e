//! Command lines that are refused, each with its refusal.

use super::read;
use crate::{WordCause, WordFault, WordsError, put_word_line, read_words};
use scr_base::{Batch, OutOfMemory, SureSink, Word};
use scr_plan::{DelayCause, DropCause};
use scr_tables::TableCause;
use std::alloc::Global;
use std::process::Abort;
use std::test::Fail;

fn refusal(alloc: Global, line: &str) -> Option<WordFault> {
    match read(alloc, line) {
        Err(WordsError::Refused(fault)) => Some(fault),
        _ => None,
    }
}

// Asks for the refusal of each line.
fn expect(rt: &impl Abort, alloc: Global, cases: &[(&str, u32, WordCause)]) {
    for (words, word, cause) in cases {
        let wanted = WordFault {
            word: *word,
            cause: *cause,
        };
        assert_eq!(rt; refusal(alloc, words), Some(wanted), "at {words}");
    }
}

/// Words, and the line that must come.
const REFUSED: [(&str, &str); 37] = [
    ("", "scr: word 1: NoCommand\n"),
    ("walk", "scr: word 1: Command\n"),
    ("run", "scr: word 2: Missing\n"),
    ("run program=dns", "scr: word 2: Program\n"),
    ("run program=ddos -v", "scr: word 3: NoEquals\n"),
    ("run program=ddos color=red", "scr: word 3: UnknownName\n"),
    ("spray rate=1", "scr: word 3: Missing\n"),
    ("spray program=chain", "scr: word 2: Program\n"),
    ("replay program=table", "scr: word 2: Program\n"),
    ("spray program=ddos ring=1", "scr: word 3: NotHere\n"),
    ("replay program=ddos cores=2", "scr: word 3: NotHere\n"),
    ("replay program=ddos drop=0", "scr: word 3: NotHere\n"),
    ("run program=ddos rate=5", "scr: word 3: NotHere\n"),
    ("plain program=ddos drop=1", "scr: word 3: NotHere\n"),
    ("run program=ddos cores=2 cores=2", "scr: word 4: Twice\n"),
    ("run program=ddos threshold=", "scr: word 3: Value\n"),
    ("run program=knock ports=1,2", "scr: word 3: Value\n"),
    ("run program=ddos cores=17", "scr: word 3: Range\n"),
    ("run program=ddos drop=0", "scr: word 3: Drop Zero at 0\n"),
    (
        "run program=ddos drop=7-3",
        "scr: word 3: Drop Range at 0\n",
    ),
    (
        "run program=ddos drop=1,,2",
        "scr: word 3: Drop Empty at 2\n",
    ),
    (
        "run program=ddos drop=1,2x",
        "scr: word 3: Drop Digit at 2\n",
    ),
    (
        "run program=ddos drop=12-1000000001",
        "scr: word 3: Drop TooLarge at 0\n",
    ),
    (
        "run program=ddos repeat=7-3",
        "scr: word 3: Repeat Range at 0\n",
    ),
    (
        "run program=ddos delay=0:1",
        "scr: word 3: Delay Zero at 0\n",
    ),
    (
        "load program=ddos delay=7:2,7:3",
        "scr: word 3: Delay Twice at 4\n",
    ),
    (
        "run program=ddos delay=1:1001",
        "scr: word 3: Delay TooLarge at 0\n",
    ),
    ("plain program=ddos repeat=1", "scr: word 3: NotHere\n"),
    ("plain program=ddos delay=1:1", "scr: word 3: NotHere\n"),
    (
        "run program=chain first=ddos second=ddos",
        "scr: word 4: Same\n",
    ),
    (
        "run program=chain first=conn second=ddos",
        "scr: word 3: Program\n",
    ),
    ("run program=chain second=conn", "scr: word 4: Missing\n"),
    ("plain program=table", "scr: word 3: Missing\n"),
    (
        "run program=table table=0:d7>1/P",
        "scr: word 3: Table NoAny at 0\n",
    ),
    (
        "run program=table table=0:*>16/P",
        "scr: word 3: Table Range at 0\n",
    ),
    (
        "run program=table table=",
        "scr: word 3: Table Empty at 0\n",
    ),
    (
        "run program=table table=0:*>0/P,x",
        "scr: word 3: Table Form at 8\n",
    ),
];

// What is written of this refusal.
fn written(alloc: Global, fault: &WordFault) -> Option<SureSink> {
    let mut err = SureSink::new(alloc, 7);
    let mut batch = Batch::new();
    put_word_line(&mut batch, &mut err, fault).ok()?;
    batch.finish(&mut err).ok()?;
    Some(err)
}

// Asks for the line of each refusal.
fn expect_lines(rt: &impl Abort, alloc: Global, cases: &[(&str, &str)]) -> Result<(), Fail> {
    for (words, line) in cases {
        let fault = refusal(alloc, words).ok_or("taken")?;
        let err = written(alloc, &fault).ok_or("not written")?;
        assert_eq!(rt; err.written(), line.as_bytes(), "at {words}");
    }
    Ok(())
}

#[test]
fn writes_the_line_of_each_refusal(rt: HostRuntime) -> Result<(), Fail> {
    expect_lines(&rt, rt.alloc(), &REFUSED)
}

/// Lines with more than one fault, each beside the same with the faults in the other order, or with one of them mended.
const SEVERAL: [(&str, u32, WordCause); 84] = [
    // A word without `=` and a name that no operand has.
    ("run -v color=red", 2, WordCause::NoEquals),
    ("run color=red -v", 2, WordCause::UnknownName),
    // A word that is faulty behind a program that is missing.
    ("run cores=0", 2, WordCause::Range),
    ("run cores=1 hosts=1", 3, WordCause::NotHere),
    ("run cores=1", 3, WordCause::Missing),
    // Twice, and a value out of range: the first faulty word, and of one word the first cause.
    ("run program=ddos cores=2 cores=17", 4, WordCause::Twice),
    ("run program=ddos cores=17 cores=2", 3, WordCause::Range),
    ("run program=ddos cores=x cores=x", 3, WordCause::Value),
    // Not here, and twice.
    ("run program=ddos rate=5 rate=5", 3, WordCause::NotHere),
    ("plain cores=1 cores=1 program=ddos", 2, WordCause::NotHere),
    ("load start=1 start=1", 3, WordCause::Twice),
    ("plain start=1 start=1", 2, WordCause::NotHere),
    // The program is the first that is named, wherever it stands.
    ("run rate=5 program=ddos", 2, WordCause::NotHere),
    (
        "run rate=5 program=bucket program=ddos",
        4,
        WordCause::Twice,
    ),
    (
        "run rate=5 program=ddos program=bucket",
        2,
        WordCause::NotHere,
    ),
    (
        "run program=bucket program=ddos rate=5",
        3,
        WordCause::Twice,
    ),
    ("run program=ddos program=ddos", 3, WordCause::Twice),
    ("run program=ddos program=dns", 3, WordCause::Twice),
    ("run program=dns program=ddos", 2, WordCause::Program),
    // A name that isn't one chooses nothing.
    ("run rate=5 program=dns", 3, WordCause::Program),
    ("run rate=x program=dns", 2, WordCause::Value),
    ("run program=dns rate=x", 2, WordCause::Program),
    ("run program= rate=5", 2, WordCause::Program),
    (
        "run rate=5 threshold=6 ports=1,2,3 idle=7 bytes=8",
        7,
        WordCause::Missing,
    ),
    (
        "run rate=5 threshold=6 ports=1,2,3 idle=0 bytes=8",
        5,
        WordCause::Range,
    ),
    // Form before range, in one value and in two.
    ("run program=knock ports=0,x,1", 3, WordCause::Value),
    ("run program=knock ports=0,1,1", 3, WordCause::Range),
    ("run program=knock ports=1,65536,1", 3, WordCause::Range),
    ("run program=knock ports=1,2,3,4", 3, WordCause::Value),
    ("run ring=0 flows=x program=ddos", 2, WordCause::Range),
    ("run flows=x ring=0 program=ddos", 2, WordCause::Value),
    // Three at once.
    ("run cores=2 cores=x color rate=1", 3, WordCause::Twice),
    ("run color cores=2 cores=x rate=1", 2, WordCause::NoEquals),
    ("walk color cores=17", 1, WordCause::Command),
    ("run Program=ddos threads=maybe", 2, WordCause::UnknownName),
    ("run threads=maybe Program=ddos", 2, WordCause::Value),
    ("run threads=YES", 2, WordCause::Value),
    ("run threads=", 2, WordCause::Value),
    // Drop lists, whose pieces have an order of their own.
    (
        "run drop=0,x",
        2,
        WordCause::Drop {
            cause: DropCause::Zero,
            place: 0,
        },
    ),
    (
        "run drop=1,x,0",
        2,
        WordCause::Drop {
            cause: DropCause::Digit,
            place: 2,
        },
    ),
    (
        "run drop=1,x,0 drop=1",
        2,
        WordCause::Drop {
            cause: DropCause::Digit,
            place: 2,
        },
    ),
    ("run drop=1 drop=x", 3, WordCause::Twice),
    // Each list is tested at its word.
    (
        "run drop=1 repeat=1 delay=1:1 repeat=x",
        5,
        WordCause::Twice,
    ),
    (
        "run repeat=1,0 delay=1:x",
        2,
        WordCause::Repeat {
            cause: DropCause::Zero,
            place: 2,
        },
    ),
    (
        "run delay=1:1,1 repeat=0",
        2,
        WordCause::Delay {
            cause: DelayCause::Digit,
            place: 4,
        },
    ),
    ("plain drop=x", 2, WordCause::NotHere),
    (
        "run drop=1=2",
        2,
        WordCause::Drop {
            cause: DropCause::Digit,
            place: 0,
        },
    ),
    // The two of a chain: a name that may not stand there, then the same twice, at the later word.
    ("run first=ddos second=ddos", 3, WordCause::Same),
    ("run second=ddos first=ddos", 3, WordCause::Same),
    ("run second=conn first=conn", 3, WordCause::Program),
    ("run first=ddos first=x second=ddos", 3, WordCause::Twice),
    ("run first=table", 2, WordCause::Program),
    ("run second=chain", 2, WordCause::Program),
    ("run first=ddos second=heavy", 4, WordCause::Missing),
    // What a chain takes, where both of its programs are known and where not.
    ("run program=ddos first=heavy", 3, WordCause::NotHere),
    (
        "run program=chain first=ddos second=heavy rate=5",
        5,
        WordCause::NotHere,
    ),
    (
        "run rate=5 first=ddos program=chain second=ddos",
        2,
        WordCause::NotHere,
    ),
    ("run program=chain first=ddos rate=5", 5, WordCause::Missing),
    (
        "run program=chain second=ddos rate=5",
        5,
        WordCause::Missing,
    ),
    (
        "run rate=5 program=chain first=ddos second=x",
        5,
        WordCause::Program,
    ),
    (
        "run rate=5 program=chain first=conn second=ddos",
        4,
        WordCause::Program,
    ),
    ("run program=chain first=ddos table=", 4, WordCause::NotHere),
    // Tables, which are tested without their program too.
    ("run program=table first=heavy", 3, WordCause::NotHere),
    ("run program=table rate=5", 3, WordCause::NotHere),
    ("run program=ddos table=", 3, WordCause::NotHere),
    ("run table=0:*>0/P", 3, WordCause::Missing),
    // A stream is of one of the five: the name of another program chooses nothing, and its operands aren't taken.
    (
        "spray rate=1 threshold=2 ports=1,2,3 idle=4 bytes=5",
        7,
        WordCause::Missing,
    ),
    ("spray rate=1 program=chain", 3, WordCause::Program),
    ("replay rate=x program=table", 2, WordCause::Value),
    ("replay rate=1 program=ddos", 2, WordCause::NotHere),
    ("spray first=ddos", 2, WordCause::NotHere),
    ("spray second=ddos first=ddos", 2, WordCause::NotHere),
    ("replay table=", 2, WordCause::NotHere),
    ("spray program=table table=", 2, WordCause::Program),
    ("spray program=dns program=ddos", 2, WordCause::Program),
    ("spray program=ddos program=chain", 3, WordCause::Twice),
    // What only one of the two takes, and what neither does.
    ("spray program=ddos threads=no", 3, WordCause::NotHere),
    ("replay program=ddos history=x", 3, WordCause::NotHere),
    ("replay ring=0 delay=0", 2, WordCause::Range),
    (
        "spray delay=0 ring=0",
        2,
        WordCause::Delay {
            cause: DelayCause::Digit,
            place: 0,
        },
    ),
    ("replay program=ddos start=1", 3, WordCause::NotHere),
    ("spray program=ddos frames=1", 3, WordCause::NotHere),
    ("run table=0:*>0/P table=", 3, WordCause::Twice),
    (
        "run table=0:*>0/P,0:*>0/X flows=0",
        2,
        WordCause::Table {
            cause: TableCause::Form,
            place: 8,
        },
    ),
];

#[test]
fn answers_the_first_fault(rt: HostRuntime) {
    expect(&rt, rt.alloc(), &SEVERAL);
}

/// Words with more spaces, or with more than one `=`.
const SPLIT: [(&str, u32, WordCause); 11] = [
    (" ", 1, WordCause::Command),
    ("run ", 2, WordCause::NoEquals),
    ("run program=ddos  cores=0", 3, WordCause::NoEquals),
    (" run program=ddos", 1, WordCause::Command),
    ("run  program=ddos", 2, WordCause::NoEquals),
    ("load program=ddos frames=1 ", 4, WordCause::NoEquals),
    ("run =", 2, WordCause::UnknownName),
    ("run =ddos", 2, WordCause::UnknownName),
    ("run program=ddos=x", 2, WordCause::Program),
    ("run cores=1=1", 2, WordCause::Value),
    ("run=1 program=ddos", 1, WordCause::Command),
];

#[test]
fn splits_words_at_the_first_equals(rt: HostRuntime) {
    expect(&rt, rt.alloc(), &SPLIT);
}

// What `run` with this word is refused for.
fn refusal_of_run_with(alloc: Global, word: &[u8]) -> Option<WordFault> {
    let words = [Word::of(alloc, b"run").ok()?, Word::of(alloc, word).ok()?];
    match read_words(alloc, &words) {
        Err(WordsError::Refused(fault)) => Some(fault),
        _ => None,
    }
}

#[test]
fn takes_words_of_any_bytes(rt: HostRuntime) {
    let wanted = WordFault {
        word: 2,
        cause: WordCause::UnknownName,
    };
    let fault = refusal_of_run_with(rt.alloc(), &[0xFF, b'=', 0]);
    assert_eq!(rt; fault, Some(wanted));
}

// A drop list of 257 pieces.
fn too_many_pieces(alloc: Global) -> Result<Vec<u8>, OutOfMemory> {
    let mut text = Vec::from_slice(alloc, b"drop=")?;
    for _ in 0..256 {
        text.extend_from_slice(b"1,")?;
    }
    text.push(b'1')?;
    Ok(text)
}

#[test]
fn refuses_the_257th_piece(rt: HostRuntime) -> Result<(), Fail> {
    let text = too_many_pieces(rt.alloc())?;
    let (cause, place) = (DropCause::Pieces, 512);
    let wanted = WordFault {
        word: 2,
        cause: WordCause::Drop { cause, place },
    };
    assert_eq!(rt; refusal_of_run_with(rt.alloc(), &text), Some(wanted));
    Ok(())
}
