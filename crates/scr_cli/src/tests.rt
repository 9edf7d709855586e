//! What `main` wires, over streams in memory.

ghost use Rattle.std.specs.Prelude.{◌<◌, ◌-◌, ◌^◌, length};
ghost use Rattle.std.specs.Result.{ForOk};

use crate::arguments::{NoWords, words_given};
use crate::ending::ended;
use scr_base::{OutOfMemory, SureSink, SureSource};
use std::alloc::{AllocError, Global};
use std::env::Args;
use std::io;
use std::sync::Wait;
use std::test::Fail;
use std::thread::Threads;

/// The arguments, as the system gives them.
fn arguments(alloc: Global, texts: &[&str]) -> Result<Args, Fail> {
    let mut all = Vec::new(alloc);
    for text in texts {
        all.push(String::from_str(alloc, text)?)?;
    }
    Ok(all.into_iter())
}

#[test]
fn takes_all_arguments_but_the_name(rt: HostRuntime) -> Result<(), Fail> {
    for (texts, count) in [
        (&[][..], 0),
        (&["scr"][..], 0),
        (&["scr", "run", "", "program=ddos"][..], 3),
    ] {
        let all = arguments(rt.alloc(), texts)?;
        let words = words_given(rt.alloc(), Ok(all)).expect(&rt, "there is memory");
        assert_eq!(rt; words.len(), count);
        for (word, text) in words.iter().zip(texts.iter().skip(1)) {
            assert_eq!(rt; word.bytes(), text.as_bytes());
        }
    }
    Ok(())
}

// More than any memory has.
fn too_large(alloc: Global) -> Result<Vec<u8>, AllocError> {
    Vec::with_capacity(alloc, usize::MAX)
}

#[test]
fn tells_why_there_are_no_words(rt: HostRuntime) {
    let refused = too_large(rt.alloc())
        .err()
        .expect(&rt, "no memory is so large");
    let Err(wanted) = words_given(rt.alloc(), Err(refused.into())) else {
        panic!(rt; "words without memory")
    };
    assert!(rt; matches!(wanted, NoWords::OutOfMemory(_)));
    let no_text = words_given(rt.alloc(), Err(io::ErrorKind::InvalidData.into()));
    assert_eq!(rt; no_text.expect(&rt, "no word").len(), 0);
}

/// The code, the report and the line of a run over a capture without records.
fn run_over<R: Threads + Wait + Sync>(
    rt: &R,
    alloc: Global,
    words: Result<Vec<scr_base::Word>, NoWords>,
) -> Result<(u8, SureSink, SureSink), Fail>
    requires { ForOk words (λ words. length words.items < 2 ^ 32 - 1) }
{
    let header = [
        0xD4, 0xC3, 0xB2, 0xA1, 2, 0, 4, 0, 0, 0, 0, 0, 0, 0, 0, 0, 0, 0, 4, 0, 1, 0, 0, 0,
    ];
    let mut capture = SureSource::new(Vec::from_slice(alloc, &header)?, 100);
    let mut out = SureSink::new(alloc, 100);
    let mut err = SureSink::new(alloc, 100);
    let code = ended(rt, alloc, words, &mut capture, &mut out, &mut err);
    Ok((code, out, err))
}

#[test]
fn runs_the_words(rt: HostRuntime) -> Result<(), Fail> {
    let cases: [(&[&str], u8, &str, &str); 2] = [
        (
            &["scr", "plain", "program=ddos"],
            0,
            "frames 0 delivered 0 kept 0\nflows 0\nverdict PASS 0\nverdict DROP 0\nverdict OTHER 0\n",
            "",
        ),
        (&["scr", "run"], 1, "", "scr: word 2: Missing\n"),
    ];
    for (texts, code, report, line) in cases {
        let words = words_given(rt.alloc(), Ok(arguments(rt.alloc(), texts)?));
        let (answer, out, err) = run_over(&rt, rt.alloc(), words)?;
        assert_eq!(rt; answer, code);
        assert_eq!(rt; out.written(), report.as_bytes());
        assert_eq!(rt; err.written(), line.as_bytes());
    }
    Ok(())
}

#[test]
fn ends_where_there_are_no_words(rt: HostRuntime) -> Result<(), Fail> {
    let refused = too_large(rt.alloc())
        .err()
        .expect(&rt, "no memory is so large");
    let want = OutOfMemory::from(refused);
    for none in [NoWords::OutOfMemory(want), NoWords::TooMany] {
        let (code, out, err) = run_over(&rt, rt.alloc(), Err(none))?;
        assert_eq!(rt; code, 5);
        assert_eq!(rt; out.written(), &b""[..]);
        assert_eq!(rt; err.written(), &b"scr: out of memory\n"[..]);
    }
    Ok(())
}
