use crate::{
    FrameCounts, Names, Report, ReportError, is_plain, read_report, verdicts_then_rest, write_line,
    write_report,
};
use scr_base::{MemSink, OutOfMemory, Sink, SinkError, SureSink, Verdict};
use scr_plan::{CoreCounts, Given};
use std::alloc::Global;
use std::process::Abort;
use std::test::Fail;

// The first worked report: four packets of one source, at a threshold of two.
const WORKED: &str = "\
1 PASS
2 PASS
3 DROP
4 DROP
frames 4 delivered 4 kept 4
core 0 delivered 4 carried 4 recovered 0 skipped 0
flows 1
verdict PASS 2
verdict DROP 2
verdict OTHER 0
";

const DDOS: [&str; 3] = ["PASS", "DROP", "OTHER"];

fn names_of(rt: &impl Abort, alloc: Global, texts: &[&str]) -> Result<Names, OutOfMemory> {
    let mut names = Names::none(alloc);
    for text in texts {
        assert!(rt; names.len() < 9);
        names.add(text)?;
    }
    Ok(names)
}

fn read(rt: &impl Abort, alloc: Global, texts: &[&str], text: &str) -> Result<Report, ReportError> {
    let names = names_of(rt, alloc, texts).map_err(ReportError::OutOfMemory)?;
    assert!(rt; text.len() < 1000);
    read_report(alloc, &names, text.as_bytes())
}

// The error of a text, with the names of the first worked report.
fn error_of(rt: &impl Abort, alloc: Global, text: &str) -> Option<ReportError> {
    read(rt, alloc, &DDOS, text).err()
}

#[test]
fn reads_the_worked_report(rt: HostRuntime) -> Result<(), Fail> {
    let report = read(&rt, rt.alloc(), &DDOS, WORKED).ok().ok_or("unread")?;
    let given = [(1, 0), (2, 0), (3, 1), (4, 1)];
    assert_eq!(rt; report.verdicts.len(), 4);
    for (one, (number, verdict)) in report.verdicts.iter().zip(given) {
        assert_eq!(rt; one.number, number);
        assert_eq!(rt; one.verdict, Verdict(verdict));
    }
    let one_core = CoreCounts {
        delivered: 4,
        carried: 4,
        recovered: 0,
        skipped: 0,
    };
    assert_eq!(rt; (report.frames, report.delivered, report.kept), (4, 4, 4));
    assert_eq!(rt; report.cores.as_slice(), [one_core].as_slice());
    assert_eq!(rt; report.flows, 1);
    assert_eq!(rt; report.totals.as_slice(), [2, 2, 0].as_slice());
    Ok(())
}

// Texts with the line that is refused or missing.
const REFUSALS: [(&str, ReportError); 20] = [
    ("", ReportError::Ended { line: 1 }),
    ("\n", ReportError::Line { line: 1 }),
    ("01 PASS\n2 PASS\n", ReportError::Line { line: 1 }),
    ("0 PASS\n", ReportError::Line { line: 1 }),
    (" PASS\n", ReportError::Line { line: 1 }),
    ("1 PASS \n", ReportError::Line { line: 1 }),
    ("1  PASS\n", ReportError::Line { line: 1 }),
    ("1 PASS\n2 LATE\n", ReportError::Line { line: 2 }),
    // Not in order.
    ("1 PASS\n3 PASS\n2 DROP\n", ReportError::Line { line: 3 }),
    ("1 PASS\n1 PASS\n", ReportError::Line { line: 2 }),
    // Above 32 bits.
    ("4294967296 PASS\n", ReportError::Line { line: 1 }),
    ("4294967295 PASS\n", ReportError::Ended { line: 2 }),
    (
        "frames 4294967296 delivered 4 kept 4\n",
        ReportError::Line { line: 1 },
    ),
    // A line feed is missing, or a space is too many.
    ("1 PASS\n2 PASS", ReportError::Line { line: 2 }),
    (
        "frames 1 delivered 1 kept 1 \n",
        ReportError::Line { line: 1 },
    ),
    // A core is missing, and then one comes too late.
    (
        "frames 0 delivered 0 kept 0\ncore 1 delivered 0 carried 0 recovered 0 skipped 0\n",
        ReportError::Line { line: 2 },
    ),
    (
        "frames 0 delivered 0 kept 0\nflows 0\ncore 0 delivered 0 carried 0 recovered 0 skipped 0\n",
        ReportError::Line { line: 3 },
    ),
    // Counts of flows and totals within 64 bits.
    (
        "frames 0 delivered 0 kept 0\nflows 18446744073709551616\n",
        ReportError::Line { line: 2 },
    ),
    (
        "frames 0 delivered 0 kept 0\nflows 18446744073709551615\nverdict PASS 18446744073709551615\n",
        ReportError::Ended { line: 4 },
    ),
    // Names not in their order.
    (
        "frames 0 delivered 0 kept 0\nflows 0\nverdict DROP 0\n",
        ReportError::Line { line: 3 },
    ),
];

#[test]
fn refuses_by_line(rt: HostRuntime) {
    for (text, want) in REFUSALS {
        assert_eq!(rt; error_of(&rt, rt.alloc(), text), Some(want), "at {text:?}");
    }
}

#[test]
fn refuses_what_is_cut_or_goes_on(rt: HostRuntime) -> Result<(), Fail> {
    let shorter = WORKED
        .strip_suffix("verdict OTHER 0\n")
        .ok_or("no such line")?;
    assert_eq!(rt;
        error_of(&rt, rt.alloc(), shorter),
        Some(ReportError::Ended { line: 10 })
    );
    let no_feed = WORKED.strip_suffix("\n").ok_or("no line feed")?;
    assert_eq!(rt;
        error_of(&rt, rt.alloc(), no_feed),
        Some(ReportError::Line { line: 10 })
    );
    for behind in ["x", "\n", "verdict OTHER 0\n"] {
        let longer = format!(in rt.alloc(); "{WORKED}{behind}")?;
        assert_eq!(rt;
            error_of(&rt, rt.alloc(), longer.as_str()),
            Some(ReportError::Line { line: 11 })
        );
    }
    Ok(())
}

// The verdicts and totals of a text.
fn told(
    rt: &impl Abort,
    alloc: Global,
    texts: &[&str],
    text: &str,
) -> Option<(Vec<Given>, Vec<u64>)> {
    let report = read(rt, alloc, texts, text).ok()?;
    Some((report.verdicts, report.totals))
}

#[test]
fn takes_names_with_spaces(rt: HostRuntime) -> Result<(), Fail> {
    let text =
        "1 IN TIME\n2 \n3 7\nframes 0 delivered 0 kept 0\nflows 0\nverdict IN TIME 5\nverdict  6\nverdict 7 7\n";
    let (verdicts, totals) = told(&rt, rt.alloc(), &["IN TIME", "", "7"], text).ok_or("unread")?;
    for (given, want) in verdicts.iter().zip(0..3) {
        assert_eq!(rt; given.verdict, Verdict(want));
    }
    assert_eq!(rt; totals.as_slice(), [5, 6, 7].as_slice());
    Ok(())
}

#[test]
fn takes_the_first_of_equal_names(rt: HostRuntime) -> Result<(), Fail> {
    let text = "1 B\nframes 0 delivered 0 kept 0\nflows 0\nverdict A 1\nverdict B 2\nverdict B 3\n";
    let (verdicts, totals) = told(&rt, rt.alloc(), &["A", "B", "B"], text).ok_or("unread")?;
    let first = verdicts.first().ok_or("no verdict")?;
    assert_eq!(rt; first.verdict, Verdict(1));
    assert_eq!(rt; totals.as_slice(), [1, 2, 3].as_slice());
    Ok(())
}

#[test]
fn refuses_names_with_line_feeds(rt: HostRuntime) {
    let text = "1 A\nframes 0 delivered 0 kept 0\nflows 0\nverdict A\nB 0\n";
    let error = read(&rt, rt.alloc(), &["A\nB"], text).err();
    assert_eq!(rt; error, Some(ReportError::Line { line: 1 }));
    let text = "frames 0 delivered 0 kept 0\nflows 0\nverdict A\nB 0\n";
    let error = read(&rt, rt.alloc(), &["A\nB"], text).err();
    assert_eq!(rt; error, Some(ReportError::Line { line: 3 }));
}

#[test]
fn writes_lines(rt: HostRuntime) {
    let mut sink = SureSink::new(rt.alloc(), 7);
    assert_eq!(rt; write_line("PASS", 17, &mut sink), Ok(()));
    assert_eq!(rt; write_line("", 4294967295, &mut sink), Ok(()));
    assert_eq!(rt; sink.written(), b"17 PASS\n4294967295 \n".as_slice());
}

// The first worked report, written.
fn write_worked<O: Sink>(
    rt: &impl Abort,
    alloc: Global,
    with_verdicts: bool,
    out: &mut O,
) -> Result<(), SinkError> {
    let names = names_of(rt, alloc, &DDOS).map_err(SinkError::OutOfMemory)?;
    let report = match read(rt, alloc, &DDOS, WORKED) {
        Ok(report) => report,
        Err(ReportError::OutOfMemory(want)) => return Err(SinkError::OutOfMemory(want)),
        Err(_) => return Err(SinkError::Failed),
    };
    assert!(rt; is_plain(&names, &report));
    write_report(&names, &report, with_verdicts, out)
}

#[test]
fn counts_the_names(rt: HostRuntime) -> Result<(), Fail> {
    let names = names_of(&rt, rt.alloc(), &DDOS)?;
    let mut verdicts = Vec::new(rt.alloc());
    for (number, verdict) in [(1, 0), (2, 2), (3, 0)] {
        verdicts.push(Given {
            number,
            verdict: Verdict(verdict),
        })?;
    }
    let counts = FrameCounts {
        frames: 3,
        delivered: 3,
        kept: 3,
    };
    let report = Report::of(
        rt.alloc(),
        &names,
        verdicts,
        counts,
        Vec::new(rt.alloc()),
        1,
    )?;
    assert_eq!(rt; report.totals.as_slice(), &[2u64, 0, 1][..]);
    verdicts_then_rest();
    Ok(())
}

#[test]
fn writes_the_worked_report(rt: HostRuntime) {
    let mut sink = SureSink::new(rt.alloc(), 50);
    assert_eq!(rt; write_worked(&rt, rt.alloc(), true, &mut sink), Ok(()));
    assert_eq!(rt; sink.written(), WORKED.as_bytes());
    let mut sink = SureSink::new(rt.alloc(), 50);
    assert_eq!(rt; write_worked(&rt, rt.alloc(), false, &mut sink), Ok(()));
    assert_eq!(rt; sink.written(), &WORKED.as_bytes()[28..]);
}

#[test]
fn writes_a_front_up_to_the_failure(rt: HostRuntime) -> Result<(), Fail> {
    let mut sink = MemSink::new(rt.alloc(), 10, vec![in rt.alloc(); 3]?);
    assert_eq!(rt;
        write_worked(&rt, rt.alloc(), true, &mut sink),
        Err(SinkError::Failed)
    );
    assert_eq!(rt; sink.written(), &WORKED.as_bytes()[..20]);
    let mut sink = MemSink::new(rt.alloc(), 3, vec![in rt.alloc(); 2]?);
    assert_eq!(rt; write_line("PASS", 12, &mut sink), Err(SinkError::Failed));
    assert_eq!(rt; sink.written(), b"12".as_slice());
    assert_eq!(rt; write_line("PASS", 12, &mut sink), Ok(()));
    Ok(())
}
