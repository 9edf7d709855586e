use crate::{Decision, Pattern, Rule, Table, TableCause, TableError};
use std::alloc::Global;
use std::test::Fail;

/// The cause and the place of a text that is refused.
fn refusal(alloc: Global, text: &[u8]) -> Option<(TableCause, u64)> {
    match Table::read(alloc, text) {
        Err(TableError::Refused { cause, place }) => Some((cause, place)),
        Ok(_) | Err(TableError::OutOfMemory(_)) => None,
    }
}

#[test]
fn reads_each_pattern(rt: HostRuntime) -> Result<(), Fail> {
    let text =
        b"0:t>1/P,00:u>015/D,0:d0>1/D,0:d00065535>1/P,0:f255>1/P,0:*>0/D,1:*>1/P,15:*>0/P,7:f0>0/P";
    let want: [(u8, Pattern, u8, Decision); 9] = [
        (0, Pattern::Tcp, 1, Decision::Pass),
        (0, Pattern::Udp, 15, Decision::Drop),
        (0, Pattern::Port(0), 1, Decision::Drop),
        (0, Pattern::Port(65535), 1, Decision::Pass),
        (0, Pattern::Flags(255), 1, Decision::Pass),
        (0, Pattern::Any, 0, Decision::Drop),
        (1, Pattern::Any, 1, Decision::Pass),
        (15, Pattern::Any, 0, Decision::Pass),
        (7, Pattern::Flags(0), 0, Decision::Pass),
    ];
    let table = Table::read(rt.alloc(), text)?;
    assert_eq!(rt; table.rules().len(), want.len());
    for (rule, (state, pattern, next, verdict)) in table.rules().iter().zip(want) {
        let want = Rule {
            state,
            pattern,
            next,
            verdict,
        };
        assert_eq!(rt; *rule, want);
    }
    Ok(())
}

#[test]
fn refuses_each_fault_at_its_rule(rt: HostRuntime) {
    let cases: [(&str, TableCause, u64); 47] = [
        ("", TableCause::Empty, 0),
        (",0:*>0/P", TableCause::Empty, 0),
        ("0:*>0/P,", TableCause::Empty, 8),
        ("0:*>0/P,,0:x>0/P", TableCause::Empty, 8),
        ("0:*>0/P, ,", TableCause::Form, 8),
        ("x", TableCause::Form, 0),
        ("0", TableCause::Form, 0),
        ("0:", TableCause::Form, 0),
        ("0:*", TableCause::Form, 0),
        ("0:*>", TableCause::Form, 0),
        ("0:*>0", TableCause::Form, 0),
        ("0:*>0/", TableCause::Form, 0),
        ("0:*>0/p", TableCause::Form, 0),
        ("0:*>0/PP", TableCause::Form, 0),
        ("0:*>0/D/", TableCause::Form, 0),
        ("0:*>0//P", TableCause::Form, 0),
        ("0:*>>0/P", TableCause::Form, 0),
        ("0::*>0/P", TableCause::Form, 0),
        (":*>0/P", TableCause::Form, 0),
        ("0:>0/P", TableCause::Form, 0),
        ("0:*>/P", TableCause::Form, 0),
        ("0:**>0/P", TableCause::Form, 0),
        ("0:t1>0/P", TableCause::Form, 0),
        ("0:u1>0/P", TableCause::Form, 0),
        ("0:d>0/P", TableCause::Form, 0),
        ("0:f>0/P", TableCause::Form, 0),
        ("0:d-1>0/P", TableCause::Form, 0),
        ("0:x1>0/P", TableCause::Form, 0),
        ("0:1>0/P", TableCause::Form, 0),
        ("-1:*>0/P", TableCause::Form, 0),
        ("0:*>+1/P", TableCause::Form, 0),
        ("0 :*>0/P", TableCause::Form, 0),
        ("16:x>0/P", TableCause::Form, 0),
        ("16:*>x/P", TableCause::Form, 0),
        ("0:d65536>0/Q", TableCause::Form, 0),
        ("16:*>0/P", TableCause::Range, 0),
        ("0:*>16/P", TableCause::Range, 0),
        ("0:d65536>0/P", TableCause::Range, 0),
        ("0:f256>0/P", TableCause::Range, 0),
        (
            "0:*>0/P,0:d99999999999999999999999999999999999999999>0/P",
            TableCause::Range,
            8,
        ),
        ("0:*>0/P,0:*>00000000016/P", TableCause::Range, 8),
        ("0:d7>1/P", TableCause::NoAny, 0),
        ("0:d7>1/P,1:*>0/P", TableCause::NoAny, 0),
        ("0:*>1/P", TableCause::NoAny, 1),
        ("0:*>15/P,0:t>3/D,3:t>3/P", TableCause::NoAny, 3),
        ("0:*>0/P,7:t>9/P", TableCause::NoAny, 9),
        ("0:*>15/P", TableCause::NoAny, 15),
    ];
    for (text, cause, place) in cases {
        let told = refusal(rt.alloc(), text.as_bytes());
        assert_eq!(rt; told, Some((cause, place)), "at {text}");
    }
}

#[test]
fn takes_256_rules(rt: HostRuntime) -> Result<(), Fail> {
    let mut text = Vec::new(rt.alloc());
    for _ in 0..255 {
        text.extend_from_slice(b"0:t>0/D,")?;
    }
    text.extend_from_slice(b"0:*>0/P")?;
    assert_eq!(rt; Table::read(rt.alloc(), &text)?.rules().len(), 256);
    text.extend_from_slice(b",0:*>0/P")?;
    let told = refusal(rt.alloc(), &text);
    assert_eq!(rt; told, Some((TableCause::Rules, 2048)));
    text.extend_from_slice(b"x")?;
    let told = refusal(rt.alloc(), &text);
    assert_eq!(rt; told, Some((TableCause::Form, 2048)));
    Ok(())
}
