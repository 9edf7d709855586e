//! Values at the ends of their ranges and beyond.

use super::read;
use crate::{WordCause, WordFault, WordsError};
use std::alloc::Global;
use std::process::Abort;

/// Numbers at the ends of their ranges and beyond, and long ones.
const NUMBERS: [(&str, Option<WordCause>); 55] = [
    ("load program=ddos flows=0", Some(WordCause::Range)),
    ("load program=ddos flows=1", None),
    ("load program=ddos flows=65536", None),
    ("load program=ddos flows=65537", Some(WordCause::Range)),
    ("load program=ddos cores=0", Some(WordCause::Range)),
    ("load program=ddos cores=16", None),
    ("load program=ddos cores=17", Some(WordCause::Range)),
    (
        "load program=ddos cores=00000000000000000000000000000000000000001",
        None,
    ),
    (
        "load program=ddos cores=00000000000000000000000000000000000000017",
        Some(WordCause::Range),
    ),
    (
        "load program=ddos cores=9999999999999999999999999999999999999999",
        Some(WordCause::Range),
    ),
    (
        "load program=ddos cores=999999999999999999999999999999999999999x",
        Some(WordCause::Value),
    ),
    ("load program=ddos history=0", None),
    ("load program=ddos history=64", None),
    ("load program=ddos history=65", Some(WordCause::Range)),
    ("load program=ddos ring=0", Some(WordCause::Range)),
    ("load program=ddos ring=1", None),
    ("load program=ddos ring=4096", None),
    ("load program=ddos ring=4097", Some(WordCause::Range)),
    ("load program=ddos start=18446744073709551615", None),
    (
        "load program=ddos start=18446744073709551616",
        Some(WordCause::Range),
    ),
    (
        "load program=ddos start=00000000000000000000018446744073709551615",
        None,
    ),
    ("load program=ddos frames=0", None),
    ("load program=ddos frames=1000000", None),
    ("load program=ddos frames=1000001", Some(WordCause::Range)),
    ("load program=ddos hosts=0", Some(WordCause::Range)),
    ("load program=ddos hosts=1", None),
    ("load program=ddos hosts=65536", None),
    ("load program=ddos hosts=65537", Some(WordCause::Range)),
    ("load program=ddos threshold=0", None),
    ("load program=ddos threshold=4294967295", None),
    (
        "load program=ddos threshold=4294967296",
        Some(WordCause::Range),
    ),
    ("load program=ddos threshold=-1", Some(WordCause::Value)),
    ("load program=ddos threshold=+1", Some(WordCause::Value)),
    ("load program=heavy bytes=0", Some(WordCause::Range)),
    ("load program=heavy bytes=1", None),
    ("load program=heavy bytes=1000000000000", None),
    (
        "load program=heavy bytes=1000000000001",
        Some(WordCause::Range),
    ),
    ("load program=bucket rate=0", None),
    ("load program=bucket rate=1000000000", None),
    (
        "load program=bucket rate=1000000001",
        Some(WordCause::Range),
    ),
    ("load program=bucket burst=0", Some(WordCause::Range)),
    ("load program=bucket burst=1", None),
    ("load program=bucket burst=1000000000", None),
    (
        "load program=bucket burst=1000000001",
        Some(WordCause::Range),
    ),
    ("load program=knock ports=1,1,1", None),
    ("load program=knock ports=65535,65535,65535", None),
    ("load program=knock ports=1,1,65536", Some(WordCause::Range)),
    (
        "load program=knock ports=00000000000000000000000000022,0080,00443",
        None,
    ),
    ("load program=conn idle=0", Some(WordCause::Range)),
    ("load program=conn idle=1", None),
    ("load program=conn idle=10000000000000", None),
    (
        "load program=conn idle=10000000000001",
        Some(WordCause::Range),
    ),
    ("load program=ddos drop=", None),
    (
        "load program=ddos drop=00000000000000000000001-0002/00000000003",
        None,
    ),
    ("load program=ddos threads=no", None),
];

// What comes of the words: none where they are taken.
fn error_at(alloc: Global, words: &str) -> Option<WordsError> {
    read(alloc, words).err()
}

// Asks for the cause of each line whose third word is refused, and that the others are taken.
fn expect(rt: &impl Abort, alloc: Global, cases: &[(&str, Option<WordCause>)]) {
    for (words, cause) in cases {
        let wanted = refused(*cause);
        assert_eq!(rt; error_at(alloc, words), wanted, "at {words}");
    }
}

// What comes of a third word.
fn refused(cause: Option<WordCause>) -> Option<WordsError> {
    let cause = cause?;
    Some(WordsError::Refused(WordFault { word: 3, cause }))
}

#[test]
fn takes_numbers_of_their_ranges(rt: HostRuntime) {
    expect(&rt, rt.alloc(), &NUMBERS);
}
