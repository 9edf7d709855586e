ghost use Rattle.std.specs.Prelude.{◌≡◌, ◌<◌, Some, None};
ghost use Rattle.std.proofs.Common.{lit<};
ghost use Rattle.scr_program.specs.Kinds.{is_tcp};
ghost use Rattle.scr_conn.specs.Endpoints.{connection_of};
ghost use Rattle.scr_conn.specs.Entries.{next_entry};
ghost use Rattle.scr_conn.specs.Rows.{fields_kept};
ghost use Rattle.scr_conn.specs.Step.{answered, outcome};
ghost use Rattle.scr_conn.specs.Verdicts.{names, verdict_of, OTHER};
ghost use Rattle.scr_conn.specs.declared.entry.State.TheVariants.{SynSent, SynRecv, Established, FinWait, LastAck, TimeWait, Closed};

use crate::endpoint::{Connection, connection_of};
use crate::entry::{Entry, State, next_entry};
use crate::settings::ConnSettings;
use scr_base::{OutOfMemory, Verdict};
use scr_program::{Fields, FlowTable, Keyed, is_tcp};

/// The connection tracker: the verdict on a TCP segment is the state that it brings its connection to, or INVALID.
#[derive(Clone, Copy, Debug, PartialEq, Eq)]
pub struct Conn;

const INVALID: Verdict = Verdict(7);

const OTHER: Verdict = Verdict(8);

const NAMES: [&str; 9] = [
    "SYN_SENT",
    "SYN_RECV",
    "ESTABLISHED",
    "FIN_WAIT",
    "LAST_ACK",
    "TIME_WAIT",
    "CLOSED",
    "INVALID",
    "OTHER",
];

impl Keyed for Conn {
    type Settings = ConnSettings;

    type Key = Connection;

    type Entry = Entry;

    ghost is_looked_at = { is_tcp };

    ghost fields_kept = { fields_kept };

    ghost key_of = { connection_of };

    ghost outcome = { outcome };

    ghost other = { OTHER };

    ghost most = { λ settings. settings.flows };

    ghost names_given = { names };

    ghost outcome_is_named = { λ settings known fields. elim (next_entry settings.idle known fields) as (λ entry. (answered entry).1.0 < 9) [
      | None ↦ lit< tt
      | Some entry ↦ elim entry.state as (λ state. (verdict_of state).0 < 9) [ SynSent ↦ lit< tt | SynRecv ↦ lit< tt | Established ↦ lit< tt | FinWait ↦ lit< tt | LastAck ↦ lit< tt | TimeWait ↦ lit< tt | Closed ↦ lit< tt ]
    ] };

    ghost other_is_named = { lit< tt };

    #[inline(always)]
    fn looks_at(kind: u16) -> bool {
        is_tcp(kind)
    }

    #[inline(always)]
    fn kept(fields: &Fields) -> Fields {
        Fields {
            length: 0,
            ..*fields
        }
    }

    #[inline(always)]
    fn key(fields: &Fields) -> Connection {
        connection_of(fields)
    }

    // A segment that isn't valid leaves the table alone.
    #[inline(always)]
    fn enter(
        settings: &ConnSettings,
        table: &mut FlowTable<Connection, Entry>,
        connection: &Connection,
        fields: &Fields,
    ) -> Result<Verdict, OutOfMemory> {
        table.update_where(connection, |known| {
            answered(next_entry(settings.idle, known, fields))
        })
    }

    #[inline(always)]
    fn passed_over() -> Verdict {
        OTHER
    }

    fn most_flows(settings: &ConnSettings) -> u32 {
        settings.flows
    }

    fn verdicts() -> &'static [&'static str] {
        &NAMES
    }
}

// The entry that a segment leaves, if it is valid, and its verdict.
#[inline(always)]
fn answered(entry: Option<Entry>) -> (Option<Entry>, Verdict)
    ensures { result ≡ answered entry }
{
    match entry {
        Some(after) => (entry, verdict_of(after.state)),
        None => (None, INVALID),
    }
}

#[inline(always)]
fn verdict_of(state: State) -> Verdict
    ensures { result ≡ verdict_of state }
{
    match state {
        State::SynSent => Verdict(0),
        State::SynRecv => Verdict(1),
        State::Established => Verdict(2),
        State::FinWait => Verdict(3),
        State::LastAck => Verdict(4),
        State::TimeWait => Verdict(5),
        State::Closed => Verdict(6),
    }
}
