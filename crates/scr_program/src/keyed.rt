ghost use Rattle.std.specs.Prelude.{◌≡◌, ◌≤◌, ◌<◌, ℕ, Bool, Option, Some, List, length, map, slice_get, IfOk, IsOk, OnOk, OnErr};
ghost use Rattle.scr_base.specs.declared.row.Row.{Row};
ghost use Rattle.scr_base.specs.declared.row.Verdict.{Verdict};
ghost use Rattle.scr_program.specs.declared.fields.Fields.{Fields};
ghost use Rattle.scr_program.specs.Folds.{Stands, verdict_after, count_after};
ghost use Rattle.scr_program.specs.Keyed.{keyed_step, EntersAs, IsReadyFor};
ghost use Rattle.scr_program.specs.Rows.{row_keeping};
ghost use Rattle.scr_program.specs.Named.{keyed_step-named, verdict_after-named};

use crate::fields::{Fields, ZERO_ROW, fields_of, pack, unpack};
use crate::key::FlowKey;
use crate::program::Program;
use crate::table::{FlowTable, MOST_FLOWS};
use scr_base::{OutOfMemory, Row, Verdict};
use scr_frame::Parsed;
use std::alloc::Global;

/// A packet program that keeps an entry for each key, such as a source or a flow, of the packets that it looks at. It is
/// a [`Program`], whose state is a [`FlowTable`].
pub trait Keyed: Sync {
    /// The numbers that a user may choose.
    type Settings: Sync + Drop;

    /// What the program tells packets by.
    type Key: FlowKey + Send + Sync;

    /// What it keeps for a key.
    type Entry: Copy + Drop + Send;

    /// Packets of this kind are looked at.
    ghost is_looked_at: { ℕ → Bool };

    /// The fields of a packet that its row keeps.
    ghost fields_kept: { Fields → Fields };

    /// The key of a packet with these fields.
    ghost key_of: { Fields → Self.Key };

    /// The entry that a packet leaves its key, or none where it changes nothing, and its verdict.
    ghost outcome: { Self.Settings → Option Self.Entry → Fields → Option Self.Entry × Verdict };

    /// The verdict on a packet that isn't looked at.
    ghost other: { Verdict };

    /// How many entries there are at most.
    ghost most: { Self.Settings → ℕ };

    /// The names of the verdicts, as bytes.
    ghost names_given: { List (List ℕ) };

    /// Whether packets of this kind are looked at.
    fn looks_at(kind: u16) -> bool
        ensures { result ≡ is_looked_at kind };

    /// The fields that a row keeps of a packet: the kind and the family, and of the rest some, with the others 0.
    fn kept(fields: &Fields) -> Fields
        ensures kept { result ≡ fields_kept fields.now }
        ensures kind { result.kind ≡ fields.now.kind }
        ensures family { fields.now.source.family ≡ fields.now.destination.family → result.source.family ≡ result.destination.family };

    /// The key of a packet with these fields.
    fn key(fields: &Fields) -> Self::Key
        ensures { result ≡ key_of fields.now };

    /// Takes a packet with this key and these fields: gives the key the entry that it leaves, and answers its verdict. At
    /// `Err` the entries are as they were; there is none where the key is ready or there is room.
    fn enter(
        settings: &Self::Settings,
        table: &mut FlowTable<Self::Key, Self::Entry>,
        key: &Self::Key,
        fields: &Fields,
    ) -> Result<Verdict, OutOfMemory>
        ensures entered { IfOk result (λ verdict. EntersAs Self.Key.eq (outcome settings.now) table.old table.new key.now fields.now verdict) }
        ensures err { OnErr result (table.new.list ≡ table.old.list) }
        ensures flows { table.new.flows ≡ table.old.flows }
        ensures succeeds { table.old.ready ≡ Some key.now → IsOk result }
        ensures room_succeeds { 0 < table.old.spare → IsOk result };

    /// Makes the key of a row ready, in a table that has no room for any key. It stands apart, so that what a step mostly
    /// does stays small; no program gives another.
    #[cold]
    #[inline(never)]
    fn make_ready(
        table: &mut FlowTable<Self::Key, Self::Entry>,
        row: &Row,
    ) -> Result<(), OutOfMemory>
        ensures list { table.new.list ≡ table.old.list }
        ensures flows { table.new.flows ≡ table.old.flows }
        ensures ready { OnOk result (IsReadyFor is_looked_at key_of table.new row.now) }
        ensures succeeds { IsReadyFor is_looked_at key_of table.old row.now → IsOk result }
    {
        let fields = unpack(row);
        if Self::looks_at(fields.kind) {
            table.prepare(Self::key(&fields))
        } else {
            Ok(())
        }
    }

    /// The verdict on a packet that isn't looked at.
    fn passed_over() -> Verdict
        ensures { result ≡ other };

    /// How many entries there are at most: from 1 to 65,536.
    fn most_flows(settings: &Self::Settings) -> u32
        ensures most { result ≡ most settings.now }
        ensures some { 1 ≤ result }
        ensures few { result ≤ MOST_FLOWS };

    /// The names of the verdicts.
    fn verdicts() -> &'static [&'static str]
        ensures names { map (λ name. name.now) result.now ≡ names_given }
        ensures few { length result.now < 256 };

    /// The verdict on each packet that is looked at has a name.
    ghost outcome_is_named: { (settings : Self.Settings) (known : Option Self.Entry) (fields : Fields) → (outcome settings known fields).1.0 < length names_given };

    /// So has the one on a packet that isn't.
    ghost other_is_named: { other.0 < length names_given };
}

impl<P: Keyed> Program for P {
    type Settings = P::Settings;

    type State = FlowTable<P::Key, P::Entry>;

    ghost row_of = { λ settings. row_keeping P.is_looked_at P.fields_kept };

    ghost StandsFor = { λ settings. Stands (keyed_step P.Key.eq P.is_looked_at P.key_of (P.most settings) (P.outcome settings) P.other) (P.most settings) };

    ghost verdict_after = { λ settings. verdict_after (keyed_step P.Key.eq P.is_looked_at P.key_of (P.most settings) (P.outcome settings) P.other) };

    ghost count_after = { λ settings. count_after (keyed_step P.Key.eq P.is_looked_at P.key_of (P.most settings) (P.outcome settings) P.other) };

    ghost IsReady = { λ settings. IsReadyFor P.is_looked_at P.key_of };

    ghost verdict_names = { P.names_given };

    ghost is_named = { λ settings. verdict_after-named (keyed_step P.Key.eq P.is_looked_at P.key_of (P.most settings) (P.outcome settings) P.other) (length P.names_given) (keyed_step-named P.Key.eq P.is_looked_at P.key_of (P.most settings) (P.outcome settings) P.other (length P.names_given) (P.outcome_is_named settings) P.other_is_named) };

    #[inline(always)]
    fn extract(_: &P::Settings, parsed: &Parsed, time: u64) -> Row {
        let fields = fields_of(parsed, time);
        if P::looks_at(fields.kind) {
            pack(&P::kept(&fields))
        } else {
            ZERO_ROW
        }
    }

    fn fresh(alloc: Global, settings: &P::Settings) -> Result<Self::State, OutOfMemory> {
        FlowTable::make(alloc, P::most_flows(settings))
    }

    // Mostly there is room, and the row isn't read.
    #[inline(always)]
    fn prepare(_: &P::Settings, table: &mut Self::State, row: &Row) -> Result<(), OutOfMemory> {
        if table.has_room() {
            return Ok(());
        }
        P::make_ready(table, row)
    }

    #[inline(always)]
    fn step(
        settings: &P::Settings,
        table: &mut Self::State,
        row: &Row,
    ) -> Result<Verdict, OutOfMemory> {
        let fields = unpack(row);
        if !P::looks_at(fields.kind) {
            return Ok(P::passed_over());
        }
        P::enter(settings, table, &P::key(&fields), &fields)
    }

    fn flows(_: &P::Settings, table: &Self::State) -> u64 {
        u64::from(table.len())
    }

    fn names() -> u8 {
        P::verdicts().len() as u8
    }

    fn name_of(verdict: Verdict) -> Option<&'static str> {
        P::verdicts().get(usize::from(verdict.0)).copied()
    }
}
