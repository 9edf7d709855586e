ghost use Rattle.std.specs.Prelude.{◌≡◌, IfOk, OnOk, OnErr, IsOk, unwrap_or};
ghost use Rattle.scr_program.proofs.Folds.{verdict_after-named};
ghost use Rattle.scr_tables.specs.Rows.{fields_kept, row_of};
ghost use Rattle.scr_tables.specs.State.{StandsFor as stands_for, IsReady as is_ready};
ghost use Rattle.scr_tables.specs.Step.{names, step, verdict_for, verdict_after_rows, count_after_rows};
ghost use Rattle.scr_tables.specs.Held.{AreHeld, FirstSays};
ghost use Rattle.scr_tables.specs.Named.{step-named};

use crate::rule::Decision;
use crate::settings::TableSettings;
use crate::table::Table;
use scr_base::{OutOfMemory, Row, Verdict};
use scr_frame::Parsed;
use scr_program::{
    Address, Fields, FlowTable, Program, ZERO_ROW, fields_of, is_packet, pack, unpack,
};
use std::alloc::Global;

/// The program that runs a table of rules.
#[derive(Clone, Copy, Debug, PartialEq, Eq)]
pub struct Tables;

const PASS: Verdict = Verdict(0);

const DROP: Verdict = Verdict(1);

const OTHER: Verdict = Verdict(2);

impl Program for Tables {
    type Settings = TableSettings;

    /// The state of each source.
    type State = FlowTable<Address, u8>;

    ghost row_of = { row_of };

    ghost StandsFor = { stands_for };

    ghost verdict_after = { verdict_after_rows };

    ghost count_after = { count_after_rows };

    ghost IsReady = { is_ready };

    ghost verdict_names = { names };

    ghost is_named = { λ settings. verdict_after-named (step settings) 3 (step-named settings) };

    #[inline(always)]
    fn extract(_settings: &TableSettings, parsed: &Parsed, time: u64) -> Row {
        let fields = fields_of(parsed, time);
        if is_packet(fields.kind) {
            pack(&kept(&fields))
        } else {
            ZERO_ROW
        }
    }

    fn fresh(alloc: Global, settings: &TableSettings) -> Result<Self::State, OutOfMemory> {
        FlowTable::make(alloc, settings.flows)
    }

    // Mostly there is room, and the row isn't read.
    #[inline(always)]
    fn prepare(
        settings: &TableSettings,
        state: &mut Self::State,
        row: &Row,
    ) -> Result<(), OutOfMemory> {
        if state.has_room() {
            return Ok(());
        }
        make_ready(settings, state, row)
    }

    #[inline(always)]
    fn step(
        settings: &TableSettings,
        state: &mut Self::State,
        row: &Row,
    ) -> Result<Verdict, OutOfMemory> {
        answer(settings, state, row)
    }

    fn flows(_settings: &TableSettings, state: &Self::State) -> u64 {
        u64::from(state.len())
    }

    fn names() -> u8 {
        3
    }

    fn name_of(verdict: Verdict) -> Option<&'static str> {
        match verdict {
            PASS => Some("PASS"),
            DROP => Some("DROP"),
            OTHER => Some("OTHER"),
            _ => None,
        }
    }
}

// Makes the source of a row ready, among flows that have no room for any.
#[cold]
#[inline(never)]
fn make_ready(
    _settings: &TableSettings,
    flows: &mut FlowTable<Address, u8>,
    row: &Row,
) -> Result<(), OutOfMemory>
    ensures list { flows.new.list ≡ flows.old.list }
    ensures flows { flows.new.flows ≡ flows.old.flows }
    ensures ready { OnOk result (is_ready _settings.now flows.new row.now) }
    ensures succeeds { is_ready _settings.now flows.old row.now → IsOk result }
{
    let fields = unpack(row);
    if is_packet(fields.kind) {
        flows.prepare(fields.source)
    } else {
        Ok(())
    }
}

// The fields that a table keeps.
fn kept(fields: &Fields) -> Fields
    ensures { result ≡ fields_kept fields.now }
{
    Fields {
        source: fields.source,
        destination: Address {
            family: fields.source.family,
            value: 0,
        },
        destination_port: fields.destination_port,
        flags: fields.flags,
        kind: fields.kind,
        ..Fields::NONE
    }
}

// The step on the flow table, where each source is in a state that a run can hold.
#[inline(always)]
#[tactic(auto, unfolding(crate::specs::Step::step))]
fn answer(
    settings: &TableSettings,
    flows: &mut FlowTable<Address, u8>,
    row: &Row,
) -> Result<Verdict, OutOfMemory>
    ensures taken { AreHeld settings.now.table flows.old.list → flows.old.flows ≡ settings.now.flows → IfOk result (λ verdict. step settings.now flows.old.list row.now ≡ (flows.new.list, verdict)) }
    ensures err { OnErr result (flows.new.list ≡ flows.old.list) }
    ensures flows { flows.new.flows ≡ flows.old.flows }
    ensures succeeds { is_ready settings.now flows.old row.now → IsOk result }
{
    let fields = unpack(row);
    if !is_packet(fields.kind) {
        return Ok(OTHER);
    }
    let decision = flows.update(&fields.source, |state| {
        first_says(&settings.table, state, &fields)
    })?;
    Ok(verdict_for(decision))
}

// The next state and the verdict of the first rule for a packet whose source is in this state, or absent.
#[inline(always)]
fn first_says(table: &Table, state: Option<u8>, packet: &Fields) -> (u8, Decision)
    ensures { FirstSays table.now (unwrap_or state 0) packet.now result }
{
    let rule = table.rule_for(state.unwrap_or(0), packet);
    (rule.next, rule.verdict)
}

fn verdict_for(decision: Decision) -> Verdict
    ensures { result ≡ verdict_for decision }
{
    match decision {
        Decision::Pass => PASS,
        Decision::Drop => DROP,
    }
}
