ghost use Rattle.std.specs.Prelude.{◌≡◌, ◌≤◌, IsTrue, List, Some, None, IfOk};
ghost use Rattle.scr_base.specs.Numbers.{number_of};
ghost use Rattle.scr_plan.specs.Limits.{most_cores, longest_history};
ghost use Rattle.scr_plan.specs.Spelling.{SpellsRanges};
ghost use Rattle.scr_plan.specs.DelaySpelling.{SpellsDelays};
ghost use Rattle.scr_plan.specs.declared.drops.DropRange.{DropRange};
ghost use Rattle.scr_plan.specs.declared.delays.FrameDelay.{FrameDelay};
ghost use Rattle.scr_program.specs.declared.table.TheConstants.{MOST_FLOWS};
ghost use Rattle.scr_words.specs.Operands.{line_of, is_numeric, IsWithin};
ghost use Rattle.scr_words.specs.WordParts.{program_in, chosen};
ghost use Rattle.scr_words.specs.WordFaults.{value_fault, number_fault};
ghost use Rattle.scr_words.specs.WordTests.{HaveFaultlessValues, Chooses};
ghost use Rattle.scr_words.specs.GivenSettings.{value_for, number_for, history_for, HasPorts, HasNumbers, name_of, HasProgram, HasLink, HasShape, AreChosen};

use crate::operand::{Form, Operand};
use crate::parts::{chosen, given};
use crate::program_name::{Choice, OneName, ProgramName};
use crate::settings::{Command, OneSettings, ProgramSettings, RunSettings, Shape};
use scr_base::{OutOfMemory, Word, read_number};
use scr_bucket::BucketSettings;
use scr_conn::ConnSettings;
use scr_ddos::DdosSettings;
use scr_heavy::HeavySettings;
use scr_knock::KnockSettings;
use scr_plan::{DelayError, Delays, DropError, Drops, Link};
use scr_tables::{Table, TableError, TableSettings};
use std::alloc::Global;

/// Operands that passed their tests beside a command.
#[derive(Clone, Copy)]
pub(crate) struct Tested<'a> {
    pub(crate) command: Command,
    pub(crate) operands: &'a [Word],
}

/// The settings that operands choose, or none where a required one is absent.
pub(crate) fn settings(
    alloc: Global,
    tested: Tested<'_>,
) -> Result<Option<RunSettings>, OutOfMemory>
    requires values { HaveFaultlessValues tested.command tested.operands.now }
    ensures { IfOk result (Chooses tested.entry.command tested.entry.operands.now (λ settings.
        (settings.command ≡ tested.entry.command) × AreChosen tested.entry.operands.now settings)) }
{
    let Some(program) = program_settings(alloc, tested)? else {
        return Ok(None);
    };
    Ok(Some(RunSettings {
        command: tested.command,
        program,
        shape: shape(alloc, tested)?,
        start: number(Operand::Start, tested),
        frames: number(Operand::Frames, tested) as u32,
        hosts: number(Operand::Hosts, tested) as u32,
    }))
}

fn program_settings(
    alloc: Global,
    tested: Tested<'_>,
) -> Result<Option<ProgramSettings>, OutOfMemory>
    requires values { HaveFaultlessValues tested.command tested.operands.now }
    ensures { IfOk result (Chooses tested.entry.command tested.entry.operands.now (HasProgram tested.entry.command tested.entry.operands.now)) }
{
    let choice = chosen(tested.command, tested.operands);
    match choice.program {
        None => Ok(None),
        Some(ProgramName::One(one)) => Ok(Some(ProgramSettings::One(one_settings(one, tested)))),
        Some(ProgramName::Chain) => Ok(chain_settings(choice, tested)),
        Some(ProgramName::Table) => table_settings(alloc, tested),
    }
}

fn chain_settings(choice: Choice, tested: Tested<'_>) -> Option<ProgramSettings>
    requires values { HaveFaultlessValues tested.command tested.operands.now }
    requires choice { choice ≡ chosen tested.command tested.operands.now }
    requires program { choice.program ≡ Some ProgramName.Chain }
    ensures { Chooses tested.entry.command tested.entry.operands.now (HasProgram tested.entry.command tested.entry.operands.now) result }
{
    let first = one_settings(choice.first?, tested);
    let second = one_settings(choice.second?, tested);
    Some(ProgramSettings::Chain { first, second })
}

fn table_settings(alloc: Global, tested: Tested<'_>) -> Result<Option<ProgramSettings>, OutOfMemory>
    requires values { HaveFaultlessValues tested.command tested.operands.now }
    requires program { program_in tested.command tested.operands.now ≡ Some ProgramName.Table }
    ensures { IfOk result (Chooses tested.entry.command tested.entry.operands.now (HasProgram tested.entry.command tested.entry.operands.now)) }
{
    let Some(text) = given(Operand::Table.line().name, tested.operands) else {
        return Ok(None);
    };
    let flows = number(Operand::Flows, tested) as u32;
    match Table::read(alloc, text) {
        Ok(table) => Ok(Some(ProgramSettings::Table(TableSettings::new(table, flows)))),
        Err(TableError::OutOfMemory(want)) => Err(want),
        Err(TableError::Refused { .. }) => unreachable!(),
    }
}

fn one_settings(name: OneName, tested: Tested<'_>) -> OneSettings
    requires values { HaveFaultlessValues tested.command tested.operands.now }
    ensures name { name_of result ≡ name }
    ensures numbers { HasNumbers tested.entry.operands.now result }
{
    let flows = number(Operand::Flows, tested) as u32;
    match name {
        OneName::Ddos => OneSettings::Ddos(DdosSettings {
            threshold: number(Operand::Threshold, tested),
            flows,
        }),
        OneName::Heavy => OneSettings::Heavy(HeavySettings {
            bytes: number(Operand::Bytes, tested),
            flows,
        }),
        OneName::Bucket => OneSettings::Bucket(BucketSettings {
            rate: number(Operand::Rate, tested),
            burst: number(Operand::Burst, tested),
            flows,
        }),
        OneName::Knock => OneSettings::Knock(knock_settings(flows, tested)),
        OneName::Conn => OneSettings::Conn(ConnSettings {
            idle: number(Operand::Idle, tested),
            flows,
        }),
    }
}

fn knock_settings(flows: u32, tested: Tested<'_>) -> KnockSettings
    requires some { 1 ≤ flows }
    requires few { flows ≤ MOST_FLOWS }
    requires values { HaveFaultlessValues tested.command tested.operands.now }
    ensures ports { HasPorts (value_for Operand.Ports tested.entry.operands.now) result }
    ensures flows { result.flows ≡ flows }
{
    let mut settings = KnockSettings::new(flows);
    // The ports were tested, so they are taken.
    let _ = settings.set(b"ports", value(Operand::Ports, tested));
    settings
}

fn shape(alloc: Global, tested: Tested<'_>) -> Result<Shape, OutOfMemory>
    requires values { HaveFaultlessValues tested.command tested.operands.now }
    ensures { IfOk result (HasShape tested.entry.operands.now) }
{
    let cores = number(Operand::Cores, tested) as u32;
    Ok(Shape {
        cores,
        history: history(cores, tested),
        link: link(alloc, tested)?,
        ring: number(Operand::Ring, tested) as u32,
        threads: value(Operand::Threads, tested) == b"yes".as_slice(),
    })
}

fn history(cores: u32, tested: Tested<'_>) -> u32
    requires cores { cores ≡ number_for Operand.Cores tested.operands.now }
    requires some { 1 ≤ cores }
    requires few { cores ≤ most_cores }
    requires values { HaveFaultlessValues tested.command tested.operands.now }
    ensures history { result ≡ history_for tested.entry.operands.now }
    ensures short { result ≤ longest_history }
{
    match given(Operand::History.line().name, tested.operands) {
        Some(text) => spelled(Operand::History, text) as u32,
        None => cores - 1,
    }
}

fn link(alloc: Global, tested: Tested<'_>) -> Result<Link, OutOfMemory>
    requires values { HaveFaultlessValues tested.command tested.operands.now }
    ensures { IfOk result (HasLink tested.entry.operands.now) }
{
    let drops = ranges(alloc, value(Operand::Drop, tested))?;
    let repeats = ranges(alloc, value(Operand::Repeat, tested))?;
    let delays = delays(alloc, value(Operand::Delay, tested))?;
    Ok(Link::make(alloc, drops, repeats, delays))
}

// The ranges that a tested text spells.
fn ranges(alloc: Global, text: &[u8]) -> Result<Drops, OutOfMemory>
    requires { (ranges : List DropRange) × SpellsRanges text.now ranges }
    ensures { IfOk result (SpellsRanges text.now) }
{
    match Drops::read(alloc, text) {
        Ok(drops) => Ok(drops),
        Err(DropError::OutOfMemory(want)) => Err(want),
        Err(DropError::Refused { .. }) => unreachable!(),
    }
}

// The delays that a tested text spells.
fn delays(alloc: Global, text: &[u8]) -> Result<Delays, OutOfMemory>
    requires { (delays : List FrameDelay) × SpellsDelays text.now delays }
    ensures { IfOk result (SpellsDelays text.now) }
{
    match Delays::read(alloc, text) {
        Ok(delays) => Ok(delays),
        Err(DelayError::OutOfMemory(want)) => Err(want),
        Err(DelayError::Refused { .. }) => unreachable!(),
    }
}

// The value that the words give an operand, or its default.
fn value<'a>(operand: Operand, tested: Tested<'a>) -> &'a [u8]
    ensures { result.now ≡ value_for operand tested.entry.operands.now }
{
    let line = operand.line();
    given(line.name, tested.operands).unwrap_or(line.default)
}

fn number(operand: Operand, tested: Tested<'_>) -> u64
    requires numeric { IsTrue (is_numeric (line_of operand).form) }
    requires default { value_fault tested.command (line_of operand).form (line_of operand).default ≡ None }
    requires values { HaveFaultlessValues tested.command tested.operands.now }
    ensures number { result ≡ number_for operand tested.entry.operands.now }
    ensures within { IsWithin (line_of operand).form result }
{
    spelled(operand, value(operand, tested))
}

// The number that a tested value spells.
fn spelled(operand: Operand, value: &[u8]) -> u64
    requires numeric { IsTrue (is_numeric (line_of operand).form) }
    requires faultless { number_fault (line_of operand).form value.now ≡ None }
    ensures number { result ≡ number_of value.now }
    ensures within { IsWithin (line_of operand).form result }
{
    let Form::Number { least, greatest } = operand.line().form else {
        unreachable!()
    };
    match read_number(value, least, greatest) {
        Ok(number) => number,
        Err(_) => unreachable!(),
    }
}
