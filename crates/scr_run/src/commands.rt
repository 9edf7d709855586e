ghost use Rattle.std.specs.Prelude.{true, false, ◌≡◌, ◌<◌, IsTrue, Some};
ghost use Rattle.std.specs.Io.KnownBytes.{IsAtEnd};
ghost use Rattle.scr_chain.specs.Chains.{chained};
ghost use Rattle.scr_pcap.specs.Generated.{generated_records};
ghost use Rattle.scr_words.specs.Operands.{makes_load, runs};
ghost use Rattle.scr_run.specs.Codes.{is_code};
ghost use Rattle.scr_run.specs.Rules.{ruled_by, rules_of_one, rules_with, code_of_one, stream_code};
ghost use Rattle.scr_run.specs.RunReport.{shaped_text};
ghost use Rattle.scr_run.specs.Asked.{IsBySettings};
ghost use Rattle.scr_run.specs.Ends.{Ends, IsText, ended};
ghost use Rattle.scr_run.specs.Tasks.{IsByTask};

use crate::engine::run_cores;
use crate::host::Host;
use crate::plain::run_whole;
use crate::replay::run_replay;
use crate::spray::run_spray;
use crate::status::Status;
use crate::task::Task;
use scr_base::{Sink, Source, SureSource};
use scr_bucket::Bucket;
use scr_chain::{Chain, ChainSettings, Second};
use scr_conn::Conn;
use scr_ddos::Ddos;
use scr_heavy::Heavy;
use scr_knock::Knock;
use scr_pcap::generate;
use scr_program::Program;
use scr_replica::Gate;
use scr_tables::Tables;
use scr_words::{Command, OneSettings, ProgramSettings, RunSettings};
use std::sync::Wait;
use std::thread::Threads;

/// Does what the settings ask for, with the program that they choose.
pub(crate) fn run_chosen<S: Source, O: Sink, G: Gate + Sync, R: Threads + Wait + Sync>(
    host: &Host<'_, R, G>,
    chosen: RunSettings,
    capture: &mut S,
    out: &mut O,
) -> Result<(), Status>
    requires known { runs chosen.command chosen.program ≡ true }
    ensures ends { Ends (IsBySettings chosen (S.left capture.old)) (makes_load chosen.command ≡ false) (makes_load chosen.command ≡ false → IsAtEnd (S.left capture.new))
        O.written (S.faults capture.old) (S.faults capture.new) O.faults O.wants out.old out.new (ended result) }
    ensures unread { makes_load chosen.command ≡ true → capture.new ≡ capture.old }
{
    let RunSettings {
        command,
        program,
        shape,
        start,
        frames,
        hosts,
    } = chosen;
    let code = stream_code(&program);
    let task = Task {
        command,
        code,
        shape,
        start,
        frames,
        hosts,
    };
    match program {
        ProgramSettings::One(settings) => run_first(host, settings, None, task, capture, out),
        ProgramSettings::Chain { first, second } => {
            run_first(host, first, Some(second), task, capture, out)
        }
        ProgramSettings::Table(settings) => {
            run_command::<Tables, S, O, G, R>(host, &settings, task, capture, out)
        }
    }
}

// The number of what runs in a stream; a chain and a table have none.
fn stream_code(program: &ProgramSettings) -> Option<u8>
    ensures { result ≡ stream_code program.now }
{
    match program {
        ProgramSettings::One(settings) => Some(code_of_one(settings)),
        ProgramSettings::Chain { .. } | ProgramSettings::Table(_) => None,
    }
}

fn code_of_one(program: &OneSettings) -> u8
    ensures { result ≡ code_of_one program.now }
{
    match program {
        OneSettings::Ddos(_) => 0,
        OneSettings::Heavy(_) => 1,
        OneSettings::Bucket(_) => 2,
        OneSettings::Knock(_) => 3,
        OneSettings::Conn(_) => 4,
    }
}

// Does the task with this program, alone or as the first of a chain. The words refuse the tracker as the first, and two of
// a kind; nothing here depends on that.
fn run_first<S: Source, O: Sink, G: Gate + Sync, R: Threads + Wait + Sync>(
    host: &Host<'_, R, G>,
    first: OneSettings,
    second: Option<OneSettings>,
    task: Task,
    capture: &mut S,
    out: &mut O,
) -> Result<(), Status>
    ensures ends { Ends (IsByTask (rules_with (rules_of_one first) second) task (S.left capture.old)) (makes_load task.command ≡ false) (makes_load task.command ≡ false → IsAtEnd (S.left capture.new))
        O.written (S.faults capture.old) (S.faults capture.new) O.faults O.wants out.old out.new (ended result) }
    ensures unread { makes_load task.command ≡ true → capture.new ≡ capture.old }
{
    match first {
        OneSettings::Ddos(settings) => {
            run_with::<Ddos, S, O, G, R>(host, settings, second, task, capture, out)
        }
        OneSettings::Heavy(settings) => {
            run_with::<Heavy, S, O, G, R>(host, settings, second, task, capture, out)
        }
        OneSettings::Bucket(settings) => {
            run_with::<Bucket, S, O, G, R>(host, settings, second, task, capture, out)
        }
        OneSettings::Knock(settings) => {
            run_with::<Knock, S, O, G, R>(host, settings, second, task, capture, out)
        }
        OneSettings::Conn(settings) => {
            run_with::<Conn, S, O, G, R>(host, settings, second, task, capture, out)
        }
    }
}

// The same with a program whose settings are known.
fn run_with<A: Program, S: Source, O: Sink, G: Gate + Sync, R: Threads + Wait + Sync>(
    host: &Host<'_, R, G>,
    first: A::Settings,
    second: Option<OneSettings>,
    task: Task,
    capture: &mut S,
    out: &mut O,
) -> Result<(), Status>
    ensures ends { Ends (IsByTask (rules_with (ruled_by (A.row_of first) (A.verdict_after first) (A.count_after first) A.verdict_names) second) task (S.left capture.old)) (makes_load task.command ≡ false) (makes_load task.command ≡ false → IsAtEnd (S.left capture.new))
        O.written (S.faults capture.old) (S.faults capture.new) O.faults O.wants out.old out.new (ended result) }
    ensures unread { makes_load task.command ≡ true → capture.new ≡ capture.old }
{
    match second {
        None => run_command::<A, S, O, G, R>(host, &first, task, capture, out),
        Some(second) => run_before::<A, S, O, G, R>(host, first, second, task, capture, out),
    }
}

// Does the task with a chain whose first program is this one.
fn run_before<A: Program, S: Source, O: Sink, G: Gate + Sync, R: Threads + Wait + Sync>(
    host: &Host<'_, R, G>,
    first: A::Settings,
    second: OneSettings,
    task: Task,
    capture: &mut S,
    out: &mut O,
) -> Result<(), Status>
    ensures ends { Ends (IsByTask (chained (ruled_by (A.row_of first) (A.verdict_after first) (A.count_after first) A.verdict_names) (rules_of_one second)) task (S.left capture.old)) (makes_load task.command ≡ false) (makes_load task.command ≡ false → IsAtEnd (S.left capture.new))
        O.written (S.faults capture.old) (S.faults capture.new) O.faults O.wants out.old out.new (ended result) }
    ensures unread { makes_load task.command ≡ true → capture.new ≡ capture.old }
{
    match second {
        OneSettings::Ddos(settings) => {
            run_chain::<A, Ddos, S, O, G, R>(host, first, settings, task, capture, out)
        }
        OneSettings::Heavy(settings) => {
            run_chain::<A, Heavy, S, O, G, R>(host, first, settings, task, capture, out)
        }
        OneSettings::Bucket(settings) => {
            run_chain::<A, Bucket, S, O, G, R>(host, first, settings, task, capture, out)
        }
        OneSettings::Knock(settings) => {
            run_chain::<A, Knock, S, O, G, R>(host, first, settings, task, capture, out)
        }
        OneSettings::Conn(settings) => {
            run_chain::<A, Conn, S, O, G, R>(host, first, settings, task, capture, out)
        }
    }
}

// Does the task with a chain of these two programs.
fn run_chain<A: Program, B: Second, S: Source, O: Sink, G: Gate + Sync, R: Threads + Wait + Sync>(
    host: &Host<'_, R, G>,
    first: A::Settings,
    second: B::Settings,
    task: Task,
    capture: &mut S,
    out: &mut O,
) -> Result<(), Status>
    ensures ends { Ends (IsByTask (chained (ruled_by (A.row_of first) (A.verdict_after first) (A.count_after first) A.verdict_names) (ruled_by (B.row_of second) (B.verdict_after second) (B.count_after second) B.verdict_names)) task (S.left capture.old)) (makes_load task.command ≡ false) (makes_load task.command ≡ false → IsAtEnd (S.left capture.new))
        O.written (S.faults capture.old) (S.faults capture.new) O.faults O.wants out.old out.new (ended result) }
    ensures unread { makes_load task.command ≡ true → capture.new ≡ capture.old }
{
    let settings = ChainSettings { first, second };
    run_command::<Chain<A, B>, S, O, G, R>(host, &settings, task, capture, out)
}

// Does the task with this program.
fn run_command<P: Program, S: Source, O: Sink, G: Gate + Sync, R: Threads + Wait + Sync>(
    host: &Host<'_, R, G>,
    settings: &P::Settings,
    task: Task,
    capture: &mut S,
    out: &mut O,
) -> Result<(), Status>
    ensures ends { Ends (IsByTask (ruled_by (P.row_of settings.now) (P.verdict_after settings.now) (P.count_after settings.now) P.verdict_names) task (S.left capture.old)) (makes_load task.command ≡ false) (makes_load task.command ≡ false → IsAtEnd (S.left capture.new))
        O.written (S.faults capture.old) (S.faults capture.new) O.faults O.wants out.old out.new (ended result) }
    ensures unread { makes_load task.command ≡ true → capture.new ≡ capture.old }
{
    match task.command {
        Command::Plain => run_whole::<P, S, O>(host.alloc, settings, capture, out),
        Command::Run => run_cores::<P, S, O, G, R>(host, settings, task.shape, true, capture, out),
        Command::Load => run_load::<P, O, G, R>(host, settings, task, out),
        Command::Spray => {
            let code = code_in(&task);
            run_spray::<P, S, O>(host.alloc, code, settings, task.shape, capture, out)
        }
        Command::Replay => {
            let code = code_in(&task);
            run_replay::<P, S, O, G, R>(host, code, settings, &task.shape, capture, out)
        }
    }
}

// The number in a stream of the program of a task that has one.
fn code_in(task: &Task) -> u8
    requires { IsTrue (is_code task.now.code) }
    ensures some { task.now.code ≡ Some result }
    ensures few { result < 5 }
{
    match task.code {
        Some(code) => code,
        None => unreachable!(),
    }
}

// Lets the cores take a capture that is made up.
fn run_load<P: Program, O: Sink, G: Gate + Sync, R: Threads + Wait + Sync>(
    host: &Host<'_, R, G>,
    settings: &P::Settings,
    task: Task,
    out: &mut O,
) -> Result<(), Status>
    ensures ends { Ends
        (IsText (shaped_text (ruled_by (P.row_of settings.now) (P.verdict_after settings.now) (P.count_after settings.now) P.verdict_names) task.shape false
        (generated_records task.start task.frames task.hosts)))
        ⊥ (Unit {0}) O.written 0 0 O.faults O.wants out.old out.new (ended result) }
{
    let bytes = generate(host.alloc, task.start, task.frames, task.hosts)?;
    let mut made = SureSource::new(bytes, usize::MAX);
    run_cores::<P, SureSource, O, G, R>(host, settings, task.shape, false, &mut made, out)
}
