ghost use Rattle.std.specs.Prelude.{◌≡◌};
ghost use Rattle.scr_words.specs.Operands.{command_name, command_named, knows, sprays, runs_cores, operand_named, line_of, taker_of, is_taken};

use crate::program_name::{Choice, OneName, ProgramName};
use crate::settings::Command;
use scr_program::MOST_FLOWS;

const MOST_CORES: u64 = 16;

const LONGEST_HISTORY: u64 = 64;

const MOST_RING: u64 = 4096;

const MOST_FRAMES: u64 = 1_000_000;

const MOST_HOSTS: u64 = 65_536;

const COMMANDS: [Command; 5] = [
    Command::Run,
    Command::Plain,
    Command::Load,
    Command::Spray,
    Command::Replay,
];

/// What may stand before the first `=` of a word.
#[derive(Clone, Copy)]
pub(crate) enum Operand {
    Program,
    Flows,
    Cores,
    History,
    Drop,
    Repeat,
    Delay,
    Ring,
    Threads,
    Start,
    Frames,
    Hosts,
    Threshold,
    Bytes,
    Rate,
    Burst,
    Ports,
    Idle,
    First,
    Second,
    Table,
}

const OPERANDS: [Operand; 21] = [
    Operand::Program,
    Operand::Flows,
    Operand::Cores,
    Operand::History,
    Operand::Drop,
    Operand::Repeat,
    Operand::Delay,
    Operand::Ring,
    Operand::Threads,
    Operand::Start,
    Operand::Frames,
    Operand::Hosts,
    Operand::Threshold,
    Operand::Bytes,
    Operand::Rate,
    Operand::Burst,
    Operand::Ports,
    Operand::Idle,
    Operand::First,
    Operand::Second,
    Operand::Table,
];

/// Who takes an operand.
#[derive(Clone, Copy)]
pub(crate) enum Taker {
    /// Each command.
    Every,
    /// The commands that spray the frames of a capture over cores.
    Spraying,
    /// The commands that run cores.
    WithCores,
    /// The command that makes up a capture.
    LoadAlone,
    /// Each command that knows this program, for it alone.
    Program(ProgramName),
}

/// What the value of an operand is.
#[derive(Clone, Copy)]
pub(crate) enum Form {
    /// The name of a program.
    OneProgram,
    /// A number of a range.
    Number { least: u64, greatest: u64 },
    /// A drop list.
    DropList,
    /// A list of repeats, which has the form of a drop list.
    RepeatList,
    /// A list of delays.
    DelayList,
    /// `yes` or `no`.
    YesNo,
    /// Three ports, parted by commas.
    ThreePorts,
    /// The name of a program that may be the first of a chain.
    FirstProgram,
    /// The name of a program that may be the second of a chain.
    SecondProgram,
    /// A table of rules.
    TableText,
}

/// An operand's line in the table.
#[derive(Clone, Copy)]
pub(crate) struct TableLine {
    pub(crate) name: &'static [u8],
    pub(crate) taker: Taker,
    pub(crate) form: Form,
    /// The value that stands where none is given. Programs and a table have none, and the history's depends on the cores.
    pub(crate) default: &'static [u8],
}

impl Operand {
    /// The operand with this name.
    pub(crate) fn named(name: &[u8]) -> Option<Operand>
        ensures { result ≡ operand_named name.now }
    {
        OPERANDS
            .iter()
            .find(|operand| operand.line().name == name)
            .copied()
    }

    /// The operand's line in the table.
    pub(crate) fn line(self) -> TableLine
        ensures name { result.name.now ≡ (line_of self).name }
        ensures taker { result.taker ≡ (line_of self).taker }
        ensures form { result.form ≡ (line_of self).form }
        ensures default { result.default.now ≡ (line_of self).default }
    {
        let ddos = taker_of(OneName::Ddos);
        let heavy = taker_of(OneName::Heavy);
        let bucket = taker_of(OneName::Bucket);
        let knock = taker_of(OneName::Knock);
        let conn = taker_of(OneName::Conn);
        let chain = Taker::Program(ProgramName::Chain);
        let table = Taker::Program(ProgramName::Table);
        match self {
            Operand::Program => line(b"program", Taker::Every, Form::OneProgram, b""),
            Operand::Flows => line(
                b"flows",
                Taker::Every,
                number(1, u64::from(MOST_FLOWS)),
                b"4096",
            ),
            Operand::Cores => line(b"cores", Taker::Spraying, number(1, MOST_CORES), b"1"),
            Operand::History => line(b"history", Taker::Spraying, number(0, LONGEST_HISTORY), b""),
            Operand::Drop => line(b"drop", Taker::Spraying, Form::DropList, b""),
            Operand::Repeat => line(b"repeat", Taker::Spraying, Form::RepeatList, b""),
            Operand::Delay => line(b"delay", Taker::Spraying, Form::DelayList, b""),
            Operand::Ring => line(b"ring", Taker::WithCores, number(1, MOST_RING), b"1024"),
            Operand::Threads => line(b"threads", Taker::WithCores, Form::YesNo, b"yes"),
            Operand::Start => line(b"start", Taker::LoadAlone, number(0, u64::MAX), b"0"),
            Operand::Frames => line(b"frames", Taker::LoadAlone, number(0, MOST_FRAMES), b"1000"),
            Operand::Hosts => line(b"hosts", Taker::LoadAlone, number(1, MOST_HOSTS), b"16"),
            Operand::Threshold => line(b"threshold", ddos, number(0, 4_294_967_295), b"1000"),
            Operand::Bytes => line(b"bytes", heavy, number(1, 1_000_000_000_000), b"1000000"),
            Operand::Rate => line(b"rate", bucket, number(0, 1_000_000_000), b"1000"),
            Operand::Burst => line(b"burst", bucket, number(1, 1_000_000_000), b"100"),
            Operand::Ports => line(b"ports", knock, Form::ThreePorts, b"7000,8000,9000"),
            Operand::Idle => line(b"idle", conn, number(1, 10_000_000_000_000), b"60000000"),
            Operand::First => line(b"first", chain, Form::FirstProgram, b""),
            Operand::Second => line(b"second", chain, Form::SecondProgram, b""),
            Operand::Table => line(b"table", table, Form::TableText, b""),
        }
    }
}

fn line(name: &'static [u8], taker: Taker, form: Form, default: &'static [u8]) -> TableLine
    ensures name { result.name.now ≡ name.now }
    ensures taker { result.taker ≡ taker }
    ensures form { result.form ≡ form }
    ensures default { result.default.now ≡ default.now }
{
    TableLine {
        name,
        taker,
        form,
        default,
    }
}

fn taker_of(one: OneName) -> Taker
    ensures { result ≡ taker_of one }
{
    Taker::Program(ProgramName::One(one))
}

fn number(least: u64, greatest: u64) -> Form
    ensures { result ≡ Form.Number least greatest }
{
    Form::Number { least, greatest }
}

impl Command {
    /// The command with this name.
    #[tactic(auto, unfolding(crate::specs::Operands::command_named))]
    pub(crate) fn named(name: &[u8]) -> Option<Command>
        ensures { result ≡ command_named name.now }
    {
        COMMANDS
            .iter()
            .find(|command| command.name() == name)
            .copied()
    }

    fn name(self) -> &'static [u8]
        ensures { result.now ≡ command_name self }
    {
        match self {
            Command::Run => b"run",
            Command::Plain => b"plain",
            Command::Load => b"load",
            Command::Spray => b"spray",
            Command::Replay => b"replay",
        }
    }

    /// Whether a program may be named beside this command. A stream is of one of the five.
    pub(crate) fn knows(self, program: ProgramName) -> bool
        ensures { result ≡ knows self program }
    {
        match self {
            Command::Run | Command::Plain | Command::Load => true,
            Command::Spray | Command::Replay => program.is_of_five(),
        }
    }

    fn sprays(self) -> bool
        ensures { result ≡ sprays self }
    {
        match self {
            Command::Run | Command::Load | Command::Spray => true,
            Command::Plain | Command::Replay => false,
        }
    }

    fn runs_cores(self) -> bool
        ensures { result ≡ runs_cores self }
    {
        match self {
            Command::Run | Command::Load | Command::Replay => true,
            Command::Plain | Command::Spray => false,
        }
    }
}

impl Taker {
    /// Whether an operand with this taker is taken beside this command and what the words choose. Where no program is
    /// chosen, the operands of each that the command knows are.
    pub(crate) fn is_met(self, command: Command, choice: Choice) -> bool
        ensures { result ≡ is_taken command choice self }
    {
        match self {
            Taker::Every => true,
            Taker::Spraying => command.sprays(),
            Taker::WithCores => command.runs_cores(),
            Taker::LoadAlone => command == Command::Load,
            Taker::Program(program) => command.knows(program) && choice.takes(program),
        }
    }
}
