ghost use Rattle.std.specs.Prelude.{◌≡◌, ◌&&◌, true};
ghost use Rattle.std.specs.Str.{bytes_eq};
ghost use Rattle.std.specs.Option.{option_map_or};
ghost use Rattle.scr_words.specs.Operands.{one_name, one_named, program_name, program_named, knows, is_of_five, is_in_chain, takes_those_of};

use crate::settings::Command;

/// The five programs, as words name them.
#[derive(Clone, Copy, PartialEq, Eq)]
pub(crate) enum OneName {
    Ddos,
    Heavy,
    Bucket,
    Knock,
    Conn,
}

/// What may run, as words name it.
#[derive(Clone, Copy)]
pub(crate) enum ProgramName {
    /// One of the five.
    One(OneName),
    /// A chain of two of the five.
    Chain,
    /// A table of rules.
    Table,
}

/// What the words choose to run, as far as they name it.
#[derive(Clone, Copy)]
pub(crate) struct Choice {
    pub(crate) program: Option<ProgramName>,
    /// The two programs of a chain.
    pub(crate) first: Option<OneName>,
    pub(crate) second: Option<OneName>,
}

/// The five programs.
pub(crate) const ONES: [OneName; 5] = [
    OneName::Ddos,
    OneName::Heavy,
    OneName::Bucket,
    OneName::Knock,
    OneName::Conn,
];

/// Those that may be the first of a chain.
pub(crate) const FIRSTS: [OneName; 4] = [
    OneName::Ddos,
    OneName::Heavy,
    OneName::Bucket,
    OneName::Knock,
];

const PROGRAMS: [ProgramName; 7] = [
    ProgramName::One(OneName::Ddos),
    ProgramName::One(OneName::Heavy),
    ProgramName::One(OneName::Bucket),
    ProgramName::One(OneName::Knock),
    ProgramName::One(OneName::Conn),
    ProgramName::Chain,
    ProgramName::Table,
];

impl OneName {
    /// The one of these programs with this name.
    pub(crate) fn named(ones: &[OneName], name: &[u8]) -> Option<OneName>
        ensures { result ≡ one_named ones.now name.now }
    {
        ones.iter().find(|one| one.name() == name).copied()
    }

    fn name(self) -> &'static [u8]
        ensures { result.now ≡ one_name self }
    {
        match self {
            OneName::Ddos => b"ddos",
            OneName::Heavy => b"heavy",
            OneName::Bucket => b"bucket",
            OneName::Knock => b"knock",
            OneName::Conn => b"conn",
        }
    }
}

impl ProgramName {
    /// The program with this name, of those that a command knows.
    pub(crate) fn named(command: Command, name: &[u8]) -> Option<ProgramName>
        ensures { result ≡ program_named command name.now }
    {
        PROGRAMS
            .iter()
            .find(|program| program.is_known_as(command, name))
            .copied()
    }

    fn name(self) -> &'static [u8]
        ensures { result.now ≡ program_name self }
    {
        match self {
            ProgramName::One(one) => one.name(),
            ProgramName::Chain => b"chain",
            ProgramName::Table => b"table",
        }
    }

    // Whether a command knows it by this name.
    fn is_known_as(self, command: Command, name: &[u8]) -> bool
        ensures { result ≡ (knows command self && bytes_eq (program_name self) name.now) }
    {
        command.knows(self) && self.name() == name
    }

    /// Whether it is one of the five.
    pub(crate) fn is_of_five(self) -> bool
        ensures { result ≡ is_of_five self }
    {
        match self {
            ProgramName::One(_) => true,
            ProgramName::Chain | ProgramName::Table => false,
        }
    }
}

impl Choice {
    /// Whether the operands of this program are taken.
    pub(crate) fn takes(self, program: ProgramName) -> bool
        ensures { result ≡ option_map_or (λ chosen. takes_those_of self chosen program) self.program true }
    {
        match self.program {
            Some(chosen) => self.takes_beside(chosen, program),
            None => true,
        }
    }

    fn takes_beside(self, chosen: ProgramName, program: ProgramName) -> bool
        ensures { result ≡ takes_those_of self chosen program }
    {
        match (chosen, program) {
            (ProgramName::One(chosen), ProgramName::One(one)) => chosen == one,
            (ProgramName::Chain, ProgramName::One(one)) => self.chains(one),
            (ProgramName::Chain, ProgramName::Chain) => true,
            (ProgramName::Table, ProgramName::Table) => true,
            _ => false,
        }
    }

    // Whether a program is one of the chain's, as far as these are known.
    fn chains(self, one: OneName) -> bool
        ensures { result ≡ is_in_chain self.first self.second one }
    {
        match (self.first, self.second) {
            (Some(first), Some(second)) => first == one || second == one,
            _ => true,
        }
    }
}
