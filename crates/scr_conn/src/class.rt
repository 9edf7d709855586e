ghost use Rattle.std.specs.Prelude.{◌≡◌};
ghost use Rattle.scr_conn.specs.Flags.{class_of, has_flag};

const FIN: u8 = 1;

const SYN: u8 = 2;

const RST: u8 = 4;

const ACK: u8 = 16;

/// What the flags of a segment ask for.
#[derive(Clone, Copy, Debug, PartialEq, Eq)]
pub(crate) enum Class {
    /// RST.
    Reset,
    /// SYN and FIN, which no segment may have together.
    SynFin,
    /// SYN and ACK.
    SynAck,
    /// SYN alone of the four.
    Syn,
    /// FIN, with or without ACK.
    Fin,
    /// ACK alone of the four.
    Ack,
    /// None of the four.
    Unmarked,
}

/// The class of these flags.
#[inline(always)]
pub(crate) fn class_of(flags: u8) -> Class
    ensures { result ≡ class_of flags }
{
    if has_flag(flags, RST) {
        return Class::Reset;
    }
    match (
        has_flag(flags, SYN),
        has_flag(flags, FIN),
        has_flag(flags, ACK),
    ) {
        (true, true, _) => Class::SynFin,
        (true, false, true) => Class::SynAck,
        (true, false, false) => Class::Syn,
        (false, true, _) => Class::Fin,
        (false, false, true) => Class::Ack,
        (false, false, false) => Class::Unmarked,
    }
}

#[inline(always)]
fn has_flag(flags: u8, flag: u8) -> bool
    ensures { result ≡ has_flag flags flag }
{
    flags & flag != 0
}
