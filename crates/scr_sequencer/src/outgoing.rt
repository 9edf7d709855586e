use scr_wire::Packet;
use std::marker::Model;

/// A frame on its way to its core.
#[derive(Debug, Drop)]
pub struct Arriving {
    /// The core whose lane it goes to.
    pub core: u32,
    /// Its message.
    pub packet: Packet,
    /// The same once more, where it comes twice. It goes behind the other.
    pub copy: Option<Packet>,
}

impl Model for Arriving {
    ghost use Rattle.scr_sequencer.specs.Sequence.{Arriving};

    ghost Value = { Arriving };

    ghost view = { λ it. record { core = it.core; packet = it.packet; copy = it.copy } };
}

/// What one more step adds to the lanes.
#[derive(Debug, Drop)]
pub struct Outgoing {
    /// The number of a beacon, where there is one. It goes to every lane, before all else.
    pub beacon: Option<u32>,
    /// The frame of this step, where it comes in its turn.
    pub own: Option<Arriving>,
    /// The earlier frames that come at this step, behind it.
    pub late: Vec<Arriving>,
}

impl Model for Outgoing {
    ghost use Rattle.std.specs.Prelude.{◌++◌};
    ghost use Rattle.std.specs.Option.{option_to_list};
    ghost use Rattle.scr_sequencer.specs.Answers.{Answer};

    ghost Value = { Answer };

    ghost view = { λ out. record { beacon = out.beacon; sent = option_to_list out.own ++ out.late.items } };
}
