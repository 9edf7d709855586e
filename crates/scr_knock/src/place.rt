ghost use Rattle.std.specs.Prelude.{◌≡◌};
ghost use Rattle.scr_knock.specs.Places.{next_place};

use crate::settings::KnockSettings;

/// How far a source has come with its knocks.
#[derive(Clone, Copy, Debug, PartialEq, Eq)]
pub enum Place {
    /// It hasn't knocked at the first port, or has missed since.
    Start,
    /// Its last packet went to the first port.
    First,
    /// Its last packet but one went to the first port, and its last one to the second.
    Second,
    /// It has knocked at all three in turn.
    Open,
}

/// The place after a packet to this port.
pub(crate) fn next_place(settings: &KnockSettings, place: Place, port: u16) -> Place
    ensures { result ≡ next_place settings.now place port }
{
    match place {
        Place::Open => Place::Open,
        Place::First if port == settings.second => Place::Second,
        Place::Second if port == settings.third => Place::Open,
        _ if port == settings.first => Place::First,
        _ => Place::Start,
    }
}
