//! What comes by the verdict lane of a core.
ghost use Rattle.std.specs.Prelude.{◌≡◌, ◌∷◌, None, IfSome, IfNone};
ghost use Rattle.scr_crew.specs.Takings.{still_to_come, FrontTells};

use crate::verdict_lane::VerdictReceive;
use scr_plan::Given;
use scr_program::Program;
use std::marker::Model;
use std::sync::Wait;

/// What the lane of a core has for the frame whose turn it is.
#[derive(Clone, Copy, Debug, PartialEq, Eq)]
pub enum Front {
    /// Its verdict, which is taken.
    Its(Given),
    /// The verdict of a later frame.
    Later,
    /// Nothing has arrived.
    Empty,
}

/// The receiving end of a verdict lane, and the verdict that came before its turn.
#[derive(Drop)]
pub struct Arrivals<P: Program> {
    end: VerdictReceive<P>,
    held: Option<Given>,
}

impl<P: Program> Model for Arrivals<P> {
    ghost use Rattle.std.specs.Prelude.{List};
    ghost use Rattle.scr_plan.specs.declared.given.Given.{Given};
    ghost use Rattle.scr_crew.specs.Takings.{still_to_come};

    ghost Value = { List Given };

    ghost view = { λ it. still_to_come it.end it.held };
}

// The next verdict of a lane: the one that is held, or else the one that the end has.
#[inline]
fn first<P: Program, R: Wait>(
    rt: &R,
    end: &mut VerdictReceive<P>,
    held: Option<Given>,
) -> Option<Given>
    ensures some { IfSome result (λ given. still_to_come end.old held ≡ given ∷ still_to_come end.new None) }
    ensures none { IfNone result (still_to_come end.new None ≡ still_to_come end.old held) }
{
    if held.is_some() {
        return held;
    }
    end.pop(rt)
}

impl<P: Program> Arrivals<P> {
    /// What comes by this end.
    pub fn by(end: VerdictReceive<P>) -> Self
        ensures { result ≡ still_to_come end None }
    {
        Arrivals { end, held: None }
    }

    /// Takes the verdict of frame n, where it is the one that comes next.
    #[inline]
    pub fn take_at<R: Wait>(&mut self, rt: &R, n: u32) -> Front
        ensures { FrontTells n self.old self.new result }
    {
        let held = self.held.take();
        let Some(given) = first(rt, &mut self.end, held) else {
            return Front::Empty;
        };
        if given.number == n {
            return Front::Its(given);
        }
        self.held = Some(given);
        Front::Later
    }
}
