ghost use Rattle.std.specs.Prelude.{◌≡◌, ◌≢◌, ◌≤◌, IfOk, IfErr};
ghost use Rattle.scr_plan.specs.Limits.{most_cores, longest_history};
ghost use Rattle.scr_stream.specs.Tests.{shape_of};

use crate::error::StreamError;
use crate::format::{MARK, STREAM_HEADER, VERSION};

/// How many cores a run has, and how many packets before its own a frame carries.
#[derive(Clone, Copy, Debug, PartialEq, Eq)]
pub struct Shape {
    /// The cores, from 1 to 16.
    pub cores: u8,
    /// The history, up to 64.
    pub history: u8,
}

// The shape in front of a stream of this program, or the first test that fails.
#[tactic(auto, unfolding(crate::specs::Tests::shape_of))]
pub(crate) fn shape_of(program: u8, bytes: &[u8]) -> Result<Shape, StreamError>
    ensures answer { result ≡ shape_of program bytes.now }
    ensures no_fault { IfErr result (λ error. error ≢ StreamError.ReadFault) }
    ensures ranges { IfOk result (λ shape. (1 ≤ shape.cores) × (shape.cores ≤ most_cores) × (shape.history ≤ longest_history)) }
{
    if bytes.len() < STREAM_HEADER {
        return Err(StreamError::ShortHeader);
    }
    if bytes[0] != MARK[0] || bytes[1] != MARK[1] || bytes[2] != MARK[2] || bytes[3] != MARK[3] {
        return Err(StreamError::Mark);
    }
    if bytes[4] != VERSION {
        return Err(StreamError::Version);
    }
    if bytes[5] != program {
        return Err(StreamError::Program);
    }
    let (cores, history) = (bytes[6], bytes[7]);
    if cores < 1 || cores > 16 || history > 64 {
        return Err(StreamError::Shape);
    }
    Ok(Shape { cores, history })
}
