ghost use Rattle.std.specs.Prelude.{◌≡◌, ◌≤◌, ◌++◌, ◌∷◌, [], List, length, IfOk, OnOk, OnErr};
ghost use Rattle.scr_base.specs.declared.row.Row.{Row};
ghost use Rattle.scr_frame.specs.Fields.{fields};

use scr_base::{OutOfMemory, Verdict};
use scr_frame::{LONGEST_FRAME, parse};
use scr_program::Program;

/// The verdict of a program on one frame, which came at this time in microseconds. The state is that of
/// [`Program::fresh`] before the first frame.
///
/// # Errors
/// There was no memory. The state stands for what it did, and the frame may be given again.
pub fn take_frame<P: Program>(
    settings: &P::Settings,
    state: &mut P::State,
    frame: &[u8],
    time: u64,
) -> Result<Verdict, OutOfMemory>
    requires { length frame.now ≤ LONGEST_FRAME }
    ensures verdict { (rows : List Row) → P.StandsFor settings.now state.old rows
        → IfOk result (λ verdict. verdict ≡ P.verdict_after settings.now rows (P.row_of settings.now (fields frame.now) time)) }
    ensures stands { (rows : List Row) → P.StandsFor settings.now state.old rows
        → OnOk result (P.StandsFor settings.now state.new (rows ++ P.row_of settings.now (fields frame.now) time ∷ [])) }
    ensures err { (rows : List Row) → P.StandsFor settings.now state.old rows → OnErr result (P.StandsFor settings.now state.new rows) }
{
    let row = P::extract(settings, &parse(frame), time);
    P::step(settings, state, &row)
}
