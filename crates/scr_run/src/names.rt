ghost use Rattle.std.specs.Prelude.{◌≡◌, IfOk};

use scr_base::{OutOfMemory, Verdict};
use scr_program::Program;
use scr_report::Names;
use std::alloc::Global;

/// The names of a program's verdicts, in the order of their numbers.
pub fn names_of<P: Program>(alloc: Global) -> Result<Names, OutOfMemory>
    ensures { IfOk result (λ names. names ≡ P.verdict_names) }
{
    let mut names = Names::none(alloc);
    for code in 0..P::names() {
        if let Some(name) = P::name_of(Verdict(code)) {
            names.add(name)?;
        }
    }
    Ok(names)
}
