// The log rule as the rule of a table, and its kinds of step.
use crate::view::{About, PassView};
use atomic_table::{Play, Seat, Split, TableRule};

/// The log rule.
pub struct LogRules;

impl TableRule<(), PassView, About> for LogRules {
    ghost use Rattle.scr_log.specs.LogRule.{Keeps};
    ghost use Rattle.scr_log.specs.Passes.{free_view, all_draws};
    ghost use Rattle.std.specs.Prelude.{[]};

    ghost holds = { λ about. Keeps about.plan.value about.slots };

    ghost first = { λ about. free_view about.plan.value about.slots all_draws [] 0 };
}

/// A pass, as the table knows it.
pub type Place = Seat<(), PassView>;

/// One of the stock goes to a new pass.
pub struct HandsOn;

impl Split<PassView> for HandsOn {
    ghost use Rattle.scr_log.specs.Steps.{handed, new_pass};

    ghost left = { handed };

    ghost right = { new_pass };
}

/// A number is drawn.
pub struct DrawsNumber;

impl Play<(), PassView> for DrawsNumber {
    ghost use Rattle.scr_log.specs.Steps.{Draws};

    ghost then = { Draws };
}

/// A word of the next row is stored.
pub struct StoresData;

impl Play<(), PassView> for StoresData {
    ghost use Rattle.scr_log.specs.Steps.{StoresWord};

    ghost then = { StoresWord };
}

/// A tag is stored, which publishes the next number.
pub struct Publishes;

impl Play<(), PassView> for Publishes {
    ghost use Rattle.scr_log.specs.Steps.{StoresTag};

    ghost then = { StoresTag };
}

/// The finished word is stored.
pub struct Finishes;

impl Play<(), PassView> for Finishes {
    ghost use Rattle.scr_log.specs.Steps.{StoresFinished};

    ghost then = { StoresFinished };
}

/// A tag of another core is loaded.
pub struct ReadsTag;

impl Play<(), PassView> for ReadsTag {
    ghost use Rattle.scr_log.specs.Steps.{LoadsTag};

    ghost then = { LoadsTag };
}

/// A word of a row that was found is loaded.
pub struct ReadsData;

impl Play<(), PassView> for ReadsData {
    ghost use Rattle.scr_log.specs.Steps.{LoadsWord};

    ghost then = { LoadsWord };
}

/// The last word of a row that was found is loaded.
pub struct ReadsLastData;

impl Play<(), PassView> for ReadsLastData {
    ghost use Rattle.scr_log.specs.Steps.{LoadsLastWord};

    ghost then = { LoadsLastWord };
}

/// A finished word is loaded.
pub struct ReadsFinished;

impl Play<(), PassView> for ReadsFinished {
    ghost use Rattle.scr_log.specs.Steps.{LoadsFinished};

    ghost then = { LoadsFinished };
}

/// The halt word is set.
pub struct Halts;

impl Play<(), PassView> for Halts {
    ghost use Rattle.scr_log.specs.Steps.{SetsHalt};

    ghost then = { SetsHalt };
}

/// The halt word is loaded.
pub struct ReadsHalt;

impl Play<(), PassView> for ReadsHalt {
    ghost use Rattle.scr_log.specs.Steps.{LoadsHalt};

    ghost then = { LoadsHalt };
}
