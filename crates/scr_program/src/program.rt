ghost use Rattle.std.specs.Prelude.{◌≡◌, ◌<◌, ◌++◌, ◌∷◌, [], ℕ, List, length, slice_get, IfOk, OnOk, OnErr, IsOk, Some};
ghost use Rattle.std.specs.Option.{option_map};
ghost use Rattle.scr_base.specs.declared.row.Row.{Row};
ghost use Rattle.scr_base.specs.declared.row.Verdict.{Verdict};
ghost use Rattle.scr_frame.specs.declared.parsed.Parsed.{Parsed};

use scr_base::{OutOfMemory, Row, Verdict};
use scr_frame::Parsed;
use std::alloc::Global;

/// A packet program: it takes the rows of packets one after another, and gives a verdict on each.
pub trait Program: Sync {
    /// The numbers that a user may choose.
    type Settings: Sync + Drop;

    /// What the program keeps of the rows so far.
    type State: Drop + Send;

    /// The row of a frame with these fields that came at this time.
    ghost row_of: { Self.Settings → Parsed → ℕ → Row };

    /// The state is the one after these rows, the oldest first.
    ghost StandsFor: { Self.Settings → Self.State → List Row → Type 0 };

    /// The verdict of a row that comes after these rows.
    ghost verdict_after: { Self.Settings → List Row → Row → Verdict };

    /// How many entries there are after these rows.
    ghost count_after: { Self.Settings → List Row → ℕ };

    /// A step with this row needs no more memory.
    ghost IsReady: { Self.Settings → Self.State → Row → Type 0 };

    /// The names of the verdicts, as bytes.
    ghost verdict_names: { List (List ℕ) };

    /// The row of a frame that came at this time, in microseconds. Fields that the program doesn't look at are 0.
    fn extract(settings: &Self::Settings, parsed: &Parsed, time: u64) -> Row
        ensures { result ≡ row_of settings.now parsed.now time };

    /// The state before any row.
    fn fresh(alloc: Global, settings: &Self::Settings) -> Result<Self::State, OutOfMemory>
        ensures { IfOk result (λ state. StandsFor settings.now state []) };

    /// Takes the memory that a step with this row may need. It changes nothing that the state stands for.
    fn prepare(
        settings: &Self::Settings,
        state: &mut Self::State,
        row: &Row,
    ) -> Result<(), OutOfMemory>
        ensures stands { (rows : List Row) → StandsFor settings.now state.old rows → StandsFor settings.now state.new rows }
        ensures ready { OnOk result (IsReady settings.now state.new row.now) }
        ensures succeeds { IsReady settings.now state.old row.now → IsOk result };

    /// Takes the row of the next packet, and gives its verdict. At `Err` the state stands for what it did.
    fn step(
        settings: &Self::Settings,
        state: &mut Self::State,
        row: &Row,
    ) -> Result<Verdict, OutOfMemory>
        ensures verdict { (rows : List Row) → StandsFor settings.now state.old rows → IfOk result (λ verdict. verdict ≡ verdict_after settings.now rows row.now) }
        ensures stands { (rows : List Row) → StandsFor settings.now state.old rows → OnOk result (StandsFor settings.now state.new (rows ++ row.now ∷ [])) }
        ensures err { (rows : List Row) → StandsFor settings.now state.old rows → OnErr result (StandsFor settings.now state.new rows) }
        ensures succeeds { IsReady settings.now state.old row.now → IsOk result };

    /// How many entries the state has: the flows that it keeps.
    fn flows(settings: &Self::Settings, state: &Self::State) -> u64
        ensures { (rows : List Row) → StandsFor settings.now state.now rows → result ≡ count_after settings.now rows };

    /// How many verdicts there are.
    fn names() -> u8
        ensures { result ≡ length verdict_names };

    /// The name of a verdict; none exactly where the code is not below [`Program::names`].
    fn name_of(verdict: Verdict) -> Option<&'static str>
        ensures { option_map (λ name. name.now) result ≡ slice_get verdict_names verdict.0 };

    /// Each verdict has a name.
    ghost is_named: { (settings : Self.Settings) (rows : List Row) (row : Row) → (verdict_after settings rows row).0 < length verdict_names };
}
