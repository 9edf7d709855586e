ghost use Rattle.std.specs.Prelude.{nat_le};
ghost use Rattle.std.proofs.Common.{lit<};
ghost use Rattle.scr_program.proofs.Choices.{chosen-named};
ghost use Rattle.scr_program.specs.Keys.{five_tuple_of};
ghost use Rattle.scr_program.specs.Kinds.{is_packet};
ghost use Rattle.scr_program.specs.Verdicts.{PASS, OTHER};
ghost use Rattle.scr_heavy.specs.Rows.{fields_kept};
ghost use Rattle.scr_heavy.specs.Step.{bytes_with, outcome};
ghost use Rattle.scr_heavy.specs.Verdicts.{HEAVY, names};

use crate::settings::HeavySettings;
use scr_base::{OutOfMemory, Verdict};
use scr_program::{Fields, FiveTuple, FlowTable, Keyed, OTHER, PASS, is_packet};

/// The count of heavy flows.
#[derive(Clone, Copy, Debug, PartialEq, Eq)]
pub struct Heavy;

const HEAVY: Verdict = Verdict(1);

const NAMES: [&str; 3] = ["PASS", "HEAVY", "OTHER"];

impl Keyed for Heavy {
    type Settings = HeavySettings;

    type Key = FiveTuple;

    /// How many bytes a flow has had.
    type Entry = u64;

    ghost is_looked_at = { is_packet };

    ghost fields_kept = { fields_kept };

    ghost key_of = { five_tuple_of };

    ghost outcome = { outcome };

    ghost other = { OTHER };

    ghost most = { λ settings. settings.flows };

    ghost names_given = { names };

    ghost outcome_is_named = { λ settings known fields. chosen-named 3 (nat_le settings.bytes (bytes_with known fields.length)) HEAVY PASS (lit< tt) (lit< tt) };

    ghost other_is_named = { lit< tt };

    #[inline(always)]
    fn looks_at(kind: u16) -> bool {
        is_packet(kind)
    }

    #[inline(always)]
    fn kept(fields: &Fields) -> Fields {
        Fields {
            flags: 0,
            time: 0,
            ..*fields
        }
    }

    #[inline(always)]
    fn key(fields: &Fields) -> FiveTuple {
        FiveTuple::of(fields)
    }

    #[inline(always)]
    fn enter(
        settings: &HeavySettings,
        table: &mut FlowTable<FiveTuple, u64>,
        flow: &FiveTuple,
        fields: &Fields,
    ) -> Result<Verdict, OutOfMemory> {
        let length = fields.length;
        let bytes = table.update(flow, |known| {
            let bytes = known.unwrap_or(0).saturating_add(length);
            (bytes, bytes)
        })?;
        Ok(if settings.bytes <= bytes { HEAVY } else { PASS })
    }

    #[inline(always)]
    fn passed_over() -> Verdict {
        OTHER
    }

    fn most_flows(settings: &HeavySettings) -> u32 {
        settings.flows
    }

    fn verdicts() -> &'static [&'static str] {
        &NAMES
    }
}
