ghost use Rattle.std.specs.Prelude.{nat_lt};
ghost use Rattle.std.proofs.Common.{lit<};
ghost use Rattle.scr_program.proofs.Choices.{chosen-named};
ghost use Rattle.scr_program.specs.Keys.{source_of};
ghost use Rattle.scr_program.specs.Kinds.{is_packet};
ghost use Rattle.scr_program.specs.Verdicts.{PASS, DROP, OTHER, pass_drop_other};
ghost use Rattle.scr_ddos.specs.Rows.{fields_kept};
ghost use Rattle.scr_ddos.specs.Step.{count_with, outcome};

use crate::settings::DdosSettings;
use scr_base::{OutOfMemory, Verdict};
use scr_program::{
    Address, DROP, Fields, FlowTable, Keyed, OTHER, PASS, PASS_DROP_OTHER, is_packet,
};

/// The flood counter.
#[derive(Clone, Copy, Debug, PartialEq, Eq)]
pub struct Ddos;

impl Keyed for Ddos {
    type Settings = DdosSettings;

    type Key = Address;

    /// How many packets of a source have come.
    type Entry = u64;

    ghost is_looked_at = { is_packet };

    ghost fields_kept = { fields_kept };

    ghost key_of = { source_of };

    ghost outcome = { outcome };

    ghost other = { OTHER };

    ghost most = { λ settings. settings.flows };

    ghost names_given = { pass_drop_other };

    ghost outcome_is_named = { λ settings known fields. chosen-named 3 (nat_lt settings.threshold (count_with known)) DROP PASS (lit< tt) (lit< tt) };

    ghost other_is_named = { lit< tt };

    #[inline(always)]
    fn looks_at(kind: u16) -> bool {
        is_packet(kind)
    }

    #[inline(always)]
    fn kept(fields: &Fields) -> Fields {
        Fields {
            source: fields.source,
            destination: Address {
                family: fields.source.family,
                value: 0,
            },
            kind: fields.kind,
            ..Fields::NONE
        }
    }

    #[inline(always)]
    fn key(fields: &Fields) -> Address {
        fields.source
    }

    #[inline(always)]
    fn enter(
        settings: &DdosSettings,
        table: &mut FlowTable<Address, u64>,
        source: &Address,
        fields: &Fields,
    ) -> Result<Verdict, OutOfMemory> {
        let count = table.update(source, |known| {
            let count = known.unwrap_or(0).saturating_add(1);
            (count, count)
        })?;
        Ok(if settings.threshold < count {
            DROP
        } else {
            PASS
        })
    }

    #[inline(always)]
    fn passed_over() -> Verdict {
        OTHER
    }

    fn most_flows(settings: &DdosSettings) -> u32 {
        settings.flows
    }

    fn verdicts() -> &'static [&'static str] {
        &PASS_DROP_OTHER
    }
}
