ghost use Rattle.std.specs.Prelude.{◌==◌, nat_lt, Some, None};
ghost use Rattle.std.proofs.Common.{lit<};
ghost use Rattle.scr_program.proofs.Choices.{chosen-named, outcome-named};
ghost use Rattle.scr_program.specs.Keys.{source_of};
ghost use Rattle.scr_program.specs.Kinds.{has_ports};
ghost use Rattle.scr_program.specs.Verdicts.{PASS, DROP, OTHER, pass_drop_other};
ghost use Rattle.scr_embed.specs.Guard.{count_with, fields_kept, outcome};

use crate::settings::PortSettings;
use scr_base::{OutOfMemory, Verdict};
use scr_program::{
    Address, DROP, Fields, FlowTable, Keyed, OTHER, PASS, PASS_DROP_OTHER, has_ports,
};

/// Counts the packets of each source to one port, and drops those past a number. Packets to other ports pass, and change
/// nothing.
#[derive(Clone, Copy, Debug, PartialEq, Eq)]
pub struct PortGuard;

impl Keyed for PortGuard {
    type Settings = PortSettings;

    type Key = Address;

    /// How many packets of a source to the port have come.
    type Entry = u64;

    ghost is_looked_at = { has_ports };

    ghost fields_kept = { fields_kept };

    ghost key_of = { source_of };

    ghost outcome = { outcome };

    ghost other = { OTHER };

    ghost most = { λ settings. settings.flows };

    ghost names_given = { pass_drop_other };

    ghost outcome_is_named = { λ settings known fields. outcome-named 3 (fields.destination_port == settings.port) (Some (count_with known), _) (None, PASS) (chosen-named 3 (nat_lt settings.most (count_with known)) DROP PASS (lit< tt) (lit< tt)) (lit< tt) };

    ghost other_is_named = { lit< tt };

    #[inline(always)]
    fn looks_at(kind: u16) -> bool {
        has_ports(kind)
    }

    #[inline(always)]
    fn kept(fields: &Fields) -> Fields {
        Fields {
            source: fields.source,
            destination: Address {
                family: fields.source.family,
                value: 0,
            },
            destination_port: fields.destination_port,
            kind: fields.kind,
            ..Fields::NONE
        }
    }

    #[inline(always)]
    fn key(fields: &Fields) -> Address {
        fields.source
    }

    #[inline(always)]
    fn enter(
        settings: &PortSettings,
        table: &mut FlowTable<Address, u64>,
        source: &Address,
        fields: &Fields,
    ) -> Result<Verdict, OutOfMemory> {
        if fields.destination_port != settings.port {
            return Ok(PASS);
        }
        let count = table.update(source, |known| {
            let count = known.unwrap_or(0).saturating_add(1);
            (count, count)
        })?;
        Ok(if settings.most < count { DROP } else { PASS })
    }

    #[inline(always)]
    fn passed_over() -> Verdict {
        OTHER
    }

    fn most_flows(settings: &PortSettings) -> u32 {
        settings.flows
    }

    fn verdicts() -> &'static [&'static str] {
        &PASS_DROP_OTHER
    }
}
