//! A program without a table, which counts the packets of one kind: it meets the trait, and is called through it.
ghost use Rattle.std.specs.Prelude.{◌≡◌, ◌-◌, ◌^◌, ◌==◌, [], ◌∷◌, min, count_by, ⊤, IfOk, codes, if◌then◌else◌};
ghost use Rattle.std.proofs.Common.{rules};
ghost use Rattle.scr_program.specs.Rows.{zero_row, kind_in, kind_number};

use crate::tests::DATAGRAM;
use crate::{Program, ZERO_ROW, fields_of};
use scr_base::{OutOfMemory, Row, Verdict};
use scr_frame::Parsed;
use std::alloc::Global;

struct Tally;

#[derive(Drop)]
struct Wanted {
    kind: u8,
}

#[derive(Drop)]
struct Count {
    rows: u64,
}

impl Program for Tally {
    type Settings = Wanted;

    type State = Count;

    ghost row_of = { λ settings frame time. record zero_row { w4 = kind_number frame.kind } };

    ghost StandsFor = { λ settings state rows. state.rows ≡ min (count_by (λ row. kind_in row == settings.kind) rows) (2 ^ 64 - 1) };

    ghost verdict_after = { λ settings rows row. record { 0 = (if kind_in row == settings.kind then 1 else 0) } };

    ghost count_after = { λ settings rows. min (count_by (λ row. kind_in row == settings.kind) rows) (2 ^ 64 - 1) };

    ghost IsReady = { λ settings state row. ⊤ };

    ghost verdict_names = { codes "OTHER" ∷ codes "COUNTED" ∷ [] };

    ghost is_named = { λ settings rows row. Prim.search rules };

    fn extract(_: &Wanted, parsed: &Parsed, time: u64) -> Row {
        Row {
            w4: u64::from(fields_of(parsed, time).kind),
            ..ZERO_ROW
        }
    }

    fn fresh(_: Global, _: &Wanted) -> Result<Count, OutOfMemory> {
        Ok(Count { rows: 0 })
    }

    fn prepare(_: &Wanted, _: &mut Count, _: &Row) -> Result<(), OutOfMemory> {
        Ok(())
    }

    fn step(wanted: &Wanted, count: &mut Count, row: &Row) -> Result<Verdict, OutOfMemory> {
        if row.w4 % 256 == u64::from(wanted.kind) {
            count.rows = count.rows.saturating_add(1);
            Ok(Verdict(1))
        } else {
            Ok(Verdict(0))
        }
    }

    fn flows(_: &Wanted, count: &Count) -> u64 {
        count.rows
    }

    fn names() -> u8 {
        2
    }

    fn name_of(verdict: Verdict) -> Option<&'static str> {
        match verdict.0 {
            0 => Some("OTHER"),
            1 => Some("COUNTED"),
            _ => None,
        }
    }
}

// How many entries a program has after these rows.
fn entries_of<P: Program>(
    alloc: Global,
    settings: &P::Settings,
    rows: &[Row],
) -> Result<u64, OutOfMemory>
    ensures { IfOk result (λ entries. entries ≡ P.count_after settings.now rows.now) }
{
    let mut state = P::fresh(alloc, settings)?;
    for row in rows {
        P::prepare(settings, &mut state, row)?;
        P::step(settings, &mut state, row)?;
    }
    Ok(P::flows(settings, &state))
}

#[test]
fn a_program_counts(rt: HostRuntime) -> Result<(), OutOfMemory> {
    let wanted = Wanted { kind: 3 };
    let row = Tally::extract(&wanted, &DATAGRAM, 0);
    let rows = [row, ZERO_ROW, row];
    assert_eq!(rt; entries_of::<Tally>(rt.alloc(), &wanted, &rows)?, 2);
    let mut state = Tally::fresh(rt.alloc(), &wanted)?;
    let verdict = Tally::step(&wanted, &mut state, &row)?;
    assert_eq!(rt; Tally::name_of(verdict), Some("COUNTED"));
    assert_eq!(rt; Tally::name_of(Verdict(Tally::names())), None);
    Ok(())
}
