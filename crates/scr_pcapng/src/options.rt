ghost use Rattle.std.specs.Prelude.{◌≡◌, ◌≤◌, ◌+◌, ◌-◌, true, IfOk, IfErr, OnErr};
ghost use Rattle.scr_pcap.specs.Taken.{GivesFewer};
ghost use Rattle.scr_pcapng.specs.Blocks.{is_total};
ghost use Rattle.scr_pcapng.specs.Parts.{IsStop, TakesOption, TakesOptions, TakesUnit, options_size, taken_by};
ghost use Rattle.scr_pcapng.specs.State.{faults_counted};

use crate::error::AnyError;
use crate::head::Head;
use crate::kind::Kind;
use crate::padding::padded;
use crate::passing::{pass_over, take_whole};
use scr_base::Source;
use scr_pcap::Order;

// The code of the option that tells the unit of times, whose value has one byte.
const UNIT: u16 = 9;

// What was found in front of a list of options.
#[derive(Clone, Copy, PartialEq, Eq)]
pub(crate) enum Found {
    // The unit of times.
    Unit(u8),
    // The end of the list.
    Last,
    // Another option, of so many bytes.
    Another(u32),
}

impl Found {
    // How many bytes were taken.
    fn taken(self) -> u32
        ensures { result ≡ taken_by self }
    {
        match self {
            Found::Unit(_) => 8,
            Found::Last => 4,
            Found::Another(taken) => taken,
        }
    }
}

// Takes the option in front of so many bytes of options; of the last one only its code and length.
fn take_option<S: Source>(
    source: &mut S,
    order: Order,
    left: u32,
    block: u32,
) -> Result<Found, AnyError>
    requires { 4 ≤ left }
    ensures taken { IfOk result (λ found. TakesOption (S.left source.old) (S.left source.new) order left (left - taken_by found) found) }
    ensures some { IfOk result (λ found. (4 ≤ taken_by found) × (taken_by found ≤ left)) }
    ensures fewer { OnErr result (GivesFewer left (S.left source.old) (S.left source.new)) }
    ensures stops { IfErr result (IsStop block (S.left source.new)) }
    ensures counts { S.faults source.new ≡ faults_counted result (S.faults source.old) }
{
    let mut head = [0; 4];
    take_whole(source, &mut head, block)?;
    let code = order.u16_at(&head, 0);
    let length = u32::from(order.u16_at(&head, 2));
    let size = padded(length);
    if code == 0 || left - 4 < size {
        return Ok(Found::Last);
    }
    if code == UNIT && length == 1 {
        let mut value = [0; 4];
        take_whole(source, &mut value, block)?;
        return Ok(Found::Unit(value[0]));
    }
    pass_over(source, size, block)?;
    Ok(Found::Another(4 + size))
}

// Takes so many bytes of options, and answers the value that tells the unit of times.
fn take_unit<S: Source>(
    source: &mut S,
    order: Order,
    size: u32,
    block: u32,
) -> Result<Option<u8>, AnyError>
    ensures taken { IfOk result (λ unit. TakesUnit (S.left source.old) (S.left source.new) order size unit) }
    ensures fewer { OnErr result (GivesFewer size (S.left source.old) (S.left source.new)) }
    ensures stops { IfErr result (IsStop block (S.left source.new)) }
    ensures counts { S.faults source.new ≡ faults_counted result (S.faults source.old) }
{
    let mut left = size;
    let mut found = Found::Another(0);
    while left >= 4 && matches!(found, Found::Another(_)) {
        found = take_option(source, order, left, block)?;
        left -= found.taken();
    }
    pass_over(source, left, block)?;
    match found {
        Found::Unit(value) => Ok(Some(value)),
        _ => Ok(None),
    }
}

// Takes the options of an interface, and answers the value that tells the unit of times; of another block nothing.
pub(crate) fn take_options<S: Source>(
    source: &mut S,
    head: &Head,
    block: u32,
) -> Result<Option<u8>, AnyError>
    requires { is_total head.now.kind head.now.total ≡ true }
    ensures taken { IfOk result (λ unit.
        TakesOptions (S.left source.old) (S.left source.new) head.now.kind head.now.order head.now.total unit) }
    ensures fewer { OnErr result (GivesFewer (options_size head.now.kind head.now.total) (S.left source.old) (S.left source.new)) }
    ensures stops { IfErr result (IsStop block (S.left source.new)) }
    ensures counts { S.faults source.new ≡ faults_counted result (S.faults source.old) }
{
    if head.kind != Kind::InterfaceDescription {
        return Ok(None);
    }
    take_unit(source, head.order, head.total - 20, block)
}
