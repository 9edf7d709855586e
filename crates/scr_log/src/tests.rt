ghost use Rattle.std.specs.Prelude.{◌≡◌, ◌≢◌, ◌≤◌, ◌<◌, ◌+◌, true, length, IfOk};
ghost use Rattle.scr_log.specs.declared.room.Room.TheVariants.{Free};
ghost use Rattle.scr_log.specs.Layout.{most_slots};
ghost use Rattle.scr_log.specs.Passes.{IsNext, IsCurrent};

use crate::{CorePass, Logs, Look, Room};
use scr_base::{OutOfMemory, Row};
use scr_plan::{DropError, Drops, Link, RunPlan};
use std::alloc::Global;
use std::sync::Wait;
use std::test::Fail;
use std::thread;
use std::thread::Threads;

mod layout;

// The row of a counter of packets from 10.0.0.1.
const ROW: Row = Row {
    w0: 0,
    w1: 0x0A00_0001,
    w2: 0,
    w3: 0,
    w4: 3,
    w5: 0,
    w6: 0,
};

// A plan for two cores, with so many packets, such a history, and these frames dropped.
fn two_cores(alloc: Global, packets: usize, history: u32, dropped: &[u8]) -> Result<RunPlan, Fail>
    requires few { packets ≤ 1000000 }
    requires short { history ≤ 64 }
    ensures packets { IfOk result (λ plan. length plan.rows ≡ packets) }
    ensures cores { IfOk result (λ plan. plan.cores ≡ 2) }
{
    let rows = vec![in alloc; ROW; packets]?;
    let drops = Drops::read(alloc, dropped)?;
    Ok(RunPlan::make(rows, 2, history, Link::dropping(alloc, drops)))
}

// Publishes the final entry for packet p, where the slot is free.
fn publish(logs: &Logs, plan: &RunPlan, pass: &mut CorePass, p: u32) -> Room
    requires plan { logs.now.plan ≡ plan.now }
    requires next { IsNext logs.now pass.old p }
    ensures published { result ≡ Free → pass.new.published ≡ p }
    ensures waits { result ≢ Free → pass.new.published ≡ pass.old.published }
    ensures finished { pass.new.finished ≡ pass.old.finished }
    ensures same { pass.new.logs ≡ pass.old.logs }
    ensures core { pass.new.core ≡ pass.old.core }
{
    let entry = plan.final_entry(pass.core(), p);
    logs.publish(pass, p, entry.as_ref())
}

#[test]
fn two_cores_by_one_thread(rt: HostRuntime) -> Result<(), Fail> {
    let plan = two_cores(rt.alloc(), 4, 1, b"2")?;
    let (logs, mut main) = Logs::make(rt.alloc(), &plan, 4)?;
    assert_eq!(rt; (logs.cores(), logs.history()), (2, 1));
    let first = main.split(&logs);
    let second = main.split(&logs);
    let Ok(mut zero) = logs.claim(first) else {
        panic!(rt; "no core 0")
    };
    let Ok(mut one) = logs.claim(second) else {
        panic!(rt; "no core 1")
    };
    let Err(late) = logs.claim(main) else {
        panic!(rt; "a core 2")
    };
    assert_eq!(rt; (zero.core(), one.core(), late.number), (0, 1, 2));
    let Err(late) = logs.claim(late.pass) else {
        panic!(rt; "a core 3")
    };
    assert_eq!(rt; late.number, 3);
    let mut main = late.pass;

    assert_eq!(rt; publish(&logs, &plan, &mut one, 1), Room::Free);
    assert_eq!(rt; logs.look(&mut one, 0, 1), Look::NotYet { tag: 0 });
    assert_eq!(rt; publish(&logs, &plan, &mut zero, 1), Room::Free);
    assert_eq!(rt; logs.look(&mut one, 0, 1), Look::Row(ROW));
    assert_eq!(rt; logs.look(&mut zero, 1, 1), Look::Lost);
    assert_eq!(rt; (zero.published(), one.published()), (1, 1));

    logs.finish(&mut zero, 1);
    assert!(rt; !logs.halted(&mut zero) && !logs.halted_by_main(&mut main));
    logs.halt(&mut one);
    assert!(rt; logs.halted(&mut zero) && logs.halted_by_main(&mut main));
    logs.halt_by_main(&mut main);
    assert!(rt; logs.halted(&mut one));
    Ok(())
}

#[test]
fn no_room_and_then_free(rt: HostRuntime) -> Result<(), Fail> {
    let plan = two_cores(rt.alloc(), 2, 0, b"")?;
    let (logs, mut main) = Logs::make(rt.alloc(), &plan, 1)?;
    let first = main.split(&logs);
    let (Ok(mut zero), Ok(mut one)) = (logs.claim(first), logs.claim(main)) else {
        panic!(rt; "no two cores")
    };
    assert_eq!(rt; publish(&logs, &plan, &mut zero, 1), Room::Free);
    logs.finish(&mut zero, 1);
    let behind = Room::NoRoom { core: 1, done: 0 };
    assert_eq!(rt; publish(&logs, &plan, &mut zero, 2), behind);
    assert_eq!(rt; publish(&logs, &plan, &mut one, 1), Room::Free);
    assert_eq!(rt; publish(&logs, &plan, &mut zero, 2), behind);
    logs.finish(&mut one, 1);
    assert_eq!(rt; publish(&logs, &plan, &mut zero, 2), Room::Free);
    Ok(())
}

// Pauses, and tells whether the run goes on.
fn goes_on(logs: &Logs, pass: &mut CorePass) -> bool
    requires { pass.old.logs ≡ logs.now }
    ensures { pass.new ≡ record pass.old { looks = pass.new.looks } }
{
    thread::yield_now();
    !logs.halted(pass)
}

// Publishes the final entry for packet p, when the slot is free, unless the run is over before.
fn publish_when_free<R: Wait>(
    rt: &R,
    logs: &Logs,
    plan: &RunPlan,
    pass: &mut CorePass,
    p: u32,
) -> bool
    requires plan { logs.now.plan ≡ plan.now }
    requires next { IsNext logs.now pass.old p }
    ensures published { result ≡ true → IsCurrent logs.now pass.new p }
    ensures core { pass.new.core ≡ pass.old.core }
{
    for _ in rt.forever() {
        if publish(logs, plan, pass, p) == Room::Free {
            return true;
        }
        if !goes_on(logs, pass) {
            return false;
        }
    }
    unreachable!()
}

// The row of packet p in the log of another core, or none where it is lost there, or the run is over.
fn entry_of<R: Wait>(rt: &R, logs: &Logs, pass: &mut CorePass, core: u32, p: u32) -> Option<Row>
    requires core { core < logs.now.plan.cores }
    requires other { core ≢ pass.old.core }
    requires current { IsCurrent logs.now pass.old p }
    ensures current { IsCurrent logs.now pass.new p }
    ensures core { pass.new.core ≡ pass.old.core }
{
    for _ in rt.forever() {
        match logs.look(pass, core, p) {
            Look::Row(row) => return Some(row),
            Look::Lost => return None,
            Look::NotYet { .. } => {
                if !goes_on(logs, pass) {
                    return None;
                }
            }
        }
    }
    unreachable!()
}

// A core of two publishes all packets, and notes what the other core has for each.
fn go_through<R: Wait>(
    rt: &R,
    logs: &Logs,
    plan: &RunPlan,
    pass: &mut CorePass,
    entries: &mut [Option<Row>],
)
    requires of_these { pass.old.logs ≡ logs.now }
    requires plan { logs.now.plan ≡ plan.now }
    requires cores { plan.now.cores ≡ 2 }
    requires fresh { pass.old.published ≡ 0 }
    requires idle { pass.old.finished ≡ 0 }
    requires all { length entries.old ≡ length plan.now.rows }
    requires few { length plan.now.rows ≤ 1000000 }
{
    let other = 1 - pass.core();
    let mut p = 0;
    for entry in entries.iter_mut() {
        p += 1;
        if !publish_when_free(rt, logs, plan, pass, p) {
            return;
        }
        *entry = entry_of(rt, logs, pass, other, p);
        logs.finish(pass, p);
    }
}

// What a core of two notes. Without memory for it the run is over.
fn noted<R: Wait>(
    rt: &R,
    alloc: Global,
    logs: &Logs,
    plan: &RunPlan,
    mut pass: CorePass,
) -> Option<Vec<Option<Row>>>
    requires of_these { pass.logs ≡ logs.now }
    requires plan { logs.now.plan ≡ plan.now }
    requires cores { plan.now.cores ≡ 2 }
    requires fresh { pass.published ≡ 0 }
    requires idle { pass.finished ≡ 0 }
    requires few { length plan.now.rows ≤ 1000000 }
{
    let Ok(mut entries) = vec![in alloc; None; plan.rows().len()] else {
        logs.halt(&mut pass);
        return None;
    };
    go_through(rt, logs, plan, &mut pass, &mut entries);
    Some(entries)
}

// Two cores in threads go through all packets of a plan. Each notes what the other has. Where no thread can be started,
// there is no answer.
fn by_two_threads<R: Threads + Wait + Sync>(
    rt: &R,
    alloc: Global,
    logs: &Logs,
    plan: &RunPlan,
    zero: CorePass,
    one: CorePass,
) -> Option<(Vec<Option<Row>>, Vec<Option<Row>>)>
    requires of_these { (zero.logs ≡ logs.now) × (one.logs ≡ logs.now) }
    requires plan { logs.now.plan ≡ plan.now }
    requires cores { plan.now.cores ≡ 2 }
    requires fresh { (zero.published ≡ 0) × (one.published ≡ 0) }
    requires idle { (zero.finished ≡ 0) × (one.finished ≡ 0) }
    requires few { length plan.now.rows ≤ 1000000 }
{
    thread::scope(
        thread::scope_env(),
        rt,
        |scope|
            requires of_these { (zero.logs ≡ logs.now) × (one.logs ≡ logs.now) }
            requires plan { logs.now.plan ≡ plan.now }
            requires cores { plan.now.cores ≡ 2 }
            requires fresh { (zero.published ≡ 0) × (one.published ≡ 0) }
            requires idle { (zero.finished ≡ 0) × (one.finished ≡ 0) }
            requires few { length plan.now.rows ≤ 1000000 }
        {
            let Ok(other) = scope.spawn(
                move ||
                    requires of_these { one.logs ≡ logs.now }
                    requires plan { logs.now.plan ≡ plan.now }
                    requires cores { plan.now.cores ≡ 2 }
                    requires fresh { one.published ≡ 0 }
                    requires idle { one.finished ≡ 0 }
                    requires few { length plan.now.rows ≤ 1000000 }
                { noted(rt, alloc, logs, plan, one) },
            ) else {
                return None;
            };
            let of_one = noted(rt, alloc, logs, plan, zero);
            Some((of_one?, other.join(rt)?))
        },
    )
}

// The same over new logs with so many slots.
fn by_two_cores<R: Threads + Wait + Sync>(
    rt: &R,
    alloc: Global,
    plan: &RunPlan,
    slots: u32,
) -> Result<Option<(Vec<Option<Row>>, Vec<Option<Row>>)>, OutOfMemory>
    requires cores { plan.now.cores ≡ 2 }
    requires some_slots { 1 ≤ slots }
    requires few_slots { slots ≤ most_slots }
    requires few { length plan.now.rows ≤ 1000000 }
{
    let (logs, mut main) = Logs::make(alloc, plan, slots)?;
    let first = main.split(&logs);
    let (Ok(zero), Ok(one)) = (logs.claim(first), logs.claim(main)) else {
        return Ok(None);
    };
    Ok(by_two_threads(rt, alloc, &logs, plan, zero, one))
}

#[test]
fn two_cores_have_their_final_entries(rt: HostRuntime) -> Result<(), Fail> {
    let row = Some(ROW);
    let cases: [(u32, [Option<Row>; 4], [Option<Row>; 4]); 2] = [
        (0, [row, None, row, None], [None, None, None, row]),
        (1, [row, row, row, None], [None, None, row, row]),
    ];
    for (history, zero, one) in cases {
        let plan = two_cores(rt.alloc(), 4, history, b"2")?;
        let Some((of_one, of_zero)) = by_two_cores(&rt, rt.alloc(), &plan, 4)? else {
            panic!(rt; "no threads")
        };
        assert_eq!(rt;
            of_zero.as_slice(),
            zero.as_slice(),
            "core 0 at history {history}"
        );
        assert_eq!(rt;
            of_one.as_slice(),
            one.as_slice(),
            "core 1 at history {history}"
        );
    }
    Ok(())
}

#[test]
fn two_cores_use_one_slot_a_hundred_times(rt: HostRuntime) -> Result<(), Fail> {
    let plan = two_cores(rt.alloc(), 100, 0, b"3-100/3")?;
    let Some((of_one, of_zero)) = by_two_cores(&rt, rt.alloc(), &plan, 1)? else {
        panic!(rt; "no threads")
    };
    for (i, (zero, one)) in of_zero.iter().zip(of_one.iter()).enumerate() {
        let delivered = (i + 1) % 3 != 0;
        assert_eq!(rt; zero.is_some(), delivered && i % 2 == 0, "core 0 at {i}");
        assert_eq!(rt; one.is_some(), delivered && i % 2 == 1, "core 1 at {i}");
    }
    Ok(())
}
