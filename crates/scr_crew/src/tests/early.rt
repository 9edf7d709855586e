//! Lines leave while the cores are still at work.
ghost use Rattle.std.specs.Prelude.{Some};

use super::{Case, FOUR, plan_of, settings};
use crate::run_streamed;
use scr_base::{Sink, SinkError, SureSink};
use scr_ddos::Ddos;
use scr_log::CorePass;
use scr_replica::Gate;
use std::sync::Wait;
use std::sync::atomic::{AtomicBool, Ordering};
use std::test::Fail;
use std::thread;

// How often a core looks for the first line before it gives up.
const TURNS: u32 = 10_000_000;

// A sink that sets a flag when it is written to.
#[derive(Drop)]
struct Telling<'a> {
    inner: SureSink,
    told: &'a AtomicBool,
}

impl Sink for Telling<'_> {
    ghost written = { λ it. Some it.inner.written };

    ghost faults = { λ it. 0 };

    ghost wants = { λ it. it.inner.wants };

    fn write(&mut self, piece: &[u8]) -> Result<usize, SinkError> {
        self.told.store(true, Ordering::SeqCst);
        self.inner.write(piece)
    }
}

// A gate that no core leaves before the flag is set.
#[derive(Drop)]
struct Held<'a> {
    told: &'a AtomicBool,
    missed: AtomicBool,
}

impl Gate for Held<'_> {
    fn enter<R: Wait>(&self, _rt: &R, _pass: &CorePass) {}

    fn leave<R: Wait>(&self, _rt: &R, _pass: &CorePass) {
        for _ in 0..TURNS {
            if self.told.load(Ordering::SeqCst) {
                return;
            }
            thread::yield_now();
        }
        self.missed.store(true, Ordering::SeqCst);
    }
}

#[test]
fn lines_leave_before_a_core_does(rt: HostRuntime) -> Result<(), Fail> {
    let alloc = rt.alloc();
    // As many lines as fill a batch.
    let case = Case {
        frames: 7_000,
        ..FOUR
    };
    let plan = plan_of(alloc, &case)?;
    let told = AtomicBool::new(false);
    let gate = Held {
        told: &told,
        missed: AtomicBool::new(false),
    };
    let mut out = Telling {
        inner: SureSink::new(alloc, usize::MAX),
        told: &told,
    };
    let streamed = run_streamed::<Ddos, Held<'_>, Telling<'_>, HostRuntime>(
        &rt,
        alloc,
        &settings(),
        &plan,
        1_024,
        &gate,
        &mut out,
    );
    assert!(rt; streamed.is_ok());
    assert!(rt; !gate.missed.load(Ordering::SeqCst));
    Ok(())
}
