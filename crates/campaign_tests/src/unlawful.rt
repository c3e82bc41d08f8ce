//! Commands over targets of one's own that break a law. Each is refused with the law that it breaks, before anything is written. No target that is
//! proved breaks one, so no contract says so.

use crate::streams::whole_run;
use action_eval::Answer;
use campaign_main::{Exit, FreeGate, Host, Order, Out, perform_target};
use std::alloc::{AllocError, Global};
use std::process::Abort;
use std::sync::Wait;
use std::thread::Threads;
use target_trait::{Judgement, Session, Target};

/// What a counter does wrong.
#[derive(Clone, Copy, Debug, PartialEq, Eq)]
enum Flaw {
    Nothing,
    /// It goes on asking after a halt.
    AsksOn,
    /// It asks once more in each later run.
    Remembers,
}

/// A component that takes two steps, and keeps its promise whatever fails.
// Ghost items are left as holes: a proof would refuse two of the three.
#[derive(Drop)]
struct Counter {
    flaw: Flaw,
    runs: u32,
}

impl Target for Counter {
    type Workload = ();

    ghost names = { ? };

    ghost label_of = { ? };

    ghost code_text = { ? };

    ghost asks = { ? };

    fn label(&self) -> &'static str {
        "counter"
    }

    fn catalogue() -> &'static [&'static str] {
        &["counter::step"]
    }

    fn code_name(_code: u32) -> &'static str {
        "lost"
    }

    fn twin(&self) -> Result<Self, AllocError> {
        Ok(Counter {
            flaw: self.flaw,
            runs: 0,
        })
    }

    fn run(&mut self, _workload: &(), session: &mut Session<'_>) -> Result<Judgement, AllocError> {
        let more = if self.flaw == Flaw::Remembers {
            self.runs
        } else {
            0
        };
        self.runs += 1;
        for _ in 0..2 + more {
            if let Answer::Halt = session.hit(0)? {
                if self.flaw != Flaw::AsksOn {
                    return Ok(Judgement::Kept);
                }
            }
        }
        Ok(Judgement::Kept)
    }

    ghost within = { ? };

    ghost halts = { ? };

    ghost lawful = { ? };
}

/// A command over such a component ends with this line for a fault. It writes nothing exactly if there is one.
fn ends<H: Abort + Threads + Wait + Sync>(
    rt: &H,
    alloc: Global,
    flaw: Flaw,
    order: &Order,
    line: &[u8],
) {
    let exit = if line.is_empty() {
        Exit::Kept
    } else {
        Exit::Refused
    };
    let mut target = Counter { flaw, runs: 0 };
    let mut output = Out::new(Vec::new(alloc));
    let mut faults = Out::new(Vec::new(alloc));
    let mut reader = b"seed = 7\n".as_slice();
    let host = Host {
        rt,
        alloc,
        gate: &FreeGate,
    };
    let did = perform_target(
        &host,
        order,
        &mut target,
        &(),
        &mut reader,
        &mut output,
        &mut faults,
    );
    assert_eq!(rt; did, exit);
    assert_eq!(rt; output.into_writer().is_empty(), exit == Exit::Refused);
    assert_eq!(rt; faults.into_writer().as_slice(), line);
}

#[test]
fn a_target_that_breaks_a_law_is_refused(rt: HostRuntime) {
    let alloc = rt.alloc();
    for order in [whole_run(), Order::Plans] {
        ends(&rt, alloc, Flaw::Nothing, &order, b"");
        ends(
            &rt,
            alloc,
            Flaw::AsksOn,
            &order,
            b"target: asks after a halt\n",
        );
        ends(
            &rt,
            alloc,
            Flaw::Remembers,
            &order,
            b"target: keeps state between runs\n",
        );
    }
}
