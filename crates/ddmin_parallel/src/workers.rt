//! The reduction by several workers, each in a thread of its own, over one board under a lock.
ghost use Rattle.std.specs.Prelude.{◌≡◌, ℕ, ◌<◌, ◌≤◌, List, [], ◌∷◌, ◌++◌, All, IfOk, OnOk, vec_len, length, Bool, map};
ghost use Rattle.ddmin_parallel.specs.Ddmin.{ddmin};
ghost use Rattle.ddmin_parallel.specs.Logs.{AreAnswers, AllAnswers};
ghost use Rattle.ddmin_parallel.specs.inside.Told.{AreBack};
ghost use denote.Param.Send.{IsSync, IsSend};

use crate::board::Board;
use crate::by_core::{finish, reduce_by_core};
use crate::fault_set::FaultSet;
use crate::merge::is_backed_by;
use crate::probe::Probe;
use crate::reducer_core::{RequestFault, TestRequest};
use crate::reduction::Reduction;
use std::alloc::{AllocError, Global};
use std::sync::{Condvar, Mutex, Wait};
use std::thread;
use std::thread::Threads;
use work_gate::{Gate, Phase};

/// What one worker answered: sets of faults, and whether each fails.
type Answered = Vec<(FaultSet, bool)>;

/// The board, how often it moved, and how many requests were handed out.
#[derive(Drop)]
struct CountedBoard {
    board: Board,
    moves: u64,
    requests: u32,
}

/// What the workers share: the gate, the board under a lock, and the condition by which a waiting worker is woken.
#[derive(Drop)]
struct Shared<'a, G> {
    gate: &'a G,
    counted: Mutex<CountedBoard>,
    moved: Condvar,
}

impl CountedBoard {
    /// The next request, if there is one now, with its number.
    fn take(&mut self, alloc: Global) -> Result<Option<(TestRequest, u32)>, AllocError> {
        let Some(request) = self.board.take(alloc, true)? else {
            return Ok(None);
        };
        let number = self.requests;
        self.requests = self.requests.saturating_add(1);
        Ok(Some((request, number)))
    }

    /// Puts an answer. If memory for it was refused, the request goes back, and this returns false.
    fn put(&mut self, alloc: Global, request: TestRequest, fails: bool) -> bool {
        self.moves = self.moves.wrapping_add(1);
        match self.board.put(alloc, request, fails) {
            Ok(()) => true,
            Err(RequestFault::Memory(request) | RequestFault::Stranger(request)) => {
                self.board.give_back(request);
                false
            }
        }
    }

    /// Gives a request back, unanswered.
    fn give_back(&mut self, request: TestRequest) {
        self.moves = self.moves.wrapping_add(1);
        self.board.give_back(request);
    }
}

impl<'a, G: Gate> Shared<'a, G> {
    fn start(alloc: Global, gate: &'a G, faults: u32) -> Self
        requires { faults ≤ 4096 }
    {
        Shared {
            gate,
            counted: Mutex::new(CountedBoard {
                board: Board::start(alloc, faults),
                moves: 0,
                requests: 0,
            }),
            moved: Condvar::new(),
        }
    }

    /// The next request with its number; none if there will be no more, or if memory was refused.
    fn next_request<R: Wait>(&self, rt: &R, alloc: Global) -> Option<(TestRequest, u32)> {
        for _ in rt.forever() {
            let mut counted = self.counted.lock(rt);
            match counted.take(alloc) {
                Err(_) => return None,
                Ok(Some(found)) => return Some(found),
                Ok(None) => {
                    if counted.board.finished().is_some() {
                        return None;
                    }
                    let seen = counted.moves;
                    let _counted = self
                        .moved
                        .wait_while(rt, counted, |counted| counted.moves == seen);
                }
            }
        }
        unreachable!()
    }

    /// Puts an answer, and wakes the others. False if memory for it was refused; then the request went back.
    fn put<R: Wait>(&self, rt: &R, alloc: Global, request: TestRequest, fails: bool) -> bool {
        let was_put = self.counted.lock(rt).put(alloc, request, fails);
        self.moved.notify_all();
        was_put
    }

    /// Gives a request back, and wakes the others.
    fn give_back<R: Wait>(&self, rt: &R, request: TestRequest) {
        self.counted.lock(rt).give_back(request);
        self.moved.notify_all();
    }
}

/// What the probe says of a request, with a copy of its set. The copy is made before the probe is asked.
fn asked<P: Probe, G: Gate>(
    alloc: Global,
    gate: &G,
    probe: &mut P,
    request: &TestRequest,
    number: u32,
) -> Result<(FaultSet, bool), AllocError>
    ensures setup { P.answers probe.new ≡ P.answers probe.old }
    ensures told { IfOk result (λ t. t.1 ≡ P.answers probe.old t.0) }
{
    let set = request.packed().copied(alloc)?;
    gate.arrive(Phase::Requests, number);
    let fails = probe.test(request.set())?;
    Ok((set, fails))
}

/// Answers one request, and adds the answer to the worker's own. Room for it is made before the probe is asked, and the probe is asked outside the
/// lock. False if there is no request, or if memory was refused: then the request goes back.
fn turn<R: Wait, P: Probe, G: Gate>(
    rt: &R,
    alloc: Global,
    shared: &Shared<'_, G>,
    probe: &mut P,
    told: &mut Answered,
) -> bool
    ensures setup { P.answers probe.new ≡ P.answers probe.old }
    ensures told { AreAnswers (P.answers probe.old) told.old.items → AreAnswers (P.answers probe.old) told.new.items }
{
    if told.reserve(1).is_err() {
        return false;
    }
    let Some((request, number)) = shared.next_request(rt, alloc) else {
        return false;
    };
    match asked(alloc, shared.gate, probe, &request, number) {
        Ok((set, fails)) => {
            told.push_reserved((set, fails));
            shared.put(rt, alloc, request, fails)
        }
        Err(_) => {
            shared.give_back(rt, request);
            false
        }
    }
}

/// Answers requests until there are none or memory is refused, and returns the answers.
fn work<R: Wait, P: Probe, G: Gate>(
    rt: &R,
    alloc: Global,
    shared: &Shared<'_, G>,
    probe: P,
) -> (P, Answered)
    ensures setup { P.answers result.0 ≡ P.answers probe }
    ensures told { AreAnswers (P.answers probe) result.1.items }
{
    let mut probe = probe;
    let mut told = Vec::new(alloc);
    for _ in rt.forever() {
        if !turn(rt, alloc, shared, &mut probe, &mut told) {
            break;
        }
    }
    (probe, told)
}

/// What each worker answered, and the workers. Each works in a thread of its own, if one can be made, while the caller's thread waits.
/// `std::thread::map_vec` would have the caller's thread work too, and Linux may leave that on one processor with the first other thread for
/// milliseconds. For the same reason a thread gives way to its starter before it works, so that the others start at once.
#[cycle(apart)]
fn told_apart<R: Threads + Wait + Sync, P: Probe, G: Gate>(
    rt: &R,
    alloc: Global,
    shared: &Shared<'_, G>,
    mut workers: Vec<P>,
) -> Result<Vec<(P, Answered)>, AllocError>
    ensures { IfOk result (λ all. AreBack P.answers workers.items all.items) }
{
    let Some(probe) = workers.pop() else {
        return Ok(Vec::new(alloc));
    };
    let (told, others) = thread::join(
        rt,
        move || -> (P, Answered)
            requires { IsSync R.row × IsSync G.row × IsSend P.row }
            ensures { (P.answers result.0 ≡ P.answers probe) × AreAnswers (P.answers probe) result.1.items }
        {
            thread::yield_now();
            work(rt, alloc, shared, probe)
        },
        move || -> Result<Vec<(P, Answered)>, AllocError>
            requires { IsSync R.row × IsSync G.row × IsSend P.row }
            ensures { IfOk result (λ all. AreBack P.answers workers.items all.items) }
        { told_apart(rt, alloc, shared, workers) },
    );
    let mut all = others?;
    all.push(told)?;
    Ok(all)
}

/// What each worker answered, and the workers. A single one works in the caller's thread.
fn all_told<R: Threads + Wait + Sync, P: Probe, G: Gate>(
    rt: &R,
    alloc: Global,
    shared: &Shared<'_, G>,
    mut workers: Vec<P>,
) -> Result<Vec<(P, Answered)>, AllocError>
    ensures { IfOk result (λ all. AreBack P.answers workers.items all.items) }
{
    if workers.len() > 1 {
        return told_apart(rt, alloc, shared, workers);
    }
    let mut all = Vec::new(alloc);
    if let Some(probe) = workers.pop() {
        all.push(work(rt, alloc, shared, probe))?;
    }
    Ok(all)
}

/// What is under the lock, once the threads are joined.
fn left_on<G: Gate>(shared: Shared<'_, G>) -> Board {
    shared.counted.into_inner().board
}

/// Adds a probe to one list, and what it answered to the other.
fn part_one<P: Probe>(
    probes: &mut Vec<P>,
    pairs: &mut Vec<Answered>,
    probe: P,
    told: Answered,
) -> Result<(), AllocError>
    ensures probes { OnOk result (probes.new.items ≡ probes.old.items ++ probe ∷ []) }
    ensures pairs { OnOk result (pairs.new.items ≡ pairs.old.items ++ told ∷ []) }
{
    probes.push(probe)?;
    pairs.push(told)?;
    Ok(())
}

/// The probes, and what they answered, in two lists.
fn parted<P: Probe>(
    alloc: Global,
    all: Vec<(P, Answered)>,
) -> Result<(Vec<P>, Vec<Answered>), AllocError>
    ensures { IfOk result (λ r. (r.0.items ≡ map (λ x. x.0) all.items) × (r.1.items ≡ map (λ x. x.1) all.items)) }
{
    let mut probes = Vec::new(alloc);
    let mut pairs = Vec::new(alloc);
    for (probe, told) in all {
        part_one(&mut probes, &mut pairs, probe, told)?;
    }
    Ok((probes, pairs))
}

/// Goes on from where the threads left off, if their answers are the probe's own; otherwise from the start.
fn gathered<P: Probe>(
    alloc: Global,
    board: Board,
    probe: &mut P,
    pairs: &[Answered],
    faults: u32,
) -> Result<Reduction, AllocError>
    requires few { faults ≤ 4096 }
    requires own { AllAnswers (P.answers probe.old) pairs.now }
    ensures { IfOk result (λ r. r ≡ ddmin (P.answers probe.old) faults) }
{
    let is_backed = is_backed_by(alloc, &board, faults, pairs);
    if is_backed {
        let mut core = board.into_core();
        core.recall();
        finish(alloc, core, probe, faults)
    } else {
        reduce_by_core(alloc, probe, faults)
    }
}

/// Reduces the faults `0 .. faults` with a thread for each worker. The result is that of `reduce_plain`, however many workers there are and in
/// whatever order they answer. There may be up to 4,096 faults, and there has to be at least one worker; all workers have the same setup.
///
/// Each worker takes requests, also those of the round after the present one. It arrives at the gate with the request's number (from 0, in the order
/// in which they were handed out), and asks its probe. A worker that is refused memory gives its request back and leaves. What is left then is done
/// on the caller's thread, which doesn't arrive at the gate. The only error is that memory was refused.
pub fn reduce<R: Threads + Wait + Sync, P: Probe, G: Gate>(
    rt: &R,
    alloc: Global,
    gate: &G,
    workers: Vec<P>,
    faults: u32,
) -> Result<Reduction, AllocError>
    requires few { faults ≤ 4096 }
    requires some { 0 < length workers.items }
    requires one_setup { All (λ p. All (λ q. P.answers p ≡ P.answers q) workers.items) workers.items }
    ensures { IfOk result (λ r. All (λ p. r ≡ ddmin (P.answers p) faults) workers.items) }
{
    let shared = Shared::start(alloc, gate, faults);
    let all = all_told(rt, alloc, &shared, workers)?;
    let board = left_on(shared);
    let (mut probes, pairs) = parted(alloc, all)?;
    let mut probe = probes.pop().unwrap();
    gathered(alloc, board, &mut probe, pairs.as_slice(), faults)
}
