ghost use Rattle.std.specs.Prelude.{◌≤◌};

use crate::plain_rows::{Found, OF_EIGHT, OF_THREE, is_found, needs_both};
use ddmin_parallel::{Board, Core, Event, FaultSet, Probe, RequestFault, TestRequest};
use std::alloc::{AllocError, Global};
use std::process::Abort;

/// The next request of a core, which has to be for this set.
fn taken(
    rt: &impl Abort,
    alloc: Global,
    core: &mut Core,
    ahead: bool,
    set: &[u32],
) -> Result<TestRequest, AllocError> {
    let request = core.take(alloc, ahead)?.expect(rt, "a request of the core");
    assert!(rt; request.set() == set);
    Ok(request)
}

/// Puts an answer, which a core has to take.
fn put(rt: &impl Abort, alloc: Global, core: &mut Core, request: TestRequest, fails: bool) {
    assert!(rt; core.put(alloc, request, fails).is_ok());
}

/// Whether a core has no request now.
fn is_out_of_requests(alloc: Global, core: &mut Core, ahead: bool) -> Result<bool, AllocError> {
    Ok(core.take(alloc, ahead)?.is_none())
}

/// Whether a core is finished with this result.
fn is_end(core: &Core, kept: &[u32], tests: u64) -> bool {
    match core.finished() {
        Some(found) => is_found(found, kept, tests),
        None => false,
    }
}

/// Answers each request before the next is taken, and counts them.
fn requests_of<P: Probe>(alloc: Global, probe: &mut P, core: &mut Core) -> Result<u64, AllocError> {
    let mut requests = 0u64;
    for _ in 0..1000 {
        let Some(request) = core.take(alloc, false)? else {
            break;
        };
        requests = requests.saturating_add(1);
        let fails = probe.test(request.set())?;
        if core.put(alloc, request, fails).is_err() {
            return Err(AllocError);
        }
    }
    Ok(requests)
}

/// A core hands out this many requests until it is finished, and has counted this many tests.
fn has_requests(rt: &impl Abort, alloc: Global, row: &Found) -> Result<(), AllocError>
    requires { row.now.faults ≤ 4096 }
{
    let mut core = Core::start(alloc, row.faults);
    let mut probe = needs_both(row.culprits[0], row.culprits[1]);
    assert_eq!(rt;
        requests_of(alloc, &mut probe, &mut core)?,
        row.asked_by_core
    );
    assert!(rt; is_end(&core, row.kept, row.tests));
    Ok(())
}

#[test]
fn requests_one_by_one(rt: HostRuntime) -> Result<(), AllocError> {
    has_requests(&rt, rt.alloc(), &OF_EIGHT)?;
    has_requests(&rt, rt.alloc(), &OF_THREE)
}

#[test]
fn no_fault(rt: HostRuntime) -> Result<(), AllocError> {
    let mut core = Core::start(rt.alloc(), 0);
    assert!(&rt; is_end(&core, &[], 0));
    for ahead in [false, true] {
        assert!(&rt; is_out_of_requests(rt.alloc(), &mut core, ahead)?);
    }
    Ok(())
}

#[test]
fn one_fault(rt: HostRuntime) -> Result<(), AllocError> {
    let mut core = Core::start(rt.alloc(), 1);
    assert!(&rt; core.finished().is_none());
    let request = taken(&rt, rt.alloc(), &mut core, false, &[])?;
    put(&rt, rt.alloc(), &mut core, request, false);
    assert!(&rt; is_end(&core, &[0], 1));
    Ok(())
}

/// The empty set as a core's answer to a stranger hands it back.
fn is_stranger(answer: Result<(), RequestFault>) -> bool {
    match answer {
        Err(RequestFault::Stranger(request)) => request.set().is_empty(),
        Err(RequestFault::Memory(_)) | Ok(()) => false,
    }
}

/// The empty set's request, once it came back and was taken again.
fn taken_again(rt: &impl Abort, alloc: Global, core: &mut Core) -> Result<TestRequest, AllocError> {
    let request = taken(rt, alloc, core, false, &[])?;
    assert!(rt; is_out_of_requests(alloc, core, false)?);
    core.give_back(request);
    taken(rt, alloc, core, false, &[])
}

#[test]
fn requests_that_come_back(rt: HostRuntime) -> Result<(), AllocError> {
    let mut core = Core::start(rt.alloc(), 2);
    let request = taken_again(&rt, rt.alloc(), &mut core)?;
    core.recall();
    assert!(&rt; is_stranger(core.put(rt.alloc(), request, true)));
    assert!(&rt; core.finished().is_none());
    let _request = taken(&rt, rt.alloc(), &mut core, false, &[])?;
    Ok(())
}

/// A core past the empty set, which passes.
fn past_the_empty_set(rt: &impl Abort, alloc: Global, faults: u32) -> Result<Core, AllocError>
    requires { faults ≤ 4096 }
{
    let mut core = Core::start(alloc, faults);
    let request = taken(rt, alloc, &mut core, false, &[])?;
    put(rt, alloc, &mut core, request, false);
    Ok(core)
}

/// The candidate that was answered first does not decide: the first one of the round does.
#[test]
fn the_second_is_answered_first(rt: HostRuntime) -> Result<(), AllocError> {
    let alloc = rt.alloc();
    let mut core = past_the_empty_set(&rt, alloc, 2)?;
    let first = taken(&rt, alloc, &mut core, false, &[0])?;
    let second = taken(&rt, alloc, &mut core, false, &[1])?;
    put(&rt, alloc, &mut core, second, true);
    assert!(&rt; core.finished().is_none());
    put(&rt, alloc, &mut core, first, true);
    assert!(&rt; is_end(&core, &[0], 2));
    Ok(())
}

/// The next request of a board, which has to be for this set.
fn taken_of(
    rt: &impl Abort,
    alloc: Global,
    board: &mut Board,
    ahead: bool,
    set: &[u32],
) -> Result<TestRequest, AllocError> {
    let request = board
        .take(alloc, ahead)?
        .expect(rt, "a request of the board");
    assert!(rt; request.set() == set);
    Ok(request)
}

/// The board has no request now, not even ahead, and this many events.
fn has_no_request(
    rt: &impl Abort,
    alloc: Global,
    board: &mut Board,
    events: usize,
) -> Result<(), AllocError> {
    assert!(rt; board.take(alloc, true)?.is_none());
    assert_eq!(rt; board.events().len(), events);
    Ok(())
}

/// Takes the empty set and, ahead of its answer, the two halves.
fn halves_ahead(
    rt: &impl Abort,
    alloc: Global,
    board: &mut Board,
) -> Result<TestRequest, AllocError> {
    let empty = taken_of(rt, alloc, board, true, &[])?;
    let _first = taken_of(rt, alloc, board, true, &[0, 1, 2, 3])?;
    let _second = taken_of(rt, alloc, board, true, &[4, 5, 6, 7])?;
    has_no_request(rt, alloc, board, 3)?;
    Ok(empty)
}

/// Takes the requests of the round after the halves.
fn quarters_ahead(rt: &impl Abort, alloc: Global, board: &mut Board) -> Result<(), AllocError> {
    let quarters: [&[u32]; 8] = [
        &[0, 1],
        &[2, 3],
        &[4, 5],
        &[6, 7],
        &[2, 3, 4, 5, 6, 7],
        &[0, 1, 4, 5, 6, 7],
        &[0, 1, 2, 3, 6, 7],
        &[0, 1, 2, 3, 4, 5],
    ];
    for set in quarters {
        let _request = taken_of(rt, alloc, board, true, set)?;
    }
    has_no_request(rt, alloc, board, 12)
}

#[test]
fn requests_ahead(rt: HostRuntime) -> Result<(), AllocError> {
    let mut board = Board::start(rt.alloc(), 8);
    let empty = halves_ahead(&rt, rt.alloc(), &mut board)?;
    assert!(&rt; board.put(rt.alloc(), empty, false).is_ok());
    quarters_ahead(&rt, rt.alloc(), &mut board)
}

/// Takes the two halves ahead of the empty set; then the empty set fails.
fn ends_before_halves(
    rt: &impl Abort,
    alloc: Global,
    core: &mut Core,
) -> Result<(TestRequest, TestRequest), AllocError> {
    let empty = taken(rt, alloc, core, true, &[])?;
    let first = taken(rt, alloc, core, true, &[0, 1, 2, 3])?;
    let second = taken(rt, alloc, core, true, &[4, 5, 6, 7])?;
    put(rt, alloc, core, empty, true);
    assert!(rt; is_end(core, &[], 1));
    Ok((first, second))
}

/// The requests ahead are of no use, and still end.
#[test]
fn requests_ahead_of_a_failing_empty_set(rt: HostRuntime) -> Result<(), AllocError> {
    let mut core = Core::start(rt.alloc(), 8);
    let (first, second) = ends_before_halves(&rt, rt.alloc(), &mut core)?;
    put(&rt, rt.alloc(), &mut core, first, true);
    core.give_back(second);
    assert!(&rt; is_end(&core, &[], 1));
    assert!(&rt; is_out_of_requests(rt.alloc(), &mut core, true)?);
    Ok(())
}

/// Takes the empty set, which passes, and the first half, which comes back before that.
fn pass_the_empty_set(rt: &impl Abort, alloc: Global, board: &mut Board) -> Result<(), AllocError> {
    let empty = taken_of(rt, alloc, board, true, &[])?;
    let half = taken_of(rt, alloc, board, true, &[0, 1, 2, 3])?;
    board.give_back(half);
    assert!(rt; board.put(alloc, empty, false).is_ok());
    Ok(())
}

/// A board of eight faults of which one request came back and one was recalled, and the empty set passes.
fn board_of_events(rt: &impl Abort, alloc: Global) -> Result<Board, AllocError> {
    let mut board = Board::start(alloc, 8);
    pass_the_empty_set(rt, alloc, &mut board)?;
    board.recall();
    let half = taken_of(rt, alloc, &mut board, false, &[0, 1, 2, 3])?;
    board.recall();
    board.give_back(half);
    Ok(board)
}

/// Whether these are the events of that board.
fn are_its_events(events: &[Event]) -> bool {
    let half = [(0, 3)].as_slice();
    match events {
        [
            Event::Take(empty),
            Event::Take(first),
            Event::GiveBack(back),
            Event::Put(put, fails),
            Event::Take(again),
            Event::Recall,
        ] => {
            empty.runs().is_empty()
                && first.runs() == half
                && back.runs() == half
                && put.runs().is_empty()
                && !*fails
                && again.runs() == half
        }
        _ => false,
    }
}

/// The pairs of one worker, which answered the empty set alone.
fn told_of_the_empty_set(
    alloc: Global,
    fails: bool,
) -> Result<Vec<Vec<(FaultSet, bool)>>, AllocError> {
    let mut told = Vec::new(alloc);
    told.push((FaultSet::pack(alloc, &[])?, fails))?;
    let mut pairs = Vec::new(alloc);
    pairs.push(told)?;
    Ok(pairs)
}

/// Whether a worker's answer to the empty set backs a board.
fn is_backed(alloc: Global, board: &Board, faults: u32, fails: bool) -> Result<bool, AllocError> {
    let pairs = told_of_the_empty_set(alloc, fails)?;
    Ok(board.backed(faults, pairs.as_slice()))
}

#[test]
fn a_board_and_what_backs_it(rt: HostRuntime) -> Result<(), AllocError> {
    let board = board_of_events(&rt, rt.alloc())?;
    assert!(&rt; are_its_events(board.events()));
    assert!(&rt; !board.backed(8, &[]));
    for (faults, fails, backed) in [(8, false, true), (7, false, false), (8, true, false)] {
        assert_eq!(&rt; is_backed(rt.alloc(), &board, faults, fails)?, backed);
    }
    Ok(())
}

#[test]
fn sets_are_kept_as_runs(rt: HostRuntime) -> Result<(), AllocError> {
    let rows: [(&[u32], &[(u32, u32)]); 4] = [
        (&[], &[]),
        (&[0, 1, 2, 5, 7, 8], &[(0, 2), (5, 5), (7, 8)]),
        (&[3, 2, 2, 3], &[(3, 3), (2, 2), (2, 3)]),
        (
            &[u32::MAX - 1, u32::MAX, 0],
            &[(u32::MAX - 1, u32::MAX), (0, 0)],
        ),
    ];
    for (faults, runs) in rows {
        let set = FaultSet::pack(rt.alloc(), faults)?;
        assert_eq!(&rt; set.runs(), runs);
        assert_eq!(&rt; set.faults(rt.alloc())?.as_slice(), faults);
        for (other, same) in [(faults, true), (&[0, 2], false)] {
            assert!(&rt; set.is(&FaultSet::pack(rt.alloc(), other)?) == same);
        }
    }
    Ok(())
}
