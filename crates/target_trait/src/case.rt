//! A case, and its outcome on a target.
ghost use Rattle.std.specs.Prelude.{◌≡◌, ◌≤◌, length, IfOk, OnOk, OnErr};
ghost use Rattle.action_eval.specs.Answers.{asked, given_of, start, texts};
ghost use Rattle.target_trait.specs.Outcomes.{outcome, verdict_of, judged, verdict_with};
ghost use Rattle.target_trait.specs.Play.{Done};

use crate::judgement::{Judgement, Verdict};
use crate::target::Target;
use action_eval::{Note, Session, Stop};
use scenario_values::Scenario;
use std::alloc::{AllocError, Global};
use std::marker::Model;

/// What a target is run under: a scenario, the seed and the stream number of the random words, and how many hits are answered.
#[derive(Clone, Copy)]
pub struct Case<'a> {
    pub scenario: &'a Scenario,
    pub seed: u64,
    pub stream: u64,
    /// How many hits are answered. A run with more hits is stopped, and unresolved.
    pub max_hits: u32,
}

/// What a run came to.
#[derive(Debug, Drop)]
pub struct Outcome {
    pub verdict: Verdict,
    /// The points that were hit, in order. A hit past the limit isn't among them.
    pub asked: Vec<u32>,
    /// What `print` tasks left, in order.
    pub notes: Vec<Note>,
    /// The simulated milliseconds of `sleep` and `delay` tasks.
    pub millis: u64,
    /// How many random words were taken.
    pub words: u64,
}

impl Model for Outcome {
    ghost use Rattle.target_trait.specs.Outcomes.{Told};

    ghost Value = { Told };

    ghost view = { λ o. record {
      verdict = o.verdict;
      asked = o.asked.items;
      notes = o.notes.items;
      millis = o.millis;
      words = o.words;
    } };
}

/// The verdict of a run, from the judgement on it and what stopped it, if anything did.
fn verdict_of(stopped: Option<Stop>, judgement: Judgement) -> Verdict
    ensures { result ≡ verdict_of stopped (Done judgement) }
{
    match (stopped, judgement) {
        (Some(Stop::Paused | Stop::Limit), _) => Verdict::Unresolved,
        (_, Judgement::Kept) => Verdict::Pass,
        (_, Judgement::Broken(code)) => Verdict::Fail(code),
    }
}

/// A new session of a case, over a catalogue. An error means that memory was refused.
pub fn session_of<'a>(
    alloc: Global,
    case: &Case<'a>,
    catalogue: &'a [&'a str],
) -> Result<Session<'a>, AllocError>
    ensures { IfOk result (λ session. session ≡ start
        (given_of case.now.scenario.now (texts catalogue.now) case.now.seed case.now.stream case.now.max_hits)) }
{
    Session::new(
        alloc,
        case.scenario,
        catalogue,
        case.seed,
        case.stream,
        case.max_hits,
    )
}

/// The outcome of a case on a target, for every target: that of what the target asks, under the case's scenario, seed, stream number and
/// limit, over the target's own catalogue.
///
/// An error means that memory was refused. The target keeps its setup, after an error too.
pub fn run_case<T: Target>(
    alloc: Global,
    target: &mut T,
    workload: &T::Workload,
    case: &Case<'_>,
) -> Result<Outcome, AllocError>
    ensures ok { IfOk result (λ told. told ≡ outcome (T.asks target.old workload.now)
        (given_of case.now.scenario.now T.names case.now.seed case.now.stream case.now.max_hits)) }
    ensures few { IfOk result (λ told. length told.asked ≤ case.now.max_hits) }
    ensures setup { target.new ≡ target.old }
{
    let mut session = session_of(alloc, case, T::catalogue())?;
    let judgement = target.run(workload, &mut session)?;
    let asked = Vec::from_slice(alloc, session.trace())?;
    let verdict = verdict_of(session.stopped(), judgement);
    let millis = session.millis();
    let words = session.words();
    Ok(Outcome {
        verdict,
        asked,
        notes: session.into_notes(),
        millis,
        words,
    })
}

/// Runs a target over a session that is there already, and gives the verdict: that of what the target asks, under what the session is given. The
/// session then has the points that the run hit.
///
/// The session has to be new, and over the target's catalogue. It may begin another run afterwards. An error means that memory was refused. The
/// target keeps its setup, and the session what it is given, after an error too.
pub fn run_session<T: Target>(
    target: &mut T,
    workload: &T::Workload,
    session: &mut Session<'_>,
) -> Result<Verdict, AllocError>
    requires new { session.old ≡ start session.old.given }
    requires points { session.old.given.catalogue ≡ T.names }
    ensures ok { IfOk result (λ verdict. verdict ≡ verdict_with (T.asks target.old workload.now) T.names
        session.old.given.seed session.old.given.limit session.old.given.stream session.old.given.scenario) }
    ensures asked { OnOk result (asked session.new ≡ (outcome (T.asks target.old workload.now) session.old.given).asked) }
    ensures given { session.new.given ≡ session.old.given }
    ensures setup { target.new ≡ target.old }
{
    let judgement = target.run(workload, session)?;
    // Called for its contract: at most one hit is past the limit.
    let _ = session.trace();
    Ok(verdict_of(session.stopped(), judgement))
}

/// The verdict of a case on a target: the same as that of `run_case`, without copies of the points and of the notes.
///
/// An error means that memory was refused. The target keeps its setup, after an error too.
pub fn run_verdict<T: Target>(
    alloc: Global,
    target: &mut T,
    workload: &T::Workload,
    case: &Case<'_>,
) -> Result<Verdict, AllocError>
    ensures ok { IfOk result (λ verdict. verdict ≡ verdict_with (T.asks target.old workload.now) T.names
        case.now.seed case.now.max_hits case.now.stream case.now.scenario.now) }
    ensures setup { target.new ≡ target.old }
{
    let mut session = session_of(alloc, case, T::catalogue())?;
    run_session(target, workload, &mut session)
}
