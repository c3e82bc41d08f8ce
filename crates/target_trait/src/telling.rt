//! Components that can say, beside the judgement, in which state a run left them and why they are judged so.
ghost use Rattle.std.specs.Prelude.{◌≡◌, ◌++◌, ℕ, List, string_bytes, IfOk, OnOk};
ghost use Rattle.action_eval.specs.Answers.{Given, given_of};
ghost use Rattle.target_trait.specs.Protocol.{last_state};

use crate::case::{Case, session_of};
use crate::protocol::{ByTable, Protocol, play_out};
use crate::target::Target;
use std::alloc::{AllocError, Global};

/// What is said about the end of a run, in the component's own words. An empty text says nothing.
#[derive(Debug, Drop)]
pub struct Tale {
    /// The state in which the run was judged.
    pub state: String,
    /// Why it is judged as it is.
    pub reason: String,
}

/// A protocol that can describe the state in which a run ends, and why it is judged so: what a reader of an explained run would ask next.
///
/// A protocol that can't leaves this out. No verdict depends on these texts.
pub trait TellingProtocol: Protocol {
    // The text for a state, for a setup and a workload.
    ghost state_text: { Self → Self.Workload → Self.State → List ℕ };

    // The text that says why a state is judged as it is.
    ghost reason_text: { Self → Self.Workload → Self.State → List ℕ };

    /// Appends the text for the state in which a run ends, before it is judged. An error means that memory was refused.
    fn tell_state(
        &self,
        workload: &Self::Workload,
        state: &Self::State,
        out: &mut String,
    ) -> Result<(), AllocError>
        ensures { OnOk result (string_bytes out.new ≡ string_bytes out.old ++ state_text self.now workload.now state.now) };

    /// Appends why `judge` judges this state as it does. An error means that memory was refused.
    fn tell_reason(
        &self,
        workload: &Self::Workload,
        state: &Self::State,
        out: &mut String,
    ) -> Result<(), AllocError>
        ensures { OnOk result (string_bytes out.new ≡ string_bytes out.old ++ reason_text self.now workload.now state.now) };
}

/// A target that can describe the end of a run: `ByTable` of each protocol that can.
pub trait TellingTarget: Target {
    // The text for the state in which the run of a case is judged, for a setup, a workload and what the run is given.
    ghost state_of: { Self → Self.Workload → Given → List ℕ };

    // The text that says why it is judged so.
    ghost reason_of: { Self → Self.Workload → Given → List ℕ };

    /// Plays a case, and describes its end. The outcome is that of `run_case`, and isn't given here.
    ///
    /// An error means that memory was refused. The target keeps its setup, after an error too.
    fn tell(
        &mut self,
        alloc: Global,
        workload: &Self::Workload,
        case: &Case<'_>,
    ) -> Result<Tale, AllocError>
        ensures state { IfOk result (λ tale. string_bytes tale.state ≡ state_of self.old workload.now
            (given_of case.now.scenario.now Self.names case.now.seed case.now.stream case.now.max_hits)) }
        ensures reason { IfOk result (λ tale. string_bytes tale.reason ≡ reason_of self.old workload.now
            (given_of case.now.scenario.now Self.names case.now.seed case.now.stream case.now.max_hits)) }
        ensures setup { self.new ≡ self.old };
}

/// Plays a case by a table, and returns the state in which it is judged.
fn state_of<P: Protocol>(
    alloc: Global,
    protocol: &P,
    workload: &P::Workload,
    case: &Case<'_>,
) -> Result<P::State, AllocError>
    ensures { IfOk result (λ state. state ≡ last_state (P.table protocol.now workload.now)
        (given_of case.now.scenario.now P.names case.now.seed case.now.stream case.now.max_hits)) }
{
    let mut session = session_of(alloc, case, P::catalogue())?;
    let state = play_out(protocol, workload, &mut session)?;
    // Called for its contract: at most one hit is past the limit.
    let _ = session.trace();
    Ok(state)
}

/// What a protocol says about this state.
fn tale_of<P: TellingProtocol>(
    alloc: Global,
    protocol: &P,
    workload: &P::Workload,
    state: &P::State,
) -> Result<Tale, AllocError>
    ensures state { IfOk result (λ tale. string_bytes tale.state ≡ P.state_text protocol.now workload.now state.now) }
    ensures reason { IfOk result (λ tale. string_bytes tale.reason ≡ P.reason_text protocol.now workload.now state.now) }
{
    let mut tale = Tale {
        state: String::new(alloc),
        reason: String::new(alloc),
    };
    protocol.tell_state(workload, state, &mut tale.state)?;
    protocol.tell_reason(workload, state, &mut tale.reason)?;
    Ok(tale)
}

impl<P: TellingProtocol> TellingTarget for ByTable<P> {
    ghost state_of = { λ setup workload given. P.state_text setup workload (last_state (P.table setup workload) given) };

    ghost reason_of = { λ setup workload given. P.reason_text setup workload (last_state (P.table setup workload) given) };

    fn tell(
        &mut self,
        alloc: Global,
        workload: &P::Workload,
        case: &Case<'_>,
    ) -> Result<Tale, AllocError> {
        let state = state_of(alloc, self.protocol(), workload, case)?;
        tale_of(alloc, self.protocol(), workload, &state)
    }
}
