//! Components that are given by a table of their steps.
ghost use Rattle.std.specs.Prelude.{◌≡◌, ◌+◌, ◌-◌, ◌≤◌, ℕ, List, None, false, length, option_map, IfOk, OnOk};
ghost use Rattle.std.proofs.Common.{rules};
ghost use Rattle.action_eval.specs.Answers.{replies, start, texts};
ghost use Rattle.action_eval.specs.Catalogue.{IsCatalogue};
ghost use Rattle.target_trait.specs.Machine.{asks_by, Reached};
ghost use Rattle.target_trait.specs.Play.{IsPlay, IsWithin, IsRunning, move_by};
ghost use Rattle.target_trait.specs.Protocol.{Table, by_table, state_after};
ghost use Rattle.target_trait.specs.MachineLaws.{within_table, halts_table};

use crate::judgement::Judgement;
use crate::target::Target;
use action_eval::{Answer, Session};
use std::alloc::AllocError;
use std::marker::Model;

/// A component that is given by its steps: the least that your own target has to say. `ByTable` makes a target of it.
///
/// A run begins with a state, asks the point of the next step, does the step by the answer, and so on. At its end, or when it is halted, it is
/// judged. Each function does what the table's entry of its name says. So each function is proved by itself, and the run is proved once for all
/// protocols.
pub trait Protocol: Sized + Drop {
    /// What a run works on.
    type Workload;

    /// How far a run has come, with the device that it works on. Contracts see its model.
    type State: Drop;

    // The names of the points.
    ghost names: { List (List ℕ) };

    // The setup's label.
    ghost label_of: { Self → List ℕ };

    // The name of a code.
    ghost code_text: { ℕ → List ℕ };

    // The table of the steps, for a setup and a workload.
    ghost table: { Self → Self.Workload → Table Self.State };

    /// A text for the setup, which stands in reports.
    fn label(&self) -> &'static str
        ensures { result.now ≡ label_of self.now };

    /// The names of the points, in the order of their numbers.
    fn catalogue() -> &'static [&'static str]
        ensures { texts result.now ≡ names };

    /// The name of the code of a broken promise, for every number.
    fn code_name(code: u32) -> &'static str
        ensures { result.now ≡ code_text code };

    /// Another component with the same setup. If it holds memory, it keeps and uses the allocator that it was made with.
    fn twin(&self) -> Result<Self, AllocError>
        ensures { IfOk result (λ twin. twin ≡ self.now) };

    /// The state in which a run begins. An error means that memory was refused, here and below.
    fn begin(&self, workload: &Self::Workload) -> Result<Self::State, AllocError>
        ensures { IfOk result (λ state. state ≡ (table self.now workload.now).first) };

    /// The point of the next step, or none if the run is over.
    fn point(&self, workload: &Self::Workload, state: &Self::State) -> Option<u32>
        ensures { result ≡ (table self.now workload.now).point state.now };

    /// Does the step.
    fn go(&self, workload: &Self::Workload, state: &mut Self::State) -> Result<(), AllocError>
        ensures { OnOk result (state.new ≡ (table self.now workload.now).go state.old) };

    /// Does what follows if the step fails, with the text of the answer, if it has one.
    fn fail(
        &self,
        workload: &Self::Workload,
        state: &mut Self::State,
        text: Option<&str>,
    ) -> Result<(), AllocError>
        ensures { OnOk result (state.new ≡ (table self.now workload.now).fail state.old (option_map (λ t. t.now) text.entry)) };

    /// Judges what is left, as after a power cut or a restart, with faults switched off.
    fn judge(&self, workload: &Self::Workload, state: Self::State) -> Judgement
        ensures { result ≡ (table self.now workload.now).judge state };

    // Each question is of a point of the catalogue.
    ghost within: { (setup : Self) (workload : Self.Workload) (state : Self.State)
        → IsWithin (length names) (move_by ((table setup workload).judge state) ((table setup workload).point state)) };

    // The catalogue has 1 to 64 distinct lawful names of at most 200 bytes.
    ghost lawful: { IsCatalogue names };
}

/// Plays a run by a table, from its first state on, and returns the state in which it is judged. The session may have more points than the table.
pub fn play_out<P: Protocol>(
    protocol: &P,
    workload: &P::Workload,
    session: &mut Session<'_>,
) -> Result<P::State, AllocError>
    requires new { session.old ≡ start session.old.given }
    requires points { length P.names ≤ length session.old.given.catalogue }
    ensures play { IfOk result (λ state. IsPlay (asks_by (by_table (P.table protocol.now workload.now))) session.new
        ((P.table protocol.now workload.now).judge state)) }
    ensures state { IfOk result (λ state. state ≡ state_after (P.table protocol.now workload.now) (replies session.new)) }
    ensures given { session.new.given ≡ session.old.given }
{
    let mut state = protocol.begin(workload)?;
    while let Some(point) = protocol.point(workload, &state) {
        match session.hit(point)? {
            Answer::Go => protocol.go(workload, &mut state)?,
            Answer::Return(text) => protocol.fail(workload, &mut state, text)?,
            Answer::Halt => return Ok(state),
        }
    }
    Ok(state)
}

/// Plays a run by a table, and judges it.
fn play<P: Protocol>(
    protocol: &P,
    workload: &P::Workload,
    session: &mut Session<'_>,
) -> Result<Judgement, AllocError>
    requires new { session.old ≡ start session.old.given }
    requires points { session.old.given.catalogue ≡ P.names }
    ensures play { IfOk result (IsPlay (asks_by (by_table (P.table protocol.now workload.now))) session.new) }
    ensures given { session.new.given ≡ session.old.given }
{
    let state = play_out(protocol, workload, session)?;
    Ok(protocol.judge(workload, state))
}

/// The target that plays the steps of a component's table. Its setup is the component's.
#[derive(Drop)]
pub struct ByTable<P: Protocol> {
    protocol: P,
}

impl<P: Protocol> Model for ByTable<P> {
    ghost Value = { P };

    ghost view = { λ target. target.protocol };
}

impl<P: Protocol> ByTable<P> {
    /// The target of this component.
    pub fn new(protocol: P) -> Self
        ensures { result ≡ protocol }
    {
        ByTable { protocol }
    }

    /// The component.
    pub fn protocol(&self) -> &P
        ensures { result.now ≡ self.now }
    {
        &self.protocol
    }
}

impl<P: Protocol> Target for ByTable<P> {
    type Workload = P::Workload;

    ghost names = { P.names };

    ghost label_of = { P.label_of };

    ghost code_text = { P.code_text };

    ghost asks = { λ setup workload. asks_by (by_table (P.table setup workload)) };

    fn label(&self) -> &'static str {
        self.protocol.label()
    }

    fn catalogue() -> &'static [&'static str] {
        P::catalogue()
    }

    fn code_name(code: u32) -> &'static str {
        P::code_name(code)
    }

    fn twin(&self) -> Result<Self, AllocError> {
        let protocol = self.protocol.twin()?;
        Ok(ByTable { protocol })
    }

    fn run(
        &mut self,
        workload: &P::Workload,
        session: &mut Session<'_>,
    ) -> Result<Judgement, AllocError> {
        play(&self.protocol, workload, session)
    }

    ghost within = { λ setup workload. within_table (P.table setup workload) (length P.names) (P.within setup workload) };

    ghost halts = { λ setup workload. halts_table (P.table setup workload) };

    ghost lawful = { P.lawful };
}
