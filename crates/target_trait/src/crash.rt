//! The power cut at the end of a run, which keeps some of the pending writes and loses the others.
ghost use Rattle.std.specs.Prelude.{◌≡◌, ◌<◌, ◌≤◌, List, Option, length, option_map, IfOk, true};
ghost use Rattle.action_eval.specs.Answers.{start, texts, reply_of_answer};
ghost use Rattle.action_eval.specs.Catalogue.{IsCatalogue};
ghost use Rattle.target_trait.specs.Machine.{asks_by};
ghost use Rattle.target_trait.specs.Play.{IsCutPlay};
ghost use Rattle.target_trait.specs.Protocol.{by_table};
ghost use Rattle.target_trait.specs.Cuts.{Cut, CutTable, CutAsked, CutEnded, with_keep, asks_with, cut_by, keeps};
ghost use Rattle.target_trait.specs.CutLaws.{within_with};

use crate::judgement::Judgement;
use crate::protocol::{ByTable, Protocol, play_out};
use crate::target::Target;
use action_eval::{Answer, Session};
use std::alloc::{AllocError, Global};
use std::marker::Model;

/// Whether this answer at the cut's point keeps the write for which the point was asked.
fn keeps(answer: &Answer<'_>) -> bool
    ensures { result ≡ keeps (reply_of_answer answer.now) }
{
    match answer {
        Answer::Return(Some(_)) | Answer::Return(None) => true,
        Answer::Go | Answer::Halt => false,
    }
}

/// Asks the power cut's point, which has this number, once for each pending write, and returns which writes are kept. `None` means that a pause or
/// the limit cut the run short: then nothing more is asked, and the run is unresolved, whatever is judged.
///
/// Call it when a target's own run has ended, by itself or by a halt. An error means that memory was refused. The session keeps what it is given,
/// after an error too.
pub fn ask_cut(
    alloc: Global,
    session: &mut Session<'_>,
    keep: u32,
    pending: usize,
) -> Result<Option<Vec<bool>>, AllocError>
    requires known { keep < length session.old.given.catalogue }
    ensures cut { IfOk result (λ kept. CutEnded keep pending session.old session.new (option_map (λ k. k.items) kept)) }
    ensures given { session.new.given ≡ session.old.given }
{
    let mut kept = Vec::new(alloc);
    while kept.len() < pending {
        if session.is_cut_short() {
            return Ok(None);
        }
        let answer = session.ask_on(keep)?;
        kept.push(keeps(&answer))?;
    }
    Ok(Some(kept))
}

/// A target that says which writes are pending at the end of a run, so that the power cut there can keep any of them.
///
/// A run asks its own points as `run` does. When it has ended, by itself or by a halt, the cut asks `power::keep` for each pending write (`ask_cut`),
/// and the target is judged over what is left. So a cut belongs to the run, over a catalogue with one name more. A second call couldn't know what was
/// pending, since contracts see a target as its setup.
pub trait CrashTarget: Target {
    // What a run leaves to the cut, for a setup and a workload.
    ghost cut: { Self → Self.Workload → Cut };

    /// The names of the points, and behind them `power::keep`.
    fn catalogue_to_cut() -> &'static [&'static str]
        ensures { texts result.now ≡ with_keep Self.names };

    /// One run and its power cut, over a new session of the catalogue with `power::keep`.
    ///
    /// An error means that memory was refused. The setup stays as it was, after an error too, and the target may be run again.
    fn run_to_cut(
        &mut self,
        workload: &Self::Workload,
        session: &mut Session<'_>,
    ) -> Result<Judgement, AllocError>
        requires new { session.old ≡ start session.old.given }
        requires points { session.old.given.catalogue ≡ with_keep Self.names }
        ensures play { IfOk result (IsCutPlay
            (asks_with (Self.asks self.old workload.now) (cut self.old workload.now) (length Self.names)) session.new) }
        ensures given { session.new.given ≡ session.old.given }
        ensures setup { self.new ≡ self.old };

    // The catalogue with the cut's point is lawful.
    ghost lawful_to_cut: { IsCatalogue (with_keep Self.names) };
}

/// A target whose runs end with their power cut, made from a target that says what is pending. Its setup is that target's.
#[derive(Drop)]
pub struct WithCut<T: CrashTarget> {
    target: T,
}

impl<T: CrashTarget> Model for WithCut<T> {
    ghost Value = { T };

    ghost view = { λ with_cut. with_cut.target };
}

impl<T: CrashTarget> WithCut<T> {
    /// Makes each run of this target end with its cut.
    pub fn new(target: T) -> Self
        ensures { result ≡ target }
    {
        WithCut { target }
    }
}

impl<T: CrashTarget> Target for WithCut<T> {
    type Workload = T::Workload;

    ghost names = { with_keep T.names };

    ghost label_of = { T.label_of };

    ghost code_text = { T.code_text };

    ghost asks = { λ setup workload. asks_with (T.asks setup workload) (T.cut setup workload) (length T.names) };

    ghost has_cut = { true };

    fn label(&self) -> &'static str {
        self.target.label()
    }

    fn catalogue() -> &'static [&'static str] {
        T::catalogue_to_cut()
    }

    fn code_name(code: u32) -> &'static str {
        T::code_name(code)
    }

    fn twin(&self) -> Result<Self, AllocError> {
        let target = self.target.twin()?;
        Ok(WithCut { target })
    }

    fn run(
        &mut self,
        workload: &T::Workload,
        session: &mut Session<'_>,
    ) -> Result<Judgement, AllocError> {
        self.target.run_to_cut(workload, session)
    }

    ghost within = { λ setup workload. within_with T.names (T.asks setup workload) (T.cut setup workload) (T.within setup workload) };

    ghost halts = { λ setup workload before after. tt };

    ghost lawful = { T.lawful_to_cut };
}

/// A protocol that says which writes are pending in the state in which a run ends. A protocol without pending writes leaves this out.
pub trait CrashProtocol: Protocol {
    // How many writes are pending in a state, and what is judged if these of them are kept.
    ghost cut_table: { Self → Self.Workload → CutTable Self.State };

    /// The names of the points, and behind them `power::keep`.
    fn catalogue_to_cut() -> &'static [&'static str]
        ensures { texts result.now ≡ with_keep Self.names };

    /// The allocator that it was made with.
    fn alloc(&self) -> Global;

    /// How many writes are pending.
    fn pending(&self, workload: &Self::Workload, state: &Self::State) -> usize
        ensures { result ≡ (cut_table self.now workload.now).pending state.now };

    /// Judges what is left after a power cut that keeps the pending writes for which `kept` is true, in the order in which they were made.
    fn judge_kept(&self, workload: &Self::Workload, state: Self::State, kept: &[bool]) -> Judgement
        ensures { result ≡ (cut_table self.now workload.now).judge state kept.now };

    // The catalogue with the cut's point is lawful.
    ghost lawful_to_cut: { IsCatalogue (with_keep Self.names) };
}

/// The number of the cut's point, which stands behind a table's own.
fn keep_point<P: Protocol>() -> u32
    ensures { result ≡ length P.names }
{
    P::catalogue().len() as u32
}

/// Plays a run by a table, cuts the power, and judges what is left.
fn play_to_cut<P: CrashProtocol>(
    protocol: &P,
    workload: &P::Workload,
    session: &mut Session<'_>,
) -> Result<Judgement, AllocError>
    requires new { session.old ≡ start session.old.given }
    requires points { session.old.given.catalogue ≡ with_keep P.names }
    ensures play { IfOk result (IsCutPlay (asks_with (asks_by (by_table (P.table protocol.now workload.now)))
        (cut_by (P.table protocol.now workload.now) (P.cut_table protocol.now workload.now)) (length P.names)) session.new) }
    ensures given { session.new.given ≡ session.old.given }
{
    let state = play_out(protocol, workload, session)?;
    let pending = protocol.pending(workload, &state);
    match ask_cut(protocol.alloc(), session, keep_point::<P>(), pending)? {
        Some(kept) => Ok(protocol.judge_kept(workload, state, &kept)),
        None => Ok(Judgement::Kept),
    }
}

impl<P: CrashProtocol> CrashTarget for ByTable<P> {
    ghost cut = { λ setup workload. cut_by (P.table setup workload) (P.cut_table setup workload) };

    fn catalogue_to_cut() -> &'static [&'static str] {
        P::catalogue_to_cut()
    }

    fn run_to_cut(
        &mut self,
        workload: &P::Workload,
        session: &mut Session<'_>,
    ) -> Result<Judgement, AllocError> {
        play_to_cut(self.protocol(), workload, session)
    }

    ghost lawful_to_cut = { P.lawful_to_cut };
}
