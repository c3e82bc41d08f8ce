//! The target: its setup, its catalogue, and its runs.
ghost use Rattle.std.specs.Prelude.{◌≡◌, map, string_bytes, IfOk};
ghost use Rattle.std.proofs.Common.{rules};
ghost use Rattle.action_eval.specs.Answers.{start, given_of};
ghost use Rattle.target_trait.specs.Play.{IsPlay};
ghost use Rattle.target_trait.specs.declared.judgement.Judgement.TheVariants.{Kept};
ghost use Rattle.commit_target.specs.declared.variant.Variant.TheVariants.{Sound};
ghost use Rattle.commit_target.specs.Words.{label, code_text, point_names};
ghost use Rattle.commit_target.specs.Steps.{asks_of, asks-within, asks-halts};
ghost use Rattle.commit_target.specs.Crash.{cut_of, calls_of};

use crate::judge::{LOST, SPLIT};
use crate::logs::Logs;
use crate::play::{TO_CUT, play, play_out, play_to_cut};
use crate::progress::Progress;
use crate::script::Script;
use crate::texts::call_texts;
use crate::variant::Variant;
use crate::work::Transactions;
use std::alloc::{AllocError, Global};
use std::marker::Model;
use target_trait::{Case, CrashTarget, Judgement, Session, Target};

/// Two-phase commit with presumed abort, as a target. Its setup, which is all that contracts see of it, is the variant.
///
/// A run does the transactions of its workload one after another, with one coordinator and the workload's participants, each with a log of
/// its own. At the end all restart. Each participant then must have ended each transaction as all others did, and as the client was told.
///
/// The logs and the progress are kept from run to run for their memory alone: each run clears them first.
#[derive(Drop)]
pub struct Commit {
    alloc: Global,
    variant: Variant,
    logs: Logs,
    progress: Progress,
}

impl Model for Commit {
    ghost use Rattle.commit_target.specs.declared.variant.Variant.{Variant};

    ghost Value = { Variant };

    ghost view = { λ c. c.variant };
}

impl Commit {
    /// A target of this variant. It takes no memory.
    pub fn new(alloc: Global, variant: Variant) -> Self
        ensures { result ≡ variant }
    {
        Commit {
            alloc,
            variant,
            logs: Logs::new(alloc),
            progress: Progress::new(alloc),
        }
    }

    /// Plays a case up to its power cut, and returns each record that is pending then, in the order in which they were made over all logs: `append
    /// coordinator end 1`, `append participant 2 abort 1`. If the cut is asked, its hit K at `power::keep` stands for the K-th of them. Participants,
    /// and the transaction at the end, are numbered from 1.
    ///
    /// An error means that memory was refused. The target keeps its setup, after an error too.
    pub fn pending_calls(
        &mut self,
        alloc: Global,
        workload: &Transactions,
        case: &Case<'_>,
    ) -> Result<Vec<String>, AllocError>
        ensures calls { IfOk result (λ calls. map string_bytes calls.items ≡ calls_of self.old workload.now
            (given_of case.now.scenario.now point_names case.now.seed case.now.stream case.now.max_hits)) }
        ensures setup { self.new ≡ self.old }
    {
        let mut session = Session::new(
            alloc,
            case.scenario,
            Commit::catalogue(),
            case.seed,
            case.stream,
            case.max_hits,
        )?;
        self.logs.clear_to_note(workload.participants())?;
        let script = Script {
            variant: self.variant,
            workload,
        };
        play_out(script, &mut self.progress, &mut self.logs, &mut session)?;
        // Called for its contract: at most one hit is past the limit.
        let _ = session.trace();
        call_texts(alloc, self.logs.pending())
    }
}

impl Target for Commit {
    type Workload = Transactions;

    ghost names = { point_names };

    ghost label_of = { label };

    ghost code_text = { code_text };

    ghost asks = { asks_of };

    fn label(&self) -> &'static str {
        match self.variant {
            Variant::Sound => "commit sound",
            Variant::LazyPrepare => "commit lazy_prepare",
            Variant::EarlyEnd => "commit early_end",
            Variant::TwoTries => "commit two_tries",
            Variant::EndFirst => "commit end_first",
        }
    }

    fn catalogue() -> &'static [&'static str] {
        &[
            "commit::send_prepare",
            "commit::force_prepare",
            "commit::send_vote",
            "commit::force_commit",
            "commit::send_outcome",
            "commit::force_outcome",
            "commit::send_ack",
        ]
    }

    fn code_name(code: u32) -> &'static str {
        if code == SPLIT {
            "split"
        } else if code == LOST {
            "lost"
        } else {
            "phantom"
        }
    }

    fn twin(&self) -> Result<Self, AllocError> {
        Ok(Commit::new(self.alloc, self.variant))
    }

    fn run(
        &mut self,
        workload: &Transactions,
        session: &mut Session<'_>,
    ) -> Result<Judgement, AllocError>
        requires new { session.old ≡ start session.old.given }
        requires points { session.old.given.catalogue ≡ point_names }
        ensures play { IfOk result (IsPlay (asks_of self.old workload.now) session.new) }
        ensures given { session.new.given ≡ session.old.given }
        ensures setup { self.new ≡ self.old }
        // Presumed abort is kept, whatever fails.
        ensures sound { self.old ≡ Sound → IfOk result (λ judgement. judgement ≡ Kept) }
    {
        let script = Script {
            variant: self.variant,
            workload,
        };
        play(script, &mut self.progress, &mut self.logs, session)
    }

    ghost within = { asks-within };

    ghost halts = { asks-halts };

    ghost lawful = { Prim.search rules };
}

impl CrashTarget for Commit {
    ghost cut = { cut_of };

    fn catalogue_to_cut() -> &'static [&'static str] {
        TO_CUT
    }

    fn run_to_cut(
        &mut self,
        workload: &Transactions,
        session: &mut Session<'_>,
    ) -> Result<Judgement, AllocError> {
        let script = Script {
            variant: self.variant,
            workload,
        };
        play_to_cut(
            self.alloc,
            script,
            &mut self.progress,
            &mut self.logs,
            session,
        )
    }

    ghost lawful_to_cut = { Prim.search rules };
}
