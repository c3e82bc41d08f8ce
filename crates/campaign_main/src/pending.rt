//! Targets that describe the writes that are pending at the end of a run.
ghost use Rattle.std.specs.Prelude.{◌≡◌, ℕ, List, map, string_bytes, IfOk};
ghost use Rattle.action_eval.specs.Answers.{Given, given_of};
ghost use Rattle.file_replace.specs.Crash.{calls_of as replace_calls};
ghost use Rattle.maildir_target.specs.Crash.{calls_of as maildir_calls};
ghost use Rattle.commit_target.specs.Crash.{calls_of as commit_calls};

use commit_target::{Commit, Transactions};
use file_replace::{Replace, Replacements};
use maildir_target::{Maildir, Messages};
use std::alloc::{AllocError, Global};
use target_trait::{Case, CrashTarget};

/// A target that describes the writes that are pending at the end of a run.
pub trait TellsWrites: CrashTarget {
    // What these writes did, for a setup, a workload and what the run is given.
    ghost calls: { Self → Self.Workload → Given → List (List ℕ) };

    /// Runs a case up to its power cut, and returns what each write did that is pending then, in the order in which they were made. When the cut is
    /// made, its hit K at `power::keep` stands for the K-th of them.
    ///
    /// An error means that memory was refused. The target keeps its setup, even after an error.
    fn pending_calls(
        &mut self,
        alloc: Global,
        workload: &Self::Workload,
        case: &Case<'_>,
    ) -> Result<Vec<String>, AllocError>
        ensures calls { IfOk result (λ told. map string_bytes told.items ≡ calls self.old workload.now
            (given_of case.now.scenario.now Self.names case.now.seed case.now.stream case.now.max_hits)) }
        ensures setup { self.new ≡ self.old };
}

impl TellsWrites for Replace {
    ghost calls = { replace_calls };

    fn pending_calls(
        &mut self,
        alloc: Global,
        workload: &Replacements,
        case: &Case<'_>,
    ) -> Result<Vec<String>, AllocError> {
        Replace::pending_calls(self, alloc, workload, case)
    }
}

impl TellsWrites for Maildir {
    ghost calls = { maildir_calls };

    fn pending_calls(
        &mut self,
        alloc: Global,
        messages: &Messages,
        case: &Case<'_>,
    ) -> Result<Vec<String>, AllocError> {
        Maildir::pending_calls(self, alloc, messages, case)
    }
}

impl TellsWrites for Commit {
    ghost calls = { commit_calls };

    fn pending_calls(
        &mut self,
        alloc: Global,
        workload: &Transactions,
        case: &Case<'_>,
    ) -> Result<Vec<String>, AllocError> {
        Commit::pending_calls(self, alloc, workload, case)
    }
}
