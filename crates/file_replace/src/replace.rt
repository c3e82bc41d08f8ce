//! The target: its setup, its catalogue, and its runs.
ghost use Rattle.std.specs.Prelude.{◌≡◌, map, string_bytes, IfOk};
ghost use Rattle.std.proofs.Common.{rules};
ghost use Rattle.action_eval.specs.Answers.{start, given_of};
ghost use Rattle.target_trait.specs.Play.{IsPlay};
ghost use Rattle.target_trait.specs.declared.judgement.Judgement.TheVariants.{Kept};
ghost use Rattle.file_replace.specs.declared.variant.Variant.TheVariants.{Sound};
ghost use Rattle.file_replace.specs.Words.{label, code_text, point_names};
ghost use Rattle.file_replace.specs.Steps.{asks_of};
ghost use Rattle.file_replace.specs.Crash.{cut_of, calls_of};
ghost use Rattle.file_replace.specs.Lawful.{asks-within, asks-halts};

use crate::judge::TORN;
use crate::play::{TO_CUT, play, play_out, play_to_cut};
use crate::texts::call_texts;
use crate::variant::Variant;
use crate::work::Replacements;
use sim_device::{CrashDevice, FileDevice};
use std::alloc::{AllocError, Global};
use std::marker::Model;
use target_trait::{Case, CrashTarget, Judgement, Session, Target};

/// Atomic replacement of a file, as a target. Its setup, which is all that contracts see of it, is the variant.
///
/// A run makes `target` with the old contents, and then does the replacements of its workload one after another: each writes the new
/// contents to `tmp`, chunk by chunk, and renames that to `target`. At the end the power is cut, and `target` must hold contents that
/// are allowed.
///
/// The device is kept from run to run for its memory alone: each run clears it first.
#[derive(Drop)]
pub struct Replace {
    alloc: Global,
    variant: Variant,
    device: FileDevice,
    crash_device: CrashDevice,
}

impl Model for Replace {
    ghost use Rattle.file_replace.specs.declared.variant.Variant.{Variant};

    ghost Value = { Variant };

    ghost view = { λ r. r.variant };
}

impl Replace {
    /// A target of this variant.
    pub fn new(alloc: Global, variant: Variant) -> Self
        ensures { result ≡ variant }
    {
        Replace {
            alloc,
            variant,
            device: FileDevice::new(alloc),
            crash_device: CrashDevice::new(alloc),
        }
    }

    /// Plays a case up to its power cut, and returns what each write did that is pending then, in the order in which they were made: `create tmp`,
    /// `append tmp 2`, `rename tmp target`, `unlink tmp`. If the cut is asked, its hit K at `power::keep` stands for the K-th of them. The number
    /// behind an append is the place of its first byte in the file, counted from 0.
    ///
    /// An error means that memory was refused. The target keeps its setup, after an error too.
    pub fn pending_calls(
        &mut self,
        alloc: Global,
        workload: &Replacements,
        case: &Case<'_>,
    ) -> Result<Vec<String>, AllocError>
        ensures calls { IfOk result (λ calls. map string_bytes calls.items ≡ calls_of self.old workload.now
            (given_of case.now.scenario.now point_names case.now.seed case.now.stream case.now.max_hits)) }
        ensures setup { self.new ≡ self.old }
    {
        let mut session = Session::new(
            alloc,
            case.scenario,
            Replace::catalogue(),
            case.seed,
            case.stream,
            case.max_hits,
        )?;
        play_out(self.variant, workload, &mut self.crash_device, &mut session)?;
        // Called for its contract: at most one hit is past the limit.
        let _ = session.trace();
        call_texts(alloc, self.crash_device.pending())
    }
}

impl Target for Replace {
    type Workload = Replacements;

    ghost names = { point_names };

    ghost label_of = { label };

    ghost code_text = { code_text };

    ghost asks = { asks_of };

    fn label(&self) -> &'static str {
        match self.variant {
            Variant::Sound => "replace sound",
            Variant::LateSync => "replace late_sync",
            Variant::IgnoreSync => "replace ignore_sync",
            Variant::RetryWrite => "replace retry_write",
            Variant::RenameFirst => "replace rename_first",
            Variant::InPlace => "replace in_place",
        }
    }

    fn catalogue() -> &'static [&'static str] {
        &[
            "replace::clear",
            "replace::create",
            "replace::write",
            "replace::sync",
            "replace::rename",
            "replace::sync_dir",
            "replace::unlink",
        ]
    }

    fn code_name(code: u32) -> &'static str {
        if code == TORN { "torn" } else { "stale" }
    }

    fn twin(&self) -> Result<Self, AllocError> {
        Ok(Replace::new(self.alloc, self.variant))
    }

    fn run(
        &mut self,
        workload: &Replacements,
        session: &mut Session<'_>,
    ) -> Result<Judgement, AllocError>
        requires new { session.old ≡ start session.old.given }
        requires points { session.old.given.catalogue ≡ point_names }
        ensures play { IfOk result (IsPlay (asks_of self.old workload.now) session.new) }
        ensures given { session.new.given ≡ session.old.given }
        ensures setup { self.new ≡ self.old }
        // A sound replacement is kept, whatever fails.
        ensures sound { self.old ≡ Sound → IfOk result (λ judgement. judgement ≡ Kept) }
    {
        play(self.variant, workload, &mut self.device, session)
    }

    ghost within = { asks-within };

    ghost halts = { asks-halts };

    ghost lawful = { Prim.search rules };
}

impl CrashTarget for Replace {
    ghost cut = { cut_of };

    fn catalogue_to_cut() -> &'static [&'static str] {
        TO_CUT
    }

    fn run_to_cut(
        &mut self,
        workload: &Replacements,
        session: &mut Session<'_>,
    ) -> Result<Judgement, AllocError> {
        play_to_cut(
            self.alloc,
            self.variant,
            workload,
            &mut self.crash_device,
            session,
        )
    }

    ghost lawful_to_cut = { Prim.search rules };
}
