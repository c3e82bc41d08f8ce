//! The target: its setup, its catalogue, and its runs.
ghost use Rattle.std.specs.Prelude.{◌≡◌, map, string_bytes, IfOk};
ghost use Rattle.std.proofs.Common.{rules};
ghost use Rattle.action_eval.specs.Answers.{start, given_of};
ghost use Rattle.target_trait.specs.Play.{IsPlay};
ghost use Rattle.target_trait.specs.declared.judgement.Judgement.TheVariants.{Kept};
ghost use Rattle.maildir_target.specs.declared.variant.Variant.TheVariants.{Sound};
ghost use Rattle.maildir_target.specs.Words.{label, code_text, point_names};
ghost use Rattle.maildir_target.specs.Steps.{asks_of};
ghost use Rattle.maildir_target.specs.Crash.{cut_of, calls_of};
ghost use Rattle.maildir_target.specs.Lawful.{asks-within, asks-halts};

use crate::judge::TORN;
use crate::mailbox::Mailbox;
use crate::messages::Messages;
use crate::play::{TO_CUT, play, play_out, play_to_cut};
use crate::texts::call_texts;
use crate::variant::Variant;
use sim_device::{CrashDevice, FileDevice};
use std::alloc::{AllocError, Global};
use std::marker::Model;
use target_trait::{Case, CrashTarget, Judgement, Session, Target};

/// Maildir delivery, as a target. Its setup, which is all that contracts see of it, is the variant.
///
/// A run delivers the messages of its workload one after another, as the maildir manual page describes it: each is written to a file under `tmp/`,
/// chunk by chunk, and the file is then linked under `new/`. A message has two attempts at most. At the end the power is cut. Then only whole
/// messages may stand under `new/`, and no acknowledged one may be missing.
///
/// The mailboxes are kept from run to run for their memory alone: each run clears its own first.
#[derive(Drop)]
pub struct Maildir {
    alloc: Global,
    variant: Variant,
    mailbox: Mailbox<FileDevice>,
    crash_mailbox: Mailbox<CrashDevice>,
}

impl Model for Maildir {
    ghost use Rattle.maildir_target.specs.declared.variant.Variant.{Variant};

    ghost Value = { Variant };

    ghost view = { λ m. m.variant };
}

impl Maildir {
    /// A target of this variant. It takes no memory.
    pub fn new(alloc: Global, variant: Variant) -> Self
        ensures { result ≡ variant }
    {
        Maildir {
            alloc,
            variant,
            mailbox: Mailbox {
                device: FileDevice::new(alloc),
                acknowledged: Vec::new(alloc),
            },
            crash_mailbox: Mailbox {
                device: CrashDevice::new(alloc),
                acknowledged: Vec::new(alloc),
            },
        }
    }

    /// Plays a case up to its power cut, and returns what each write did that is pending then, in the order in which they were made: `create
    /// tmp/1.1`, `append tmp/1.1 2`, `link tmp/1.1 new/1.1`, `unlink tmp/1.1`. If the cut is asked, its hit K at `power::keep` stands for the K-th of
    /// them. A name has the numbers of the message and of the attempt, both from 1. The number behind an append is the place of its first byte in the
    /// file, counted from 0.
    ///
    /// An error means that memory was refused. The target keeps its setup, after an error too.
    pub fn pending_calls(
        &mut self,
        alloc: Global,
        messages: &Messages,
        case: &Case<'_>,
    ) -> Result<Vec<String>, AllocError>
        ensures calls { IfOk result (λ calls. map string_bytes calls.items ≡ calls_of self.old messages.now
            (given_of case.now.scenario.now point_names case.now.seed case.now.stream case.now.max_hits)) }
        ensures setup { self.new ≡ self.old }
    {
        let mut session = Session::new(
            alloc,
            case.scenario,
            Maildir::catalogue(),
            case.seed,
            case.stream,
            case.max_hits,
        )?;
        play_out(
            self.variant,
            messages,
            &mut self.crash_mailbox,
            &mut session,
        )?;
        // Called for its contract: at most one hit is past the limit.
        let _ = session.trace();
        call_texts(alloc, self.crash_mailbox.device.pending())
    }
}

impl Target for Maildir {
    type Workload = Messages;

    ghost names = { point_names };

    ghost label_of = { label };

    ghost code_text = { code_text };

    ghost asks = { asks_of };

    fn label(&self) -> &'static str {
        match self.variant {
            Variant::Sound => "maildir sound",
            Variant::LinkFirst => "maildir link_first",
            Variant::IgnoreWrite => "maildir ignore_write",
            Variant::AppendTmp => "maildir append_tmp",
            Variant::DeliverInNew => "maildir deliver_in_new",
        }
    }

    fn catalogue() -> &'static [&'static str] {
        &[
            "maildir::stat",
            "maildir::create",
            "maildir::write",
            "maildir::sync",
            "maildir::link",
            "maildir::unlink",
            "maildir::sync_dir",
        ]
    }

    fn code_name(code: u32) -> &'static str {
        if code == TORN { "torn" } else { "lost" }
    }

    fn twin(&self) -> Result<Self, AllocError> {
        Ok(Maildir::new(self.alloc, self.variant))
    }

    fn run(
        &mut self,
        messages: &Messages,
        session: &mut Session<'_>,
    ) -> Result<Judgement, AllocError>
        requires new { session.old ≡ start session.old.given }
        requires points { session.old.given.catalogue ≡ point_names }
        ensures play { IfOk result (IsPlay (asks_of self.old messages.now) session.new) }
        ensures given { session.new.given ≡ session.old.given }
        ensures setup { self.new ≡ self.old }
        // A sound delivery is kept, whatever fails.
        ensures sound { self.old ≡ Sound → IfOk result (λ judgement. judgement ≡ Kept) }
    {
        play(self.variant, messages, &mut self.mailbox, session)
    }

    ghost within = { asks-within };

    ghost halts = { asks-halts };

    ghost lawful = { Prim.search rules };
}

impl CrashTarget for Maildir {
    ghost cut = { cut_of };

    fn catalogue_to_cut() -> &'static [&'static str] {
        TO_CUT
    }

    fn run_to_cut(
        &mut self,
        messages: &Messages,
        session: &mut Session<'_>,
    ) -> Result<Judgement, AllocError> {
        play_to_cut(
            self.alloc,
            self.variant,
            messages,
            &mut self.crash_mailbox,
            session,
        )
    }

    ghost lawful_to_cut = { Prim.search rules };
}
