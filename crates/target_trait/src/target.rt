//! What is run under faults.
ghost use Rattle.std.specs.Prelude.{◌≡◌, ℕ, Bool, false, List, [], ◌∷◌, ◌++◌, length, IfOk};
ghost use Rattle.action_eval.specs.Answers.{Reply, Halt, start, texts};
ghost use Rattle.action_eval.specs.Catalogue.{IsCatalogue};
ghost use Rattle.target_trait.specs.Play.{Move, IsWhole, IsWithin, MayFollowHalt};

use crate::judgement::Judgement;
use action_eval::Session;
use std::alloc::AllocError;

/// A component that is run under plans of faults.
///
/// A run asks the session at point after point whether something fails there, and does its steps on a simulated device by the answers. At its end it
/// judges, as after a power cut, whether the component kept its promises.
///
/// # The setup
///
/// Contracts see a target as its setup: everything on which its behaviour depends, such as the variant of an algorithm. A type that holds more than
/// that, such as a device that is cleared for each run, a counter or the allocator, needs an `impl Model` whose `Value` is the setup. Then `run`
/// leaves the setup as it was, and a twin has the same setup, whatever happens to the rest.
///
/// # To implement it, in this order
///
/// 1. `names`, `label_of`, `code_text`, with `catalogue`, `label`, `code_name`: constants. A text is a list of bytes, `codes "..."`.
/// 2. `asks`, in a file of specs: what comes next, for a setup, a workload and the whole list of the answers so far. That is `Ask p` for the point
///    with number p in the catalogue, or `Done judgement`. Define it for every list, and by the list as a whole, as a reader of the component's
///    documentation would: never as the loop of `run`.
/// 3. `run`, first of all as code with tests.
/// 4. The proof of `run`: each place in the code stands for a state of the machine (`specs/Machine`). Its loops and helpers keep that the session has
///    come to that state (`Reached`), that nothing has stopped it, and what the device holds after the answers so far. `reached_more` of this crate's
///    `proofs/Machine` adds a hit, `reached_on` many; the clauses `told` and `goes_on` of `Session::hit` say what the answers are then. At the end
///    the state has to ask nothing more, with what is returned. Runs of a few questions in a row are proved without a proof file.
/// 5. The laws below the last `fn`: `within` and `halts` by `within_by` and `halts_by` of `specs/MachineLaws`, `lawful` by computing
///    (`Prim.search rules`, with `rules` of `Rattle.std.proofs.Common`).
///
/// There is less to prove, and a run is slower, if a component is given by the table of its steps alone: `Protocol`.
///
/// Workers run a target if it is `Send` and its workload is `Sync`. The trait itself doesn't require that, so that any other target can still be run
/// on one thread.
pub trait Target: Sized + Drop {
    /// What a run works on.
    type Workload;

    // The names of the points.
    ghost names: { List (List ℕ) };

    // The setup's label.
    ghost label_of: { Self → List ℕ };

    // The name of a code.
    ghost code_text: { ℕ → List ℕ };

    // What comes next, for a setup and a workload, after these answers.
    ghost asks: { Self → Self.Workload → List Reply → Move };

    // Whether the power cut at the end of a run is part of what is asked, after a halt too. Your own target leaves this out: `WithCut` adds the cut
    // to it.
    ghost has_cut: { Bool } = { false };

    /// A text for the setup, which stands in reports.
    fn label(&self) -> &'static str
        ensures { result.now ≡ label_of self.now };

    /// The names of the points, in the order of their numbers.
    fn catalogue() -> &'static [&'static str]
        ensures { texts result.now ≡ names };

    /// The name of the code of a broken promise, for every number.
    fn code_name(code: u32) -> &'static str
        ensures { result.now ≡ code_text code };

    /// Another target with the same setup. If it holds memory, it keeps and uses the allocator that it was made with.
    fn twin(&self) -> Result<Self, AllocError>
        ensures { IfOk result (λ twin. twin ≡ self.now) };

    /// One run, over a new session of this catalogue. It hits just what `asks` says, up to a `Done`, and returns the judgement there.
    ///
    /// An error means that memory was refused. The setup stays as it was, after an error too, and the target may be run again.
    fn run(
        &mut self,
        workload: &Self::Workload,
        session: &mut Session<'_>,
    ) -> Result<Judgement, AllocError>
        requires new { session.old ≡ start session.old.given }
        requires points { session.old.given.catalogue ≡ names }
        ensures play { IfOk result (IsWhole has_cut (asks self.old workload.now) session.new) }
        ensures given { session.new.given ≡ session.old.given }
        ensures setup { self.new ≡ self.old };

    // Each question is of a point of the catalogue.
    ghost within: { (setup : Self) (workload : Self.Workload) (answers : List Reply)
        → IsWithin (length names) (asks setup workload answers) };

    // No question follows a halt, but those of a power cut.
    ghost halts: { (setup : Self) (workload : Self.Workload) (before after : List Reply)
        → MayFollowHalt has_cut (asks setup workload (before ++ Halt ∷ after)) };

    // The catalogue has 1 to 64 distinct lawful names of at most 200 bytes.
    ghost lawful: { IsCatalogue names };
}
