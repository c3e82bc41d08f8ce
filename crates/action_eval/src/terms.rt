//! How the terms of a chain are tried.
ghost use Rattle.std.specs.Option.{ForSome};
ghost use Rattle.std.specs.Prelude.{◌≡◌, ◌+◌, ◌<◌, ◌^◌, ℕ, Bool, length, IfSome};
ghost use Rattle.action_eval.specs.Words.{word};
ghost use Rattle.action_eval.specs.Trial.{tried, is_spent};
ghost use Rattle.action_eval.specs.Answers.{did, task_at};
ghost use Rattle.action_eval.specs.inside.Session.{StartsUnspent};
ghost use Rattle.scenario_values.specs.declared.term.Task.TheVariants.{Off};
ghost use Rattle.scenario_values.specs.declared.term.Term.{Term};

use crate::draws::Draws;
use scenario_values::{FULL_SHARE, Task, Term};

/// The place of the term that acts, if one does, by what is left of the counts. Each term that draws takes its word; the word of a term with share 0
/// isn't looked at.
#[inline(always)]
pub fn try_terms(terms: &[Term], left: &[u32], draws: &mut Draws) -> Option<usize>
    requires rows { length left.now ≡ length terms.now }
    requires room { draws.old.taken + length terms.now < 2 ^ 64 }
    ensures within { IfSome result (λ i. i < length terms.now) }
    ensures place { result ≡ (tried (word draws.old.seed draws.old.stream) (is_spent left.now) 0 terms.now draws.old.taken).place }
    ensures next { draws.new ≡ record draws.old {
      taken = (tried (word draws.old.seed draws.old.stream)
          (is_spent left.now) 0 terms.now draws.old.taken).next;
    } }
{
    let mut unseen = 0;
    for (place, term) in terms.iter().enumerate() {
        let is_spent = left[place] == 0 && term.count.is_some();
        // Terms are passed over at one place: from two the compiler would make a loop within the loop.
        if is_spent || term.share == 0 {
            unseen += u64::from(!is_spent);
            continue;
        }
        draws.skip(unseen);
        unseen = 0;
        if term.share == FULL_SHARE || draws.take() % FULL_SHARE < term.share {
            return Some(place);
        }
    }
    draws.skip(unseen);
    None
}

/// What the term at this place does. Without a place that is nothing.
pub fn task_at(chain: &[Term], place: Option<usize>) -> Option<&Task>
    requires { ForSome place (λ i. i < length chain.now) }
    ensures { did result ≡ task_at chain.now place }
{
    let term = chain.get(place?)?;
    Some(&term.task)
}
