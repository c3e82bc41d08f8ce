//! How many verdicts there are of each kind.
ghost use Rattle.std.specs.Prelude.{◌≡◌, count_by};
ghost use Rattle.target_trait.specs.Verdicts.{is_pass, is_fail, is_unresolved};

use target_trait::Verdict;

/// How many of these verdicts pass.
pub fn passing(verdicts: &[Verdict]) -> usize
    ensures { result ≡ count_by is_pass verdicts.now }
{
    verdicts
        .iter()
        .filter(|verdict| matches!(verdict, Verdict::Pass))
        .count()
}

/// How many of these verdicts are failures, with any code.
pub fn failures(verdicts: &[Verdict]) -> usize
    ensures { result ≡ count_by is_fail verdicts.now }
{
    verdicts
        .iter()
        .filter(|verdict| matches!(verdict, Verdict::Fail(_)))
        .count()
}

/// How many of these verdicts are unresolved.
pub fn unresolved(verdicts: &[Verdict]) -> usize
    ensures { result ≡ count_by is_unresolved verdicts.now }
{
    verdicts
        .iter()
        .filter(|verdict| matches!(verdict, Verdict::Unresolved))
        .count()
}
