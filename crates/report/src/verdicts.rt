//! Verdicts in words.
ghost use Rattle.std.specs.Prelude.{◌≡◌, ◌++◌, string_bytes, OnOk, OnErr};
ghost use Rattle.std.specs.Io.{StartsWith};
ghost use Rattle.target_trait.specs.Verdicts.{is_fail};
ghost use Rattle.report.specs.ReportText.{verdict_text};

use crate::names::Names;
use std::alloc::AllocError;
use target_trait::Verdict;

/// Whether a verdict is a failure, with whatever code.
pub fn is_fail(verdict: Verdict) -> bool
    ensures { result ≡ is_fail verdict }
{
    match verdict {
        Verdict::Fail(_) => true,
        Verdict::Pass | Verdict::Unresolved => false,
    }
}

/// Appends a verdict as reports say it: `pass`, `unresolved`, or `fail` and the name of the code.
///
/// An error means that memory was refused. Then some of the bytes may have been appended.
pub fn write_verdict<N: Names>(
    out: &mut String,
    names: &N,
    verdict: Verdict,
) -> Result<(), AllocError>
    ensures text { OnOk result (string_bytes out.new ≡ string_bytes out.old ++ verdict_text (N.code_text names.now) verdict) }
    ensures kept { OnErr result (StartsWith (string_bytes out.new) (string_bytes out.old)) }
{
    match verdict {
        Verdict::Pass => out.push_str("pass"),
        Verdict::Unresolved => out.push_str("unresolved"),
        Verdict::Fail(code) => {
            out.push_str("fail ")?;
            out.push_str(names.code(code))
        }
    }
}
