//! Plans that grew, by their faults.
ghost use Rattle.std.specs.Prelude.{◌≡◌, ◌++◌, string_bytes, OnOk};
ghost use Rattle.report.specs.json_form.About.{argument_text, fault_text, faults_text, kind_text, separator};

use action_eval::{Argument, Kind, Rig};
use std::alloc::AllocError;
use std::fmt::Write;

/// Appends the text of a return in parentheses, if it has one.
fn write_argument(out: &mut String, argument: &Argument) -> Result<(), AllocError>
    ensures { OnOk result (string_bytes out.new ≡ string_bytes out.old ++ argument_text argument.now) }
{
    let Some(text) = argument.as_str() else {
        return Ok(());
    };
    out.push_str("(")?;
    out.push_str(text)?;
    out.push_str(")")
}

/// Appends what is done at a hit, as a scenario spells it: `1*return`, `return` (from then on) or `1*panic`.
fn write_kind(out: &mut String, kind: &Kind) -> Result<(), AllocError>
    ensures { OnOk result (string_bytes out.new ≡ string_bytes out.old ++ kind_text kind.now) }
{
    match kind {
        Kind::OnceReturn(argument) => {
            out.push_str("1*return")?;
            write_argument(out, argument)
        }
        Kind::OnwardReturn(argument) => {
            out.push_str("return")?;
            write_argument(out, argument)
        }
        Kind::OncePanic => out.push_str("1*panic"),
    }
}

/// Appends a fault: the number of its point, the number of the hit, and what is done there.
fn write_fault(out: &mut String, fault: &Rig) -> Result<(), AllocError>
    ensures { OnOk result (string_bytes out.new ≡ string_bytes out.old ++ fault_text fault.now) }
{
    let point = fault.site.point;
    let hit = fault.site.hit;
    write!(out, "{point} {hit} ")?;
    write_kind(out, &fault.kind)
}

/// Appends what stands between two faults, if there are earlier ones.
fn write_separator(out: &mut String, earlier: &[Rig]) -> Result<(), AllocError>
    ensures { OnOk result (string_bytes out.new ≡ string_bytes out.old ++ separator earlier.now) }
{
    if earlier.is_empty() {
        return Ok(());
    }
    out.push_str("; ")
}

/// Appends a plan's faults in the order in which they act. In the plan the last one to act stands first.
pub fn write_faults(out: &mut String, faults: &[Rig]) -> Result<(), AllocError>
    ensures { OnOk result (string_bytes out.new ≡ string_bytes out.old ++ faults_text faults.now) }
{
    let mut left = faults.len();
    while left > 0 {
        write_separator(out, &faults[left..])?;
        left -= 1;
        write_fault(out, &faults[left])?;
    }
    Ok(())
}
