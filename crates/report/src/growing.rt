//! The lines of a report that say how a campaign grew.
ghost use Rattle.std.specs.Prelude.{◌≡◌, ◌++◌, ◌∷◌, [], length, map, string_bytes, codes, IfSome, OnOk};
ghost use Rattle.std.specs.Fmt.{decimal};
ghost use Rattle.std.specs.List.{enumerate_from};
ghost use Rattle.report.specs.ReportText.{level_line, nonzero_lines, growth_lines, cause_line, causes_lines, ended, text_of};

use crate::facts::{Cause, Growth};
use crate::lines::{write_nonzero, write_points, write_scenario};
use crate::names::Names;
use std::alloc::{AllocError, Global};
use std::fmt::Write;

fn write_level(out: &mut String, level: usize, plans: u32) -> Result<(), AllocError>
    ensures { OnOk result (string_bytes out.new ≡ string_bytes out.old ++ ended (level_line (level, plans))) }
{
    writeln!(out, "level {level} {plans}")
}

fn write_levels(out: &mut String, levels: &[u32]) -> Result<(), AllocError>
    ensures { OnOk result (string_bytes out.new ≡ string_bytes out.old ++ text_of (map level_line (enumerate_from 0 levels.now))) }
{
    for (level, plans) in levels.iter().enumerate() {
        write_level(out, level, *plans)?;
    }
    Ok(())
}

/// Appends the lines `depth`, `level`, `onward` and `beyond`; and `unseen`, unless that is 0.
fn write_sizes(out: &mut String, growth: &Growth<'_>) -> Result<(), AllocError>
    ensures { OnOk result (string_bytes out.new ≡ string_bytes out.old ++ text_of ((codes "depth " ++ decimal growth.now.depth) ∷ []
        ++ map level_line (enumerate_from 0 growth.now.levels)
        ++ (codes "onward " ++ decimal growth.now.onward) ∷ (codes "beyond " ++ decimal growth.now.beyond) ∷ []
        ++ nonzero_lines (codes "unseen") growth.now.unseen)) }
{
    let depth = growth.depth;
    let onward = growth.onward;
    let beyond = growth.beyond;
    writeln!(out, "depth {depth}")?;
    write_levels(out, growth.levels)?;
    writeln!(out, "onward {onward}\nbeyond {beyond}")?;
    write_nonzero(out, "unseen", growth.unseen)
}

/// Appends nothing if the campaign has no depth.
pub(crate) fn write_growth<N: Names>(
    out: &mut String,
    names: &N,
    growth: &Option<Growth<'_>>,
) -> Result<(), AllocError>
    requires { IfSome growth.now (λ growth. length growth.reached ≡ length (N.points names.now)) }
    ensures { OnOk result (string_bytes out.new ≡ string_bytes out.old ++ text_of (growth_lines (N.points names.now) growth.now)) }
{
    match growth {
        None => Ok(()),
        Some(growth) => {
            write_sizes(out, growth)?;
            write_points(out, "reached", names, growth.reached)
        }
    }
}

/// Appends the line of a cause: its number, its code and its scenario.
fn write_cause<N: Names>(
    alloc: Global,
    out: &mut String,
    names: &N,
    cause: &Cause,
) -> Result<(), AllocError>
    ensures { OnOk result (string_bytes out.new ≡ string_bytes out.old ++ ended (cause_line (N.code_text names.now) cause.now)) }
{
    let number = cause.number;
    let name = names.code(cause.code);
    write!(out, "cause {number} {name} ")?;
    write_scenario(alloc, out, &cause.scenario)?;
    out.push_str("\n")
}

fn write_each_cause<N: Names>(
    alloc: Global,
    out: &mut String,
    names: &N,
    causes: &[Cause],
) -> Result<(), AllocError>
    ensures { OnOk result (string_bytes out.new ≡ string_bytes out.old ++ text_of (map (cause_line (N.code_text names.now)) causes.now)) }
{
    for cause in causes {
        write_cause(alloc, out, names, cause)?;
    }
    Ok(())
}

/// Appends nothing if the campaign has no depth.
pub(crate) fn write_causes<N: Names>(
    alloc: Global,
    out: &mut String,
    names: &N,
    growth: &Option<Growth<'_>>,
) -> Result<(), AllocError>
    ensures { OnOk result (string_bytes out.new ≡ string_bytes out.old ++ text_of (causes_lines (N.code_text names.now) growth.now)) }
{
    match growth {
        None => Ok(()),
        Some(growth) => {
            let count = growth.causes.len();
            writeln!(out, "causes {count}")?;
            write_each_cause(alloc, out, names, &growth.causes)
        }
    }
}
