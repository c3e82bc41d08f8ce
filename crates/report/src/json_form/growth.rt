//! The members with points and their hits, and with how a campaign grew.
ghost use Rattle.std.specs.Prelude.{◌≡◌, ◌++◌, length, map, codes, Some, IfSome, OnOk};
ghost use Rattle.json.specs.Tree.{json_tokens};
ghost use Rattle.report.specs.json_form.Document.{point_value, point_values, cause_value, growth_value};
ghost use Rattle.report.specs.json_form.Values.{whole, list_of};
ghost use Rattle.report.specs.json_form.inside.Tokens.{member_tokens, nonzero_tokens, all_tokens};

use crate::json_form::members::{
    begin_list, write_nonzero, write_number, write_scenario, write_text, write_whole,
};
use crate::{Cause, Growth, Names};
use json::{Pretty, Token};
use std::alloc::{AllocError, Global};

fn write_point(out: &mut Pretty, point: &str, hits: u32) -> Result<(), AllocError>
    ensures { OnOk result (out.new ≡ out.old ++ json_tokens (point_value point.now hits)) }
{
    out.token(Token::BeginObject)?;
    write_text(out, "point", point)?;
    write_number(out, "hits", u64::from(hits))?;
    out.token(Token::EndObject)
}

fn write_each_point<N: Names>(out: &mut Pretty, names: &N, counts: &[u32]) -> Result<(), AllocError>
    requires { length counts.now ≡ length (N.points names.now) }
    ensures { OnOk result (out.new ≡ out.old ++ all_tokens (point_values (N.points names.now) counts.now)) }
{
    for (number, hits) in counts.iter().enumerate() {
        write_point(out, names.point(number), *hits)?;
    }
    Ok(())
}

/// A member with each point and its hits.
pub fn write_points<N: Names>(
    out: &mut Pretty,
    name: &str,
    names: &N,
    counts: &[u32],
) -> Result<(), AllocError>
    requires { length counts.now ≡ length (N.points names.now) }
    ensures { OnOk result (out.new ≡ out.old ++ member_tokens name.now (list_of (point_values (N.points names.now) counts.now))) }
{
    begin_list(out, name)?;
    write_each_point(out, names, counts)?;
    out.token(Token::EndArray)
}

fn write_each_level(out: &mut Pretty, levels: &[u32]) -> Result<(), AllocError>
    ensures { OnOk result (out.new ≡ out.old ++ all_tokens (map whole levels.now)) }
{
    for plans in levels {
        write_whole(out, u64::from(*plans))?;
    }
    Ok(())
}

fn write_levels(out: &mut Pretty, levels: &[u32]) -> Result<(), AllocError>
    ensures { OnOk result (out.new ≡ out.old ++ member_tokens (codes "levels") (list_of (map whole levels.now))) }
{
    begin_list(out, "levels")?;
    write_each_level(out, levels)?;
    out.token(Token::EndArray)
}

fn write_cause<N: Names>(
    alloc: Global,
    out: &mut Pretty,
    names: &N,
    cause: &Cause,
) -> Result<(), AllocError>
    ensures { OnOk result (out.new ≡ out.old ++ json_tokens (cause_value (N.code_text names.now) cause.now)) }
{
    out.token(Token::BeginObject)?;
    write_number(out, "number", u64::from(cause.number))?;
    write_text(out, "code", names.code(cause.code))?;
    write_scenario(alloc, out, "scenario", &cause.scenario)?;
    out.token(Token::EndObject)
}

fn write_each_cause<N: Names>(
    alloc: Global,
    out: &mut Pretty,
    names: &N,
    causes: &[Cause],
) -> Result<(), AllocError>
    ensures { OnOk result (out.new ≡ out.old ++ all_tokens (map (cause_value (N.code_text names.now)) causes.now)) }
{
    for cause in causes {
        write_cause(alloc, out, names, cause)?;
    }
    Ok(())
}

fn write_causes<N: Names>(
    alloc: Global,
    out: &mut Pretty,
    names: &N,
    causes: &[Cause],
) -> Result<(), AllocError>
    ensures { OnOk result (out.new ≡ out.old
        ++ member_tokens (codes "causes") (list_of (map (cause_value (N.code_text names.now)) causes.now))) }
{
    begin_list(out, "causes")?;
    write_each_cause(alloc, out, names, causes)?;
    out.token(Token::EndArray)
}

/// The sizes of the plans that grew.
fn write_sizes(out: &mut Pretty, growth: &Growth<'_>) -> Result<(), AllocError>
    ensures { OnOk result (out.new ≡ out.old
        ++ member_tokens (codes "depth") (whole growth.now.depth)
        ++ member_tokens (codes "levels") (list_of (map whole growth.now.levels))
        ++ member_tokens (codes "onward") (whole growth.now.onward)
        ++ member_tokens (codes "beyond") (whole growth.now.beyond)
        ++ nonzero_tokens (codes "unseen") growth.now.unseen) }
{
    write_number(out, "depth", u64::from(growth.depth))?;
    write_levels(out, growth.levels)?;
    write_number(out, "onward", u64::from(growth.onward))?;
    write_number(out, "beyond", growth.beyond)?;
    write_nonzero(out, "unseen", u64::from(growth.unseen))
}

fn write_grown<N: Names>(
    alloc: Global,
    out: &mut Pretty,
    names: &N,
    growth: &Growth<'_>,
) -> Result<(), AllocError>
    requires { length growth.now.reached ≡ length (N.points names.now) }
    ensures { OnOk result (out.new ≡ out.old ++ json_tokens (growth_value (N.points names.now) (N.code_text names.now) (Some growth.now))) }
{
    out.token(Token::BeginObject)?;
    write_sizes(out, growth)?;
    write_points(out, "reached", names, growth.reached)?;
    write_causes(alloc, out, names, &growth.causes)?;
    out.token(Token::EndObject)
}

/// How the campaign grew, if it has a depth.
pub fn write_growth<N: Names>(
    alloc: Global,
    out: &mut Pretty,
    names: &N,
    growth: &Option<Growth<'_>>,
) -> Result<(), AllocError>
    requires { IfSome growth.now (λ growth. length growth.reached ≡ length (N.points names.now)) }
    ensures { OnOk result (out.new ≡ out.old ++ member_tokens (codes "growth") (growth_value (N.points names.now) (N.code_text names.now) growth.now)) }
{
    out.token(Token::Key("growth"))?;
    match growth {
        None => out.token(Token::Null),
        Some(growth) => write_grown(alloc, out, names, growth),
    }
}
