//! The runs in a document, hit by hit.
ghost use Rattle.std.specs.Prelude.{◌≡◌, ◌++◌, [], None, codes, map, OnOk};
ghost use Rattle.json.specs.Json.{string};
ghost use Rattle.json.specs.Tree.{json_tokens};
ghost use Rattle.report.specs.json_form.Runs.{or_null, run_value, shown_value};
ghost use Rattle.report.specs.json_form.Values.{list_of};
ghost use Rattle.report.specs.json_form.inside.Tokens.{all_tokens, member_tokens, nonzero_tokens, parent_tokens};

use crate::explained::ToldRun;
use crate::json_form::members::{begin_list, write_nonzero, write_text};
use json::{Pretty, Token};
use std::alloc::{AllocError, Global};
use std::marker::Model;

/// A run that is shown, if it is known; and beside it the run of the plan from which its plan grew.
#[derive(Drop)]
pub struct ShownRun {
    pub run: ToldRun,
    pub parent: Option<ToldRun>,
}

/// The runs that are shown, each if it is known.
#[derive(Drop)]
pub struct Runs {
    /// The run without faults.
    pub clean: Option<ToldRun>,
    /// The runs of the report's findings, as reduced, in their order.
    pub findings: Vec<Option<ShownRun>>,
    /// The runs of its causes, in their order.
    pub causes: Vec<Option<ShownRun>>,
}

impl Model for Runs {
    ghost use Rattle.report.specs.json_form.Runs.{RunsFacts};

    ghost Value = { RunsFacts };

    ghost view = { λ r. record { clean = r.clean; findings = r.findings.items; causes = r.causes.items } };
}

fn write_run_members(out: &mut Pretty, run: &ToldRun) -> Result<(), AllocError>
    ensures { OnOk result (out.new ≡ out.old
        ++ member_tokens (codes "explained") (string run.now.text) ++ nonzero_tokens (codes "left_out") run.now.left_out) }
{
    write_text(out, "explained", run.text.as_str())?;
    write_nonzero(out, "left_out", run.left_out as u64)
}

fn write_run(out: &mut Pretty, run: &ToldRun) -> Result<(), AllocError>
    ensures { OnOk result (out.new ≡ out.old ++ json_tokens (run_value run.now)) }
{
    out.token(Token::BeginObject)?;
    write_run_members(out, run)?;
    out.token(Token::EndObject)
}

/// A member with the run of the plan from which a plan grew, if it is known.
fn write_parent(out: &mut Pretty, parent: &Option<ToldRun>) -> Result<(), AllocError>
    ensures { OnOk result (out.new ≡ out.old ++ parent_tokens parent.now) }
{
    match parent {
        None => Ok(()),
        Some(parent) => {
            out.token(Token::Key("parent"))?;
            write_run(out, parent)
        }
    }
}

fn write_shown_run(out: &mut Pretty, shown: &ShownRun) -> Result<(), AllocError>
    ensures { OnOk result (out.new ≡ out.old ++ json_tokens (shown_value shown.now)) }
{
    out.token(Token::BeginObject)?;
    write_run_members(out, &shown.run)?;
    write_parent(out, &shown.parent)?;
    out.token(Token::EndObject)
}

/// A run that is shown, or `null` if it isn't known.
fn write_shown_or_null(out: &mut Pretty, shown: &Option<ShownRun>) -> Result<(), AllocError>
    ensures { OnOk result (out.new ≡ out.old ++ json_tokens (or_null shown_value shown.now)) }
{
    match shown {
        None => out.token(Token::Null),
        Some(shown) => write_shown_run(out, shown),
    }
}

fn write_each_run(out: &mut Pretty, runs: &[Option<ShownRun>]) -> Result<(), AllocError>
    ensures { OnOk result (out.new ≡ out.old ++ all_tokens (map (or_null shown_value) runs.now)) }
{
    for run in runs {
        write_shown_or_null(out, run)?;
    }
    Ok(())
}

/// A member with runs.
fn write_list(out: &mut Pretty, name: &str, runs: &[Option<ShownRun>]) -> Result<(), AllocError>
    ensures { OnOk result (out.new ≡ out.old ++ member_tokens name.now (list_of (map (or_null shown_value) runs.now))) }
{
    begin_list(out, name)?;
    write_each_run(out, runs)?;
    out.token(Token::EndArray)
}

/// A member with a run, or with `null` if it isn't known.
fn write_run_or_null(out: &mut Pretty, name: &str, run: &Option<ToldRun>) -> Result<(), AllocError>
    ensures { OnOk result (out.new ≡ out.old ++ member_tokens name.now (or_null run_value run.now)) }
{
    out.token(Token::Key(name))?;
    match run {
        None => out.token(Token::Null),
        Some(run) => write_run(out, run),
    }
}

/// The members with runs.
pub fn write_runs(out: &mut Pretty, runs: &Runs) -> Result<(), AllocError>
    ensures { OnOk result (out.new ≡ out.old
        ++ member_tokens (codes "clean_run") (or_null run_value runs.now.clean)
        ++ member_tokens (codes "finding_runs") (list_of (map (or_null shown_value) runs.now.findings))
        ++ member_tokens (codes "cause_runs") (list_of (map (or_null shown_value) runs.now.causes))) }
{
    write_run_or_null(out, "clean_run", &runs.clean)?;
    write_list(out, "finding_runs", runs.findings.as_slice())?;
    write_list(out, "cause_runs", runs.causes.as_slice())
}
