//! The lines of the faults that never acted.
ghost use Rattle.std.specs.Prelude.{◌≡◌, ◌++◌, length, nat_lt, string_bytes, OnOk};
ghost use Rattle.action_eval.specs.Answers.{acted};
ghost use Rattle.report.specs.ReportText.{ended, text_of};
ghost use Rattle.report.specs.explained.Explained.{idle_line, idle_of, idle_in, idle_lines, is_idle};

use action_eval::Answered;
use scenario_grammar::write_term;
use scenario_values::{Scenario, Term, is_off};
use std::alloc::AllocError;
use std::fmt::Write;

/// How often the term at this place in the chain of a name acted.
fn times_acted(hits: &[Answered<'_>], name: &str, place: usize) -> usize
    ensures { result ≡ acted hits.now name.now place }
{
    hits.iter().filter(|hit| hit.is_of(name, place)).count()
}

/// Whether the term at this place in the chain of a name is a fault that never acted.
fn is_idle(hits: &[Answered<'_>], name: &str, place: usize, term: &Term) -> bool
    ensures { result ≡ is_idle hits.now name.now place term.now }
{
    !is_off(&term.task) && times_acted(hits, name, place) == 0
}

/// Appends the line of a fault that never acted.
fn write_idle_term(out: &mut String, name: &str, term: &Term) -> Result<(), AllocError>
    ensures { OnOk result (string_bytes out.new ≡ string_bytes out.old ++ ended (idle_line name.now term.now)) }
{
    write!(out, "idle {name}=")?;
    write_term(out, term)?;
    out.push_str("\n")
}

fn write_if_idle(
    out: &mut String,
    hits: &[Answered<'_>],
    name: &str,
    place: usize,
    term: &Term,
) -> Result<(), AllocError>
    ensures { OnOk result (string_bytes out.new ≡ string_bytes out.old ++ text_of (idle_of hits.now name.now place term.now)) }
{
    if is_idle(hits, name, place, term) {
        return write_idle_term(out, name, term);
    }
    Ok(())
}

fn write_idle_in(
    out: &mut String,
    hits: &[Answered<'_>],
    name: &str,
    terms: &[Term],
) -> Result<(), AllocError>
    ensures { OnOk result (string_bytes out.new ≡ string_bytes out.old ++ text_of (idle_in hits.now name.now 0 terms.now)) }
{
    for (place, term) in terms.iter().enumerate() {
        write_if_idle(out, hits, name, place, term)?;
    }
    Ok(())
}

/// Appends a line for each fault of the scenario that never acted in a run with these hits.
pub fn write_idle(
    out: &mut String,
    hits: &[Answered<'_>],
    scenario: &Scenario,
) -> Result<(), AllocError>
    ensures { OnOk result (string_bytes out.new ≡ string_bytes out.old ++ text_of (idle_lines hits.now scenario.now)) }
{
    for (name, chain) in scenario.entries() {
        write_idle_in(out, hits, name.as_str(), chain.terms())?;
    }
    Ok(())
}

/// Whether one of these terms is a fault that never acted.
fn is_any_idle(hits: &[Answered<'_>], name: &str, terms: &[Term]) -> bool
    ensures { result ≡ nat_lt 0 (length (idle_in hits.now name.now 0 terms.now)) }
{
    for (place, term) in terms.iter().enumerate() {
        if is_idle(hits, name, place, term) {
            return true;
        }
    }
    false
}

/// Whether a fault of the scenario never acted.
pub fn leaves_idle(hits: &[Answered<'_>], scenario: &Scenario) -> bool
    ensures { result ≡ nat_lt 0 (length (idle_lines hits.now scenario.now)) }
{
    for (name, chain) in scenario.entries() {
        if is_any_idle(hits, name.as_str(), chain.terms()) {
            return true;
        }
    }
    false
}
