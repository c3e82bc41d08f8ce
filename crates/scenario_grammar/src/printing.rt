//! Scenarios as text.
ghost use Rattle.std.specs.Prelude.{◌≡◌, ◌+◌, ◌<◌, ◌++◌, OnOk, IfOk, IfErr, None};
ghost use Rattle.std.specs.String.{string_bytes};
ghost use Rattle.scenario_values.specs.Printed.{share_text, count_text, argument_text, task_text, decimals_of, point_and, term_text, chain_text, printed};
ghost use Rattle.scenario_grammar.specs.inside.Built.{entry_after};
ghost use Rattle.scenario_grammar.specs.FirstFault.{fault};
ghost use Rattle.scenario_grammar.specs.Spelling.{Spells};

use crate::fault::ScenarioFault;
use crate::parsing::parse;
use scenario_values::{Scenario, Task, Term, Text};
use std::alloc::{AllocError, Global};
use std::fmt::Write;

fn write_argument(out: &mut String, argument: &Option<Text>) -> Result<(), AllocError>
    ensures { OnOk result (string_bytes out.new ≡ string_bytes out.old ++ argument_text argument.now) }
{
    match argument {
        None => Ok(()),
        Some(text) => {
            let text = text.as_str();
            write!(out, "({text})")
        }
    }
}

/// Appends a task as the grammar spells it: its word, and its argument in parentheses.
///
/// An error means that memory was refused; the text may then have some of the bytes.
pub fn write_task(out: &mut String, task: &Task) -> Result<(), AllocError>
    ensures { OnOk result (string_bytes out.new ≡ string_bytes out.old ++ task_text task.now) }
{
    match task {
        Task::Off => out.push_str("off"),
        Task::Return(argument) => {
            out.push_str("return")?;
            write_argument(out, argument)
        }
        Task::Sleep(millis) => write!(out, "sleep({millis})"),
        Task::Panic(argument) => {
            out.push_str("panic")?;
            write_argument(out, argument)
        }
        Task::Print(argument) => {
            out.push_str("print")?;
            write_argument(out, argument)
        }
        Task::Pause => out.push_str("pause"),
        Task::Yield => out.push_str("yield"),
        Task::Delay(millis) => write!(out, "delay({millis})"),
    }
}

fn write_count(out: &mut String, count: Option<u32>) -> Result<(), AllocError>
    ensures { OnOk result (string_bytes out.new ≡ string_bytes out.old ++ count_text count) }
{
    match count {
        None => Ok(()),
        Some(n) => write!(out, "{n}*"),
    }
}

/// Appends the decimals of a percentage, without zeros at their end.
fn write_decimals(out: &mut String, n: u32) -> Result<(), AllocError>
    requires { n < 10000 }
    ensures { OnOk result (string_bytes out.new ≡ string_bytes out.old ++ decimals_of 4 n) }
{
    if n == 0 {
        return Ok(());
    }
    write!(out, "{}", n / 1000)?;
    let n = n % 1000;
    if n == 0 {
        return Ok(());
    }
    write!(out, "{}", n / 100)?;
    let n = n % 100;
    if n == 0 {
        return Ok(());
    }
    write!(out, "{}", n / 10)?;
    let n = n % 10;
    if n == 0 {
        return Ok(());
    }
    write!(out, "{n}")
}

/// Appends the point and the decimals of a percentage, if it has any.
fn write_point(out: &mut String, n: u32) -> Result<(), AllocError>
    requires { n < 10000 }
    ensures { OnOk result (string_bytes out.new ≡ string_bytes out.old ++ point_and n) }
{
    if n == 0 {
        return Ok(());
    }
    out.push_str(".")?;
    write_decimals(out, n)
}

/// Appends a share as a percentage, unless it is full.
#[tactic(auto, unfolding(scenario_values::specs::Printed::share_text))]
fn write_share(out: &mut String, share: u32) -> Result<(), AllocError>
    ensures { OnOk result (string_bytes out.new ≡ string_bytes out.old ++ share_text share) }
{
    if share >= 1000000 {
        return Ok(());
    }
    write!(out, "{}", share / 10000)?;
    write_point(out, share % 10000)?;
    out.push_str("%")
}

/// Appends a term in its printed form: its share unless that is full, its count if it has one, and its task.
///
/// An error means that memory was refused; the text may then have some of the bytes.
#[tactic(auto, unfolding(scenario_values::specs::Printed::term_text))]
pub fn write_term(out: &mut String, t: &Term) -> Result<(), AllocError>
    ensures { OnOk result (string_bytes out.new ≡ string_bytes out.old ++ term_text t.now) }
{
    write_share(out, t.share)?;
    write_count(out, t.count)?;
    write_task(out, &t.task)
}

#[tactic(auto, unfolding(scenario_values::specs::Printed::chain_text))]
fn write_chain(out: &mut String, terms: &[Term]) -> Result<(), AllocError>
    ensures { OnOk result (string_bytes out.new ≡ string_bytes out.old ++ chain_text terms.now) }
{
    let [first, rest @ ..] = terms else {
        return Ok(());
    };
    write_term(out, first)?;
    for t in rest {
        out.push_str("->")?;
        write_term(out, t)?;
    }
    Ok(())
}

fn write_entry(out: &mut String, first: bool, name: &Text, terms: &[Term]) -> Result<(), AllocError>
    ensures { OnOk result (string_bytes out.new ≡ string_bytes out.old ++ entry_after first (name.now, terms.now)) }
{
    if !first {
        out.push_str(";")?;
    }
    out.push_str(name.as_str())?;
    out.push_str("=")?;
    write_chain(out, terms)
}

/// The printed form of a scenario: entries in order joined by `;`, terms by `->`, no blank added. A share under 1000000 prints as a percentage with
/// no needless zeros. It is at most 65536 bytes. An error means that memory was refused.
pub fn print(alloc: Global, scenario: &Scenario) -> Result<String, AllocError>
    ensures bytes { IfOk result (λ text. string_bytes text ≡ printed scenario.now) }
    ensures spelled { IfOk result (λ text. Spells (string_bytes text) scenario.now × (fault (string_bytes text) ≡ None)) }
{
    let mut out = String::new(alloc);
    let mut first = true;
    for (name, chain) in scenario.entries() {
        write_entry(&mut out, first, name, chain.terms())?;
        first = false;
    }
    Ok(out)
}

/// A scenario printed and parsed again: the same scenario. The only error is that memory was refused.
pub fn parse_printed(alloc: Global, scenario: &Scenario) -> Result<Scenario, ScenarioFault>
    ensures same { IfOk result (λ read. read ≡ scenario.now) }
    ensures only { IfErr result (λ fault. fault ≡ ScenarioFault.Memory) }
{
    let text = print(alloc, scenario)?;
    parse(alloc, &text)
}
