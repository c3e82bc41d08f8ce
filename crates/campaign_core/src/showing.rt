//! A campaign's report in each of its forms.
ghost use Rattle.std.specs.Prelude.{◌≡◌, ◌++◌, option_copied, option_map, string_bytes, IfOk, OnOk};
ghost use Rattle.campaign_core.specs.Headline.{campaign_in, EachIsMinimal};
ghost use Rattle.campaign_core.specs.Forms.{bool_text, depth_text, limits_text, listing_text, report_in, settings_text, text_or};
ghost use Rattle.campaign_core.specs.Ran.{IsRan};

use crate::planned::{Planned, plans_of};
use crate::ran::Ran;
use crate::reporting::report_of;
use crate::subject::{Host, Subject};
use grown_plans::GrownPlans;
use report::{Form, MOST_HITS_SHOWN, Shown, Teller, ToldRun, tell, text_in};
use scenario_values::Scenario;
use std::alloc::{AllocError, Global};
use std::fmt::Write;
use std::sync::Wait;
use std::thread::Threads;
use target_trait::Target;
use work_gate::Gate;

/// How a report spells a boolean setting.
fn bool_text(value: bool) -> &'static str
    ensures { result.now ≡ bool_text value }
{
    if value { "true" } else { "false" }
}

/// How a report spells a depth; `none` if there is none.
fn depth_text(alloc: Global, depth: Option<u32>) -> Result<String, AllocError>
    ensures { IfOk result (λ text. string_bytes text ≡ depth_text depth) }
{
    match depth {
        None => String::from_str(alloc, "none"),
        Some(depth) => format!(in alloc; "{depth}"),
    }
}

#[tactic(auto, unfolding(crate::specs::Forms::limits_text))]
fn write_limits(
    alloc: Global,
    out: &mut String,
    max_hits: u32,
    depth: Option<u32>,
) -> Result<(), AllocError>
    ensures { OnOk result (string_bytes out.new ≡ string_bytes out.old ++ limits_text max_hits depth) }
{
    let depth = depth_text(alloc, depth)?;
    write!(out, "max_hits = {max_hits}\ndepth = {depth}")?;
    Ok(())
}

#[tactic(auto, unfolding(crate::specs::Forms::listing_text))]
fn write_listing(
    out: &mut String,
    pairs: bool,
    storms: u32,
    rate: u32,
    listed: usize,
) -> Result<(), AllocError>
    ensures { OnOk result (string_bytes out.new ≡ string_bytes out.old ++ listing_text pairs storms rate listed) }
{
    let pairs = bool_text(pairs);
    write!(
        out,
        "\npairs = {pairs}\nstorms = {storms}\nrate = {rate}\nlisted scenarios: {listed}\n"
    )?;
    Ok(())
}

/// The lines of those settings that every campaign has.
fn settings_text<T: Target>(alloc: Global, subject: &Subject<'_, T>) -> Result<String, AllocError>
    ensures { IfOk result (λ text. string_bytes text ≡ settings_text (campaign_in T.Target subject.now)) }
{
    let settings = subject.settings;
    let listed = settings.scenarios.len();
    let mut out = String::new(alloc);
    write_limits(alloc, &mut out, settings.max_hits, settings.depth)?;
    write_listing(
        &mut out,
        settings.pairs,
        settings.storms,
        settings.rate,
        listed,
    )?;
    Ok(out)
}

/// The text from which the settings were read. If a program made them, there is none: then the settings that every campaign has.
fn shown_settings<T: Target>(alloc: Global, subject: &Subject<'_, T>) -> Result<String, AllocError>
    ensures { IfOk result (λ text. let c = campaign_in T.Target subject.now in string_bytes text ≡ text_or c.given.source (settings_text c)) }
{
    let settings = subject.settings;
    let source = settings.source.as_str();
    if source.is_empty() {
        settings_text(alloc, subject)
    } else {
        String::from_str(alloc, source)
    }
}

/// To show a run, a twin of the target is run once more.
impl<'a, T: Target> Teller for Subject<'a, T> {
    ghost use Rattle.campaign_core.specs.Forms.{telling};
    ghost use Rattle.campaign_core.specs.Headline.{campaign_in};

    ghost told_runs = { λ subject. telling (campaign_in T.Target subject) };

    fn tell(
        &self,
        alloc: Global,
        number: u32,
        scenario: &Scenario,
    ) -> Result<Option<ToldRun>, AllocError> {
        let mut twin = self.target.twin()?;
        let settings = self.settings;
        let case = settings.case(scenario, u64::from(number));
        let run = tell(alloc, &mut twin, self.workload, &case, MOST_HITS_SHOWN)?;
        Ok(Some(run))
    }
}

/// The plans that grew, if any did.
fn grown_part<'p>(planned: &'p Planned<'_>) -> Option<&'p GrownPlans>
    ensures { option_copied result ≡ option_map (λ g. g.list.plans) planned.now.grown }
{
    match &planned.grown {
        Some(grown) => Some(&grown.list.plans),
        None => None,
    }
}

/// The report of a campaign whose plans have run, in this form. An error means that memory was refused.
pub fn report_in<T: Target + Send, G: Gate, R: Threads + Wait + Sync>(
    host: &Host<'_, G, R>,
    subject: &Subject<'_, T>,
    form: &Form<'_>,
    ran: &Ran<'_>,
) -> Result<Vec<u8>, AllocError>
where
    T::Workload: Sync,
    requires { IsRan (campaign_in T.Target subject.now) ran.now }
    ensures text { IfOk result (λ text. text.items ≡ report_in form.now (campaign_in T.Target subject.now)) }
    ensures minimal { OnOk result (EachIsMinimal (campaign_in T.Target subject.now)) }
{
    let alloc = host.alloc;
    let report = report_of(host, subject, ran)?;
    let plans = plans_of(subject, &ran.planned);
    let settings = subject.settings;
    let source = shown_settings(alloc, subject)?;
    let shown = Shown {
        plans: &plans,
        grown: grown_part(&ran.planned),
        storms: settings.storms as usize,
        listed: settings.scenarios.len(),
        settings: source.as_str(),
    };
    text_in(alloc, form, subject.target, subject, &report, &shown)
}
