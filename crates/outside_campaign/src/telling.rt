//! The texts of reports, with the names that the settings have.
ghost use Rattle.std.specs.Prelude.{◌≡◌, ◌<◌, [], None, length, IfOk, option_map, slice_get};
ghost use Rattle.campaign_given.specs.Description.{IsDescription};
ghost use Rattle.answer_text.specs.Runs.{told_in};
ghost use Rattle.outside_campaign.specs.Campaigns.{code_name, plans as listed, runs_told, shown};
ghost use Rattle.report.specs.json_form.About.{shown_of};
ghost use Rattle.report.specs.forms.Forms.{text_in};
ghost use Rattle.outside_campaign.specs.inside.Results.{facts_of};

use crate::campaign::OutsideCampaign;
use crate::teller::AnswerTeller;
use answer_text::Runs;
use campaign_given::Outside;
use grown_plans::CampaignPlans;
use report::{Finding, Form, Names, Report, Shown, text_in};
use std::alloc::{AllocError, Global};
use target_trait::Verdict;

/// The names of the points and codes of a component that somebody else runs. A code that the settings don't list has the empty name.
#[derive(Drop)]
pub struct Words<'a> {
    /// The component, as the settings describe it.
    pub outside: &'a Outside,
}

impl<'a> Names for Words<'a> {
    ghost use Rattle.outside_campaign.specs.Campaigns.{code_name};

    ghost points = { λ words. words.outside.now.points };

    ghost code_text = { λ words. code_name words.outside.now.codes };

    fn point(&self, number: usize) -> &str {
        let outside = self.outside;
        outside.points[number].as_str()
    }

    fn code(&self, code: u32) -> &str {
        let outside = self.outside;
        match outside.codes.get(code as usize) {
            Some(name) => name.as_str(),
            None => "",
        }
    }
}

/// The report with these verdicts and findings, and with so many unmet plans.
pub fn report_of<'a>(
    outside: &'a Outside,
    seed: u64,
    verdicts: &'a [Verdict],
    unmet: u32,
    findings: Vec<Finding>,
) -> Report<'a>
    requires { 0 < length verdicts.now }
    ensures { result ≡ facts_of outside.now seed verdicts.now unmet findings.items }
{
    Report {
        label: outside.label.as_str(),
        seed,
        clean: verdicts[0],
        census: outside.hits.as_slice(),
        verdicts,
        unmet,
        findings,
        growth: None,
    }
}

/// What is shown of plans if none of them grew.
fn shown_of<'a>(
    plans: &'a CampaignPlans<'a>,
    storms: usize,
    listed: usize,
    settings: &'a str,
) -> Shown<'a>
    ensures { result ≡ shown_of plans.entry.now [] storms listed settings.entry.now }
{
    Shown::new(plans, None, storms, listed, settings)
}

/// The text of a report on the plans of these settings, with the recorded runs. An error means that memory was refused.
pub fn reported_text(
    alloc: Global,
    form: &Form<'_>,
    campaign: &OutsideCampaign<'_>,
    known: &Runs,
    report: &Report<'_>,
    plans: &CampaignPlans<'_>,
) -> Result<Vec<u8>, AllocError>
    requires lawful { IsDescription campaign.now.outside.now }
    requires plans { plans.now ≡ listed campaign.now.outside.now campaign.now.settings.now }
    requires census { report.now.census ≡ campaign.now.outside.now.hits }
    requires growth { report.now.growth ≡ None }
    requires each { length report.now.verdicts ≡ length plans.now }
    ensures { IfOk result (λ text. text.items ≡ text_in form.now campaign.now.outside.now.points (code_name campaign.now.outside.now.codes)
        (runs_told campaign.now.outside.now (told_in known.now)) report.now (shown campaign.now.outside.now campaign.now.settings.now)) }
{
    let outside = campaign.outside;
    let settings = campaign.settings;
    let words = Words { outside: &*outside };
    let storms = settings.storms as usize;
    let listed = settings.scenarios.len();
    let shown = shown_of(&*plans, storms, listed, settings.source.as_str());
    let teller = AnswerTeller {
        outside: &*outside,
        known: &*known,
    };
    text_in(alloc, form, &words, &teller, report, &shown)
}

/// The number of the plan of the first finding, if there is one.
pub fn first_number(findings: &[Finding]) -> Option<u32>
    ensures { result ≡ option_map (λ f. f.number) (slice_get findings.now 0) }
{
    match findings.first() {
        Some(finding) => Some(finding.number),
        None => None,
    }
}
