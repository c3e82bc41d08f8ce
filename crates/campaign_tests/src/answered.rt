//! Campaigns on made-up components, from nothing known to the report.

use crate::plain::{number_of, plain_report, tidied_text, verdict_of};
use campaign_main::{
    Form, OutsideCampaign, OutsideFault, Question, QuestionFault, Shown, answer_question,
};
use campaign_settings::{Choice, Settings};
use outside_campaign::list_plans;
use std::alloc::Global;
use std::fmt::Write;
use std::process::Abort;
use std::test::Fail;
use target_trait::Out;

/// Settings whose two points are hit this often.
fn settings(alloc: Global, first: u32, second: u32) -> Result<Settings, Fail> {
    let text = format!(in alloc;
        "target = \"outside\"\nseed = 7\npairs = true\nstorms = 4\nrate = 700\nscenarios = [\"p=2*off->1*off->return->off\"]\n[outside]\nlabel = \"t\"\ncodes = [\"a\", \"b\"]\npoints = [\"p\", \"q\"]\nhits = [{first}, {second}]\n"
    )?;
    Ok(Settings::read(alloc, &text)?)
}

fn text_of(bytes: Vec<u8>) -> Result<String, Fail> {
    match String::from_utf8(bytes) {
        Ok(text) => Ok(text),
        Err(_) => Err(Fail::from("no text")),
    }
}

fn plans(alloc: Global, campaign: &OutsideCampaign<'_>) -> Result<String, Fail> {
    let mut out = Out::new(Vec::new(alloc));
    list_plans(alloc, campaign, &mut out)?;
    text_of(out.into_writer())
}

fn asks(alloc: Global, campaign: &OutsideCampaign<'_>, answers: &str) -> Result<String, Fail> {
    let question = Question::Asks;
    let answer = answer_question(alloc, &question, campaign, answers.as_bytes())?;
    text_of(answer.text)
}

/// The report, or `not answered` and the scenario.
fn told(alloc: Global, campaign: &OutsideCampaign<'_>, answers: &str) -> Result<String, Fail> {
    let question = Question::Report {
        shown: Shown::Report(Form::Whole),
        strict: false,
    };
    match answer_question(alloc, &question, campaign, answers.as_bytes()) {
        Ok(answer) => text_of(answer.text),
        Err(QuestionFault::Outside(OutsideFault::NotAnswered(scenario))) => {
            let text = tidied_text(alloc, &scenario)?;
            Ok(format!(in alloc; "not answered {text}")?)
        }
        Err(_) => Err(Fail::from("no report")),
    }
}

/// Answers some of the lines, the first among them, the last ones first in every other round.
fn answer_some(alloc: Global, salt: u32, asked: &str, answers: &mut String) -> Result<(), Fail> {
    let mut lines = Vec::new(alloc);
    for line in asked.lines() {
        if lines.is_empty() || number_of(salt ^ 255, line) % 3 > 0 {
            lines.push(line)?;
        }
    }
    if salt % 2 == 0 {
        lines.reverse();
    }
    for line in lines {
        let verdict = verdict_of(salt, line);
        writeln!(answers, "{verdict}\t{line}")?;
    }
    Ok(())
}

/// The report is that of the plain recursion, if the two points are hit this often.
fn is_the_plain_report(
    rt: &impl Abort,
    alloc: Global,
    salt: u32,
    hits: (u32, u32),
    plans: &str,
    report: &str,
) -> Result<(), Fail> {
    let (first, second) = hits;
    let head = format!(in alloc; "census p {first}\ncensus q {second}\n")?;
    let plain = plain_report(alloc, salt, &head, plans)?;
    assert_eq!(rt; report, plain.as_str(), "at {salt}");
    Ok(())
}

/// Before all is answered there is no report: the first line that is asked is missing.
fn misses_the_first_line(
    rt: &impl Abort,
    alloc: Global,
    salt: u32,
    campaign: &OutsideCampaign<'_>,
    answers: &str,
    first: &str,
) -> Result<(), Fail> {
    let report = told(alloc, campaign, answers)?;
    assert_eq!(rt;
        report.as_str().strip_prefix("not answered "),
        Some(first),
        "at {salt}"
    );
    Ok(())
}

/// The campaign on this component ends with the report of the plain recursion. Before that, the first line that is asked is missing; this is checked
/// only in every third round, as it takes time. Which rounds these are depends on the component.
fn comes_to_the_plain_report(rt: &impl Abort, alloc: Global, salt: u32) -> Result<(), Fail> {
    let hits = (salt % 3, salt / 3 % 3);
    let settings = settings(alloc, hits.0, hits.1)?;
    let Choice::Outside(outside) = &settings.choice else {
        return Err(Fail::from("another target"));
    };
    let campaign = OutsideCampaign {
        outside,
        settings: &settings.campaign,
    };
    let mut answers = String::new(alloc);
    for round in 0..200 {
        let asked = asks(alloc, &campaign, answers.as_str())?;
        let Some(first) = asked.as_str().lines().next() else {
            let report = told(alloc, &campaign, answers.as_str())?;
            let plans = plans(alloc, &campaign)?;
            return is_the_plain_report(rt, alloc, salt, hits, &plans, report.as_str());
        };
        if (salt / 9 + round) % 3 == 0 {
            misses_the_first_line(rt, alloc, salt, &campaign, answers.as_str(), first)?;
        }
        answer_some(alloc, salt, asked.as_str(), &mut answers)?;
    }
    Err(Fail::from("a campaign without end"))
}

/// How many components a test has; more would take too long. The components differ by their salt.
const COMPONENTS: u32 = 50;

/// The campaigns on the components of these salts, from this one on, come to the plain report.
fn come_to_the_plain_report(rt: &impl Abort, alloc: Global, from: u32) -> Result<(), Fail> {
    for salt in from..from + COMPONENTS {
        comes_to_the_plain_report(rt, alloc, salt)?;
    }
    Ok(())
}

#[test]
fn campaigns_from_0_come_to_the_plain_report(rt: HostRuntime) -> Result<(), Fail> {
    come_to_the_plain_report(&rt, rt.alloc(), 0)
}

#[test]
fn campaigns_from_200_come_to_the_plain_report(rt: HostRuntime) -> Result<(), Fail> {
    come_to_the_plain_report(&rt, rt.alloc(), 200)
}

#[test]
fn campaigns_from_400_come_to_the_plain_report(rt: HostRuntime) -> Result<(), Fail> {
    come_to_the_plain_report(&rt, rt.alloc(), 400)
}

#[test]
fn campaigns_from_600_come_to_the_plain_report(rt: HostRuntime) -> Result<(), Fail> {
    come_to_the_plain_report(&rt, rt.alloc(), 600)
}

#[test]
fn campaigns_from_800_come_to_the_plain_report(rt: HostRuntime) -> Result<(), Fail> {
    come_to_the_plain_report(&rt, rt.alloc(), 800)
}

/// What is asked by these answers is refused with the answers' fault, in this line.
fn is_refused(rt: &impl Abort, alloc: Global, answers: &str, line: &str) -> Result<(), Fail> {
    let settings = settings(alloc, 1, 1)?;
    let Choice::Outside(outside) = &settings.choice else {
        return Err(Fail::from("another target"));
    };
    let campaign = OutsideCampaign {
        outside,
        settings: &settings.campaign,
    };
    let question = Question::Asks;
    match answer_question(alloc, &question, &campaign, answers.as_bytes()) {
        Err(QuestionFault::Outside(OutsideFault::Answers(fault))) => {
            assert_eq!(rt; format!(in alloc; "{fault}")?.as_str(), line);
            Ok(())
        }
        _ => Err(Fail::from("the answers are taken")),
    }
}

#[test]
fn faulty_answers_are_refused(rt: HostRuntime) -> Result<(), Fail> {
    for (answers, line) in [
        (
            "pass\tnone\nfail a\t\n",
            "answers: line 2: contradicts line 1, which answers the same scenario otherwise",
        ),
        (
            "pass\tnone\npass\tp=return",
            "answers: line 2: not ended; a line feed is missing, so the line may have been cut off: delete it",
        ),
        ("fail c\tnone\n", "answers: line 1: no such code \"c\""),
    ] {
        is_refused(&rt, rt.alloc(), answers, line)?;
    }
    Ok(())
}
