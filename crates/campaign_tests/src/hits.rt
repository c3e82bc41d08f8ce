//! Hits that answers record.

use crate::shared::read_as;
use campaign_main::{
    Form, OutsideCampaign, OutsideFault, Question, QuestionFault, Shown, answer_question,
};
use campaign_settings::{Choice, Settings};
use scenario_grammar::parse;
use std::alloc::Global;
use std::process::Abort;
use std::test::Fail;

/// A text of one line or more has these first faults (or `no fault`): one if hits are needed, and one if they aren't.
fn is_read(
    rt: &impl Abort,
    alloc: Global,
    needed: bool,
    text: &str,
    want: &str,
) -> Result<(), Fail> {
    match read_as(alloc, needed, text.as_bytes())? {
        Ok(_) => assert_eq!(rt; "no fault", want, "{text}"),
        Err(fault) => assert_eq!(rt; format!(in alloc; "{fault}")?.as_str(), want, "{text}"),
    }
    Ok(())
}

#[test]
fn hits_are_points_with_their_counts(rt: HostRuntime) -> Result<(), Fail> {
    let rows = [
        ("pass\tnone\t\n", "no fault"),
        ("pass\tnone\ta\n", "no fault"),
        ("fail torn\tnone\ta;b;2*a;65532*b\n", "no fault"),
        // a point's whole name is one hit of it
        ("pass\tnone\t2*b;b\n", "no fault"),
        ("unresolved\tnone\t-\n", "no fault"),
        ("unresolved\tnone\ta;b\n", "no fault"),
        ("pass\tnone\t-\n", "answers: line 1: no such point \"-\""),
        ("pass\tnone\tc\n", "answers: line 1: no such point \"c\""),
        ("pass\tnone\ta;\n", "answers: line 1: no such point \"\""),
        (
            "pass\tnone\ta\ta\n",
            "answers: line 1: no such point \"a\ta\"",
        ),
        (
            "pass\tnone\ta;3*c\n",
            "answers: line 1: no such point \"c\"",
        ),
        ("pass\tnone\t1*a\n", "answers: line 1: bad count"),
        ("pass\tnone\t02*a\n", "answers: line 1: bad count"),
        ("pass\tnone\t65536*a;b\n", "answers: line 1: bad count"),
        ("pass\tnone\t65537*a\n", "answers: line 1: bad count"),
        ("pass\tnone\t1000000000*a\n", "answers: line 1: bad count"),
        (
            "pass\tnone\t99999999999999999999*a\n",
            "answers: line 1: bad count",
        ),
        (
            "pass\tnone\t3*a;a\n",
            "answers: line 1: one point twice in a row; write it once with its count, such as 2*a",
        ),
        (
            "pass\tNone\tc\n",
            "answers: line 1: NoAction entry 1 term 0",
        ),
        (
            "pass\ta=return(\x01)\tc\n",
            "answers: line 1: a control character in the scenario; a scenario has none",
        ),
    ];
    for (text, want) in rows {
        for needed in [false, true] {
            is_read(&rt, rt.alloc(), needed, text, want)?;
        }
    }
    Ok(())
}

#[test]
fn hits_may_be_left_out_where_they_are_not_needed(rt: HostRuntime) -> Result<(), Fail> {
    let text = "pass\tnone\n";
    is_read(&rt, rt.alloc(), false, text, "no fault")?;
    is_read(
        &rt,
        rt.alloc(),
        true,
        text,
        "answers: line 1: no hits; with a depth they stand behind a second tab, or - if nobody knows them",
    )
}

#[test]
fn other_hits_contradict(rt: HostRuntime) -> Result<(), Fail> {
    let rows = [
        ("pass\ta=return\t2*a\npass\t a = return \t2*a\n", "no fault"),
        (
            "unresolved\ta=return\nunresolved\ta=return\t-\n",
            "no fault",
        ),
        (
            "pass\ta=return\ta;b\npass\ta=return\ta\n",
            "answers: line 2: contradicts line 1, which answers the same scenario otherwise",
        ),
        (
            "pass\tnone\npass\ta=return\ta\npass\ta=return\n",
            "answers: line 3: contradicts line 2, which answers the same scenario otherwise",
        ),
        (
            "pass\ta=return\npass\ta=return\t\n",
            "answers: line 2: contradicts line 1, which answers the same scenario otherwise",
        ),
    ];
    for (text, want) in rows {
        is_read(&rt, rt.alloc(), false, text, want)?;
    }
    Ok(())
}

#[test]
fn points_are_told_one_for_each_hit(rt: HostRuntime) -> Result<(), Fail> {
    let alloc = rt.alloc();
    let Ok(runs) = read_as(alloc, true, b"pass\ta=return\tb;2*a;2*b\n")? else {
        return Err(Fail::from("the answers are refused"));
    };
    let Some(told) = runs.told(alloc, &parse(alloc, "a=return")?)? else {
        return Err(Fail::from("nothing is told"));
    };
    let Some(hits) = &told.hits else {
        return Err(Fail::from("no hits are told"));
    };
    let mut points = Vec::new(alloc);
    hits.push_points(&mut points)?;
    assert!(&rt; points.as_slice() == [1, 0, 0, 2].as_slice());
    Ok(())
}

/// The report by these answers of the component with the point `p`, which is hit twice, or why there is none; and the same for the partial report.
fn reports(alloc: Global, answers: &str) -> Result<(String, String), Fail> {
    let text =
        "target = \"outside\"\n[outside]\nlabel = \"t\"\ncodes = [\"a\"]\npoints = [\"p\"]\nhits = [2]\n";
    let settings = Settings::read(alloc, text)?;
    let Choice::Outside(outside) = &settings.choice else {
        return Err(Fail::from("another target"));
    };
    let campaign = OutsideCampaign {
        outside,
        settings: &settings.campaign,
    };
    Ok((
        shown_as(alloc, &campaign, Shown::Report(Form::Whole), answers)?,
        shown_as(alloc, &campaign, Shown::Partial, answers)?,
    ))
}

/// The report in a form, or the partial report, or `line N` if that line's census was refused.
fn shown_as(
    alloc: Global,
    campaign: &OutsideCampaign<'_>,
    shown: Shown,
    answers: &str,
) -> Result<String, Fail> {
    let question = Question::Report {
        shown,
        strict: false,
    };
    match answer_question(alloc, &question, campaign, answers.as_bytes()) {
        Ok(answer) => match String::from_utf8(answer.text) {
            Ok(text) => Ok(text),
            Err(_) => Err(Fail::from("no text")),
        },
        Err(QuestionFault::Outside(OutsideFault::Census(line))) => {
            Ok(format!(in alloc; "line {line}")?)
        }
        Err(_) => Err(Fail::from("no report")),
    }
}

/// The answers to each plan except the last two, which the caller gives.
const FIRST_PLANS: &str =
    "pass\tnone\t2*p\npass\tp=1*return\t2*p\npass\tp=1*panic\tp\npass\tp=return\tp\npass\tp=1*off->1*return\n";

#[test]
fn a_census_is_that_of_the_settings(rt: HostRuntime) -> Result<(), Fail> {
    let alloc = rt.alloc();
    let rest = "pass\tp=1*off->1*return\npass\tp=1*off->1*panic\npass\tp=1*off->return\n";
    for (none, line) in [("p", 2), ("", 2), ("3*p", 2)] {
        let answers = format!(in alloc; "pass\tp=1*return\npass\tnone\t{none}\n{rest}")?;
        let want = format!(in alloc; "line {line}")?;
        let (report, partial) = reports(alloc, answers.as_str())?;
        assert_eq!(&rt; report.as_str(), want.as_str());
        assert_eq!(&rt; partial.as_str(), want.as_str());
    }
    Ok(())
}

#[test]
fn faults_that_never_act_are_unmet(rt: HostRuntime) -> Result<(), Fail> {
    let alloc = rt.alloc();
    // The plan's verdict and hits, and how many plans are unmet: one that passes whose second hit never comes.
    let rows = [
        ("pass", "2*p", None),
        ("pass", "p", Some("\nunmet 1\n")),
        ("pass", "", Some("\nunmet 1\n")),
        ("fail a", "p", None),
        ("unresolved", "p", None),
        ("unresolved", "-", None),
    ];
    for (verdict, hits, want) in rows {
        let answers = format!(in alloc;
            "{FIRST_PLANS}pass\tp=1*off->1*panic\t2*p\n{verdict}\tp=1*off->return\t{hits}\n"
        )?;
        let (report, _) = reports(alloc, answers.as_str())?;
        match want {
            Some(line) => assert!(&rt; report.as_str().contains(line), "{verdict} {hits}"),
            None => assert!(&rt; !report.as_str().contains("unmet"), "{verdict} {hits}"),
        }
    }
    Ok(())
}
