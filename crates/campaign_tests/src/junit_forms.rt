//! JUnit documents.

use crate::form_given::{Words, empty_report, finding, junit_of, plans, scenarios};
use report::Report;
use std::test::Fail;
use target_trait::Verdict;

const WHOLE: &str = r#"<?xml version="1.0" encoding="UTF-8"?>
<testsuites>
<testsuite name="&quot;&#9;&#10;�" tests="6" failures="3" errors="0" skipped="1">
<testcase classname="&quot;&#9;&#10;�" name="plan 0 none"/>
<testcase classname="&quot;&#9;&#10;�" name="plan 1 a=1*off-&gt;off;&amp;=panic"><failure type="&lt;" message="fail &lt;">scenario a=1*off-&gt;off;&amp;=panic
reduced &amp;=panic
tests 4
</failure></testcase>
<testcase classname="&quot;&#9;&#10;�" name="plan 2 a=off"/>
<testcase classname="&quot;&#9;&#10;�" name="plan 3 a=pause"><skipped message="unresolved"/></testcase>
<testcase classname="&quot;&#9;&#10;�" name="plan 4 &amp;=panic"><failure type="&lt;" message="fail &lt;">scenario &amp;=panic
</failure></testcase>
<testcase classname="&quot;&#9;&#10;�" name="plan 5 a=return(&quot;)"><failure type="to&apos;rn" message="fail to&apos;rn">scenario a=return(&quot;)
reduced none
tests 18446744073709551615
</failure></testcase>
</testsuite>
</testsuites>
"#;

#[test]
fn a_suite_has_a_case_for_each_plan(rt: HostRuntime) -> Result<(), Fail> {
    let alloc = rt.alloc();
    let words = Words {
        points: &["a", "&"],
        codes: &["to'rn", "<"],
    };
    let listed = scenarios(
        alloc,
        &[
            "",
            "a=1*off->off;&=panic",
            "a=off",
            "a=pause",
            "&=panic",
            "a=return(\")",
        ],
    )?;
    let plans = plans(alloc, listed.as_slice())?;
    let verdicts = [
        Verdict::Pass,
        Verdict::Fail(1),
        Verdict::Pass,
        Verdict::Unresolved,
        Verdict::Fail(1),
        Verdict::Fail(0),
    ];
    let mut findings = Vec::new(alloc);
    findings.push(finding(alloc, 1, 1, "a=1*off->off;&=panic", "&=panic", 4)?)?;
    findings.push(finding(alloc, 5, 0, "a=return(\")", "", u64::MAX)?)?;
    let report = Report {
        label: "\"\t\n\u{b}",
        seed: 7,
        clean: Verdict::Pass,
        census: &[1, 2],
        verdicts: &verdicts,
        unmet: 0,
        findings,
        growth: None,
    };
    let text = junit_of(alloc, &words, &report, &plans)?;
    assert_eq!(rt; text.as_slice(), WHOLE.as_bytes());
    Ok(())
}

const EMPTY: &str = r#"<?xml version="1.0" encoding="UTF-8"?>
<testsuites>
<testsuite name="" tests="0" failures="0" errors="0" skipped="0">
</testsuite>
</testsuites>
"#;

#[test]
fn an_empty_report_is_an_empty_suite(rt: HostRuntime) -> Result<(), Fail> {
    let alloc = rt.alloc();
    let words = Words {
        points: &[],
        codes: &[],
    };
    let plans = plans(alloc, &[])?;
    let report = empty_report(alloc);
    let text = junit_of(alloc, &words, &report, &plans)?;
    assert_eq!(rt; text.as_slice(), EMPTY.as_bytes());
    Ok(())
}
