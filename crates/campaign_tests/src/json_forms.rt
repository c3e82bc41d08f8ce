//! JSON documents.

use crate::form_given::{Words, cause, empty_report, finding, json_of, plans, scenarios};
use report::{Growth, Report};
use serde_json::Value;
use std::alloc::Global;
use std::test::Fail;
use target_trait::Verdict;

const GROWN: &str = r#"{
  "version": 1,
  "label": "a label",
  "seed": "18446744073709551615",
  "clean": {
    "verdict": "pass",
    "code": null
  },
  "census": [
    {
      "point": "open",
      "hits": 1
    },
    {
      "point": "write",
      "hits": 2
    }
  ],
  "counts": {
    "plans": 5,
    "pass": 2,
    "fail": 2,
    "unresolved": 1
  },
  "not_passed": [
    {
      "number": 1,
      "verdict": "fail",
      "code": "stale",
      "scenario": "open=1*return->1*off;write=panic"
    },
    {
      "number": 3,
      "verdict": "unresolved",
      "code": null,
      "scenario": "open=pause"
    },
    {
      "number": 4,
      "verdict": "fail",
      "code": "torn",
      "scenario": "write=2.5%return(no space)"
    }
  ],
  "findings": [
    {
      "number": 1,
      "code": "stale",
      "scenario": "open=1*return->1*off;write=panic",
      "reduced": "open=1*return",
      "tests": 4
    },
    {
      "number": 4,
      "code": "torn",
      "scenario": "write=2.5%return(no space)",
      "reduced": "",
      "tests": 0
    }
  ],
  "growth": {
    "depth": 2,
    "levels": [
      1,
      3
    ],
    "onward": 1,
    "beyond": 6,
    "reached": [
      {
        "point": "open",
        "hits": 1
      },
      {
        "point": "write",
        "hits": 3
      }
    ],
    "causes": [
      {
        "number": 1,
        "code": "stale",
        "scenario": "open=1*return"
      }
    ]
  },
  "about": {
    "program_version": "1.2",
    "told_by": "answers",
    "command": "a command",
    "settings": "a = \"b\"\n",
    "storms": [
      "open=pause"
    ],
    "listed": [
      "write=2.5%return(no space)"
    ],
    "grown": [],
    "clean_run": null,
    "finding_runs": [],
    "cause_runs": []
  }
}
"#;

#[test]
fn a_document_tells_a_whole_report(rt: HostRuntime) -> Result<(), Fail> {
    let alloc = rt.alloc();
    let words = Words {
        points: &["open", "write"],
        codes: &["torn", "stale"],
    };
    let listed = scenarios(
        alloc,
        &[
            "",
            "open=1*return->1*off;write=panic",
            "open=off",
            "open=pause",
            "write=2.5%return(no space)",
        ],
    )?;
    let plans = plans(alloc, listed.as_slice())?;
    let verdicts = [
        Verdict::Pass,
        Verdict::Fail(1),
        Verdict::Pass,
        Verdict::Unresolved,
        Verdict::Fail(0),
    ];
    let mut findings = Vec::new(alloc);
    findings.push(finding(
        alloc,
        1,
        1,
        "open=1*return->1*off;write=panic",
        "open=1*return",
        4,
    )?)?;
    findings.push(finding(alloc, 4, 0, "write=2.5%return(no space)", "", 0)?)?;
    let mut causes = Vec::new(alloc);
    causes.push(cause(alloc, 1, 1, "open=1*return")?)?;
    let report = Report {
        label: "a label",
        seed: u64::MAX,
        clean: Verdict::Pass,
        census: &[1, 2],
        verdicts: &verdicts,
        unmet: 0,
        findings,
        growth: Some(Growth {
            depth: 2,
            levels: &[1, 3],
            onward: 1,
            beyond: 6,
            unseen: 0,
            reached: &[1, 3],
            causes,
        }),
    };
    let text = json_of(alloc, &words, &report, &plans)?;
    assert_eq!(rt; text.as_slice(), GROWN.as_bytes());
    Ok(())
}

const EMPTY: &str = r#"{
  "version": 1,
  "label": "",
  "seed": "0",
  "clean": {
    "verdict": "unresolved",
    "code": null
  },
  "census": [],
  "counts": {
    "plans": 0,
    "pass": 0,
    "fail": 0,
    "unresolved": 0
  },
  "not_passed": [],
  "findings": [],
  "growth": null,
  "about": {
    "program_version": "1.2",
    "told_by": "answers",
    "command": "a command",
    "settings": "a = \"b\"\n",
    "storms": [],
    "listed": [],
    "grown": [],
    "clean_run": null,
    "finding_runs": [],
    "cause_runs": []
  }
}
"#;

#[test]
fn a_document_tells_an_empty_report(rt: HostRuntime) -> Result<(), Fail> {
    let alloc = rt.alloc();
    let words = Words {
        points: &[],
        codes: &[],
    };
    let plans = plans(alloc, &[])?;
    let report = empty_report(alloc);
    let text = json_of(alloc, &words, &report, &plans)?;
    assert_eq!(rt; text.as_slice(), EMPTY.as_bytes());
    Ok(())
}

const LABEL: &str = "\"<&>'\\/\u{1}\t\n\r\u{8}\u{c}\u{1f}\u{7f}\u{e9}\u{2028}\u{1f600}";

/// Which text a document has at which place.
const TEXTS: [(&str, &str); 8] = [
    ("/label", LABEL),
    ("/seed", "7"),
    ("/clean/verdict", "fail"),
    ("/clean/code", "c\n\"\u{0}"),
    ("/census/0/point", "p\"\\\u{2}"),
    ("/not_passed/0/code", "c\n\"\u{0}"),
    ("/not_passed/0/scenario", "p\"\\\u{2}=return(\t\"<)"),
    ("/about/settings", "a = \"b\"\n"),
];

/// Whether a reader of JSON finds these texts in a document.
fn has_texts(alloc: Global, document: &[u8]) -> Result<bool, Fail> {
    let value = Value::from_slice(alloc, document)?;
    for (path, want) in TEXTS {
        if value.pointer(path).and_then(Value::as_str) != Some(want) {
            return Ok(false);
        }
    }
    Ok(true)
}

/// A reader of JSON finds each name as it was given, whatever characters it has.
#[test]
fn a_reader_finds_names_of_all_characters(rt: HostRuntime) -> Result<(), Fail> {
    let alloc = rt.alloc();
    let words = Words {
        points: &["p\"\\\u{2}"],
        codes: &["c\n\"\u{0}"],
    };
    let listed = scenarios(alloc, &["p\"\\\u{2}=return(\t\"<)"])?;
    let plans = plans(alloc, listed.as_slice())?;
    let verdicts = [Verdict::Fail(0)];
    let report = Report {
        label: LABEL,
        seed: 7,
        clean: Verdict::Fail(0),
        census: &[3],
        verdicts: &verdicts,
        unmet: 0,
        findings: Vec::new(alloc),
        growth: None,
    };
    let text = json_of(alloc, &words, &report, &plans)?;
    assert!(rt; has_texts(alloc, text.as_slice())?);
    Ok(())
}
