//! Counts that are left out if they are 0, in each form.

use crate::form_given::{Words, brief_of, json_of, plans, scenarios};
use report::{Growth, Report, text};
use std::test::Fail;
use target_trait::Verdict;

const TEXT: &str = "\
target a label
seed 7
clean pass
census open 1
census write 2
depth 1
level 0 1
level 1 2
onward 0
beyond 0
unseen 1
reached open 1
reached write 2
plans 3
verdict 0 pass
verdict 1 unresolved
verdict 2 pass
unmet 1
first none
causes 0
";

const BRIEF: &str = "\
target a label
seed 7
clean pass
census open 1
census write 2
depth 1
level 0 1
level 1 2
onward 0
beyond 0
unseen 1
reached open 1
reached write 2
plans 3
counts pass 2 unresolved 1
verdict 1 unresolved open=1*return
unmet 1
first none
causes 0
";

const JSON: &str = r#"{
  "version": 1,
  "label": "a label",
  "seed": "7",
  "clean": {
    "verdict": "pass",
    "code": null
  },
  "census": [
    {
      "point": "open",
      "hits": 1
    },
    {
      "point": "write",
      "hits": 2
    }
  ],
  "counts": {
    "plans": 3,
    "pass": 2,
    "fail": 0,
    "unresolved": 1
  },
  "not_passed": [
    {
      "number": 1,
      "verdict": "unresolved",
      "code": null,
      "scenario": "open=1*return"
    }
  ],
  "unmet": 1,
  "findings": [],
  "growth": {
    "depth": 1,
    "levels": [
      1,
      2
    ],
    "onward": 0,
    "beyond": 0,
    "unseen": 1,
    "reached": [
      {
        "point": "open",
        "hits": 1
      },
      {
        "point": "write",
        "hits": 2
      }
    ],
    "causes": []
  },
  "about": {
    "program_version": "1.2",
    "told_by": "answers",
    "command": "a command",
    "settings": "a = \"b\"\n",
    "storms": [
      "open=1*return"
    ],
    "listed": [
      "write=2*off->1*return"
    ],
    "grown": [],
    "clean_run": null,
    "finding_runs": [],
    "cause_runs": []
  }
}
"#;

#[test]
fn counts_stand_where_they_are_not_0(rt: HostRuntime) -> Result<(), Fail> {
    let alloc = rt.alloc();
    let words = Words {
        points: &["open", "write"],
        codes: &["torn"],
    };
    let listed = scenarios(alloc, &["", "open=1*return", "write=2*off->1*return"])?;
    let plans = plans(alloc, listed.as_slice())?;
    let verdicts = [Verdict::Pass, Verdict::Unresolved, Verdict::Pass];
    let report = Report {
        label: "a label",
        seed: 7,
        clean: Verdict::Pass,
        census: &[1, 2],
        verdicts: &verdicts,
        unmet: 1,
        findings: Vec::new(alloc),
        growth: Some(Growth {
            depth: 1,
            levels: &[1, 2],
            onward: 0,
            beyond: 0,
            unseen: 1,
            reached: &[1, 2],
            causes: Vec::new(alloc),
        }),
    };
    let whole = text(alloc, &words, &report)?;
    assert_eq!(rt; whole.as_slice(), TEXT.as_bytes());
    let brief = brief_of(alloc, &words, &report, &plans)?;
    assert_eq!(rt; brief.as_slice(), BRIEF.as_bytes());
    let json = json_of(alloc, &words, &report, &plans)?;
    assert_eq!(rt; json.as_slice(), JSON.as_bytes());
    Ok(())
}
