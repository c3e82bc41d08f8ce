//! Tests of whole campaigns that only a caller of the library can make: on targets of the test's own, over readers and writers that go wrong, and
//! with workers that meet; of the values that settings give; of what runs over such workloads leave; of texts of answers, and campaigns by them; and
//! of the forms of reports. What the program shows of campaigns, settings and runs is tested by the sessions of tests/ and by examples/.
//!
//! Each expected text was worked out by hand from the documents of the formats and of the targets. No proof shows that workers overlap: here they
//! meet at the gate, and in the runs of a target that waits for another run. Nor does a proof show that the definitions of what a report to a depth
//! promises say what is meant: a slow program checks the promises over components that are enumerated.
#![tactic(auto)]

#[cfg(test)]
mod always_broken;
#[cfg(test)]
mod answered;
#[cfg(test)]
mod behaviours;
#[cfg(test)]
mod campaigns;
#[cfg(test)]
mod contents;
#[cfg(test)]
mod escaped;
#[cfg(test)]
mod followed;
#[cfg(test)]
mod form_given;
#[cfg(test)]
mod gates;
#[cfg(test)]
mod given;
#[cfg(test)]
mod hits;
#[cfg(test)]
mod json_forms;
#[cfg(test)]
mod junit_forms;
#[cfg(test)]
mod keeping;
#[cfg(test)]
mod known;
#[cfg(test)]
mod late_sync;
#[cfg(test)]
mod maildir_judgements;
#[cfg(test)]
mod many_plans;
#[cfg(test)]
mod meet;
#[cfg(test)]
mod outside_runs;
#[cfg(test)]
mod own_words;
#[cfg(test)]
mod plain;
#[cfg(test)]
mod promises;
#[cfg(test)]
mod rare_counts;
#[cfg(test)]
mod reading;
#[cfg(test)]
mod refusals;
#[cfg(test)]
mod refused;
#[cfg(test)]
mod report_lines;
#[cfg(test)]
mod running;
#[cfg(test)]
mod shared;
#[cfg(test)]
mod streams;
#[cfg(test)]
mod three_codes;
#[cfg(test)]
mod told;
#[cfg(test)]
mod trees;
#[cfg(test)]
mod unlawful;
#[cfg(test)]
mod writing;
