//! The lines of a report of a campaign with a depth, read by their words.

use crate::behaviours::{Fault, Reply};
use crate::told::{Finding, Told, nothing};
use std::alloc::Global;
use std::test::Fail;
use target_trait::Verdict;

/// What the lines of a report say of verdicts, before the runs give the behaviours.
#[derive(Drop)]
pub struct Lines {
    pub told: Told,
    pub verdicts: Vec<Verdict>,
    pub findings: Vec<Finding>,
    /// How many plans and causes there are by the lines of their counts.
    plans: u32,
    causes: u32,
}

fn number_in(text: &str) -> Result<u32, Fail> {
    match text.parse::<u32>() {
        Ok(number) => Ok(number),
        Err(_) => Err(Fail::from("a word of the report that is no number")),
    }
}

fn code_in(text: &str) -> Result<u32, Fail> {
    match text {
        "one" => Ok(1),
        "two" => Ok(2),
        _ => Err(Fail::from("a code that no tree has")),
    }
}

fn verdict_in(word: &str, code: &str) -> Result<Verdict, Fail> {
    match word {
        "pass" => Ok(Verdict::Pass),
        "unresolved" => Ok(Verdict::Unresolved),
        "fail" => Ok(Verdict::Fail(code_in(code)?)),
        _ => Err(Fail::from("a verdict that no report has")),
    }
}

fn point_in(name: &str) -> Result<u32, Fail> {
    match name {
        "tree::a" => Ok(0),
        "tree::b" | "power::keep" => Ok(1),
        _ => Err(Fail::from("a point that no tree has")),
    }
}

/// What the task of a term answers; nothing if it lets hits go on.
fn reply_in(task: &str) -> Result<Option<Reply>, Fail> {
    match task {
        "off" => Ok(None),
        "return" => Ok(Some(Reply::Return)),
        "panic" => Ok(Some(Reply::Halt)),
        _ => Err(Fail::from("a task that no plan of a tree has")),
    }
}

/// Adds the faults at a point, which stand in a chain: each term is there for as many of the next hits as its count says, and a term without a count
/// for all further hits.
fn add_chain(faults: &mut Vec<Fault>, point: u32, chain: &str) -> Result<(), Fail> {
    let mut first = 1;
    for term in chain.split("->") {
        let (last, task) = match term.split_once("*") {
            Some((count, task)) => (Some(first + number_in(count)? - 1), task),
            None => (None, term),
        };
        if let Some(reply) = reply_in(task)? {
            faults.push(Fault {
                point,
                first,
                last,
                reply,
            })?;
        }
        first = match last {
            Some(last) => last + 1,
            None => u32::MAX,
        };
    }
    Ok(())
}

/// The faults of a scenario, as reports print it.
fn faults_in(alloc: Global, text: &str) -> Result<Vec<Fault>, Fail> {
    let mut faults = Vec::new(alloc);
    if text == "none" {
        return Ok(faults);
    }
    for entry in text.split(";") {
        let Some((name, chain)) = entry.split_once("=") else {
            return Err(Fail::from("an entry without a chain"));
        };
        add_chain(&mut faults, point_in(name)?, chain)?;
    }
    Ok(faults)
}

/// Takes a size in at its place, which has to be the next one.
fn add_next(sizes: &mut Vec<u32>, place: u32, size: &str) -> Result<(), Fail> {
    if sizes.len() != place as usize {
        return Err(Fail::from("lines that aren't in their order"));
    }
    sizes.push(number_in(size)?)?;
    Ok(())
}

impl Lines {
    fn new(alloc: Global, depth: u32) -> Self {
        Lines {
            told: nothing(alloc, depth),
            verdicts: Vec::new(alloc),
            findings: Vec::new(alloc),
            plans: 0,
            causes: 0,
        }
    }

    /// Takes in the finding that begins here; `first none` is that of none.
    fn begin_finding(&mut self, alloc: Global, number: &str, code: &str) -> Result<(), Fail> {
        if number == "none" {
            return Ok(());
        }
        self.findings.push(Finding {
            number: number_in(number)?,
            code: code_in(code)?,
            reduced: Vec::new(alloc),
        })?;
        Ok(())
    }

    /// Takes in what the last finding was reduced to.
    fn end_finding(&mut self, alloc: Global, scenario: &str) -> Result<(), Fail> {
        let Some(finding) = self.findings.last_mut() else {
            return Err(Fail::from("what is reduced, without its finding"));
        };
        finding.reduced = faults_in(alloc, scenario)?;
        Ok(())
    }

    /// Takes in a verdict, which has to be that of the next number.
    fn add_verdict(&mut self, number: &str, word: &str, code: &str) -> Result<(), Fail> {
        if self.verdicts.len() != number_in(number)? as usize {
            return Err(Fail::from("verdicts that aren't in their order"));
        }
        self.verdicts.push(verdict_in(word, code)?)?;
        Ok(())
    }

    /// Takes a line in, by its words.
    fn add(&mut self, alloc: Global, words: [&str; 4]) -> Result<(), Fail> {
        let [word, second, third, fourth] = words;
        match word {
            "verdict" => self.add_verdict(second, third, fourth)?,
            "target" | "seed" | "clean" | "census" | "scenario" | "tests" => {}
            "depth" => self.told.depth = number_in(second)?,
            "level" => add_next(&mut self.told.levels, number_in(second)?, third)?,
            "onward" => self.told.onward = number_in(second)?,
            "beyond" => self.told.beyond = u64::from(number_in(second)?),
            "reached" => add_next(&mut self.told.reached, point_in(second)?, third)?,
            "plans" => self.plans = number_in(second)?,
            "first" => self.begin_finding(alloc, second, third)?,
            "reduced" => self.end_finding(alloc, second)?,
            "causes" => self.causes = number_in(second)?,
            "cause" => self
                .told
                .causes
                .push((number_in(second)?, code_in(third)?))?,
            _ => return Err(Fail::from("a line that is unknown here")),
        }
        Ok(())
    }

    /// Whether there are as many plans and causes as the lines of their counts say.
    fn has_its_counts(&self) -> bool {
        self.verdicts.len() == self.plans as usize && self.told.causes.len() == self.causes as usize
    }
}

/// The first four words of a line.
fn words_of(line: &str) -> [&str; 4] {
    let mut words = line.split(" ");
    let mut first = [""; 4];
    for word in &mut first {
        *word = words.next().unwrap_or("");
    }
    first
}

/// What the lines of a report say.
pub fn read_report(alloc: Global, text: &str) -> Result<Lines, Fail> {
    let mut lines = Lines::new(alloc, 0);
    for line in text.lines() {
        lines.add(alloc, words_of(line))?;
    }
    if !lines.has_its_counts() {
        return Err(Fail::from("counts that aren't those of the lines"));
    }
    Ok(lines)
}
