//! The words of the command line, read into a command. It reads words alone: no file is opened here.
ghost use Rattle.std.specs.Prelude.{◌≡◌, ◌↔◌, ◌∷◌, [], IsTrue, Some, None, not, option_map, is_some, true, false, ◌++◌, IfOk, IfErr, IfSome, OnOk, map, codes, string_bytes};
ghost use Rattle.clap.specs.Words.{app_of, fault_of, first_value, found_of, new_app, rule_of, subcommand_of, takes};
ghost use Rattle.clap.specs.declared.builder.command.Command.TheViews.{out-Command as fields_of};
ghost use Rattle.command_words.specs.Words.{AsksToSee, HasAlso, HasNeeded, IsFaultOf, IsLine, IsLineOf, IsName, IsOrder, IsOrderName, IsQuestion, IsQuestionName, IsRefusedFor, IsScenarioName, IsWhich, bare_app, campaign_commands, choice_fault, choice_kinds, file_app, file_rule, flag_rule, form_of, formed_app, told_app, named_if, needed_file_rule, paklour, is_followed, is_set, progress_form_of, spelled, spelled_word, asks_app, question_commands, question_report_app, report_app, scenario_app, scenario_commands, shown_app, value_rule, values_of, which_kinds, with_commands, words_fault, IsReportQuestion, is_alone, named_shown, only, only_kinds, report_kinds};
ghost use Rattle.command_words.specs.declared.words.WordsFault.TheVariants.{Memory};

use crate::help;
use crate::numbers::small_number;
use crate::refusing::{no_number, two_forms, unfit, usage};
use clap::error::ErrorKind;
use clap::{Arg, ArgAction, ArgMatches, Command};
use std::alloc::{AllocError, Global};
use std::error::Error;
use std::fmt;

/// The version of the program, as `paklour --version` writes it.
pub const VERSION: &str = "0.9.0";

/// The scenario that a command takes.
#[derive(Debug, Drop)]
pub enum Which {
    /// The scenario that this text spells, under stream number 0.
    Scenario(String),
    /// The scenario of the plan with this number, under the plan's number as its stream number.
    Plan(u16),
}

/// The form in which a report is written.
#[derive(Clone, Copy, Debug)]
pub enum Form {
    /// A text with the verdict of each plan.
    Whole,
    /// The text with one line of counts for all verdicts that pass, and the scenario beside each other verdict.
    Brief,
    /// A JSON document.
    Json,
    /// JUnit's XML.
    Junit,
    /// A page, as HTML.
    Page,
}

/// What `report` shows of a campaign by answers.
#[derive(Clone, Copy, Debug)]
pub enum Shown {
    /// Its report, in a form.
    Report(Form),
    /// What is known so far, if something is still to be tried.
    Partial,
}

impl Shown {
    // The flag that names it. The whole report has none.
    fn flag(self) -> &'static str {
        match self {
            Shown::Report(Form::Whole) => "",
            Shown::Report(Form::Brief) => "brief",
            Shown::Report(Form::Json) => "json",
            Shown::Report(Form::Junit) => "junit",
            Shown::Report(Form::Page) => "page",
            Shown::Partial => "partial",
        }
    }
}

/// The form in which the program shows how far plans or a reduction are.
#[derive(Clone, Copy, Debug, PartialEq, Eq)]
pub enum ProgressForm {
    /// It shows nothing.
    Off,
    /// In one line that is written over.
    Line,
    /// In plain lines, as logs keep them.
    Plain,
}

/// What the program is to do.
#[derive(Debug, Drop)]
pub enum Order {
    /// Run a campaign, and write its report. If `strict` is set, warn on standard error of what makes the report say less than it seems to.
    Run { form: Form, strict: bool },
    /// List a campaign's plans.
    Plans,
    /// Try a scenario.
    Try(Which),
    /// Reduce a scenario.
    Reduce(Which),
    /// Run a scenario, and show the run hit by hit.
    Explain(Which),
}

/// What a command asks about a component that somebody else runs, by the answers on standard input.
#[derive(Debug, Drop)]
pub enum Question {
    /// Which scenarios are still to be tried.
    Asks,
    /// The campaign's report, or what is known so far. If `strict` is set, warn on standard error of what makes a report say less than it seems to.
    Report { shown: Shown, strict: bool },
    /// The run that the answers record for the scenario which this text spells, hit by hit.
    Explain(String),
}

/// The command that the words name.
#[derive(Debug, Drop)]
pub enum Line {
    /// A command over a target. `file` has the settings; `None` if they come from standard input. `progress` is how the program shows how far plans
    /// or a reduction are; only run, page and reduce have it, and for each other command it is off.
    Own {
        order: Order,
        progress: ProgressForm,
        file: Option<String>,
    },
    /// A question, with the settings in the file and the answers on standard input.
    Outside {
        question: Question,
        file: String,
    },
    /// Which scenarios are still to be tried, each as soon as it is known, with the settings in the file, while answers come on standard input.
    Follow {
        file: String,
    },
}

/// Why the words give no line.
#[derive(Debug, Drop)]
pub enum WordsFault {
    /// The words ask for help or for the version, or are refused.
    Refused(clap::Error),
    /// Memory was refused.
    Memory,
}

impl WordsFault {
    /// Whether the words asked for help, or for the version. Its text goes to standard output, and the program ends with status 0; any
    /// other refusal goes to standard error.
    pub fn is_shown(&self) -> bool
        ensures { IsTrue result ↔ AsksToSee self.now }
    {
        match self {
            WordsFault::Refused(error) => matches!(
                error.kind(),
                ErrorKind::DisplayHelp | ErrorKind::DisplayVersion
            ),
            WordsFault::Memory => false,
        }
    }
}

/// The lines to show, each ended by its line feed.
impl fmt::Display for WordsFault {
    fn fmt<W: fmt::Write>(&self, f: &mut fmt::Formatter<W>) -> fmt::Result {
        match self {
            WordsFault::Refused(error) => write!(f, "{error}"),
            WordsFault::Memory => f.write_str("no memory\n"),
        }
    }
}

impl Error for WordsFault {}

impl From<AllocError> for WordsFault {
    ghost from_gives = { λ _ fault. fault ≡ Memory };

    fn from(_: AllocError) -> WordsFault {
        WordsFault::Memory
    }
}

/// FILE, which may be left out.
fn file_arg<'a>(alloc: Global) -> Arg<'a>
    ensures rule { rule_of result ≡ file_rule }
    ensures local { result.global ≡ false }
{
    Arg::new(alloc, "file").value_name("FILE").help(help::FILE)
}

/// FILE, which has to be given.
fn needed_file_arg<'a>(alloc: Global) -> Arg<'a>
    ensures rule { rule_of result ≡ needed_file_rule }
    ensures local { result.global ≡ false }
{
    Arg::new(alloc, "file")
        .value_name("FILE")
        .required(true)
        .help(help::NEEDED_FILE)
}

/// An option of this name that takes a value.
fn value_arg<'a>(alloc: Global, name: &'a str, value: &'a str, help: &'a str) -> Arg<'a>
    ensures rule { rule_of result ≡ value_rule name.entry.now }
    ensures local { result.global ≡ false }
{
    Arg::new(alloc, name)
        .long(name)
        .value_name(value)
        .help(help)
}

/// An option of this name that takes none.
fn flag_arg<'a>(alloc: Global, name: &'a str, help: &'a str) -> Arg<'a>
    ensures rule { rule_of result ≡ flag_rule name.entry.now }
    ensures local { result.global ≡ false }
{
    Arg::new(alloc, name)
        .long(name)
        .action(ArgAction::SetTrue)
        .help(help)
}

/// A command of this name that takes nothing yet, with the examples of its help.
fn named<'a>(alloc: Global, name: &'a str, about: &'a str, examples: &'a str) -> Command<'a>
    ensures app { app_of result ≡ new_app name.entry.now }
    ensures local { (fields_of result).has_globals ≡ false }
{
    Command::new(alloc, name).about(about).after_help(examples)
}

fn file_command<'a>(
    alloc: Global,
    name: &'a str,
    about: &'a str,
    examples: &'a str,
) -> Result<Command<'a>, AllocError>
    ensures app { IfOk result (λ command. app_of command ≡ file_app name.entry.now) }
    ensures local { IfOk result (λ command. (fields_of command).has_globals ≡ false) }
{
    named(alloc, name, about, examples).arg(file_arg(alloc))
}

// The command with the flags that name the form of a report. At most one of them may be given.
fn with_forms<'a>(alloc: Global, command: Command<'a>) -> Result<Command<'a>, AllocError>
    requires { (fields_of command).has_globals ≡ false }
    ensures app { IfOk result (λ more. app_of more ≡ formed_app (app_of command.entry)) }
    ensures local { IfOk result (λ more. (fields_of more).has_globals ≡ false) }
{
    command
        .arg(flag_arg(alloc, "brief", help::BRIEF))?
        .arg(flag_arg(alloc, "json", help::JSON))?
        .arg(flag_arg(alloc, "junit", help::JUNIT))
}

// The command with the flags by which it shows how far it is.
fn with_progress<'a>(alloc: Global, command: Command<'a>) -> Result<Command<'a>, AllocError>
    requires { (fields_of command).has_globals ≡ false }
    ensures app { IfOk result (λ more. app_of more ≡ shown_app (app_of command.entry)) }
    ensures local { IfOk result (λ more. (fields_of more).has_globals ≡ false) }
{
    command
        .arg(flag_arg(alloc, "progress", help::PROGRESS))?
        .arg(flag_arg(alloc, "progress-plain", help::PROGRESS).hide(true))
}

fn report_command<'a>(
    alloc: Global,
    name: &'a str,
    about: &'a str,
    examples: &'a str,
) -> Result<Command<'a>, AllocError>
    ensures app { IfOk result (λ command. app_of command ≡ report_app name.entry.now) }
    ensures local { IfOk result (λ command. (fields_of command).has_globals ≡ false) }
{
    with_forms(alloc, named(alloc, name, about, examples))?
        .arg(flag_arg(alloc, "strict", help::STRICT))?
        .arg(file_arg(alloc))
}

/// A command of this name that takes FILE, and `--scenario` or `--plan`.
fn scenario_command<'a>(
    alloc: Global,
    name: &'a str,
    about: &'a str,
) -> Result<Command<'a>, AllocError>
    ensures app { IfOk result (λ command. app_of command ≡ scenario_app name.entry.now) }
    ensures local { IfOk result (λ command. (fields_of command).has_globals ≡ false) }
{
    named(alloc, name, about, help::SCENARIO_TEXT)
        .override_usage(usage(name))
        .arg(value_arg(alloc, "scenario", "TEXT", help::SCENARIO))?
        .arg(value_arg(alloc, "plan", "N", help::PLAN))?
        .arg(file_arg(alloc))
}

// The command that runs a campaign and reports it.
fn run_command<'a>(alloc: Global) -> Result<Command<'a>, AllocError>
    ensures app { IfOk result (λ command. app_of command ≡ shown_app (report_app (codes "run"))) }
    ensures local { IfOk result (λ command. (fields_of command).has_globals ≡ false) }
{
    let command = report_command(alloc, "run", help::RUN, help::RUN_EXAMPLES)?;
    with_progress(alloc, command)
}

// A command of this name that runs a campaign and shows it.
fn page_command<'a>(
    alloc: Global,
    name: &'a str,
    about: &'a str,
    examples: &'a str,
) -> Result<Command<'a>, AllocError>
    ensures app { IfOk result (λ command. app_of command ≡ shown_app (file_app name.entry.now)) }
    ensures local { IfOk result (λ command. (fields_of command).has_globals ≡ false) }
{
    let command = file_command(alloc, name, about, examples)?;
    with_progress(alloc, command)
}

// The command that reduces a scenario.
fn reduce_command<'a>(alloc: Global) -> Result<Command<'a>, AllocError>
    ensures app { IfOk result (λ command. app_of command ≡ shown_app (scenario_app (codes "reduce"))) }
    ensures local { IfOk result (λ command. (fields_of command).has_globals ≡ false) }
{
    let command = scenario_command(alloc, "reduce", help::REDUCE)?;
    with_progress(alloc, command)
}

fn asks_command<'a>(alloc: Global, name: &'a str, about: &'a str) -> Result<Command<'a>, AllocError>
    ensures app { IfOk result (λ command. app_of command ≡ asks_app name.entry.now) }
    ensures local { IfOk result (λ command. (fields_of command).has_globals ≡ false) }
{
    named(alloc, name, about, help::ANSWERS)
        .arg(flag_arg(alloc, "follow", help::FOLLOW))?
        .arg(needed_file_arg(alloc))
}

fn question_report_command<'a>(
    alloc: Global,
    name: &'a str,
    about: &'a str,
) -> Result<Command<'a>, AllocError>
    ensures app { IfOk result (λ command. app_of command ≡ question_report_app name.entry.now) }
    ensures local { IfOk result (λ command. (fields_of command).has_globals ≡ false) }
{
    with_shown(alloc, named(alloc, name, about, help::ANSWERS))?
        .arg(value_arg(alloc, "explain", "TEXT", help::EXPLAIN_ANSWER))?
        .arg(flag_arg(alloc, "strict", help::STRICT))?
        .arg(needed_file_arg(alloc))
}

// The command with the flags that name what is shown by answers. At most one of them may be given.
fn with_shown<'a>(alloc: Global, command: Command<'a>) -> Result<Command<'a>, AllocError>
    requires { (fields_of command).has_globals ≡ false }
    ensures app { IfOk result (λ more. app_of more ≡ told_app (app_of command.entry)) }
    ensures local { IfOk result (λ more. (fields_of more).has_globals ≡ false) }
{
    with_forms(alloc, command)?
        .arg(flag_arg(alloc, "page", help::PAGE_FORM))?
        .arg(flag_arg(alloc, "partial", help::PARTIAL))
}

// The command with one more subcommand.
fn with<'a>(
    command: Command<'a>,
    sub: Result<Command<'a>, AllocError>,
) -> Result<Command<'a>, AllocError>
    requires { IfOk sub (λ s. (fields_of s).has_globals ≡ false) }
    ensures { IfOk result (HasAlso (app_of command.entry) sub.entry) }
{
    command.subcommand(sub?)
}

// The command without its subcommands.
fn bare<'a>(alloc: Global) -> Command<'a>
    ensures { app_of result ≡ bare_app }
{
    Command::new(alloc, "paklour")
        .version(VERSION)
        .about(help::ABOUT)
        .after_help(help::SETTINGS)
}

// The command with what is done over a whole campaign.
fn with_campaigns<'a>(alloc: Global, command: Command<'a>) -> Result<Command<'a>, AllocError>
    ensures { IfOk result (λ more. app_of more ≡ with_commands (app_of command.entry) campaign_commands) }
{
    let command = with(command, run_command(alloc))?;
    let plans = file_command(alloc, "plans", help::PLANS, help::PLANS_EXAMPLES);
    let command = with(command, plans)?;
    let page = page_command(alloc, "page", help::PAGE, help::PAGE_EXAMPLES);
    with(command, page)
}

// The command with what is done over one scenario.
fn with_scenarios<'a>(alloc: Global, command: Command<'a>) -> Result<Command<'a>, AllocError>
    ensures { IfOk result (λ more. app_of more ≡ with_commands (app_of command.entry) scenario_commands) }
{
    let command = with(command, scenario_command(alloc, "try", help::TRY))?;
    let command = with(command, reduce_command(alloc))?;
    with(command, scenario_command(alloc, "explain", help::EXPLAIN))
}

// The command with the questions on a component that somebody else runs.
fn with_questions<'a>(alloc: Global, command: Command<'a>) -> Result<Command<'a>, AllocError>
    ensures { IfOk result (λ more. app_of more ≡ with_commands (app_of command.entry) question_commands) }
{
    let command = with(command, asks_command(alloc, "asks", help::ASKS))?;
    with(
        command,
        question_report_command(alloc, "report", help::REPORT),
    )
}

/// The whole command line of the program, as the reader of command lines takes it.
fn command<'a>(alloc: Global) -> Result<Command<'a>, AllocError>
    ensures { IfOk result (λ command. app_of command ≡ paklour) }
{
    let command = with_campaigns(alloc, bare(alloc))?;
    let command = with_scenarios(alloc, command)?;
    with_questions(alloc, command)
}

/// The command that the words name. The first word is the program's name.
///
/// Words name a command only if the reader of command lines finds no fault in them, and if a command that takes a scenario has one: a text, or the
/// number of a plan from 0 to 65535, and not both. `Err` is the fault, or that memory was refused. Help and the version come as faults too, if the
/// words ask for them.
pub fn read_words(alloc: Global, words: &[String]) -> Result<Line, WordsFault>
    ensures ok { IfOk result (IsLine (subcommand_of paklour (map spelled_word words.now))) }
    ensures taken { IfOk result (λ _. words_fault (map spelled_word words.now) ≡ []) }
    ensures refused { IfErr result (IsRefusedFor (words_fault (map spelled_word words.now))) }
    ensures memory { IfErr result (λ fault. takes paklour (map spelled_word words.now) ≡ true
        → choice_fault (subcommand_of paklour (map spelled_word words.now)) ≡ [] → fault ≡ Memory) }
{
    let spelled = spelled_words(alloc, words)?;
    read_spelled(alloc, spelled.as_slice())
}

// The words as the reader of command lines takes them. It knows no option whose value may be left out and otherwise stands behind a `=`.
fn spelled_words<'a>(alloc: Global, words: &'a [String]) -> Result<Vec<&'a str>, AllocError>
    ensures { IfOk result (λ all. map (λ word. word.now) all.items ≡ map spelled_word words.now) }
{
    let mut all = Vec::with_capacity(alloc, words.len())?;
    for word in words {
        all.push(spelled(word.as_str()))?;
    }
    Ok(all)
}

// The word as the reader of command lines takes it.
fn spelled<'a>(word: &'a str) -> &'a str
    ensures { result.now ≡ spelled word.now }
{
    if word == "--progress=plain" {
        "--progress-plain"
    } else if word == "--progress=line" {
        "--progress"
    } else {
        word
    }
}

// The command that words give as the reader of command lines takes them.
fn read_spelled(alloc: Global, words: &[&str]) -> Result<Line, WordsFault>
    ensures ok { IfOk result (IsLine (subcommand_of paklour (map (λ word. word.now) words.now))) }
    ensures taken { IfOk result (λ _. words_fault (map (λ word. word.now) words.now) ≡ []) }
    ensures refused { IfErr result (IsRefusedFor (words_fault (map (λ word. word.now) words.now))) }
    ensures memory { IfErr result (λ fault. takes paklour (map (λ word. word.now) words.now) ≡ true
        → choice_fault (subcommand_of paklour (map (λ word. word.now) words.now)) ≡ [] → fault ≡ Memory) }
{
    let command = command(alloc)?;
    let matches = match command.try_get_matches_from(words) {
        Ok(matches) => matches,
        Err(error) => return Err(refusal(error)),
    };
    match matches.subcommand() {
        Some((name, own)) => line_of(alloc, name, own),
        None => Ok(Line::Own {
            order: Order::Run {
                form: Form::Whole,
                strict: false,
            },
            progress: ProgressForm::Off,
            file: None,
        }),
    }
}

/// The fault for what the reader of command lines found.
fn refusal(error: clap::Error) -> WordsFault
    ensures { IsFaultOf error result }
{
    if error.kind() == ErrorKind::OutOfMemory {
        WordsFault::Memory
    } else {
        WordsFault::Refused(error)
    }
}

// The line of a command's name and its matches.
fn line_of<'a>(alloc: Global, name: &str, own: &ArgMatches<'a>) -> Result<Line, WordsFault>
    requires name { IsName name.now }
    requires needed { HasNeeded name.now (first_value (found_of own.now) (codes "file")) }
    ensures ok { IfOk result (IsLineOf name.now (values_of (found_of own.now))) }
    ensures taken { IfOk result (λ _. choice_kinds name.now (values_of (found_of own.now)) ≡ []) }
    ensures refused { IfErr result (IsRefusedFor (choice_kinds name.now (values_of (found_of own.now)))) }
{
    if is_followed(name, own) {
        return Ok(Line::Follow {
            file: given(alloc, own, "file")?,
        });
    }
    match question_of(alloc, name, own)? {
        Some(question) => Ok(Line::Outside {
            question,
            file: given(alloc, own, "file")?,
        }),
        None => Ok(Line::Own {
            order: order_of(alloc, name, own)?,
            progress: progress_form(own),
            file: file_of(alloc, own)?,
        }),
    }
}

// Whether the command of this name follows the answers.
fn is_followed<'a>(name: &str, own: &ArgMatches<'a>) -> bool
    ensures { result ≡ is_followed name.now (values_of (found_of own.now)) }
{
    name == "asks" && is_set(own, "follow")
}

// The form in which progress is shown. If both are asked for, it is plain lines.
fn progress_form<'a>(own: &ArgMatches<'a>) -> ProgressForm
    ensures { result ≡ progress_form_of (values_of (found_of own.now)) }
{
    if is_set(own, "progress-plain") {
        ProgressForm::Plain
    } else if is_set(own, "progress") {
        ProgressForm::Line
    } else {
        ProgressForm::Off
    }
}

/// The question that a command of this name asks; `None` if it asks none.
fn question_of<'a>(
    alloc: Global,
    name: &str,
    own: &ArgMatches<'a>,
) -> Result<Option<Question>, WordsFault>
    requires { is_followed name.now (values_of (found_of own.now)) ≡ false }
    ensures some { IfOk result (λ question. IfSome question (IsQuestion name.now (values_of (found_of own.now)))) }
    ensures none { IfOk result (λ question. question ≡ None → ¬ IsQuestionName name.now) }
    ensures taken { IfOk result (λ question. is_some question ≡ true → choice_kinds name.now (values_of (found_of own.now)) ≡ []) }
    ensures refused { IfErr result (IsRefusedFor (choice_kinds name.now (values_of (found_of own.now)))) }
{
    match name {
        "asks" => Ok(Some(Question::Asks)),
        "report" => Ok(Some(report_question(alloc, own)?)),
        _ => Ok(None),
    }
}

// Adds what is shown, if its flag was given.
fn add_named<'a>(
    named: &mut Vec<Shown>,
    own: &ArgMatches<'a>,
    flag: &str,
    shown: Shown,
) -> Result<(), AllocError>
    ensures { OnOk result (named.new.items ≡ named.old.items ++ named_if (first_value (found_of own.now) flag.now) shown) }
{
    if is_set(own, flag) {
        named.push(shown)?;
    }
    Ok(())
}

// What the flags that were given name.
fn named_shown<'a>(alloc: Global, own: &ArgMatches<'a>) -> Result<Vec<Shown>, AllocError>
    ensures { IfOk result (λ named. named.items ≡ named_shown (values_of (found_of own.now))) }
{
    let mut named = Vec::new(alloc);
    add_named(&mut named, own, "brief", Shown::Report(Form::Brief))?;
    add_named(&mut named, own, "json", Shown::Report(Form::Json))?;
    add_named(&mut named, own, "junit", Shown::Report(Form::Junit))?;
    add_named(&mut named, own, "page", Shown::Report(Form::Page))?;
    add_named(&mut named, own, "partial", Shown::Partial)?;
    Ok(named)
}

// What is shown. At most one flag names it.
fn only_shown(alloc: Global, named: &[Shown]) -> Result<Shown, WordsFault>
    ensures ok { IfOk result (λ shown. only (Shown.Report Form.Whole) named.now ≡ Some shown) }
    ensures taken { IfOk result (λ _. only_kinds (only (Shown.Report Form.Whole) named.now) ≡ []) }
    ensures refused { IfErr result (IsRefusedFor (only_kinds (only (Shown.Report Form.Whole) named.now))) }
{
    match named {
        [] => Ok(Shown::Report(Form::Whole)),
        [shown] => Ok(*shown),
        [one, other, ..] => Err(two_forms(alloc, "report", one.flag(), other.flag())),
    }
}

// The flag that may not stand beside --explain TEXT, if one was given.
fn flag_beside(named: &[Shown], strict: bool) -> Option<&'static str>
    ensures { is_some result ≡ not (is_alone named.now strict) }
{
    match named.first() {
        Some(shown) => Some(shown.flag()),
        None if strict => Some("strict"),
        None => None,
    }
}

// What the command that writes a report by answers asks.
fn report_question<'a>(alloc: Global, own: &ArgMatches<'a>) -> Result<Question, WordsFault>
    ensures ok { IfOk result (IsReportQuestion (values_of (found_of own.now))) }
    ensures taken { IfOk result (λ _. report_kinds (values_of (found_of own.now)) ≡ []) }
    ensures refused { IfErr result (IsRefusedFor (report_kinds (values_of (found_of own.now)))) }
{
    let named = named_shown(alloc, own)?;
    let strict = is_strict(own);
    let Some(text) = own.get_str("explain") else {
        let shown = only_shown(alloc, named.as_slice())?;
        return Ok(Question::Report { shown, strict });
    };
    match flag_beside(named.as_slice(), strict) {
        Some(flag) => Err(two_forms(alloc, "report", "explain <TEXT>", flag)),
        None => Ok(Question::Explain(String::from_str(alloc, text)?)),
    }
}

// The form of the report that `run` writes. At most one flag names it.
fn form_of<'a>(alloc: Global, own: &ArgMatches<'a>) -> Result<Form, WordsFault>
    ensures ok { IfOk result (λ form. form_of (values_of (found_of own.now)) ≡ Some form) }
    ensures taken { IfOk result (λ _. only_kinds (form_of (values_of (found_of own.now))) ≡ []) }
    ensures refused { IfErr result (IsRefusedFor (only_kinds (form_of (values_of (found_of own.now))))) }
{
    let (brief, json, junit) = (
        is_set(own, "brief"),
        is_set(own, "json"),
        is_set(own, "junit"),
    );
    match (brief, json, junit) {
        (false, false, false) => Ok(Form::Whole),
        (true, false, false) => Ok(Form::Brief),
        (false, true, false) => Ok(Form::Json),
        (false, false, true) => Ok(Form::Junit),
        (true, true, _) => Err(two_forms(alloc, "run", "brief", "json")),
        (true, false, true) => Err(two_forms(alloc, "run", "brief", "junit")),
        (false, true, true) => Err(two_forms(alloc, "run", "json", "junit")),
    }
}

// Whether the report is to be strict.
fn is_strict<'a>(own: &ArgMatches<'a>) -> bool
    ensures { result ≡ is_set (values_of (found_of own.now)).strict }
{
    is_set(own, "strict")
}

// Whether the flag of this name was given.
fn is_set<'a>(own: &ArgMatches<'a>, flag: &str) -> bool
    ensures { result ≡ is_set (first_value (found_of own.now) flag.now) }
{
    own.get_str(flag) == Some("true")
}

// The order of a command's name and its matches.
fn order_of<'a>(alloc: Global, name: &str, own: &ArgMatches<'a>) -> Result<Order, WordsFault>
    requires name { IsOrderName name.now }
    ensures ok { IfOk result (IsOrder name.now (values_of (found_of own.now))) }
    ensures taken { IfOk result (λ _. choice_kinds name.now (values_of (found_of own.now)) ≡ []) }
    ensures refused { IfErr result (IsRefusedFor (choice_kinds name.now (values_of (found_of own.now)))) }
{
    match name {
        "run" => Ok(Order::Run {
            form: form_of(alloc, own)?,
            strict: is_strict(own),
        }),
        "plans" => Ok(Order::Plans),
        "page" => Ok(Order::Run {
            form: Form::Page,
            strict: false,
        }),
        "try" => Ok(Order::Try(which_of(alloc, name, own)?)),
        "reduce" => Ok(Order::Reduce(which_of(alloc, name, own)?)),
        "explain" => Ok(Order::Explain(which_of(alloc, name, own)?)),
        _ => unreachable!(),
    }
}

// The scenario that a command of this name takes.
fn which_of<'a>(alloc: Global, name: &str, own: &ArgMatches<'a>) -> Result<Which, WordsFault>
    requires { IsScenarioName name.now }
    ensures ok { IfOk result (IsWhich (values_of (found_of own.now))) }
    ensures taken { IfOk result (λ _. (let v = values_of (found_of own.now) in which_kinds v.scenario v.plan) ≡ []) }
    ensures refused { IfErr result (IsRefusedFor (let v = values_of (found_of own.now) in which_kinds v.scenario v.plan)) }
{
    match (own.get_str("scenario"), own.get_str("plan")) {
        (Some(text), None) => Ok(Which::Scenario(String::from_str(alloc, text)?)),
        (None, Some(text)) => match small_number(text) {
            Some(number) => Ok(Which::Plan(number)),
            None => Err(no_number(alloc, name, text)),
        },
        (None, None) => Err(unfit(
            alloc,
            name,
            ErrorKind::MissingRequiredArgument,
            "the following required arguments were not provided:\n  <--scenario <TEXT>|--plan <N>>",
        )),
        (Some(_), Some(_)) => Err(unfit(
            alloc,
            name,
            ErrorKind::ArgumentConflict,
            "the argument '--scenario <TEXT>' cannot be used with '--plan <N>'",
        )),
    }
}

// A copy of FILE.
fn file_of<'a>(alloc: Global, own: &ArgMatches<'a>) -> Result<Option<String>, AllocError>
    ensures { IfOk result (λ file. option_map string_bytes file ≡ first_value (found_of own.now) (codes "file")) }
{
    match own.get_str("file") {
        Some(file) => Ok(Some(String::from_str(alloc, file)?)),
        None => Ok(None),
    }
}

// A copy of the value of an argument that was given.
fn given<'a>(alloc: Global, own: &ArgMatches<'a>, id: &str) -> Result<String, AllocError>
    requires { is_some (first_value (found_of own.now) id.now) ≡ true }
    ensures { IfOk result (λ text. first_value (found_of own.now) id.now ≡ Some (string_bytes text)) }
{
    match own.get_str(id) {
        Some(text) => String::from_str(alloc, text),
        None => unreachable!(),
    }
}
