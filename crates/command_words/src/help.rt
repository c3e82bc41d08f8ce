//! The texts of the help, which the reader of command lines lays out.

/// What the program does.
pub const ABOUT: &str =
    "Run a component under planned faults, and report what it kept of its promises";

pub const RUN: &str = "Run a campaign and write its report; with no command at all, this is done";

pub const PAGE: &str = "Run a campaign and write a page of it, as HTML";

pub const PLANS: &str = "Write the plans of a campaign, one scenario each, without running them";

/// The examples in the help of `run`.
pub const RUN_EXAMPLES: &str = "\
Examples:
  paklour run my.toml             the verdict of each plan, and each first failure, reduced
  paklour run < my.toml           settings from standard input
  paklour run --brief my.toml     no line for a verdict that passes, and scenarios beside the others
  paklour run --json my.toml      a JSON document, for programs that read the report
  paklour run --junit my.toml     JUnit's XML, which CI servers show as tests
  paklour run --strict my.toml    the same report, and warnings about its gaps on standard error
  paklour run --progress my.toml  the same report; meanwhile on standard error, in one line:
                                  plans 5201 of 65025, 1 failing, 5200 a second, 0:00:12 left

Give at most one of --brief, --json and --junit.";

/// The example in the help of `page`.
pub const PAGE_EXAMPLES: &str = "\
Example:
  paklour page my.toml > page.html
shows what was tried and found: each first failure with its run, hit by hit, a map of all plans,
and the plans by verdict, point and level. A browser opens it; it loads nothing from elsewhere.";

/// The examples in the help of `plans`.
pub const PLANS_EXAMPLES: &str = "\
Example:
  paklour plans my.toml
writes `plan 0 none`, `plan 1 replace::create=1*return` and so on; `--plan` takes the numbers.";

pub const TRY: &str = "Try one scenario and write its verdict";

pub const REDUCE: &str = "Reduce a scenario that fails to the faults that it needs to fail";

pub const EXPLAIN: &str = "Try one scenario, and write what was answered at each hit";

pub const ASKS: &str = "Write which scenarios are still to be tried on a component of your own";

pub const REPORT: &str = "Write the report of a campaign on a component of your own";

pub const FILE: &str =
    "Settings as TOML; `paklour help` lists their keys. Without FILE, standard input has them";

pub const NEEDED_FILE: &str =
    "Settings as TOML; `paklour help` lists their keys. Standard input has the answers";

pub const SCENARIO: &str = "The scenario, as 'POINT=TERM->TERM;POINT=TERM'";

pub const BRIEF: &str =
    "Count verdicts that pass, and write the scenario beside each other verdict";

pub const JSON: &str = "Write the report as a JSON document, for programs that read it";

pub const JUNIT: &str = "Write JUnit's XML, with a case for each plan";

pub const PAGE_FORM: &str = "Write the report as a page to look at, in HTML";

pub const PARTIAL: &str = "Write what is known so far, while scenarios are still to be tried";

pub const EXPLAIN_ANSWER: &str =
    "Write instead the run that an answer tells of this scenario, hit by hit";

pub const FOLLOW: &str = "Go on while answers come, and write each scenario as soon as it is known";

pub const STRICT: &str = "Warn on standard error about gaps in the report, and then end with 5";

pub const PROGRESS: &str =
    "Show on standard error how far it is; --progress=plain: in lines, for logs";

pub const PLAN: &str = "The scenario of plan N of the campaign, 0 to 65535, drawn as it is there";

/// The syntax of scenarios, for the commands that take one.
pub const SCENARIO_TEXT: &str = "\
A scenario gives points of the target their chains of terms; the census in a report names the
points. At each hit of a point the first term of its chain that isn't used up acts. A term
with a percentage acts by chance; if it doesn't act, the next one is looked at. If none acts, the
step is done.

A term is [PERCENT%][COUNT*]TASK[(ARGUMENT)], used up when it has acted COUNT times. The tasks:
  off, yield             the step is done
  print(TEXT)            the step is done, and a note is taken
  sleep(MS), delay(MS)   the step is done, and up to 1000000000 milliseconds are counted, not waited
  return                 the step fails
  panic                  the component stops there
  pause                  the run ends there, and is unresolved

A scenario has up to 65536 bytes, 256 entries, 256 terms in an entry, and 4096 terms besides off.

Examples:
  replace::sync=1*return            the first sync fails
  replace::write=2*off->1*panic     the component stops at the third write
  replace::create=20%return;replace::unlink=return

  paklour try --scenario 'replace::sync=1*return' my.toml
  paklour try --plan 10 my.toml     run plan 10 again, which the report has as `verdict 10 ..`
  paklour explain --plan 10 my.toml the same run, hit by hit
  paklour reduce --progress --plan 10 my.toml   while it asks, how many tests there were so far";

/// The format of answers, for the commands that read them.
pub const ANSWERS: &str = "\
If the settings say `target = \"outside\"`, the component is a program of your own, which something
else runs, such as a loop in a shell. Standard input has the answers so far, up to 268435456 bytes,
a line for each run:
  VERDICT<TAB>SCENARIO<TAB>HITS
The verdict is `pass`, `unresolved`, or `fail` and one of the settings' codes. The scenario is
`none`, the one without faults, or a text as in `paklour help try`. The hits are the points that
the run hit, in order, as in `sys::open;4*sys::write`. `-` stands for the hits of an unresolved run
that nobody knows. If the settings have no depth, the tab and the hits may be left out.
Answers may come in any order, and more than once. Two that contradict each other are refused.

`asks` writes the scenarios that have no answer yet, each on a line of its own, and nothing if all
is known. With --follow it goes on while answers come: each scenario is written once, as soon as it
is known, beginning with those that are asked if nothing is answered. It ends when nothing is left
to be tried, or when the answers end. `report` writes the report. If a scenario has no answer, it
says which one is `not answered`, and ends with 2.

Example:
  paklour asks my.toml < answers | xargs -r -d '\\n' -n 1 ./try.sh >> answers
  paklour report my.toml < answers
  paklour report --brief my.toml < answers
  paklour report --page my.toml < answers > page.html
  paklour report --partial my.toml < answers      what is known so far
  paklour report --explain 'sys::fsync=1*return' my.toml < answers      one run, hit by hit
  mkfifo new && paklour asks --follow my.toml < new | xargs -d '\\n' -n 1 ./try.sh |
      tee answers > new      each scenario as soon as it is known, with -P 4 four at a time
with settings as
  target = \"outside\"
  seed = 7
  [outside]
  label = \"my store\"
  codes = [\"lost\", \"torn\"]
  points = [\"sys::write\", \"sys::fsync\"]
  hits = [4, 2]";

/// The settings, an example of them, and the exit statuses.
pub const SETTINGS: &str = "\
Settings are TOML. Their keys, with ranges and defaults:
  target     \"replace\", \"maildir\", \"commit\" or \"outside\"; required
  variant    \"sound\", or one with a flaw, by the target; default \"sound\"
               replace: \"late_sync\", \"ignore_sync\", \"retry_write\", \"rename_first\", \"in_place\"
               maildir: \"link_first\", \"ignore_write\", \"append_tmp\", \"deliver_in_new\"
               commit:  \"lazy_prepare\", \"early_end\", \"two_tries\", \"end_first\"
  seed       the seed of all that is drawn, 0 to 9223372036854775807; default 0
  workers    how many threads run plans, 1 to 64; default 1
  max_hits   how many steps a run may take before it counts as unresolved, 1 to 100000; default 1000
  pairs      true or false: plans of two steps that both fail, or the second panics; default false
  storms     how many plans of faults drawn at random there are, 0 to 10000; default 0
  rate       how many steps in a thousand each of these plans draws, 0 to 1000; default 100
  depth      with up to how many returns and panics each behaviour is tried, 1 to 64, without pairs;
             default none: plans come from the run without faults
  crash_states  true or false: the power cut asks power::keep for each pending write; default false
  scenarios  scenarios to run as plans too, up to 1000 texts; default none
and a table for the target. Its keys are required where no default is named:
  [replace]
    old           the contents at first, a text of up to 65536 bytes
    replacements  up to 1000 lists of up to 1000 chunks
  [maildir]
    messages      up to 1000 lists of up to 1000 chunks
  [commit]
    participants  1 to 8
    transactions  up to 100 lists of \"yes\" and \"no\", one for each participant
  [outside]
    label         what the component is, a text of up to 200 bytes
    codes         what may follow `fail` in an answer, up to 64 texts of up to 200 bytes
    points        the names of its points, 1 to 64 texts of up to 200 bytes
    hits          how often each point is hit without faults, as many numbers from 0 to 100000;
                  with a depth the answers tell that, and this key is out of range
    kinds         with a depth alone: a table that lists for a point which faults are tried at its
                  hits, 1 to 8 of \"return\", \"return(TEXT)\" and \"panic\", none twice; TEXT has
                  up to 32 bytes; default return and panic, at power::keep return
With \"outside\" something else runs the component, a program of your own. Only plans, asks and report
take such settings, and plans only if they have no depth. The keys variant, workers, max_hits and
crash_states are unknown there.
A chunk is a text of up to 4096 bytes. `paklour help try` says what a scenario may hold.

Example:
  target = \"replace\"
  variant = \"late_sync\"
  seed = 7
  workers = 2
  [replace]
  old = \"old\"
  replacements = [[\"ne\", \"w\"]]

Exit status:
  0  no verdict is fail
  1  a verdict is fail
  2  the command line, the settings, a scenario or the answers were refused or couldn't be read, or
     there are too many plans; a line on standard error says which
  3  memory ran out
  4  a write failed
  5  with --strict: no verdict is fail, but there were warnings: an unresolved run, no hits without
     faults, a point that no run reaches, a name that no point has, hits that nobody knows, a fault
     that its run doesn't meet, or storms of rate 0";
