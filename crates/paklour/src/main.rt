//! The command `paklour`: reads settings from a file or from standard input, and does one command with the target that they choose; or reads settings
//! from a file and answers from standard input, and writes what is still to be tried, or the report.
#![tactic(auto)]

ghost use Rattle.std.specs.Prelude.{◌≡◌, false};

use campaign_main::{
    Exit, Host, Line, Order, Question, perform, perform_follow, perform_outside, read_words,
    refuse_words, status, unreadable_settings, unreadable_words,
};
use campaign_progress::{Cleared, Progress};
use std::process::ExitCode;
use std::sync::Wait;
use std::thread::Threads;
use std::{env, fs, io};
use target_trait::{Out, Sink};
use work_gate::Gate;

fn main(rt: HostRuntime) -> ExitCode {
    let exit = run(&rt, &rt);
    ExitCode::from(status(&exit))
}

/// The program's words, its name first.
fn words(rt: &HostRuntime) -> io::Result<Vec<String>> {
    let words: Vec<String> = env::args(rt)?.collect(rt.alloc())?;
    Ok(words)
}

/// Does what the words ask for, with workers that `threads` starts.
fn run<H: Threads + Wait + Sync>(rt: &HostRuntime, threads: &H) -> Exit {
    let alloc = rt.alloc();
    let mut output = Out::new(rt.stdout());
    let mut faults = Out::new(rt.stderr());
    let words = match words(rt) {
        Ok(words) => words,
        Err(error) => return unreadable_words(&error, &mut faults),
    };
    match read_words(alloc, words.as_slice()) {
        Ok(
            Line::Own {
                order,
                progress,
                file,
            },
        ) => {
            let gate = Progress::new(rt, progress);
            let mut output = Cleared::new(&gate, output);
            let mut faults = Cleared::new(&gate, faults);
            let host = Host {
                rt: threads,
                alloc,
                gate: &gate,
            };
            run_order(rt, &host, &order, file, &mut output, &mut faults)
        }
        Ok(Line::Outside { question, file }) => {
            run_question(rt, &question, file, &mut output, &mut faults)
        }
        Ok(Line::Follow { file }) => run_follow(rt, file, &mut output, &mut faults),
        Err(fault) => refuse_words(alloc, &fault, &mut output, &mut faults),
    }
}

/// Carries out an order, with settings from a file or from standard input.
fn run_order<W: Sink, E: Sink, H: Threads + Wait + Sync, G: Gate>(
    rt: &HostRuntime,
    host: &Host<'_, G, H>,
    order: &Order,
    file: Option<String>,
    output: &mut W,
    faults: &mut E,
) -> Exit
    requires output { W.has_failed output.old ≡ false }
    requires faults { E.has_failed faults.old ≡ false }
{
    let Some(path) = file else {
        let mut input = rt.stdin();
        return perform(host, order, &mut input, output, faults);
    };
    match fs::open(rt, path) {
        Ok(mut input) => perform(host, order, &mut input, output, faults),
        Err(error) => unreadable_settings(&error, faults),
    }
}

/// Answers a question, with settings from a file and answers from standard input.
fn run_question<W: Sink, E: Sink>(
    rt: &HostRuntime,
    question: &Question,
    path: String,
    output: &mut W,
    faults: &mut E,
) -> Exit
    requires output { W.has_failed output.old ≡ false }
    requires faults { E.has_failed faults.old ≡ false }
{
    let mut answers = rt.stdin();
    match fs::open(rt, path) {
        Ok(mut settings) => {
            let alloc = rt.alloc();
            perform_outside(alloc, question, &mut settings, &mut answers, output, faults)
        }
        Err(error) => unreadable_settings(&error, faults),
    }
}

/// Writes which scenarios are still to be tried while answers come on standard input, with settings from a file. Standard output keeps nothing back, so
/// what was written can be read at once.
fn run_follow<W: Sink, E: Sink>(
    rt: &HostRuntime,
    path: String,
    output: &mut W,
    faults: &mut E,
) -> Exit
    requires output { W.has_failed output.old ≡ false }
    requires faults { E.has_failed faults.old ≡ false }
{
    let mut answers = rt.stdin();
    match fs::open(rt, path) {
        Ok(mut settings) => {
            perform_follow(rt.alloc(), &mut settings, &mut answers, output, faults)
        }
        Err(error) => unreadable_settings(&error, faults),
    }
}
