//! How the program ends if it has no settings to read.
ghost use Rattle.std.specs.Prelude.{◌≡◌, ◌↔◌, false, codes};
ghost use Rattle.std.specs.IoError.{error_kind};
ghost use Rattle.campaign_core.specs.Writes.{change};
ghost use Rattle.campaign_main.specs.Ends.{EndsWords, RefusesWith, TellsWords};
ghost use Rattle.campaign_main.specs.FaultLines.{unreadable_line};

use crate::exit::Exit;
use crate::lines::{cut_off, no_memory, refused};
use command_words::WordsFault;
use report::write_report;
use std::alloc::Global;
use std::io::{self, ErrorKind};
use target_trait::Sink;

/// Ends because the file of the settings can't be opened: as refused or, if the error says so, because memory was refused. One line on the sink of
/// faults says which.
pub fn unreadable_settings<E: Sink>(error: &io::Error, faults: &mut E) -> Exit
    requires { E.has_failed faults.old ≡ false }
    ensures end { RefusesWith unreadable_line result (change E.Sink faults.old faults.new) }
    ensures memory { (result ≡ Exit.Memory) ↔ (error_kind error.now ≡ ErrorKind.OutOfMemory) }
{
    unreadable(error, "settings: not readable\n", faults)
}

/// Ends because the program's words can't be read, for example since one isn't UTF-8: as refused or, if the error says so, because memory was
/// refused. One line on the sink of faults says which.
pub fn unreadable_words<E: Sink>(error: &io::Error, faults: &mut E) -> Exit
    requires { E.has_failed faults.old ≡ false }
    ensures end { RefusesWith (codes "error: invalid UTF-8 was detected in one or more arguments\n") result
        (change E.Sink faults.old faults.new) }
    ensures memory { (result ≡ Exit.Memory) ↔ (error_kind error.now ≡ ErrorKind.OutOfMemory) }
{
    unreadable(
        error,
        "error: invalid UTF-8 was detected in one or more arguments\n",
        faults,
    )
}

/// Ends as refused with this line, or because memory was refused.
fn unreadable<E: Sink>(error: &io::Error, line: &str, faults: &mut E) -> Exit
    requires { E.has_failed faults.old ≡ false }
    ensures end { RefusesWith line.now result (change E.Sink faults.old faults.new) }
    ensures memory { (result ≡ Exit.Memory) ↔ (error_kind error.now ≡ ErrorKind.OutOfMemory) }
{
    if error.kind() == ErrorKind::OutOfMemory {
        no_memory(faults)
    } else {
        refused(line, faults)
    }
}

/// Ends because of words that aren't a command with its settings, and writes what the program says to them.
///
/// Help and the version, if they were asked for, go to the output. The end is Kept, or Write if the output failed after a part of them. The text of
/// any other refusal goes to the sink of faults, the output is unchanged, and the end is Refused. If memory was refused, the output is unchanged and
/// the end is Memory. For Memory and Write one line on the sink of faults says so; for Kept nothing is written there.
pub fn refuse_words<W: Sink, E: Sink>(
    alloc: Global,
    fault: &WordsFault,
    output: &mut W,
    faults: &mut E,
) -> Exit
    requires output { W.has_failed output.old ≡ false }
    requires faults { E.has_failed faults.old ≡ false }
    ensures end { EndsWords result fault.now (change W.Sink output.old output.new) }
    ensures memory { fault.now ≡ WordsFault.Memory → result ≡ Exit.Memory }
    ensures told { TellsWords result (change E.Sink faults.old faults.new) }
{
    if let WordsFault::Memory = fault {
        return no_memory(faults);
    }
    let Ok(lines) = format!(in alloc; "{fault}") else {
        return no_memory(faults);
    };
    if !fault.is_shown() {
        return refused(lines.as_str(), faults);
    }
    match write_report(lines.as_bytes(), output) {
        Ok(()) => Exit::Kept,
        Err(fault) => cut_off(fault.written, faults),
    }
}
