//! What the program does, over any reader and any sinks.
ghost use Rattle.std.specs.Prelude.{◌≡◌, false, IfSome};
ghost use Rattle.campaign_main.specs.Commands.{answer_of, text_answer};
ghost use Rattle.campaign_core.specs.Writes.{change};
ghost use Rattle.campaign_main.specs.Ends.{EndsAs, EndsBy, Leaves, NotesBy, OnWhole, RefusesBy, Tells, TellsAs};
ghost use Rattle.campaign_main.specs.Promises.{TextKeepsPromises};

use crate::chosen::chosen_command;
use crate::exit::Exit;
use crate::input::read_all;
use crate::lines::{end_bad_settings, end_outcome, end_unreadable_settings};
use campaign_core::Host;
use campaign_settings::Settings;
use command_words::Order;
use std::io::Read;
use std::sync::Wait;
use std::thread::Threads;
use target_trait::Sink;
use work_gate::Gate;

/// Does what is ordered, by the settings that a text gives.
fn perform_text<W: Sink, E: Sink, H: Threads + Wait + Sync, G: Gate>(
    host: &Host<'_, G, H>,
    order: &Order,
    text: &str,
    output: &mut W,
    faults: &mut E,
) -> Exit
    requires output { W.has_failed output.old ≡ false }
    requires faults { E.has_failed faults.old ≡ false }
    ensures end { EndsAs result (text_answer order.now text.now) (change W.Sink output.old output.new) }
    ensures told { TellsAs result (text_answer order.now text.now)
        (change E.Sink faults.old faults.new) }
    ensures promises { OnWhole result (TextKeepsPromises order.now text.now) }
{
    match Settings::read(host.alloc, text) {
        Ok(settings) => {
            let outcome = chosen_command(host, order, &settings, output);
            end_outcome(host.alloc, outcome, faults)
        }
        Err(fault) => end_bad_settings(host.alloc, &fault, faults),
    }
}

/// Reads settings, does what is ordered with the target that they choose, and writes the command's text to the output. This is how it ends:
///
/// | End | When | The output has | The sink of faults has |
/// |---|---|---|---|
/// | Kept | no verdict in the text is fail | the whole text | the notes, if any |
/// | Found | a verdict in the text is fail | the whole text | the notes, if any |
/// | Doubted | as Kept, but the order is strict and there are notes | the whole text | the notes |
/// | Refused | the command is refused, as said below | nothing | one line, on the first fault |
/// | Memory | memory was refused | nothing | one line |
/// | Write | the output failed | a part of the text, of as many bytes as Write says | one line |
///
/// A command is refused if the settings can't be read or have a fault, if a scenario has a fault, if no plan has the number that was given, or if
/// there are more than 65536 plans. On a component that somebody else runs any order is refused except to list its plans, and with a depth that is
/// refused too. Faults are looked for in a fixed order, and the line names the first. A line that can't be written, or not whole, changes no end.
///
/// The notes on the text of try, reduce and explain are a line for each name in the scenario that no point of the target has, in the scenario's
/// order, `scenario: no point is named NAME`; and one if a control character stands in the scenario. For run and plans there are such lines for each
/// listed scenario: `settings: scenario 1: no point is named NAME`. A strict run adds what its report doesn't show. Notes are written once the whole
/// text is in the output.
///
/// Workers arrive at the gate before each plan and each test of a reduction. What comes of the command is the same with every gate.
///
/// Each reduced scenario in a text that was written whole fails with its code, under the same seed, stream number and limit as what it was reduced
/// from, and without any single one of its faults it doesn't.
///
/// If contracts see the reader's bytes, as those of a slice, the contract says which text, which fault and which reduced scenarios come. If they see
/// what a sink wrote, as with [`target_trait::Out`] over a `Vec`, it says which bytes were written. For any other reader it says that the end and the
/// line are those that some settings have. For any other sink it says whether it has failed: the output only at Write, and the sink of faults only if
/// its line wasn't written whole.
pub fn perform<R: Read, W: Sink, E: Sink, H: Threads + Wait + Sync, G: Gate>(
    host: &Host<'_, G, H>,
    order: &Order,
    reader: &mut R,
    output: &mut W,
    faults: &mut E,
) -> Exit
    requires output { W.has_failed output.old ≡ false }
    requires faults { E.has_failed faults.old ≡ false }
    ensures end { EndsBy (answer_of order.now) (R.remaining reader.old) result (change W.Sink output.old output.new) }
    ensures noted { NotesBy (answer_of order.now) (R.remaining reader.old) result (change E.Sink faults.old faults.new) }
    ensures cause { RefusesBy (answer_of order.now) (R.remaining reader.old) result (change E.Sink faults.old faults.new) }
    ensures promises { OnWhole result (IfSome (R.remaining reader.old) (TextKeepsPromises order.now)) }
    ensures output { Leaves result (change W.Sink output.old output.new) }
    ensures told { Tells order.now result (change E.Sink faults.old faults.new) }
{
    match read_all(host.alloc, reader) {
        Ok(text) => perform_text(host, order, text.as_str(), output, faults),
        Err(fault) => end_unreadable_settings(fault, faults),
    }
}
