//! Writing a text to a sink.
ghost use Rattle.std.specs.Prelude.{◌≡◌, ◌<◌, true, false, IfErr, OnOk, OnErr, length, take};
ghost use Rattle.std.specs.Io.KnownBytes.{Appends};

use target_trait::Sink;

/// A write failed before the whole text was written.
#[derive(Clone, Copy, Debug, PartialEq, Eq)]
pub struct WriteFault {
    /// How many bytes from the text's start were written: fewer than all.
    pub written: u64,
}

/// Writes the whole text: writes what is left of it, until nothing is left. For an empty text nothing is written. The sink must not have failed
/// before.
///
/// If a write fails (an interrupted one too) or takes no byte, this returns a fault. Then nothing more is written, the sink has failed, and it has
/// taken the first `written` bytes of the text and nothing else.
///
/// If the bytes that a sink takes aren't known, as with one over standard output, the contract says nothing about bytes: only that the sink has
/// failed exactly if there is a fault, and that `written` is below the text's length.
pub fn write_report<W: Sink>(text: &[u8], sink: &mut W) -> Result<(), WriteFault>
    requires { W.has_failed sink.old ≡ false }
    ensures ok { OnOk result (Appends (W.told sink.old) (W.told sink.new) text.now) }
    ensures ok_sound { OnOk result (W.has_failed sink.new ≡ false) }
    ensures fault { IfErr result (λ fault. Appends (W.told sink.old) (W.told sink.new) (take fault.written text.now)) }
    ensures fault_bound { IfErr result (λ fault. fault.written < length text.now) }
    ensures fault_cause { OnErr result (W.has_failed sink.new ≡ true) }
{
    let mut written = 0;
    while written < text.len() {
        match sink.write(&text[written..]) {
            Ok(0) | Err(()) => {
                return Err(WriteFault {
                    written: written as u64,
                });
            }
            Ok(count) => written += count,
        }
    }
    Ok(())
}
