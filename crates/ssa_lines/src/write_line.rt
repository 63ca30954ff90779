//! Writes a line to a sink.
ghost use Rattle.std.specs.Prelude.{◌≡◌, ◌++◌, ◌∷◌, [], OnOk, OnErr, true};
ghost use Rattle.std.specs.Io.KnownBytes.{Appends};
ghost use Rattle.ssa_json.specs.Devices.{AppendsPart};
ghost use Rattle.ssa_model.specs.definitions.Lines.{line_feed};

use crate::saving::write_text;
use ssa_json::sink::{Sink, write_all};
use ssa_json::source::DeviceFault;

/// Writes a text and a line feed, and hands them on. A fault leaves a beginning written.
pub fn write_line<W: Sink>(writer: &mut W, text: &[u8]) -> Result<(), DeviceFault>
    ensures ok { OnOk result (Appends (W.contents writer.old) (W.contents writer.new) (text.now ++ line_feed ∷ [])) }
    ensures handed_on { OnOk result (W.is_handed_on writer.new ≡ true) }
    ensures err { OnErr result (AppendsPart (W.contents writer.old) (W.contents writer.new) (text.now ++ line_feed ∷ [])) }
    ensures failed { OnErr result (W.has_failed writer.new ≡ true) }
{
    write_all(writer, text)?;
    write_all(writer, b"\n")?;
    writer.flush()
}

/// Writes a text and a line feed, and hands them on, by one write where memory has room for the line feed behind the text. A
/// fault leaves a beginning written.
pub fn write_reply<W: Sink>(writer: &mut W, mut text: Vec<u8>) -> Result<(), DeviceFault>
    ensures ok { OnOk result (Appends (W.contents writer.old) (W.contents writer.new) (text.items ++ line_feed ∷ [])) }
    ensures handed_on { OnOk result (W.is_handed_on writer.new ≡ true) }
    ensures err { OnErr result (AppendsPart (W.contents writer.old) (W.contents writer.new) (text.items ++ line_feed ∷ [])) }
    ensures failed { OnErr result (W.has_failed writer.new ≡ true) }
{
    if text.push(b'\n').is_err() {
        return write_line(writer, &text);
    }
    write_text(writer, &text)
}
