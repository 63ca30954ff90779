//! A fault's number and name, in a text and on a sink.
ghost use Rattle.std.specs.Prelude.{◌≡◌, ◌++◌, ◌∷◌, [], OnOk, OnErr, IfOk, true, codes, map, string_bytes};
ghost use Rattle.std.specs.Io.KnownBytes.{Appends};
ghost use Rattle.ssa_model.specs.definitions.Json.{compact};
ghost use Rattle.ssa_model.specs.definitions.Lines.{line_feed};
ghost use Rattle.ssa_model.specs.definitions.Replies.{fault_json};
ghost use Rattle.ssa_json.specs.Devices.{AppendsPart};
ghost use Rattle.ssa_json.specs.FaultCodes.{code_view};
ghost use Rattle.ssa_lines.specs.FaultTexts.{code_members, name_end, named_fault_json};

use crate::json_text::push_names;
use crate::write_line::write_line;
use ssa_json::fault_code::FaultCode;
use ssa_json::sink::{Sink, write_all};
use ssa_json::source::DeviceFault;
use std::alloc::{AllocError, Global};

/// Appends the members that a fault has in each reply: its number and its name.
pub fn push_members(text: &mut Vec<u8>, code: FaultCode) -> Result<(), AllocError>
    ensures { OnOk result (text.new.items ≡ text.old.items ++ code_members (code_view code)) }
{
    text.extend_from_slice(b"\"fault\":")?;
    text.extend_from_slice(code.number().as_bytes())?;
    text.extend_from_slice(b",\"name\":\"")?;
    text.extend_from_slice(code.name().as_bytes())?;
    text.push(b'"')?;
    Ok(())
}

/// Appends a fault that is told by its number and its name alone.
pub fn push_code(text: &mut Vec<u8>, code: FaultCode) -> Result<(), AllocError>
    ensures { OnOk result (text.new.items ≡ text.old.items ++ compact (fault_json (code_view code))) }
{
    text.push(b'{')?;
    push_members(text, code)?;
    text.push(b'}')?;
    Ok(())
}

/// Appends a fault with a path, which is told by its elements' texts.
pub fn push_code_at(text: &mut Vec<u8>, code: FaultCode, path: &[String]) -> Result<(), AllocError>
    ensures { OnOk result (text.new.items ≡ text.old.items ++ compact (named_fault_json (code_view code) (map string_bytes path.now))) }
{
    text.push(b'{')?;
    push_members(text, code)?;
    text.extend_from_slice(b",\"path\":")?;
    push_names(text, path)?;
    text.push(b'}')?;
    Ok(())
}

/// The text of a fault that is told by its number and its name alone.
pub fn code_text(alloc: Global, code: FaultCode) -> Result<Vec<u8>, AllocError>
    ensures { IfOk result (λ text. text.items ≡ compact (fault_json (code_view code))) }
{
    let mut text = Vec::new(alloc);
    push_code(&mut text, code)?;
    Ok(text)
}

// Writes two texts. A fault leaves a beginning of them written.
fn write_both<W: Sink>(writer: &mut W, front: &[u8], back: &[u8]) -> Result<(), DeviceFault>
    ensures ok { OnOk result (Appends (W.contents writer.old) (W.contents writer.new) (front.now ++ back.now)) }
    ensures err { OnErr result (AppendsPart (W.contents writer.old) (W.contents writer.new) (front.now ++ back.now)) }
    ensures failed { OnErr result (W.has_failed writer.new ≡ true) }
{
    write_all(writer, front)?;
    write_all(writer, back)
}

// Writes the fault's text and a line feed but for what stands before the name.
fn write_name<W: Sink>(writer: &mut W, code: FaultCode) -> Result<(), DeviceFault>
    ensures ok { OnOk result (Appends (W.contents writer.old) (W.contents writer.new) (name_end (code_view code))) }
    ensures handed_on { OnOk result (W.is_handed_on writer.new ≡ true) }
    ensures err { OnErr result (AppendsPart (W.contents writer.old) (W.contents writer.new) (name_end (code_view code))) }
    ensures failed { OnErr result (W.has_failed writer.new ≡ true) }
{
    write_both(writer, b",\"name\":\"", code.name().as_bytes())?;
    write_line(writer, b"\"}")
}

/// Writes the line of a fault that is told by its number and its name alone, and hands it on. It takes no memory. A fault
/// of the device leaves a beginning written.
pub fn write_fault<W: Sink>(writer: &mut W, code: FaultCode) -> Result<(), DeviceFault>
    ensures ok { OnOk result (Appends (W.contents writer.old) (W.contents writer.new) (compact (fault_json (code_view code)) ++ line_feed ∷ [])) }
    ensures handed_on { OnOk result (W.is_handed_on writer.new ≡ true) }
    ensures err { OnErr result (AppendsPart (W.contents writer.old) (W.contents writer.new) (compact (fault_json (code_view code)) ++ line_feed ∷ [])) }
    ensures failed { OnErr result (W.has_failed writer.new ≡ true) }
{
    write_both(writer, b"{\"fault\":", code.number().as_bytes())?;
    write_name(writer, code)
}
