//! Objects, a line each.
ghost use Rattle.std.specs.Prelude.{◌≡◌, map};
ghost use Rattle.warc_frame.specs.Effects.{Puts, SendsText};
ghost use Rattle.warc_json.specs.Objects.{member_seen, object_line, value_seen};
ghost use Rattle.warc_json.specs.Parts.{comma_if, member_text, members_text, value_text};

use crate::strings::{put_quoted, put_text};
use itoa::Buffer;
use warc_frame::{OutBuffer, OutFault, SendFault, Sink};

/// The value of a member.
#[derive(Clone, Copy, Debug)]
pub enum Value<'a> {
    Null,
    Number(u64),
    /// Bytes, which need not be UTF-8.
    Text(&'a [u8]),
}

/// Adds a value to the output.
fn put_value<W: Sink>(
    value: Value<'_>,
    buffer: &mut OutBuffer,
    out: &mut W,
) -> Result<(), SendFault>
    ensures { Puts (W.seen out.old) (W.seen out.new) buffer.old buffer.new result
        (value_text (value_seen value.entry)) }
{
    match value {
        Value::Null => buffer.put(out, b"null"),
        Value::Number(number) => {
            let mut digits = Buffer::new();
            buffer.put(out, digits.format(number).as_bytes())
        }
        Value::Text(text) => put_text(text, buffer, out),
    }
}

/// What comes before a member: a comma, unless it is the first.
fn comma_if(later: bool) -> &'static [u8]
    ensures { result.now ≡ comma_if later }
{
    if later { b"," } else { b"" }
}

/// Adds a member to the output.
fn put_member<W: Sink>(
    later: bool,
    name: &str,
    value: Value<'_>,
    buffer: &mut OutBuffer,
    out: &mut W,
) -> Result<(), SendFault>
    ensures { Puts (W.seen out.old) (W.seen out.new) buffer.old buffer.new result
        (member_text later (name.now, value_seen value.entry)) }
{
    buffer.put(out, comma_if(later))?;
    put_quoted(name.as_bytes(), buffer, out)?;
    buffer.put(out, b":")?;
    put_value(value, buffer, out)
}

/// Adds members to the output.
fn put_members<W: Sink>(
    members: &[(&str, Value<'_>)],
    buffer: &mut OutBuffer,
    out: &mut W,
) -> Result<(), SendFault>
    ensures { Puts (W.seen out.old) (W.seen out.new) buffer.old buffer.new result
        (members_text (map member_seen members.now)) }
{
    'putting: for place in 0..members.len() {
        let (name, value) = members[place];
        put_member(place > 0, name, value, buffer, out)?;
    }
    Ok(())
}

/// Adds the line of an object to the output.
pub fn put_object<W: Sink>(
    members: &[(&str, Value<'_>)],
    buffer: &mut OutBuffer,
    out: &mut W,
) -> Result<(), SendFault>
    ensures { Puts (W.seen out.old) (W.seen out.new) buffer.old buffer.new result
        (object_line (map member_seen members.now)) }
{
    buffer.put(out, b"{")?;
    put_members(members, buffer, out)?;
    buffer.put(out, b"}\n")
}

/// Writes the line of one object. It doesn't allocate.
pub fn send_object<W: Sink>(members: &[(&str, Value<'_>)], out: &mut W) -> Result<(), OutFault>
    ensures { SendsText (W.seen out.old) (W.seen out.new) result (object_line (map member_seen members.now)) }
{
    let mut buffer = OutBuffer::new();
    put_object(members, &mut buffer, out)?;
    buffer.flush(out)?;
    Ok(())
}
