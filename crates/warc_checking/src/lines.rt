//! The lines of findings, put to an output.
ghost use Rattle.std.specs.Prelude.{◌≡◌, ℕ, ◌++◌, false, IfErr, codes, decimal};
ghost use Rattle.warc_frame.specs.Effects.{Puts};
ghost use Rattle.warc_frame.specs.Failing.{failed_by, is_read};
ghost use Rattle.warc_record.specs.Findings.{finding_seen};
ghost use Rattle.warc_checking.specs.Checking.{about_record, line_text, numbered_line};
ghost use Rattle.warc_checking.specs.Lines.{PutsLines};

use itoa::Buffer;
use warc_frame::{OutBuffer, OutFault, SendFault, Sink, put_all};
use warc_record::Finding;

/// Adds a finding's line to the output, by the position of its record, its number, and a field's name
/// with what comes before it.
fn put_parts<'a, W: Sink>(
    position: u64,
    number: u8,
    space: &'a [u8],
    field: &'a [u8],
    buffer: &mut OutBuffer,
    out: &mut W,
) -> Result<(), SendFault>
    ensures { Puts (W.seen out.old) (W.seen out.new) buffer.old buffer.new result (numbered_line (decimal position)
        number (space.now ++ field.now)) }
{
    let (mut first, mut second) = (Buffer::new(), Buffer::new());
    let pieces = [
        first.format(position).as_bytes(),
        b" N",
        second.format(number).as_bytes(),
        space,
        field,
        b"\n",
    ];
    put_all(&pieces, buffer, out)
}

/// Adds a finding's line to the output, by the position of its record.
#[tactic(auto, unfolding(crate::specs::Checking::line_text))]
pub(crate) fn put_finding<W: Sink>(
    position: u64,
    finding: &Finding<'_>,
    buffer: &mut OutBuffer,
    out: &mut W,
) -> Result<(), SendFault>
    ensures { Puts (W.seen out.old) (W.seen out.new) buffer.old buffer.new result (line_text (about_record position
        (finding_seen finding.now))) }
{
    match finding.field() {
        Some(name) => put_parts(position, finding.number(), b" ", name, buffer, out),
        None => put_parts(position, finding.number(), b"", b"", buffer, out),
    }
}

/// Adds the line that there is no record to the output, and returns its number, 1.
pub(crate) fn put_none<W: Sink>(buffer: &mut OutBuffer, out: &mut W) -> Result<usize, OutFault>
    ensures puts { PutsLines (codes "- N12\n") 1 (W.seen out.old) (W.seen out.new) buffer.old buffer.new result }
    ensures cause { (W.seen out.new).faults ≡ failed_by result (W.seen out.old).faults }
    ensures unread { IfErr result (λ e. is_read e ≡ false) }
{
    buffer.put(out, b"- N12\n")?;
    Ok(1)
}
