//! What is found of the record of a plain head, by the values of its fields.
ghost use Rattle.std.specs.Prelude.{◌≡◌, ◌≤◌, ◌++◌, IfSome, List, [], OnOk};
ghost use Rattle.std.specs.Str.{IsAscii};
ghost use Rattle.warc_field.specs.Area.{Pair};
ghost use Rattle.warc_frame.specs.Record.{max_block};
ghost use Rattle.warc_record.specs.Findings.{not_utf8};
ghost use Rattle.warc_record.specs.Readings.{kind_of};
ghost use Rattle.warc_quick.specs.Fronts.{AreValues};
ghost use Rattle.warc_quick.specs.PlainFindings.{AreFindings, IsJudgedHead, after_used, all_plain, before_digest};
ghost use Rattle.warc_quick.specs.Quick.{IsQuickHead};

use crate::head::{QuickHead, head_with_values};
use crate::plain_findings::{NoRoom, PlainFindings};
use crate::values::Values;
use warc_record::{
    Kind, add_by_table, add_of_block, add_of_ids, has_bad_segment, is_known, kind_in,
};
use warc_value::Wanted;

/// Adds the findings by the field table, of the block and of the ids: all but N4, N5, N6 and N9.
fn add_findings(
    found: &mut PlainFindings,
    kind: Kind,
    values: &Values<'_>,
    block_len: u64,
) -> Result<(), NoRoom>
    ensures { (fields : List Pair) → AreValues fields values.now.values → kind ≡ kind_of fields → OnOk result
        (all_plain found.new ≡ all_plain found.old ++ before_digest fields ++ after_used fields block_len) }
{
    add_by_table(found, kind, values)?;
    add_of_block(found, kind, values, block_len)?;
    add_of_ids(found, kind, values)
}

/// All findings of the record of a head but N4 and N6, if its text is ASCII, its kind is one of the eight, it has no
/// bad segment number, and there is room for them.
fn findings_of(text: &[u8], block_len: u64, values: &Values<'_>) -> Option<PlainFindings>
    ensures { IfSome result (λ found. (fields : List Pair) → AreValues fields values.now.values
        → (IsAscii text.now → not_utf8 fields ≡ []) → AreFindings fields block_len (all_plain found)) }
{
    let kind = kind_in(values);
    if !text.is_ascii() || !is_known(kind) || has_bad_segment(kind, values) {
        return None;
    }
    let mut found = PlainFindings::none();
    match add_findings(&mut found, kind, values, block_len) {
        Ok(()) => Some(found),
        Err(_) => None,
    }
}

/// Reads the good head at the front of a text as `quick_head` does, with the findings of its record, if they are known.
#[inline(always)]
pub(crate) fn head_with_findings(text: &[u8]) -> Option<QuickHead<'_>>
    ensures head { IfSome result (IsQuickHead text.now) }
    ensures block { IfSome result (λ head. head.block_len ≤ max_block) }
{
    let mut values = Values::none();
    let mut head = head_with_values(text, &mut values)?;
    head.findings = findings_of(&text[..head.len], head.block_len, &values);
    Some(head)
}

/// The digest that a head asks for of its block, and all findings of its record but N4 and N6, if the text is a plain,
/// good head of a block of `block_len` bytes, and they are known. `None` says nothing of the text.
pub fn text_findings(text: &[u8], block_len: u64) -> Option<(Wanted, PlainFindings)>
    ensures { IfSome result (λ judged. IsJudgedHead text.now block_len judged.0 judged.1) }
{
    let head = head_with_findings(text)?;
    if head.len != text.len() || head.block_len != block_len {
        return None;
    }
    let found = head.findings?;
    Some((head.wanted(), found))
}
