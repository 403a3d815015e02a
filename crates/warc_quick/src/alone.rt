//! A plain head that names no other record.
ghost use Rattle.std.specs.Prelude.{IfSome};
ghost use Rattle.warc_record.specs.Seen.{said};
ghost use Rattle.warc_quick.specs.Alone.{IsWholeHead};

use crate::head::head_with_values;
use crate::values::Values;
use warc_frame::FieldName;
use warc_record::Typed;

/// What a whole head says, and its `Content-Type`.
#[derive(Drop)]
pub struct AloneHead<'a> {
    pub typed: Typed<'a>,

    /// The value of `Content-Type`, empty if it is absent.
    pub content_type: &'a [u8],
}

/// What a text says, if it is a plain, good head of a block of `block_len` bytes that names no other record and says
/// nothing of segments. `None` says nothing of the text.
pub fn alone_head(text: &[u8], block_len: u64) -> Option<AloneHead<'_>>
    ensures { IfSome result (λ head. IsWholeHead text.now block_len (said head.typed) head.content_type.now) }
{
    let mut values = Values::none();
    let head = head_with_values(text, &mut values)?;
    if head.len != text.len() || head.block_len != block_len {
        return None;
    }
    if !head.is_alone {
        return None;
    }
    Some(AloneHead {
        typed: head.typed(),
        content_type: values.value_of(FieldName::ContentType),
    })
}
