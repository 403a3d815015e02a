//! What the heads of a record and of its HTTP response say.
ghost use Rattle.std.specs.Prelude.{◌≡◌};
ghost use Rattle.warc_payload.specs.Head.{front_of};
ghost use Rattle.warc_lent.specs.Heads.{PutsFields, PutsHttp, field_buffers, http_buffers};
ghost use Rattle.warc_page.specs.Shown.{Replies};

use crate::ends::end_with;
use crate::shapes::PageOutcome;
use warc_heap::{Heap, Memory};
use warc_lent::{FieldNumbers, HttpFieldNumbers, HttpNumbers, put_fields, put_http};

/// Puts the fields of the head at the front of these bytes into the page's buffers: how long the name and the value of
/// each are, as many as there is room for, and the names and values one after another, as far as there is room. The
/// outcome's length is how many fields there are. There is none if the bytes begin with no head of a record.
#[unsafe(no_mangle)]
pub extern "C" fn page_fields(
    memory: Memory,
    units: usize,
    head: &[u8],
    lengths: &mut [FieldNumbers],
    texts: &mut [u8],
    text: &mut [u8],
    outcome: &mut PageOutcome,
)
    requires { memory.units ≡ units }
    ensures { Replies (λ answered. PutsFields head.now answered (field_buffers lengths.old texts.old)
        (field_buffers lengths.new texts.new)) outcome.new text.new }
{
    let heap = Heap::new(memory, units);
    let answer = put_fields(&heap, head, lengths, texts);
    *outcome = end_with(&heap, answer, text);
}

/// Puts what the HTTP head at the front of a block says, and where its fields are, as many as there is room for. The
/// outcome's length is how many fields there are. There is none if the block begins with no whole head of a response.
#[unsafe(no_mangle)]
pub extern "C" fn page_http(
    memory: Memory,
    units: usize,
    block: &[u8],
    http: &mut HttpNumbers,
    fields: &mut [HttpFieldNumbers],
    text: &mut [u8],
    outcome: &mut PageOutcome,
)
    requires { memory.units ≡ units }
    ensures { Replies (λ answered. PutsHttp (front_of block.now) answered (http_buffers http.old fields.old)
        (http_buffers http.new fields.new)) outcome.new text.new }
{
    let heap = Heap::new(memory, units);
    let answer = put_http(block, http, fields);
    *outcome = end_with(&heap, answer, text);
}
