//! What the heads of a record and of its HTTP response say, of bytes that C lends.
ghost use Rattle.warc_c.specs.Answered.{AnswersFields, AnswersHttp};
ghost use Rattle.warc_lent.specs.Heads.{field_buffers, http_buffers};

use crate::problems::number_or_report;
use std::alloc::Global;
use warc_lent::{FieldNumbers, HttpFieldNumbers, HttpNumbers, Numbers, put_fields, put_http};

/// The fields of the head at the front of these bytes: how long the name and the value of each are, and the names and
/// values one after another, as many and as much as there is room for. The answer is the number of fields.
#[unsafe(no_mangle)]
pub extern "C" fn warc_rt_fields(
    alloc: Global,
    head: &[u8],
    lengths: &mut [FieldNumbers],
    texts: &mut [u8],
    problem: &mut Numbers,
) -> usize
    ensures { AnswersFields head.now result (field_buffers lengths.old texts.old)
        (field_buffers lengths.new texts.new) problem.old problem.new }
{
    let answer = put_fields(alloc, head, lengths, texts);
    number_or_report(answer, problem)
}

/// What the HTTP head at the front of a block says, and where its fields are, as many as there is room for. The answer
/// is the number of fields.
#[unsafe(no_mangle)]
pub extern "C" fn warc_rt_http(
    block: &[u8],
    http: &mut HttpNumbers,
    fields: &mut [HttpFieldNumbers],
    problem: &mut Numbers,
) -> usize
    ensures { AnswersHttp block.now result (http_buffers http.old fields.old) (http_buffers http.new fields.new)
        problem.old problem.new }
{
    let answer = put_http(block, http, fields);
    number_or_report(answer, problem)
}
