//! Archives and records that C writes, portion by portion.
ghost use Rattle.std.specs.Prelude.{◌≡◌, [], IfErr, IfOk, OnErr};
ghost use Rattle.warc_record.specs.Kinds.{kind_named};
ghost use Rattle.warc_write.specs.Making.{planned};
ghost use Rattle.warc_lent.specs.Buffers.{KeepsAfter};
ghost use Rattle.warc_lent.specs.Portions.{IsNotThere};
ghost use Rattle.warc_lent.specs.Texts.{IsUnreadable};
ghost use Rattle.warc_c.specs.Answered.{AnswersBy, AnswersMade, AnswersPortion, IsAnswered, IsNotChosen, PutsAs, PutsSelected, PutsSplit, PutsWhere};

use crate::problems::{done_or_report, number_or_report, report, there_or_report};
use std::alloc::Global;
use warc::Form;
use warc_handle::{Open, WarcArchive};
use warc_lent::{
    Numbers, PortionNumbers, Problem, put_chosen, put_closed, put_made, put_next_as,
    put_next_selected, put_next_split,
};
use warc_portions::Cursor;

/// Puts the next portion of the archive's records in a form.
#[tactic(auto, using(crate::proofs::NextLemmas::none, crate::proofs::NextLemmas::some, crate::proofs::NextLemmas::put))]
fn next_in_form(
    alloc: Global,
    handle: &mut WarcArchive,
    bytes: &[u8],
    form: Form,
    cursor: &Cursor,
    text: &mut [u8],
    portion: &mut PortionNumbers,
    problem: &mut Numbers,
) -> bool
    ensures answers { AnswersPortion (PutsAs form bytes.now cursor.now portion.new text.new) IsUnreadable
        handle.old.is_open result problem.old problem.new }
    ensures within { PutsWhere bytes.now result portion.old portion.new text.old text.new }
    ensures stays { handle.new.is_open ≡ handle.old.is_open }
{
    let Some(archive) = handle.take(alloc) else {
        return there_or_report(Err(Problem::NotOpen), problem);
    };
    let answer = put_next_as(alloc, &archive, bytes, form, *cursor, text, portion);
    handle.put(archive, alloc);
    there_or_report(answer, problem)
}

/// Puts the next portion of the archive's records in canonical form. The bytes are those of the archive.
#[unsafe(no_mangle)]
pub extern "C" fn warc_rt_next_rewritten(
    alloc: Global,
    handle: &mut WarcArchive,
    bytes: &[u8],
    cursor: &Cursor,
    text: &mut [u8],
    portion: &mut PortionNumbers,
    problem: &mut Numbers,
) -> bool
    ensures answers { AnswersPortion (PutsAs Form.Canonical bytes.now cursor.now portion.new text.new) IsUnreadable
        handle.old.is_open result problem.old problem.new }
    ensures within { PutsWhere bytes.now result portion.old portion.new text.old text.new }
    ensures stays { handle.new.is_open ≡ handle.old.is_open }
{
    let form = Form::Canonical;
    next_in_form(alloc, handle, bytes, form, cursor, text, portion, problem)
}

/// Puts the next portion of the archive's records as those of WARC 1.1, in the same way.
#[unsafe(no_mangle)]
pub extern "C" fn warc_rt_next_converted(
    alloc: Global,
    handle: &mut WarcArchive,
    bytes: &[u8],
    cursor: &Cursor,
    text: &mut [u8],
    portion: &mut PortionNumbers,
    problem: &mut Numbers,
) -> bool
    ensures answers { AnswersPortion (PutsAs Form.Converted bytes.now cursor.now portion.new text.new) IsUnreadable
        handle.old.is_open result problem.old problem.new }
    ensures within { PutsWhere bytes.now result portion.old portion.new text.old text.new }
    ensures stays { handle.new.is_open ≡ handle.old.is_open }
{
    let form = Form::Converted;
    next_in_form(alloc, handle, bytes, form, cursor, text, portion, problem)
}

/// Puts the next portion of the archive's records, split into segments of `size` bytes, in the same way.
#[tactic(auto, using(crate::proofs::NextLemmas::none, crate::proofs::NextLemmas::some, crate::proofs::NextLemmas::put))]
#[unsafe(no_mangle)]
pub extern "C" fn warc_rt_next_split(
    alloc: Global,
    handle: &mut WarcArchive,
    bytes: &[u8],
    size: u64,
    cursor: &Cursor,
    text: &mut [u8],
    portion: &mut PortionNumbers,
    problem: &mut Numbers,
) -> bool
    ensures answers { AnswersPortion (PutsSplit size bytes.now cursor.now portion.new text.new) IsUnreadable
        handle.old.is_open result problem.old problem.new }
    ensures within { PutsWhere bytes.now result portion.old portion.new text.old text.new }
    ensures stays { handle.new.is_open ≡ handle.old.is_open }
{
    let Some(archive) = handle.take(alloc) else {
        return there_or_report(Err(Problem::NotOpen), problem);
    };
    let answer = put_next_split(alloc, &archive, bytes, size, *cursor, text, portion);
    handle.put(archive, alloc);
    there_or_report(answer, problem)
}

/// Puts where the next of the records at positions of the archive is.
#[tactic(auto, using(crate::proofs::NextLemmas::none, crate::proofs::NextLemmas::some, crate::proofs::NextLemmas::put))]
#[unsafe(no_mangle)]
pub extern "C" fn warc_rt_next_selected(
    alloc: Global,
    handle: &mut WarcArchive,
    bytes: &[u8],
    positions: &[usize],
    cursor: &Cursor,
    portion: &mut PortionNumbers,
    problem: &mut Numbers,
) -> bool
    ensures answers { AnswersPortion (PutsSelected positions.now bytes.now cursor.now portion.new) IsNotThere
        handle.old.is_open result problem.old problem.new }
    ensures within { PutsWhere bytes.now result portion.old portion.new [] [] }
    ensures stays { handle.new.is_open ≡ handle.old.is_open }
{
    let Some(archive) = handle.take(alloc) else {
        return there_or_report(Err(Problem::NotOpen), problem);
    };
    let answer = put_next_selected(&archive, bytes, positions, *cursor, portion);
    handle.put(archive, alloc);
    there_or_report(answer, problem)
}

/// Puts the positions that a selection writes, closed if that is asked for.
fn put_selection(
    alloc: Global,
    archive: &mut Open,
    positions: &[usize],
    except: bool,
    closed: bool,
    out: &mut [usize],
) -> Result<usize, Problem>
    ensures refused { IfErr result IsNotChosen }
    ensures rest { IfOk result (λ number. KeepsAfter number out.old out.new) }
    ensures same { OnErr result (out.new ≡ out.old) }
{
    if closed {
        put_closed(alloc, archive, positions, except, out)
    } else {
        put_chosen(alloc, archive, positions, except, out)
    }
}

/// Puts the positions of the records that a selection writes, as many as there is room for: of those at positions, or
/// of all others; if it is to be closed, with all that they need, or without what needs one of them. The answer is how
/// many there are. What follows in the buffer stays.
#[tactic(auto, using(crate::proofs::RestLemmas::rest_stays, crate::proofs::ClosedLemmas::no_number))]
#[unsafe(no_mangle)]
pub extern "C" fn warc_rt_chosen(
    alloc: Global,
    handle: &mut WarcArchive,
    positions: &[usize],
    except: bool,
    closed: bool,
    out: &mut [usize],
    problem: &mut Numbers,
) -> usize
    ensures answers { AnswersBy IsAnswered IsNotChosen handle.old.is_open result problem.old problem.new }
    ensures rest { KeepsAfter result out.old out.new }
    ensures stays { handle.new.is_open ≡ handle.old.is_open }
{
    let Some(mut archive) = handle.take(alloc) else {
        report(Problem::NotOpen, problem);
        return 0;
    };
    let answer = put_selection(alloc, &mut archive, positions, except, closed, out);
    handle.put(archive, alloc);
    number_or_report(answer, problem)
}

/// Puts a record that is made of these. Its span is the block.
#[tactic(auto, using(crate::proofs::NextLemmas::made))]
#[unsafe(no_mangle)]
pub extern "C" fn warc_rt_make(
    alloc: Global,
    kind: &[u8],
    uri: &[u8],
    date: &[u8],
    uuid: &[u8],
    content_type: &[u8],
    block: &[u8],
    text: &mut [u8],
    portion: &mut PortionNumbers,
    problem: &mut Numbers,
) -> bool
    ensures made { AnswersMade (planned (kind_named kind.now) uri.now date.now uuid.now content_type.now block.now)
        block.now result portion.new text.new problem.old problem.new }
    ensures within { PutsWhere block.now result portion.old portion.new text.old text.new }
{
    let answer = put_made(
        alloc,
        kind,
        uri,
        date,
        uuid,
        content_type,
        block,
        text,
        portion,
    );
    done_or_report(answer, problem)
}
