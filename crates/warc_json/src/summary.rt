//! The line that `summary --json` writes.
ghost use Rattle.std.specs.Prelude.{◌≡◌, option_map};
ghost use Rattle.warc_frame.specs.Effects.{SendsText};
ghost use Rattle.warc_json.specs.Objects.{value_seen};
ghost use Rattle.warc_json.specs.Summaries.{date_value, json_summary};

use crate::objects::{Value, send_object};
use warc_frame::{OutFault, Sink};
use warc_judged::Summary;

/// A date, `null` if it is absent.
fn date_value(date: Option<&[u8]>) -> Value<'_>
    ensures { value_seen result ≡ date_value (option_map (λ d. d.now) date.entry) }
{
    match date {
        Some(date) => Value::Text(date),
        None => Value::Null,
    }
}

/// Writes one line: an object whose members are the numbers that `Summary::write` writes, and the two dates, each of
/// which is null if there is none. It doesn't allocate.
pub fn write_summary<W: Sink>(summary: &Summary<'_>, out: &mut W) -> Result<(), OutFault>
    ensures { SendsText (W.seen out.old) (W.seen out.new) result (json_summary summary.now) }
{
    let members = [
        ("records", Value::Number(summary.records as u64)),
        ("bytes", Value::Number(summary.bytes)),
        ("warcinfo", Value::Number(summary.warcinfo as u64)),
        ("response", Value::Number(summary.response as u64)),
        ("resource", Value::Number(summary.resource as u64)),
        ("request", Value::Number(summary.request as u64)),
        ("metadata", Value::Number(summary.metadata as u64)),
        ("revisit", Value::Number(summary.revisit as u64)),
        ("conversion", Value::Number(summary.conversion as u64)),
        ("continuation", Value::Number(summary.continuation as u64)),
        ("other", Value::Number(summary.other as u64)),
        ("captures", Value::Number(summary.captures as u64)),
        ("good", Value::Number(summary.good as u64)),
        ("bad", Value::Number(summary.bad as u64)),
        ("unchecked", Value::Number(summary.unchecked as u64)),
        ("truncated", Value::Number(summary.truncated as u64)),
        ("segmented", Value::Number(summary.segmented as u64)),
        ("first_date", date_value(summary.first_date)),
        ("last_date", date_value(summary.last_date)),
    ];
    send_object(&members, out)
}
