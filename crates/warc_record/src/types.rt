//! The kinds of records.
ghost use Rattle.std.specs.Prelude.{◌≡◌, find};
ghost use Rattle.std.specs.Option.{option_map_or};
ghost use Rattle.std.specs.Str.{str_eq_ignore_ascii_case};
ghost use Rattle.warc_record.specs.Kinds.{kind_named};
ghost use Rattle.warc_record.specs.declared.types.Kind.TheVariants.{Other};

/// The kind of a record (ISO 28500:2017, 6): one of eight types, or any other.
#[derive(Clone, Copy, Debug, PartialEq, Eq)]
pub enum Kind {
    Warcinfo,
    Response,
    Resource,
    Request,
    Metadata,
    Revisit,
    Conversion,
    Continuation,
    Other,
}

/// The eight types, each with its kind.
const TYPES: [(&str, Kind); 8] = [
    ("warcinfo", Kind::Warcinfo),
    ("response", Kind::Response),
    ("resource", Kind::Resource),
    ("request", Kind::Request),
    ("metadata", Kind::Metadata),
    ("revisit", Kind::Revisit),
    ("conversion", Kind::Conversion),
    ("continuation", Kind::Continuation),
];

/// Whether the text is the name, in any case.
fn is_name_of(text: &[u8], name: &str) -> bool
    ensures { result ≡ str_eq_ignore_ascii_case text.now name.now }
{
    text.eq_ignore_ascii_case(name.as_bytes())
}

/// The kind that a text names among these types, in any case.
fn kind_among(types: &[(&str, Kind)], text: &[u8]) -> Kind
    ensures { result ≡ option_map_or (λ entry. entry.1)
        (find (λ entry. str_eq_ignore_ascii_case text.now entry.0.now) types.now) Other }
{
    for (name, kind) in types {
        if is_name_of(text, name) {
            return *kind;
        }
    }
    Kind::Other
}

impl Kind {
    /// The kind that a type names, in any case.
    pub fn named(text: &[u8]) -> Kind
        ensures { result ≡ kind_named text.now }
    {
        kind_among(&TYPES, text)
    }
}
