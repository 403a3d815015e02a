//! Findings without a text of the record, and what they are added to.
ghost use Rattle.std.specs.Prelude.{◌≡◌, List, [], ◌∷◌, ◌++◌, OnOk};
ghost use Rattle.std.specs.Option.{option_copied};
ghost use Rattle.warc_record.specs.Findings.{SeenFinding, finding_field, finding_number, once, plain_seen};

use warc_frame::FieldName;

/// A finding that holds no text of the record: any of N1 to N12 but N9.
#[derive(Clone, Copy, Debug, PartialEq, Eq)]
pub enum PlainFinding {
    /// A field that the table requires is absent: N1.
    Absent(FieldName),

    /// A field that the table forbids isn't absent: N2.
    Forbidden(FieldName),

    /// A field that may not be repeated is repeated: N3.
    Repeated(FieldName),

    /// The block's digest is checked and differs: N4.
    Digest,

    /// The segment number or the total length is bad: N5.
    SegmentNumber,

    /// An earlier record has the same id: N6.
    IdUsed,

    /// A block that isn't empty has no content type: N7.
    NoContentType,

    /// A revisit's profile isn't known: N8.
    Profile,

    /// The value of the id isn't in brackets: N10.
    BareId,

    /// A continuation's origin holds no id: N11.
    NoOrigin,

    /// The archive has no records: N12.
    Empty,
}

impl PlainFinding {
    /// 1 to 12, for N1 to N12.
    pub fn number(self) -> u8
        ensures { result ≡ finding_number (plain_seen self) }
    {
        match self {
            PlainFinding::Absent(_) => 1,
            PlainFinding::Forbidden(_) => 2,
            PlainFinding::Repeated(_) => 3,
            PlainFinding::Digest => 4,
            PlainFinding::SegmentNumber => 5,
            PlainFinding::IdUsed => 6,
            PlainFinding::NoContentType => 7,
            PlainFinding::Profile => 8,
            PlainFinding::BareId => 10,
            PlainFinding::NoOrigin => 11,
            PlainFinding::Empty => 12,
        }
    }

    /// The standard's name of the field that it is about, if it is about one.
    pub fn field(self) -> Option<&'static [u8]>
        ensures { option_copied result ≡ finding_field (plain_seen self) }
    {
        match self {
            PlainFinding::Absent(name)
            | PlainFinding::Forbidden(name)
            | PlainFinding::Repeated(name) => Some(name.text().as_bytes()),
            _ => None,
        }
    }
}

/// A list of findings, which may refuse another one.
pub trait FindingSink {
    /// Why a finding isn't added.
    type Refusal;

    /// The findings in the list.
    ghost listed: { Self → List SeenFinding };

    /// Adds a finding after the others.
    fn add(&mut self, finding: PlainFinding) -> Result<(), Self::Refusal>
        ensures { OnOk result (listed self.new ≡ listed self.old ++ plain_seen finding ∷ []) };
}

/// Adds a finding, if it holds.
pub(crate) fn add_once<S: FindingSink>(
    found: &mut S,
    finding: PlainFinding,
    holds: bool,
) -> Result<(), S::Refusal>
    ensures { OnOk result (S.listed found.new ≡ S.listed found.old ++ once (plain_seen finding) holds) }
{
    if holds {
        found.add(finding)?;
    }
    Ok(())
}
