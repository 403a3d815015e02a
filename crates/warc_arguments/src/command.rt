//! What a command line asks for.
ghost use Rattle.std.specs.Prelude.{◌≡◌, true, false, Some, option_map};
ghost use Rattle.warc_arguments.specs.Command.{gives_bytes, list_word, reads_once};

/// What the program is asked to do. The texts are borrowed from the words.
#[derive(Clone, Copy, Debug, PartialEq, Eq)]
pub enum Command<'a> {
    /// A line for each record, of columns or of JSON.
    List {
        json: bool,
    },
    /// A line for each finding.
    Check,
    /// The block of the first record with an id.
    Extract {
        id: &'a str,
    },
    /// The body for a URI as of the first instant of a date; as it is stored, also a coded one, if that is asked for.
    Replay {
        uri: &'a str,
        date: &'a str,
        in_hex: bool,
        stored: bool,
    },
    /// The body that the capture at a position gives; as it is stored, also a coded one, if that is asked for.
    Body {
        position: &'a str,
        stored: bool,
    },
    /// A line for each capture, of all or of a URI.
    Captures {
        uri: Option<&'a str>,
        in_hex: bool,
    },
    /// The records in canonical form.
    Rewrite,
    /// The records as records of WARC 1.1.
    Convert,
    /// The records split into segments of a number of bytes.
    Split {
        size: &'a str,
    },
    /// The records whose positions the lines of a file name, or all others.
    Select {
        positions: &'a str,
        except: bool,
        closed: bool,
    },
    /// One record, whose block is the bytes of a file.
    Write {
        draft: Draft<'a>,
    },
    /// The head of the record at a position.
    Head {
        position: &'a str,
    },
    /// The block of the record at a position.
    Block {
        position: &'a str,
    },
    /// A line for each block that isn't good by its digest; for each payload, if that is asked for.
    Fixity {
        payload: bool,
    },
    /// A line for each run of good records and for each damage.
    Pieces,
    /// The records before the first fault, or all good ones.
    Salvage {
        all: bool,
    },
    /// What the archive holds, in numbers and dates: in lines of columns or in one of JSON.
    Summary {
        json: bool,
    },
    /// What `list`, `fixity`, `check`, `summary` and `captures` give, in this order.
    Survey,
    /// What a number that the program prints means, and what to do.
    Explain {
        number: &'a str,
    },
    /// The instant of a date in full.
    Instant {
        date: &'a str,
    },
}

/// What `write` makes a record of, beside its block.
#[derive(Clone, Copy, Debug, PartialEq, Eq)]
pub struct Draft<'a> {
    /// `resource`, `metadata` or `conversion`, in any case.
    pub kind: &'a str,
    /// The target, without brackets.
    pub uri: &'a str,
    /// The date, as the record is to state it.
    pub date: &'a str,
    /// The UUID, in any form that `uuid` reads.
    pub uuid: &'a str,
    /// The content type.
    pub content_type: &'a str,
}

impl<'a> Command<'a> {
    /// The path of the file that the command reads before its archive, if it reads two.
    pub fn list_path(&self) -> Option<&'a str>
        ensures { option_map (λ t. t.now) result ≡ list_word self.now }
    {
        match self {
            Command::Select { positions, .. } => Some(positions),
            _ => None,
        }
    }

    /// Whether the command can ask for each offset once, in order, so that it reads a pipe as it comes.
    pub fn reads_once(&self) -> bool
        ensures { result ≡ reads_once self.now }
    {
        match self {
            Command::List { .. }
            | Command::Check
            | Command::Fixity { payload: false }
            | Command::Summary { .. } => true,
            _ => false,
        }
    }

    /// Whether the output is bytes as they were captured, which a terminal gets as they are.
    pub fn gives_bytes(&self) -> bool
        ensures { result ≡ gives_bytes self.now }
    {
        match self {
            Command::Block { .. }
            | Command::Body { .. }
            | Command::Extract { .. }
            | Command::Replay { .. } => true,
            _ => false,
        }
    }
}

/// What words ask for: a command over the file at a path, whether no progress is to be shown, and whether the lines for
/// people are to be written also if standard error is no terminal.
#[derive(Clone, Copy, Debug, PartialEq, Eq)]
pub struct Request<'a> {
    /// The path of the archive, or of the file that `write` makes a record of. A command that reads nothing has none.
    pub path: Option<&'a str>,
    pub command: Command<'a>,
    pub quiet: bool,
    pub hints: bool,
}
