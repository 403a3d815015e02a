//! The commands and their words, and what their help says.

/// A word of a command, or a flag: its name in the usage, and what it is.
#[derive(Clone, Copy)]
pub(crate) struct Word {
    pub(crate) name: &'static str,
    pub(crate) help: &'static str,
}

/// How a command takes a word.
#[derive(Clone, Copy)]
pub(crate) enum WordForm {
    /// The word is required.
    Required,
    /// The word may be left out.
    Optional,
    /// `--NAME`, which has no value and may be left out.
    Flag,
}

/// A command as help shows it: its name, what it does, what it writes and how it ends, the words that it requires, in
/// order, the words that may be left out, which come after those, and its flags.
#[derive(Clone, Copy)]
pub(crate) struct CommandEntry {
    pub(crate) name: &'static str,
    pub(crate) about: &'static str,
    pub(crate) notes: &'static str,
    pub(crate) words: &'static [Word],
    pub(crate) optional: &'static [Word],
    pub(crate) flags: &'static [Word],
}

pub(crate) const VERSION: &str = "0.3.0";

pub(crate) const NOTES: &str =
    "An archive is one file of uncompressed records, WARC/1.0 or WARC/1.1. The
path '-' is standard input. A compressed archive is read by zwarc:
  zwarc list a.warc.gz

Exit status: 0 done; 1 'check' or 'fixity' found something, or what was asked
for isn't there; 2 the archive is refused, with the first fault and its
offset, and nothing was written (but for 'pieces' and 'salvage'); 3 the words
are wrong, the file doesn't open, or a read, a write or memory failed;
4 'fixity' can't check a block.

Example: warc list examples/abc.warc";

const LIST_NOTES: &str =
    "A line has seven columns, with a tab between two: the record's position from
0, its offset in bytes, the length of its block, its type, date, id and
target; '-' for no target. With --json a line is an object with the members
position, offset, length, type, date, id and target, which is null if there is
none. A text that isn't UTF-8 is an object whose member hex has its bytes.

Exit status: 0 listed; 2 the archive is refused, and nothing was written;
3 see 'warc --help'.

Example: warc list examples/abc.warc";

const CHECK_NOTES: &str =
    "A line has the position of the record, the finding's number N1 to N12 and the
name of the field that it is about, if it is about one; '- N12' is an archive
of no records. A digest that can't be checked is no finding.

Exit status: 0 nothing was found; 1 something was; 2 the archive is refused,
and nothing was written; 3 see 'warc --help'.

Example: warc check examples/findings.warc";

const EXTRACT_NOTES: &str =
    "The block is written as it is stored: it isn't joined to its segments, and
nothing in it is decoded. The id is written in brackets or without, as
<urn:uuid:..> or urn:uuid:...

Exit status: 0 written; 1 no record has the id, and nothing was written;
2 the archive is refused, and nothing was written; 3 see 'warc --help'.

Example:
  warc extract examples/abc.warc urn:uuid:00000000-0000-4000-8000-000000000001";

const REPLAY_NOTES: &str =
    "The body is what the latest capture of the URI gives that isn't later than the
date: its segments joined, and of an HTTP response what follows its head. A
date is YYYY, YYYY-MM, YYYY-MM-DD, YYYY-MM-DDThh:mmZ or YYYY-MM-DDThh:mm:ssZ,
also with a fraction of a second, and names its first instant: 2010 is before
everything of 2010. With --uri-hex the URI is written as hexadecimal digits,
as for one that isn't UTF-8. A line on standard error has the positions of the
chosen record and of the one whose body is given, the status of the HTTP
response or '-', whether a record is marked as truncated, and the length of
the body in bytes. With --stored a coded body is written too, as it is stored
after the HTTP head; then the line ends with 'coded' and the fields that name
the codings, as 'coded transfer-encoding=chunked content-encoding=gzip'.

Exit status: 0 written; 1 there is no body, for one of the reasons P1 to P10,
and nothing was written; 2 the archive is refused, and nothing was written;
3 the date isn't one, or see 'warc --help'.

Example: warc replay examples/abc.warc http://a.example/x 2021";

const BODY_NOTES: &str =
    "The body is the one that 'warc replay' gives if it chooses this capture: of a
revisit the body of the record to which it leads, its segments joined, and of
an HTTP response what follows its head. Positions count from 0, as 'warc list'
shows them. The line on standard error is the one that 'warc replay' writes.
With --stored a coded body is written too, as it is stored after the HTTP
head; then the line ends with 'coded' and the fields that name the codings, as
'coded transfer-encoding=chunked content-encoding=gzip'.

Exit status: 0 written; 1 nothing was written: there is no body, for the
reason P3 to P10 that is named, no record is at the position (E1), or the
record there is no capture (E2), as a request or a metadata record; 2 the
archive is refused, and nothing was written; 3 the position isn't a number, or
see 'warc --help'.

Example: warc body examples/revisit.warc 1";

const CAPTURES_NOTES: &str =
    "Without URI every capture is listed, by position; of a URI its captures, by
instant and then by position. A line has ten columns, with a tab between two:
the capture's position, its date as written, its instant to the nanosecond,
its type, the position of the record whose body it gives, the status of the
HTTP response, the media type, the length of the body in bytes, the reason why
there is no body, as 'warc replay' names it, and the target; '-' if there is
none. A coded body (P10) has a status and a media type, and no length. With
--uri-hex the URI is written as hexadecimal digits, as for one that isn't
UTF-8.

Exit status: 0 listed; 1 there is no capture (P1); 2 the archive is refused,
and nothing was written; 3 the digits of --uri-hex are odd or wrong, or see
'warc --help'.

Example: warc captures examples/crawl.warc http://127.0.0.1:8765/";

const REWRITE_NOTES: &str =
    "Each record is written in canonical form: folded values in one line, one space
after each colon. Names, the order of fields, versions and blocks stay.

Exit status: 0 written; 2 the archive is refused, and nothing was written;
3 see 'warc --help'.

Example: warc rewrite examples/folded.warc";

const CONVERT_NOTES: &str =
    "Each record is written in canonical form as one of WARC/1.1, and its target
without < and >. All else stays.

Exit status: 0 written; 2 the archive is refused, and nothing was written;
3 see 'warc --help'.

Example: warc convert examples/abc.warc";

const SPLIT_NOTES: &str =
    "A record whose block has more bytes than the size is written as its segments,
each of the size, the last one shorter or equal, with the digest of its bytes.
Any other record is written as by 'warc rewrite': a short one, and one that
can't be split, as a record of another kind, one without a target, one that is
a segment, one whose id is no UUID, or one whose digest is wrong.

Exit status: 0 written; 2 the archive is refused, and nothing was written;
3 the size isn't a number from 1 to 1099511627776, or see 'warc --help'.

Example: warc split examples/abc.warc 2";

const SELECT_NOTES: &str =
    "The records are written byte for byte as the archive has them, in its order,
each once. What is written is an archive. A line of POSITIONS, which may be
'-', begins with a position from 0, before a tab, a space or its end, so that
lines of 'warc list' and 'warc captures' serve as they are; an empty line is
passed over. Standard error has how much was written:
'warc: selected 12 records, 3456 bytes'.

What a record needs isn't written with it. So a revisit may give another
reason than in the whole archive, or the body of another record that fits (one
of the same id, pair or digest), and a segmented record another gap, or a
body. With --closed each record that is written brings all that it needs: the
records on the way to the origin of a revisit, and the segments of all these;
with --except a record is left out too if it needs one that is named. Then
each capture that is written gives what it gives in the archive. The line ends
with ', 2 of them needed', or with --except with ', 2 left out besides'.

Exit status: 0 written; 1 no record is at a position (E1), and nothing was
written; 2 the archive is refused, and nothing was written; 3 a line doesn't
begin with a number from 0 to 281474976710656, or see 'warc --help'.

Example: warc list examples/abc.warc | warc select examples/abc.warc -";

const WRITE_NOTES: &str =
    "The record is one of WARC/1.1 with the digest of its block, which is all of
the file. A record that can't be made is refused for one of the reasons M1 to
M5 (docs/FORMAT.md), and nothing is written.

Exit status: 0 written; 3 the record isn't made, or see 'warc --help'.

Example: warc write resource http://a.example/x 2020-01-01T00:00:00Z \\
  00000000-0000-4000-8000-000000000001 text/plain page.txt > page.warc";

const HEAD_NOTES: &str =
    "The head is written byte for byte as the archive has it, from its version line
to its empty line. Positions count from 0, as 'warc list' prints them in its
first column.

Exit status: 0 written; 1 no record is at the position, and nothing was
written; 2 the archive is refused, and nothing was written; 3 the position
isn't a number from 0 to 281474976710656, or see 'warc --help'.

Example: warc head examples/abc.warc 0";

const BLOCK_NOTES: &str =
    "The block is written byte for byte as the archive has it: it isn't joined to
its segments, and nothing in it is decoded. Positions count from 0, as
'warc list' prints them in its first column.

Exit status: 0 written; 1 no record is at the position, and nothing was
written; 2 the archive is refused, and nothing was written; 3 the position
isn't a number from 0 to 281474976710656, or see 'warc --help'.

Example: warc block examples/abc.warc 0";

const FIXITY_NOTES: &str =
    "Every block is compared with the block digest that its head states. A line for
each one that isn't good has four columns, with a tab between two: the
record's position from 0, 'bad' or 'unchecked', its id without brackets, and
the digest as the head states it; '-' for none. MD5, SHA-1, SHA-256, SHA-384
and SHA-512 are checked, in hexadecimal and in base32. A block is unchecked if
its head states none of these. The last line counts all records:
'records 60 good 58 bad 0 unchecked 2'.

With --payload, payloads are compared with the payload digests that heads
state, and only records that state one are listed and counted. The payload is
what follows the HTTP head of an HTTP response, as it is stored, what its
replay gives of a revisit, and else the block. A line has five columns: after
the id comes the reason why the payload is unchecked, or '-' if it is bad. The
reason is 'revisit' if the replay gives no body, 'request' or 'segment' if the
record is one, 'algorithm' if the value is none of these digests, 'head' if an
HTTP response has no HTTP head, and 'coded' if the digest differs and the
payload has a transfer coding: it may have been hashed before or after that.

Exit status: 0 all are good; 1 some block or payload is bad; 2 the archive is
refused, and nothing was written; 3 see 'warc --help'; 4 none is bad, and some
can't be checked; with --payload also if no head states a payload digest, but
not for a request.

Example: warc fixity --payload examples/crawl.warc";

const PIECES_NOTES: &str =
    "A line for each run of good records has 'records', its offset, its length in
bytes and how many records it has; a line for each damage has 'damage', its
offset, its length in bytes and the fault of the record that begins there;
with a tab between two columns. Damage goes on to the next byte at which a
good record begins that lies whole in the file. The offset of a fault may lie
after the damage: for F10 where Content-Length says that the block ends.

Exit status: 0 there is no damage; 2 there is, or the file has more than 2^48
bytes (F12); 3 a read or memory failed (F13, F14) after the pieces that were
written, or see 'warc --help'. There is no status 1.

Example: warc pieces examples/damaged.warc";

const SALVAGE_NOTES: &str =
    "The records before the first fault are written byte for byte as the archive
has them; with --all also the good records after it, each that lies whole in
the file. Nothing is mended. What is written is an archive. Standard error has
the fault, with --all a line for each damage, and then how much was written:
'warc: salvaged 59 records, 14352 bytes'; of a good archive
'warc: good 60 records, 15000 bytes'.

Exit status: 0 the archive is good; 2 it isn't, and these records were
written; 3 a read or memory failed (F13, F14), and the records before it were
written, or see 'warc --help'. There is no status 1.

Example: warc salvage --all examples/damaged.warc > good.warc";

const SUMMARY_NOTES: &str =
    "A line is a name, a tab and a value, in this order: records, bytes, then how
many records there are of each type (warcinfo, response, resource, request,
metadata, revisit, conversion, continuation, other), captures (responses,
resources and revisits), how many blocks are good, bad and unchecked by their
digests, how many records are marked as truncated and are segments, and the
first and the last date as written, by instant; '-' if there is none. With
--json they are members of one object, the dates as first_date and last_date,
each of which is null if there is none.

Exit status: 0 written; 2 the archive is refused, and nothing was written;
3 see 'warc --help'. There is no status 1.

Example: warc summary examples/crawl.warc";

const SURVEY_NOTES: &str =
    "What 'list', 'fixity', 'check', 'summary', 'captures' and 'fixity --payload'
write, in this order, each after a line with its name: '# list', '# fixity',
'# check', '# summary', '# captures' and '# payloads'. No line of theirs begins
with '#'. The archive is read once; then 'captures' reads HTTP heads again, and
the blocks of records in several segments, and 'fixity --payload' the records
that it reads again. What is found changes no status.

Exit status: 0 written; 2 the archive is refused, and nothing was written;
3 see 'warc --help'. There is no status 1.

Example: warc survey examples/crawl.warc";

const EXPLAIN_NOTES: &str = "The number is one that the program prints: F1 to F14, why an archive is
refused; G1 to G6, why segments don't join; P1 to P10, why there is no body;
M1 to M5 and S1 to S7, why a record isn't made or split; E1 and E2, what isn't
there; N1 to N12, what 'warc check' finds. Its letter may be in lower case.
'warc explain date' prints the forms of a date. Nothing is opened.

Exit status: 0 written; 3 the number isn't one of these, or see 'warc --help'.
There is no status 1 or 2.

Example: warc explain F10";

const INSTANT_NOTES: &str =
    "The instant is the first one of the date, to the nanosecond, as the third
column of 'warc captures' has it. 'warc explain date' prints the forms of a
date. Nothing is opened.

Exit status: 0 written; 3 the date isn't one, or see 'warc --help'. There is
no status 1 or 2.

Example: warc instant 2021-06";

pub(crate) const ARCHIVE: Word = Word {
    name: "archive",
    help: "The path of the archive; '-' is standard input",
};

pub(crate) const ID: Word = Word {
    name: "id",
    help: "The id of the record, in brackets or without",
};

pub(crate) const URI: Word = Word {
    name: "uri",
    help: "The URI, byte for byte as 'warc list' shows it",
};

pub(crate) const DATE: Word = Word {
    name: "date",
    help: "The date as of which the URI is asked for; 9999 is the latest",
};

pub(crate) const ANY_DATE: Word = Word {
    name: "date",
    help: "The date, in any form of a date of a record",
};

pub(crate) const URI_HEX: Word = Word {
    name: "uri-hex",
    help: "The URI is written as hexadecimal digits, two for each byte",
};

pub(crate) const STORED: Word = Word {
    name: "stored",
    help: "Writes a coded body too, as it is stored after the HTTP head",
};

pub(crate) const POSITION: Word = Word {
    name: "position",
    help: "The position of the record, from 0, as 'warc list' shows it",
};

pub(crate) const NUMBER: Word = Word {
    name: "number",
    help: "The number, as F10",
};

pub(crate) const SIZE: Word = Word {
    name: "size",
    help: "The most bytes of a block that a segment has, from 1 on",
};

pub(crate) const POSITIONS: Word = Word {
    name: "positions",
    help: "The path of the positions, one a line; '-' is standard input",
};

pub(crate) const EXCEPT: Word = Word {
    name: "except",
    help: "Writes all other records",
};

pub(crate) const CLOSED: Word = Word {
    name: "closed",
    help: "Writes also what they need; with --except leaves out what needs them",
};

pub(crate) const PAYLOAD: Word = Word {
    name: "payload",
    help: "Compares payloads, and not blocks, with their digests",
};

pub(crate) const JSON: Word = Word {
    name: "json",
    help: "Prints JSON, an object a line",
};

pub(crate) const ALL: Word = Word {
    name: "all",
    help: "Writes the good records after a fault too",
};

/// What `write` wants, in its order.
pub(crate) const DRAFT: [Word; 6] = [
    Word {
        name: "kind",
        help: "The kind of the record: resource, metadata or conversion",
    },
    Word {
        name: "uri",
        help: "The target, without brackets",
    },
    Word {
        name: "date",
        help: "The date, as 2020-01-01T00:00:00Z",
    },
    Word {
        name: "uuid",
        help: "The UUID of the record's id",
    },
    Word {
        name: "type",
        help: "The content type of the block, as text/plain",
    },
    Word {
        name: "file",
        help: "The path of the file whose bytes are the block",
    },
];

/// The flags that every command has.
pub(crate) const QUIET: Word = Word {
    name: "quiet",
    help: "Shows no progress",
};

pub(crate) const HINTS: Word = Word {
    name: "hints",
    help: "Writes lines for people, also if this is no terminal",
};

/// The first commands, in the order in which help lists them.
pub(crate) const FIRST_COMMANDS: [CommandEntry; 6] = [
    CommandEntry {
        name: "list",
        about: "Prints a line for each record",
        notes: LIST_NOTES,
        words: &[ARCHIVE],
        optional: &[],
        flags: &[JSON],
    },
    CommandEntry {
        name: "check",
        about: "Prints what is wrong with records that can be read",
        notes: CHECK_NOTES,
        words: &[ARCHIVE],
        optional: &[],
        flags: &[],
    },
    CommandEntry {
        name: "extract",
        about: "Writes the block of the first record with an id",
        notes: EXTRACT_NOTES,
        words: &[ARCHIVE, ID],
        optional: &[],
        flags: &[],
    },
    CommandEntry {
        name: "replay",
        about: "Writes the body that was captured of a URI, as of a date",
        notes: REPLAY_NOTES,
        words: &[ARCHIVE, URI, DATE],
        optional: &[],
        flags: &[URI_HEX, STORED],
    },
    CommandEntry {
        name: "body",
        about: "Writes the body that the capture at a position gives",
        notes: BODY_NOTES,
        words: &[ARCHIVE, POSITION],
        optional: &[],
        flags: &[STORED],
    },
    CommandEntry {
        name: "captures",
        about: "Prints a line for each capture, of all or of a URI",
        notes: CAPTURES_NOTES,
        words: &[ARCHIVE],
        optional: &[URI],
        flags: &[URI_HEX],
    },
];

/// The other commands, in that order. Two tables are cheaper to prove than one.
pub(crate) const OTHER_COMMANDS: [CommandEntry; 14] = [
    CommandEntry {
        name: "rewrite",
        about: "Writes the archive in canonical form",
        notes: REWRITE_NOTES,
        words: &[ARCHIVE],
        optional: &[],
        flags: &[],
    },
    CommandEntry {
        name: "convert",
        about: "Writes the archive as one of WARC/1.1",
        notes: CONVERT_NOTES,
        words: &[ARCHIVE],
        optional: &[],
        flags: &[],
    },
    CommandEntry {
        name: "split",
        about: "Writes the archive with its records split into segments",
        notes: SPLIT_NOTES,
        words: &[ARCHIVE, SIZE],
        optional: &[],
        flags: &[],
    },
    CommandEntry {
        name: "select",
        about: "Writes the records at positions, or all others",
        notes: SELECT_NOTES,
        words: &[ARCHIVE, POSITIONS],
        optional: &[],
        flags: &[EXCEPT, CLOSED],
    },
    CommandEntry {
        name: "write",
        about: "Writes one record, made of a file",
        notes: WRITE_NOTES,
        words: &DRAFT,
        optional: &[],
        flags: &[],
    },
    CommandEntry {
        name: "head",
        about: "Writes the head of the record at a position",
        notes: HEAD_NOTES,
        words: &[ARCHIVE, POSITION],
        optional: &[],
        flags: &[],
    },
    CommandEntry {
        name: "block",
        about: "Writes the block of the record at a position",
        notes: BLOCK_NOTES,
        words: &[ARCHIVE, POSITION],
        optional: &[],
        flags: &[],
    },
    CommandEntry {
        name: "fixity",
        about: "Prints each block that its digest doesn't fit",
        notes: FIXITY_NOTES,
        words: &[ARCHIVE],
        optional: &[],
        flags: &[PAYLOAD],
    },
    CommandEntry {
        name: "pieces",
        about: "Prints which parts of a damaged archive are whole",
        notes: PIECES_NOTES,
        words: &[ARCHIVE],
        optional: &[],
        flags: &[],
    },
    CommandEntry {
        name: "salvage",
        about: "Writes the records before the first fault, or all good ones",
        notes: SALVAGE_NOTES,
        words: &[ARCHIVE],
        optional: &[],
        flags: &[ALL],
    },
    CommandEntry {
        name: "summary",
        about: "Prints how many records there are, of which types, and dates",
        notes: SUMMARY_NOTES,
        words: &[ARCHIVE],
        optional: &[],
        flags: &[JSON],
    },
    CommandEntry {
        name: "survey",
        about: "Prints what list, fixity, check, summary and captures print",
        notes: SURVEY_NOTES,
        words: &[ARCHIVE],
        optional: &[],
        flags: &[],
    },
    CommandEntry {
        name: "explain",
        about: "Prints what a number means, as F10 or P4, and what to do",
        notes: EXPLAIN_NOTES,
        words: &[NUMBER],
        optional: &[],
        flags: &[],
    },
    CommandEntry {
        name: "instant",
        about: "Prints the instant of a date, to the nanosecond",
        notes: INSTANT_NOTES,
        words: &[ANY_DATE],
        optional: &[],
        flags: &[],
    },
];
