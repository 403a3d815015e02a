//! What the numbers mean that the program prints: the table from which `explain` answers and docs/NUMBERS.md is made.

/// All numbers, letter by letter, each as the program prints it and with its lines: the number and its name, what it
/// means, and last what to do. `make numbers` makes docs/NUMBERS.md of them.
pub const EXPLANATIONS: [(&str, &str); 57] = [
    (
        "F1",
        "F1 Version
A record begins at the offset, and the bytes there are no version line, WARC/1.0 or WARC/1.1.
At 0 the file is compressed, an ARC file or WARC 0.x, or has LF where CRLF belongs. Later there is an empty line
after a record, or the file is filled up with zero bytes.
What to do: read a compressed file as by 'zwarc list a.warc.gz', or remove those bytes. 'warc salvage --all'
writes all good records.
",
    ),
    (
        "F2",
        "F2 HeadTooLong
The record at the offset has a head of more than 65,536 bytes, as it is or as it would be written canonically.
What to do: fix the tool that wrote it. 'warc salvage --all' writes all good records.
",
    ),
    (
        "F3",
        "F3 Field
The line at the offset is in a head and is no field: a name, a colon, and a value without control characters.
What to do: look at the line. No space comes before the colon, and each line ends with CRLF. 'warc salvage --all' writes
all good records.
",
    ),
    (
        "F4",
        "F4 Missing
The record at the offset lacks the field. Each record has Content-Length, WARC-Type, WARC-Record-ID and WARC-Date.
What to do: fix the tool that wrote it. 'warc salvage --all' writes all good records.
",
    ),
    (
        "F5",
        "F5 Repeated
The record at the offset has the field twice or more. Content-Length, WARC-Type, WARC-Record-ID and WARC-Date occur
exactly once.
What to do: fix the tool that wrote it. 'warc salvage --all' writes all good records.
",
    ),
    (
        "F6",
        "F6 Length
The Content-Length of the record at the offset is no number of at most 2^40 in decimal digits.
What to do: fix the tool that wrote it. 'warc salvage --all' writes all good records.
",
    ),
    (
        "F7",
        "F7 BadType
The WARC-Type of the record at the offset is no token: it is empty, or a space or a separator is in it.
What to do: fix the tool that wrote it. 'warc salvage --all' writes all good records.
",
    ),
    (
        "F8",
        "F8 Id
The WARC-Record-ID of the record at the offset holds no id: nothing is in its brackets, or a space, a tab or another
bracket.
What to do: fix the tool that wrote it. 'warc salvage --all' writes all good records.
",
    ),
    (
        "F9",
        "F9 Date
The WARC-Date of the record at the offset is no date: it has an offset such as +00:00 or no Z, the calendar doesn't
have the day, or it has another form.
What to do: write the date in UTC, as 2020-01-01T00:00:00Z. 'warc salvage --all' writes all good records.
",
    ),
    (
        "F10",
        "F10 End
The block of a record isn't followed by CRLF CRLF. The offset is where its Content-Length says that the block ends.
The block was changed, for example by a text mode, or the length is wrong.
What to do: fetch the file again, without a text mode. 'warc salvage --all' writes all good records.
",
    ),
    (
        "F11",
        "F11 Truncated
The file ends before its last record does. The offset is the length of the file.
What to do: fetch the rest of the file. 'warc salvage' writes the records before the last one.
",
    ),
    (
        "F12",
        "F12 TooLong
The archive has more than 2^48 bytes.
What to do: split the file between two records.
",
    ),
    (
        "F13",
        "F13 Read
A read failed at the offset while the archive was opened.
What to do: check the disk. A folder or a named pipe can't be read at an offset; '-' reads standard input.
",
    ),
    (
        "F14",
        "F14 Memory
Memory ran out while the record at the offset was read, or the archive has more than 2^32 records.
What to do: free memory, or split the file between two records.
",
    ),
    (
        "G1",
        "G1 Repeated
Two segments of a record have the number that follows, the least such number, even if their blocks are the same.
What to do: find the segments with 'warc list' and 'warc head'. The records can be had with 'warc block'.
",
    ),
    (
        "G2",
        "G2 Unfinished
No segment of a record states the total length, so the last segment isn't there.
What to do: join the archive with the one that holds it: 'cat first.warc second.warc > both.warc'.
",
    ),
    (
        "G3",
        "G3 AfterEnd
A segment of a record has the number that follows, and an earlier one states the total length and so is the last.
What to do: find the segments with 'warc list' and 'warc head'. The records can be had with 'warc block'.
",
    ),
    (
        "G4",
        "G4 Absent
The segment of a record with the number that follows, the least such number, isn't there.
What to do: join the archive with the one that holds it: 'cat first.warc second.warc > both.warc'.
",
    ),
    (
        "G5",
        "G5 Total
The total length that the last segment states isn't the sum of the lengths of all segments.
What to do: nothing is joined. The records can be had with 'warc block'.
",
    ),
    (
        "G6",
        "G6 Number
The record to which segments would be joined has a segment number that isn't 1.
What to do: fix the tool that wrote it. The record can be had with 'warc block'.
",
    ),
    (
        "P1",
        "P1 NoCapture
No capture has the URI: no response, resource or revisit has it as its target, byte for byte.
What to do: compare with the last column of 'warc list'.
",
    ),
    (
        "P2",
        "P2 NotYet
Every capture of the URI is later than the date.
What to do: give a later date; 9999 is the latest. 'warc captures' lists the captures of the URI.
",
    ),
    (
        "P3",
        "P3 UnknownProfile
The revisit has no WARC-Profile, or one that isn't known.
What to do: the record itself can be had with 'warc block'.
",
    ),
    (
        "P4",
        "P4 NoReference
The revisit names no record, and no response or resource with its target and its payload digest is as early.
What to do: join the archive with the one that holds the payload: 'cat old.warc new.warc > both.warc'.
",
    ),
    (
        "P5",
        "P5 Unresolved
The revisit names a record that isn't in the archive.
What to do: join the archive with the one that holds the record: 'cat old.warc new.warc > both.warc'.
",
    ),
    (
        "P6",
        "P6 Loop
The revisits lead back to themselves, so that none of them has a body.
What to do: the archive was written wrongly. The records themselves can be had with 'warc block'.
",
    ),
    (
        "P7",
        "P7 Segment
The segments of the record don't join. The gap G1 to G6 follows, with the number of a segment where it has one.
What to do: see the gap, as by 'warc explain G4'.
",
    ),
    (
        "P8",
        "P8 BadDigest
A block that is joined doesn't have the SHA-1 that its record states: the block was changed or damaged.
What to do: find the record with 'warc fixity'. The block can be had as it is with 'warc block'.
",
    ),
    (
        "P9",
        "P9 BadHead
The record is an HTTP response, and its block doesn't begin with the head of one, of at most 65,536 bytes and 256
field lines.
What to do: the block can be had as it is with 'warc block'.
",
    ),
    (
        "P10",
        "P10 Coded
The body is stored chunked or compressed, as its Transfer-Encoding or Content-Encoding says. It isn't decoded.
What to do: with --stored, 'warc replay' and 'warc body' write it as it is stored, and name the codings. Decode it with
another tool.
",
    ),
    (
        "M1",
        "M1 Date
The date of the record to be made is no date.
What to do: write it in UTC, as 2020-01-01T00:00:00Z or shorter, as 2020.
",
    ),
    (
        "M2",
        "M2 Text
The URI, the UUID or the content type of the record to be made is empty or can't be the value of a field.
What to do: write the URI without brackets, and the UUID as 00000000-0000-4000-8000-000000000001.
",
    ),
    (
        "M3",
        "M3 TooLong
The record to be made would have a head of more than 65,536 bytes, or a block of more than 2^40.
What to do: shorten the URI, or store the file in parts.
",
    ),
    (
        "M4",
        "M4 Memory
Memory ran out while the record was made. It takes twice the length of the file.
What to do: free memory, or store the file in parts.
",
    ),
    (
        "M5",
        "M5 Kind
The kind of the record to be made isn't resource, metadata or conversion.
What to do: give one of the three.
",
    ),
    (
        "S1",
        "S1 NotUuid
The record can't be split into segments: its id is no UUID, and the ids of segments are made from it.
What to do: nothing; 'warc split' writes the record whole.
",
    ),
    (
        "S2",
        "S2 AlreadySegmented
The record can't be split into segments: it has a field of a segment.
What to do: nothing; 'warc split' writes the record whole.
",
    ),
    (
        "S3",
        "S3 Kind
The record can't be split into segments: it is a continuation, a warcinfo or of an unknown type, has no target, or its
type, id or date isn't valid.
What to do: nothing; 'warc split' writes the record whole.
",
    ),
    (
        "S4",
        "S4 Size
A segment can't have 0 bytes.
What to do: give a size from 1 on.
",
    ),
    (
        "S5",
        "S5 Memory
Memory ran out while the record was split.
What to do: free memory.
",
    ),
    (
        "S6",
        "S6 TooLong
The record can't be split into segments: one of them would have a head of more than 65,536 bytes.
What to do: nothing; 'warc split' writes the record whole.
",
    ),
    (
        "S7",
        "S7 BadDigest
The record can't be split into segments: its block doesn't have the SHA-1 that it states.
What to do: nothing; 'warc split' writes the record whole. 'warc fixity' lists such records.
",
    ),
    (
        "E1",
        "E1 NoRecord
No record has the id, or the archive has no record at the position.
What to do: find the id or the position with 'warc list'. Positions count from 0.
",
    ),
    (
        "E2",
        "E2 NoCapture
The record at the position is no capture: not a response, a resource or a revisit.
What to do: 'warc block' writes its block. 'warc captures' lists the captures.
",
    ),
    (
        "N1",
        "N1 Absent
The record lacks the field, or its value is empty, and its type requires it.
What to do: fix the tool that wrote it. The record is read all the same.
",
    ),
    (
        "N2",
        "N2 Forbidden
The record has the field, and its type forbids it.
What to do: fix the tool that wrote it. The record is read all the same.
",
    ),
    (
        "N3",
        "N3 Repeated
The record has the field twice or more, and it may occur once. The first one counts.
What to do: fix the tool that wrote it. The record is read all the same.
",
    ),
    (
        "N4",
        "N4 Digest
The block doesn't have the SHA-1 that the record states: it was changed or damaged, or the tool that wrote it states
another digest. wget 1.21 stores the HTTP head in a revisit and states the digest of an empty block.
What to do: see which record it is, as by 'warc head'. 'warc fixity' lists all such blocks.
",
    ),
    (
        "N5",
        "N5 SegmentNumber
The segment number is no number, below 2 in a continuation or not 1 in another record, or a total length is no number.
What to do: fix the tool that wrote it. The record is read all the same, and may not join.
",
    ),
    (
        "N6",
        "N6 IdUsed
An earlier record has the same id. 'warc extract' gives the block of the first one.
What to do: ask for the record by its position, as by 'warc block'.
",
    ),
    (
        "N7",
        "N7 NoContentType
The block isn't empty, and the record states no Content-Type.
What to do: fix the tool that wrote it. The record is read all the same.
",
    ),
    (
        "N8",
        "N8 Profile
The WARC-Profile of the revisit isn't known, so that the revisit gives no body (P3).
What to do: fix the tool that wrote it. The record itself can be had with 'warc block'.
",
    ),
    (
        "N9",
        "N9 NotUtf8
The value of the field isn't UTF-8.
What to do: nothing. Targets are compared byte for byte; '--uri-hex' of 'warc replay' takes any bytes.
",
    ),
    (
        "N10",
        "N10 BareId
The value of WARC-Record-ID isn't in angle brackets.
What to do: fix the tool that wrote it. The record is read all the same.
",
    ),
    (
        "N11",
        "N11 NoOrigin
The WARC-Segment-Origin-ID of the continuation holds no id, so that it joins to no record.
What to do: fix the tool that wrote it. The block can be had with 'warc block'.
",
    ),
    (
        "N12",
        "N12 Empty
The archive has no records.
What to do: see that the file is the right one: an empty file is an archive of no records.
",
    ),
    (
        "date",
        "bad date
A date is YYYY, YYYY-MM, YYYY-MM-DD, YYYY-MM-DDThh:mmZ or YYYY-MM-DDThh:mm:ssZ, in UTC. Seconds may have up to nine
digits after a point. A shorter date means the first instant of the year, month, day or minute.
What to do: write it so. The 14 digits of a CDX file or of the Wayback Machine, as 20261126044836, are
2026-11-26T04:48:36Z here. 9999 is later than any capture.
",
    ),
];
