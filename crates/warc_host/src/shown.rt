//! What a terminal shows of bytes that an archive or a path may hold.
ghost use Rattle.std.specs.Prelude.{◌≡◌, None, true};
ghost use Rattle.warc_host.specs.Escaped.{is_escaped};

use arrayvec::{ArrayString, ArrayVec};
use std::fmt::Write as WriteText;
use std::io::Write;
use warc_frame::{OutSink, Sink, WriteFault, is_failed, raise, send_all};

/// The most bytes of text that one write gives to a terminal.
const ROOM: usize = 1_024;

/// The most bytes of text that a byte and what waits before it are shown as.
const MOST: usize = 64;

/// The most bytes of a character.
const CHARACTER: usize = 4;

/// Whether a character isn't shown as it is: a control character but tab and line feed, a separator of lines, or one
/// that changes the direction of text (Unicode's Bidi_Control).
pub fn is_escaped(c: char) -> bool
    ensures { result ≡ is_escaped c }
{
    match c {
        '\t' | '\n' => false,
        '\u{61c}' | '\u{200e}' | '\u{200f}' | '\u{2028}'..='\u{202e}' | '\u{2066}'..='\u{2069}' =>
            true,
        _ => c.is_control(),
    }
}

/// The text that is shown of bytes as they come. What a write cuts waits for the next one.
#[derive(Drop)]
struct Text {
    ready: ArrayString<ROOM>,
    begun: ArrayVec<u8, CHARACTER>,
    is_returned: bool,
}

impl Text {
    fn new() -> Text {
        Text {
            ready: ArrayString::new(),
            begun: ArrayVec::new(),
            is_returned: false,
        }
    }

    /// Takes a byte. If no character goes on with it, what waits is shown first, and it may begin another.
    fn take(&mut self, byte: u8) {
        if self.goes_on(byte) {
            return;
        }
        self.end();
        if !self.goes_on(byte) {
            let _ = write!(self.ready, "\\x{byte:02x}");
        }
    }

    /// Adds a byte to the character that has begun, and shows that if it is whole. False if no character begins so.
    /// Then the byte isn't added.
    fn goes_on(&mut self, byte: u8) -> bool {
        let _ = self.begun.try_push(byte);
        match str::from_utf8(self.begun.as_slice()) {
            Ok(text) => {
                let whole = text.chars().next();
                self.begun.clear();
                if let Some(c) = whole {
                    self.show(c);
                }
                true
            }
            Err(error) if error.error_len().is_none() => true,
            Err(_) => {
                let _ = self.begun.pop();
                false
            }
        }
    }

    /// Shows a character. A carriage return waits, since one before a line feed is shown as it is.
    fn show(&mut self, c: char) {
        if self.is_returned && c == '\n' {
            self.is_returned = false;
            let _ = self.ready.try_push_str("\r\n");
            return;
        }
        self.end_return();
        if c == '\r' {
            self.is_returned = true;
        } else if is_escaped(c) {
            let _ = write!(self.ready, "\\u{{{:x}}}", c as u32);
        } else {
            let _ = self.ready.try_push(c);
        }
    }

    /// Shows the carriage return that waits.
    fn end_return(&mut self) {
        if self.is_returned {
            self.is_returned = false;
            let _ = self.ready.try_push_str("\\u{d}");
        }
    }

    /// Shows what waits, which nothing follows that makes a character or a line of it.
    fn end(&mut self) {
        self.end_return();
        for byte in self.begun.as_slice() {
            let _ = write!(self.ready, "\\x{byte:02x}");
        }
        self.begun.clear();
    }

    /// Whether there may be no room for what the next byte shows.
    fn is_full(&self) -> bool {
        self.ready.len() > ROOM - MOST
    }

    /// Passes on what is ready.
    fn pass<W: Sink>(&mut self, sink: &mut W) -> Result<(), WriteFault> {
        let passed = send_all(sink, self.ready.as_str().as_bytes());
        self.ready.clear();
        match passed {
            Ok(()) => Ok(()),
            Err(_) => Err(WriteFault),
        }
    }
}

/// A sink over a writer. A terminal gets bytes as text, in which control characters, marks of direction and bytes that
/// are no UTF-8 are escaped; all else gets them as they are. It reports nothing of the bytes.
#[derive(Drop)]
pub struct ShownSink<W> {
    sink: OutSink<W>,
    text: Option<Text>,
    faults: u64,
}

impl<W: Write> ShownSink<W> {
    /// A sink over this writer, which hasn't failed.
    pub fn new(writer: W, is_terminal: bool) -> ShownSink<W>
        ensures { result.faults ≡ 0 }
    {
        ShownSink {
            sink: OutSink::new(writer),
            text: if is_terminal { Some(Text::new()) } else { None },
            faults: 0,
        }
    }

    /// Shows what waits for a further byte. False if that failed.
    pub fn end(&mut self) -> bool
        ensures none { self.old.text ≡ None → result ≡ true }
        ensures faults { self.new.faults ≡ self.old.faults }
    {
        match &mut self.text {
            Some(text) => {
                text.end();
                text.pass(&mut self.sink).is_ok()
            }
            None => true,
        }
    }
}

/// Shows a piece as text.
fn show<W: Sink>(text: &mut Text, piece: &[u8], sink: &mut W) -> Result<(), WriteFault> {
    for byte in piece {
        text.take(*byte);
        if text.is_full() {
            text.pass(sink)?;
        }
    }
    text.pass(sink)
}

impl<W: Write> Sink for ShownSink<W> {
    ghost seen = { λ s. record { reports = None; faults = s.faults } };

    /// A terminal takes the whole piece or fails.
    fn write(&mut self, piece: &[u8]) -> Result<usize, WriteFault> {
        let answer = match &mut self.text {
            Some(text) => match show(text, piece, &mut self.sink) {
                Ok(()) => Ok(piece.len()),
                Err(fault) => Err(fault),
            },
            None => self.sink.write(piece),
        };
        if is_failed(&answer, piece) {
            self.faults = raise(self.faults);
        }
        answer
    }
}
