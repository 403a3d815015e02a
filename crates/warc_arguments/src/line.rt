//! A command line that is read once.
ghost use Rattle.std.specs.Prelude.{◌≡◌, map, string_bytes};
ghost use Rattle.warc_arguments.specs.Parsed.{IsParsed};

use crate::command::Request;
use crate::parser::{CommandFault, parse};
use std::alloc::Global;
use std::marker::Model;

/// The words of a command line, and what they name. Contracts see the words, and what `parse` answers for them.
#[derive(Drop)]
pub struct CommandLine<'a> {
    words: &'a [String],
    parsed: Result<Request<'a>, CommandFault>,
}

impl<'a> Model for CommandLine<'a> {
    ghost use Rattle.std.specs.Prelude.{map, string_bytes};
    ghost use Rattle.warc_arguments.specs.Parsed.{IsParsed, ReadLine};

    ghost Value = { ReadLine };

    ghost view = { λ l. record { words = map string_bytes l.words.now; parsed = l.parsed } };

    ghost invariant = { λ l. IsParsed (map string_bytes l.words.now) l.parsed };
}

impl<'a> CommandLine<'a> {
    /// Reads words as `parse` does, the program's name being the first.
    pub fn read(alloc: Global, words: &'a [String]) -> CommandLine<'a>
        ensures { result.words ≡ map string_bytes words.now }
    {
        CommandLine {
            words,
            parsed: parse(alloc, words),
        }
    }

    /// The words.
    pub fn words(&self) -> &'a [String]
        ensures { map string_bytes result.now ≡ self.now.words }
    {
        self.words
    }

    /// What the words name, or why they name no command.
    pub fn parsed(&self) -> &Result<Request<'a>, CommandFault>
        ensures parsed { result.now ≡ self.now.parsed }
        ensures of_words { IsParsed self.now.words self.now.parsed }
    {
        &self.parsed
    }
}
