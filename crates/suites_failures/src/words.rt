//! The words of a case, and the command line that they mean.

use std::alloc::{AllocError, Global};
use suites_script::Case;

/// The first word of a command line.
const PROGRAM: &str = "warc";

/// What commands call their archive.
const PATH: &str = "a.warc";

/// What they call the list that they read beside it.
const LIST: &str = "positions.txt";

/// How options begin.
const OPTION: &str = "--";

/// The text that a word means: `""` is one of no bytes.
fn text_of(word: &[u8]) -> &str {
    match word {
        b"\"\"" => "",
        word => str::from_utf8(word).unwrap_or(""),
    }
}

/// The words of a case from an index on.
pub(crate) fn words_from(
    alloc: Global,
    case: &Case<'_>,
    from: usize,
) -> Result<Vec<String>, AllocError> {
    let mut words = Vec::new(alloc);
    let count = case.words().split(|byte| *byte == b' ').count();
    for index in from..count {
        let word = case.bytes(alloc, index)?;
        words.push(String::from_str(alloc, text_of(&word))?)?;
    }
    Ok(words)
}

/// Whether a word of a case names a command.
pub(crate) fn is_command(word: &str) -> bool {
    matches!(
        word,
        "list"
            | "check"
            | "rewrite"
            | "convert"
            | "pieces"
            | "summary"
            | "survey"
            | "fixity"
            | "salvage"
            | "extract"
            | "split"
            | "head"
            | "block"
            | "explain"
            | "instant"
            | "body"
            | "select"
            | "captures"
            | "replay"
            | "write"
    )
}

/// Adds a copy of a word.
fn add(alloc: Global, line: &mut Vec<String>, word: &str) -> Result<(), AllocError> {
    line.push(String::from_str(alloc, word)?)?;
    Ok(())
}

/// Adds those of the words that are options, or those that aren't.
fn add_words(
    alloc: Global,
    line: &mut Vec<String>,
    words: &[String],
    are_options: bool,
) -> Result<(), AllocError> {
    for word in words {
        let word = word.as_str();
        if word.starts_with(OPTION) == are_options {
            add(alloc, line, word)?;
        }
    }
    Ok(())
}

/// Adds the paths that come before the other words of a command.
fn add_paths(alloc: Global, line: &mut Vec<String>, command: &str) -> Result<(), AllocError> {
    match command {
        "write" | "explain" | "instant" => Ok(()),
        "select" => {
            add(alloc, line, PATH)?;
            add(alloc, line, LIST)
        }
        _ => add(alloc, line, PATH),
    }
}

/// The command line of a case, whose words from an index on are its own but for the paths: the options first, and then,
/// so that each word may begin as it likes, `--`. The text that is given with a `write` is its last word but the path.
pub(crate) fn line_of(
    alloc: Global,
    case: &Case<'_>,
    from: usize,
) -> Result<Vec<String>, AllocError> {
    let command = case.text(from);
    let words = words_from(alloc, case, from.saturating_add(1))?;
    let mut line = Vec::new(alloc);
    add(alloc, &mut line, PROGRAM)?;
    add(alloc, &mut line, command)?;
    add_words(alloc, &mut line, &words, true)?;
    add(alloc, &mut line, OPTION)?;
    add_paths(alloc, &mut line, command)?;
    add_words(alloc, &mut line, &words, false)?;
    if command == "write" {
        if case.gives() {
            add(alloc, &mut line, str::from_utf8(case.given()).unwrap_or(""))?;
        }
        add(alloc, &mut line, PATH)?;
    }
    Ok(line)
}
