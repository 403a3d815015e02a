//! The words of a command line, read.
ghost use Rattle.std.specs.Prelude.{◌≡◌, ◌∷◌, [], true, false, fold, map, Option, Some, IfOk, IfErr, option_map};
ghost use Rattle.clap.specs.Faults.{fault_of};
ghost use Rattle.clap.specs.Matches.{found_of};
ghost use Rattle.clap.specs.Simple.{App, app_of, subcommand_rows_of, with_rule};
ghost use Rattle.clap.specs.Takes.{takes};
ghost use Rattle.clap.specs.Values.{kind_of};
ghost use Rattle.clap.specs.Walk.{Text, first_of, rows_of, rule_of};
ghost use Rattle.clap.specs.declared.builder.command.Command.TheViews.{out-Command};
ghost use Rattle.warc_arguments.specs.Command.{asked_by, draft_texts, flags_of, view_of};
ghost use Rattle.warc_arguments.specs.CommandLine.{IsReportedBy, asked_in, bare_app, first_app, asked_of, command_fault_text, draft_words, flags_in, is_flagged};
ghost use Rattle.warc_arguments.specs.CommandLine.{layout_seen, named, path_in, rule_as, text_of, warc_app, with_layout, with_rules};

use crate::command::{Command, Draft, Request};
use crate::help::{
    CommandEntry, FIRST_COMMANDS, HINTS, NOTES, OTHER_COMMANDS, QUIET, VERSION, Word, WordForm,
};
use clap::error::ErrorKind;
use clap::{Arg, ArgAction, ArgMatches};
use std::alloc::{AllocError, Global};
use std::convert::AsStr;
use std::fmt;
use thiserror::Error;

/// What the tip of `clap` to write a word after `--` begins with.
const TIP: &str = "\n  tip: to pass '";

/// Why words name no command.
#[derive(Debug, Drop, Error)]
pub enum CommandFault {
    /// The text that `clap` writes, and whether it was asked for, as by `--help`.
    Usage { text: String, asked: bool },
    /// An allocation failed.
    Memory,
}

impl fmt::Display for CommandFault {
    ghost output = { λ fault. Some (command_fault_text fault) };

    fn fmt<W: fmt::Write>(&self, f: &mut fmt::Formatter<W>) -> fmt::Result {
        match self {
            CommandFault::Usage { text, asked: _ } => write!(f, "{text}"),
            CommandFault::Memory => write!(f, "out of memory"),
        }
    }
}

/// The parser of the program without its commands.
fn bare_parser<'a>(alloc: Global) -> clap::Command<'a>
    ensures { app_of result ≡ bare_app }
{
    clap::Command::new(alloc, "warc")
        .about("Reads and writes archives in the WARC format")
        .version(VERSION)
        .after_help(NOTES)
        .subcommand_required(true)
}

/// The parser with the first commands.
fn first_parser<'a>(alloc: Global) -> Result<clap::Command<'a>, AllocError>
    ensures { IfOk result (λ c. app_of c ≡ first_app) }
{
    with_commands(bare_parser(alloc), alloc, &FIRST_COMMANDS)
}

fn warc_parser<'a>(alloc: Global) -> Result<clap::Command<'a>, AllocError>
    ensures { IfOk result (λ c. app_of c ≡ warc_app) }
{
    match first_parser(alloc) {
        Ok(parser) => with_commands(parser, alloc, &OTHER_COMMANDS),
        Err(refused) => Err(refused),
    }
}

/// The parser with these commands, in their order.
fn with_commands<'a>(
    parser: clap::Command<'a>,
    alloc: Global,
    entries: &[CommandEntry],
) -> Result<clap::Command<'a>, AllocError>
    ensures { (app : App) → app_of parser.entry ≡ app →
        IfOk result (λ c. app_of c ≡ fold with_layout app (map layout_seen entries.now)) }
{
    let mut parser = parser;
    for entry in entries {
        parser = with_command(parser, alloc, entry)?;
    }
    Ok(parser)
}

/// The parser with one more command.
fn with_command<'a>(
    parser: clap::Command<'a>,
    alloc: Global,
    entry: &CommandEntry,
) -> Result<clap::Command<'a>, AllocError>
    ensures { (app : App) → app_of parser.entry ≡ app →
        IfOk result (λ c. app_of c ≡ with_layout app (layout_seen entry.now)) }
{
    let plain = clap::Command::new(alloc, entry.name)
        .about(entry.about)
        .after_help(entry.notes);
    let required = with_words(plain, alloc, WordForm::Required, entry.words)?;
    let optional = with_words(required, alloc, WordForm::Optional, entry.optional)?;
    let flagged = with_words(optional, alloc, WordForm::Flag, entry.flags)?;
    let quiet = with_word(flagged, alloc, WordForm::Flag, QUIET.name, QUIET.help)?;
    let command = with_word(quiet, alloc, WordForm::Flag, HINTS.name, HINTS.help)?;
    parser.subcommand(command)
}

/// The command with more words of a form, in their order.
fn with_words<'a>(
    command: clap::Command<'a>,
    alloc: Global,
    form: WordForm,
    words: &[Word],
) -> Result<clap::Command<'a>, AllocError>
    ensures app { (app : App) → app_of command.entry ≡ app
        → IfOk result (λ c. app_of c ≡ with_rules form app (map (λ w. w.name.now) words.now)) }
    ensures local { (out-Command command.entry).has_globals ≡ false
        → IfOk result (λ c. (out-Command c).has_globals ≡ false) }
{
    let mut command = command;
    for word in words {
        command = with_word(command, alloc, form, word.name, word.help)?;
    }
    Ok(command)
}

/// The command with one more word of a form.
fn with_word<'a>(
    command: clap::Command<'a>,
    alloc: Global,
    form: WordForm,
    name: &'static str,
    help: &'static str,
) -> Result<clap::Command<'a>, AllocError>
    ensures app { (app : App) → app_of command.entry ≡ app
        → IfOk result (λ c. app_of c ≡ with_rule app (rule_as form name.entry.now)) }
    ensures local { (out-Command command.entry).has_globals ≡ false
        → IfOk result (λ c. (out-Command c).has_globals ≡ false) }
{
    command.arg(argument(alloc, form, name, help))
}

fn argument<'a>(alloc: Global, form: WordForm, name: &'static str, help: &'static str) -> Arg<'a>
    ensures rule { rule_of result ≡ rule_as form name.entry.now }
    ensures local { result.global ≡ false }
{
    let word = Arg::new(alloc, name).help(help);
    match form {
        WordForm::Required => word.required(true),
        WordForm::Optional => word,
        WordForm::Flag => word.long(name).action(ArgAction::SetTrue),
    }
}

/// The text of a word, which is there where `clap` takes the words.
fn text_at<'a>(matches: &ArgMatches<'a>, name: &str) -> &'a str
    ensures { result.now ≡ text_of (rows_of (found_of matches.now)) name.now }
{
    match matches.get_str(name) {
        Some(text) => text,
        None => "",
    }
}

/// The text of a word that may be left out.
fn optional_text<'a>(matches: &ArgMatches<'a>, name: &str) -> Option<&'a str>
    ensures { option_map (λ t. t.now) result ≡ first_of name.now (rows_of (found_of matches.now)) }
{
    match matches.get_str(name) {
        Some(text) => Some(text),
        None => None,
    }
}

/// Whether a flag is given.
fn is_given(matches: &ArgMatches<'_>, name: &str) -> bool
    ensures { result ≡ is_flagged (rows_of (found_of matches.now)) name.now }
{
    text_at(matches, name) == "true"
}

/// What `write` makes a record of.
fn read_draft<'a>(texts: &ArgMatches<'a>) -> Draft<'a>
    ensures { draft_texts result ≡ map (text_of (rows_of (found_of texts.now))) draft_words }
{
    Draft {
        kind: text_at(texts, "kind"),
        uri: text_at(texts, "uri"),
        date: text_at(texts, "date"),
        uuid: text_at(texts, "uuid"),
        content_type: text_at(texts, "type"),
    }
}

/// The path of the file that the command of a name reads, if it reads one.
fn read_path<'a>(name: &str, texts: &ArgMatches<'a>) -> Option<&'a str>
    ensures { option_map (λ t. t.now) result ≡ path_in name.now (rows_of (found_of texts.now)) }
{
    match name {
        "explain" | "instant" => None,
        "write" => Some(text_at(texts, "file")),
        _ => Some(text_at(texts, "archive")),
    }
}

/// What the command of a name is asked to do. `clap` meets no command but the program's own, so one of them,
/// `list`, needs no test.
fn read_command<'a>(name: &str, texts: &ArgMatches<'a>) -> Command<'a>
    ensures view { (path : Option Text) → path ≡ path_in name.now (rows_of (found_of texts.now))
        → view_of path result ≡ named name.now (rows_of (found_of texts.now)) }
    ensures flags { flags_of result ≡ flags_in name.now (rows_of (found_of texts.now)) }
{
    match name {
        "check" => Command::Check,
        "extract" => Command::Extract {
            id: text_at(texts, "id"),
        },
        "replay" => Command::Replay {
            uri: text_at(texts, "uri"),
            date: text_at(texts, "date"),
            in_hex: is_given(texts, "uri-hex"),
            stored: is_given(texts, "stored"),
        },
        "body" => Command::Body {
            position: text_at(texts, "position"),
            stored: is_given(texts, "stored"),
        },
        "captures" => Command::Captures {
            uri: optional_text(texts, "uri"),
            in_hex: is_given(texts, "uri-hex"),
        },
        "rewrite" => Command::Rewrite,
        "convert" => Command::Convert,
        "split" => Command::Split {
            size: text_at(texts, "size"),
        },
        "select" => Command::Select {
            positions: text_at(texts, "positions"),
            except: is_given(texts, "except"),
            closed: is_given(texts, "closed"),
        },
        "write" => Command::Write {
            draft: read_draft(texts),
        },
        "head" => Command::Head {
            position: text_at(texts, "position"),
        },
        "block" => Command::Block {
            position: text_at(texts, "position"),
        },
        "fixity" => Command::Fixity {
            payload: is_given(texts, "payload"),
        },
        "pieces" => Command::Pieces,
        "salvage" => Command::Salvage {
            all: is_given(texts, "all"),
        },
        "summary" => Command::Summary {
            json: is_given(texts, "json"),
        },
        "survey" => Command::Survey,
        "explain" => Command::Explain {
            number: text_at(texts, "number"),
        },
        "instant" => Command::Instant {
            date: text_at(texts, "date"),
        },
        _ => Command::List {
            json: is_given(texts, "json"),
        },
    }
}

/// What the command that was met is asked to do, and which of the flags of every command are given.
fn read<'a>(matches: &ArgMatches<'a>) -> Option<Request<'a>>
    ensures { option_map asked_by result
        ≡ option_map (λ p. asked_in p.0 p.1) (subcommand_rows_of matches.now) }
{
    let (name, texts) = matches.subcommand()?;
    Some(Request {
        path: read_path(name, texts),
        command: read_command(name, texts),
        quiet: is_given(texts, QUIET.name),
        hints: is_given(texts, HINTS.name),
    })
}

/// What `clap` refused, or was asked to show.
fn refusal(alloc: Global, error: &clap::Error) -> CommandFault
    ensures memory { kind_of error.now ≡ ErrorKind.OutOfMemory → result ≡ CommandFault.Memory }
    ensures reported { IsReportedBy (kind_of error.now ∷ []) result }
{
    if let ErrorKind::OutOfMemory = error.kind() {
        return CommandFault::Memory;
    }
    match refusal_text(alloc, error) {
        Ok(text) => CommandFault::Usage {
            text,
            asked: !error.use_stderr(),
        },
        Err(_) => CommandFault::Memory,
    }
}

/// The text of `clap`, without its tip to write a word after `--`: who writes `--json` means no file of that name.
fn refusal_text(alloc: Global, error: &clap::Error) -> Result<String, AllocError> {
    let text = error.to_string(alloc)?;
    match around_tip(text.as_str()) {
        Some((before, after)) => {
            let mut kept = String::new(alloc);
            kept.push_str(before)?;
            kept.push_str(after)?;
            Ok(kept)
        }
        None => Ok(text),
    }
}

/// What is before and after the lines of a tip, if a text has one.
fn around_tip(text: &str) -> Option<(&str, &str)> {
    let (before, rest) = text.split_once(TIP)?;
    let (_, after) = rest.split_once("'\n")?;
    Some((before, after))
}

/// The command and the texts that the words name, and whether `--quiet` and `--hints` are among them, the program's
/// name being the first word. Words that `clap` refuses are a `Usage` with its text, and so are `help`, `--help` and
/// `--version`, which ask for one.
pub fn parse<'a, S: AsStr>(alloc: Global, words: &'a [S]) -> Result<Request<'a>, CommandFault>
    ensures named { IfOk result (λ r. Some (asked_by r) ≡ asked_of (map S.text words.entry.now)) }
    ensures accepted { IfOk result (λ _. fault_of warc_app (map S.text words.entry.now) ≡ []) }
    ensures taken { IfErr result (λ e. takes warc_app (map S.text words.entry.now) ≡ true
        → e ≡ CommandFault.Memory) }
    ensures reported { IfErr result (IsReportedBy (fault_of warc_app (map S.text words.entry.now))) }
{
    let Ok(parser) = warc_parser(alloc) else {
        return Err(CommandFault::Memory);
    };
    match parser.try_get_matches_from(words) {
        Ok(matches) => match read(&matches) {
            Some(request) => Ok(request),
            None => unreachable!(),
        },
        Err(error) => Err(refusal(alloc, &error)),
    }
}
