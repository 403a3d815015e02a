//! What comes of a script.

use crate::cases::Case;
use memchr::memmem;
use std::alloc::{AllocError, Global};
use std::process::ExitCode;

/// What answers the cases of a script.
pub trait Trial {
    /// Adds what a case answers to a text.
    fn answer(
        &mut self,
        alloc: Global,
        case: &Case<'_>,
        answer: &mut Vec<u8>,
    ) -> Result<(), AllocError>;
}

/// The report on the cases so far, how many are under each name, and how many failed.
#[derive(Drop)]
pub struct Report {
    reported: Vec<u8>,
    /// How many cases are under the last name.
    named: usize,
    cases: usize,
    /// How many lines of words want no answer: they give, make or name what cases are about.
    steps: usize,
    failed: usize,
    /// What the name of a case holds that is tried.
    only: Vec<u8>,
}

impl Report {
    /// No cases so far. Of those to come, the ones are tried whose name holds a text.
    pub fn new(alloc: Global, only: &str) -> Result<Report, AllocError> {
        Ok(Report {
            reported: Vec::new(alloc),
            named: 0,
            cases: 0,
            steps: 0,
            failed: 0,
            only: only.as_bytes().to_vec(alloc)?,
        })
    }

    /// Whether a case under a name is tried. A step is, whatever its name: later cases need what it gives.
    fn tries(&self, name: &[u8], case: &Case<'_>) -> bool {
        case.wanted().is_empty() || memmem::find(name, &self.only).is_some()
    }

    /// Tries the cases of a script, and adds what comes of them.
    pub fn try_script<T: Trial>(
        &mut self,
        alloc: Global,
        script: &[u8],
        trial: &mut T,
    ) -> Result<(), AllocError> {
        let mut name = b"".as_slice();
        let mut case = Case::new(alloc, b"");
        for line in script.split(|byte| *byte == b'\n') {
            match Line::of(line) {
                Line::Nothing => {}
                Line::Part(mark, text) => case.add(mark, text)?,
                Line::Words(words) => {
                    self.try_case(alloc, name, &case, trial)?;
                    case = Case::new(alloc, words);
                }
                Line::Name(next) => {
                    self.try_case(alloc, name, &case, trial)?;
                    case = Case::new(alloc, b"");
                    self.end(alloc, name)?;
                    name = next;
                }
            }
        }
        self.try_case(alloc, name, &case, trial)?;
        self.end(alloc, name)
    }

    /// Tries a case, and counts what comes of it.
    fn try_case<T: Trial>(
        &mut self,
        alloc: Global,
        name: &[u8],
        case: &Case<'_>,
        trial: &mut T,
    ) -> Result<(), AllocError> {
        if !self.tries(name, case) {
            return Ok(());
        }
        let mut answer = Vec::new(alloc);
        if !case.line().is_empty() {
            trial.answer(alloc, case, &mut answer)?;
        }
        self.count(case, &answer)
    }

    /// Reports how many cases are under a name, and begins another.
    fn end(&mut self, alloc: Global, name: &[u8]) -> Result<(), AllocError> {
        if self.named > 0 {
            let count = format!(in alloc; ": {}\n", self.named)?;
            self.reported.extend_from_slice(name)?;
            self.reported.extend_from_slice(count.as_bytes())?;
        }
        self.named = 0;
        Ok(())
    }

    /// Counts a case, and reports it where it isn't answered as it should be, or is wrong itself. One of which nothing
    /// is wanted is a step.
    fn count(&mut self, case: &Case<'_>, answer: &[u8]) -> Result<(), AllocError> {
        if !case.wanted().is_empty() {
            self.named = self.named.saturating_add(1);
            self.cases = self.cases.saturating_add(1);
        } else if !case.line().is_empty() {
            self.steps = self.steps.saturating_add(1);
        }
        let mistake = case.mistake().unwrap_or(b"");
        if case.wanted() != answer || !mistake.is_empty() {
            self.failed = self.failed.saturating_add(1);
            self.say_failed(case, answer, mistake)?;
        }
        Ok(())
    }

    fn say_failed(
        &mut self,
        case: &Case<'_>,
        answer: &[u8],
        mistake: &[u8],
    ) -> Result<(), AllocError> {
        self.reported.extend_from_slice(b"FAILED: ")?;
        self.reported.extend_from_slice(case.line())?;
        self.reported.extend_from_slice(b"\n")?;
        self.reported.extend_from_slice(mistake)?;
        self.reported.extend_from_slice(b"--- wanted:\n")?;
        self.reported.extend_from_slice(case.wanted())?;
        self.reported.extend_from_slice(b"\n--- answered:\n")?;
        self.reported.extend_from_slice(answer)?;
        self.reported.extend_from_slice(b"\n")
    }

    /// Adds a line of what was counted beside the cases.
    pub fn add_line(&mut self, line: &str) -> Result<(), AllocError> {
        self.reported.extend_from_slice(line.as_bytes())?;
        self.reported.extend_from_slice(b"\n")
    }

    /// The status that a suite ends with: 1 where a case failed.
    pub fn status(&self) -> ExitCode {
        if self.failed == 0 {
            ExitCode::SUCCESS
        } else {
            ExitCode::FAILURE
        }
    }

    /// The whole report, with how many cases and steps there were, and how many failed.
    pub fn into_text(mut self, alloc: Global) -> Result<Vec<u8>, AllocError> {
        let total = format!(in alloc;
            "{} cases, {} steps, {} failed\n",
            self.cases, self.steps, self.failed
        )?;
        self.reported.extend_from_slice(total.as_bytes())?;
        Ok(self.reported)
    }
}

/// What a line of a script is.
enum Line<'a> {
    Nothing,
    /// The name of the cases after it.
    Name(&'a [u8]),
    /// A part of the last case: its mark, and the text after that.
    Part(u8, &'a [u8]),
    Words(&'a [u8]),
}

impl<'a> Line<'a> {
    fn of(line: &'a [u8]) -> Line<'a> {
        match line {
            [] | [b'#', ..] => Line::Nothing,
            [b'=', b'=', b' ', name @ ..] => Line::Name(name),
            [mark @ (b'|' | b'+' | b'*' | b'>' | b'.')] => Line::Part(*mark, b""),
            [mark @ (b'|' | b'+' | b'*' | b'>' | b'.'), b' ', text @ ..] => {
                Line::Part(*mark, text)
            }
            words => Line::Words(words),
        }
    }
}

/// The report of a script: a line for each name, with the number of its cases; what was wanted and answered of each
/// case that failed, or what is wrong with it; and how many cases and steps there were, and how many failed.
pub fn try_script<T: Trial>(
    alloc: Global,
    script: &[u8],
    trial: &mut T,
) -> Result<Report, AllocError> {
    let mut report = Report::new(alloc, "")?;
    report.try_script(alloc, script, trial)?;
    Ok(report)
}
