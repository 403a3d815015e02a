//! The suite of failures, by a script on standard input: each read, each write and each request for memory of commands
//! and of calls of the library is refused, one after another. With a word on the command line only the cases are tried
//! whose name has it.
#![tactic(auto)]

mod archives;
mod endless;
mod lines;
mod plain;
mod runs;
mod salvage_failures;
mod salvaged;
mod turns;
mod ways;
mod words;

use archives::Archives;
use std::alloc::{AllocError, Global};
use std::env;
use std::io::{self, Read, Write};
use std::process::ExitCode;
use suites_script::{Case, Report, Trial};

#[derive(Drop)]
struct Trials {
    archives: Archives,
}

impl Trial for Trials {
    fn answer(
        &mut self,
        alloc: Global,
        case: &Case<'_>,
        answer: &mut Vec<u8>,
    ) -> Result<(), AllocError> {
        let is_known = self.archives.answer(alloc, case, answer)?
            || ways::answer(alloc, case, self.archives.bytes(), answer)?
            || suites_calls::answer(alloc, case, self.archives.bytes(), answer)?;
        if is_known {
            Ok(())
        } else {
            answer.extend_from_slice(b"no such case\n")
        }
    }
}

fn main(rt: HostRuntime) -> io::Result<ExitCode> {
    let alloc = rt.alloc();
    let mut script = Vec::new(alloc);
    rt.reader().read_to_end(&mut script)?;
    let mut trials = Trials {
        archives: Archives::new(alloc),
    };
    let words: Vec<String> = env::args(&rt)?.collect(alloc)?;
    let only = match words.as_slice() {
        [_, only] => only.as_str(),
        _ => "",
    };
    let mut report = Report::new(alloc, only)?;
    report.try_script(alloc, &script, &mut trials)?;
    report.add_line(&trials.archives.openings(alloc)?)?;
    let status = report.status();
    rt.stdout().write_all(&report.into_text(alloc)?)?;
    Ok(status)
}
