//! The suite of look-ups, by a script on standard input: series of segments, captures and where revisits lead, and what
//! is answered of joined blocks.
#![tactic(auto)]

mod captures;
mod heads;
mod replays;
mod series;
mod stored;
mod text;

use heads::Records;
use replays::Replays;
use std::alloc::{AllocError, Global};
use std::io::{self, Read, Write};
use std::process::ExitCode;
use suites_script::{Case, Trial, try_script};

#[derive(Drop)]
struct Trials {
    records: Records,
    replays: Replays,
}

impl Trial for Trials {
    fn answer(
        &mut self,
        alloc: Global,
        case: &Case<'_>,
        answer: &mut Vec<u8>,
    ) -> Result<(), AllocError> {
        match case.text(0) {
            "head"
            | "stored"
            | "block"
            | "replay"
            | "replay-place"
            | "failing-reads"
            | "failing-writes"
            | "empty-writes"
            | "fault" => self.replays.answer(alloc, case, answer),
            _ => self.records.answer(alloc, case, answer),
        }
    }
}

fn main(rt: HostRuntime) -> io::Result<ExitCode> {
    let alloc = rt.alloc();
    let mut script = Vec::new(alloc);
    rt.reader().read_to_end(&mut script)?;
    let mut trials = Trials {
        records: Records::new(alloc),
        replays: Replays::new(alloc),
    };
    let report = try_script(alloc, &script, &mut trials)?;
    let status = report.status();
    rt.stdout().write_all(&report.into_text(alloc)?)?;
    Ok(status)
}
