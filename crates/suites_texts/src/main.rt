//! The suite of texts and records: what the crates from fields to writing answer to a script on standard input.
#![tactic(auto)]

mod framed;

use std::alloc::{AllocError, Global};
use std::io::{self, Read, Write};
use std::process::ExitCode;
use suites_script::{Case, Trial, try_script};

/// The text that cases speak of which give none.
#[derive(Drop)]
struct Trials {
    text: Vec<u8>,
}

impl Trial for Trials {
    fn answer(
        &mut self,
        alloc: Global,
        case: &Case<'_>,
        answer: &mut Vec<u8>,
    ) -> Result<(), AllocError> {
        if case.text(0) == "text" {
            self.text = case.given().to_vec(alloc)?;
            return Ok(());
        }
        let is_parsed = suites_texts_parsed::answer(alloc, case, &self.text, answer)?;
        let is_framed = framed::answer(alloc, case, &self.text, answer)?;
        if !is_parsed && !is_framed {
            answer.extend_from_slice(b"no such case\n")?;
        }
        Ok(())
    }
}

fn main(rt: HostRuntime) -> io::Result<ExitCode> {
    let alloc = rt.alloc();
    let mut script = Vec::new(alloc);
    rt.reader().read_to_end(&mut script)?;
    let mut trials = Trials {
        text: Vec::new(alloc),
    };
    let report = try_script(alloc, &script, &mut trials)?;
    let status = report.status();
    rt.stdout().write_all(&report.into_text(alloc)?)?;
    Ok(status)
}
