//! The files of the system, as a run of the program asks for them.
ghost use Rattle.std.specs.Prelude.{⊤};

use std::io;
use warc_commands::System;
use warc_host::{Host, HostFile, HostStream};

/// The files of the host. Nothing is known of what they give.
#[derive(Drop)]
pub struct Files<'a> {
    pub host: Host<'a>,
}

impl<'a> System for Files<'a> {
    type File = HostFile<'a>;

    type Stream = HostStream<'a>;

    ghost gives = { λ _ _. ⊤ };

    fn open(&self, path: &str) -> io::Result<HostFile<'a>> {
        self.host.open(path)
    }

    fn redirected(&self) -> Option<HostFile<'a>> {
        self.host.redirected()
    }

    fn stream(&self) -> HostStream<'a> {
        self.host.stream()
    }
}
