//! The versions of the format that are read and kept.
ghost use Rattle.std.specs.Prelude.{◌≡◌, Some, length};
ghost use Rattle.warc_frame.specs.VersionLine.{version_line, version_name};

use std::fmt;

/// A version of the format (ISO 28500:2017, which is WARC 1.1: section 4, file and record model).
#[derive(Clone, Copy, PartialEq, Eq, Debug)]
pub enum Version {
    V1_0,
    V1_1,
}

impl Version {
    /// The line that begins a record of this version, with its CRLF.
    pub fn line(self) -> &'static [u8]
        ensures line { result.now ≡ version_line self }
        ensures len { length result.now ≡ 10 }
    {
        match self {
            Version::V1_0 => b"WARC/1.0\r\n",
            Version::V1_1 => b"WARC/1.1\r\n",
        }
    }
}

impl fmt::Display for Version {
    ghost output = { λ v. Some (version_name v) };

    fn fmt<W: fmt::Write>(&self, f: &mut fmt::Formatter<W>) -> fmt::Result {
        match self {
            Version::V1_0 => write!(f, "WARC/1.0"),
            Version::V1_1 => write!(f, "WARC/1.1"),
        }
    }
}
