//! Runs XQuery 1.0 queries and XSLT 2.0 stylesheets.
//!
//! `xslt2xq query QUERY DOC` writes what the query in the file QUERY gives on the document in the file
//! DOC, and `xslt2xq transform SHEET DOC` what the stylesheet in the file SHEET makes of it, as XML in
//! UTF-8, to standard output; `command_words` says which options and parameters may stand beside them.
//! It refuses all other words, files that cannot be read or have more than 64 MiB, queries,
//! stylesheets and documents that it cannot read, and those that run into an error. Then one line on
//! standard error says why, and the status of the process is the number of `driver::Status`. What a
//! run does is `driver::run`; here it is given the words, the files and the streams of the system.
//!
//! Example: with `<xsl:stylesheet version="2.0" xmlns:xsl="http://www.w3.org/1999/XSL/Transform"/>`
//! in s.xsl and `<a>x</a>` in d.xml, `xslt2xq transform s.xsl d.xml` writes `<?xml version="1.0"
//! encoding="UTF-8"?>x`.
#![tactic(auto)]

use driver::{Status, run};
use std::process::ExitCode;
use std::{env, io};
use xt_io::{DiskFiles, StdSink};

/// Ends with the number of the run's status. Where the system does not hand the words over it
/// writes nothing, and ends with the number of want of memory, or with 13 for any other cause.
fn main(rt: HostRuntime) -> ExitCode {
    let words = match read_words(&rt) {
        Ok(words) => words,
        Err(e) if e.kind() == io::ErrorKind::OutOfMemory => {
            return ExitCode::from(Status::Memory.number());
        }
        Err(_) => return ExitCode::from(13),
    };
    let mut files = DiskFiles::new(&rt);
    let mut out = StdSink::new(rt.stdout());
    let mut notes = StdSink::new(rt.stderr());
    let status = run(rt.alloc(), &words, &mut files, &mut out, &mut notes);
    ExitCode::from(status.number())
}

// The words after the program's name.
fn read_words(rt: &HostRuntime) -> io::Result<Vec<String>> {
    let mut words = Vec::new(rt.alloc());
    for word in env::args(rt)?.skip(1) {
        words.push(word)?;
    }
    Ok(words)
}
