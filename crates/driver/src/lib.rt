//! The top call of the program: a run of a command line over files and sinks.
//!
//! `run` takes the words after the program's name, a source of files, and two sinks, one for the
//! output and one for notes. It finds out what the words ask for, which is to run a stylesheet or a
//! query, loads and reads the files that they name, computes the text, and only then writes it;
//! where there is no text, one line in the notes says why. The `Status` that it gives says how the
//! run ended, and has the number of the process's status.
//!
//! The four clauses of `run` are the theorem of the whole program. They stand in specs/Theorem.antt
//! on one page: `Answers` (each status comes only with its cause, and says what was written),
//! `Completes` (where nothing stands against the request, the text is written or memory ran out),
//! `Keeps` (what the files hold stays) and `Notes` (the line of the status is said).
//!
//! Example: over files that hold `<xsl:stylesheet version="2.0"
//! xmlns:xsl="http://www.w3.org/1999/XSL/Transform"/>` as s.xsl and `<a>x</a>` as d.xml, the words
//! `transform`, `s.xsl` and `d.xml` put `<?xml version="1.0" encoding="UTF-8"?>x` into the output,
//! and the status is `Status::Done`, whose number is 0.
#![tactic(auto)]

mod program;
pub mod query_runs;
pub mod sheet_runs;

pub use program::run;
pub use run_parts::{ProfileRule, Status};
