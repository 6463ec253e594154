//! Each instruction of a stylesheet does in its query what it does in the stylesheet: lemmas for the
//! laws above, nothing runs.
//!
//! A `Spot` is where an instruction stands, and `IsAt` says of a place in the run of the stylesheet and
//! one in that of the query that the query's variables hold what the instruction reads. `HelpersCarry`
//! and `DoorsCarry` say the same of what is called: helper functions, rules, named templates and keys.
//! Each form is related to what it becomes where its parts are, in both directions by one proof; so is
//! a template (`TemplatesDone`), and a call of its function (`Functions`).
#![tactic(auto)]
