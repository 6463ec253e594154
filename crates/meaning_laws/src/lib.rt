//! What holds of meanings: quiet predicates keep what XPath 2.0 says in words, and whatever an
//! expression or a query makes is sound (XPath 2.0, 3.2.2). Laws alone.
//!
//! The modules, lowest first:
//!
//! - `quiet_laws`: What quiet predicates keep, in the words of XPath 2.0.
//! - `sound_values`: Sound values, and what is read of them.
//! - `sound_functions`: What operators, functions and steps make of sound values is sound.
//! - `sound_runs`: Whatever a query makes is sound.
#![tactic(auto)]

pub mod quiet_laws;
pub mod sound_functions;
pub mod sound_runs;
pub mod sound_values;
