//! What the words of a command line ask for.
//!
//! `read_request` takes the words after the program's name and gives the request that they are, or
//! none. A request names a stylesheet or a query, and on what it runs: a document, how many calls
//! may be open at once, further documents for `doc`, and parameters.
//!
//! The first word is the command. After it stand options and operands in any order. `--depth N`
//! says how many calls may be open at once, once at most; `--doc FILE` names a further document, up
//! to 16 of them and each once. Either may be one word, with `=` between. Behind `--` all words are
//! operands; before it a word that begins with `-` and is neither such an option nor `-` alone asks
//! for nothing. The first two operands are the stylesheet or the query and the document, and each
//! further one is a parameter: a name without a colon, `=`, and its text, no name twice.
//!
//! Example: `query q.xq d.xml --depth=9 n=1` asks for the query in q.xq on d.xml with at most 9
//! calls open, where `n` is `1`; `query q.xq` asks for nothing.
#![tactic(auto)]

mod apart;
mod depths;
mod different;
mod documents;
mod laws;
mod parameters;
mod pieces;
mod requests;

pub use laws::{requests_name_once, words_say_one};
pub use parameters::Parameter;
pub use requests::{Inputs, Request, read_request};
