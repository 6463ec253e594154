// A request as text: the command, the two files, the depth, each further document with `+` before
// it, and each parameter.
use command_words::{Inputs, Request, read_request};
use std::alloc::AllocGlobal;
use std::process::Abort;

fn push(rt: &(impl Abort + AllocGlobal), text: &mut String, more: &str) {
    text.push_str(more).expect(rt, "memory");
}

fn shown(
    rt: &(impl Abort + AllocGlobal),
    command: &str,
    program: &str,
    inputs: &Inputs<'_>,
) -> String {
    let document = inputs.document;
    let depth = inputs.depth;
    let made = format!(in rt.alloc(); "{command} {program} {document} {depth}");
    let mut text = made.expect(rt, "memory");
    for name in inputs.documents.as_slice() {
        push(rt, &mut text, " +");
        push(rt, &mut text, name.as_str());
    }
    for parameter in inputs.parameters.as_slice() {
        push(rt, &mut text, " ");
        push(rt, &mut text, parameter.name.as_str());
        push(rt, &mut text, "=");
        push(rt, &mut text, parameter.value.as_str());
    }
    text
}

/// What the words ask for, or `usage`.
pub(crate) fn asked(rt: &(impl Abort + AllocGlobal), words: &[&str]) -> String {
    let mut owned = Vec::new(rt.alloc());
    for word in words {
        let word = String::from_str(rt.alloc(), word).expect(rt, "memory");
        owned.push(word).expect(rt, "memory");
    }
    let request = read_request(rt.alloc(), &owned).expect(rt, "memory");
    let text = match &request {
        None => String::from_str(rt.alloc(), "usage").expect(rt, "memory"),
        Some(Request::Transform { sheet, inputs }) => shown(rt, "transform", sheet, inputs),
        Some(Request::Query { query, inputs }) => shown(rt, "query", query, inputs),
    };
    drop(request);
    drop(owned);
    text
}
