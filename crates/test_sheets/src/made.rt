// Stylesheets of texts, and what is said of them.
use import_tree::{SheetFault, load_sheet};
use sheet_closure::sheet_closed;
use std::alloc::AllocGlobal;
use std::process::Abort;
use xt_io::MemFiles;
use xt_sheets::Sheet;

const START: &str = "<xsl:stylesheet version='2.0' \
    xmlns:xsl='http://www.w3.org/1999/XSL/Transform' xmlns:xs='http://www.w3.org/2001/XMLSchema' \
    xmlns:p='urn:p'>";

/// A stylesheet with this content.
pub(crate) fn sheet(rt: &(impl Abort + AllocGlobal), content: &str) -> String {
    let made = format!(in rt.alloc(); "{START}{content}</xsl:stylesheet>");
    made.expect(rt, "memory")
}

/// What comes of the stylesheet s.xsl of these files.
pub(crate) fn load(
    rt: &(impl Abort + AllocGlobal),
    files: &[(&str, &str)],
) -> Result<Sheet, SheetFault> {
    let mut held = MemFiles::new(rt.alloc());
    for (name, text) in files {
        held.add(name, text.as_bytes()).expect(rt, "memory");
    }
    let made = load_sheet(rt.alloc(), &mut held, "s.xsl");
    drop(held);
    made
}

fn words(rt: &(impl Abort + AllocGlobal), cause: &str, name: &str) -> String {
    let mut out = String::new(rt.alloc());
    out.push_str(cause).expect(rt, "memory");
    out.push_str(name).expect(rt, "memory");
    out
}

// The code, or the cause with the name of the file; nothing of a stylesheet that is closed.
fn told(rt: &(impl Abort + AllocGlobal), made: Result<Sheet, SheetFault>) -> String {
    match made {
        Ok(sheet) => {
            let is_closed = sheet_closed(&sheet).expect(rt, "memory");
            drop(sheet);
            words(rt, if is_closed { "" } else { "not closed" }, "")
        }
        Err(SheetFault::Static(code)) => words(rt, code.text(), ""),
        Err(SheetFault::Load(name)) => words(rt, "load ", name.as_str()),
        Err(SheetFault::TooLong(name, _)) => words(rt, "long ", name.as_str()),
        Err(SheetFault::Malformed(name, _)) => words(rt, "malformed ", name.as_str()),
        Err(SheetFault::Memory(_)) => panic!(rt; "memory"),
    }
}

/// Whether this is said of the stylesheet s.xsl of these files: the code of the rule that is broken,
/// the cause with the name of a file, or nothing.
pub(crate) fn is_said(
    rt: &(impl Abort + AllocGlobal),
    files: &[(&str, &str)],
    wanted: &str,
) -> bool {
    let found = told(rt, load(rt, files));
    let same = found.as_str() == wanted;
    drop(found);
    same
}

/// Whether the stylesheet with this content gets the code; an empty one where it is taken.
pub(crate) fn sheet_gets(rt: &(impl Abort + AllocGlobal), content: &str, code: &str) -> bool {
    let text = sheet(rt, content);
    let same = is_said(rt, &[("s.xsl", text.as_str())], code);
    drop(text);
    same
}

/// The text so many times.
pub(crate) fn repeated(rt: &(impl Abort + AllocGlobal), text: &str, count: usize) -> String {
    let mut out = String::new(rt.alloc());
    for turn in 0..count {
        out.push_str(text).expect(rt, "memory");
    }
    out
}
