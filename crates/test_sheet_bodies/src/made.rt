// Stylesheets of sequence constructors, and what is said of them.
use import_tree::{SheetFault, load_sheet};
use sheet_closure::sheet_closed;
use std::alloc::AllocGlobal;
use std::process::Abort;
use xt_io::MemFiles;

const START: &str = "<xsl:stylesheet version='2.0' \
    xmlns:xsl='http://www.w3.org/1999/XSL/Transform' xmlns:xs='http://www.w3.org/2001/XMLSchema' \
    xmlns:p='urn:p'>";

const BESIDE: &str =
    "<xsl:template name='t'><xsl:param name='a'/><xsl:param name='p:a'/></xsl:template>\
    <xsl:template name='u'/>\
    <xsl:template name='r'><xsl:param name='a' required='yes'/></xsl:template>\
    <xsl:function name='p:f'><xsl:param name='x'/></xsl:function>\
    <xsl:key name='k' match='a' use='@id'/><xsl:variable name='g' select='1'/>";

// A stylesheet with this sequence constructor, beside a template t with the parameters a and p:a, a
// template u without, a template r with the required parameter a, a function p:f with one parameter,
// a key k, and a variable g.
fn sheet_of(rt: &(impl Abort + AllocGlobal), of: &str) -> String {
    let made = format!(in rt.alloc();
        "{START}<xsl:template match='/'>{of}</xsl:template>{BESIDE}</xsl:stylesheet>"
    );
    made.expect(rt, "memory")
}

/// Whether the stylesheet with this sequence constructor gets the code; an empty one where it is
/// taken, and is closed.
pub(crate) fn body_gets(rt: &(impl Abort + AllocGlobal), of: &str, code: &str) -> bool {
    let text = sheet_of(rt, of);
    let mut files = MemFiles::new(rt.alloc());
    files.add("s.xsl", text.as_bytes()).expect(rt, "memory");
    drop(text);
    let made = load_sheet(rt.alloc(), &mut files, "s.xsl");
    drop(files);
    match made {
        Ok(sheet) => {
            let is_closed = sheet_closed(&sheet).expect(rt, "memory");
            drop(sheet);
            is_closed && code == ""
        }
        Err(SheetFault::Static(found)) => found.text() == code,
        Err(fault) => {
            drop(fault);
            false
        }
    }
}
