// Stylesheets of texts, and parts of them.
use import_tree::load_sheet;
use sheet_closure::sheet_closed;
use std::alloc::AllocGlobal;
use std::process::Abort;
use xt_io::MemFiles;
use xt_names::{ExprName, List, Shared, Text};
use xt_sheets::Sheet;
use xt_syntax::Expr;

const START: &str = "<xsl:stylesheet version='2.0' \
    xmlns:xsl='http://www.w3.org/1999/XSL/Transform' xmlns:xs='http://www.w3.org/2001/XMLSchema' \
    xmlns:p='urn:p'>";

/// What stands beside each sequence constructor: a template t that is called, with the parameter
/// a, a template in the mode m, a function p:f with one parameter, a key k, the globals h, which
/// depends on g, and g.
const BESIDE: &str = "<xsl:template name='t'><xsl:param name='a' select='1'/></xsl:template>\
    <xsl:template match='b[@c = 1]' mode='m'><xsl:call-template name='t'/></xsl:template>\
    <xsl:function name='p:f'><xsl:param name='x'/></xsl:function>\
    <xsl:key name='k' match='a' use='@id'/>\
    <xsl:variable name='h' select='$g'/><xsl:variable name='g' select='1'/>";

pub(crate) fn text(rt: &(impl Abort + AllocGlobal), of: &str) -> Text {
    Text::make(rt.alloc(), of).expect(rt, "memory")
}

pub(crate) fn name(rt: &(impl Abort + AllocGlobal), uri: &str, local: &str) -> ExprName {
    ExprName {
        uri: text(rt, uri),
        local: text(rt, local),
    }
}

/// The expression, as instructions hold it.
pub(crate) fn shared(rt: &(impl Abort + AllocGlobal), e: Expr) -> Shared<Expr> {
    Shared::make(rt.alloc(), e).expect(rt, "memory")
}

/// A call of a function of XPath's without arguments, or with a variable g and a number.
pub(crate) fn call(rt: &(impl Abort + AllocGlobal), local: &str, arguments: bool) -> Expr {
    let mut args = List::new(rt.alloc());
    if arguments {
        args.push(Expr::Var(name(rt, "", "g"))).expect(rt, "memory");
        args.push(Expr::Int(1)).expect(rt, "memory");
    }
    let of = name(rt, "http://www.w3.org/2005/xpath-functions", local);
    Expr::Call(of, Shared::make(rt.alloc(), args).expect(rt, "memory"))
}

/// The stylesheet with this content, which breaks no rule.
pub(crate) fn loaded(rt: &(impl Abort + AllocGlobal), content: &str) -> Sheet {
    let whole = format!(in rt.alloc(); "{START}{content}</xsl:stylesheet>");
    let whole = whole.expect(rt, "memory");
    let mut held = MemFiles::new(rt.alloc());
    held.add("s.xsl", whole.as_bytes()).expect(rt, "memory");
    drop(whole);
    let made = load_sheet(rt.alloc(), &mut held, "s.xsl");
    drop(held);
    match made {
        Ok(sheet) => sheet,
        Err(fault) => {
            drop(fault);
            panic!(rt; "a stylesheet")
        }
    }
}

/// The one with this sequence constructor in its rule for `/`, which is its second template.
pub(crate) fn with_body(rt: &(impl Abort + AllocGlobal), of: &str) -> Sheet {
    let content = format!(in rt.alloc(); "<xsl:template match='/'>{of}</xsl:template>{BESIDE}");
    let content = content.expect(rt, "memory");
    let made = loaded(rt, content.as_str());
    drop(content);
    made
}

/// Whether the stylesheet is closed.
pub(crate) fn is_closed(rt: &(impl Abort + AllocGlobal), sheet: Sheet) -> bool {
    let closed = sheet_closed(&sheet).expect(rt, "memory");
    drop(sheet);
    closed
}
