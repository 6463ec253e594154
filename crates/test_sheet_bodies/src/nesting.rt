// How deep sequence constructors and expressions nest.
use crate::made::body_gets;
use std::alloc::AllocGlobal;
use std::process::Abort;

// The text so many times.
fn repeated(rt: &(impl Abort + AllocGlobal), text: &str, count: usize) -> String {
    let mut out = String::new(rt.alloc());
    for turn in 0..count {
        out.push_str(text).expect(rt, "memory");
    }
    out
}

// What stands so many times around something.
fn around(
    rt: &(impl Abort + AllocGlobal),
    before: &str,
    within: &str,
    behind: &str,
    count: usize,
) -> String {
    let mut out = repeated(rt, before, count);
    let back = repeated(rt, behind, count);
    out.push_str(within).expect(rt, "memory");
    out.push_str(back.as_str()).expect(rt, "memory");
    drop(back);
    out
}

// Instructions nest at most 40 levels.
#[test]
fn nested_instructions(rt: HostRuntime) {
    let most = around(&rt, "<xsl:if test='1'>", "", "</xsl:if>", 40);
    assert!(rt; body_gets(&rt, most.as_str(), ""), "40");
    drop(most);
    let more = around(&rt, "<xsl:if test='1'>", "", "</xsl:if>", 41);
    assert!(rt; body_gets(&rt, more.as_str(), "XTLM0004"), "41");
    drop(more);
    let literals = around(&rt, "<a>", "", "</a>", 41);
    assert!(rt;
        body_gets(&rt, literals.as_str(), "XTLM0004"),
        "literal elements"
    );
    drop(literals);
    let texts = around(&rt, "<a>", "b", "</a>", 40);
    assert!(rt;
        body_gets(&rt, texts.as_str(), "XTLM0004"),
        "a text within 40"
    );
    drop(texts);
}

// Expressions nest at most 40 levels; parentheses count none.
#[test]
fn nested_expressions(rt: HostRuntime) {
    let most = around(&rt, "not(", "1", ")", 39);
    let text = around(&rt, "<xsl:if test='", most.as_str(), "'/>", 1);
    assert!(rt; body_gets(&rt, text.as_str(), ""), "40");
    drop(text);
    drop(most);
    let more = around(&rt, "not(", "1", ")", 40);
    let text = around(&rt, "<xsl:if test='", more.as_str(), "'/>", 1);
    assert!(rt; body_gets(&rt, text.as_str(), "XTLM0004"), "41");
    drop(text);
    drop(more);
    let none = around(&rt, "(", "1", ")", 200);
    let text = around(&rt, "<xsl:if test='", none.as_str(), "'/>", 1);
    assert!(rt; body_gets(&rt, text.as_str(), ""), "parentheses");
    drop(text);
    drop(none);
}
