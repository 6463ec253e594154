// Names, texts, lists and codes.
use crate::made::{list_of, name, name_in, text};
use std::alloc::AllocGlobal;
use std::collections::HashMap;
use std::process::Abort;
use xt_names::{
    Binding, Code, DynamicCode, ExprName, Name, QueryDynamicCode, QueryStaticCode, Shared,
    SheetDynamicCode, SheetStaticCode, Text, TextBuilder, begins_white,
    codes_have_eight_characters, copy_binding_list, copy_expr_name_list, copy_name_list,
    copy_text_list, ends_with, has_pair, is_ncname_char, is_ncname_start, is_same, is_xml_char,
    is_xml_text,
};

const XML: &str = "http://www.w3.org/XML/1998/namespace";

const XMLNS: &str = "http://www.w3.org/2000/xmlns/";

/// A prefix, a uri and a local part, and whether they make a name.
const CASES: [(&str, &str, &str, bool); 17] = [
    ("", "", "a", true),
    ("", "u", "a", true),
    ("p", "u", "a-1.b", true),
    ("p", "u", "\u{E9}t\u{E9}", true),
    ("xml", XML, "space", true),
    ("", "", "", false),
    ("", "", "1", false),
    ("", "", "a:b", false),
    ("", "", "a b", false),
    ("p", "", "a", false),
    ("1", "u", "a", false),
    ("p:q", "u", "a", false),
    ("xml", "u", "a", false),
    ("p", XML, "a", false),
    ("", XML, "a", false),
    ("xmlns", "u", "a", false),
    ("p", XMLNS, "a", false),
];

#[test]
fn names_are_those_of_namespaces_in_xml(rt: HostRuntime) {
    for (prefix, uri, local, allowed) in CASES {
        let made = Name::make(rt.alloc(), prefix, uri, local).expect(&rt, "memory");
        assert_eq!(rt; made.is_some(), allowed);
        drop(made);
    }
}

#[test]
fn a_name_is_its_uri_and_local_part(rt: HostRuntime) {
    let mut table = HashMap::new(rt.alloc());
    let inserted: Result<_, _> = table.insert(name_in(&rt, "p", "u", "a"), 1);
    assert!(rt; matches!(inserted, Ok(None)));
    let same = name_in(&rt, "q", "u", "a");
    let other = name_in(&rt, "p", "v", "a");
    assert!(rt; table.contains_key(&same) && !table.contains_key(&other));
    let copy = other.copy().expect(&rt, "memory");
    assert!(rt; copy.prefix.is("p") && copy.uri.is("v") && copy.local.is("a"));
    drop(copy);
    drop(same);
    drop(other);
    drop(table);
}

fn built(rt: &(impl Abort + AllocGlobal)) -> Text {
    let mut builder = TextBuilder::new(rt.alloc());
    builder.push_str("na\u{EF}ve ").expect(rt, "memory");
    builder.push('\u{20AC}').expect(rt, "memory");
    let mark = text(rt, "!");
    builder.push_text(&mark).expect(rt, "memory");
    drop(mark);
    builder.finish().expect(rt, "memory")
}

#[test]
fn texts_are_built_and_shared(rt: HostRuntime) {
    let made = built(&rt);
    assert_eq!(rt; made.as_str(), "na\u{EF}ve \u{20AC}!");
    let copy = made.copy().expect(&rt, "memory");
    assert!(rt; copy == made && copy.is("na\u{EF}ve \u{20AC}!") && !copy.is_empty());
    assert!(rt; is_xml_text(made.as_str()) && !is_xml_text("\u{FFFE}"));
    drop(copy);
    drop(made);
}

#[test]
fn texts_in_lists_are_copied_in_order(rt: HostRuntime) {
    let mut letters = list_of(&rt, text(&rt, "a"));
    letters.push(text(&rt, "b")).expect(&rt, "memory");
    let copy = copy_text_list(&letters).expect(&rt, "memory");
    assert!(rt; matches!(copy.as_slice(), [a, b] if a.is("a") && b.is("b")));
    drop(copy);
    drop(letters);
}

#[test]
fn names_in_lists_are_copied_with_their_prefixes(rt: HostRuntime) {
    let names = list_of(&rt, name_in(&rt, "p", "u", "a"));
    let copy = copy_name_list(&names).expect(&rt, "memory");
    drop(names);
    assert!(rt;
        matches!(copy.as_slice(), [only]
        if only.prefix.is("p") && only.uri.is("u") && only.local.is("a"))
    );
    drop(copy);
}

#[test]
fn names_of_expressions_in_lists_are_copied(rt: HostRuntime) {
    let plain = ExprName {
        uri: text(&rt, "u"),
        local: text(&rt, "a"),
    };
    let names = list_of(&rt, plain);
    let copy = copy_expr_name_list(&names).expect(&rt, "memory");
    drop(names);
    assert!(rt; matches!(copy.as_slice(), [only] if only.uri.is("u") && only.local.is("a")));
    drop(copy);
}

#[test]
fn bindings_in_lists_are_copied(rt: HostRuntime) {
    let binding = Binding {
        prefix: text(&rt, "p"),
        uri: text(&rt, "u"),
    };
    let bindings = list_of(&rt, binding);
    let copy = copy_binding_list(&bindings).expect(&rt, "memory");
    drop(bindings);
    assert!(rt; matches!(copy.as_slice(), [only] if only.prefix.is("p") && only.uri.is("u")));
    drop(copy);
}

#[test]
fn a_value_is_shared(rt: HostRuntime) {
    let shared = Shared::make(rt.alloc(), name(&rt, "a")).expect(&rt, "memory");
    let copy = shared.copy().expect(&rt, "memory");
    drop(shared);
    assert!(rt; copy.get().local.is("a"));
    drop(copy);
}

/// A code and how it is spelled, one of each family.
const SPELLED: [(Code, &str); 5] = [
    (Code::SheetStatic(SheetStaticCode::XTUN0001), "XTUN0001"),
    (Code::Dynamic(DynamicCode::SENR0001), "SENR0001"),
    (Code::QueryStatic(QueryStaticCode::XPST0003), "XPST0003"),
    (Code::QueryDynamic(QueryDynamicCode::XQDY0025), "XQDY0025"),
    (Code::SheetDynamic(SheetDynamicCode::XTDE0410), "XTDE0410"),
];

#[test]
fn codes_are_spelled(rt: HostRuntime) {
    for (code, spelled) in SPELLED {
        assert_eq!(rt; code.text(), spelled);
    }
    codes_have_eight_characters();
}

#[test]
fn marks_and_classes(rt: HostRuntime) {
    assert!(rt; has_pair("a--b", '-', '-') && !has_pair("-a-", '-', '-'));
    assert!(rt; ends_with("a-", '-') && !ends_with("-a", '-'));
    assert!(rt; begins_white("\ta") && begins_white("\ra") && !begins_white("a "));
    assert!(rt; is_ncname_start('_') && !is_ncname_start('-') && is_ncname_char('-'));
    assert!(rt; is_xml_char('\n') && !is_xml_char('\u{1}') && !is_xml_char('\u{FFFE}'));
    assert!(rt; is_same("\u{E9}", "\u{E9}") && !is_same("\u{E9}", "e"));
}
