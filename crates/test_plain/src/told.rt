// What an expression gives, as text.
use bound_prefixes::BoundPrefixes;
use doc_reader::read;
use doc_set::DocSet;
use doc_writer::write_items_bare;
use eval_scopes::eval_values::Place;
use expr_resolve::Setting;
use lazy_seq::Seq;
use plain_eval::{Focus, Vars, eval_plain};
use std::alloc::AllocGlobal;
use std::process::Abort;
use xdm_items::{Item, ItemList};
use xpath_lex::tokens;
use xpath_syntax::parse_expr;
use xt_atoms::{Atom, ValueFault};
use xt_names::{ExprName, List, Text};
use xt_syntax::{Expr, Prefixes};
use xt_tree::{Node, Tree};

pub fn text(rt: &(impl Abort + AllocGlobal), of: &str) -> Text {
    Text::make(rt.alloc(), of).expect(rt, "memory")
}

pub fn name(rt: &(impl Abort + AllocGlobal), local: &str) -> ExprName {
    ExprName {
        uri: text(rt, ""),
        local: text(rt, local),
    }
}

pub fn document(rt: &(impl Abort + AllocGlobal), of: &str) -> Tree {
    read(rt.alloc(), of.as_bytes()).expect(rt, "a document")
}

pub fn put(rt: &(impl Abort + AllocGlobal), out: &mut String, text: &str) {
    out.push_str(text).expect(rt, "memory");
}

fn setting(rt: &(impl Abort + AllocGlobal)) -> Setting {
    Setting {
        prefixes: Prefixes {
            bound: BoundPrefixes::new(List::new(rt.alloc())).expect(rt, "memory"),
            element_default: text(rt, ""),
            function_default: text(rt, "http://www.w3.org/2005/xpath-functions"),
        },
        strip: true,
    }
}

pub fn expr(rt: &(impl Abort + AllocGlobal), words: &str) -> Expr {
    let setting = setting(rt);
    match tokens(rt.alloc(), words) {
        Err(_) => panic!(rt; "no tokens"),
        Ok(found) => {
            let parsed = parse_expr(rt.alloc(), &found, &setting, 400);
            drop(found);
            drop(setting);
            parsed.expect(rt, "an expression")
        }
    }
}

fn put_items(rt: &(impl Abort + AllocGlobal), out: &mut String, items: ItemList) {
    let written = write_items_bare(rt.alloc(), &items);
    drop(items);
    match written {
        Ok(bytes) => match str::from_utf8(bytes.as_slice()) {
            Ok(text) => put(rt, out, text),
            Err(_) => put(rt, out, "no text"),
        },
        Err(_) => put(rt, out, "not written"),
    }
}

fn put_answer(rt: &(impl Abort + AllocGlobal), out: &mut String, answer: Result<Seq, ValueFault>) {
    match answer {
        Ok(items) => put_items(rt, out, items.to_list(rt.alloc()).expect(rt, "memory")),
        Err(ValueFault::Error(code)) => put(rt, out, code.text()),
        Err(ValueFault::Memory(_)) => put(rt, out, "memory"),
    }
}

// What an expression gives with these variables and this focus.
pub fn told(
    rt: &(impl Abort + AllocGlobal),
    words: &str,
    vars: &Vars,
    focus: Option<&Focus>,
) -> String {
    let mut out = String::new(rt.alloc());
    let e = expr(rt, words);
    put_answer(rt, &mut out, eval_plain(rt.alloc(), &e, vars, focus));
    drop(e);
    out
}

pub fn bind(rt: &(impl Abort + AllocGlobal), vars: &mut Vars, local: &str, items: ItemList) {
    let name = name(rt, local);
    vars.bind(&name, Seq::of_list(items)).expect(rt, "memory");
    drop(name);
}

pub fn add(rt: &(impl Abort + AllocGlobal), items: &mut ItemList, atom: Atom) {
    items.push(Item::Atom(atom)).expect(rt, "memory");
}

// One integer.
pub fn number(rt: &(impl Abort + AllocGlobal), n: i64) -> ItemList {
    let mut items = ItemList::new(rt.alloc());
    add(rt, &mut items, Atom::Int(n));
    items
}

// `n` is 41 and `s` has the texts `a` and `b`.
pub fn some_vars(rt: &(impl Abort + AllocGlobal)) -> Vars {
    let mut vars = Vars::new(rt.alloc());
    bind(rt, &mut vars, "n", number(rt, 41));
    let mut items = ItemList::new(rt.alloc());
    add(rt, &mut items, Atom::Str(text(rt, "a")));
    add(rt, &mut items, Atom::Str(text(rt, "b")));
    bind(rt, &mut vars, "s", items);
    vars
}

// The document `e.xml`, which has an element `e` with an attribute `k` of the value 41.
pub fn some_documents(rt: &(impl Abort + AllocGlobal)) -> DocSet {
    let mut set = DocSet::new(rt.alloc());
    let added = set
        .add("e.xml", document(rt, "<e k='41'/>"))
        .expect(rt, "memory");
    assert_eq!(rt; added, Some(1));
    set
}

pub fn place(rt: &(impl Abort + AllocGlobal), number: usize) -> Place {
    Place::new(number).expect(rt, "a place")
}

// The item at position 2 of 3.
pub fn focus_on(rt: &(impl Abort + AllocGlobal), item: Item) -> Focus {
    Focus {
        item,
        position: place(rt, 2),
        size: place(rt, 3),
    }
}

// The document node of `<a><b k='1'/><b k='2'/></a>`.
pub fn some_root(rt: &(impl Abort + AllocGlobal)) -> Item {
    let tree = document(rt, "<a><b k='1'/><b k='2'/></a>");
    Item::Node(Node::root_of(rt.alloc(), 1, tree).expect(rt, "memory"))
}
