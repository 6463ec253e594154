// What tests are made of. Each helper ends the test where memory runs out.
use doc_reader::read;
use std::alloc::AllocGlobal;
use std::process::Abort;
use xt_names::{List, Name, Text};
use xt_tree::{Attribute, Attrs, Kids, Tree};

// the tree of a text
pub(crate) fn document(rt: &(impl Abort + AllocGlobal), text: &str) -> Tree {
    read(rt.alloc(), text.as_bytes()).expect(rt, "a document")
}

pub(crate) fn text(rt: &(impl Abort + AllocGlobal), s: &str) -> Text {
    Text::make(rt.alloc(), s).expect(rt, "memory")
}

pub(crate) fn name(rt: &(impl Abort + AllocGlobal), prefix: &str, uri: &str, local: &str) -> Name {
    Name {
        prefix: text(rt, prefix),
        uri: text(rt, uri),
        local: text(rt, local),
    }
}

pub(crate) fn with<T: Drop>(
    rt: &(impl Abort + AllocGlobal),
    mut items: List<T>,
    item: T,
) -> List<T> {
    items.push(item).expect(rt, "memory");
    items
}

pub(crate) fn list_of<T: Drop>(rt: &(impl Abort + AllocGlobal), item: T) -> List<T> {
    with(rt, List::new(rt.alloc()), item)
}

pub(crate) fn attribute(rt: &(impl Abort + AllocGlobal), name: Name, value: &str) -> Attribute {
    Attribute {
        name,
        value: text(rt, value),
    }
}

pub(crate) fn element(
    rt: &(impl Abort + AllocGlobal),
    name: Name,
    attributes: List<Attribute>,
    kids: List<Tree>,
) -> Tree {
    Tree::Elem(
        name,
        Attrs::make(rt.alloc(), attributes).expect(rt, "memory"),
        Kids::make(rt.alloc(), kids).expect(rt, "memory"),
    )
}

pub(crate) fn push(rt: &(impl Abort + AllocGlobal), out: &mut String, s: &str) {
    out.push_str(s).expect(rt, "memory");
}

// the text so many times
pub(crate) fn repeated(rt: &(impl Abort + AllocGlobal), s: &str, times: usize) -> String {
    let mut out = String::new(rt.alloc());
    for _ in 0..times {
        push(rt, &mut out, s);
    }
    out
}
