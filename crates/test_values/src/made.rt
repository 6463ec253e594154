// Values made for a test, which ends where memory runs out.
use std::alloc::AllocGlobal;
use std::process::Abort;
use xdm_items::{Item, ItemList};
use xt_atoms::Atom;
use xt_names::{List, Name, Text};
use xt_tree::{Attribute, Attrs, Kids, Tree};

pub(crate) fn text(rt: &(impl Abort + AllocGlobal), s: &str) -> Text {
    Text::make(rt.alloc(), s).expect(rt, "memory")
}

pub(crate) fn name_in(
    rt: &(impl Abort + AllocGlobal),
    prefix: &str,
    uri: &str,
    local: &str,
) -> Name {
    Name {
        prefix: text(rt, prefix),
        uri: text(rt, uri),
        local: text(rt, local),
    }
}

// a name without prefix and uri
pub(crate) fn name(rt: &(impl Abort + AllocGlobal), local: &str) -> Name {
    name_in(rt, "", "", local)
}

pub(crate) fn string(rt: &(impl Abort + AllocGlobal), s: &str) -> Atom {
    Atom::Str(text(rt, s))
}

pub(crate) fn untyped(rt: &(impl Abort + AllocGlobal), s: &str) -> Atom {
    Atom::Untyped(text(rt, s))
}

pub(crate) fn with<T: Drop>(
    rt: &(impl Abort + AllocGlobal),
    mut items: List<T>,
    item: T,
) -> List<T> {
    items.push(item).expect(rt, "memory");
    items
}

pub(crate) fn list_of<T: Drop>(rt: &(impl Abort + AllocGlobal), item: T) -> List<T> {
    with(rt, List::new(rt.alloc()), item)
}

pub(crate) fn with_item(
    rt: &(impl Abort + AllocGlobal),
    mut items: ItemList,
    item: Item,
) -> ItemList {
    items.push(item).expect(rt, "memory");
    items
}

pub(crate) fn attribute(rt: &(impl Abort + AllocGlobal), local: &str, value: &str) -> Attribute {
    Attribute {
        name: name(rt, local),
        value: text(rt, value),
    }
}

fn kids(rt: &(impl Abort + AllocGlobal)) -> Kids {
    let first = list_of(rt, Tree::Text(text(rt, "t")));
    let two = with(rt, first, Tree::Comment(text(rt, "c")));
    let three = with(rt, two, instruction(rt));
    let all = with(rt, three, Tree::Text(text(rt, "u")));
    Kids::make(rt.alloc(), all).expect(rt, "memory")
}

// `<a k="1">t<!--c--><?t d?>u</a>`
pub(crate) fn element(rt: &(impl Abort + AllocGlobal)) -> Tree {
    let attributes = list_of(rt, attribute(rt, "k", "1"));
    Tree::Elem(
        name(rt, "a"),
        Attrs::make(rt.alloc(), attributes).expect(rt, "memory"),
        kids(rt),
    )
}

// `<?t d?>`
pub(crate) fn instruction(rt: &(impl Abort + AllocGlobal)) -> Tree {
    Tree::Pi(text(rt, "t"), text(rt, "d"))
}
