// Atoms and lists made for a test, which ends where memory runs out.
use std::alloc::AllocGlobal;
use std::process::Abort;
use xdm_items::{Item, ItemList};
use xt_atoms::{Atom, to_text};
use xt_names::{Name, Text};

// so many rows, keys or groups
pub(crate) const MANY: u64 = 300_000;

pub(crate) fn text(rt: &(impl Abort + AllocGlobal), s: &str) -> Text {
    Text::make(rt.alloc(), s).expect(rt, "memory")
}

// a name without prefix and uri
pub(crate) fn name(rt: &(impl Abort + AllocGlobal), local: &str) -> Name {
    Name {
        prefix: text(rt, ""),
        uri: text(rt, ""),
        local: text(rt, local),
    }
}

pub(crate) fn word(rt: &(impl Abort + AllocGlobal), s: &str) -> Atom {
    Atom::Str(text(rt, s))
}

// the digits of a number
pub(crate) fn digits(rt: &(impl Abort + AllocGlobal), number: u64) -> Atom {
    let number = Atom::Int((number % MANY) as i64);
    Atom::Str(to_text(rt.alloc(), &number).expect(rt, "memory"))
}

pub(crate) fn one_key(rt: &(impl Abort + AllocGlobal), key: Atom) -> ItemList {
    ItemList::one(rt.alloc(), Item::Atom(key))
}
