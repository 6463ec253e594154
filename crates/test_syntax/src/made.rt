// Values made for a test, which ends where memory runs out.
use std::alloc::AllocGlobal;
use std::process::Abort;
use xt_names::{ExprName, List, Name, Shared, Text};

pub(crate) fn shared<T: Drop>(rt: &(impl Abort + AllocGlobal), value: T) -> Shared<T> {
    Shared::make(rt.alloc(), value).expect(rt, "memory")
}

pub(crate) fn with<T: Drop>(
    rt: &(impl Abort + AllocGlobal),
    mut items: List<T>,
    item: T,
) -> List<T> {
    items.push(item).expect(rt, "memory");
    items
}

pub(crate) fn list_of<T: Drop>(rt: &(impl Abort + AllocGlobal), item: T) -> List<T> {
    with(rt, List::new(rt.alloc()), item)
}

pub(crate) fn list_of_two<T: Drop>(
    rt: &(impl Abort + AllocGlobal),
    first: T,
    second: T,
) -> List<T> {
    with(rt, list_of(rt, first), second)
}

pub(crate) fn text(rt: &(impl Abort + AllocGlobal), s: &str) -> Text {
    Text::make(rt.alloc(), s).expect(rt, "memory")
}

pub(crate) fn name(rt: &(impl Abort + AllocGlobal), local: &str) -> ExprName {
    ExprName {
        uri: text(rt, ""),
        local: text(rt, local),
    }
}

// a name without prefix and uri
pub(crate) fn bare_name(rt: &(impl Abort + AllocGlobal), local: &str) -> Name {
    Name {
        prefix: text(rt, ""),
        uri: text(rt, ""),
        local: text(rt, local),
    }
}
