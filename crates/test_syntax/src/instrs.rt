// Instructions made for a test, in which a text stands for each expression and pattern.
use crate::made::{bare_name, list_of, name, shared, text};
use std::alloc::AllocGlobal;
use std::process::Abort;
use xt_names::{List, Text};
use xt_sheets::{instrs, values};

pub(crate) type Instr = instrs::Instr<Text, Text>;

pub(crate) type When = instrs::When<Text, Text>;

pub(crate) type Bound = instrs::Bound<Text, Text>;

pub(crate) type Value = instrs::Value<Text, Text>;

pub(crate) type AvtPart = values::AvtPart<Text>;

pub(crate) type Avt = values::Avt<Text>;

pub(crate) type AvtName = values::AvtName<Text>;

pub(crate) type LiteralAttr = values::LiteralAttr<Text>;

pub(crate) type Sort = values::Sort<Text>;

pub(crate) type Grouping = values::Grouping<Text, Text>;

pub(crate) fn chars(rt: &(impl Abort + AllocGlobal), s: &str) -> Instr {
    Instr::Chars(text(rt, s))
}

pub(crate) fn when(rt: &(impl Abort + AllocGlobal), test: &str, content: Instr) -> When {
    When {
        test: shared(rt, text(rt, test)),
        body: shared(rt, list_of(rt, content)),
    }
}

pub(crate) fn select(rt: &(impl Abort + AllocGlobal), e: &str) -> Value {
    Value::Select(shared(rt, text(rt, e)))
}

pub(crate) fn bound(rt: &(impl Abort + AllocGlobal), local: &str, value: Value) -> Bound {
    Bound {
        name: name(rt, local),
        kind: None,
        value,
        tunnel: true,
    }
}

pub(crate) fn avt(rt: &(impl Abort + AllocGlobal), s: &str) -> Avt {
    list_of(rt, AvtPart::Chars(text(rt, s)))
}

pub(crate) fn avt_name(rt: &(impl Abort + AllocGlobal), default_uri: &str) -> AvtName {
    AvtName {
        text: shared(rt, avt(rt, "n")),
        scope: shared(rt, List::new(rt.alloc())),
        default_uri: text(rt, default_uri),
    }
}

pub(crate) fn attribute(rt: &(impl Abort + AllocGlobal), local: &str) -> LiteralAttr {
    LiteralAttr {
        name: bare_name(rt, local),
        value: shared(rt, avt(rt, "v")),
    }
}

pub(crate) fn sort(rt: &(impl Abort + AllocGlobal), key: &str) -> Sort {
    Sort {
        key: shared(rt, text(rt, key)),
        descending: true,
        number: Some(false),
    }
}
