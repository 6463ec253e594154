// What an expression is, without its parts, as a word.
use std::alloc::AllocGlobal;
use std::process::Abort;
use xt_names::{ArithOp, AtomType, CompareOp, ExprName, Name};
use xt_syntax::{Axis, Clause, Count, Expr, ItemType, NameSource, NameTest, SeqType, Test};

pub(crate) fn put(rt: &(impl Abort + AllocGlobal), out: &mut String, text: &str) {
    out.push_str(text).expect(rt, "memory");
}

fn put_in(rt: &(impl Abort + AllocGlobal), out: &mut String, uri: &str, local: &str) {
    if uri != "" {
        put(rt, out, "{");
        put(rt, out, uri);
        put(rt, out, "}");
    }
    put(rt, out, local);
}

pub(crate) fn put_name(rt: &(impl Abort + AllocGlobal), out: &mut String, name: &ExprName) {
    put_in(rt, out, name.uri.as_str(), name.local.as_str());
}

pub(crate) fn put_node_name(rt: &(impl Abort + AllocGlobal), out: &mut String, name: &Name) {
    put_in(rt, out, name.uri.as_str(), name.local.as_str());
}

fn put_number(rt: &(impl Abort + AllocGlobal), out: &mut String, number: i64) {
    let text = format!(in rt.alloc(); "{number}").expect(rt, "memory");
    put(rt, out, text.as_str());
}

fn compare_word(op: CompareOp) -> &'static str {
    match op {
        CompareOp::Eq => "eq",
        CompareOp::Ne => "ne",
        CompareOp::Lt => "lt",
        CompareOp::Le => "le",
        CompareOp::Gt => "gt",
        CompareOp::Ge => "ge",
    }
}

fn arith_word(op: ArithOp) -> &'static str {
    match op {
        ArithOp::Add => "+",
        ArithOp::Sub => "-",
        ArithOp::Mul => "*",
        ArithOp::Idiv => "idiv",
        ArithOp::Mod => "mod",
    }
}

fn atom_word(kind: AtomType) -> &'static str {
    match kind {
        AtomType::Str => "string",
        AtomType::Untyped => "untypedAtomic",
        AtomType::Int => "integer",
        AtomType::Bool => "boolean",
        AtomType::QName => "QName",
        AtomType::Any => "anyAtomicType",
    }
}

fn axis_word(axis: Axis) -> &'static str {
    match axis {
        Axis::Child => "child",
        Axis::Descendant => "descendant",
        Axis::Attribute => "attribute",
        Axis::Itself => "self",
        Axis::DescendantOrSelf => "descendant-or-self",
        Axis::FollowingSibling => "following-sibling",
        Axis::Following => "following",
        Axis::Parent => "parent",
        Axis::Ancestor => "ancestor",
        Axis::PrecedingSibling => "preceding-sibling",
        Axis::Preceding => "preceding",
        Axis::AncestorOrSelf => "ancestor-or-self",
    }
}

fn put_name_test(rt: &(impl Abort + AllocGlobal), out: &mut String, test: &NameTest) {
    match test {
        NameTest::Any => put(rt, out, "*"),
        NameTest::Uri(uri) => put_in(rt, out, uri.as_str(), "*"),
        NameTest::Local(local) => put_in(rt, out, "*", local.as_str()),
        NameTest::Exact(name) => put_name(rt, out, name),
    }
}

fn put_kind(rt: &(impl Abort + AllocGlobal), out: &mut String, word: &str, test: &NameTest) {
    put(rt, out, word);
    put(rt, out, "[");
    put_name_test(rt, out, test);
    put(rt, out, "]");
}

fn put_test(rt: &(impl Abort + AllocGlobal), out: &mut String, test: &Test) {
    match test {
        Test::Named(name) => put_name_test(rt, out, name),
        Test::Node => put(rt, out, "node[]"),
        Test::Text => put(rt, out, "text[]"),
        Test::Comment => put(rt, out, "comment[]"),
        Test::Pi(None) => put(rt, out, "pi[]"),
        Test::Pi(Some(target)) => {
            put(rt, out, "pi[");
            put(rt, out, target.as_str());
            put(rt, out, "]");
        }
        Test::Doc => put(rt, out, "document[]"),
        Test::Elem(name) => put_kind(rt, out, "element", name),
        Test::Attr(name) => put_kind(rt, out, "attribute", name),
    }
}

fn count_mark(count: Count) -> &'static str {
    match count {
        Count::One => "",
        Count::Opt => "?",
        Count::Many => "*",
        Count::More => "+",
    }
}

pub(crate) fn put_type(rt: &(impl Abort + AllocGlobal), out: &mut String, kind: &SeqType) {
    match kind {
        SeqType::Empty => put(rt, out, "empty"),
        SeqType::Of(item, count) => {
            match item {
                ItemType::Any => put(rt, out, "item"),
                ItemType::Kind(test) => put_test(rt, out, test),
                ItemType::Atomic(kind) => put(rt, out, atom_word(*kind)),
            }
            put(rt, out, count_mark(*count));
        }
    }
}

fn put_single(
    rt: &(impl Abort + AllocGlobal),
    out: &mut String,
    word: &str,
    kind: AtomType,
    empty: bool,
) {
    put(rt, out, word);
    put(rt, out, atom_word(kind));
    if empty {
        put(rt, out, "?");
    }
}

fn put_source(rt: &(impl Abort + AllocGlobal), out: &mut String, word: &str, name: &NameSource) {
    put(rt, out, word);
    match name {
        NameSource::Fixed(name) => put_node_name(rt, out, name),
        NameSource::Computed(_) => put(rt, out, "computed"),
    }
}

fn put_clause(rt: &(impl Abort + AllocGlobal), out: &mut String, clause: &Clause) {
    match clause {
        Clause::For(bind, place) => {
            put(rt, out, " for ");
            put_name(rt, out, &bind.var);
            if let Some(kind) = &bind.kind {
                put(rt, out, " as ");
                put_type(rt, out, kind);
            }
            if let Some(place) = place {
                put(rt, out, " at ");
                put_name(rt, out, place);
            }
        }
        Clause::Let(bind) => {
            put(rt, out, " let ");
            put_name(rt, out, &bind.var);
        }
    }
}

fn put_leaf(rt: &(impl Abort + AllocGlobal), out: &mut String, e: &Expr) {
    match e {
        Expr::Int(n) => put_number(rt, out, *n),
        Expr::Str(text) => {
            put(rt, out, "'");
            put(rt, out, text.as_str());
            put(rt, out, "'");
        }
        Expr::Var(name) => {
            put(rt, out, "$");
            put_name(rt, out, name);
        }
        Expr::Step(axis, test, _) => {
            put(rt, out, axis_word(*axis));
            put(rt, out, "::");
            put_test(rt, out, test);
        }
        Expr::Call(name, _) => put_name(rt, out, name),
        _ => put(rt, out, word_of(e)),
    }
}

// The word of a form that has no data but its parts.
fn word_of(e: &Expr) -> &'static str {
    match e {
        Expr::Context => ".",
        Expr::Root => "root",
        Expr::Comma(_) => "comma",
        Expr::Or(_) => "or",
        Expr::And(_) => "and",
        Expr::If(_, _) => "if",
        Expr::Quant(false, _, _) => "some",
        Expr::Quant(true, _, _) => "every",
        Expr::Is(_, _) => "is",
        Expr::Before(_, _) => "before",
        Expr::After(_, _) => "after",
        Expr::Range(_, _) => "to",
        Expr::Arith(op, _, _) => arith_word(*op),
        Expr::Value(op, _, _) => compare_word(*op),
        Expr::Minus(_) => "minus",
        Expr::Plus(_) => "plus",
        Expr::Union(_, _) => "union",
        Expr::Intersect(_, _) => "intersect",
        Expr::Except(_, _) => "except",
        Expr::Slash(_, _) => "path",
        Expr::Filter(_, _) => "filter",
        Expr::DocC(_) => "document",
        Expr::TextC(_) => "text",
        Expr::CommentC(_) => "comment",
        _ => "?",
    }
}

fn put_typed(rt: &(impl Abort + AllocGlobal), out: &mut String, e: &Expr) {
    match e {
        Expr::General(op, _, _) => {
            put(rt, out, "any-");
            put(rt, out, compare_word(*op));
        }
        Expr::InstanceOf(_, kind) => {
            put(rt, out, "instance-of-");
            put_type(rt, out, kind);
        }
        Expr::Treat(_, kind) => {
            put(rt, out, "treat-as-");
            put_type(rt, out, kind);
        }
        Expr::Castable(_, kind, empty) => put_single(rt, out, "castable-as-", *kind, *empty),
        Expr::Cast(_, kind, empty) => put_single(rt, out, "cast-as-", *kind, *empty),
        _ => put_leaf(rt, out, e),
    }
}

fn put_flwor(rt: &(impl Abort + AllocGlobal), out: &mut String, clauses: &[Clause]) {
    put(rt, out, "flwor");
    for clause in clauses {
        put_clause(rt, out, clause);
    }
}

// The form of the expression, with all its data but its parts.
pub(crate) fn put_label(rt: &(impl Abort + AllocGlobal), out: &mut String, e: &Expr) {
    match e {
        Expr::Flwor(parts) => put_flwor(rt, out, parts.clauses.get().as_slice()),
        Expr::ElemC(name, _) => put_source(rt, out, "element-", name),
        Expr::AttrC(name, _) => put_source(rt, out, "attribute-", name),
        Expr::PiC(name, _) => put_source(rt, out, "pi-", name),
        Expr::Direct(name, _, _) => {
            put(rt, out, "<");
            put_node_name(rt, out, name);
        }
        _ => put_typed(rt, out, e),
    }
}
