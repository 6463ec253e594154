// A raw value as a text: a node is its name and its parts in parentheses.
use crate::words::tokens_of;
use expr_reader::{Reading, parse, parse_type};
use expr_terms::{Language, Level, Production, Raw, Token, key_text};
use expr_tokens::terms;
use std::alloc::AllocGlobal;
use std::process::Abort;
use xpath_lex::tokens;

fn put(rt: &(impl Abort + AllocGlobal), out: &mut String, text: &str) {
    out.push_str(text).expect(rt, "memory");
}

fn put_name(rt: &(impl Abort + AllocGlobal), out: &mut String, prefix: &str, local: &str) {
    if prefix != "" {
        put(rt, out, prefix);
        put(rt, out, ":");
    }
    put(rt, out, local);
}

fn put_token(rt: &(impl Abort + AllocGlobal), out: &mut String, token: &Token) {
    match token {
        Token::Key(key) => put(rt, out, key_text(*key)),
        Token::Name(local) => put(rt, out, local.as_str()),
        Token::Qname(prefix, local) => put_name(rt, out, prefix.as_str(), local.as_str()),
        Token::AnyLocal(prefix) => put_name(rt, out, prefix.as_str(), "*"),
        Token::AnyPrefix(local) => put_name(rt, out, "*", local.as_str()),
        Token::Digits(number) => {
            let text = format!(in rt.alloc(); "{number}").expect(rt, "memory");
            put(rt, out, text.as_str());
        }
        Token::Quoted(text) => {
            put(rt, out, "'");
            put(rt, out, text.as_str());
            put(rt, out, "'");
        }
        Token::StartTagOpen(prefix, local)
        | Token::ChildTagOpen(prefix, local)
        | Token::Attribute(prefix, local)
        | Token::EndTag(prefix, local) => put_name(rt, out, prefix.as_str(), local.as_str()),
        Token::Chars(_, _) => put(rt, out, "t"),
        Token::AttributeEnd | Token::TagEnd | Token::EmptyEnd | Token::EnclosedOpen => put(
            rt, out, "?",
        ),
    }
}

fn level_name(level: Level) -> &'static str {
    match level {
        Level::Or => "Or",
        Level::And => "And",
        Level::Comparison => "Comparison",
        Level::Range => "Range",
        Level::Additive => "Additive",
        Level::Multiplicative => "Multiplicative",
        Level::Union => "Union",
        Level::Intersect => "Intersect",
        Level::InstanceOf => "InstanceOf",
        Level::Treat => "Treat",
        Level::Castable => "Castable",
        Level::Cast => "Cast",
    }
}

// Nodes that are never met have no name.
fn name_of(production: Production) -> &'static str {
    match production {
        Production::OperatorChain(level) => level_name(level),
        Production::OperatorTail(_) => "Op",
        Production::ExprList => "ExprList",
        Production::ArgumentList => "ArgumentList",
        Production::IfExpr => "IfExpr",
        Production::ElseExpr => "ElseExpr",
        Production::FlworExpr => "FlworExpr",
        Production::QuantifiedExpr => "QuantifiedExpr",
        Production::ForClause => "ForClause",
        Production::LetClause => "LetClause",
        Production::ForIn => "ForIn",
        Production::LetAssign => "LetAssign",
        Production::QuantifiedIn => "QuantifiedIn",
        Production::AsType => "AsType",
        Production::AtVariable => "AtVariable",
        Production::WhereTest => "WhereTest",
        Production::OrderBy => "OrderBy",
        Production::StableOrderBy => "StableOrderBy",
        Production::OrderKey => "OrderKey",
        Production::EmptyLeast => "EmptyLeast",
        Production::Signed => "Signed",
        Production::Rooted => "Rooted",
        Production::RootedDeep => "RootedDeep",
        Production::RootSteps => "RootSteps",
        Production::Steps => "Steps",
        Production::StepAfter => "StepAfter",
        Production::DeepAfter => "DeepAfter",
        Production::AxisStep => "AxisStep",
        Production::AttributeStep => "AttributeStep",
        Production::TestStep => "TestStep",
        Production::ParentStep => "ParentStep",
        Production::FilterStep => "FilterStep",
        Production::PlainKind => "PlainKind",
        Production::PiKind => "PiKind",
        Production::NamedKind => "NamedKind",
        Production::Number => "Number",
        Production::Literal => "Literal",
        Production::Variable => "Variable",
        Production::Parens => "Parens",
        Production::Context => "Context",
        Production::Call => "Call",
        Production::Computed => "Computed",
        Production::Constructed => "Constructed",
        Production::PiConstructed => "PiConstructed",
        Production::Enclosing => "Enclosing",
        Production::EmptyType => "EmptyType",
        Production::ItemsType => "ItemsType",
        Production::AnyItem => "AnyItem",
        Production::SingleAtomicType => "SingleAtomicType",
        Production::QuestionMark => "QuestionMark",
        Production::DirectElement => "DirectElement",
        Production::ElementContent => "ElementContent",
        Production::EmptyElement => "EmptyElement",
        Production::AttributeValue => "AttributeValue",
        Production::PartEnclosed => "PartEnclosed",
        Production::ChildElement => "ChildElement",
        Production::ItemEnclosed => "ItemEnclosed",
        _ => "?",
    }
}

fn show(rt: &(impl Abort + AllocGlobal), out: &mut String, raw: &Raw, depth: u8) {
    if depth == 0 {
        return;
    }
    match raw {
        Raw::Leaf(token) => put_token(rt, out, token),
        Raw::Node(production, parts) => {
            put(rt, out, name_of(*production));
            put(rt, out, "(");
            for (place, part) in parts.as_slice().iter().enumerate() {
                if place > 0 {
                    put(rt, out, " ");
                }
                show(rt, out, part, depth - 1);
            }
            put(rt, out, ")");
        }
    }
}

fn shown(rt: &(impl Abort + AllocGlobal), reading: Reading) -> String {
    let mut out = String::new(rt.alloc());
    match reading {
        Reading::Nothing => put(rt, &mut out, "none"),
        Reading::TooDeep => put(rt, &mut out, "deep"),
        Reading::Value(raw) => {
            show(rt, &mut out, &raw, 100);
            drop(raw);
        }
    }
    out
}

// What the words are read as within the limit of nesting, or `none`, or `deep`.
pub(crate) fn read_within(
    rt: &(impl Abort + AllocGlobal),
    language: Language,
    words: &str,
    limit: u16,
) -> String {
    let tokens = tokens_of(rt, words);
    let reading = parse(rt.alloc(), language, tokens.as_slice(), limit).expect(rt, "memory");
    drop(tokens);
    shown(rt, reading)
}

// What a text of XPath is read as, from its characters on.
pub(crate) fn read_text(rt: &(impl Abort + AllocGlobal), text: &str) -> String {
    let alloc = rt.alloc();
    let found = match tokens(alloc, text) {
        Ok(lexed) => {
            let found = terms(alloc, lexed.as_slice()).expect(rt, "memory");
            drop(lexed);
            found
        }
        Err(_) => None,
    };
    match found {
        None => shown(rt, Reading::Nothing),
        Some(tokens) => {
            let reading = parse(alloc, Language::Xpath, tokens.as_slice(), 400).expect(
                rt, "memory",
            );
            drop(tokens);
            shown(rt, reading)
        }
    }
}

pub(crate) fn read(rt: &(impl Abort + AllocGlobal), language: Language, words: &str) -> String {
    read_within(rt, language, words, 400)
}

pub(crate) fn read_type(rt: &(impl Abort + AllocGlobal), words: &str) -> String {
    let tokens = tokens_of(rt, words);
    let reading = parse_type(rt.alloc(), Language::Xquery, tokens.as_slice(), 400).expect(
        rt, "memory",
    );
    drop(tokens);
    shown(rt, reading)
}
