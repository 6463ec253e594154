// Tokens and pieces as text (XQuery 1.0, 3.1.1, 3.7.1 and A.2).
use expr_terms::{Key, Token};
use query_pages::token_writer::{push_piece, push_token};
use query_pieces::{Context, Quote};
use std::alloc::AllocGlobal;
use std::process::Abort;
use xt_names::{Text, TextBuilder};

fn text(rt: &(impl Abort + AllocGlobal), s: &str) -> Text {
    Text::make(rt.alloc(), s).expect(rt, "memory")
}

// whether the token is written so
fn is_written(rt: &(impl Abort + AllocGlobal), token: Token, expected: &str) -> bool {
    let mut out = TextBuilder::new(rt.alloc());
    push_token(rt.alloc(), &mut out, &token).expect(rt, "memory");
    let written = out.finish().expect(rt, "memory");
    let same = written.as_str() == expected;
    drop(written);
    drop(token);
    same
}

// .. the piece, in its context
fn is_piece(
    rt: &(impl Abort + AllocGlobal),
    context: Context,
    token: Token,
    expected: &str,
) -> bool {
    let mut out = TextBuilder::new(rt.alloc());
    push_piece(&mut out, context, &token).expect(rt, "memory");
    let written = out.finish().expect(rt, "memory");
    let same = written.as_str() == expected;
    drop(written);
    drop(token);
    same
}

#[test]
fn literals(rt: HostRuntime) {
    let cases = [
        ("", "\"\""),
        ("a", "\"a\""),
        ("it's", "\"it's\""),
        ("a\"b", "\"a\"\"b\""),
        ("\"\"", "\"\"\"\"\"\""),
        ("&<>{}", "\"&amp;<>{}\""),
        ("\r\n", "\"&#13;\n\""),
        (
            "\u{85}\u{2028}\u{10000}\u{10FFFF}",
            "\"\u{85}\u{2028}\u{10000}\u{10FFFF}\"",
        ),
    ];
    for (said, expected) in cases {
        assert!(rt; is_written(&rt, Token::Quoted(text(&rt, said)), expected));
    }
}

#[test]
fn names_and_numbers(rt: HostRuntime) {
    assert!(rt;
        is_written(
            &rt,
            Token::Key(Key::DescendantOrSelfWord),
            "descendant-or-self"
        )
    );
    assert!(rt; is_written(&rt, Token::Key(Key::NotEqual), "!="));
    assert!(rt; is_written(&rt, Token::Name(text(&rt, "a-b.c")), "a-b.c"));
    assert!(rt; is_written(&rt, Token::Qname(text(&rt, "p"), text(&rt, "div")), "p:div"));
    assert!(rt; is_written(&rt, Token::AnyLocal(text(&rt, "p")), "p:*"));
    assert!(rt; is_written(&rt, Token::AnyPrefix(text(&rt, "n")), "*:n"));
    assert!(rt; is_written(&rt, Token::Digits(0), "0"));
    assert!(rt;
        is_written(
            &rt,
            Token::Digits(9_223_372_036_854_775_807),
            "9223372036854775807"
        )
    );
    assert!(rt;
        is_written(
            &rt,
            Token::StartTagOpen(text(&rt, ""), text(&rt, "a")),
            "<a"
        )
    );
    assert!(rt;
        is_written(
            &rt,
            Token::StartTagOpen(text(&rt, "p"), text(&rt, "a")),
            "<p:a"
        )
    );
}

#[test]
fn pieces(rt: HostRuntime) {
    let content = Context::Content;
    let value = Context::Attribute(Quote::Double);
    assert!(rt;
        is_piece(
            &rt,
            Context::Tag,
            Token::Attribute(text(&rt, ""), text(&rt, "a")),
            " a=\""
        )
    );
    assert!(rt; is_piece(&rt, Context::Tag, Token::TagEnd, ">"));
    assert!(rt; is_piece(&rt, Context::Tag, Token::EmptyEnd, "/>"));
    assert!(rt; is_piece(&rt, value, Token::AttributeEnd, "\""));
    assert!(rt;
        is_piece(
            &rt,
            content,
            Token::ChildTagOpen(text(&rt, "p"), text(&rt, "b")),
            "<p:b"
        )
    );
    assert!(rt;
        is_piece(
            &rt,
            content,
            Token::EndTag(text(&rt, ""), text(&rt, "a")),
            "</a>"
        )
    );
    assert!(rt; is_piece(&rt, content, Token::EnclosedOpen, "{"));
    let cases = [
        (content, "a b", true, "a b"),
        (content, "{", true, "{{"),
        (content, "}", true, "}}"),
        (content, "\"", true, "\""),
        (value, "\"", true, "\"\""),
        (value, "'", true, "'"),
        (value, "}", true, "}}"),
        (content, "&", false, "&amp;"),
        (content, "<", false, "&lt;"),
        (content, ">", false, "&gt;"),
        (content, " ", false, "&#32;"),
        (content, "\r", false, "&#13;"),
        (value, "\"", false, "&quot;"),
        (value, "'", false, "&apos;"),
        (value, "\t", false, "&#9;"),
        (value, "\n", false, "&#10;"),
    ];
    for (context, said, literal, expected) in cases {
        assert!(rt;
            is_piece(
                &rt,
                context,
                Token::Chars(text(&rt, said), literal),
                expected
            )
        );
    }
}
