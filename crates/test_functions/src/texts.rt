// The functions on strings, by the examples of Functions and Operators, 7.
use crate::written::answer;

#[test]
fn strings_are_made(rt: HostRuntime) {
    let cases = [
        ("string", "", "s:"),
        ("string", "i:-7", "s:-7"),
        ("string", "n:a", "s:t"),
        ("string", "n:k", "s:1"),
        ("string", "q:p{urn:p}a", "s:p:a"),
        ("string", "i:1,i:2", "XPTY0004"),
        ("concat", "s:un;s:grateful", "s:ungrateful"),
        ("concat", "s:a;i:1;true;", "s:a1true"),
        ("concat", "s:a;i:1,i:2", "XPTY0004"),
        ("concat", "n:k;n:text", "s:1t"),
        (
            "string-join",
            "s:Now,s:is,s:the,s:time;s:-",
            "s:Now-is-the-time",
        ),
        ("string-join", "s:a,s:b;s:", "s:ab"),
        ("string-join", ";s:x", "s:"),
        ("string-join", "n:k,u:b;s:-", "s:1-b"),
        ("string-join", "s:a;", "XPTY0004"),
        ("string-join", "i:1;s:-", "XPTY0004"),
    ];
    for (word, words, wanted) in cases {
        let found = answer(&rt, word, words);
        assert_eq!(rt; found.as_str(), wanted, "{word}({words})");
        drop(found);
    }
}

#[test]
fn parts_are_taken(rt: HostRuntime) {
    let cases = [
        ("substring", "s:motor car;i:6", "s: car"),
        ("substring", "s:metadata;i:4;i:3", "s:ada"),
        ("substring", "s:12345;i:0;i:3", "s:12"),
        ("substring", "s:12345;i:5;i:-3", "s:"),
        ("substring", "s:12345;i:-3;i:5", "s:1"),
        ("substring", ";i:1;i:3", "s:"),
        ("substring", "s:12345;i:-42", "s:12345"),
        ("substring", "s:12345;i:2;i:9223372036854775807", "s:2345"),
        (
            "substring",
            "s:12345;i:-9223372036854775808;i:9223372036854775807",
            "s:",
        ),
        ("substring", "s:12345;i:6", "s:"),
        ("substring", "i:1;u:x", "XPTY0004"),
        ("substring", "s:a;u:x;s:y", "FORG0001"),
        ("substring", "s:a;", "XPTY0004"),
        ("substring-before", "s:tattoo;s:attoo", "s:t"),
        ("substring-before", "s:tattoo;s:tatto", "s:"),
        ("substring-before", "s:tattoo;s:x", "s:"),
        ("substring-before", "s:tattoo;", "s:"),
        ("substring-before", "i:1;s:a", "XPTY0004"),
        ("substring-after", "s:tattoo;s:tat", "s:too"),
        ("substring-after", "s:tattoo;s:tattoo", "s:"),
        ("substring-after", "s:tattoo;s:x", "s:"),
        ("substring-after", "s:tattoo;", "s:tattoo"),
        ("substring-after", "s:a;s:b,s:c", "XPTY0004"),
    ];
    for (word, words, wanted) in cases {
        let found = answer(&rt, word, words);
        assert_eq!(rt; found.as_str(), wanted, "{word}({words})");
        drop(found);
    }
}

#[test]
fn strings_are_searched(rt: HostRuntime) {
    let cases = [
        ("contains", "s:tattoo;s:t", "true"),
        ("contains", "s:tattoo;s:ttt", "false"),
        ("contains", ";", "true"),
        ("contains", "s:tattoo;s:", "true"),
        ("contains", "s:a;i:1", "XPTY0004"),
        ("starts-with", "s:tattoo;s:tat", "true"),
        ("starts-with", "s:tattoo;s:att", "false"),
        ("starts-with", ";s:t", "false"),
        ("starts-with", "s:a,s:b;s:a", "XPTY0004"),
        ("ends-with", "s:tattoo;s:tattoo", "true"),
        ("ends-with", "s:tattoo;s:atto", "false"),
        ("ends-with", "s:tattoo;", "true"),
        ("ends-with", "s:a;true", "XPTY0004"),
    ];
    for (word, words, wanted) in cases {
        let found = answer(&rt, word, words);
        assert_eq!(rt; found.as_str(), wanted, "{word}({words})");
        drop(found);
    }
}

#[test]
fn strings_are_changed(rt: HostRuntime) {
    let cases = [
        ("normalize-space", "s:  a \t b\n", "s:a b"),
        ("normalize-space", "", "s:"),
        ("normalize-space", "s: \r\n ", "s:"),
        ("normalize-space", "i:1", "XPTY0004"),
        ("translate", "s:bar;s:abc;s:AB", "s:BAr"),
        ("translate", "s:--aaa--;s:abc-;s:ABC", "s:AAA"),
        ("translate", "s:abcdabc;s:abc;s:AB", "s:ABdAB"),
        ("translate", "s:aba;s:aa;s:xy", "s:xbx"),
        ("translate", "s:bar;s:;s:x", "s:bar"),
        ("translate", ";s:a;s:b", "s:"),
        ("translate", "s:bar;;s:x", "XPTY0004"),
        ("translate", "s:bar;s:a;", "XPTY0004"),
        ("translate", "i:1;i:1,i:2;", "XPTY0004"),
    ];
    for (word, words, wanted) in cases {
        let found = answer(&rt, word, words);
        assert_eq!(rt; found.as_str(), wanted, "{word}({words})");
        drop(found);
    }
}

#[test]
fn characters_are_counted_and_compared(rt: HostRuntime) {
    let cases = [
        ("string-length", "s:Harp not on", "i:11"),
        ("string-length", "", "i:0"),
        ("string-length", "s:\u{65E5}\u{1F600}", "i:2"),
        ("string-length", "i:1", "XPTY0004"),
        ("compare", "s:abc;s:abc", "i:0"),
        ("compare", "s:a;s:b", "i:-1"),
        ("compare", "s:b;s:a", "i:1"),
        ("compare", "s:a;s:ab", "i:-1"),
        ("compare", "s:a;", ""),
        ("compare", ";s:a", ""),
        ("compare", "s:\u{FFFD};s:\u{10000}", "i:-1"),
        ("compare", "s:a;i:1", "XPTY0004"),
        ("codepoint-equal", "s:abc;u:abc", "true"),
        ("codepoint-equal", "s:abc;s:abd", "false"),
        ("codepoint-equal", "s:a;", ""),
        ("codepoint-equal", "i:1;s:a", "XPTY0004"),
        (
            "codepoints-to-string",
            "i:2309,i:2358,i:2378,i:2325",
            "s:\u{905}\u{936}\u{94A}\u{915}",
        ),
        ("codepoints-to-string", "", "s:"),
        ("codepoints-to-string", "i:0", "FOCH0001"),
        ("codepoints-to-string", "i:-1", "FOCH0001"),
        ("codepoints-to-string", "i:97,i:55296", "FOCH0001"),
        ("codepoints-to-string", "i:1114112", "FOCH0001"),
        ("codepoints-to-string", "i:0,s:a", "XPTY0004"),
        ("codepoints-to-string", "i:0,u:a", "FORG0001"),
        (
            "string-to-codepoints",
            "s:Th\u{E9}r\u{E8}se",
            "i:84,i:104,i:233,i:114,i:232,i:115,i:101",
        ),
        ("string-to-codepoints", "", ""),
        ("string-to-codepoints", "s:a,s:b", "XPTY0004"),
    ];
    for (word, words, wanted) in cases {
        let found = answer(&rt, word, words);
        assert_eq!(rt; found.as_str(), wanted, "{word}({words})");
        drop(found);
    }
}
