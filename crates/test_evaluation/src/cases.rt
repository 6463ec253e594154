// Small queries.
use crate::told::{told, told_in};

const PLACES: &str = "<a><b k='1'/><c>x<b k='2'>y</b></c></a>";

#[test]
fn values(rt: HostRuntime) {
    let cases = [
        ("1", "1"),
        ("'a', 'b'", "a b"),
        ("()", ""),
        ("(1, (), (2, 3))", "1 2 3"),
        ("1 + 2 * 3", "7"),
        ("-7 idiv 2, -7 mod 2", "-3 -1"),
        ("- - 1", "1"),
        ("1 + ()", ""),
        ("1 idiv 0", "FOAR0001"),
        ("9223372036854775807 + 1", "FOAR0002"),
        ("'a' + 1", "XPTY0004"),
        ("(1, 2) + 1", "XPTY0004"),
        ("2 to 4", "2 3 4"),
        ("4 to 2", ""),
        ("1 = (2, 1)", "true"),
        ("1 != (1, 1)", "false"),
        ("'a' lt 'b'", "true"),
        ("() eq 1", ""),
        ("xs:untypedAtomic('01') = 1", "true"),
        ("xs:untypedAtomic('01') eq 1", "XPTY0004"),
        ("1 instance of xs:integer", "true"),
        ("(1, 2) instance of xs:integer", "false"),
        ("(1, 2) treat as xs:integer+", "1 2"),
        ("(1, 2) treat as xs:integer", "XPDY0050"),
        ("'1' cast as xs:integer", "1"),
        ("'a' cast as xs:integer", "FORG0001"),
        ("'a' castable as xs:integer", "false"),
        ("() castable as xs:integer?", "true"),
        ("1 or error()", "true"),
        ("0 or error()", "FOER0000"),
        ("0 and error()", "false"),
        ("1 and 2", "true"),
        ("if (1) then 2 else error()", "2"),
        ("if (()) then error() else 3", "3"),
        ("if ((1, 2)) then 2 else 3", "FORG0006"),
    ];
    for (text, wanted) in cases {
        let found = told(&rt, text, "<a/>", 0);
        assert_eq!(rt; found.as_str(), wanted);
        drop(found);
    }
}

#[test]
fn variables(rt: HostRuntime) {
    let cases = [
        ("let $a := 5 return $a -1", "4"),
        ("let $a := 1, $a := $a + 1 return $a", "2"),
        ("let $a as xs:integer := 'x' return 1", "XPTY0004"),
        ("for $x in (1, 2), $y in ($x, 9) return $x * $y", "1 9 4 18"),
        ("for $x at $p in ('c', 'a') return ($p, $x)", "1 c 2 a"),
        ("for $x in 1 to 5 where $x mod 2 = 1 return $x", "1 3 5"),
        ("for $x at $p in (3, 1, 2) order by $x return $p", "2 3 1"),
        (
            "for $x in (3, 1, 2) order by $x descending return $x",
            "3 2 1",
        ),
        ("for $x in ('b', ()) order by $x return $x", "b"),
        (
            "for $x in (1, 2) order by (if ($x = 1) then () else 1) return $x",
            "1 2",
        ),
        ("for $x in (1, 'a') order by $x return $x", "XPTY0004"),
        ("for $x in (1, 2) order by (1, 2) return $x", "XPTY0004"),
        (
            "for $x in (2, 1) for $y in (2, 1) order by $y, $x return $x * 10 + $y",
            "11 21 12 22",
        ),
        (
            "let $x := 1 let $y := $x + 1 where $y = 2 return ($x, $y)",
            "1 2",
        ),
        ("for $x in () return error()", ""),
        ("some $x in (1, 2) satisfies $x = 2", "true"),
        ("every $x in (1, 2) satisfies $x = 2", "false"),
        ("some $x in (1, 'a') satisfies $x = 1", "true"),
        ("some $x in ('a', 1) satisfies $x = 1", "XPTY0004"),
        ("every $x in () satisfies error()", "true"),
        (
            "some $x in 1 to 9223372036854775807 satisfies $x eq 5",
            "true",
        ),
        (
            "every $x in 1 to 9223372036854775807 satisfies $x lt 5",
            "false",
        ),
        (
            "some $x in 1 to 9223372036854775807, $y in $x to 9223372036854775807
            satisfies $x * $y = 12",
            "true",
        ),
        (
            "some $x in 1 to 9223372036854775807 satisfies $x * 9223372036854775807 gt 0",
            "true",
        ),
        (
            "every $x in 1 to 9223372036854775807 satisfies $x * 9223372036854775807 lt 0",
            "false",
        ),
        (
            "some $x in 1 to 9223372036854775807 satisfies $x * 9223372036854775807 lt 0",
            "FOAR0002",
        ),
        ("some $x as xs:integer in (1, 'a') satisfies $x = 1", "true"),
        (
            "some $x as xs:integer in (1, 'a') satisfies $x = 2",
            "XPTY0004",
        ),
        ("exists(1 to 9223372036854775807)", "true"),
        ("empty(1 to 9223372036854775807)", "false"),
        ("count(1 to 9223372036854775807)", "9223372036854775807"),
        ("count(0 to 9223372036854775807)", "FOAR0002"),
        ("(1 to 9223372036854775807)[3]", "3"),
        (
            "(1 to 9223372036854775807)[9223372036854775807]",
            "9223372036854775807",
        ),
        (
            "some $x in (1, 2), $y in (3, $x) satisfies $x * $y = 4",
            "true",
        ),
        (
            "for $x in (1, 2) let $s := for $y in (3, 4) return $x * $y return sum($s)",
            "7 14",
        ),
    ];
    for (text, wanted) in cases {
        let found = told(&rt, text, "<a/>", 0);
        assert_eq!(rt; found.as_str(), wanted);
        drop(found);
    }
}

// All tuples come before the first body, also where no one can tell.
#[test]
fn tuples_and_bodies(rt: HostRuntime) {
    let cases = [
        (
            "for $x in (1, 0) let $y := 1 idiv $x return $x + 'a'",
            "FOAR0001",
        ),
        (
            "for $x in (1, 0) return if ($x = 1) then $x + 'a' else 1 idiv $x",
            "XPTY0004",
        ),
        (
            "for $x as xs:integer in (1, 'a') return error()",
            "XPTY0004",
        ),
        ("for $x in (1, 'a') return error()", "FOER0000"),
        (
            "for $x in 1 to 2, $y in 1 to 3 return $x * $y",
            "1 2 3 2 4 6",
        ),
        ("for $x in 1 to 2, $x in 3 to 4 return $x", "3 4 3 4"),
        (
            "for $x in ('c', 'a'), $y in 1 to 2 return concat($x, $y)",
            "c1 c2 a1 a2",
        ),
        ("for $x in (1, 2) let $y := 5 return $x + $y", "6 7"),
        (
            "for $x at $p in ('c', 'a') let $y := 7 return $p + $y",
            "8 9",
        ),
        ("let $n := 3 for $x in 1 to $n return $x", "1 2 3"),
        ("let $n := 1 idiv 0 for $x in () return $x", "FOAR0001"),
        ("let $a := 1 for $x in () return error()", ""),
    ];
    for (text, wanted) in cases {
        let found = told(&rt, text, "<a/>", 0);
        assert_eq!(rt; found.as_str(), wanted);
        drop(found);
    }
}

#[test]
fn paths(rt: HostRuntime) {
    let cases = [
        ("count(//b)", "2"),
        ("string(/a/c)", "xy"),
        ("/a/b/7", "7"),
        ("//b/string(@k)", "1 2"),
        ("(//b)[2]/string(@k)", "2"),
        ("(//b)[3]", ""),
        ("//b[1]/string(@k)", "1 2"),
        ("//b[@k = '2']/string(.)", "y"),
        ("//b[@k][position() = last()]/string(@k)", "1 2"),
        ("(1 to 9)[. mod 3 = 0][2]", "6"),
        ("(1, 2)['a']", "1 2"),
        ("(1, 2)[(1, 2)]", "FORG0006"),
        ("/a/(c | b)/name(.)", "b c"),
        ("count((//b, //b)/.)", "2"),
        ("count(//b | //b)", "2"),
        ("count(//b intersect /a/b)", "1"),
        ("count(//b except /a/b)", "1"),
        ("(//b)[1] << (//b)[2]", "true"),
        ("(//b)[1] is /a/b", "true"),
        ("/a/c/text()/..", "<c>x<b k=\"2\">y</b></c>"),
        ("(//b)[2]/ancestor::*/name(.)", "a c"),
        ("(//b)[2]/preceding::b/string(@k)", "1"),
        ("/a/(1, .)", "XPTY0018"),
        ("1/a", "XPTY0019"),
        ("/a/c/b/@k", "not written"),
        ("(1)[/]", "XPTY0020"),
        ("empty(//b[@k])", "false"),
        ("empty(//b[@k = '3'])", "true"),
        ("exists(.//b[@k = '2'])", "true"),
        ("every $b in //b satisfies exists($b/@k)", "true"),
        ("some $b in //b satisfies $b = 'y'", "true"),
        ("some $b in (//b, 1) satisfies $b/@k = '2'", "true"),
        ("some $b in (//b, 1) satisfies $b/@k = '3'", "XPTY0019"),
        ("exists(b)", "false"),
        ("exists(//@k)", "true"),
        ("count(//b[@k = '2'])", "1"),
        ("count(//b[1])", "2"),
        ("count(/descendant::b[1])", "1"),
        ("(//b[1])[2]/string(@k)", "2"),
        ("(//b[@k])[2]/string(@k)", "2"),
        ("(//b[@k])[0]", ""),
        ("(//b[last()])[1]/string(@k)", "1"),
        ("(//b/ancestor::*)[2]/name(.)", "c"),
        ("(//c/node()[not(@k)])[1]", "x"),
        ("exists(1[//b[@k]])", "XPTY0020"),
        ("//b[@k = '2']/@k/string(.)", "2"),
        ("/descendant::b[2]/string(@k)", "2"),
        ("(//c)[1]/.//b[@k]/string(@k)", "2"),
        ("count(//*[@k]/..)", "2"),
        ("<r><b/></r>/(//b)", "XPDY0050"),
        ("<r><b/><b/></r>/count(.//b)", "2"),
        ("(<r><b/></r>/.//b[1])/..[b]/name(.)", "r"),
        ("/a/b[error()]", "FOER0000"),
        ("/a/z[error()]", ""),
    ];
    for (text, wanted) in cases {
        let found = told(&rt, text, PLACES, 0);
        assert_eq!(rt; found.as_str(), wanted);
        drop(found);
    }
}

#[test]
fn constructors(rt: HostRuntime) {
    let cases = [
        ("<a>{1}{2}</a>", "<a>12</a>"),
        ("<a>{1, 2}</a>", "<a>1 2</a>"),
        ("<a k=\"x{1, 2}y\"/>", "<a k=\"x1 2y\"/>"),
        (
            "<a k='{{}}&lt;'>{'b', <b/>, 'c'}</a>",
            "<a k=\"{}&lt;\">b<b/>c</a>",
        ),
        ("element r { attribute k { 1 }, 'x' }", "<r k=\"1\">x</r>"),
        ("element { concat('a', 'b') } { () }", "<ab/>"),
        ("element { 'a b' } { () }", "XQDY0074"),
        (
            "element r { attribute k { 1 }, attribute k { 2 } }",
            "XQDY0025",
        ),
        ("element r { 't', attribute k { 1 } }", "XQTY0024"),
        ("attribute xmlns { 1 }", "XQDY0044"),
        ("document { <a/>, 'x' }", "<a/>x"),
        ("document { attribute k { 1 } }", "XPTY0004"),
        ("text { 1, 2 }", "1 2"),
        ("count(text { () })", "0"),
        ("comment { 'a' }", "<!--a-->"),
        ("comment { 'a--b' }", "XQDY0072"),
        ("processing-instruction p { ' x' }", "<?p x?>"),
        ("processing-instruction p { '?>' }", "XQDY0026"),
        ("processing-instruction XML { 'a' }", "XQDY0064"),
        ("<a/> is <a/>", "false"),
        ("let $a := <a/> return $a is $a", "true"),
        ("let $a := <a/>, $b := <b/> return $a << $b", "XTOR0001"),
        ("let $a := <a/>, $b := <b/> return name(($b | $a)[1])", "a"),
        ("<a> <b/> </a>", "<a><b/></a>"),
        ("(<a><b/></a>/b, 'x')[1]/..", "<a><b/></a>"),
    ];
    for (text, wanted) in cases {
        let found = told(&rt, text, "<a/>", 0);
        assert_eq!(rt; found.as_str(), wanted);
        drop(found);
    }
}

const COUNT: &str = "declare function local:f($n as xs:integer) as xs:integer
    { if ($n = 0) then 0 else 1 + local:f($n - 1) }; local:f(4)";

#[test]
fn calls(rt: HostRuntime) {
    let cases = [
        (COUNT, 5, "4"),
        (COUNT, 4, "deep"),
        (
            "declare function local:f() { local:f() }; local:f()",
            300,
            "deep",
        ),
        (
            "declare function local:f($x, $y) { $y }; local:f(1, 2)",
            1,
            "2",
        ),
        (
            "declare function local:f($x as xs:integer) { $x }; local:f('a')",
            1,
            "XPTY0004",
        ),
        (
            "declare function local:f($x as xs:integer) { $x }; local:f('a')",
            0,
            "XPTY0004",
        ),
        (
            "declare function local:f() as xs:integer { 'a' }; local:f()",
            1,
            "XPTY0004",
        ),
        (
            "declare function local:f($x as xs:integer) { $x }; local:f(<a>7</a>)",
            1,
            "7",
        ),
        ("declare function local:f() { . }; local:f()", 1, "XPDY0002"),
        (
            "declare variable $v := 2; declare function local:f() { $v }; local:f()",
            1,
            "2",
        ),
        (
            "declare variable $v := 2; declare variable $w := $v * 3; $w",
            0,
            "6",
        ),
        ("declare variable $v := error(); 1", 0, "FOER0000"),
        ("declare variable $v as xs:integer := 'a'; 1", 0, "XPTY0004"),
        (
            "declare function local:f($x) { 1 }; local:f(error())",
            1,
            "FOER0000",
        ),
        ("string(.)", 0, "t"),
        ("position(), last()", 0, "1 1"),
    ];
    for (text, depth, wanted) in cases {
        let found = told(&rt, text, "<a>t</a>", depth);
        assert_eq!(rt; found.as_str(), wanted);
        drop(found);
    }
}

#[test]
fn from_outside(rt: HostRuntime) {
    let cases = [
        (
            "declare variable $n as xs:integer external; $n + 1",
            "41",
            "42",
        ),
        (
            "declare variable $n as xs:integer external; $n + 1",
            "x",
            "FORG0001",
        ),
        ("declare variable $m external; $m", "41", "XPDY0002"),
        (
            "declare variable $n external; $n instance of xs:untypedAtomic",
            "41",
            "true",
        ),
        ("doc('e.xml')/e/@k + 1", "", "42"),
        ("doc('x.xml')", "", "FODC0002"),
        ("doc('e.xml') is doc('e.xml')", "", "true"),
        ("doc(())", "", ""),
    ];
    for (text, value, wanted) in cases {
        let found = told_in(&rt, text, value, "<e k='41'/>");
        assert_eq!(rt; found.as_str(), wanted);
        drop(found);
    }
}
