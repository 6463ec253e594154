// Which rule an expression of a stylesheet breaks: its code, or nothing.
use crate::made::body_gets;

// Variables and their scopes (XSLT 2.0, 9.7).
#[test]
fn scopes_of_variables(rt: HostRuntime) {
    let cases = [
        ("<xsl:value-of select='$g'/>", ""),
        ("<xsl:value-of select='$x'/>", "XPST0008"),
        ("<xsl:value-of select='$p:g'/>", "XPST0008"),
        ("<xsl:value-of select='$q:g'/>", "XPST0081"),
        (
            "<xsl:variable name='x' select='1'/><xsl:value-of select='$x'/>",
            "",
        ),
        (
            "<xsl:value-of select='$x'/><xsl:variable name='x' select='1'/>",
            "XPST0008",
        ),
        ("<xsl:variable name='x' select='$x'/>", "XPST0008"),
        ("<xsl:variable name='g' select='$g'/>", ""),
        (
            "<xsl:if test='1'><xsl:variable name='x'/></xsl:if><xsl:value-of select='$x'/>",
            "XPST0008",
        ),
        (
            "<xsl:variable name='x'/><a b='{$x}'><xsl:if test='$x'/></a>",
            "",
        ),
        ("<a b='{$x}'/>", "XPST0008"),
        ("<xsl:value-of select='for $x in 1 return $x'/>", ""),
        (
            "<xsl:value-of select='(for $x in 1 return $x), $x'/>",
            "XPST0008",
        ),
        ("<xsl:value-of select='some $x in 1 satisfies $x'/>", ""),
        ("<xsl:variable name='x'/><xsl:variable name='x'/>", ""),
    ];
    for (of, code) in cases {
        assert!(rt; body_gets(&rt, of, code), "{of}");
    }
}

// Calls of functions (XPath 2.0, 3.1.5; XSLT 2.0, 10.3 and 16).
#[test]
fn calls_of_functions(rt: HostRuntime) {
    let cases = [
        ("<xsl:value-of select='p:f(1)'/>", ""),
        ("<xsl:value-of select='p:f()'/>", "XPST0017"),
        ("<xsl:value-of select='p:f(1, 2)'/>", "XPST0017"),
        ("<xsl:value-of select='f(1)'/>", "XPST0017"),
        ("<xsl:value-of select='q:f(1)'/>", "XPST0081"),
        ("<xsl:value-of select='count(a)'/>", ""),
        ("<xsl:value-of select='count()'/>", "XPST0017"),
        ("<xsl:value-of select='concat(1)'/>", "XPST0017"),
        ("<xsl:value-of select='current()'/>", ""),
        ("<xsl:value-of select='current(1)'/>", "XPST0017"),
        ("<xsl:value-of select='document(1)'/>", ""),
        ("<xsl:value-of select='doc(1)'/>", ""),
        ("<xsl:value-of select='key(&quot;k&quot;, 1)'/>", ""),
        ("<xsl:value-of select='key(&quot;j&quot;, 1)'/>", "XTDE1260"),
        (
            "<xsl:value-of select='key(&quot;p:k&quot;, 1)'/>",
            "XTDE1260",
        ),
        (
            "<xsl:value-of select='key(&quot;q:k&quot;, 1)'/>",
            "XTDE1260",
        ),
        ("<xsl:value-of select='key(&quot;1&quot;, 1)'/>", "XTDE1260"),
        ("<xsl:value-of select='key($g, 1)'/>", "XTUN0001"),
        (
            "<xsl:value-of select='key(&quot;k&quot;, 1, /)'/>",
            "XTUN0001",
        ),
        ("<xsl:value-of select='error()'/>", ""),
        ("<xsl:value-of select='error(&quot;a&quot;)'/>", "XTUN0001"),
        (
            "<xsl:value-of select='matches(&quot;a&quot;, &quot;b&quot;)'/>",
            "XTUN0001",
        ),
        ("<xsl:value-of select='generate-id(.)'/>", "XTUN0001"),
        (
            "<xsl:value-of select='system-property(&quot;a&quot;)'/>",
            "XTUN0001",
        ),
        (
            "<xsl:value-of select='format-number(1, &quot;0&quot;)'/>",
            "XTUN0001",
        ),
    ];
    for (of, code) in cases {
        assert!(rt; body_gets(&rt, of, code), "{of}");
    }
}

// Forms of expressions (XPath 2.0, 2 and 3).
#[test]
fn forms_of_expressions(rt: HostRuntime) {
    let cases = [
        ("<xsl:value-of select='1 +'/>", "XPST0003"),
        ("<xsl:value-of select=')'/>", "XPST0003"),
        ("<xsl:value-of select='1 div 2'/>", "XPST0003"),
        ("<xsl:value-of select='1.5'/>", "XPST0003"),
        ("<xsl:value-of select='let $x := 1 return $x'/>", "XPST0003"),
        ("<xsl:value-of select='a[1]/@b | //c'/>", ""),
        ("<xsl:value-of select='namespace::a'/>", "XPST0010"),
        ("<xsl:value-of select='q:a'/>", "XPST0081"),
        ("<xsl:value-of select='q:*'/>", "XPST0081"),
        ("<xsl:value-of select='*:a'/>", ""),
        ("<xsl:value-of select='1 instance of xs:integer'/>", ""),
        ("<xsl:value-of select='1 instance of xs:date'/>", "XPST0051"),
        ("<xsl:value-of select='1 cast as xs:string'/>", ""),
        ("<xsl:value-of select='1 cast as xs:QName'/>", "XPST0051"),
        (
            "<xsl:value-of select='1 cast as xs:anyAtomicType'/>",
            "XPST0080",
        ),
        ("<xsl:value-of select='xs:integer(1)'/>", ""),
        ("<xsl:value-of select='(: a (: b :) :) 1'/>", ""),
    ];
    for (of, code) in cases {
        assert!(rt; body_gets(&rt, of, code), "{of}");
    }
}
