// Which rule the declarations of a stylesheet break: its code, or nothing.
use crate::made::{is_said, sheet_gets};

// The root of a module (XSLT 2.0, 3.6).
#[test]
fn roots(rt: HostRuntime) {
    let cases = [
        (
            "<xsl:transform version='2.0' xmlns:xsl='http://www.w3.org/1999/XSL/Transform'/>",
            "",
        ),
        (
            "<xsl:stylesheet version='2.0' id='a' xmlns:xsl='http://www.w3.org/1999/XSL/Transform'/>",
            "",
        ),
        (
            "<xsl:stylesheet version='2.0' exclude-result-prefixes='q' xmlns:xsl='http://www.w3.org/1999/XSL/Transform'/>",
            "",
        ),
        (
            "<xsl:stylesheet xmlns:xsl='http://www.w3.org/1999/XSL/Transform'/>",
            "XTSE0010",
        ),
        (
            "<xsl:stylesheet version='1.0' xmlns:xsl='http://www.w3.org/1999/XSL/Transform'/>",
            "XTUN0001",
        ),
        (
            "<xsl:stylesheet version='2.0' xmlns:xsl='urn:other'/>",
            "XTUN0001",
        ),
        (
            "<xsl:template name='a' xmlns:xsl='http://www.w3.org/1999/XSL/Transform'/>",
            "XTUN0001",
        ),
        (
            "<a xsl:version='2.0' xmlns:xsl='http://www.w3.org/1999/XSL/Transform'/>",
            "XTUN0001",
        ),
        (
            "<xsl:stylesheet version='2.0' default-validation='strip' xmlns:xsl='http://www.w3.org/1999/XSL/Transform'/>",
            "XTUN0001",
        ),
        (
            "<xsl:stylesheet version='2.0' input-type-annotations='strip' xmlns:xsl='http://www.w3.org/1999/XSL/Transform'/>",
            "XTUN0001",
        ),
        (
            "<xsl:stylesheet version='2.0' xpath-default-namespace='u' xmlns:xsl='http://www.w3.org/1999/XSL/Transform'/>",
            "XTUN0001",
        ),
        (
            "<xsl:stylesheet version='2.0' name='a' xmlns:xsl='http://www.w3.org/1999/XSL/Transform'/>",
            "XTSE0090",
        ),
        (
            "<xsl:stylesheet version='2.0' xmlns:xsl='http://www.w3.org/1999/XSL/Transform'>",
            "malformed s.xsl",
        ),
        ("", "malformed s.xsl"),
    ];
    for (text, code) in cases {
        assert!(rt; is_said(&rt, &[("s.xsl", text)], code), "{text}");
    }
}

// What is at the top (XSLT 2.0, 3.6.2 and 3.6.3).
#[test]
fn tops(rt: HostRuntime) {
    let cases = [
        ("", ""),
        (" <!--a--> <?b c?> ", ""),
        ("a", "XTSE0120"),
        ("<xsl:template name='a'/>b", "XTSE0120"),
        ("<a/>", "XTSE0130"),
        ("<p:a><xsl:if/>b</p:a>", ""),
        ("<xsl:if test='1'/>", "XTSE0010"),
        ("<xsl:text>a</xsl:text>", "XTSE0010"),
        ("<xsl:sort/>", "XTSE0010"),
        ("<xsl:stylesheet version='2.0'/>", "XTSE0010"),
        ("<xsl:loop/>", "XTSE0010"),
        ("<xsl:message/>", "XTUN0001"),
        ("<xsl:attribute-set name='a'/>", "XTUN0001"),
        ("<xsl:decimal-format/>", "XTUN0001"),
        (
            "<xsl:namespace-alias stylesheet-prefix='p' result-prefix='p'/>",
            "XTUN0001",
        ),
        ("<xsl:import-schema/>", "XTUN0001"),
        ("<xsl:character-map name='a'/>", "XTUN0001"),
        ("<xsl:import/>", "XTSE0010"),
        ("<xsl:include/>", "XTSE0010"),
    ];
    for (of, code) in cases {
        assert!(rt; sheet_gets(&rt, of, code), "{of}");
    }
}

// Functions (XSLT 2.0, 10.3).
#[test]
fn functions(rt: HostRuntime) {
    let cases = [
        ("<xsl:function name='p:f'/>", ""),
        (
            "<xsl:function name='p:f' as='xs:string'><xsl:param name='a' as='item()'/>\
            <xsl:value-of select='$a'/></xsl:function>",
            "",
        ),
        ("<xsl:function/>", "XTSE0010"),
        ("<xsl:function name='f'/>", "XTSE0740"),
        ("<xsl:function name='q:f'/>", "XTSE0280"),
        ("<xsl:function name='xs:f'/>", "XTSE0080"),
        ("<xsl:function name='xsl:f'/>", "XTSE0080"),
        ("<xsl:function name='xml:f'/>", "XTSE0080"),
        (
            "<xsl:function name='n:f' xmlns:n='http://www.w3.org/2005/xpath-functions'/>",
            "XTSE0080",
        ),
        ("<xsl:function name='p:f' override='yes'/>", "XTUN0001"),
        ("<xsl:function name='p:f' mode='a'/>", "XTSE0090"),
        ("<xsl:function name='p:f' as='xs:float'/>", "XPST0051"),
        (
            "<xsl:function name='p:f'><xsl:param name='a' select='1'/></xsl:function>",
            "XTSE0760",
        ),
        (
            "<xsl:function name='p:f'><xsl:param name='a'>x</xsl:param></xsl:function>",
            "XTSE0760",
        ),
        (
            "<xsl:function name='p:f'><xsl:param name='a'/><xsl:param name='a'/></xsl:function>",
            "XTSE0580",
        ),
        (
            "<xsl:function name='p:f'><b/><xsl:param name='a'/></xsl:function>",
            "XTSE0010",
        ),
        (
            "<xsl:function name='p:f'/><xsl:function name='p:f'/>",
            "XTSE0770",
        ),
        (
            "<xsl:function name='p:f'/><xsl:function name='p:f'><xsl:param name='a'/></xsl:function>",
            "",
        ),
        (
            "<xsl:function name='p:f'><xsl:value-of select='p:f()'/></xsl:function>",
            "",
        ),
    ];
    for (of, code) in cases {
        assert!(rt; sheet_gets(&rt, of, code), "{of}");
    }
}

// Keys (XSLT 2.0, 16.3).
#[test]
fn keys(rt: HostRuntime) {
    let cases = [
        ("<xsl:key name='k' match='a' use='b'/>", ""),
        ("<xsl:key name='p:k' match='a | @b' use='string(.)'/>", ""),
        ("<xsl:key match='a' use='b'/>", "XTSE0010"),
        ("<xsl:key name='k' use='b'/>", "XTSE0010"),
        ("<xsl:key name='k' match='a'/>", "XTSE0010"),
        (
            "<xsl:key name='k' match='a' use='b' collation='u'/>",
            "XTUN0001",
        ),
        (
            "<xsl:key name='k' match='a' use='b' as='item()'/>",
            "XTSE0090",
        ),
        ("<xsl:key name='1' match='a' use='b'/>", "XTSE0020"),
        ("<xsl:key name='q:k' match='a' use='b'/>", "XTSE0280"),
        ("<xsl:key name='k' match='a +' use='b'/>", "XPST0003"),
        ("<xsl:key name='k' match='a union b' use='b'/>", "XTSE0340"),
        ("<xsl:key name='k' match='a' use='b +'/>", "XPST0003"),
        ("<xsl:key name='k' match='a' use='$g'/>", "XTUN0001"),
        (
            "<xsl:key name='k' match='a' use='key(&quot;k&quot;, 1)'/>",
            "XTUN0001",
        ),
        (
            "<xsl:key name='k' match='a' use='p:f(1)'/><xsl:function name='p:f'><xsl:param name='a'/></xsl:function>",
            "XTUN0001",
        ),
        ("<xsl:key name='k' match='a' use='f(1)'/>", "XPST0017"),
        (
            "<xsl:key name='k' match='a' use='b'><a/></xsl:key>",
            "XTSE0010",
        ),
        (
            "<xsl:key name='k' match='a' use='b'/><xsl:key name='k' match='c' use='d'/>",
            "",
        ),
    ];
    for (of, code) in cases {
        assert!(rt; sheet_gets(&rt, of, code), "{of}");
    }
}

// Output and white space (XSLT 2.0, 4.4 and 20).
#[test]
fn outputs_and_white_space(rt: HostRuntime) {
    let cases = [
        ("<xsl:output/>", ""),
        (
            "<xsl:output method='xml' version='1.0' encoding='utf-8' indent='yes'/>",
            "",
        ),
        ("<xsl:output omit-xml-declaration='yes'/>", ""),
        ("<xsl:output method='html'/>", "XTUN0001"),
        ("<xsl:output version='1.1'/>", "XTUN0001"),
        ("<xsl:output encoding='ASCII'/>", "XTUN0001"),
        ("<xsl:output indent='maybe'/>", "XTSE0020"),
        ("<xsl:output omit-xml-declaration='1'/>", "XTSE0020"),
        ("<xsl:output standalone='yes'/>", "XTUN0001"),
        ("<xsl:output doctype-system='a'/>", "XTUN0001"),
        ("<xsl:output use-character-maps='a'/>", "XTUN0001"),
        ("<xsl:output select='1'/>", "XTSE0090"),
        ("<xsl:output><a/></xsl:output>", "XTSE0010"),
        (
            "<xsl:output omit-xml-declaration='yes'/><xsl:output omit-xml-declaration='no'/>",
            "XTSE1560",
        ),
        (
            "<xsl:output omit-xml-declaration='yes'/><xsl:output/><xsl:output omit-xml-declaration='yes'/>",
            "",
        ),
        ("<xsl:strip-space elements='* a p:b p:*'/>", ""),
        ("<xsl:preserve-space elements='a'/>", ""),
        ("<xsl:strip-space/>", "XTSE0010"),
        ("<xsl:strip-space elements='1'/>", "XTSE0020"),
        ("<xsl:strip-space elements='q:a'/>", "XTSE0280"),
        (
            "<xsl:strip-space elements='a'>b</xsl:strip-space>",
            "XTSE0010",
        ),
    ];
    for (of, code) in cases {
        assert!(rt; sheet_gets(&rt, of, code), "{of}");
    }
}

// Global variables and parameters (XSLT 2.0, 9.5).
#[test]
fn globals(rt: HostRuntime) {
    let cases = [
        (
            "<xsl:variable name='a' select='$b'/><xsl:variable name='b' select='1'/>",
            "",
        ),
        ("<xsl:param name='a' as='xs:integer' select='1'/>", ""),
        ("<xsl:param name='a' required='yes'/>", ""),
        ("<xsl:variable/>", "XTSE0010"),
        ("<xsl:param/>", "XTSE0010"),
        (
            "<xsl:variable name='a' select='1'>b</xsl:variable>",
            "XTSE0620",
        ),
        ("<xsl:param name='a' select='1'>b</xsl:param>", "XTSE0620"),
        (
            "<xsl:param name='a' required='yes' select='1'/>",
            "XTSE0010",
        ),
        ("<xsl:variable name='a' required='yes'/>", "XTSE0090"),
        (
            "<xsl:variable name='a'/><xsl:variable name='a'/>",
            "XTSE0630",
        ),
        ("<xsl:variable name='a'/><xsl:param name='a'/>", "XTSE0630"),
        ("<xsl:variable name='a'/><xsl:variable name='p:a'/>", ""),
        ("<xsl:variable name='a' select='$a'/>", "XTDE0640"),
        (
            "<xsl:variable name='a' select='$b'/><xsl:variable name='b' select='$a'/>",
            "XTDE0640",
        ),
        (
            "<xsl:variable name='a'><xsl:call-template name='t'/></xsl:variable>\
            <xsl:template name='t'><xsl:value-of select='$a'/></xsl:template>",
            "XTDE0640",
        ),
        (
            "<xsl:variable name='a' select='p:f()'/><xsl:function name='p:f'><xsl:value-of select='$a'/></xsl:function>",
            "XTDE0640",
        ),
        (
            "<xsl:variable name='a'><xsl:apply-templates mode='m'/></xsl:variable>\
            <xsl:template match='b' mode='m'><xsl:value-of select='$a'/></xsl:template>",
            "XTDE0640",
        ),
        (
            "<xsl:variable name='a'><xsl:apply-templates mode='m'/></xsl:variable>\
            <xsl:template match='b'><xsl:value-of select='$a'/></xsl:template>",
            "",
        ),
        (
            "<xsl:variable name='a' select='for $a in 1 return $a'/>",
            "",
        ),
    ];
    for (of, code) in cases {
        assert!(rt; sheet_gets(&rt, of, code), "{of}");
    }
}

// What is declared twice in one module (XSLT 2.0, 10.1 and 3.10.3).
#[test]
fn declared_twice(rt: HostRuntime) {
    let cases = [
        (
            "<xsl:template name='a'/><xsl:template name='a'/>",
            "XTSE0660",
        ),
        ("<xsl:template match='a'/><xsl:template match='a'/>", ""),
        (
            "<xsl:template name='a' match='b'/><xsl:template name='a' match='c'/>",
            "XTSE0660",
        ),
        ("<xsl:template name='a'/><xsl:variable name='a'/>", ""),
    ];
    for (of, code) in cases {
        assert!(rt; sheet_gets(&rt, of, code), "{of}");
    }
}
