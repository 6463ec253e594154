// Which rule a sequence constructor breaks: its code, or nothing.
use crate::made::body_gets;

// Attributes of any element (XSLT 2.0, 3.3 and 3.5).
#[test]
fn attributes(rt: HostRuntime) {
    let cases = [
        ("<xsl:if test='1'/>", ""),
        ("<xsl:if/>", "XTSE0010"),
        ("<xsl:if test=''/>", "XPST0003"),
        ("<xsl:if test='1' id='x'/>", "XTSE0090"),
        ("<xsl:if test='1' select='x'/>", "XTSE0090"),
        ("<xsl:if test='1' use-when='x'/>", "XTUN0001"),
        ("<xsl:if test='1' version='2.0'/>", "XTUN0001"),
        ("<xsl:if test='1' xpath-default-namespace='u'/>", "XTUN0001"),
        ("<xsl:if test='1' default-collation='u'/>", "XTUN0001"),
        (
            "<xsl:if test='1' extension-element-prefixes='p'/>",
            "XTUN0001",
        ),
        ("<xsl:if test='1' exclude-result-prefixes='p'/>", "XTUN0001"),
        ("<xsl:if test='1' xsl:version='2.0'/>", "XTSE0090"),
        ("<xsl:if p:test='1'/>", "XTSE0010"),
        ("<xsl:if test='1' xml:space='preserve'/>", "XTUN0001"),
        ("<xsl:if test='1' xml:space='default'/>", ""),
        ("<xsl:if test='1' xml:lang='en'/>", ""),
        ("<xsl:if test='1' p:other='x'/>", ""),
    ];
    for (of, code) in cases {
        assert!(rt; body_gets(&rt, of, code), "{of}");
    }
}

// Elements that the table does not have, and such as stand elsewhere (XSLT 2.0, appendix D).
#[test]
fn elements_out_of_place(rt: HostRuntime) {
    let cases = [
        ("<xsl:number/>", "XTUN0001"),
        ("<xsl:fallback/>", "XTUN0001"),
        ("<xsl:message>m</xsl:message>", "XTUN0001"),
        ("<xsl:result-document/>", "XTUN0001"),
        ("<xsl:analyze-string select='1' regex='a'/>", "XTUN0001"),
        ("<xsl:namespace name='p'/>", "XTUN0001"),
        ("<xsl:namespace-alias/>", "XTUN0001"),
        ("<xsl:attribute-set name='a'/>", "XTUN0001"),
        ("<xsl:decimal-format/>", "XTUN0001"),
        ("<xsl:import-schema/>", "XTUN0001"),
        ("<xsl:character-map name='a'/>", "XTUN0001"),
        ("<xsl:loop/>", "XTSE0010"),
        ("<xsl:matching-substring/>", "XTSE0010"),
        ("<xsl:output-character/>", "XTSE0010"),
        ("<xsl:stylesheet version='2.0'/>", "XTSE0010"),
        ("<xsl:transform version='2.0'/>", "XTSE0010"),
        ("<xsl:import href='x'/>", "XTSE0010"),
        ("<xsl:include href='x'/>", "XTSE0010"),
        ("<xsl:template match='a'/>", "XTSE0010"),
        ("<xsl:function name='p:f'/>", "XTSE0010"),
        ("<xsl:key name='k' match='a' use='b'/>", "XTSE0010"),
        ("<xsl:strip-space elements='*'/>", "XTSE0010"),
        ("<xsl:preserve-space elements='*'/>", "XTSE0010"),
        ("<xsl:output/>", "XTSE0010"),
        ("a<xsl:param name='p'/>", "XTSE0010"),
        ("<xsl:with-param name='p'/>", "XTSE0010"),
        ("<xsl:sort/>", "XTSE0010"),
        ("<xsl:when test='1'/>", "XTSE0010"),
        ("<xsl:otherwise/>", "XTSE0010"),
    ];
    for (of, code) in cases {
        assert!(rt; body_gets(&rt, of, code), "{of}");
    }
}

// Instructions that make texts (XSLT 2.0, 11.4).
#[test]
fn texts(rt: HostRuntime) {
    let cases = [
        ("", ""),
        ("a", ""),
        ("<xsl:text/>", ""),
        ("<xsl:text> </xsl:text>", ""),
        ("<xsl:text>a<!--c-->b</xsl:text>", ""),
        ("<xsl:text><b/></xsl:text>", "XTSE0010"),
        ("<xsl:text>a<b/></xsl:text>", "XTSE0010"),
        ("<xsl:text select='1'/>", "XTSE0090"),
        ("<xsl:text disable-output-escaping='no'/>", "XTUN0001"),
        ("<xsl:value-of select='1'/>", ""),
        ("<xsl:value-of select='1'> <!--c--> </xsl:value-of>", ""),
        ("<xsl:value-of>a</xsl:value-of>", ""),
        ("<xsl:value-of/>", "XTSE0870"),
        ("<xsl:value-of> </xsl:value-of>", "XTSE0870"),
        ("<xsl:value-of select='1'>a</xsl:value-of>", "XTSE0870"),
        ("<xsl:value-of select='1' separator='{{}}'/>", ""),
        ("<xsl:value-of select='1' separator='{1}'/>", ""),
        ("<xsl:value-of select='1' separator='{'/>", "XTSE0350"),
        ("<xsl:value-of select='1' separator='{1'/>", "XTSE0350"),
        ("<xsl:value-of select='1' separator='}'/>", "XTSE0370"),
        ("<xsl:value-of select='1' separator='{}'/>", "XPST0003"),
        (
            "<xsl:value-of select='1' disable-output-escaping='no'/>",
            "XTUN0001",
        ),
    ];
    for (of, code) in cases {
        assert!(rt; body_gets(&rt, of, code), "{of}");
    }
}

// Instructions that make nodes (XSLT 2.0, 11).
#[test]
fn nodes(rt: HostRuntime) {
    let cases = [
        ("<xsl:element name='a'>b</xsl:element>", ""),
        ("<xsl:element/>", "XTSE0010"),
        ("<xsl:element name='{x'/>", "XTSE0350"),
        ("<xsl:element name='a' namespace='u'/>", "XTUN0001"),
        ("<xsl:element name='a' use-attribute-sets='s'/>", "XTUN0001"),
        (
            "<xsl:element name='a' inherit-namespaces='no'/>",
            "XTUN0001",
        ),
        ("<xsl:element name='a' select='1'/>", "XTSE0090"),
        ("<xsl:attribute name='a' select='1' separator=','/>", ""),
        ("<xsl:attribute name='a'>b</xsl:attribute>", ""),
        ("<xsl:attribute/>", "XTSE0010"),
        (
            "<xsl:attribute name='a' select='1'>b</xsl:attribute>",
            "XTSE0840",
        ),
        ("<xsl:attribute name='a' type='t'/>", "XTUN0001"),
        ("<xsl:attribute name='a' namespace='u'/>", "XTUN0001"),
        ("<xsl:comment>a</xsl:comment>", ""),
        ("<xsl:comment select='1'/>", ""),
        ("<xsl:comment select='1'>a</xsl:comment>", "XTSE0940"),
        ("<xsl:comment name='a'/>", "XTSE0090"),
        ("<xsl:processing-instruction name='a' select='1'/>", ""),
        ("<xsl:processing-instruction/>", "XTSE0010"),
        (
            "<xsl:processing-instruction name='a' select='1'>b</xsl:processing-instruction>",
            "XTSE0880",
        ),
        (
            "<xsl:processing-instruction name='a' separator=','/>",
            "XTSE0090",
        ),
        ("<xsl:document><a/></xsl:document>", ""),
        ("<xsl:document validation='strip'/>", "XTUN0001"),
        ("<xsl:document select='1'/>", "XTSE0090"),
        ("<xsl:copy>a</xsl:copy>", ""),
        ("<xsl:copy copy-namespaces='no'/>", "XTUN0001"),
        ("<xsl:copy select='1'/>", "XTSE0090"),
        ("<xsl:copy-of select='1'/>", ""),
        ("<xsl:copy-of/>", "XTSE0010"),
        ("<xsl:copy-of select='1'>a</xsl:copy-of>", "XTSE0010"),
        ("<xsl:copy-of select='1' validation='strip'/>", "XTUN0001"),
        ("<xsl:sequence select='1'/>", ""),
        ("<xsl:sequence/>", "XTSE0010"),
        ("<xsl:sequence select='1'><a/></xsl:sequence>", "XTSE0010"),
    ];
    for (of, code) in cases {
        assert!(rt; body_gets(&rt, of, code), "{of}");
    }
}

// Literal result elements (XSLT 2.0, 11.1).
#[test]
fn literals(rt: HostRuntime) {
    let cases = [
        ("<a b='c{1}d' p:b='{{'/>", ""),
        ("<a b='{'/>", "XTSE0350"),
        ("<a b='}'/>", "XTSE0370"),
        ("<a b='{}'/>", "XPST0003"),
        ("<a xsl:exclude-result-prefixes='p'/>", ""),
        ("<a xsl:exclude-result-prefixes='{'/>", ""),
        ("<a xsl:version='2.0'/>", "XTUN0001"),
        ("<a xsl:use-when='1'/>", "XTUN0001"),
        ("<a xsl:use-attribute-sets='s'/>", "XTUN0001"),
        ("<a xml:space='preserve'/>", "XTUN0001"),
        ("<a xml:space='default'/>", ""),
        ("<p:a><b><xsl:if/></b></p:a>", "XTSE0010"),
    ];
    for (of, code) in cases {
        assert!(rt; body_gets(&rt, of, code), "{of}");
    }
}
