// Which rule a pattern, a priority or a mode of a template breaks: its code, or nothing.
use crate::made::sheet_gets;

// Patterns (XSLT 2.0, 5.5).
#[test]
fn patterns(rt: HostRuntime) {
    let cases = [
        ("<xsl:template match='/'/>", ""),
        ("<xsl:template match='a | @b | //c/d[1]'/>", ""),
        ("<xsl:template match='processing-instruction(a)'/>", ""),
        (
            "<xsl:template match='p:* | *:a | text() | comment() | node()'/>",
            "",
        ),
        (
            "<xsl:template match='a[b = &quot;c&quot; and position() &lt; 3]'/>",
            "",
        ),
        ("<xsl:template match='a[@n > 3]'/>", ""),
        ("<xsl:template match=''/>", "XPST0003"),
        ("<xsl:template match='a +'/>", "XPST0003"),
        ("<xsl:template match='a['/>", "XPST0003"),
        ("<xsl:template match='a union b'/>", "XTSE0340"),
        ("<xsl:template match='.'/>", "XTSE0340"),
        ("<xsl:template match='..'/>", "XTSE0340"),
        ("<xsl:template match='a/..'/>", "XTSE0340"),
        ("<xsl:template match='$g'/>", "XTSE0340"),
        ("<xsl:template match='1'/>", "XTSE0340"),
        ("<xsl:template match='ancestor::a'/>", "XTSE0340"),
        ("<xsl:template match='descendant::a'/>", "XTSE0340"),
        ("<xsl:template match='count(a)'/>", "XTSE0340"),
        ("<xsl:template match='a, b'/>", "XTSE0340"),
        ("<xsl:template match='key(&quot;k&quot;, 1)'/>", "XTUN0001"),
        ("<xsl:template match='id(&quot;a&quot;)/b'/>", "XTUN0001"),
        ("<xsl:template match='element()'/>", "XTUN0001"),
        ("<xsl:template match='document-node()'/>", "XTUN0001"),
        ("<xsl:template match='a[b + 1]'/>", "XTUN0001"),
        ("<xsl:template match='a[$g]'/>", "XTUN0001"),
        ("<xsl:template match='a[string(b)]'/>", "XTUN0001"),
        ("<xsl:template match='q:a'/>", "XPST0081"),
        ("<xsl:template match='a[q:b]'/>", "XPST0081"),
    ];
    for (of, code) in cases {
        assert!(rt; sheet_gets(&rt, of, code), "{of}");
    }
}

// Priorities and modes (XSLT 2.0, 6.4 and 6.5).
#[test]
fn priorities_and_modes(rt: HostRuntime) {
    let cases = [
        ("<xsl:template match='a' priority='1'/>", ""),
        ("<xsl:template match='a' priority='-123456789.123'/>", ""),
        ("<xsl:template match='a' priority='0.5'/>", ""),
        ("<xsl:template match='a' priority='0.1234'/>", "XTUN0001"),
        (
            "<xsl:template match='a' priority='1234567890'/>",
            "XTUN0001",
        ),
        ("<xsl:template match='a' priority='.5'/>", "XTUN0001"),
        ("<xsl:template match='a' priority='1.'/>", "XTUN0001"),
        ("<xsl:template match='a' priority='+1'/>", "XTUN0001"),
        ("<xsl:template match='a' priority=''/>", "XTSE0020"),
        ("<xsl:template match='a' priority='x'/>", "XTSE0020"),
        ("<xsl:template match='a' priority='1e3'/>", "XTSE0020"),
        ("<xsl:template match='a' priority='--1'/>", "XTSE0020"),
        ("<xsl:template match='a' mode='m'/>", ""),
        ("<xsl:template match='a' mode=' m  p:n #default '/>", ""),
        ("<xsl:template match='a' mode='#all'/>", ""),
        ("<xsl:template match='a' mode=''/>", "XTSE0550"),
        ("<xsl:template match='a' mode=' '/>", "XTSE0550"),
        ("<xsl:template match='a' mode='m m'/>", "XTSE0550"),
        ("<xsl:template match='a' mode='#all m'/>", "XTSE0550"),
        ("<xsl:template match='a' mode='#current'/>", "XTSE0550"),
        ("<xsl:template match='a' mode='1'/>", "XTSE0550"),
        ("<xsl:template match='a' mode='q:m'/>", "XTSE0280"),
    ];
    for (of, code) in cases {
        assert!(rt; sheet_gets(&rt, of, code), "{of}");
    }
}

// What a template must have (XSLT 2.0, 6.1 and 10.1).
#[test]
fn templates(rt: HostRuntime) {
    let cases = [
        ("<xsl:template name='a'/>", ""),
        (
            "<xsl:template name='p:a' match='a' mode='m' priority='2' as='item()*'/>",
            "",
        ),
        ("<xsl:template/>", "XTSE0500"),
        ("<xsl:template name='a' mode='m'/>", "XTSE0500"),
        ("<xsl:template name='a' priority='1'/>", "XTSE0500"),
        ("<xsl:template name='1'/>", "XTSE0020"),
        ("<xsl:template name=''/>", "XTSE0020"),
        ("<xsl:template name='q:a'/>", "XTSE0280"),
        ("<xsl:template name='xsl:a'/>", "XTSE0080"),
        ("<xsl:template name='xml:a'/>", "XTSE0080"),
        ("<xsl:template name='a' as='xs:date'/>", "XPST0051"),
        ("<xsl:template name='a' select='1'/>", "XTSE0090"),
        ("<xsl:template name='a'>x<b/></xsl:template>", ""),
        (
            "<xsl:template name='a'><xsl:param name='b'/><xsl:param name='p:b'/>x</xsl:template>",
            "",
        ),
        (
            "<xsl:template name='a'><xsl:param name='b'/><xsl:param name='b'/></xsl:template>",
            "XTSE0580",
        ),
        (
            "<xsl:template name='a'>x<xsl:param name='b'/></xsl:template>",
            "XTSE0010",
        ),
        (
            "<xsl:template name='a'><xsl:param/></xsl:template>",
            "XTSE0010",
        ),
        (
            "<xsl:template name='a'><xsl:param name='b' select='1'>x</xsl:param></xsl:template>",
            "XTSE0620",
        ),
        (
            "<xsl:template name='a'><xsl:param name='b' required='yes'/></xsl:template>",
            "",
        ),
        (
            "<xsl:template name='a'><xsl:param name='b' required='no' select='1'/></xsl:template>",
            "",
        ),
        (
            "<xsl:template name='a'><xsl:param name='b' required='true'/></xsl:template>",
            "XTSE0020",
        ),
        (
            "<xsl:template name='a'><xsl:param name='b' required='yes' select='1'/></xsl:template>",
            "XTSE0010",
        ),
        (
            "<xsl:template name='a'><xsl:param name='b' required='yes'>x</xsl:param></xsl:template>",
            "XTSE0010",
        ),
        (
            "<xsl:template name='a'><xsl:param name='b' tunnel='yes'/></xsl:template>",
            "",
        ),
        (
            "<xsl:template name='a'><xsl:param name='b' tunnel='x'/></xsl:template>",
            "XTSE0020",
        ),
        (
            "<xsl:template name='a'><xsl:param name='b'/><xsl:value-of select='$b'/></xsl:template>",
            "",
        ),
        (
            "<xsl:template name='a'><xsl:param name='b' select='$c'/><xsl:param name='c'/></xsl:template>",
            "XPST0008",
        ),
        (
            "<xsl:template name='a'><xsl:param name='b'/><xsl:param name='c' select='$b'/></xsl:template>",
            "",
        ),
    ];
    for (of, code) in cases {
        assert!(rt; sheet_gets(&rt, of, code), "{of}");
    }
}
