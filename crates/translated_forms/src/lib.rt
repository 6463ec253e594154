//! What the instructions of a stylesheet become in its query: definitions, and laws of their form.
//!
//! `Instrs` has the whole, one line a form: each instruction becomes one expression over what its parts
//! become. `Texts`, `Converted` and `NodeNames` have texts, conversions and names; `Making`, `Loops`,
//! `Groups` and `Dispatch` have the instructions; `Bodies` puts instructions in a row. The place of an
//! instruction is a `Place`: whether variables hold a focus and a group, and for which rule in
//! which mode the function is that it is in. The focus is in `$x:item`, `$x:position` and `$x:size`,
//! where x is the namespace of the names that a translation makes up.
//!
//! Example: `<xsl:for-each select="a"><xsl:value-of select="."/></xsl:for-each>` becomes
//! `for $x:item at $x:position in $x:item/a return text { local:simple($x:item, " ") }`.
#![tactic(auto)]

mod laws;

pub use laws::what_instructions_become_is_regular_and_bounded;
