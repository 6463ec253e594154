// What the parsers take of a place.
ghost use Rattle.std.specs.Prelude.{◌≡◌, IfOk, IsTrue, nat_lt};
ghost use Rattle.std.specs.List.{list_all};
ghost use Rattle.xt_names.specs.declared.codes.Code.TheVariants.{QueryStatic, SheetStatic};
ghost use Rattle.xt_names.specs.declared.codes.QueryStaticCode.TheVariants.{XPST0003};
ghost use Rattle.xt_names.specs.declared.codes.SheetStaticCode.TheVariants.{XTLM0004};
ghost use Rattle.expr_names.specs.declared.fault.ResolveFault.TheVariants.{Static};
ghost use Rattle.sheet_language.specs.Settings.{prefixes_at, setting_at};

use bound_prefixes::BoundPrefixes;
use expr_names::{ResolveFault, no_text, static_fault};
use pattern_syntax::expr_resolve::Setting;
use sheet_values::sheet_fault;
use std::alloc::{AllocError, Global};
use xt_names::{QueryStaticCode, SheetStaticCode, Text};
use xt_syntax::Prefixes;

/// How deep expressions, patterns and types may nest.
pub(crate) const LIMIT: u16 = 40;

#[tactic(auto, using(xt_names::proofs::TextLemmas::ascii_same))]
fn ascii_text(alloc: Global, text: &str) -> Result<Text, AllocError>
    requires { IsTrue (list_all (λ b. nat_lt b 128) text.now) }
    ensures { IfOk result (λ made. made ≡ text.now) }
{
    Text::make(alloc, text)
}

fn prefixes_at(alloc: Global, bound: &BoundPrefixes) -> Result<Prefixes, AllocError>
    ensures { IfOk result (λ prefixes. prefixes ≡ prefixes_at bound.now) }
{
    Ok(Prefixes {
        bound: bound.copy()?,
        element_default: no_text(alloc)?,
        function_default: ascii_text(alloc, "http://www.w3.org/2005/xpath-functions")?,
    })
}

/// Where an expression, a pattern or a type stands (XSLT 2.0, 5.4.1).
pub(crate) fn setting_at(alloc: Global, bound: &BoundPrefixes) -> Result<Setting, AllocError>
    ensures { IfOk result (λ setting. setting ≡ setting_at bound.now) }
{
    Ok(Setting {
        prefixes: prefixes_at(alloc, bound)?,
        strip: true,
    })
}

pub(crate) fn nothing_spelled() -> ResolveFault
    ensures { result ≡ Static (QueryStatic XPST0003) }
{
    static_fault(QueryStaticCode::XPST0003)
}

pub(crate) fn too_deep() -> ResolveFault
    ensures { result ≡ Static (SheetStatic XTLM0004) }
{
    sheet_fault(SheetStaticCode::XTLM0004)
}
