// Whether names have tokens.
ghost use Rattle.std.specs.Prelude.{◌≡◌, ◌&&◌, not, [], is_some, IfOk};
ghost use Rattle.expr_names.specs.Types.{call_type, type_named};
ghost use Rattle.expr_keys.specs.declared.productions.Class.TheVariants as class_of;
ghost use Rattle.expr_raws.specs.PathRaws.Names.{name_token, function_token, test_token};
ghost use Rattle.expr_raws.specs.ControlRaws.Types.{type_token};
ghost use Rattle.expr_raws.specs.ControlRaws.Bindings.{placing, may};
ghost use Rattle.expr_raws.specs.ElementRaws.Makers.{node_token, gives_name};
ghost use Rattle.expr_raws.specs.ElementRaws.Direct.{front_token, attr_token};

use expr_drafts::name_prefixes::NamePrefixes;
use expr_drafts::name_tokens::{
    bare_node_token, function_token, gives_name, name_token, node_token, test_token, type_token,
};
use expr_names::{call_type, no_text};
use expr_terms::{Class, Token};
use std::alloc::{AllocError, Global};
use xt_names::{AtomType, ExprName, Name};
use xt_types::{Axis, NameTest};

/// Whether some token means the name of a variable or an option.
/// (XPath 2.0, 3.1.2)
pub fn has_name(alloc: Global, prefixes: &NamePrefixes, name: &ExprName) -> Result<bool, AllocError>
    ensures { IfOk result (λ has. has ≡ is_some (name_token prefixes.now.bound [] name.now)) }
{
    let token = name_token(alloc, prefixes, name)?;
    Ok(token.is_some())
}

/// Whether some token means the name of a function.
/// (XPath 2.0, 3.1.5; XQuery 1.0, A.3)
pub fn has_function(
    alloc: Global,
    prefixes: &NamePrefixes,
    name: &ExprName,
) -> Result<bool, AllocError>
    ensures { IfOk result (λ has. has ≡ is_some
        (function_token prefixes.now.bound prefixes.now.function_default name.now)) }
{
    let plain = prefixes.plain();
    let token = function_token(alloc, prefixes, &plain.function_default, name)?;
    Ok(token.is_some())
}

/// A function that a call may name: one of the name of an atomic type would be a cast.
pub(crate) fn has_call(
    alloc: Global,
    prefixes: &NamePrefixes,
    name: &ExprName,
) -> Result<bool, AllocError>
    ensures { IfOk result (λ has. has ≡ (is_some
        (function_token prefixes.now.bound prefixes.now.function_default name.now)
        && not (is_some (call_type (type_named name.now))))) }
{
    Ok(has_function(alloc, prefixes, name)? && !call_type(name).is_some())
}

pub(crate) fn has_test(
    alloc: Global,
    prefixes: &NamePrefixes,
    class: Class,
    axis: Axis,
    test: &NameTest,
) -> Result<bool, AllocError>
    ensures { IfOk result (λ has. has ≡ is_some (test_token class prefixes.now.bound
        prefixes.now.element_default axis test.now)) }
{
    let plain = prefixes.plain();
    let default = &plain.element_default;
    let token = test_token(alloc, class, prefixes, default, axis, test)?;
    Ok(token.is_some())
}

pub(crate) fn has_type(
    alloc: Global,
    prefixes: &NamePrefixes,
    kind: AtomType,
) -> Result<bool, AllocError>
    ensures { IfOk result (λ has. has ≡ is_some (type_token prefixes.now.bound kind)) }
{
    let token = type_token(alloc, prefixes, kind)?;
    Ok(token.is_some())
}

/// The name of an element, which has the default uri without a prefix.
pub(crate) fn has_element_name(
    alloc: Global,
    prefixes: &NamePrefixes,
    name: &Name,
) -> Result<bool, AllocError>
    ensures { IfOk result (λ has. has ≡ is_some (node_token class_of.Name prefixes.now.bound
        prefixes.now.element_default name.now)) }
{
    let plain = prefixes.plain();
    let default = &plain.element_default;
    let token = node_token(alloc, Class::Name, &plain.bound, default, name)?;
    Ok(token.is_some())
}

/// The name of an attribute or a processing instruction, of the class.
pub(crate) fn has_bare_name(
    alloc: Global,
    prefixes: &NamePrefixes,
    class: Class,
    name: &Name,
) -> Result<bool, AllocError>
    ensures { IfOk result (λ has. has ≡ is_some
        (node_token class prefixes.now.bound [] name.now)) }
{
    let plain = prefixes.plain();
    let token = bare_node_token(alloc, class, &plain.bound, name)?;
    Ok(token.is_some())
}

/// The variable behind `at`, if there is one.
#[tactic(auto, using(crate::proofs::TokenLemmas::tokens))]
pub(crate) fn has_place(
    alloc: Global,
    prefixes: &NamePrefixes,
    place: &Option<ExprName>,
) -> Result<bool, AllocError>
    ensures { IfOk result (λ has. has ≡ may (placing prefixes.now place.now)) }
{
    match place {
        None => Ok(true),
        Some(name) => has_name(alloc, prefixes, name),
    }
}

/// The name of a direct element, with its own prefix.
pub(crate) fn has_front(
    alloc: Global,
    prefixes: &NamePrefixes,
    name: &Name,
) -> Result<bool, AllocError>
    ensures { IfOk result (λ has. has ≡ gives_name prefixes.now.bound
        prefixes.now.element_default name.now (front_token name.now)) }
{
    let token = Token::StartTagOpen(name.prefix.copy()?, name.local.copy()?);
    let plain = prefixes.plain();
    gives_name(alloc, &plain.bound, &plain.element_default, name, &token)
}

/// The name of an attribute of a direct element, with its own prefix.
pub(crate) fn has_attribute(
    alloc: Global,
    prefixes: &NamePrefixes,
    name: &Name,
) -> Result<bool, AllocError>
    ensures { IfOk result (λ has. has ≡ gives_name prefixes.now.bound [] name.now
        (attr_token name.now)) }
{
    let none = no_text(alloc)?;
    let token = Token::Attribute(name.prefix.copy()?, name.local.copy()?);
    let plain = prefixes.plain();
    gives_name(alloc, &plain.bound, &none, name, &token)
}
