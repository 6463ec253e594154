// Version, namespaces, boundary white space and options on a draft.
ghost use Rattle.std.specs.Prelude.{◌≡◌, ◌∷◌, [], ◌++◌, map, codes, IfOk, OnOk, IsTrue, nat_lt};
ghost use Rattle.std.specs.List.{list_all};
ghost use Rattle.expr_keys.specs.declared.keys.Key.TheVariants as key_of;
ghost use Rattle.expr_keys.specs.declared.tokens.Token.TheVariants as token_of;
ghost use Rattle.expr_raws.specs.PathRaws.Names.{name_token};
ghost use Rattle.printed_laws.specs.QueryRaws.Prologs.{version, namespace, preserved, option_name, token_or};
ghost use Rattle.printed_laws.specs.QueryRaws.Prologs.{space_option, omit_option, rules_text};
ghost use Rattle.printed_laws.specs.QueryRaws.Queries.{prolog_tokens};

use crate::prolog_drafts::rules::rules_text;
use crate::prolog_drafts::words::{ascii_text, push_declare, push_quoted, push_word, token_or};
use expr_drafts::Draft;
use expr_drafts::name_prefixes::NamePrefixes;
use expr_drafts::name_tokens::{name_token, word_term};
use expr_terms::{Key, Token};
use query_pages::Gap;
use std::alloc::{AllocError, Global};
use xt_names::{Binding, ExprName, Text};
use xt_types::SpaceRule;

/// `xquery version "1.0";`.
/// (XQuery 1.0, 4.1)
pub fn push_version(alloc: Global, draft: &mut Draft<'_>) -> Result<(), AllocError>
    ensures { OnOk result (draft.new
        ≡ version.tokens ++ token_of.Key key_of.Semicolon ∷ draft.old) }
{
    draft.push_key(Gap::Space, Key::Semicolon)?;
    push_quoted(draft, &ascii_text(alloc, "1.0")?)?;
    push_word(alloc, draft, Gap::Space, "version")?;
    push_word(alloc, draft, Gap::Line(0), "xquery")
}

/// `declare namespace p = "u";`.
fn push_namespace(alloc: Global, draft: &mut Draft<'_>, binding: &Binding) -> Result<(), AllocError>
    ensures { OnOk result (draft.new
        ≡ (namespace binding.now).tokens ++ token_of.Key key_of.Semicolon ∷ draft.old) }
{
    draft.push_key(Gap::Space, Key::Semicolon)?;
    push_quoted(draft, &binding.uri)?;
    draft.push_key(Gap::Space, Key::Equal)?;
    draft.push(Gap::Space, word_term(&binding.prefix)?)?;
    draft.push_key(Gap::Space, Key::NamespaceWord)?;
    push_word(alloc, draft, Gap::Line(0), "declare")
}

/// The namespaces, in order.
/// (XQuery 1.0, 4.12)
pub fn push_namespaces(
    alloc: Global,
    draft: &mut Draft<'_>,
    bindings: &[Binding],
) -> Result<(), AllocError>
    ensures { OnOk result (draft.new
        ≡ prolog_tokens (map (λ b. namespace b) bindings.now) draft.old) }
{
    let mut left = bindings.len();
    while left > 0 {
        left -= 1;
        push_namespace(alloc, draft, &bindings[left])?;
    }
    Ok(())
}

/// `declare boundary-space preserve;`.
/// (XQuery 1.0, 4.3)
pub fn push_preserved(alloc: Global, draft: &mut Draft<'_>) -> Result<(), AllocError>
    ensures { OnOk result (draft.new
        ≡ preserved.tokens ++ token_of.Key key_of.Semicolon ∷ draft.old) }
{
    draft.push_key(Gap::Space, Key::Semicolon)?;
    push_word(alloc, draft, Gap::Space, "preserve")?;
    push_declare(alloc, draft, "boundary-space")
}

/// The token of the name of an option.
fn option_token(alloc: Global, prefixes: &NamePrefixes, local: &str) -> Result<Token, AllocError>
    requires { IsTrue (list_all (λ b. nat_lt b 128) local.now) }
    ensures { IfOk result (λ token. token
        ≡ token_or (name_token prefixes.now.bound [] (option_name local.now))) }
{
    let uri = ascii_text(alloc, "urn:xslt2xq")?;
    let local = ascii_text(alloc, local)?;
    let name = ExprName { uri, local };
    let token = name_token(alloc, prefixes, &name)?;
    Ok(token_or(token))
}

/// `declare option p:n "t";`.
fn push_option(
    alloc: Global,
    draft: &mut Draft<'_>,
    prefixes: &NamePrefixes,
    local: &str,
    text: &Text,
) -> Result<(), AllocError>
    requires { IsTrue (list_all (λ b. nat_lt b 128) local.now) }
    ensures { OnOk result (draft.new ≡ token_of.Name (codes "declare")
        ∷ token_of.Name (codes "option")
        ∷ token_or (name_token prefixes.now.bound [] (option_name local.now))
        ∷ token_of.Quoted text.now ∷ token_of.Key key_of.Semicolon ∷ draft.old) }
{
    draft.push_key(Gap::Space, Key::Semicolon)?;
    push_quoted(draft, text)?;
    draft.push(Gap::Space, option_token(alloc, prefixes, local)?)?;
    push_declare(alloc, draft, "option")
}

/// The rules of white space as an option, where there are some.
/// (XQuery 1.0, 4.16)
pub fn push_space(
    alloc: Global,
    draft: &mut Draft<'_>,
    prefixes: &NamePrefixes,
    rules: &[SpaceRule],
) -> Result<(), AllocError>
    ensures { OnOk result (draft.new
        ≡ prolog_tokens (space_option prefixes.now rules.now) draft.old) }
{
    match rules {
        [] => Ok(()),
        _ => {
            let text = rules_text(alloc, prefixes, rules)?;
            push_option(alloc, draft, prefixes, "space", &text)
        }
    }
}

/// That the XML declaration is left out as an option, where it is.
/// (XQuery 1.0, 4.16)
pub fn push_omit(
    alloc: Global,
    draft: &mut Draft<'_>,
    prefixes: &NamePrefixes,
    omit: bool,
) -> Result<(), AllocError>
    ensures { OnOk result (draft.new
        ≡ prolog_tokens (omit_option prefixes.now omit) draft.old) }
{
    if omit {
        let text = ascii_text(alloc, "omit")?;
        return push_option(alloc, draft, prefixes, "declaration", &text);
    }
    Ok(())
}
