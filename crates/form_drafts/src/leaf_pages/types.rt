// Node tests and types on a draft.
ghost use Rattle.std.specs.Prelude.{◌≡◌, ◌∷◌, [], ◌++◌, OnOk};
ghost use Rattle.xt_types.specs.declared.node_tests.Test.TheVariants as test_of;
ghost use Rattle.xt_types.specs.declared.types.ItemType.TheVariants as item;
ghost use Rattle.expr_keys.specs.declared.productions.Class.TheVariants as class;
ghost use Rattle.expr_raws.specs.PathRaws.Names.{test_token};
ghost use Rattle.expr_raws.specs.PathRaws.Paths.{with_token, named_test, test_form, kind_tokens, axis_key};
ghost use Rattle.expr_raws.specs.ControlRaws.Types.{item_form, sequence_form, single_form, mark_tokens};
ghost use Rattle.expr_raws.specs.ControlRaws.Bindings.{typing, typing_tokens};

use expr_drafts::Draft;
use expr_drafts::name_prefixes::NamePrefixes;
use expr_drafts::name_tokens::{test_token, type_token};
use expr_terms::{Class, Key, Token};
use query_pages::Gap;
use std::alloc::{AllocError, Global};
use xt_names::AtomType;
use xt_types::{Axis, Count, ItemType, NameTest, SeqType, Test};

/// A word with empty parentheses.
fn push_kind(draft: &mut Draft<'_>, first: Gap, key: Key) -> Result<(), AllocError>
    ensures { OnOk result (draft.new ≡ kind_tokens key [] ++ draft.old) }
{
    draft.push_key(Gap::Space, Key::CloseParen)?;
    draft.push_key(Gap::Space, Key::OpenParen)?;
    draft.push_key(first, key)
}

/// A word with a token in parentheses.
fn push_kind_of(draft: &mut Draft<'_>, first: Gap, key: Key, token: Token) -> Result<(), AllocError>
    ensures { OnOk result (draft.new ≡ kind_tokens key (token ∷ []) ++ draft.old) }
{
    draft.push_key(Gap::Space, Key::CloseParen)?;
    draft.push(Gap::Space, token)?;
    draft.push_key(Gap::Space, Key::OpenParen)?;
    draft.push_key(first, key)
}

/// A kind test of elements or attributes.
fn push_named(
    alloc: Global,
    draft: &mut Draft<'_>,
    prefixes: &NamePrefixes,
    first: Gap,
    axis: Axis,
    key: Key,
    name: &NameTest,
) -> Result<(), AllocError>
    ensures { OnOk result (draft.new ≡ (with_token (test_token class.NameOrStar
        prefixes.now.bound prefixes.now.element_default axis name.now)
        (named_test key)).tokens draft.old) }
{
    let plain = prefixes.plain();
    let default = &plain.element_default;
    match test_token(alloc, Class::NameOrStar, prefixes, default, axis, name)? {
        None => Ok(()),
        Some(token) => push_kind_of(draft, first, key, token),
    }
}

/// A name test on the axis.
fn push_name_test(
    alloc: Global,
    draft: &mut Draft<'_>,
    prefixes: &NamePrefixes,
    first: Gap,
    axis: Axis,
    name: &NameTest,
) -> Result<(), AllocError>
    ensures { OnOk result (draft.new
        ≡ (test_form prefixes.now axis (test_of.Named name.now)).tokens draft.old) }
{
    let plain = prefixes.plain();
    let default = &plain.element_default;
    match test_token(alloc, Class::NameTest, prefixes, default, axis, name)? {
        None => Ok(()),
        Some(token) => draft.push(first, token),
    }
}

/// Puts a node test as it is written on the axis.
/// (XPath 2.0, 3.2.1.2 and 2.5.3)
pub fn push_test(
    alloc: Global,
    draft: &mut Draft<'_>,
    prefixes: &NamePrefixes,
    first: Gap,
    axis: Axis,
    test: &Test,
) -> Result<(), AllocError>
    ensures { OnOk result (draft.new ≡ (test_form prefixes.now axis test.now).tokens draft.old) }
{
    match test {
        Test::Named(name) => push_name_test(alloc, draft, prefixes, first, axis, name),
        Test::Node => push_kind(draft, first, Key::NodeWord),
        Test::Text => push_kind(draft, first, Key::TextWord),
        Test::Comment => push_kind(draft, first, Key::CommentWord),
        Test::Doc => push_kind(draft, first, Key::DocumentNodeWord),
        Test::Pi(None) => push_kind(draft, first, Key::ProcessingInstructionWord),
        Test::Pi(Some(target)) => {
            let token = Token::Quoted(target.copy()?);
            push_kind_of(draft, first, Key::ProcessingInstructionWord, token)
        }
        Test::Elem(name) => {
            push_named(
                alloc,
                draft,
                prefixes,
                first,
                Axis::Child,
                Key::ElementWord,
                name,
            )
        }
        Test::Attr(name) => {
            push_named(
                alloc,
                draft,
                prefixes,
                first,
                Axis::Attribute,
                Key::AttributeWord,
                name,
            )
        }
    }
}

fn push_atomic(
    alloc: Global,
    draft: &mut Draft<'_>,
    prefixes: &NamePrefixes,
    first: Gap,
    kind: AtomType,
) -> Result<(), AllocError>
    ensures { OnOk result (draft.new
        ≡ (item_form prefixes.now (item.Atomic kind)).tokens draft.old) }
{
    match type_token(alloc, prefixes, kind)? {
        None => Ok(()),
        Some(token) => draft.push(first, token),
    }
}

fn push_kind_test(
    alloc: Global,
    draft: &mut Draft<'_>,
    prefixes: &NamePrefixes,
    first: Gap,
    test: &Test,
) -> Result<(), AllocError>
    ensures { OnOk result (draft.new
        ≡ (item_form prefixes.now (item.Kind test.now)).tokens draft.old) }
{
    match test {
        Test::Named(_) => Ok(()),
        _ => push_test(alloc, draft, prefixes, first, Axis::Child, test),
    }
}

fn push_item(
    alloc: Global,
    draft: &mut Draft<'_>,
    prefixes: &NamePrefixes,
    first: Gap,
    of: &ItemType,
) -> Result<(), AllocError>
    ensures { OnOk result (draft.new ≡ (item_form prefixes.now of.now).tokens draft.old) }
{
    match of {
        ItemType::Any => push_kind(draft, first, Key::ItemWord),
        ItemType::Kind(test) => push_kind_test(alloc, draft, prefixes, first, test),
        ItemType::Atomic(kind) => push_atomic(alloc, draft, prefixes, first, *kind),
    }
}

fn push_mark(draft: &mut Draft<'_>, count: Count) -> Result<(), AllocError>
    ensures { OnOk result (draft.new ≡ mark_tokens count draft.old) }
{
    match count {
        Count::One => Ok(()),
        Count::Opt => draft.push_key(Gap::Space, Key::Question),
        Count::Many => draft.push_key(Gap::Space, Key::Star),
        Count::More => draft.push_key(Gap::Space, Key::Plus),
    }
}

/// Puts a sequence type.
/// (XPath 2.0, 2.5.3)
pub fn push_type(
    alloc: Global,
    draft: &mut Draft<'_>,
    prefixes: &NamePrefixes,
    kind: &SeqType,
) -> Result<(), AllocError>
    ensures { OnOk result (draft.new ≡ (sequence_form prefixes.now kind.now).tokens draft.old) }
{
    match kind {
        SeqType::Empty => push_kind(draft, Gap::Space, Key::EmptySequenceWord),
        SeqType::Of(of, count) => {
            push_mark(draft, *count)?;
            push_item(alloc, draft, prefixes, Gap::Space, of)
        }
    }
}

/// Puts the type of a cast, with a question mark where the empty sequence is allowed.
/// (XPath 2.0, 3.10.2)
pub fn push_single_type(
    alloc: Global,
    draft: &mut Draft<'_>,
    prefixes: &NamePrefixes,
    kind: AtomType,
    empty: bool,
) -> Result<(), AllocError>
    ensures { OnOk result (draft.new ≡ (single_form prefixes.now kind empty).tokens draft.old) }
{
    match type_token(alloc, prefixes, kind)? {
        None => Ok(()),
        Some(token) => {
            if empty {
                draft.push_key(Gap::Space, Key::Question)?;
            }
            draft.push(Gap::Space, token)
        }
    }
}

/// Puts `as` and a type, where there is one.
/// (XPath 2.0, 2.5.3; XQuery 1.0, 4.14 and 4.15)
pub fn push_typing(
    alloc: Global,
    draft: &mut Draft<'_>,
    prefixes: &NamePrefixes,
    kind: &Option<SeqType>,
) -> Result<(), AllocError>
    ensures { OnOk result (draft.new
        ≡ typing_tokens (typing prefixes.now kind.now) draft.old) }
{
    match kind {
        None => Ok(()),
        Some(kind) => {
            push_type(alloc, draft, prefixes, kind)?;
            draft.push_key(Gap::Space, Key::AsWord)
        }
    }
}

/// The word of an axis.
/// (XPath 2.0, 3.2.1.1)
pub fn axis_key(axis: Axis) -> Key
    ensures { result ≡ axis_key axis }
{
    match axis {
        Axis::Child => Key::ChildWord,
        Axis::Descendant => Key::DescendantWord,
        Axis::Attribute => Key::AttributeWord,
        Axis::Itself => Key::SelfWord,
        Axis::DescendantOrSelf => Key::DescendantOrSelfWord,
        Axis::FollowingSibling => Key::FollowingSiblingWord,
        Axis::Following => Key::FollowingWord,
        Axis::Parent => Key::ParentWord,
        Axis::Ancestor => Key::AncestorWord,
        Axis::PrecedingSibling => Key::PrecedingSiblingWord,
        Axis::Preceding => Key::PrecedingWord,
        Axis::AncestorOrSelf => Key::AncestorOrSelfWord,
    }
}
