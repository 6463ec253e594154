// Modes.
ghost use Rattle.std.specs.Prelude.{◌≡◌, ◌++◌, [], not, map, IfOk};
ghost use Rattle.xt_names.specs.declared.codes.SheetStaticCode.TheVariants.{XTSE0550};
ghost use Rattle.expr_names.specs.Answers.{Answers};
ghost use Rattle.sheet_values.specs.Rules.{broken, each};
ghost use Rattle.sheet_values.specs.Modes.{default_mode, mode_meant, mode_broken, plain_name};
ghost use Rattle.sheet_values.specs.Modes.{modes_differ, modes_in, named_broken, are_all};
ghost use Rattle.sheet_values.specs.Modes.{words_broken, words_meant};
ghost use Rattle.sheet_values.specs.Modes.{mode_list_faults, mode_list_value};
ghost use Rattle.sheet_values.specs.Modes.{word_broken, word_meant, one_broken, one_meant};
ghost use Rattle.sheet_values.specs.Modes.{mode_choice_faults, mode_choice_value};

use crate::faults::{refuse_if, sheet_fault};
use crate::names::declared_name;
use bound_prefixes::BoundPrefixes;
use expr_names::{ResolveFault, names_differ, no_text};
use query_options::words_of;
use std::alloc::{AllocError, Global};
use xt_names::{ExprName, List, Name, SheetStaticCode, Text, is_ascii_text};

/// The modes of a template (XSLT 2.0, 6.5).
#[derive(Drop)]
pub enum Modes {
    /// `#all`.
    All,
    /// These, in the order in which they are written; the default mode is the name of no characters.
    Names(List<ExprName>),
}

/// The mode in which templates are applied (XSLT 2.0, 6.5).
#[derive(Drop)]
pub enum ModeChoice {
    /// `#current`.
    Current,
    /// This one; the default mode is the name of no characters.
    Named(ExprName),
}

/// The name of no characters, which stands for the default mode (XSLT 2.0, 6.5).
pub fn default_mode(alloc: Global) -> Result<ExprName, AllocError>
    ensures { IfOk result (λ name. name ≡ default_mode) }
{
    let uri = no_text(alloc)?;
    let local = no_text(alloc)?;
    Ok(ExprName { uri, local })
}

fn mode_named(
    alloc: Global,
    bound: &BoundPrefixes,
    word: &Text,
    code: SheetStaticCode,
) -> Result<ExprName, ResolveFault>
    ensures { Answers result (mode_broken code bound.now word.now)
        (mode_meant bound.now word.now) }
{
    if is_ascii_text(word.as_str(), "#default") {
        let name = default_mode(alloc)?;
        return Ok(name);
    }
    declared_name(alloc, bound, word, code)
}

fn mode_names(
    alloc: Global,
    bound: &BoundPrefixes,
    words: &[Text],
) -> Result<List<ExprName>, ResolveFault>
    ensures { Answers result (each (mode_broken XTSE0550 bound.now) words.now)
        (modes_in bound.now words.now) }
{
    let mut made = List::new(alloc);
    let mut left = words;
    while let [word, rest @ ..] = left {
        made.push(mode_named(alloc, bound, word, SheetStaticCode::XTSE0550)?)?;
        left = rest;
    }
    Ok(made)
}

fn plain_name(alloc: Global, name: &ExprName) -> Result<Name, AllocError>
    ensures { IfOk result (λ plain. plain ≡ plain_name name.now) }
{
    let prefix = no_text(alloc)?;
    let uri = name.uri.copy()?;
    let local = name.local.copy()?;
    Ok(Name { prefix, uri, local })
}

fn plain_names(alloc: Global, names: &[ExprName]) -> Result<List<Name>, AllocError>
    ensures { IfOk result (λ plain. plain ≡ map plain_name names.now) }
{
    let mut made = List::new(alloc);
    let mut left = names;
    while let [name, rest @ ..] = left {
        made.push(plain_name(alloc, name)?)?;
        left = rest;
    }
    Ok(made)
}

fn modes_differ(alloc: Global, names: &[ExprName]) -> Result<bool, AllocError>
    ensures { IfOk result (λ differ. differ ≡ modes_differ names.now) }
{
    let plain = plain_names(alloc, names)?;
    names_differ(alloc, plain.as_slice())
}

fn check_differ(alloc: Global, names: &[ExprName]) -> Result<(), ResolveFault>
    ensures { Answers result (broken XTSE0550 (not (modes_differ names.now))) tt }
{
    let differ = modes_differ(alloc, names)?;
    refuse_if(SheetStaticCode::XTSE0550, !differ)
}

fn named_modes(
    alloc: Global,
    bound: &BoundPrefixes,
    words: &[Text],
) -> Result<List<ExprName>, ResolveFault>
    ensures { Answers result (named_broken bound.now words.now) (modes_in bound.now words.now) }
{
    let names = mode_names(alloc, bound, words)?;
    check_differ(alloc, names.as_slice())?;
    Ok(names)
}

fn are_all(words: &[Text]) -> bool
    ensures { result ≡ are_all words.now }
{
    match words {
        [word] => is_ascii_text(word.as_str(), "#all"),
        _ => false,
    }
}

fn modes_of(alloc: Global, bound: &BoundPrefixes, words: &[Text]) -> Result<Modes, ResolveFault>
    ensures { Answers result (words_broken bound.now words.now)
        (words_meant bound.now words.now) }
{
    if words.is_empty() {
        return Err(sheet_fault(SheetStaticCode::XTSE0550));
    }
    if are_all(words) {
        return Ok(Modes::All);
    }
    let names = named_modes(alloc, bound, words)?;
    Ok(Modes::Names(names))
}

/// The modes that the text lists (XSLT 2.0, 6.5). XTSE0550 where it lists none, where a word is
/// neither `#default` nor a QName (`#all` stands alone), or where two words mean one mode;
/// XTSE0280 where a prefix is not declared, and XTSE0080 where a mode is in a reserved namespace.
pub fn mode_list(alloc: Global, bound: &BoundPrefixes, text: &Text) -> Result<Modes, ResolveFault>
    ensures { Answers result (mode_list_faults bound.now text.now)
        (mode_list_value bound.now text.now) }
{
    let words = words_of(alloc, text.as_str())?;
    modes_of(alloc, bound, words.as_slice())
}

fn word_choice(
    alloc: Global,
    bound: &BoundPrefixes,
    word: &Text,
) -> Result<ModeChoice, ResolveFault>
    ensures { Answers result (word_broken bound.now word.now) (word_meant bound.now word.now) }
{
    if is_ascii_text(word.as_str(), "#current") {
        return Ok(ModeChoice::Current);
    }
    let name = mode_named(alloc, bound, word, SheetStaticCode::XTSE0020)?;
    Ok(ModeChoice::Named(name))
}

fn one_choice(
    alloc: Global,
    bound: &BoundPrefixes,
    words: &[Text],
) -> Result<ModeChoice, ResolveFault>
    ensures { Answers result (one_broken bound.now words.now) (one_meant bound.now words.now) }
{
    match words {
        [word] => word_choice(alloc, bound, word),
        _ => Err(sheet_fault(SheetStaticCode::XTSE0020)),
    }
}

/// The mode of xsl:apply-templates (XSLT 2.0, 6.3 and 6.5), which may have white space around it.
/// XTSE0020 where it is neither `#current` nor `#default` nor a QName, XTSE0280 where its prefix
/// is not declared, and XTSE0080 where it is in a reserved namespace.
pub fn mode_choice(
    alloc: Global,
    bound: &BoundPrefixes,
    text: &Text,
) -> Result<ModeChoice, ResolveFault>
    ensures { Answers result (mode_choice_faults bound.now text.now)
        (mode_choice_value bound.now text.now) }
{
    let words = words_of(alloc, text.as_str())?;
    one_choice(alloc, bound, words.as_slice())
}
