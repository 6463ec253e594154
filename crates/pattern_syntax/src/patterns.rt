// From a text to the alternatives of its pattern.
ghost use Rattle.std.specs.Prelude.{◌≡◌, ◌∷◌, ◌&&◌, [], map, if◌then◌else◌, List as Items, ℕ, true};
ghost use Rattle.std.specs.List.{list_all};
ghost use Rattle.std.specs.Str.{chars};
ghost use Rattle.xt_names.specs.declared.codes.Code.{Code};
ghost use Rattle.xt_names.specs.declared.codes.Code.TheVariants.{SheetStatic};
ghost use Rattle.xt_names.specs.declared.codes.SheetStaticCode.TheVariants.{XTUN0001};
ghost use Rattle.expr_terms.specs.declared.raws.Raw.{Raw};
ghost use Rattle.xt_syntax.specs.declared.prefixes.ParseFault.TheVariants.{Static};
ghost use Rattle.expr_tokens.specs.Terms.{written, terms_of};
ghost use Rattle.expr_names.specs.Answers.{Answers};
ghost use Rattle.expr_resolve.specs.declared.setting.Setting.{Setting};
ghost use Rattle.pattern_syntax.specs.Meant.{patterns_of, have_allowed};
ghost use Rattle.pattern_syntax.specs.Readings.{Gives, GivesText, resolved, shaped, rules_broken};
ghost use Rattle.pattern_syntax.specs.Readings.{reading_of, reading_in, reading_tokens};
ghost use Rattle.pattern_syntax.specs.Readings.{begins_with_key, is_key_text, is_open_text};
ghost use Rattle.pattern_syntax.specs.Readings.{Answer, keyed};
ghost use Rattle.pattern_syntax.specs.Names.{is_lone_test};
ghost use Rattle.pattern_syntax.specs.Spelled.{Parsed};

use crate::alternatives::{are_allowed, patterns};
use crate::names::{is_lone_test, lone_raw, parse_name};
use crate::tests_of_steps::has_pattern_tests;
use expr_names::ResolveFault;
use expr_reader::{Reading, parse_as_pattern};
use expr_resolve::Setting;
use expr_terms::{Language, Raw, Token as Term};
use expr_tokens::terms;
use pattern_forms::pattern_shapes::is_pattern;
use std::alloc::Global;
use xpath_lex::{LexFault, Token, TokenKind, tokens};
use xt_names::{Code, List, SheetStaticCode, is_ascii_text, is_ncname};
use xt_syntax::{ParseFault, Pattern};

/// How deep the predicates of a pattern may nest.
pub const LIMIT: u16 = 40;

fn is_key_text(kind: TokenKind, text: &str) -> bool
    ensures { result ≡ is_key_text kind (chars text.now) }
{
    match kind {
        TokenKind::Word => is_ascii_text(text, "key") || is_ascii_text(text, "id"),
        _ => false,
    }
}

fn is_open_text(kind: TokenKind, text: &str) -> bool
    ensures { result ≡ is_open_text kind (chars text.now) }
{
    match kind {
        TokenKind::Symbol => is_ascii_text(text, "("),
        _ => false,
    }
}

/// Whether the tokens begin with `key` or `id`, and then `(`.
fn begins_with_key(tokens: &[Token<'_>]) -> bool
    ensures { result ≡ begins_with_key (map written tokens.now) }
{
    match tokens {
        [first, second, ..] => {
            is_key_text(first.kind, first.text) && is_open_text(second.kind, second.text)
        }
        _ => false,
    }
}

/// XTUN0001 where a test or a predicate is one that patterns have not.
fn judged(all: List<Pattern>, has_tests: bool) -> Result<List<Pattern>, ResolveFault>
    ensures { Answers result
        (if has_tests && list_all have_allowed all then [] else SheetStatic XTUN0001 ∷ []) all }
{
    if has_tests && are_allowed(all.as_slice()) {
        return Ok(all);
    }
    drop(all);
    Err(ResolveFault::Static(Code::SheetStatic(SheetStaticCode::XTUN0001)))
}

/// The alternatives that the raw value means, or the code of the first rule that it breaks.
fn ruled(alloc: Global, s: &Setting, raw: &Raw) -> Result<List<Pattern>, ResolveFault>
    ensures { Answers result (rules_broken s.now raw.now) (patterns_of s.now raw.now) }
{
    match patterns(alloc, s, raw) {
        Err(fault) => Err(fault),
        Ok(all) => judged(all, has_pattern_tests(raw)),
    }
}

fn as_parsed(found: Result<List<Pattern>, ResolveFault>) -> Result<List<Pattern>, ParseFault>
    ensures { (s : Setting) (raw : Raw) → Answers found (rules_broken s raw) (patterns_of s raw)
        → Gives result (resolved s raw) }
{
    match found {
        Ok(all) => Ok(all),
        Err(ResolveFault::Static(code)) => Err(ParseFault::Static(code)),
        Err(ResolveFault::Memory(e)) => Err(ParseFault::Memory(e)),
    }
}

/// What the raw value means, where it has the shape of a pattern.
fn meant(alloc: Global, s: &Setting, raw: Raw) -> Result<List<Pattern>, ParseFault>
    ensures { Gives result (shaped s.now raw) }
{
    if !is_pattern(&raw) {
        drop(raw);
        return Err(ParseFault::Static(Code::SheetStatic(SheetStaticCode::XTSE0340)));
    }
    let found = ruled(alloc, s, &raw);
    drop(raw);
    as_parsed(found)
}

/// What one test of names is read as: a step.
fn read_test(alloc: Global, s: &Setting, terms: Vec<Term>) -> Result<List<Pattern>, ParseFault>
    requires { is_lone_test terms.items ≡ true }
    ensures { (limit : ℕ) → Gives result (reading_of s.now limit terms.items) }
{
    match lone_raw(alloc, terms) {
        Err(e) => Err(ParseFault::Memory(e)),
        Ok(raw) => meant(alloc, s, raw),
    }
}

/// What the tokens of the grammar are read as.
fn read(
    alloc: Global,
    s: &Setting,
    limit: u16,
    terms: Vec<Term>,
) -> Result<List<Pattern>, ParseFault>
    ensures { Gives result (reading_of s.now limit terms.items) }
{
    if is_lone_test(terms.as_slice()) {
        return read_test(alloc, s, terms);
    }
    let found = parse_as_pattern(alloc, Language::Xpath, terms.as_slice(), limit);
    drop(terms);
    match found {
        Err(e) => Err(ParseFault::Memory(e)),
        Ok(Reading::Nothing) => Err(ParseFault::Syntax),
        Ok(Reading::TooDeep) => Err(ParseFault::TooDeep),
        Ok(Reading::Value(raw)) => meant(alloc, s, raw),
    }
}

/// What the tokens of a text are read as, whatever they begin with.
#[tactic(auto, using(crate::proofs::ReadingLemmas::reads))]
fn read_terms(
    alloc: Global,
    s: &Setting,
    limit: u16,
    tokens: &[Token<'_>],
) -> Result<List<Pattern>, ParseFault>
    ensures { Gives result (reading_in s.now limit (terms_of (map written tokens.now))) }
{
    match terms(alloc, tokens) {
        Err(e) => Err(ParseFault::Memory(e)),
        Ok(None) => Err(ParseFault::Syntax),
        Ok(Some(terms)) => read(alloc, s, limit, terms),
    }
}

fn key_fault() -> ParseFault
    ensures { result ≡ Static (SheetStatic XTUN0001) }
{
    ParseFault::Static(Code::SheetStatic(SheetStaticCode::XTUN0001))
}

/// XTUN0001 in place of what an expression gives that begins with `key(` or `id(`.
fn keyed(found: Result<List<Pattern>, ParseFault>) -> Result<List<Pattern>, ParseFault>
    ensures { (a : Answer) → Gives found a → Gives result (keyed a) }
{
    match found {
        Ok(all) => {
            drop(all);
            Err(key_fault())
        }
        Err(ParseFault::Static(_)) => Err(key_fault()),
        Err(ParseFault::TooDeep) => Err(key_fault()),
        Err(ParseFault::Syntax) => Err(ParseFault::Syntax),
        Err(ParseFault::Memory(e)) => Err(ParseFault::Memory(e)),
    }
}

/// What the tokens of a text are read as.
fn read_tokens(
    alloc: Global,
    s: &Setting,
    limit: u16,
    tokens: &[Token<'_>],
) -> Result<List<Pattern>, ParseFault>
    ensures { Gives result (reading_tokens s.now limit (map written tokens.now)) }
{
    let found = read_terms(alloc, s, limit, tokens);
    if begins_with_key(tokens) {
        keyed(found)
    } else {
        found
    }
}

/// What the text is read as within the limit.
#[tactic(auto, using(crate::proofs::ReadingLemmas::texts))]
fn parse_within(
    alloc: Global,
    text: &str,
    setting: &Setting,
    limit: u16,
) -> Result<List<Pattern>, ParseFault>
    ensures { GivesText result setting.now limit text.now }
{
    if is_ncname(text) {
        return parse_name(alloc, text, setting);
    }
    match tokens(alloc, text) {
        Err(LexFault::Memory(e)) => Err(ParseFault::Memory(e)),
        Err(LexFault::BadToken(_)) => Err(ParseFault::Syntax),
        Ok(found) => {
            let read = read_tokens(alloc, setting, limit, found.as_slice());
            drop(found);
            read
        }
    }
}

/// The alternatives of the pattern that the text spells, in order, as prefixes and names without
/// prefix are resolved here (XSLT 2.0, 5.5.2).
///
/// Where it spells none, the cause is the first of these: `Syntax` where it spells no expression;
/// `Static(XTUN0001)` where its first tokens are `key` or `id` and then `(`; `TooDeep` where what it
/// spells nests deeper than 40 levels, of which a pattern has as many as the deepest of its predicates
/// (there are as many tokens at least); `Static(XTSE0340)` where that has not the shape of a pattern;
/// `Static` with the code of the first static rule of expressions that it breaks; and
/// `Static(XTUN0001)` where a test or a predicate is one that patterns have not.
#[tactic(auto, using(crate::proofs::ReadingLemmas::answers))]
pub fn parse_pattern(
    alloc: Global,
    text: &str,
    setting: &Setting,
) -> Result<List<Pattern>, ParseFault>
    ensures spelled { Parsed result setting.now LIMIT text.now }
    ensures value { GivesText result setting.now LIMIT text.now }
{
    parse_within(alloc, text, setting, LIMIT)
}
