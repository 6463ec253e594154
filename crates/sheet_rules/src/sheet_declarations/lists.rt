// The declarations of all modules in one list.
ghost use Rattle.std.specs.Prelude.{◌≡◌, ◌<◌, ◌+◌, ◌++◌, ◌^◌, map, length, drop, slice_get, OnOk, IfOk};
ghost use Rattle.sheet_rules.specs.SheetDeclarations.Declarations.{declared, before, piece, piece_in, pieces, declarations_from, declarations_of};

use sheet_modules::Part;
use sheet_modules::sheet_levels::{SheetLevel, Span};
use std::alloc::{AllocError, Global};
use xt_names::{List, Shared};

/// A declaration of a stylesheet.
#[derive(Drop)]
pub struct Declaration<E, P> {
    /// The import precedence of its level, from 1.
    pub level: u32,
    /// What is declared, which it shares with its module.
    pub part: Shared<Part<E, P>>,
}

/// The declarations of these levels, the one of the lowest precedence first, and within a level in
/// declaration order (XSLT 2.0, 3.10.3). The modules are given in the order of loading, each by what
/// the children of its root declare.
pub fn declarations<E: Drop, P: Drop>(
    alloc: Global,
    levels: &[SheetLevel],
    modules: &[List<Shared<Part<E, P>>>],
) -> Result<List<Declaration<E, P>>, AllocError>
    requires { length levels.now + 1 < 2 ^ 32 }
    ensures { IfOk result (λ all. all ≡ declarations_of modules.now levels.now) }
{
    let mut all = List::new(alloc);
    let mut left = levels;
    let mut level: u32 = 1;
    while let [first, rest @ ..] = left {
        push_spans(&mut all, level, modules, first.spans.as_slice())?;
        left = rest;
        level = level.saturating_add(1);
    }
    Ok(all)
}

/// Puts the declarations in these pieces at the end.
fn push_spans<E: Drop, P: Drop>(
    all: &mut List<Declaration<E, P>>,
    level: u32,
    modules: &[List<Shared<Part<E, P>>>],
    spans: &[Span],
) -> Result<(), AllocError>
    ensures { OnOk result (all.new ≡ all.old ++ map (declared level) (pieces modules.now spans.now)) }
{
    let mut left = spans;
    while let [span, rest @ ..] = left {
        push_span(all, level, modules, span)?;
        left = rest;
    }
    Ok(())
}

fn push_span<E: Drop, P: Drop>(
    all: &mut List<Declaration<E, P>>,
    level: u32,
    modules: &[List<Shared<Part<E, P>>>],
    span: &Span,
) -> Result<(), AllocError>
    ensures { OnOk result (all.new ≡ all.old
        ++ map (declared level) (piece_in span.now (slice_get modules.now span.now.place))) }
{
    match modules.get(span.place) {
        Some(parts) => push_parts(all, level, piece(parts.as_slice(), span)),
        None => Ok(()),
    }
}

/// The children in the piece.
fn piece<'a, E, P>(parts: &'a [Shared<Part<E, P>>], span: &Span) -> &'a [Shared<Part<E, P>>]
    ensures { result.now ≡ piece span.now parts.now }
{
    behind(before(parts, span.to), span.from)
}

/// The children before this one, or all.
#[tactic(auto, using(std::proofs::lemmas::List::take_all))]
fn before<E, P>(parts: &[Shared<Part<E, P>>], to: Option<u32>) -> &[Shared<Part<E, P>>]
    ensures { result.now ≡ before to parts.now }
{
    match to {
        Some(to) => {
            let to = to as usize;
            if to < parts.len() {
                &parts[..to]
            } else {
                parts
            }
        }
        None => parts,
    }
}

/// The children from this one on.
#[tactic(auto, using(crate::proofs::SheetDeclarations::Pieces::all_dropped))]
fn behind<E, P>(parts: &[Shared<Part<E, P>>], from: u32) -> &[Shared<Part<E, P>>]
    ensures { result.now ≡ drop from parts.now }
{
    let from = from as usize;
    if from < parts.len() {
        &parts[from..]
    } else {
        &[]
    }
}

fn push_parts<E: Drop, P: Drop>(
    all: &mut List<Declaration<E, P>>,
    level: u32,
    parts: &[Shared<Part<E, P>>],
) -> Result<(), AllocError>
    ensures { OnOk result (all.new ≡ all.old ++ map (declared level) parts.now) }
{
    for part in parts {
        let part = part.copy()?;
        all.push(Declaration { level, part })?;
    }
    Ok(())
}
