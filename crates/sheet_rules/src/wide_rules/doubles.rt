// Declarations that stand twice at one precedence.
ghost use Rattle.std.specs.Prelude.{◌≡◌, ◌++◌, IfOk, OnOk};
ghost use Rattle.sheet_rules.specs.SheetDeclarations.Counts.{declared_by, template_of};
ghost use Rattle.sheet_rules.specs.WideRules.Doubles.{has_declared, with_declared, with_double, doubles_of};
ghost use Rattle.sheet_rules.specs.WideRules.Doubles.{double_codes, code_if};

use crate::sheet_declarations::Declaration;
use crate::wide_rules::placed::PlacedSet;
use sheet_modules::{Part, TemplatePart};
use std::alloc::{AllocError, Global};
use xt_names::{Code, List, SheetStaticCode};

/// What is declared later.
#[derive(Drop)]
pub(crate) struct Seen {
    globals: PlacedSet,
    functions: PlacedSet,
    templates: PlacedSet,
}

/// Of which kinds something stands twice at one precedence.
#[derive(Clone, Copy)]
pub(crate) struct Doubles {
    globals: bool,
    functions: bool,
    templates: bool,
}

/// Puts after the codes XTSE0630, where two global variables or parameters of one name stand at
/// one import precedence (XSLT 2.0, 9.5), then XTSE0660, where two templates of one name do
/// (10.1), then XTSE0770, where two functions of one name and one number of parameters do (10.3).
pub fn push_doubles<E, P>(
    alloc: Global,
    declarations: &[Declaration<E, P>],
    codes: &mut List<Code>,
) -> Result<(), AllocError>
    ensures { OnOk result (codes.new ≡ codes.old ++ double_codes (doubles_of declarations.now)) }
{
    let doubles = doubles_of(alloc, declarations)?;
    push_if(codes, doubles.globals, SheetStaticCode::XTSE0630)?;
    push_if(codes, doubles.templates, SheetStaticCode::XTSE0660)?;
    push_if(codes, doubles.functions, SheetStaticCode::XTSE0770)
}

/// Puts the code after the others where its rule is broken.
pub(crate) fn push_if(
    codes: &mut List<Code>,
    broken: bool,
    code: SheetStaticCode,
) -> Result<(), AllocError>
    ensures { OnOk result (codes.new ≡ codes.old ++ code_if broken code) }
{
    if broken {
        codes.push(Code::SheetStatic(code))?;
    }
    Ok(())
}

fn doubles_of<E, P>(
    alloc: Global,
    declarations: &[Declaration<E, P>],
) -> Result<Doubles, AllocError>
    ensures { IfOk result (λ doubles. doubles ≡ doubles_of declarations.now) }
{
    let mut seen = Seen {
        globals: PlacedSet::new(alloc),
        functions: PlacedSet::new(alloc),
        templates: PlacedSet::new(alloc),
    };
    let mut doubles = Doubles {
        globals: false,
        functions: false,
        templates: false,
    };
    let mut left = declarations.len();
    while left > 0 {
        left -= 1;
        doubles = see(&mut seen, doubles, &declarations[left])?;
    }
    Ok(doubles)
}

/// Adds what is declared, and gives what stands twice then.
fn see<E, P>(
    seen: &mut Seen,
    doubles: Doubles,
    one: &Declaration<E, P>,
) -> Result<Doubles, AllocError>
    ensures doubles { IfOk result (λ more. more ≡ with_double doubles (declared_by one.now.part)
        (has_declared seen.old (declared_by one.now.part) one.now.level)) }
    ensures seen { OnOk result (seen.new
        ≡ with_declared seen.old (declared_by one.now.part) one.now.level) }
{
    let level = one.level;
    match one.part.get() {
        Part::Global(global) => {
            let again = seen.globals.stood(level, &global.bound.name, 0)?;
            let globals = doubles.globals || again;
            Ok(Doubles { globals, ..doubles })
        }
        Part::Function(function) => {
            let arity = function.params.len();
            let again = seen.functions.stood(level, &function.name, arity)?;
            let functions = doubles.functions || again;
            Ok(Doubles {
                functions,
                ..doubles
            })
        }
        Part::Template(template, _) => see_template(seen, doubles, level, template),
        Part::Key(_) => Ok(doubles),
        Part::Space(_) => Ok(doubles),
        Part::Output(_) => Ok(doubles),
        Part::Ignored => Ok(doubles),
        Part::Linked => Ok(doubles),
    }
}

fn see_template<E, P>(
    seen: &mut Seen,
    doubles: Doubles,
    level: u32,
    template: &TemplatePart<E, P>,
) -> Result<Doubles, AllocError>
    ensures doubles { IfOk result (λ more. more ≡ with_double doubles (template_of template.now.name)
        (has_declared seen.old (template_of template.now.name) level)) }
    ensures seen { OnOk result (seen.new
        ≡ with_declared seen.old (template_of template.now.name) level) }
{
    match &template.name {
        Some(name) => {
            let again = seen.templates.stood(level, name, 0)?;
            let templates = doubles.templates || again;
            Ok(Doubles {
                templates,
                ..doubles
            })
        }
        None => Ok(doubles),
    }
}
