// Which declarations count.
ghost use Rattle.std.specs.Prelude.{◌≡◌, ◌≤◌, length, reverse, not, IfOk, OnOk};
ghost use Rattle.sheet_rules.specs.SheetDeclarations.Counts.{declared_by, template_of, has_declared, with_declared};
ghost use Rattle.sheet_rules.specs.SheetDeclarations.Counts.{counted_of};

use crate::sheet_declarations::lists::Declaration;
use name_rules::Functions;
use sheet_modules::{Part, TemplatePart};
use std::alloc::{AllocError, Global};
use xt_names::ExprName;

/// The names of what is declared later.
#[derive(Drop)]
pub(crate) struct Seen {
    globals: Functions,
    functions: Functions,
    templates: Functions,
}

/// For each declaration, in order, whether it counts: whether none further behind replaces it. A
/// global variable or parameter is replaced by one of its name, a function by one of its name and its
/// number of parameters, and a named template by one of its name (XSLT 2.0, 9.5, 10.1 and 10.3).
pub fn counted<E, P>(
    alloc: Global,
    declarations: &[Declaration<E, P>],
) -> Result<Vec<bool>, AllocError>
    ensures { IfOk result (λ marks. marks.items ≡ counted_of declarations.now) }
{
    let mut marks = Vec::new(alloc);
    let mut seen = Seen {
        globals: Functions::new(alloc),
        functions: Functions::new(alloc),
        templates: Functions::new(alloc),
    };
    let mut left = declarations.len();
    while left > 0 {
        left -= 1;
        let new = see(&mut seen, &declarations[left])?;
        marks.push(new)?;
    }
    marks.reverse();
    Ok(marks)
}

/// Adds what is declared, and tells whether it was not there.
fn see<E, P>(seen: &mut Seen, one: &Declaration<E, P>) -> Result<bool, AllocError>
    ensures new { IfOk result (λ new. new ≡ not (has_declared seen.old (declared_by one.now.part))) }
    ensures seen { OnOk result (seen.new ≡ with_declared seen.old (declared_by one.now.part)) }
{
    match one.part.get() {
        Part::Global(global) => seen.globals.declare(&global.bound.name, 0),
        Part::Function(function) => {
            let arity = function.params.len();
            seen.functions.declare(&function.name, arity)
        }
        Part::Template(template, _) => see_template(seen, template),
        Part::Key(_) => Ok(true),
        Part::Space(_) => Ok(true),
        Part::Output(_) => Ok(true),
        Part::Ignored => Ok(true),
        Part::Linked => Ok(true),
    }
}

fn see_template<E, P>(seen: &mut Seen, template: &TemplatePart<E, P>) -> Result<bool, AllocError>
    ensures new { IfOk result (λ new. new ≡ not (has_declared seen.old (template_of template.now.name))) }
    ensures seen { OnOk result (seen.new ≡ with_declared seen.old (template_of template.now.name)) }
{
    match &template.name {
        Some(name) => seen.templates.declare(name, 0),
        None => Ok(true),
    }
}
