// How deep the instructions of a stylesheet nest.
ghost use Rattle.std.specs.Prelude.{◌≡◌, min, map};
ghost use Rattle.xt_names.specs.Lists.{greatest};
ghost use Rattle.closed_sheets.specs.SheetForms.SheetNest.{global_nest_of, template_nest_of, function_nest_of, sheet_nest_of};

use crate::sheet_forms::nesting::{nest_body, nest_bound, nest_bounds};
use xt_sheets::{Global, Sheet, SheetFunction, Template};

/// How many levels the instructions of the stylesheet have at most, or the greatest number where it is more: those in the
/// content of its global variables and parameters, of its templates and functions, and of their parameters.
pub fn nest_sheet(sheet: &Sheet) -> u32
    ensures { result ≡ min (sheet_nest_of sheet.now) u32.MAX }
{
    nest_globals(sheet.globals.as_slice()).max(nest_templates(sheet.templates.as_slice()).max(
        nest_functions(sheet.functions.as_slice()),
    ))
}

fn nest_globals(all: &[Global]) -> u32
    ensures { result ≡ min (greatest (map global_nest_of all.now)) u32.MAX }
{
    let mut most: u32 = 0;
    for global in all {
        most = most.max(nest_bound(&global.bound));
    }
    most
}

fn nest_templates(all: &[Template]) -> u32
    ensures { result ≡ min (greatest (map template_nest_of all.now)) u32.MAX }
{
    let mut most: u32 = 0;
    for template in all {
        most = most.max(nest_bounds(template.params.as_slice()).max(nest_body(
            template.body.as_slice(),
        )));
    }
    most
}

fn nest_functions(all: &[SheetFunction]) -> u32
    ensures { result ≡ min (greatest (map function_nest_of all.now)) u32.MAX }
{
    let mut most: u32 = 0;
    for function in all {
        most = most.max(nest_bounds(function.params.as_slice()).max(nest_body(
            function.body.as_slice(),
        )));
    }
    most
}
