// The whole stylesheet, from declarations whose texts are read.
ghost use Rattle.std.specs.Prelude.{◌≡◌, ◌++◌, ◌<◌, ◌^◌, length, map, take, IfOk, OnOk, List as Items};
ghost use Rattle.std.specs.List.{range_with_len};
ghost use Rattle.xt_names.specs.declared.codes.Code.{Code};
ghost use Rattle.xt_names.specs.declared.codes.SheetStaticCode.TheVariants.{XTDE0640};
ghost use Rattle.expr_names.specs.Answers.{Answers};
ghost use Rattle.sheet_rules.specs.WideRules.Doubles.{code_if};
ghost use Rattle.sheet_rules.specs.WideRules.First.{first_wide};
ghost use Rattle.loaded_sheets.specs.Wholes.{declared_sheet, evaluation_order, is_circular, parameters_in, called_parameters, wide_broken, as_faults, wide_faults, with_order, in_order};

use expr_names::ResolveFault;
use global_needs::needed_order;
use sheet_assembly::{assemble, ordered};
use sheet_modules::sheet_levels::SheetLevel;
use sheet_rules::push_broken_rules;
use sheet_rules::sheet_declarations::Declaration;
use sheet_rules::wide_rules::{Parameters, first_wide, parameters_of};
use sheet_values::sheet_texts::NameTable;
use std::alloc::{AllocError, Global};
use std::mem::replace;
use xt_names::{Code, List, SheetStaticCode};
use xt_sheets::{Sheet, Template};
use xt_syntax::{Expr, Pattern};

/// The stylesheet of these declarations, which stand in order of precedence, with its globals in
/// the order in which they are evaluated (XSLT 2.0, 3.10.3 and 9.5). `modes` and `called` are the
/// modes, and the templates that are called, whose numbers stand in the declarations.
///
/// Where the declarations break rules together, the code is the first of XPST0008, XPST0017,
/// XTSE0630, XTSE0650, XTSE0660, XTSE0680, XTSE0690, XTSE0770, XTDE0640, XTDE1260, XTUN0001 and
/// XTSE1560 whose rule is broken. More than 2^32-1 modes, or templates that are called, are too
/// many for the memory.
pub fn whole_sheet(
    alloc: Global,
    declarations: &[Declaration<Expr, Pattern>],
    modes: &NameTable,
    called: &NameTable,
    levels: &[SheetLevel],
) -> Result<Sheet, ResolveFault>
    requires { length levels.now < 2 ^ 32 }
    ensures { Answers result
        (wide_faults declarations.now called.now
        (declared_sheet declarations.now modes.now called.now levels.now))
        (in_order (declared_sheet declarations.now modes.now called.now levels.now)) }
{
    let sheet = declared_sheet(alloc, declarations, modes, called, levels)?;
    let order = check_whole(alloc, declarations, called, &sheet);
    finished(alloc, sheet, order)
}

/// Refuses more than the numbers of 32 bits tell apart.
fn check_few(count: usize) -> Result<(), AllocError>
    ensures { OnOk result (count < 2 ^ 32) }
{
    if count > 4_294_967_295 {
        return Err(AllocError);
    }
    Ok(())
}

/// All places before this one.
#[tactic(auto, using(xt_names::proofs::ListLemmas::number_more))]
fn all_places(alloc: Global, count: usize) -> Result<List<usize>, AllocError>
    ensures { IfOk result (λ places. places ≡ range_with_len 0 count) }
{
    let mut made = List::new(alloc);
    for place in 0..count {
        made.push(place)?;
    }
    Ok(made)
}

/// The stylesheet with its globals in declaration order.
#[tactic(auto, unfolding(crate::specs::Wholes::declared_sheet))]
fn declared_sheet(
    alloc: Global,
    declarations: &[Declaration<Expr, Pattern>],
    modes: &NameTable,
    called: &NameTable,
    levels: &[SheetLevel],
) -> Result<Sheet, AllocError>
    requires { length levels.now < 2 ^ 32 }
    ensures { IfOk result (λ sheet. sheet
        ≡ declared_sheet declarations.now modes.now called.now levels.now) }
{
    check_few(modes.as_slice().len())?;
    check_few(called.as_slice().len())?;
    let places = all_places(alloc, declarations.len())?;
    assemble(
        alloc,
        declarations,
        modes,
        called,
        levels,
        places.as_slice(),
    )
}

/// The order in which the globals are evaluated, where no rule is broken.
#[tactic(auto, unfolding(crate::specs::Wholes::wide_faults, crate::specs::Wholes::is_circular))]
fn check_whole(
    alloc: Global,
    declarations: &[Declaration<Expr, Pattern>],
    called: &NameTable,
    sheet: &Sheet,
) -> Result<List<usize>, ResolveFault>
    ensures { Answers result (wide_faults declarations.now called.now sheet.now)
        (evaluation_order sheet.now) }
{
    let order = evaluation_order(alloc, sheet)?;
    let circular = order.len() < sheet.globals.len();
    let codes = wide_broken(alloc, declarations, called, sheet, circular)?;
    refuse_first(codes.as_slice())?;
    Ok(order)
}

#[tactic(auto, unfolding(crate::specs::Wholes::evaluation_order))]
fn evaluation_order(alloc: Global, sheet: &Sheet) -> Result<List<usize>, AllocError>
    ensures { IfOk result (λ order. order ≡ evaluation_order sheet.now) }
{
    needed_order(alloc, sheet)
}

/// The codes of all rules that the declarations break together.
#[tactic(auto, unfolding(crate::specs::Wholes::wide_broken))]
fn wide_broken(
    alloc: Global,
    declarations: &[Declaration<Expr, Pattern>],
    called: &NameTable,
    sheet: &Sheet,
    circular: bool,
) -> Result<List<Code>, AllocError>
    requires { circular ≡ is_circular sheet.now }
    ensures { IfOk result (λ codes. codes ≡ wide_broken declarations.now called.now sheet.now) }
{
    let mut codes = List::new(alloc);
    let names = called.as_slice();
    let templates = called_parameters(alloc, names.len(), sheet.templates.as_slice())?;
    push_broken_rules(alloc, declarations, names, templates.as_slice(), &mut codes)?;
    push_circle(&mut codes, circular)?;
    Ok(codes)
}

/// Puts XTDE0640 after the codes, where globals depend on one another in a circle.
fn push_circle(codes: &mut List<Code>, circular: bool) -> Result<(), AllocError>
    ensures { OnOk result (codes.new ≡ codes.old ++ code_if circular XTDE0640) }
{
    if circular {
        codes.push(Code::SheetStatic(SheetStaticCode::XTDE0640))?;
    }
    Ok(())
}

/// The templates before this place.
#[tactic(auto, using(std::proofs::lemmas::List::take_all))]
fn front(templates: &[Template], count: usize) -> &[Template]
    ensures { result.now ≡ take count templates.now }
{
    if count < templates.len() {
        &templates[..count]
    } else {
        templates
    }
}

/// The parameters of the templates that are called.
fn called_parameters(
    alloc: Global,
    count: usize,
    templates: &[Template],
) -> Result<List<Parameters>, AllocError>
    ensures { IfOk result (λ all. all ≡ called_parameters count templates.now) }
{
    each_parameters(alloc, front(templates, count))
}

fn each_parameters(alloc: Global, templates: &[Template]) -> Result<List<Parameters>, AllocError>
    ensures { IfOk result (λ all. all ≡ map parameters_in templates.now) }
{
    let mut made = List::new(alloc);
    for template in templates {
        made.push(parameters_of(alloc, template.params.as_slice())?)?;
    }
    Ok(made)
}

/// Refuses where a rule is broken.
fn refuse_first(codes: &[Code]) -> Result<(), ResolveFault>
    ensures { Answers result (as_faults (first_wide codes.now)) tt }
{
    match first_wide(codes) {
        Some(code) => Err(ResolveFault::Static(code)),
        None => Ok(()),
    }
}

/// The stylesheet with its globals in the order that was found, or what that was refused for.
#[tactic(auto, unfolding(crate::specs::Wholes::in_order))]
fn finished(
    alloc: Global,
    sheet: Sheet,
    order: Result<List<usize>, ResolveFault>,
) -> Result<Sheet, ResolveFault>
    ensures { (faults : Items Code) → Answers order faults (evaluation_order sheet)
        → Answers result faults (in_order sheet) }
{
    match order {
        Err(fault) => {
            drop(sheet);
            Err(fault)
        }
        Ok(order) => Ok(with_order(alloc, sheet, order.as_slice())?),
    }
}

/// The stylesheet with its globals at these places, in this order.
fn with_order(alloc: Global, sheet: Sheet, order: &[usize]) -> Result<Sheet, AllocError>
    ensures { IfOk result (λ made. made ≡ with_order order.now sheet) }
{
    let mut sheet = sheet;
    match ordered(alloc, sheet.globals.as_slice(), order) {
        Err(e) => {
            drop(sheet);
            Err(e)
        }
        Ok(globals) => {
            let before = replace(&mut sheet.globals, globals);
            drop(before);
            Ok(sheet)
        }
    }
}
