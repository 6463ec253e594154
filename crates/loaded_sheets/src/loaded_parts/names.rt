// Numbers of modes and of templates that are called.
ghost use Rattle.std.specs.Prelude.{◌≡◌, slice_get, IfOk, OnOk};
ghost use Rattle.loaded_sheets.specs.LoadedParts.Names.{names_alone, with_nodes, with_spans_of, with_levels_of};

use module_loading::module_reader::collect_names;
use sheet_modules::sheet_levels::{SheetLevel, Span};
use sheet_table::sheet_nodes::Node;
use sheet_values::default_mode;
use sheet_values::sheet_texts::NameTable;
use std::alloc::{AllocError, Global};
use xt_names::List;

/// The names that have numbers in a stylesheet: their places from 0.
#[derive(Drop)]
pub struct SheetNames {
    /// The modes (XSLT 2.0, 6.5).
    pub modes: NameTable,
    /// The names of the templates that are called (10.1).
    pub called: NameTable,
}

fn names_alone(alloc: Global) -> Result<SheetNames, AllocError>
    ensures { IfOk result (λ names. names ≡ names_alone) }
{
    let mut modes = NameTable::new(alloc);
    let name = default_mode(alloc)?;
    modes.add(&name)?;
    let called = NameTable::new(alloc);
    Ok(SheetNames { modes, called })
}

fn add_module(
    alloc: Global,
    modules: &[List<Node>],
    place: usize,
    names: &mut SheetNames,
) -> Result<(), AllocError>
    ensures { OnOk result (names.new ≡ with_nodes (slice_get modules.now place) names.old) }
{
    match modules.get(place) {
        Some(nodes) => collect_names(alloc, nodes.as_slice(), &mut names.modes, &mut names.called),
        None => Ok(()),
    }
}

fn add_spans(
    alloc: Global,
    modules: &[List<Node>],
    spans: &[Span],
    names: &mut SheetNames,
) -> Result<(), AllocError>
    ensures { OnOk result (names.new ≡ with_spans_of modules.now spans.now names.old) }
{
    for span in spans {
        // (the other pieces of a module have no names that its first one has not)
        if span.from == 0 {
            add_module(alloc, modules, span.place, names)?;
        }
    }
    Ok(())
}

/// The modes that the modules name, of which the default mode is the first, and the templates that
/// they call: each where it first appears, module by module in the order of precedence (XSLT 2.0,
/// 6.5 and 10.1). The modules are given in the order of loading, each by its nodes.
pub fn collect_all(
    alloc: Global,
    levels: &[SheetLevel],
    modules: &[List<Node>],
) -> Result<SheetNames, AllocError>
    ensures { IfOk result (λ names. names ≡ with_levels_of modules.now levels.now names_alone) }
{
    let mut names = names_alone(alloc)?;
    for level in levels {
        add_spans(alloc, modules, level.spans.as_slice(), &mut names)?;
    }
    Ok(names)
}
