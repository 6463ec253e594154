// What the modules declare.
ghost use Rattle.std.specs.Prelude.{◌≡◌, IfOk};
ghost use Rattle.expr_names.specs.Answers.{Answers};
ghost use Rattle.loaded_sheets.specs.LoadedParts.Names.{AllCanBeRead, nodes_in};
ghost use Rattle.loaded_sheets.specs.LoadedParts.Parts.{all_faults, all_values};

use expr_names::ResolveFault;
use module_loading::LoadedModule;
use module_loading::module_reader::{module_nodes, read_parts};
use module_loading::sheet_bodies::with_item;
use sheet_modules::Part;
use sheet_table::sheet_nodes::Node;
use sheet_values::sheet_texts::{NameTable, Reader};
use std::alloc::{AllocError, Global};
use xt_names::{List, Shared};

/// The nodes of each of the modules, in the order of loading (XSLT 2.0, 3.6 and 4.2).
pub fn all_nodes(alloc: Global, modules: &[LoadedModule]) -> Result<List<List<Node>>, AllocError>
    requires { AllCanBeRead modules.now }
    ensures { IfOk result (λ all. all ≡ nodes_in modules.now) }
{
    let mut all = List::new(alloc);
    let mut left = modules;
    while let [module, rest @ ..] = left {
        all.push(module_nodes(alloc, &module.scoped)?)?;
        left = rest;
    }
    Ok(all)
}

/// What each of the modules of these nodes declares, in the order of loading, by the numbers that
/// its modes and the templates that it calls have in these tables. Where some module breaks a rule
/// by itself, the code is that of the first rule that the first such module breaks (XSLT 2.0, 2.9).
pub fn read_all<R: Reader>(
    alloc: Global,
    reader: &R,
    modes: &Shared<NameTable>,
    called: &Shared<NameTable>,
    modules: &[List<Node>],
) -> Result<List<List<Shared<Part<R::Expr, R::Pattern>>>>, ResolveFault>
    ensures { Answers result
        (all_faults (R.reads reader.now) modes.now called.now modules.now)
        (all_values (R.reads reader.now) modes.now called.now modules.now) }
{
    let mut all = List::new(alloc);
    let mut left = modules;
    while let [nodes, rest @ ..] = left {
        let parts = read_parts(alloc, reader, modes, called, nodes.as_slice());
        all = with_item(all, parts)?;
        left = rest;
    }
    Ok(all)
}
