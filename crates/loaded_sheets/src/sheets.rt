// The stylesheet of modules that are loaded.
ghost use Rattle.std.specs.Prelude.{◌≡◌, ◌+◌, ◌<◌, ◌^◌, length, IfOk};
ghost use Rattle.expr_names.specs.Answers.{Answers};
ghost use Rattle.loaded_sheets.specs.LoadedParts.Names.{AllCanBeRead, nodes_in};
ghost use Rattle.loaded_sheets.specs.Sheets.{names_in, own_faults, declarations_in};
ghost use Rattle.loaded_sheets.specs.Sheets.{sheet_faults, sheet_value};

use crate::loaded_parts::{SheetNames, all_nodes, collect_all, read_all};
use crate::wholes::whole_sheet;
use expr_names::ResolveFault;
use module_loading::LoadedSheet;
use sheet_language::SheetLanguage;
use sheet_rules::sheet_declarations::{Declaration, declarations};
use sheet_table::sheet_nodes::Node;
use sheet_values::sheet_texts::NameTable;
use std::alloc::{AllocError, Global};
use xt_names::{List, Shared};
use xt_sheets::Sheet;
use xt_syntax::{Expr, Pattern};

/// The stylesheet of the modules that are loaded (XSLT 2.0, 3.10). Where a module breaks a rule by
/// itself, the code is that of the first one that the first such module breaks; else it is one that
/// `whole_sheet` refuses.
#[tactic(auto, using(crate::proofs::LoadedParts::Nodes::names_of_modules), unfolding(crate::specs::Sheets::sheet_faults, crate::specs::Sheets::sheet_value))]
pub fn read_sheet(alloc: Global, loaded: &LoadedSheet) -> Result<Sheet, ResolveFault>
    requires readable { AllCanBeRead loaded.now.modules }
    requires levels { length loaded.now.levels + 1 < 2 ^ 32 }
    ensures { Answers result (sheet_faults loaded.now) (sheet_value loaded.now) }
{
    let nodes = all_nodes(alloc, loaded.modules.as_slice())?;
    let names = collect_all(alloc, loaded.levels.as_slice(), nodes.as_slice())?;
    let SheetNames { modes, called } = names;
    let modes = Shared::make(alloc, modes)?;
    let called = Shared::make(alloc, called)?;
    let all = declared(alloc, loaded, nodes, &modes, &called)?;
    let sheet = whole_sheet(
        alloc,
        all.as_slice(),
        modes.get(),
        called.get(),
        loaded.levels.as_slice(),
    );
    drop(all);
    sheet
}

/// The declarations of all modules, in the order of precedence.
#[tactic(auto, using(crate::proofs::LoadedParts::Nodes::faults_of_modules, crate::proofs::LoadedParts::Nodes::values_of_modules), unfolding(crate::specs::Sheets::own_faults, crate::specs::Sheets::declarations_in))]
fn declared(
    alloc: Global,
    loaded: &LoadedSheet,
    nodes: List<List<Node>>,
    modes: &Shared<NameTable>,
    called: &Shared<NameTable>,
) -> Result<List<Declaration<Expr, Pattern>>, ResolveFault>
    requires levels { length loaded.now.levels + 1 < 2 ^ 32 }
    requires nodes { nodes ≡ nodes_in loaded.now.modules }
    requires modes { modes.now ≡ (names_in loaded.now).modes }
    requires called { called.now ≡ (names_in loaded.now).called }
    ensures { Answers result (own_faults loaded.now) (declarations_in loaded.now) }
{
    let parts = read_all(alloc, &SheetLanguage {}, modes, called, nodes.as_slice());
    drop(nodes);
    let parts = parts?;
    let all = declarations(alloc, loaded.levels.as_slice(), parts.as_slice());
    drop(parts);
    Ok(all?)
}
