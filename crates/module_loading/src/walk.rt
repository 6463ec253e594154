// The walk over the links, depth first.
ghost use Rattle.std.specs.Prelude.{◌≡◌, ◌≤◌, ◌<◌, ◌++◌, ◌∷◌, [], None, Some, IfOk, IfErr, OnOk, length, unwrap_or};
ghost use Rattle.std.specs.Str.{chars};
ghost use Rattle.xt_io.specs.Files.{KeepsFiles};
ghost use Rattle.xt_names.specs.declared.codes.Code.TheVariants.{SheetStatic};
ghost use Rattle.module_loading.specs.Walk.{is_loading, circle_code};
ghost use Rattle.module_loading.specs.Loads.{AddsModule, LoadsModule, LoadsLink, LoadsLinks};
ghost use Rattle.module_loading.specs.Loads.{IsLoadedSheet, Places};
ghost use Rattle.module_loading.specs.Refusals.{IsModuleRefusedAs, IsLinksRefusedAs};
ghost use Rattle.module_loading.specs.Held.{IsUnreadAs};
ghost use Rattle.module_loading.specs.Trees.{span};

use crate::faults::SheetFault;
use crate::files::read_file;
use crate::loaded::{LoadedModule, LoadedSheet};
use crate::readers::LinkReader;
use sheet_modules::Link;
use sheet_modules::module_names::resolve;
use sheet_modules::sheet_levels::{SheetLevel, Span};
use std::alloc::{AllocError, Global};
use xt_io::Files;
use xt_names::{Code, List, Shared, SheetStaticCode, Text, copy_text_list};

/// How many modules a stylesheet may have.
const MOST_MODULES: usize = 64;

/// A module whose links are followed.
#[derive(Drop)]
struct Importer {
    /// Its name.
    name: Text,
    /// The names of the modules that are being loaded, its own the last.
    loading: List<Text>,
}

/// The pieces so far of the level in which a module stands.
#[derive(Drop)]
struct Pieces {
    /// The place of the module.
    place: usize,
    /// Where its next piece begins.
    from: u32,
    spans: List<Span>,
}

/// The modules of the stylesheet whose first module has this name (XSLT 2.0, 3.10).
///
/// `Load` and `TooLong` come with the name of the first module, or of one that a link of a module
/// names to which the walk comes. `Malformed` comes of such a module whose text stands for no tree.
/// `Static` comes of a link to a module that is being loaded, with XTSE0210 where it is an import and
/// XTSE0180 where it is an include, and of a link to a 65th module, with XTLM0003.
#[tactic(auto, using(xt_io::proofs::LoadLemmas::keeps_none))]
pub fn load_modules<F: Files, L: LinkReader>(
    alloc: Global,
    files: &mut F,
    reader: &L,
    name: &str,
) -> Result<LoadedSheet, SheetFault>
    ensures loaded { IfOk result
        (IsLoadedSheet (F.state files.old).held (L.links reader.now) (chars name.now)) }
    ensures refused { IfErr result (IsModuleRefusedAs (L.links reader.now) [] 0 (chars name.now)
        (F.state files.old) (F.state files.new)) }
    ensures keeps { KeepsFiles (F.state files.old) (F.state files.new) }
{
    let name = Text::make(alloc, name)?;
    let mut loaded = LoadedSheet {
        modules: List::new(alloc),
        levels: List::new(alloc),
    };
    let loading = List::new(alloc);
    let spans = load_module(alloc, files, reader, &loading, &name, &mut loaded)?;
    loaded.levels.push(SheetLevel { first: 1, spans })?;
    Ok(loaded)
}

/// Loads the module of this name and all after its links; gives the pieces of its level.
#[cycle(walk)]
#[tactic(auto, using(xt_io::proofs::LoadLemmas::keeps_none, xt_io::proofs::LoadLemmas::keeps_then))]
fn load_module<F: Files, L: LinkReader>(
    alloc: Global,
    files: &mut F,
    reader: &L,
    loading: &List<Text>,
    name: &Text,
    loaded: &mut LoadedSheet,
) -> Result<List<Span>, SheetFault>
    requires room { length loaded.old.modules < 64 }
    requires levels { length loaded.old.levels ≤ length loaded.old.modules }
    ensures loaded { IfOk result (LoadsModule (F.state files.old).held (L.links reader.now)
        loading.now name.now loaded.old loaded.new) }
    ensures refused { IfErr result (IsModuleRefusedAs (L.links reader.now) loading.now
        (length loaded.old.modules) name.now (F.state files.old) (F.state files.new)) }
    ensures keeps { KeepsFiles (F.state files.old) (F.state files.new) }
{
    let mut pieces = Pieces {
        place: loaded.modules.len(),
        from: 0,
        spans: List::new(alloc),
    };
    let links = add_module(alloc, files, reader, name, loaded)?;
    let importer = importer_of(loading, name)?;
    let links = links.get().as_slice();
    load_links(alloc, files, reader, &importer, links, loaded, &mut pieces)?;
    Ok(pieces.spans)
}

/// Loads and reads the module of this name; gives its links.
fn add_module<F: Files, L: LinkReader>(
    alloc: Global,
    files: &mut F,
    reader: &L,
    name: &Text,
    loaded: &mut LoadedSheet,
) -> Result<Shared<List<Link>>, SheetFault>
    ensures added { IfOk result (AddsModule (F.state files.old).held (L.links reader.now)
        name.now loaded.old loaded.new) }
    ensures refused { IfErr result (IsUnreadAs name.now (F.state files.old) (F.state files.new)) }
    ensures keeps { KeepsFiles (F.state files.old) (F.state files.new) }
{
    let scoped = read_file(alloc, files, name)?;
    let links = Shared::make(alloc, reader.links_of(alloc, &scoped)?)?;
    let module = LoadedModule {
        name: name.copy()?,
        scoped,
        links: links.copy()?,
    };
    loaded.modules.push(module)?;
    Ok(links)
}

fn importer_of(loading: &List<Text>, name: &Text) -> Result<Importer, AllocError>
    ensures { IfOk result (λ importer. (importer.name ≡ name.now)
        × (importer.loading ≡ loading.now ++ name.now ∷ [])) }
{
    let mut loading = copy_text_list(loading)?;
    loading.push(name.copy()?)?;
    Ok(Importer {
        name: name.copy()?,
        loading,
    })
}

/// Loads all that these links of the importer lead to, one after another.
#[cycle(walk)]
#[tactic(auto, using(xt_io::proofs::LoadLemmas::keeps_none, xt_io::proofs::LoadLemmas::keeps_then))]
fn load_links<F: Files, L: LinkReader>(
    alloc: Global,
    files: &mut F,
    reader: &L,
    importer: &Importer,
    links: &[Link],
    loaded: &mut LoadedSheet,
    pieces: &mut Pieces,
) -> Result<(), SheetFault>
    requires room { length loaded.old.modules ≤ 64 }
    requires levels { length loaded.old.levels ≤ length loaded.old.modules }
    ensures loaded { OnOk result (LoadsLinks (F.state files.old).held (L.links reader.now)
        importer.now.loading importer.now.name links.now loaded.old loaded.new pieces.old pieces.new.spans) }
    ensures refused { IfErr result (IsLinksRefusedAs (L.links reader.now) importer.now.loading
        (length loaded.old.modules) importer.now.name links.now
        (F.state files.old) (F.state files.new)) }
    ensures keeps { KeepsFiles (F.state files.old) (F.state files.new) }
{
    match links {
        [] => {
            end_piece(pieces, None)?;
            Ok(())
        }
        [link, rest @ ..] => {
            end_piece(pieces, Some(link.before))?;
            load_link(alloc, files, reader, importer, link, loaded, pieces)?;
            load_links(alloc, files, reader, importer, rest, loaded, pieces)
        }
    }
}

/// Ends the piece of the module, and begins the next one.
fn end_piece(pieces: &mut Pieces, to: Option<u32>) -> Result<(), AllocError>
    ensures place { OnOk result (pieces.new.place ≡ pieces.old.place) }
    ensures from { OnOk result (pieces.new.from ≡ unwrap_or to pieces.old.from) }
    ensures spans { OnOk result (pieces.new.spans
        ≡ pieces.old.spans ++ span pieces.old.place pieces.old.from to ∷ []) }
{
    pieces.spans.push(Span {
        place: pieces.place,
        from: pieces.from,
        to,
    })?;
    pieces.from = to.unwrap_or(pieces.from);
    Ok(())
}

/// Loads all that the link leads to. An imported module opens a level, and the pieces of an included
/// one go on with those of the importer.
#[cycle(walk)]
#[tactic(auto, using(xt_io::proofs::LoadLemmas::keeps_none, xt_io::proofs::LoadLemmas::keeps_then))]
fn load_link<F: Files, L: LinkReader>(
    alloc: Global,
    files: &mut F,
    reader: &L,
    importer: &Importer,
    link: &Link,
    loaded: &mut LoadedSheet,
    pieces: &mut Pieces,
) -> Result<(), SheetFault>
    requires room { length loaded.old.modules ≤ 64 }
    requires levels { length loaded.old.levels ≤ length loaded.old.modules }
    ensures loaded { OnOk result (LoadsLink (F.state files.old).held (L.links reader.now)
        importer.now.loading importer.now.name link.now loaded.old loaded.new pieces.old pieces.new) }
    ensures refused { IfErr result (IsLinksRefusedAs (L.links reader.now) importer.now.loading
        (length loaded.old.modules) importer.now.name (link.now ∷ [])
        (F.state files.old) (F.state files.new)) }
    ensures keeps { KeepsFiles (F.state files.old) (F.state files.new) }
{
    let name = resolve(alloc, &importer.name, &link.href)?;
    if is_loading(importer.loading.as_slice(), &name) {
        return Err(circle(link.import));
    }
    if loaded.modules.len() >= MOST_MODULES {
        return Err(SheetFault::Static(Code::SheetStatic(SheetStaticCode::XTLM0003)));
    }
    let before = loaded.levels.len();
    let spans = load_module(alloc, files, reader, &importer.loading, &name, loaded)?;
    place(link.import, before, spans, loaded, pieces)?;
    Ok(())
}

fn is_loading(loading: &[Text], name: &Text) -> bool
    ensures { result ≡ is_loading loading.now name.now }
{
    loading.iter().any(|one| one.is(name.as_str()))
}

fn circle(import: bool) -> SheetFault
    ensures { result ≡ SheetFault.Static (circle_code import) }
{
    let code = if import {
        SheetStaticCode::XTSE0210
    } else {
        SheetStaticCode::XTSE0180
    };
    SheetFault::Static(Code::SheetStatic(code))
}

/// Puts the pieces of a module that a link leads to into a level of their own, or to those of the
/// importer.
fn place(
    import: bool,
    before: usize,
    spans: List<Span>,
    loaded: &mut LoadedSheet,
    pieces: &mut Pieces,
) -> Result<(), AllocError>
    requires { before < 64 }
    ensures { OnOk result (Places import before spans loaded.old loaded.new pieces.old pieces.new) }
{
    if import {
        loaded.levels.push(SheetLevel {
            first: before + 1,
            spans,
        })
    } else {
        push_all(&mut pieces.spans, spans.as_slice())
    }
}

fn push_all(spans: &mut List<Span>, more: &[Span]) -> Result<(), AllocError>
    ensures { OnOk result (spans.new ≡ spans.old ++ more.now) }
{
    for span in more {
        spans.push(*span)?;
    }
    Ok(())
}
