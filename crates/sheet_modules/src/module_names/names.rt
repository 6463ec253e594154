// The name of the file that an href leads to.
ghost use Rattle.std.specs.Prelude.{◌≡◌, IfOk};
ghost use Rattle.std.specs.Str.{chars};
ghost use Rattle.sheet_modules.specs.ModuleNames.Names.{begins_at_root, folder_of, resolved};

use std::alloc::{AllocError, Global};
use xt_names::{Text, TextBuilder};

/// The name of the file that the href leads to in the module of this name: after the importer's
/// name up to and with its last slash, or the href as it is where it begins with a slash
/// (XSLT 2.0, 3.10.2).
pub fn resolve(alloc: Global, importer: &Text, href: &Text) -> Result<Text, AllocError>
    ensures { IfOk result (λ name. name ≡ resolved importer.now href.now) }
{
    if begins_at_root(href.as_str()) {
        return href.copy();
    }
    let mut name = folder(alloc, importer.as_str())?;
    name.push_text(href)?;
    name.finish()
}

fn begins_at_root(href: &str) -> bool
    ensures { result ≡ begins_at_root (chars href.now) }
{
    match href.chars().next() {
        Some(first) => first == '/',
        None => false,
    }
}

/// The name up to and with its last slash.
fn folder(alloc: Global, name: &str) -> Result<TextBuilder, AllocError>
    ensures { IfOk result (λ folder. folder ≡ folder_of (chars name.now)) }
{
    let mut folder = TextBuilder::new(alloc);
    let mut part = TextBuilder::new(alloc);
    for c in name.chars() {
        part.push(c)?;
        if c == '/' {
            let whole = part.finish()?;
            folder.push_text(&whole)?;
            part = TextBuilder::new(alloc);
        }
    }
    Ok(folder)
}
