// Where the files of links lie.
ghost use Rattle.sheet_modules.specs.ModuleNames.Laws.{LiesInTheFolder, NeedsNoFolder, BeginsAtTheRoot};

/// An href leads into the folder of the importer, which the file's own name does not belong to;
/// where the importer's name has no slash, the href is the whole name, and one that begins with a
/// slash is so everywhere (XSLT 2.0, 3.10.2).
#[tactic(auto, using(crate::proofs::ModuleNames::Folders::laws))]
pub fn names_stand_beside_the_importer()
    ensures folder { LiesInTheFolder }
    ensures no_folder { NeedsNoFolder }
    ensures root { BeginsAtTheRoot }
{}
