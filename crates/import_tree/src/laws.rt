// What the definitions say of files that tell what they hold.
ghost use Rattle.import_tree.specs.Laws.{SheetsAreOne, SheetsKeepRules, CodesAreOne};
ghost use Rattle.import_tree.specs.Laws.{SheetsAreClosed};

/// Files hold at most one stylesheet under a name, which breaks no rule; and where its modules
/// break some, one code alone is told (XSLT 2.0, 2.9).
pub fn sheets_are_one()
    ensures one { SheetsAreOne }
    ensures kept { SheetsKeepRules }
    ensures codes { CodesAreOne }
{}

/// Each stylesheet that files hold is closed: it uses nothing but what it declares, and each of its
/// parts may stand where it does (XSLT 2.0, 2.9 and 3.10).
pub fn sheets_are_closed()
    ensures { SheetsAreClosed }
{}
