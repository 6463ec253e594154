// What words say.
ghost use Rattle.std.specs.Prelude.{◌≡◌, Some, true, map};
ghost use Rattle.command_words.specs.Words.{Words};
ghost use Rattle.command_words.specs.Apart.{Says, Told, told_apart};
ghost use Rattle.command_words.specs.Requests.{Asked, request_of, inputs_asked};
ghost use Rattle.command_words.specs.Texts.{are_different};

/// The words after a command say at most one thing: just what the function gives. No standard
/// decides what they say: it is this program's own choice (docs/DECISIONS.md, "The program").
pub fn words_say_one()
    ensures given { (words : Words) (told : Told) → told_apart words ≡ Some told → Says words told }
    ensures one { (words : Words) (told : Told) → Says words told → told_apart words ≡ Some told }
{}

/// A request names each further document once, and each parameter once. The parameters are those
/// that a stylesheet or a query gets from outside (XSLT 2.0, 2.3 and 9.5; XQuery 1.0, 4.14), and so
/// each has one value; that a document is named once is this program's own choice.
pub fn requests_name_once()
    ensures documents { (words : Words) (request : Asked) → request_of words ≡ Some request
        → are_different (inputs_asked request).documents ≡ true }
    ensures parameters { (words : Words) (request : Asked) → request_of words ≡ Some request
        → are_different (map (λ g. g.0) (inputs_asked request).parameters) ≡ true }
{}
