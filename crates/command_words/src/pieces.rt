// The pieces of the words after a command.
ghost use Rattle.std.specs.Prelude.{◌≡◌, option_map};
ghost use Rattle.std.specs.Option.{option_copied};
ghost use Rattle.command_words.specs.Words.{begins_with_dash, is_operand, behind};
ghost use Rattle.command_words.specs.Apart.{piece_of, whole_piece, parted_piece};

/// A piece of the words: an option with its value, or an operand.
#[derive(Clone, Copy)]
pub(crate) enum Piece<'a> {
    Depth(&'a str),
    Doc(&'a str),
    Operand(&'a str),
}

fn begins_with_dash(word: &str) -> bool
    ensures { result ≡ begins_with_dash word.now }
{
    matches!(word.as_bytes(), [b'-', ..])
}

fn is_operand(word: &str) -> bool
    ensures { result ≡ is_operand word.now }
{
    word == "-" || !begins_with_dash(word)
}

fn behind<'a>(front: &str, word: &'a str) -> Option<&'a str>
    ensures { option_copied result ≡ behind front.now word.now }
{
    word.strip_prefix(front)
}

/// The piece that the word is by itself.
pub(crate) fn whole_piece(word: &str) -> Option<Piece<'_>>
    ensures { option_map piece_of result ≡ whole_piece word.now }
{
    if is_operand(word) {
        return Some(Piece::Operand(word));
    }
    if let Some(number) = behind("--depth=", word) {
        return Some(Piece::Depth(number));
    }
    match behind("--doc=", word) {
        Some(file) => Some(Piece::Doc(file)),
        None => None,
    }
}

/// The piece that an option and the next word are.
pub(crate) fn parted_piece<'a>(word: &str, value: &'a str) -> Option<Piece<'a>>
    ensures { option_map piece_of result ≡ parted_piece word.now value.now }
{
    if word == "--depth" {
        Some(Piece::Depth(value))
    } else if word == "--doc" {
        Some(Piece::Doc(value))
    } else {
        None
    }
}
