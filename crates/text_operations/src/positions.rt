// Characters by their positions.
ghost use Rattle.std.specs.Prelude.{◌≡◌, ℕ, List, ◌++◌, ◌+ℤ◌, ◌≤◌, pos, length, take, drop};
ghost use Rattle.std.specs.Str.{chars};
ghost use Rattle.text_operations.specs.Positions.{count_before};

/// How many positions from 1 on come before this one.
pub fn count_before(position: i64) -> usize
    ensures { result ≡ count_before position }
{
    if position <= 0 {
        return 0;
    }
    position.unsigned_abs() as usize - 1
}

/// How many positions from 1 on come before the sum of the two, which has no limit.
pub fn count_before_sum(start: i64, length: i64) -> usize
    ensures { result ≡ count_before (start +ℤ length) }
{
    if start >= 0 && length >= 0 {
        let sum = start.unsigned_abs() + length.unsigned_abs();
        return sum.saturating_sub(1) as usize;
    }
    match start.checked_add(length) {
        Some(sum) => count_before(sum),
        None => 0,
    }
}

/// How many characters the text has.
pub fn char_count(text: &str) -> i64
    ensures { result ≡ pos (length (chars text.now)) }
{
    count_chars(text) as i64
}

/// The same; a text has less than 2^63 bytes.
fn count_chars(text: &str) -> usize
    ensures value { result ≡ length (chars text.now) }
    ensures small { result ≤ length text.now }
{
    text.chars().count()
}

/// The text without so many characters at its start.
pub fn after_chars(text: &str, count: usize) -> &str
    ensures { chars result.now ≡ drop count (chars text.now) }
{
    skip_chars(text, count)
}

/// The characters of the text up to the end, without so many at its start.
pub fn between_chars(text: &str, start: usize, end: usize) -> &str
    ensures { chars result.now ≡ drop start (take end (chars text.now)) }
{
    skip_chars(first_chars(text, end), start)
}

/// The text without so many characters at its start, as the end of the text.
fn skip_chars(text: &str, count: usize) -> &str
    ensures chars { chars result.now ≡ drop count (chars text.now) }
    ensures rest { (front : List ℕ) × (text.now ≡ front ++ result.now) }
{
    let mut left = text.chars();
    let mut rest = left.as_str();
    let mut skipped = 0;
    while skipped < count {
        match left.next() {
            Some(_) => rest = left.as_str(),
            None => return rest,
        }
        skipped += 1;
    }
    rest
}

/// So many characters at the start of the text.
fn first_chars(text: &str, count: usize) -> &str
    ensures { chars result.now ≡ take count (chars text.now) }
{
    let rest = skip_chars(text, count);
    &text[..text.len() - rest.len()]
}
