// How many calls may be open at once.
ghost use Rattle.std.specs.Prelude.{◌≡◌, Some, None, map, ◌&&◌, nat_le, if◌then◌else◌};
ghost use Rattle.std.specs.Char.{is_ascii_digit};
ghost use Rattle.std.specs.List.{list_all};
ghost use Rattle.std.specs.Str.{all_ascii_digits};
ghost use Rattle.command_words.specs.Requests.{is_depth, number_of, depth_of};

fn is_digit(b: u8) -> bool
    ensures { result ≡ is_ascii_digit b }
{
    b.is_ascii_digit()
}

fn are_all_digits(bytes: &[u8]) -> bool
    ensures { result ≡ list_all is_ascii_digit bytes.now }
{
    bytes.iter().all(|b| is_digit(*b))
}

#[tactic(auto, using(crate::proofs::DepthLemmas::digits_all))]
fn are_digits(word: &str) -> bool
    ensures { result ≡ all_ascii_digits word.now }
{
    are_all_digits(word.as_bytes())
}

fn within(n: u32, greatest: u32) -> Option<u32>
    ensures { result ≡ (if nat_le 1 n && nat_le n greatest then Some n else None) }
{
    if 1 <= n && n <= greatest {
        Some(n)
    } else {
        None
    }
}

// The number that the word spells, from 1 to the greatest.
fn depth_in(word: &str, greatest: u32) -> Option<u32>
    ensures { result ≡ (if is_depth greatest word.now then Some (number_of word.now) else None) }
{
    if !are_digits(word) {
        return None;
    }
    match word.parse::<u32>() {
        Ok(n) => within(n, greatest),
        Err(_) => None,
    }
}

/// The depth that the values of `--depth` say, or the usual one where there is none.
pub(crate) fn depth_of(words: &[&str], greatest: u32, usual: u32) -> Option<u32>
    ensures { result ≡ depth_of greatest usual (map (λ b. b.now) words.now) }
{
    match words {
        [] => Some(usual),
        [word] => depth_in(word, greatest),
        _ => None,
    }
}
