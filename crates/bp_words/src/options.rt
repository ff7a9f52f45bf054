// Options of a command line, by their places among the words.
ghost use Rattle.std.specs.Prelude.{◌≡◌, ◌↔◌, ◌≤◌, ◌<◌, ◌+◌, ◌*◌, ℕ, length, IsTrue, map, string_bytes, MatchOption, Contains};
ghost use Rattle.std.specs.declared.option.Option.{Option};
ghost use Rattle.bp_text.specs.Numbers.{most_long_number};
ghost use Rattle.bp_words.specs.Words.{AreOptions, AreUnique, HasDefault, HasFile, HasOptional, IsFile, IsGiven, IsNotGiven, IsNumberIn, word_at};

use bp_text::long_number;

// The bytes of a word; past the last word there are none.
pub fn word_at(words: &[String], k: usize) -> &[u8]
    ensures { result.now ≡ word_at (map string_bytes words.now) k }
{
    match words.get(k) {
        Some(word) => word.as_bytes(),
        None => b"",
    }
}

// Whether the words after the command are pairs of one of these names and a value, no name twice.
pub fn are_options(words: &[String], names: &[&[u8]]) -> bool
    ensures options { IsTrue result ↔ AreOptions (map (λ name. name.now) names.now) (map string_bytes words.now) }
    ensures unique { IsTrue result → AreUnique (map string_bytes words.now) }
{
    if words.len() % 2 == 0 {
        return false;
    }
    for k in 0..words.len() / 2 {
        let name = word_at(words, 1 + 2 * k);
        if !is_known(name, names) || place_of(&words[..1 + 2 * k], name).is_some() {
            return false;
        }
    }
    true
}

fn is_known(name: &[u8], names: &[&[u8]]) -> bool
    ensures { IsTrue result ↔ Contains (map (λ name. name.now) names.now) name.now }
{
    for known in names {
        if are_same(known, name) {
            return true;
        }
    }
    false
}

pub fn are_same(word: &[u8], other: &[u8]) -> bool
    ensures { IsTrue result ↔ (word.now ≡ other.now) }
{
    word == other
}

// The first place of the value of the option of this name.
pub fn place_of(words: &[String], name: &[u8]) -> Option<u64>
    ensures { MatchOption result (IsNotGiven name.now (map string_bytes words.now)) (λ p. IsGiven name.now (map string_bytes words.now) p) }
{
    for k in 0..words.len().saturating_sub(1) / 2 {
        if is_named(words, k, name) {
            return Some(2 + 2 * k as u64);
        }
    }
    None
}

// Whether option k has this name.
fn is_named(words: &[String], k: usize, name: &[u8]) -> bool
    requires { 2 + 2 * k < length words.now }
    ensures { IsTrue result ↔ (word_at (map string_bytes words.now) (1 + 2 * k) ≡ name.now) }
{
    word_at(words, 1 + 2 * k) == name
}

// The number that a word spells, from low to high.
pub fn number_in(word: &[u8], low: u64, high: u64) -> Option<u64>
    requires { high ≤ most_long_number }
    ensures { MatchOption result ((n : ℕ) → IsNumberIn low high word.now n → ⊥) (λ n. IsNumberIn low high word.now n) }
{
    let number = long_number(word)?;
    if number < low || number > high {
        return None;
    }
    Some(number)
}

// The number of an option that has a default.
pub fn default_of(words: &[String], name: &[u8], low: u64, high: u64, default: u64) -> Option<u64>
    requires unique { AreUnique (map string_bytes words.now) }
    requires high { high ≤ most_long_number }
    ensures { MatchOption result ((n : ℕ) → HasDefault name.now low high default (map string_bytes words.now) n → ⊥) (λ n. HasDefault name.now low high default (map string_bytes words.now) n) }
{
    match place_of(words, name) {
        Some(place) => number_in(word_at(words, place as usize), low, high),
        None => Some(default),
    }
}

// The number of an option, where it is given. None where what is given is no such number.
pub fn optional_of(words: &[String], name: &[u8], low: u64, high: u64) -> Option<Option<u64>>
    requires unique { AreUnique (map string_bytes words.now) }
    requires high { high ≤ most_long_number }
    ensures { MatchOption result ((o : Option ℕ) → HasOptional name.now low high (map string_bytes words.now) o → ⊥) (λ o. HasOptional name.now low high (map string_bytes words.now) o) }
{
    match place_of(words, name) {
        Some(place) => match number_in(word_at(words, place as usize), low, high) {
            Some(number) => Some(Some(number)),
            None => None,
        },
        None => Some(None),
    }
}

// The place of the word that names an option's file, where it is given. None where that word names no file.
pub fn file_of(words: &[String], name: &[u8]) -> Option<Option<u64>>
    requires { AreUnique (map string_bytes words.now) }
    ensures { MatchOption result ((o : Option ℕ) → HasFile name.now (map string_bytes words.now) o → ⊥) (λ o. HasFile name.now (map string_bytes words.now) o) }
{
    match place_of(words, name) {
        Some(place) => {
            if is_file(word_at(words, place as usize)) {
                Some(Some(place))
            } else {
                None
            }
        }
        None => Some(None),
    }
}

pub fn is_file(word: &[u8]) -> bool
    ensures { IsTrue result ↔ IsFile word.now }
{
    !word.is_empty() && word[0] != b'-'
}
