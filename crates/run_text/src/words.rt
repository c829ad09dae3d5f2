ghost use Rattle.std.specs.Prelude.{◌≡◌, map, true, false, None, Some, MatchOption};
ghost use Rattle.std.specs.List.{list_all};
ghost use Rattle.run_text.specs.Words.{has_name, value_in, is_known, is_once, are_once, value_under, is_given};

use crate::names::{NAMES, Name};
use morph_base::List;

/// The value in a word that has this name.
fn value_in<'a>(name: Name, word: &'a [u8]) -> Option<&'a [u8]>
    ensures { MatchOption result (has_name name word.now ≡ false)
        (λ value. (has_name name word.now ≡ true) × (value.now ≡ value_in name word.now)) }
{
    word.strip_prefix(name.text())
}

/// Whether a word has this name.
fn has_name(name: Name, word: &[u8]) -> bool
    ensures { result ≡ has_name name word.now }
{
    value_in(name, word).is_some()
}

/// Whether a word has a name that there is.
fn is_known(word: &[u8]) -> bool
    ensures { result ≡ is_known word.now }
{
    NAMES.iter().any(|name| has_name(*name, word))
}

/// Whether all words have names that there are.
pub fn are_known(words: &[List<u8>]) -> bool
    ensures { result ≡ list_all is_known (map (λ word. word.items) words.now) }
{
    for word in words {
        if !is_known(word.as_slice()) {
            return false;
        }
    }
    true
}

/// Whether at most one of the words has this name.
fn is_once(words: &[List<u8>], name: Name) -> bool
    ensures { result ≡ is_once (map (λ word. word.items) words.now) name }
{
    let mut count: usize = 0;
    for word in words {
        if has_name(name, word.as_slice()) {
            count += 1;
        }
    }
    count <= 1
}

/// Whether no name is given twice.
pub fn are_once(words: &[List<u8>]) -> bool
    ensures { result ≡ are_once (map (λ word. word.items) words.now) }
{
    NAMES.iter().all(|name| is_once(words, *name))
}

/// The value that is given under a name.
#[tactic(auto, unfolding(crate::specs::Words::value_under))]
pub fn value_under<'a>(words: &'a [List<u8>], name: Name) -> Option<&'a [u8]>
    ensures { MatchOption result (value_under name (map (λ word. word.items) words.now) ≡ None)
        (λ value. value_under name (map (λ word. word.items) words.now) ≡ Some value.now) }
{
    for word in words {
        if let Some(value) = value_in(name, word.as_slice()) {
            return Some(value);
        }
    }
    None
}

/// Whether one of the words has this name.
pub fn is_given(words: &[List<u8>], name: Name) -> bool
    ensures { result ≡ is_given name (map (λ word. word.items) words.now) }
{
    value_under(words, name).is_some()
}
