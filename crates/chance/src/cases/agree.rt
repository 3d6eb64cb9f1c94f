// Whether the watcher's letters agree with those of the second evaluator.
use crate::tally::is_decided;

// The decided word that a wanted letter allows; other letters stay.
fn word_in(letter: char) -> char {
    match letter {
        't' => 'K',
        'f' => 'B',
        _ => letter,
    }
}

// Whether a said letter is one that is wanted, after a decided word or after none.
fn agrees(said: char, wanted: char, decided: Option<char>) -> bool {
    let word = word_in(wanted);
    if said == 'P' {
        return decided.is_none() && word != wanted;
    }
    said == word && (!is_decided(said) || decided.is_none_or(|before| before == said))
}

// Whether all letters that the watcher said agree with what is wanted.
pub(crate) fn agree(said: &str, wanted: &str) -> bool {
    let mut decided = None;
    for (said, wanted) in said.chars().zip(wanted.chars()) {
        if !agrees(said, wanted, decided) {
            return false;
        }
        if is_decided(said) {
            decided = Some(said);
        }
    }
    said.len() == wanted.len()
}
