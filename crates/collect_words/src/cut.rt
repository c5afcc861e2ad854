ghost use Rattle.std.specs.Prelude.{◌≡◌, ◌≤◌, ◌+◌, None, Some, length, take, drop, MatchOption};
ghost use Rattle.std.specs.Option.{option_copied};
ghost use Rattle.collect_words.specs.Words.{before_colons, behind_colons};

/// The place of the first `::` of a word.
fn colons_at(word: &[u8]) -> Option<usize>
    ensures within { MatchOption result (length word.now ≤ length word.now) (λ at. at + 2 ≤ length word.now) }
    ensures before { MatchOption result (before_colons word.now ≡ word.now) (λ at. before_colons word.now ≡ take at word.now) }
    ensures behind { MatchOption result (behind_colons word.now ≡ None) (λ at. behind_colons word.now ≡ Some (drop (at + 2) word.now)) }
{
    for at in 0..word.len() {
        if word[at..].starts_with(b"::") {
            return Some(at);
        }
    }
    None
}

/// What stands before the first `::`, and what stands behind it, if there is one.
pub fn cut(word: &[u8]) -> (&[u8], Option<&[u8]>)
    ensures before { result.0.now ≡ before_colons word.now }
    ensures behind { option_copied result.1 ≡ behind_colons word.now }
{
    match colons_at(word) {
        Some(at) => (&word[..at], Some(&word[at + 2..])),
        None => (word, None),
    }
}
