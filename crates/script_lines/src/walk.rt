ghost use Rattle.std.specs.Prelude.{◌≡◌, ◌+◌, ◌<◌, ◌≤◌, ◌∷◌, ◌==◌, [], false, length, take, slice_index, All, MatchOption, IfSome};
ghost use Rattle.script_lines.specs.Commands.{words as words_in};
ghost use Rattle.script_lines.specs.Walking.{BeginsWithWord, EndsWord};

/// The first word of a text, and what stands behind it; none where the text has no word.
pub fn first_word(text: &[u8]) -> Option<(&[u8], &[u8])>
    ensures words { MatchOption result (words_in text.now ≡ []) (λ p. words_in text.now ≡ p.0.now ∷ words_in p.1.now) }
    ensures within { IfSome result (λ p. length p.1.now < length text.now) }
{
    let text = behind_spaces(text);
    if text.is_empty() {
        return None;
    }
    let end = word_end(text);
    Some((&text[..end], &text[end..]))
}

/// The word of a text that ends with it, where it has no other. None says nothing.
#[tactic(auto, using(crate::proofs::Walks::no_words))]
pub fn only_word(text: &[u8]) -> Option<&[u8]>
    ensures { IfSome result (λ word. words_in text.now ≡ word.now ∷ []) }
{
    let Some((word, more)) = first_word(text) else {
        return None;
    };
    if more.is_empty() { Some(word) } else { None }
}

// A text without the spaces before its first word.
fn behind_spaces(text: &[u8]) -> &[u8]
    ensures words { words_in result.now ≡ words_in text.now }
    ensures within { length result.now ≤ length text.now }
    ensures word { BeginsWithWord result.now }
{
    let mut rest = text;
    while let [b' ', more @ ..] = rest {
        rest = more;
    }
    rest
}

// Where the word ends with which a text begins.
fn word_end(text: &[u8]) -> usize
    ensures within { result ≤ length text.now }
    ensures word { All (λ b. (b == 32) ≡ false) (take result text.now) }
    ensures end { EndsWord text.now result }
{
    let mut end = 0;
    while end < text.len() {
        if text[end] == b' ' {
            return end;
        }
        end += 1;
    }
    end
}

/// How many words a text has.
pub fn word_count(text: &[u8]) -> usize
    ensures count { result ≡ length (words_in text.now) }
    ensures within { result ≤ length text.now }
{
    let mut count = 0;
    let mut rest = text;
    while let Some((_, more)) = first_word(rest) {
        count += 1;
        rest = more;
    }
    count
}
