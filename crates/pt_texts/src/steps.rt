//! The first steps of reading a text from its front.

ghost use Rattle.std.specs.Prelude.{◌≡◌, option_map};
ghost use Rattle.pt_texts.specs.Steps.{ReaderGives, behind, word_at};

/// A value and the text after it, or the number of bytes that are left when reading stops.
pub(crate) type Read<'a, T> = Result<(T, &'a [u8]), usize>;

/// The text after the word, if the text begins with it.
#[tactic(auto, using(crate::proofs::OneMore::behind_step, crate::proofs::OneMore::behind_short))]
pub(crate) fn behind<'a>(word: &str, text: &'a [u8]) -> Option<&'a [u8]>
    ensures { option_map (λ rest. rest.now) result ≡ behind word.now text.now }
{
    let word = word.as_bytes();
    for place in 0..word.len() {
        if place >= text.len() {
            return None;
        }
        if word[place] != text[place] {
            return None;
        }
    }
    Some(&text[word.len()..])
}

/// The text after the word. Fails if the text does not begin with it.
pub(crate) fn word_at<'a>(word: &str, text: &'a [u8]) -> Result<&'a [u8], usize>
    ensures { ReaderGives (λ rest. rest.now) result (word_at word.now text.now) }
{
    match behind(word, text) {
        Some(rest) => Ok(rest),
        None => Err(text.len()),
    }
}
