//! The reader of a letter that was sent and did not arrive, as in the last lines of a printed history.

ghost use Rattle.pt_texts.specs.Readers.{left_over_at};
ghost use Rattle.pt_texts.specs.Steps.{ReaderGives};

use crate::numbers::u8_at;
use crate::signals::letter_at;
use crate::steps::{Read, word_at};
use pt_signal::LeftOver;

#[tactic(auto, unfolding(crate::specs::Readers::left_over_at))]
pub(crate) fn left_over_at(text: &[u8]) -> Read<'_, LeftOver>
    ensures { ReaderGives (λ read. (read.0, read.1.now)) result (left_over_at text.now) }
{
    let (from_desk, rest) = u8_at(word_at("left-over ", text)?)?;
    let (to_desk, rest) = u8_at(word_at(" -> ", rest)?)?;
    let (letter, rest) = letter_at(word_at(" ", rest)?)?;
    let left_over = LeftOver {
        from_desk,
        to_desk,
        letter,
    };
    Ok((left_over, rest))
}
