//! The settings of a node, as `desks=2`.

ghost use Rattle.std.specs.Prelude.{◌≡◌, ◌==◌, ◌<◌, map, length, position, IfSome};
ghost use Rattle.pt_shell.specs.Settings as spec;
ghost use Rattle.pt_shell.specs.Words.{told_word};

use crate::lines::mistake::{Mistake, Why};
use crate::lines::values::{u8_of, u32_of, u64_of};
use crate::lines::word::Word;
use pt_signal::Config;

/// The settings, with the one of this name changed to the number in the word.
fn with_named(config: Config, name: &[u8], number: Word<'_>) -> Result<Config, Mistake>
    ensures { result ≡ spec.with_named config name.now (told_word number.entry) }
{
    if name == b"desks".as_slice() {
        Ok(config.with_desks(u8_of(number)?))
    } else if name == b"slots".as_slice() {
        Ok(config.with_slots(u32_of(number)?))
    } else if name == b"top_version".as_slice() {
        Ok(config.with_top_version(u32_of(number)?))
    } else if name == b"lane".as_slice() {
        Ok(config.with_lane(u32_of(number)?))
    } else if name == b"start".as_slice() {
        Ok(config.with_start(u64_of(number)?))
    } else {
        Err(Mistake::at(number.column, Why::NoSetting))
    }
}

/// The settings, with the one that the word names changed.
fn with_setting(config: Config, word: Word<'_>) -> Result<Config, Mistake>
    ensures { result ≡ spec.with_setting config (told_word word.entry) }
{
    match sign_in(word.text) {
        Some(sign) => {
            let number = Word {
                column: word.column,
                text: &word.text[sign + 1..],
            };
            with_named(config, &word.text[..sign], number)
        }
        None => Err(Mistake::at(word.column, Why::NoSetting)),
    }
}

/// The place of the first `=`.
fn sign_in(text: &[u8]) -> Option<usize>
    ensures place { result ≡ position (λ c. c == 61) text.now }
    ensures within { IfSome result (λ sign. sign < length text.now) }
{
    text.iter().position(|byte| *byte == b'=')
}

/// The settings that the words name, and the defaults for the others. If one is named twice, the last counts.
pub(crate) fn config_of(words: &[Word<'_>]) -> Result<Config, Mistake>
    ensures { result ≡ spec.with_settings Config.DEFAULT (map told_word words.now) }
{
    let mut config = Config::DEFAULT;
    for place in 0..words.len() {
        config = with_setting(config, words[place])?;
    }
    Ok(config)
}
