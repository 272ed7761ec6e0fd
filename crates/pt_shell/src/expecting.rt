//! The lines of the last answer, compared one after the other.

ghost use Rattle.std.specs.Prelude.{◌≡◌, drop};
ghost use Rattle.pt_shell.specs.Sessions.{line_in};

/// The line at that place of a text, without its line feed.
pub(crate) fn line_at(text: &[u8], place: usize) -> &[u8]
    ensures { result.now ≡ line_in (drop place text.now) }
{
    if text.len() < place {
        return &text[..0];
    }
    first_line(&text[place..])
}

/// The text before the first line feed.
#[tactic(auto, using(crate::proofs::LineIn::ends, crate::proofs::LineIn::goes_on, crate::proofs::LineIn::at_end))]
fn first_line(text: &[u8]) -> &[u8]
    ensures { result.now ≡ line_in text.now }
{
    for end in 0..text.len() {
        if text[end] == b'\n' {
            return &text[..end];
        }
    }
    text
}
