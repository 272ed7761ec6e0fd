//! Why a line is no call.

#![tactic(auto, unfolding(crate::specs::Mistakes::mistake_text))]

ghost use Rattle.std.specs.Prelude.{◌≡◌};

use std::fmt;

/// Why a line is no call, and the place of the mistake.
#[derive(Clone, Copy, Debug, PartialEq, Eq)]
pub struct Mistake {
    /// The column of the word at fault, or the column at which a word is missing, counted in bytes from 1.
    pub column: usize,
    pub why: Why,
}

/// What is wrong with a word.
#[derive(Clone, Copy, Debug, PartialEq, Eq)]
pub enum Why {
    /// There is no call of this name.
    NoCall,
    /// It does not have the form of a name, or is the name of a call.
    NoName,
    NoPid,
    NoRef,
    NoReason,
    NoPick,
    /// It is neither `true` nor `false`.
    NoTruth,
    /// It is no decimal number, or is too great for its place.
    NoNumber,
    NoSetting,
    /// The call takes fewer words.
    TooMany,
    /// The call takes more words.
    Missing,
}

impl Mistake {
    pub(crate) fn at(column: usize, why: Why) -> Mistake
        ensures { result ≡ record { column = column; why = why } }
    {
        Mistake { column, why }
    }
}

impl fmt::Display for Why {
    ghost use Rattle.std.specs.Prelude.{Some};
    ghost use Rattle.pt_shell.specs.Mistakes.{mistake_text};

    ghost output = { λ w. Some (mistake_text w) };

    fn fmt<W: fmt::Write>(&self, f: &mut fmt::Formatter<W>) -> fmt::Result {
        f.write_str(match *self {
            Why::NoCall => "no call",
            Why::NoName => "no name",
            Why::NoPid => "no pid",
            Why::NoRef => "no reference",
            Why::NoReason => "no reason",
            Why::NoPick => "no pick",
            Why::NoTruth => "neither true nor false",
            Why::NoNumber => "no number in range",
            Why::NoSetting => "no setting",
            Why::TooMany => "a word too many",
            Why::Missing => "a word is missing",
        })
    }
}
