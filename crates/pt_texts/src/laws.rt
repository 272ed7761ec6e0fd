//! The law of printed texts.

ghost use Rattle.pt_texts.specs.Laws.{AllPrintApart};

/// No two values of one type print alike.
pub fn no_two_print_alike()
    ensures { AllPrintApart }
{}
