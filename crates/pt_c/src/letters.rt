//! Where the letters of a desk are: whom to wake after its next turn, and whether it has something to do.

ghost use Rattle.std.specs.Prelude.{◌≡◌};
ghost use Rattle.pt_c_values.specs.Places.{CallsThrough, ReadsThrough};
ghost use Rattle.pt_c_desks.specs.Letters.{HasLettersCode, LooksFrom, NextFromCode, desks_with};

use pt_c_desks::desk_handle::DeskHandle;
use pt_c_desks::letters;
use std::alloc::Global;

/// The desks for which letters wait in the outbox of the desk, a bit for each, the lowest that of desk 0. The next turn
/// posts to no others.
#[unsafe(no_mangle)]
pub extern "C" fn pt_letters_out(alloc: Global, h: &mut DeskHandle, out: &mut u64) -> u32
    ensures { ReadsThrough h.old.state h.new.state result (out.new ≡ out.old)
        (λ d. (result ≡ 0) × (out.new ≡ desks_with d.shard.outbox)) }
{
    letters::letters_out(alloc, h, out)
}

/// Whether a letter waits: in the outbox or the hold of the desk, or in a lane to it that shows one. The desk looks at its
/// lanes, and nothing else of it changes.
#[unsafe(no_mangle)]
pub extern "C" fn pt_has_letters(alloc: Global, h: &mut DeskHandle, out: &mut bool) -> u32
    ensures { CallsThrough h.old.state h.new.state result (out.new ≡ out.old)
        (λ old new. HasLettersCode result old out.new new) }
{
    letters::has_letters(alloc, h, out)
}

/// Lets the next turn look at the lane from desk `from` before the others, as `Desk::look_from` does.
#[unsafe(no_mangle)]
pub extern "C" fn pt_look_from(alloc: Global, h: &mut DeskHandle, from: u8) -> u32
    ensures { CallsThrough h.old.state h.new.state result (Unit {0}) (LooksFrom from result) }
{
    letters::look_from(alloc, h, from)
}

/// The desk whose lane the next letter comes from: the first that shows one, from where the next turn looks first. It
/// writes that desk to `out` if it returns 0, and returns 8 if no lane shows a letter. The desk looks at its lanes, and
/// nothing else of it changes.
#[unsafe(no_mangle)]
pub extern "C" fn pt_next_from(alloc: Global, h: &mut DeskHandle, out: &mut u8) -> u32
    ensures { CallsThrough h.old.state h.new.state result (out.new ≡ out.old)
        (λ old new. NextFromCode result old out.old out.new new) }
{
    letters::next_from(alloc, h, out)
}
