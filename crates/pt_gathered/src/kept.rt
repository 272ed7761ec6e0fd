//! What is kept of a node's directory while the node is gathered, settled and resumed.

ghost use Rattle.std.specs.Prelude.{◌≡◌};
ghost use Rattle.std.specs.Arc.{arc_value};

use pt_directory::{Directory, Seat};
use std::alloc::Global;
use std::marker::Model;
use std::sync::Arc;

/// What is kept of the directory of a node that was gathered, until the node is resumed: the directory itself, and what
/// its desks knew together. With it goes how many events each desk's journal had, so that resuming finds the exits that
/// came later.
///
/// It takes the memory of the directory. It may be dropped: the node is then resumed with a new directory.
#[derive(Drop)]
pub struct Kept {
    directory: Arc<Directory, Global>,
    seat: Seat,
    written: Vec<usize>,
}

impl Model for Kept {
    ghost use Rattle.std.specs.Arc.{arc_value};
    ghost use Rattle.pt_gathered.specs.Keeping.{KeptState};

    ghost Value = { KeptState };

    ghost view = { λ k. record {
      directory = arc_value k.directory;
      seat = k.seat;
      written = k.written.items;
    } };
}

impl Kept {
    /// The directory, the seat that has what all desks knew, and how many events each desk's journal had.
    pub fn of(directory: Arc<Directory, Global>, seat: Seat, written: Vec<usize>) -> Kept
        ensures { result ≡ record { directory = arc_value directory; seat = seat; written = written.items } }
    {
        Kept {
            directory,
            seat,
            written,
        }
    }

    /// How many events each desk's journal had.
    pub fn written(&self) -> &[usize]
        ensures { result.now ≡ self.now.written }
    {
        self.written.as_slice()
    }

    /// The directory, the seat that has what all desks knew, and how many events each desk's journal had.
    pub fn into_parts(self) -> (Arc<Directory, Global>, Seat, Vec<usize>)
        ensures directory { arc_value result.0 ≡ self.directory }
        ensures seat { result.1 ≡ self.seat }
        ensures written { result.2.items ≡ self.written }
    {
        let Kept {
            directory,
            seat,
            written,
        } = self;
        (directory, seat, written)
    }
}
