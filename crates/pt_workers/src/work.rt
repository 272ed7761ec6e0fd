//! What workers do with their desks.

ghost use Rattle.std.specs.Prelude.{◌≡◌, ⊤};
ghost use Rattle.pt_desk.specs.DeskState.{DeskState, GoesOn};
ghost use Rattle.pt_desk.specs.declared.turned.Turned.{Turned};
ghost use Rattle.pt_workers.specs.declared.work.Standing.{Standing};
ghost use Rattle.pt_workers.specs.declared.work.Standing.TheVariants.{Going};

use pt_desk::{Desk, Turned};

/// What a worker does with its desk in each of its turns, before the desk's own turn.
///
/// A step may do what it likes about a failed call of the desk. It promises what each call of a desk promises: the desk
/// stays the same desk of the same node, and its journal begins with the one before.
///
/// The ghost member `does` says what else a step may do: it relates the work and the desk before and after. A run
/// states its promise about its workers by it. A work that says nothing there promises nothing else.
///
/// After the desk's turn, `turned` gets what that turn did. The ghost member `hears` says what it does then: it relates
/// the work before, the desk, what the turn returned and the work after. A work that says nothing there stays as it
/// was.
///
/// A work continues for as many turns as it is asked for. A work that can end by itself is a [`Task`].
pub trait Work {
    ghost does: { Self → DeskState → Self → DeskState → Type 0 } = { λ _ _ _ _. ⊤ };

    ghost hears: { Self → DeskState → Turned → Self → Type 0 } = { λ old _ _ new. new ≡ old };

    /// One step.
    fn step(&mut self, desk: &mut Desk)
        ensures does { does self.old desk.old self.new desk.new }
        ensures goes_on { GoesOn desk.old desk.new };

    /// Called after the desk's turn that followed the step, with what that turn did. A work that does not need this
    /// does nothing here.
    fn turned(&mut self, desk: &Desk, turned: Turned)
        ensures { hears self.old desk.now turned self.new };
}

/// What a work says of itself.
#[derive(Clone, Copy, Debug, PartialEq, Eq)]
pub enum Standing {
    /// It has more to do.
    Going,
    /// It has done all its work.
    Done,
    /// It cannot do its work. The reason is in the work itself, which the run gives back.
    Failed,
}

/// A work that can end: beside its step it says whether it has more to do, is done, or has failed.
///
/// A worker asks before each of its turns. If the work is done or has failed, the worker ends, and its gate is not
/// asked again. So the desk still has its turn after the last step, and what arrives at the desk later waits.
/// [`Ran::standing`](crate::Ran::standing) returns afterwards what each work says.
///
/// What it says is the ghost member `standing`. Each [`Work`] is a task that always has more to do.
pub trait Task {
    ghost does: { Self → DeskState → Self → DeskState → Type 0 } = { λ _ _ _ _. ⊤ };

    ghost hears: { Self → DeskState → Turned → Self → Type 0 } = { λ old _ _ new. new ≡ old };

    ghost standing: { Self → Standing };

    /// One step, as [`Work::step`].
    fn step(&mut self, desk: &mut Desk)
        ensures does { does self.old desk.old self.new desk.new }
        ensures goes_on { GoesOn desk.old desk.new };

    /// Called after the desk's turn that followed the step, with what that turn did, as [`Work::turned`].
    fn turned(&mut self, desk: &Desk, turned: Turned)
        ensures { hears self.old desk.now turned self.new };

    /// Whether it has more to do, is done, or has failed.
    fn standing(&self) -> Standing
        ensures { result ≡ standing self.now };
}

impl<W: Work> Task for W {
    ghost does = { W.does };

    ghost hears = { W.hears };

    ghost standing = { λ _. Going };

    fn step(&mut self, desk: &mut Desk) {
        Work::step(self, desk)
    }

    fn turned(&mut self, desk: &Desk, turned: Turned) {
        Work::turned(self, desk, turned)
    }

    fn standing(&self) -> Standing {
        Standing::Going
    }
}
