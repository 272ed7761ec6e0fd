//! Workers that end by themselves: each ends once no letter has arrived at its desk, or left it, for some turns.
//!
//! A run takes as many turns as it is asked for. If it is to end when the work is done, each desk gets such a worker,
//! and the run as many turns as there can be. What arrives at a desk whose worker has ended waits there:
//! [`Node::turn_until_still`](pt_node::Node::turn_until_still) delivers it.

ghost use Rattle.std.specs.Prelude.{◌≡◌};
ghost use Rattle.example_uses.specs.Quiet.{EndsQuietly, did_nothing};

use pt_node::{Desk, Standing, Task, Turned, Work};

/// A work that is done once so many turns in a row have neither posted nor handled a letter of its desk, and were not
/// stopped. Else it does what the work within does.
#[derive(Clone, Copy, Debug)]
pub struct UntilQuiet<W> {
    work: W,
    /// The number of turns in a row, up to the last one, that did nothing.
    quiet: u64,
    /// The number of them that is enough.
    enough: u64,
}

impl<W> UntilQuiet<W> {
    /// This work, until so many turns in a row have done nothing.
    pub fn new(work: W, enough: u64) -> UntilQuiet<W>
        ensures { result ≡ record { work = work; quiet = 0; enough = enough } }
    {
        UntilQuiet {
            work,
            quiet: 0,
            enough,
        }
    }

    /// The work within.
    pub fn work(&self) -> &W
        ensures { result.now ≡ self.now.work }
    {
        &self.work
    }

    /// The number of turns in a row, up to the last one, that did nothing.
    pub fn quiet(&self) -> u64
        ensures { result ≡ self.now.quiet }
    {
        self.quiet
    }
}

impl<W: Work> Task for UntilQuiet<W> {
    ghost use Rattle.example_uses.specs.Quiet.{HearsWithin, StepsWithin, quiet_standing};

    ghost does = { StepsWithin W.Work.does };

    ghost hears = { HearsWithin W.Work.hears };

    ghost standing = { quiet_standing };

    fn step(&mut self, desk: &mut Desk) {
        self.work.step(desk);
    }

    fn turned(&mut self, desk: &Desk, turned: Turned) {
        self.work.turned(desk, turned);
        self.quiet = if did_nothing(&turned) {
            self.quiet.saturating_add(1)
        } else {
            0
        };
    }

    fn standing(&self) -> Standing {
        if self.enough <= self.quiet {
            Standing::Done
        } else {
            Standing::Going
        }
    }
}

/// Whether the turn posted and handled nothing, and was not stopped.
fn did_nothing(turned: &Turned) -> bool
    ensures { result ≡ did_nothing turned.now }
{
    turned.posted == 0 && turned.handled == 0 && turned.stopped.is_none()
}

/// In a run at an open gate, such a worker ends only after enough turns in a row that did nothing, or after all its
/// turns. The function does nothing: its contract is the promise.
pub fn ends_behind_quiet_turns<W: Work>(_work: &W)
    ensures { EndsQuietly (W.Work.does, W.Work.hears) }
{}
