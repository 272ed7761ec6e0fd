//! What a process of a crew does in place of what it was to do.

ghost use Rattle.std.specs.Prelude.{◌≡◌, MatchBool, is_some};
ghost use Rattle.pt_shard.specs.ShardState.{ShardState};
ghost use Rattle.pt_crew.specs.Crews.{Attends, IsSame, roles};
ghost use Rattle.pt_crew.specs.Redirecting.{IsRedirected};

use crate::crew::Crew;
use pt_behaviour::{Behaviour, Next};
use pt_workers::Pid;

impl<B: Behaviour + Drop> Crew<B> {
    /// Says what a process does next in place of what it was to do, also if it is running. It joins the queue's end then,
    /// unless it is there.
    ///
    /// It returns `false`, and nothing has changed, if the process is not of the crew. A crew that attends its desk has room
    /// in its queue. Any other crew may have none, and then the process does that when it is next woken.
    pub fn redirect(&mut self, p: Pid, next: Next) -> bool
        ensures is { result ≡ is_some (roles self.old p) }
        ensures redirected { MatchBool result (IsRedirected p next self.old self.new) (IsSame self.old self.new) }
        ensures attends { (d : ShardState) → Attends self.old d → Attends self.new d }
    {
        if self.next(p).is_none() {
            return false;
        }
        let _ = self.wake(p);
        self.set_next(p, next);
        true
    }
}
