//! Lanes between the desks of a node: letters travel from desk to desk without a lock.
//!
//! A node has 1 to 64 desks, and there is a lane from each desk to each desk, also to itself. Each lane is a bounded
//! ring with a sending and a receiving end. [`open`] makes all lanes at once. For each desk in order it returns its
//! [`Outs`] (the ends by which it posts) and its [`Ins`] (the ends by which it collects).
//!
//! ```text
//! let mut ends = pt_carrier::open(alloc, 2, 16)?;
//! ends[0].0.post(1, letter)?;              // desk 0 posts a letter to desk 1, or Refused gives it back
//! let found = ends[1].1.collect();         // desk 1 collects it: Some((0, letter)), or None
//! match pt_carrier::reunite(alloc, ends) {
//!     Ok(left) => ..                       // left.lanes[0 * 2 + 1]: the letters from desk 0 that desk 1 left
//!     Err(back) => back.abandon(),         // no memory; `into_ends` gives the ends back instead
//! }
//! ```
//!
//! # Who may touch what
//!
//! An end is used by one thread at a time, through `&mut`. It may be moved or lent to any thread. The ends of different
//! desks, and the two halves of one desk, may be used at the same time. No call waits for another thread, and none but
//! `open` and `reunite` takes memory.
//!
//! # What holds
//!
//! A lane loses no letter, doubles none, invents none and keeps their order. Once all ends are together again,
//! [`reunite`] shows this for each pair of desks: the letters posted are those collected, followed by those left over.
//! A letter that is collected or left over names the two desks of its lane. It is not promised when a letter that one
//! thread posts shows to another.
//!
//! # The ends are used up, not dropped
//!
//! `Outs`, `Ins` and [`EndsBack`] cannot be dropped: a program that drops one does not compile. `reunite` takes all
//! ends of one `open`, in order of desk. If there is no memory, it gives them back, to be reunited later
//! ([`EndsBack::into_ends`]) or given up with all letters in the lanes ([`EndsBack::abandon`]).
//!
//! # Cost
//!
//! A post is one push and a collect one pop. A collect that finds nothing looks at each lane once. `open` takes the
//! memory of desks * desks rings of `capacity` letters each, and a letter allocates nothing. A letter is moved whole,
//! once into its ring and once out of it. `reunite` looks at each lane once and moves each left-over letter once.
//!
//! A caller that has several letters for one desk uses [`Outs::post_run`] in place of as many calls of `post`. The
//! letters are copied into the ring one after the other, and shown to the other end by one write for all of them.
//!
//! A caller that has both ends of a desk need not move the desk's letters to itself, if nothing is in that lane: it
//! handles them where they are, and [`Ins::go_by`] counts them as posted and as collected.
//!
//! A caller that only reads a letter uses [`Ins::next_from`], [`Ins::front`] and [`Ins::pass`] in place of `collect`.
//! The letter is then read in its ring, and removed without being moved out.
//!
//! Tests: `checks/tried/test_calls/lanes.rt.txt` and `crates/test_calls/src/layers/lanes.rt`.
//!
//! # What is proved
//!
//! - **Lanes.** For each ordered pair of desks, the letters posted are those collected, followed by those left over.
//!   (`reunite`)
//! - **Posting.** `post` fails only if its end knows the lane to be full. `post_run` posts a front of what it gets, in
//!   order, and stops early only at such a lane.
//! - **Collecting.** `collect` returns nothing only if its end knows of no letter in any lane.
//! - **Reading in place.** `next_from`, `front`, `take` and `pass` are its parts: the desk of the next letter, that
//!   letter in its lane, and taking it.
//! - **By a lane.** After `go_by` letters of a desk to itself are posted and collected, behind all that were.
//! - **No locks.** None of these takes a lock or memory, or waits.
//! - **Both ends.** After `Ins::meet` each end of the lane knows all of it.
//!
//! # For proofs above
//!
//! A contract sees a desk's ends as `OutEnds` and `InEnds` of `specs/Ends.antt`. Every call keeps their `place`. So a
//! desk stays one of its node if the `places` of its ends (`specs/Node.antt`) are as they were. `reunite` requires
//! `IsNode` of the places of all desks. `proofs/Places.antt` reads it at one desk.
#![tactic(auto)]

mod bypass;
mod ends;
mod lane;
mod opening;
mod reunion;

pub use ends::{Ins, Outs, PostCause, Refused};
pub use opening::open;
pub use pt_signal::{MAX_DESKS, MAX_LANE as MAX_CAPACITY};
pub use reunion::{Cause, EndsBack, Leftovers, reunite};
