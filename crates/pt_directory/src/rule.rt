//! The rule of the words and of what the seats know, and what each kind of step tells.

use crate::view::{Shape, View};
use atomic_table::{Join, Play, Split, TableRule};
use std::marker::{Brand, PhantomData};

/// Words and reads agree with the deaths that the seats told.
pub(crate) struct DirectoryRule;

impl TableRule<(), View, Shape> for DirectoryRule {
    ghost use Rattle.pt_directory.specs.Rule.{Ruled, first_view};

    ghost holds = { Ruled };

    ghost first = { first_view };
}

/// The numbers of the pid that a step is about. Proofs choose them at each call.
pub(crate) trait Numbers {
    ghost use Rattle.std.specs.Prelude.{ℕ};

    ghost shard: { ℕ };

    ghost slot: { ℕ };

    ghost version: { ℕ };
}

impl Numbers for Brand {
    ghost shard = { 0 };

    ghost slot = { 0 };

    ghost version = { 0 };
}

/// The load of a version word.
pub(crate) struct LoadVersion<N> {
    numbers: PhantomData<N>,
}

impl<N: Numbers> Play<(), View> for LoadVersion<N> {
    ghost use Rattle.pt_directory.specs.Rule.{VersionLoaded};

    ghost then = { VersionLoaded N.shard N.slot };
}

/// The load of a death word, after that of the slot's version word.
pub(crate) struct LoadDeath;

impl Play<(), View> for LoadDeath {
    ghost use Rattle.pt_directory.specs.Rule.{DeathLoaded};

    ghost then = { DeathLoaded };
}

/// The store of a death word.
pub(crate) struct StoreDeath<N> {
    numbers: PhantomData<N>,
}

impl<N: Numbers> Play<(), View> for StoreDeath<N> {
    ghost use Rattle.pt_directory.specs.Rule.{DeathStored};

    ghost then = { DeathStored N.shard N.slot N.version };
}

/// The store of a version word, after that of the slot's death word.
pub(crate) struct StoreVersion;

impl Play<(), View> for StoreVersion {
    ghost use Rattle.pt_directory.specs.Rule.{VersionStored};

    ghost then = { VersionStored };
}

/// The load that tells what the rule says of a view.
pub(crate) struct Audit;

impl Play<(), View> for Audit {
    ghost use Rattle.pt_directory.specs.Rule.{Audited};

    ghost then = { Audited };
}

/// The load of a version word by the home of its desk, which knows what it reads.
pub(crate) struct LoadTold<N> {
    numbers: PhantomData<N>,
}

impl<N: Numbers> Play<(), View> for LoadTold<N> {
    ghost use Rattle.pt_directory.specs.Rule.{ToldLoaded};

    ghost then = { ToldLoaded N.shard N.slot };
}

/// The load that marks what was told.
pub(crate) struct Mark;

impl Play<(), View> for Mark {
    ghost use Rattle.pt_directory.specs.Rule.{Marked};

    ghost then = { Marked };
}

/// The load that makes a seat, the home of one desk.
pub(crate) struct SplitHome;

impl Split<View> for SplitHome {
    ghost use Rattle.pt_directory.specs.Rule.{one_home, other_homes};

    ghost left = { other_homes };

    ghost right = { one_home };
}

/// The load that makes a seat anew, the home of one desk, with what was told of that desk.
pub(crate) struct RenewHome;

impl Split<View> for RenewHome {
    ghost use Rattle.pt_directory.specs.Rule.{renewed_home, later_homes};

    ghost left = { later_homes };

    ghost right = { renewed_home };
}

/// The load that joins two seats.
pub(crate) struct JoinViews;

impl Join<View> for JoinViews {
    ghost use Rattle.std.specs.Prelude.{[]};
    ghost use Rattle.pt_directory.specs.Views.{joined_views, fresh_view};

    ghost both = { joined_views };

    ghost spent = { fresh_view [] };
}
