//! The desks of a new node.

ghost use Rattle.std.specs.Prelude.{IfOk};
ghost use Rattle.pt_signal.specs.Settings.{IsInRange};
ghost use Rattle.pt_node.specs.Opening.{Opens, AreFreshShards, AreFreshTables};

use crate::making::make_whole;
use crate::seating::fresh_seats;
use pt_accounts::DeskLives;
use pt_desk::Desk;
use pt_shard::{Config, OpenError, Shard};
use std::alloc::{AllocError, Global};

/// Opens a node and returns its desks, in order, on which nothing has happened. Each desk has its ends of all lanes,
/// and its seat in one directory of exited processes.
///
/// Fails with `Bounds` exactly if a setting is out of its range, naming the first such setting. Else it fails with
/// `Memory` if there is none.
pub fn open(alloc: Global, config: Config) -> Result<Vec<Desk>, OpenError>
    ensures { Opens config result }
{
    if let Some(setting) = config.out_of_range() {
        return Err(OpenError::Bounds(setting));
    }
    let Ok(shards) = fresh_shards(alloc, config) else {
        return Err(OpenError::Memory);
    };
    let Ok(tables) = fresh_tables(alloc, config) else {
        return Err(OpenError::Memory);
    };
    let Ok(seats) = fresh_seats(alloc, config, &[]) else {
        return Err(OpenError::Memory);
    };
    let Ok(mut desks) = Vec::with_capacity(alloc, usize::from(config.desks)) else {
        return Err(OpenError::Memory);
    };
    let Ok(pairs) = pt_carrier::open(alloc, config.desks, config.lane) else {
        desks.destroy_empty();
        return Err(OpenError::Memory);
    };
    make_whole(pairs, shards, seats, tables, &mut desks);
    Ok(desks)
}

/// The desks without their lanes, in order.
fn fresh_shards(alloc: Global, config: Config) -> Result<Vec<Shard>, AllocError>
    requires { IsInRange config }
    ensures { IfOk result (λ v. AreFreshShards config v.items) }
{
    let mut shards = Vec::with_capacity(alloc, usize::from(config.desks))?;
    for number in 0..config.desks {
        shards.push(Shard::new(alloc, config, number)?)?;
    }
    Ok(shards)
}

/// The table of what was before the journal, which is nothing, for each desk.
fn fresh_tables(alloc: Global, config: Config) -> Result<Vec<DeskLives>, AllocError>
    ensures { IfOk result (λ v. AreFreshTables config v.items) }
{
    let mut tables = Vec::with_capacity(alloc, usize::from(config.desks))?;
    for number in 0..config.desks {
        tables.push(DeskLives::new(alloc, number))?;
    }
    Ok(tables)
}
