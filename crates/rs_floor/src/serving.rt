//! Whole runs on threads by the default standard: with so many shards, with one, and over files at hand.

ghost use Rattle.std.specs.Prelude.{◌≡◌, ◌<◌, ◌^◌, All, length, map};
ghost use Rattle.std.specs.Prelude.{Err};
ghost use Rattle.rs_floor.specs.ServeFiles.{ServeFilesAnswer};
ghost use Rattle.rs_serve.specs.ServeAnswer.{ServeAnswer};
ghost use Rattle.rs_serve.specs.declared.fault.FloorRefused.TheVariants.{Shards};
ghost use Rattle.rs_session.specs.FileChanges.{default_standard};

use rs_choice::Exchange;
use rs_mrt::Read;
use rs_serve::{FloorRefused, Served, has_room, readers_of, serve_by};
use rs_update::Errors;
use rs_worker::Gate;
use std::alloc::Global;
use std::sync::{Arc, Wait};
use std::thread::Threads;

/// `serve_by` that handles faults in messages as RFC 4271 says.
pub fn serve_sharded<T: Threads + Wait + Sync, R: Read + Send + Drop, G: Gate>(
    rt: &T,
    alloc: Global,
    plan: &Arc<Exchange>,
    readers: Vec<R>,
    capacity: usize,
    shards: usize,
    gate: &G,
) -> Result<Served, FloorRefused>
    requires as_many { length readers.items ≡ length plan.now.value.peers }
    requires failures { All (λ reader. R.failures reader < u64.MAX) readers.items }
    ensures answer { ServeAnswer R.gives default_standard plan.now.value readers.items capacity shards result }
{
    serve_by(
        rt,
        alloc,
        plan,
        readers,
        capacity,
        shards,
        Errors::Rfc4271,
        gate,
    )
}

/// `serve_sharded` with one shard. So it never fails with `Shards`.
pub fn serve_readers<T: Threads + Wait + Sync, R: Read + Send + Drop, G: Gate>(
    rt: &T,
    alloc: Global,
    plan: &Arc<Exchange>,
    readers: Vec<R>,
    capacity: usize,
    gate: &G,
) -> Result<Served, FloorRefused>
    requires as_many { length readers.items ≡ length plan.now.value.peers }
    requires failures { All (λ reader. R.failures reader < u64.MAX) readers.items }
    ensures answer { ServeAnswer R.gives default_standard plan.now.value readers.items capacity 1 result }
    // One shard is a number of shards.
    ensures one_shard { result ≡ Err Shards → ⊥ }
{
    serve_sharded(rt, alloc, plan, readers, capacity, 1, gate)
}

/// `serve_readers` over files that are at hand as a whole, each shorter than 2^50 octets. So it never fails with
/// `Shards` or with `Read`.
pub fn serve<T: Threads + Wait + Sync, G: Gate>(
    rt: &T,
    alloc: Global,
    plan: &Arc<Exchange>,
    files: &[&[u8]],
    capacity: usize,
    gate: &G,
) -> Result<Served, FloorRefused>
    requires as_many { length files.now ≡ length plan.now.value.peers }
    requires limit { All (λ file. length file.now < 2 ^ 50) files.now }
    ensures answer { ServeFilesAnswer default_standard plan.now.value (map (λ file. file.now) files.now) capacity
        result }
{
    if !has_room(capacity) {
        return Err(FloorRefused::Capacity);
    }
    let readers = readers_of(alloc, files)?;
    serve_readers(rt, alloc, plan, readers, capacity, gate)
}
