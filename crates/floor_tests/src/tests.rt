//! Rings in one thread and between two; workers, the router and shards on threads of their own; whole runs and
//! schedules.

mod by_hand;
mod changes;
mod dumps;
mod exchanges;
mod gates;
mod items;
mod many;
mod ring_threads;
mod rings;
mod routers;
mod rows;
mod sessions;
mod shards;
mod workers;
