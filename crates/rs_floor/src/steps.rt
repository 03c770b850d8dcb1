//! The turns of a schedule, one after another.

ghost use Rattle.std.specs.Prelude.{◌≡◌, ℕ, length, slice_get, OnOk, IfOk};
ghost use Rattle.std.specs.Option.{option_map};
ghost use Rattle.rs_floor.specs.Lane.{lane_after, lane_through};
ghost use Rattle.rs_floor.specs.Steps.{HoldReceived, IsEnd};
ghost use Rattle.rs_floor.specs.declared.turn.Turn.TheVariants.{Send, Receive};

use crate::counts::Counts;
use crate::lane::Lane;
use crate::opening::all_counts;
use crate::turn::Turn;
use rs_table::Tables;
use std::alloc::{AllocError, Global};

// Takes all turns in order, and answers how far each peer came. Refused if memory is; then some turns were taken.
pub(crate) fn run_turns(
    alloc: Global,
    lanes: &mut [Lane<'_>],
    tables: &mut Tables,
    turns: &[Turn],
) -> Result<Vec<Counts>, AllocError>
    requires count { length lanes.old ≡ length tables.old.plan.peers }
    requires held { HoldReceived tables.old lanes.old }
    ensures end { IfOk result (λ counts. IsEnd turns.now lanes.old counts.items tables.new) }
    ensures plan { OnOk result ((tables.new.plan ≡ tables.old.plan)
        × (length tables.new.ribs ≡ length tables.old.ribs)) }
{
    take_turns(lanes, tables, turns)?;
    all_counts(alloc, lanes)
}

// Takes all turns in order. Refused if memory is; then some were taken.
fn take_turns(lanes: &mut [Lane<'_>], tables: &mut Tables, turns: &[Turn]) -> Result<(), AllocError>
    requires count { length lanes.old ≡ length tables.old.plan.peers }
    requires held { HoldReceived tables.old lanes.old }
    ensures turns { OnOk result ((peer : ℕ)
        → slice_get lanes.new peer ≡ option_map (lane_through turns.now peer) (slice_get lanes.old peer)) }
    ensures held { OnOk result (HoldReceived tables.new lanes.new) }
    ensures plan { OnOk result ((tables.new.plan ≡ tables.old.plan)
        × (length tables.new.ribs ≡ length tables.old.ribs)) }
{
    for turn in turns {
        take_turn(lanes, tables, *turn)?;
    }
    Ok(())
}

// Takes one turn: of a peer that isn't there it does nothing.
fn take_turn(lanes: &mut [Lane<'_>], tables: &mut Tables, turn: Turn) -> Result<(), AllocError>
    requires count { length lanes.old ≡ length tables.old.plan.peers }
    requires held { HoldReceived tables.old lanes.old }
    ensures turn { OnOk result ((peer : ℕ)
        → slice_get lanes.new peer ≡ option_map (λ lane. lane_after peer lane turn) (slice_get lanes.old peer)) }
    ensures held { OnOk result (HoldReceived tables.new lanes.new) }
    ensures plan { OnOk result ((tables.new.plan ≡ tables.old.plan)
        × (length tables.new.ribs ≡ length tables.old.ribs)) }
{
    match turn {
        Turn::Send(peer) => send(lanes, peer),
        Turn::Receive(peer) => receive(lanes, tables, peer),
    }
}

// Sends the next change of a peer.
fn send(lanes: &mut [Lane<'_>], peer: usize) -> Result<(), AllocError>
    ensures { OnOk result ((other : ℕ)
        → slice_get lanes.new other
        ≡ option_map (λ lane. lane_after other lane (Send peer)) (slice_get lanes.old other)) }
{
    if peer >= lanes.len() {
        return Ok(());
    }
    lanes[peer].send()
}

// Receives a change of a peer, and the tables take it.
fn receive(lanes: &mut [Lane<'_>], tables: &mut Tables, peer: usize) -> Result<(), AllocError>
    requires count { length lanes.old ≡ length tables.old.plan.peers }
    requires held { HoldReceived tables.old lanes.old }
    ensures turn { OnOk result ((other : ℕ)
        → slice_get lanes.new other
        ≡ option_map (λ lane. lane_after other lane (Receive peer)) (slice_get lanes.old other)) }
    ensures held { OnOk result (HoldReceived tables.new lanes.new) }
    ensures plan { OnOk result ((tables.new.plan ≡ tables.old.plan)
        × (length tables.new.ribs ≡ length tables.old.ribs)) }
{
    if peer >= lanes.len() {
        return Ok(());
    }
    let Some(word) = lanes[peer].receive() else {
        return Ok(());
    };
    tables.apply(peer, word)
}
