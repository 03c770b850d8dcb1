//! One peer of a schedule: its session, and the ring between it and the tables.

ghost use Rattle.std.specs.Prelude.{◌≡◌, ◌+◌, ◌<◌, ◌^◌, false, true, length, slice_get, Some, IfOk, OnOk};
ghost use Rattle.std.specs.Prelude.{IfSome, IfNone};
ghost use Rattle.std.specs.List.{list_any};
ghost use Rattle.rs_ring.specs.Items.{is_capacity};
ghost use Rattle.rs_session.specs.Change.{change_of, is_close};
ghost use Rattle.rs_floor.specs.Lane.{fresh_lane, received_of};
ghost use Rattle.rs_floor.specs.Schedule.{after_send, after_receive};

use crate::counts::Counts;
use rs_mrt::Records;
use rs_ring::{Numbered, Receiver, Sender, ring};
use rs_session::{
    PeerId, Session, Word, a_file_says_no_more_changes_than_octets, a_session_closes_once,
};
use std::alloc::{AllocError, Global};
use std::marker::Model;

// A peer's session, and the two ends of its ring.
#[derive(Drop)]
pub(crate) struct Lane<'a> {
    session: Session<Records<'a>>,
    sender: Sender<Word>,
    receiver: Receiver<Word>,
    capacity: usize,
    // How many changes were received.
    received: u64,
}

impl<'a> Model for Lane<'a> {
    ghost use Rattle.rs_floor.specs.Lane.{LaneContent};

    ghost Value = { LaneContent };

    ghost use Rattle.rs_floor.specs.LaneView.{lane_view, IsLane};

    ghost view = { lane_view };

    ghost invariant = { IsLane };
}

impl<'a> Lane<'a> {
    // The lane of a peer with this file, before anything was sent. Refused if memory is.
    pub(crate) fn new(
        alloc: Global,
        file: &'a [u8],
        peer: PeerId,
        capacity: usize,
    ) -> Result<Lane<'a>, AllocError>
        requires file { length file.now < 2 ^ 50 }
        requires capacity { is_capacity capacity ≡ true }
        ensures { IfOk result (λ lane. lane ≡ fresh_lane capacity peer file.now) }
    {
        a_session_closes_once();
        a_file_says_no_more_changes_than_octets();
        let Ok((sender, receiver)) = ring(alloc, capacity) else {
            return Err(AllocError);
        };
        Ok(Lane {
            session: Session::new(alloc, file, peer),
            sender,
            receiver,
            capacity,
            received: 0,
        })
    }

    // Sends the next change, if one is left and fewer than the capacity wait. Refused if the session is
    // refused memory.
    pub(crate) fn send(&mut self) -> Result<(), AllocError>
        ensures { OnOk result (self.new
            ≡ record self.old { counts = after_send self.old.capacity (length self.old.recorded) self.old.counts }) }
    {
        if self.receiver.beside(&mut self.sender) >= self.capacity {
            return Ok(());
        }
        let Some(word) = self.session.next_word()? else {
            return Ok(());
        };
        match self.sender.try_send(word) {
            Ok(_) => Ok(()),
            Err(_) => unreachable!(),
        }
    }

    // Receives a change, if one waits.
    pub(crate) fn receive(&mut self) -> Option<Word>
        ensures counts { self.new ≡ record self.old { counts = after_receive self.old.counts } }
        ensures given { IfSome result (λ word. slice_get self.old.recorded self.old.counts.received
            ≡ Some (change_of word)) }
        ensures more { IfSome result (λ word. self.new.counts.received ≡ self.old.counts.received + 1) }
        // Nothing closed before it.
        ensures open { IfSome result (λ word. list_any is_close (received_of self.old) ≡ false) }
        ensures none { IfNone result (self.new ≡ self.old) }
    {
        if self.receiver.beside(&mut self.sender) == 0 {
            return None;
        }
        let Numbered { number: _, item } = self.receiver.try_receive()?;
        self.received += 1;
        Some(item)
    }

    // How far the peer has come.
    pub(crate) fn counts(&self) -> Counts
        ensures { result ≡ self.now.counts }
    {
        Counts {
            sent: self.sender.sent(),
            received: self.received,
        }
    }
}
