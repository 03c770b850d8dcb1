//! Rings whose ends are in one thread.

ghost use Rattle.std.specs.Prelude.{◌≡◌};

use super::items::{Ended, Ends, Item, last, plain};
use rs_ring::{Numbered, Receiver, RingRefused, SendRefused, ring};
use std::alloc::{AllocError, Global};
use std::process::Abort;
use std::test::*;

// Appends what came of a send: the number of the item, or the refusal and the item.
fn add_sent(said: &mut String, answer: Result<u64, SendRefused<Item>>) -> Result<(), AllocError> {
    let refused = match answer {
        Ok(number) => return write!(said, "{number}, "),
        Err(refused) => refused,
    };
    write!(said, "{refused}: ")?;
    let item = match refused {
        SendRefused::Closed(item) => item,
        SendRefused::Full(item) => item,
    };
    let value = item.value;
    write!(said, "{value}, ")
}

// Receives, and appends what came: the number and the value of the item, or nothing, and whether the ring is closed
// then.
fn receive(said: &mut String, receiver: &mut Receiver<Item>) -> Result<(), AllocError>
    ensures { receiver.new.ring ≡ receiver.old.ring }
{
    match receiver.try_receive() {
        Some(Numbered { number, item }) => {
            let value = item.value;
            write!(said, "{number}:{value}")?;
        }
        None => said.push_str("nothing")?,
    }
    said.push_str(if receiver.closed() { " closed, " } else { ", " })
}

// The item of a word: `l6` closes the ring, `s5` doesn't.
fn item_of(word: &str) -> Option<Item> {
    match word.strip_prefix('l') {
        Some(value) => Some(last(value.parse().ok()?)),
        None => Some(plain(word.strip_prefix('s')?.parse().ok()?)),
    }
}

// Takes a step on an open ring, and appends what came of it.
fn step(said: &mut String, ends: &mut Ends, word: &str) -> Option<()> {
    if word == "r" {
        return receive(said, &mut ends.receiver).ok();
    }
    if word == "w" {
        let waiting = ends.waiting();
        return write!(said, "{waiting} wait, ").ok();
    }
    let answer = ends.send(item_of(word)?);
    add_sent(said, answer).ok()
}

// Takes a step on a ring whose sender finished, and appends what came of it.
fn step_after(said: &mut String, ended: &mut Ended, word: &str) -> Option<()> {
    if word == "r" {
        return receive(said, &mut ended.receiver).ok();
    }
    let waiting = ended.waiting();
    write!(said, "{waiting} wait, ").ok()
}

// Appends what comes of the steps on an open ring, and then of those after its sender finished.
fn add_steps(said: &mut String, ends: Ends, steps: &str) -> Option<()> {
    let mut ends = ends;
    let (before, after) = steps.split_once("finish").unwrap_or((steps, ""));
    for word in before.split_whitespace() {
        step(said, &mut ends, word)?;
    }
    let sent = ends.sender.sent();
    let mut ended = ends.finish()?;
    for word in after.split_whitespace() {
        step_after(said, &mut ended, word)?;
    }
    write!(said, "{sent} sent").ok()
}

// What comes of these steps on a ring of this capacity, and how many items were sent.
fn said_of(alloc: Global, capacity: usize, steps: &str) -> Option<String> {
    let mut said = String::new(alloc);
    match Ends::new(alloc, capacity) {
        Ok(ends) => add_steps(&mut said, ends, steps)?,
        Err(refused) => write!(said, "{refused}").ok()?,
    }
    Some(said)
}

// A ring's capacity, steps on it, and what comes of them: `s5` and `l5` send, `r` receives, `w` asks how many wait, and
// `finish` ends the sending.
const RINGS: &[(usize, &str, &str)] = &[
    // A capacity is from 1 to 65,536.
    (0, "", "ring capacity not from 1 to 65536"),
    (1, "", "0 sent"),
    (65_536, "s1", "0, 1 sent"),
    (65_537, "", "ring capacity not from 1 to 65536"),
    // A ring of one item takes turns.
    (
        1,
        "s3 s4 r r s3 w",
        "0, full ring: 4, 0:3, nothing, 1, 1 wait, 2 sent",
    ),
    // A closed ring is closed also where it is full, and if it is empty.
    (
        2,
        "s5 l6 s7 r l8 r s9 r",
        "0, 1, a closing item was sent before: 7, 0:5, a closing item was sent before: 8, 1:6 closed, \
        a closing item was sent before: 9, nothing closed, 2 sent",
    ),
    (
        1,
        "l1 l2 w r w l3",
        "0, a closing item was sent before: 2, 1 wait, 0:1 closed, 0 wait, a closing item was sent before: 3, 1 sent",
    ),
    // The token of a sender shows all that was sent.
    (
        4,
        "s0 s1 s2 s3 r finish w r w r w r w r w",
        "0, 1, 2, 3, 0:0, 3 wait, 1:1, 2 wait, 2:2, 1 wait, 3:3, 0 wait, nothing, 0 wait, 4 sent",
    ),
    (4, "finish w r", "0 wait, nothing, 0 sent"),
];

#[test]
fn rings_do_what_their_rows_want(rt: HostRuntime) {
    for (capacity, steps, wanted) in RINGS {
        let said = said_of(rt.alloc(), *capacity, steps).expect(&rt, "memory, and a token");
        assert_eq!(rt; said.as_str(), *wanted, "{capacity}: {steps}");
    }
}

#[test]
fn no_token_comes_where_the_receiver_is_gone(rt: HostRuntime) -> Result<(), Fail> {
    let (sender, receiver) = ring::<Item>(rt.alloc(), 4)?;
    drop(receiver);
    assert!(rt; sender.finish().is_none());
    Ok(())
}

#[test]
fn want_of_memory_has_a_text(rt: HostRuntime) -> Result<(), Fail> {
    let full = SendRefused::Full(plain(1));
    let said = format!(in rt.alloc(); "{}, {full:?}", RingRefused::Memory)?;
    assert_eq!(rt; said.as_str(), "out of memory, Full(_)");
    Ok(())
}

// What a ring of a capacity is to answer: how many items were sent, and how many received.
#[derive(Clone, Copy)]
struct Counts {
    sent: u64,
    received: u64,
    capacity: u64,
}

// The item of a number, which looks random (multiplicative, modulo 2^32).
fn item_at(number: u64) -> Item {
    let [a, b, c, d, ..] = number.to_le_bytes();
    plain(u32::from_le_bytes([a, b, c, d]).wrapping_mul(1_664_525))
}

impl Counts {
    fn waiting(&self) -> u64 {
        self.sent.wrapping_sub(self.received)
    }

    // Sends the next item. Answers whether all is right: it is refused exactly if the ring is full.
    fn send(&mut self, ends: &mut Ends) -> bool {
        let (number, full) = (self.sent, self.waiting() >= self.capacity);
        match ends.send(item_at(number)) {
            Ok(sent) => {
                self.sent = number.wrapping_add(1);
                sent == number && !full
            }
            Err(SendRefused::Full(item)) => full && item == item_at(number),
            Err(SendRefused::Closed(_)) => false,
        }
    }

    // Receives an item. Answers whether all is right: it is the next one, and none comes exactly if none waits.
    fn receive(&mut self, ends: &mut Ends) -> bool {
        let (number, empty) = (self.received, self.waiting() == 0);
        match ends.receiver.try_receive() {
            Some(given) => {
                self.received = number.wrapping_add(1);
                given.number == number && given.item == item_at(number) && !empty
            }
            None => empty,
        }
    }

    // Sends or receives. Answers whether all is right, and as many items wait as are to.
    fn step(&mut self, ends: &mut Ends, sends: bool) -> bool {
        let right = if sends {
            self.send(ends)
        } else {
            self.receive(ends)
        };
        right && ends.waiting() as u64 == self.waiting()
    }
}

// Steps that look random (multiplicative, modulo 2^32) on a ring of this capacity are those of a plain list.
fn check_random_steps(rt: &impl Abort, alloc: Global, capacity: usize) -> Result<(), RingRefused> {
    let mut ends = Ends::new(alloc, capacity)?;
    let mut counts = Counts {
        sent: 0,
        received: 0,
        capacity: capacity as u64,
    };
    let mut state = 11u32;
    for _ in 0..4_000 {
        state = state.wrapping_mul(1_664_525).wrapping_add(1_013_904_223);
        assert!(rt;
            counts.step(&mut ends, state >> 16 & 1 == 1),
            "of {capacity}"
        );
    }
    assert!(rt; counts.sent > 500 && counts.received > 500, "of {capacity}");
    Ok(())
}

#[test]
fn random_steps_are_those_of_a_plain_list(rt: HostRuntime) -> Result<(), Fail> {
    for capacity in [1, 2, 3, 7, 64] {
        check_random_steps(&rt, rt.alloc(), capacity)?;
    }
    Ok(())
}
