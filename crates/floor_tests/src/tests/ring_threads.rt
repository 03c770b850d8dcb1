//! A ring between two threads.

use super::items::{Item, last, plain};
use rs_ring::{Closing, Numbered, Receiver, RingRefused, SendRefused, Sender, ring};
use std::alloc::Global;
use std::sync::Wait;
use std::test::*;
use std::thread;
use std::thread::Threads;

// Sends a number, once there is room.
fn send_waiting(rt: &impl Wait, sender: &mut Sender<Item>, item: Item) -> bool {
    for _ in rt.forever() {
        if sender.sent() >= Item::LIMIT {
            return false;
        }
        match sender.try_send(item) {
            Ok(_) => return true,
            Err(SendRefused::Closed(_)) => return false,
            Err(SendRefused::Full(_)) => thread::yield_now(),
        }
    }
    unreachable!()
}

// Sends the numbers below a count, and a last item.
fn send_all(rt: &impl Wait, sender: Sender<Item>, count: u32) -> bool {
    let mut sender = sender;
    for value in 0..count {
        if !send_waiting(rt, &mut sender, plain(value)) {
            return false;
        }
    }
    send_waiting(rt, &mut sender, last(count))
}

// Receives up to the last item, and answers how many came if each has its place as its number and as its value.
fn receive_all(rt: &impl Wait, receiver: Receiver<Item>) -> Option<u32> {
    let mut receiver = receiver;
    let mut place = 0u32;
    for _ in rt.forever() {
        if receiver.closed() {
            return Some(place);
        }
        let Some(Numbered { number, item }) = receiver.try_receive() else {
            thread::yield_now();
            continue;
        };
        if number != u64::from(place) || item.value != place {
            return None;
        }
        place = place.wrapping_add(1);
    }
    unreachable!()
}

// Moves a count of numbers through a ring between two threads.
fn through<R: Threads + Wait + Sync>(
    rt: &R,
    alloc: Global,
    capacity: usize,
    count: u32,
) -> Result<(bool, Option<u32>), RingRefused> {
    let (sender, receiver) = ring::<Item>(alloc, capacity)?;
    Ok(thread::join(
        rt,
        move || -> bool { send_all(rt, sender, count) },
        move || -> Option<u32> { receive_all(rt, receiver) },
    ))
}

#[test]
fn all_items_come_in_order_from_another_thread(rt: HostRuntime) -> Result<(), Fail> {
    for capacity in [1, 3, 64] {
        let answers = through(&rt, rt.alloc(), capacity, 3_000)?;
        assert_eq!(rt; answers, (true, Some(3_001)), "through {capacity}");
    }
    Ok(())
}
