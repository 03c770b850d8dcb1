//! How a thread waits for another one at a ring: seven times it spins, twice as long each time, then four times it
//! leaves the processor to others. Then it sleeps, twice as long each time up to a limit. A thread that goes on soon
//! loses little, and one that waits for long burns no processor. A thread that slept for long, and waits for the same
//! again, sleeps at once: it is woken twice, not ten times.
//!
//! Nothing is claimed of time.

ghost use Rattle.std.specs.Prelude.{◌≡◌, ◌<◌, ◌++◌, ◌∷◌, [], false, length};
ghost use Rattle.rs_ring.specs.Items.{has_close};

use crossbeam_utils::Backoff;
use rs_ring::{Closing, Sender};
use std::sync::Wait;
use std::thread::Parker;
use std::time::Duration;

// The first sleep, in microseconds.
const FIRST_SLEEP: u64 = 10;

// If a thread's next sleep would be shorter than this, in microseconds, it spins before it sleeps.
const SHORT_SLEEP: u64 = 40;

// The longest sleep of a thread that others wait for, in microseconds.
const LONGEST_SLEEP: u64 = 320;

// The longest sleep of one of many threads that wait for the same other one, in microseconds: as 256 workers
// at full rings wait for one router, which takes hundreds of milliseconds to make half of all rings free.
const LONGEST_SLEEP_OF_MANY: u64 = 81_920;

/// How long a thread has waited for the same thing.
#[derive(Drop)]
pub struct Patience {
    backoff: Backoff,
    // Nobody wakes this parker: it only sleeps.
    parker: Parker,
    // How long the next sleep is, in microseconds.
    sleep: u64,
    // How long a sleep is at most, in microseconds.
    longest: u64,
}

impl Patience {
    /// Of a thread that begins to wait and for which others wait: it sleeps at most 320 microseconds at once.
    pub fn new() -> Patience {
        Patience::up_to(LONGEST_SLEEP)
    }

    /// Of one of many threads that wait for the same other one: it sleeps at most 81,920 microseconds at once.
    pub fn of_many() -> Patience {
        Patience::up_to(LONGEST_SLEEP_OF_MANY)
    }

    // Of a thread that begins to wait, with this longest sleep.
    fn up_to(longest: u64) -> Patience {
        Patience {
            backoff: Backoff::new(),
            parker: Parker::new(),
            sleep: FIRST_SLEEP,
            longest,
        }
    }

    /// Waits a little, longer than the time before. It may return at any time.
    pub fn wait(&mut self, rt: &impl Wait) {
        if !self.backoff.is_completed() {
            self.backoff.snooze();
            return;
        }
        self.parker
            .park_timeout(rt, Duration::from_micros(self.sleep));
        self.sleep = self.sleep.saturating_mul(2).min(self.longest);
    }

    // Whether the next sleep is as long as any.
    fn is_at_its_longest(&self) -> bool {
        self.sleep >= self.longest
    }

    /// Begins anew: what the thread waited for came.
    pub fn reset(&mut self) {
        self.backoff.reset();
        self.sleep = FIRST_SLEEP;
    }

    // Begins anew with a wait that is likely as long as the last one: with half of its last sleep, or with spinning if
    // that sleep was short.
    fn begin_again(&mut self) {
        self.sleep /= 4;
        if self.sleep < SHORT_SLEEP {
            self.reset();
        }
    }
}

/// Sends an item that an open ring had no room for, once half of the ring is free or the wait was long. It takes no
/// memory. `patience` is that of the last such wait at this ring, or a new one.
pub fn send_when_room<T: Closing>(
    rt: &impl Wait,
    sender: &mut Sender<T>,
    item: T,
    patience: &mut Patience,
)
    requires open { has_close T.closes sender.old.sent ≡ false }
    requires few { length sender.old.sent < T.LIMIT }
    ensures sent { sender.new.sent ≡ sender.old.sent ++ item ∷ [] }
    ensures same { sender.new.ring ≡ sender.old.ring }
{
    wait_for_room(rt, sender, patience);
    patience.begin_again();
    match sender.try_send(item) {
        Ok(_) => {}
        Err(_) => unreachable!(),
    }
}

// Waits until half of a full ring is free, so that a thread that is woken has much to send. A thread whose sleeps
// have reached their longest waits for any room.
fn wait_for_room<T: Closing>(rt: &impl Wait, sender: &mut Sender<T>, patience: &mut Patience)
    ensures room { 0 < sender.new.room }
    ensures same { sender.new ≡ record sender.old { room = sender.new.room } }
{
    let half = sender.capacity() / 2;
    for _ in rt.forever() {
        patience.wait(rt);
        let room = sender.room();
        if room > 0 && (room >= half || patience.is_at_its_longest()) {
            return;
        }
    }
    unreachable!()
}
