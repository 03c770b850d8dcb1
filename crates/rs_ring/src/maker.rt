//! Makes rings.

ghost use Rattle.std.specs.Prelude.{◌≡◌, [], IfOk, IfErr, true, false, Err};
ghost use Rattle.rs_ring.specs.Items.{is_capacity};
ghost use Rattle.rs_ring.specs.declared.fault.RingRefused.TheVariants.{Capacity, Memory};

use crate::closing::{Closing, UntilClose};
use crate::fault::RingRefused;
use crate::receiver::Receiver;
use crate::sender::Sender;
use rtrb::RingBuffer;
use std::alloc::Global;

/// How many items a ring has room for at most.
pub const MAX_CAPACITY: usize = 65536;

/// The two ends of a new ring, which has room for `capacity` items.
///
/// Fails with `Capacity` if `capacity` isn't from 1 to 65,536, which is tested first, and with `Memory` if memory is
/// refused.
pub fn ring<T: Closing>(
    alloc: Global,
    capacity: usize,
) -> Result<(Sender<T>, Receiver<T>), RingRefused>
    ensures pair { IfOk result (λ ends. ends.0.ring ≡ ends.1.ring) }
    ensures sender { IfOk result (λ ends. (ends.0.sent ≡ []) × (ends.0.room ≡ capacity)
        × (ends.0.capacity ≡ capacity)) }
    ensures receiver { IfOk result (λ ends. (ends.1.received ≡ []) × (ends.1.waiting ≡ [])
        × (ends.1.capacity ≡ capacity)) }
    ensures capacity { is_capacity capacity ≡ false → result ≡ Err Capacity }
    ensures memory { is_capacity capacity ≡ true → IfErr result (λ fault. fault ≡ Memory) }
{
    if !(1..=MAX_CAPACITY).contains(&capacity) {
        return Err(RingRefused::Capacity);
    }
    let (producer, consumer) = RingBuffer::with_protocol::<Global, UntilClose>(alloc, capacity)?;
    Ok((Sender::new(producer), Receiver::new(consumer)))
}
