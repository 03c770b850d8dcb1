//! Records on their way from the thread that reads a recording to the one that reads a peer's session.

ghost use Rattle.std.specs.Prelude.{◌≡◌, ◌<◌, ◌++◌, ◌∷◌, [], length, slice_get, IfOk, OnErr, OnOk, Some};
ghost use Rattle.std.specs.Option.{option_map};
ghost use Rattle.rs_mrt.specs.Record.{record_of};
ghost use Rattle.rs_share.specs.Batches.{Heard};

use rs_mrt::Record;
use std::alloc::{AllocError, Global};
use std::marker::Model;

// What is kept of a record beside the octets of its body.
#[derive(Clone, Copy, Drop)]
pub(crate) struct Head {
    // How many records of others come right before it.
    pub(crate) others: u64,
    pub(crate) time: u32,
    pub(crate) kind: u16,
    pub(crate) subtype: u16,
    // Where its body begins and ends among the octets.
    pub(crate) start: usize,
    pub(crate) end: usize,
}

/// Records of one peer, each with the number of records of others that come right before it.
#[derive(Drop)]
pub(crate) struct Batch {
    heads: Vec<Head>,
    octets: Vec<u8>,
}

impl Model for Batch {
    ghost use Rattle.std.specs.Prelude.{List, All, map};
    ghost use Rattle.rs_share.specs.Batches.{Heard, IsWithin, heard_in};

    ghost Value = { List Heard };

    ghost view = { λ b. map (heard_in b.octets.items) b.heads.items };

    ghost invariant = { λ b. All (IsWithin b.octets.items) b.heads.items };
}

impl Batch {
    /// How many octets the numbers of a record take.
    pub(crate) const HEAD_OCTETS: usize = 32;

    /// No records, without room.
    pub(crate) fn none(alloc: Global) -> Batch
        ensures { result ≡ [] }
    {
        Batch {
            heads: Vec::new(alloc),
            octets: Vec::new(alloc),
        }
    }

    /// No records, with room for so many whose bodies have so many octets in all.
    pub(crate) fn with_room(
        alloc: Global,
        records: usize,
        octets: usize,
    ) -> Result<Batch, AllocError>
        ensures { IfOk result (λ batch. batch ≡ []) }
    {
        Ok(Batch {
            heads: Vec::with_capacity(alloc, records)?,
            octets: Vec::with_capacity(alloc, octets)?,
        })
    }

    /// How many records it has.
    pub(crate) fn len(&self) -> usize
        ensures { result ≡ length self.now }
    {
        self.heads.len()
    }

    /// Whether there is room for one record more, whose body has so many octets.
    pub(crate) fn has_room(&self, octets: usize) -> bool {
        self.heads.len() < self.heads.capacity()
            && octets <= self.octets.capacity().saturating_sub(self.octets.len())
    }

    /// Adds a record behind so many of others. It takes memory only if there is no room. If memory is refused, nothing
    /// is added.
    pub(crate) fn push(&mut self, others: u64, record: &Record<'_>) -> Result<(), AllocError>
        ensures added { OnOk result (self.new
            ≡ self.old ++ record { others = others; own = record_of «record».now } ∷ []) }
        ensures refused { OnErr result (self.new ≡ self.old) }
    {
        let start = self.octets.len();
        self.octets.extend_from_slice(record.body)?;
        let head = Head {
            others,
            time: record.time,
            kind: record.kind,
            subtype: record.subtype,
            start,
            end: self.octets.len(),
        };
        if self.heads.push(head).is_err() {
            return Err(AllocError);
        }
        Ok(())
    }

    /// Drops all records. The room stays.
    pub(crate) fn clear(&mut self)
        ensures { self.new ≡ [] }
    {
        self.heads.clear();
        self.octets.clear();
    }

    /// The record at a place.
    pub(crate) fn record(&self, at: usize) -> Option<Record<'_>>
        ensures { option_map record_of result ≡ option_map (λ h. h.own) (slice_get self.now at) }
    {
        let head = self.heads.get(at)?;
        Some(Record {
            time: head.time,
            kind: head.kind,
            subtype: head.subtype,
            body: &self.octets[head.start..head.end],
        })
    }

    /// How many records of others come right before the record at a place.
    pub(crate) fn others(&self, at: usize) -> u64
        requires { at < length self.now }
        ensures { option_map (λ h. h.others) (slice_get self.now at) ≡ Some result }
    {
        self.heads[at].others
    }
}
