//! The beginning of a session that is being written, entry by entry.
//!
//! Our choices: records wait in a buffer, and are written in pieces of 64 KiB or more; nothing is flushed.

ghost use Rattle.std.specs.Prelude.{◌≡◌, ◌<◌, [], IfErr, IfOk, IsFalse, IsTrue, OnOk};
ghost use Rattle.rs_start.specs.declared.added.Added.TheVariants.{Written};
ghost use Rattle.rs_start.specs.declared.fault.StartFault.TheVariants as StartFault;
ghost use Rattle.rs_start.specs.Opening.{IsStart, added_of, route_by};
ghost use Rattle.rs_start.specs.RightFlags.{mended};
ghost use Rattle.rs_start.specs.Writing.{Closes, Ends, Flushes, Goes, IsBegun};

use crate::added::Added;
use crate::fault::StartFault;
use crate::flags::{has_right_flags, mended};
use crate::held::Held;
use crate::laws::a_session_begins_with_the_routes_of_the_table;
use crate::spelling::spell_up;
use crate::start::Start;
use rs_mrt::{Write, write_all};
use rs_update::Prefix;
use std::alloc::{AllocError, Global};
use std::marker::Model;

// How many octets wait, at least, before they are written.
const PIECE_LEN: usize = 65536;

/// The beginning of a peer's session that is being written. It takes 70 KB and an UPDATE at most, whatever the table.
#[derive(Drop)]
pub struct SessionWriter<W: Write> {
    alloc: Global,
    out: W,
    start: Start,
    // The octets that wait to be written.
    buffer: Vec<u8>,
    // The UPDATE that is being filled.
    held: Held,
    // Whether a write failed: no other one is tried then.
    failed: bool,
}

impl<W: Write> Model for SessionWriter<W> {
    ghost use Rattle.std.specs.Prelude.{◌<◌, IsFalse, IsTrue};
    ghost use Rattle.rs_start.specs.Opening.{IsStart};
    ghost use Rattle.rs_start.specs.RightFlags.{mended};
    ghost use Rattle.rs_start.specs.Writing.{Writing};

    ghost Value = { Writing W };

    ghost view = { λ w. record { out = w.out; start = w.start; waiting = w.buffer.items; held = w.held } };

    ghost invariant = { λ w. IsStart w.start × (IsFalse w.failed → W.failures w.out < 18446744073709551615)
        × (IsTrue w.failed → 0 < W.failures w.out) };
}

impl<W: Write + Drop> SessionWriter<W> {
    /// Begins with the change of state to Established, which waits. Nothing is written yet. Fails where memory is
    /// refused.
    pub fn begin(alloc: Global, out: W, start: Start) -> Result<SessionWriter<W>, AllocError>
        requires { W.failures out < u64.MAX }
        ensures begun { IfOk result (λ writer. IsBegun W.taken (W.taken out) writer []) }
        ensures start { IfOk result (λ writer. writer.start ≡ start) }
        ensures out { IfOk result (λ writer. writer.out ≡ out) }
    {
        let mut buffer = Vec::new(alloc);
        spell_up(&mut buffer, &start)?;
        Ok(SessionWriter {
            alloc,
            out,
            start,
            buffer,
            held: Held::nothing(alloc),
            failed: false,
        })
    }

    /// Announces the route of an entry of the table, or tells why it is left out. `section` has the path attributes of
    /// the entry as they stand in the table. The session has them with the flags that their types ask for. Prefixes that
    /// follow each other with equal octets of path attributes stand in one UPDATE, as many as it holds.
    ///
    /// `Memory` comes where memory is refused, `Write` where a write fails: the session isn't to be kept then.
    pub fn add(&mut self, prefix: Prefix, section: &[u8]) -> Result<Added, StartFault>
        ensures added { IfOk result (λ added. added ≡ added_of prefix (mended section.now)) }
        ensures goes { IfOk result (λ added. Goes W.taken self.old self.new (route_by added prefix (mended section.now))) }
        ensures start { OnOk result (self.new.start ≡ self.old.start) }
        ensures failed { IfErr result (λ fault. fault ≡ StartFault.Write → 0 < W.failures self.new.out) }
    {
        if has_right_flags(section) {
            return self.announce(prefix, section);
        }
        let mended = mended(self.alloc, section)?;
        self.announce(prefix, &mended)
    }

    // Announces the route of a prefix with these path attributes, or tells why it is left out.
    fn announce(&mut self, prefix: Prefix, section: &[u8]) -> Result<Added, StartFault>
        ensures added { IfOk result (λ added. added ≡ added_of prefix section.now) }
        ensures goes { IfOk result (λ added. Goes W.taken self.old self.new (route_by added prefix section.now)) }
        ensures start { OnOk result (self.new.start ≡ self.old.start) }
        ensures failed { IfErr result (λ fault. fault ≡ StartFault.Write → 0 < W.failures self.new.out) }
    {
        if self.join(prefix, section)? {
            return Ok(Added::Written);
        }
        match Held::begin(self.alloc, prefix, section)? {
            Ok(held) => {
                self.close()?;
                self.hold(held);
                Ok(Added::Written)
            }
            Err(reason) => Ok(Added::LeftOut(reason)),
        }
    }

    /// Writes all that waits. What the writer has taken in all is then the octets that announce the routes, and
    /// nothing else. The faults are those of `add`.
    pub fn finish(&mut self) -> Result<(), StartFault>
        ensures whole { OnOk result (Ends W.taken self.old self.new) }
        ensures failed { IfErr result (λ fault. fault ≡ StartFault.Write → 0 < W.failures self.new.out) }
    {
        a_session_begins_with_the_routes_of_the_table();
        self.start_fits();
        self.close()?;
        self.flush()?;
        Ok(())
    }

    /// Gives the writer back.
    pub fn into_out(self) -> W
        ensures { result ≡ self.out }
    {
        self.out
    }

    // Adds a prefix to the UPDATE that is being filled, where it takes it. Answers whether it did.
    fn join(&mut self, prefix: Prefix, section: &[u8]) -> Result<bool, StartFault>
        ensures added { IfOk result (λ joined. IsTrue joined → added_of prefix section.now ≡ Written) }
        ensures goes { IfOk result (λ joined. IsTrue joined
            → Goes W.taken self.old self.new (route_by Written prefix section.now)) }
        ensures stays { IfOk result (λ joined. IsFalse joined → self.new ≡ self.old) }
        ensures start { OnOk result (self.new.start ≡ self.old.start) }
        ensures out { OnOk result (self.new.out ≡ self.old.out) }
        ensures failed { IfErr result (λ fault. fault ≡ StartFault.Write → 0 < W.failures self.new.out) }
    {
        Ok(self.held.join(prefix, section)?)
    }

    // Ends the UPDATE that is being filled, and writes the records that wait, where they are many.
    fn close(&mut self) -> Result<(), StartFault>
        ensures goes { OnOk result (Goes W.taken self.old self.new []) }
        ensures start { OnOk result (self.new.start ≡ self.old.start) }
        ensures held { OnOk result (self.new.held ≡ []) }
        ensures failed { IfErr result (λ fault. fault ≡ StartFault.Write → 0 < W.failures self.new.out) }
    {
        self.end_update()?;
        if self.buffer.len() >= PIECE_LEN {
            self.flush()?;
        }
        Ok(())
    }

    // Ends the UPDATE that is being filled: its record waits.
    fn end_update(&mut self) -> Result<(), StartFault>
        ensures closes { OnOk result (Closes self.old self.new) }
        ensures failed { IfErr result (λ fault. fault ≡ StartFault.Write → 0 < W.failures self.new.out) }
    {
        self.held.spell(&mut self.buffer, &self.start)?;
        self.held = Held::nothing(self.alloc);
        Ok(())
    }

    // Fills another UPDATE.
    fn hold(&mut self, held: Held)
        ensures { self.new ≡ record self.old { held = held } }
    {
        self.held = held;
    }

    // Writes the records that wait.
    fn flush(&mut self) -> Result<(), StartFault>
        ensures flushed { OnOk result (Flushes W.taken self.old self.new) }
        ensures failed { IfErr result (λ fault. fault ≡ StartFault.Write → 0 < W.failures self.new.out) }
    {
        if self.failed {
            return Err(StartFault::Write);
        }
        match write_all(&mut self.out, &self.buffer) {
            Ok(()) => {
                self.buffer.clear();
                Ok(())
            }
            Err(_) => {
                self.failed = true;
                Err(StartFault::Write)
            }
        }
    }

    // The numbers of the start fit their fields.
    fn start_fits(&self)
        ensures { IsStart self.now.start }
    {
        let _ = &self.alloc;
    }
}
