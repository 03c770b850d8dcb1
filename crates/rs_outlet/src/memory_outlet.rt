//! An outlet over memory, which says which dumps it has kept and which writers it has given away. It can be made to
//! fail, for tests of those who write dumps.

ghost use Rattle.std.specs.Prelude.{◌≡◌, ◌+◌, ◌<◌, ◌∷◌, ◌++◌, [], Some, None, length, map, slice_index_or};
ghost use Rattle.std.specs.Prelude.{string_bytes, IfOk, OnOk, OnErr};
ghost use Rattle.std.specs.List.{Contains};
ghost use Rattle.rs_mrt.specs.Memory.{limits_of};
ghost use Rattle.rs_outlet.specs.Outlet.{InMemory, dump_of};
ghost use Rattle.rs_outlet.specs.Started.{ComesBack};

use crate::named_writer::NamedWriter;
use crate::outlet::{Outlet, Unopened};
use rs_mrt::{Limits, MemoryWriter};
use std::alloc::{AllocError, Global};
use std::marker::Model;

/// A dump that was kept.
#[derive(Debug, Drop)]
pub struct Kept {
    /// Its name.
    pub name: String,
    /// Its octets.
    pub octets: Vec<u8>,
}

/// When an outlet over memory, or a writer of its, fails.
#[derive(Clone, Copy, Debug, Drop)]
pub struct OutletLimits {
    /// How many calls to start or to keep a dump succeed before the one that is refused. Without a number, none is
    /// refused for this. Calls after it succeed.
    pub calls_before_refusal: Option<u64>,
    /// How many dumps are kept before the one whose writer has limits.
    pub dumps_before_limits: usize,
    /// The limits of that writer.
    pub writer: Limits,
}

impl OutletLimits {
    /// Gives no limit but that of memory.
    pub fn none() -> OutletLimits
        ensures calls { result.calls_before_refusal ≡ None }
        ensures dumps { result.dumps_before_limits ≡ 0 }
        ensures writer { limits_of result.writer
            ≡ record { before_failure = None; room = usize.MAX; piece = usize.MAX } }
    {
        OutletLimits {
            calls_before_refusal: None,
            dumps_before_limits: 0,
            writer: Limits::none(),
        }
    }
}

/// An outlet that keeps dumps in memory.
#[derive(Debug, Drop)]
pub struct MemoryOutlet {
    alloc: Global,
    kept: Vec<Kept>,
    // The names of the dumps whose writers it has given away.
    started: Vec<String>,
    failures: u64,
    limits: OutletLimits,
}

impl Model for MemoryOutlet {
    ghost use Rattle.std.specs.Prelude.{map, string_bytes};
    ghost use Rattle.rs_outlet.specs.Outlet.{InMemory, dump_of};

    ghost Value = { InMemory };

    ghost view = { λ outlet. record {
      kept = map dump_of outlet.kept.items;
      started = map (λ name. string_bytes name) outlet.started.items;
      failures = outlet.failures;
    } };
}

impl MemoryOutlet {
    /// Begins with no dumps, within the limits. It takes no memory yet.
    pub fn new(alloc: Global, limits: OutletLimits) -> MemoryOutlet
        ensures { result ≡ record { kept = []; started = []; failures = 0 } }
    {
        MemoryOutlet {
            alloc,
            kept: Vec::new(alloc),
            started: Vec::new(alloc),
            failures: 0,
            limits,
        }
    }

    /// Shows the dumps that it has kept, in order.
    pub fn kept(&self) -> &[Kept]
        ensures { map dump_of result.now ≡ self.now.kept }
    {
        &self.kept
    }

    // Counts a call, and answers whether it is to be refused.
    fn is_refused(&mut self) -> bool
        ensures { self.new ≡ self.old }
    {
        match self.limits.calls_before_refusal {
            None => false,
            Some(0) => {
                self.limits.calls_before_refusal = None;
                true
            }
            Some(calls) => {
                self.limits.calls_before_refusal = Some(calls - 1);
                false
            }
        }
    }

    // The writer of the next dump, which has this name.
    fn writer(&self, name: &str) -> Result<NamedWriter, AllocError>
        ensures named { IfOk result (λ out. string_bytes out.name ≡ name.now) }
        ensures fresh { IfOk result (λ out. out.inner.failures ≡ 0) }
        ensures nothing_taken { IfOk result (λ out. out.inner.taken ≡ []) }
    {
        let limits = if self.kept.len() == self.limits.dumps_before_limits {
            self.limits.writer
        } else {
            Limits::none()
        };
        Ok(NamedWriter {
            name: String::from_str(self.alloc, name)?,
            inner: MemoryWriter::new(self.alloc, limits),
        })
    }

    // Gives a writer and adds its name to those given away, unless the call is to be refused or there is no memory.
    fn try_start(&mut self, name: &str) -> Result<NamedWriter, Unopened>
        ensures named { IfOk result (λ out. string_bytes out.name ≡ name.now) }
        ensures fresh { IfOk result (λ out. out.inner.failures ≡ 0) }
        ensures nothing_taken { IfOk result (λ out. out.inner.taken ≡ []) }
        ensures ok { OnOk result (self.new.started ≡ name.now ∷ self.old.started) }
        ensures err { OnErr result (self.new.started ≡ self.old.started) }
        ensures kept { self.new.kept ≡ self.old.kept }
        ensures failures { self.new.failures ≡ self.old.failures }
    {
        if self.is_refused() {
            return Err(Unopened);
        }
        let Ok(out) = self.writer(name) else {
            return Err(Unopened);
        };
        let Ok(name) = String::from_str(self.alloc, name) else {
            return Err(Unopened);
        };
        match self.started.insert(0, name) {
            Ok(()) => Ok(out),
            Err(_) => Err(Unopened),
        }
    }

    // Takes this name out of those given away.
    fn take_back(&mut self, name: &str) -> String
        requires { Contains self.old.started name.now }
        ensures name { string_bytes result ≡ name.now }
        ensures back { ComesBack (Some self.old.started) (Some self.new.started) name.now }
        ensures kept { self.new.kept ≡ self.old.kept }
        ensures failures { self.new.failures ≡ self.old.failures }
    {
        let place = place_of(&self.started, name);
        self.started.remove(place)
    }

    // Keeps a dump, unless the call is to be refused or there is no memory.
    fn try_keep(&mut self, name: String, out: MemoryWriter) -> Result<(), Unopened>
        ensures ok { OnOk result (self.new.kept
            ≡ self.old.kept ++ (record { name = string_bytes name; octets = out.taken } ∷ [])) }
        ensures err { OnErr result (self.new.kept ≡ self.old.kept) }
        ensures started { self.new.started ≡ self.old.started }
        ensures failures { self.new.failures ≡ self.old.failures }
    {
        if self.is_refused() {
            return Err(Unopened);
        }
        let dump = Kept {
            name,
            octets: out.into_octets(),
        };
        match self.kept.push(dump) {
            Ok(()) => Ok(()),
            Err(_) => Err(Unopened),
        }
    }
}

// The place of a name among these.
fn place_of(names: &[String], name: &str) -> usize
    requires { Contains (map (λ one. string_bytes one) names.now) name.now }
    ensures known { result < length names.now }
    ensures here { slice_index_or (map (λ one. string_bytes one) names.now) result name.now ≡ name.now }
{
    for place in 0..names.len() {
        if names[place].as_str() == name {
            return place;
        }
    }
    unreachable!()
}

impl Outlet for MemoryOutlet {
    type Out = NamedWriter;

    ghost kept = { λ outlet. Some outlet.kept };

    ghost started = { λ outlet. Some outlet.started };

    ghost failures = { λ outlet. outlet.failures };

    fn start(&mut self, name: &str) -> Result<NamedWriter, Unopened> {
        match self.try_start(name) {
            Ok(out) => Ok(out),
            Err(refused) => {
                self.failures += 1;
                Err(refused)
            }
        }
    }

    fn keep(&mut self, name: &str, out: NamedWriter) -> Result<(), Unopened> {
        let name = self.take_back(name);
        let answer = self.try_keep(name, out.inner);
        if answer.is_err() {
            self.failures += 1;
        }
        answer
    }

    fn lost(&mut self, out: NamedWriter) {
        let _name = self.take_back(&out.name);
        self.failures = self.failures.saturating_add(1);
    }
}
