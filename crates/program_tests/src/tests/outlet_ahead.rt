//! An outlet over memory that gives writers ahead of their turn, and shows what was asked of it. It can be made to fail
//! at the dumps of some clients.

ghost use Rattle.std.specs.Prelude.{◌≡◌, IfSome, None};

use rs_mrt::{Limits, MemoryWriter};
use rs_outlet::{Kept, NamedWriter, Outlet, Unopened};
use std::alloc::Global;

/// Where the outlet fails: at the dumps of the clients of these names, which are letters.
#[derive(Clone, Copy, Debug, Drop)]
pub struct Faults {
    /// Those whose writers take 1,000 octets and then fail.
    pub failing: &'static str,
    /// Those that can't be kept.
    pub not_kept: &'static str,
    /// Those for which no writer is given ahead.
    pub not_ahead: &'static str,
}

impl Faults {
    /// None.
    pub fn none() -> Faults {
        Faults {
            failing: "",
            not_kept: "",
            not_ahead: "",
        }
    }
}

/// An outlet that keeps in memory the dumps of clients whose names are the letters from `a` on.
#[derive(Drop)]
pub struct OutletAhead {
    alloc: Global,
    faults: Faults,
    /// The names of the dumps for which a writer was given in their turn, in order, without octets.
    pub started: Vec<Kept>,
    /// The names of those for which one was given ahead.
    pub ahead: Vec<Kept>,
    /// The dumps that were kept.
    pub kept: Vec<Kept>,
    /// What had been written of those that were lost.
    pub lost: Vec<Kept>,
    /// How many failures it has counted.
    pub failures: u64,
}

impl OutletAhead {
    /// Begins with no dumps.
    pub fn new(alloc: Global, faults: Faults) -> OutletAhead
        ensures { result.failures ≡ 0 }
    {
        OutletAhead {
            alloc,
            faults,
            started: Vec::new(alloc),
            ahead: Vec::new(alloc),
            kept: Vec::new(alloc),
            lost: Vec::new(alloc),
            failures: 0,
        }
    }
}

// The writer of the dump of this name; none if memory is refused.
fn writer(alloc: Global, faults: &Faults, name: &str) -> Option<NamedWriter>
    ensures { IfSome result (λ writer. writer.inner.failures ≡ 0) }
{
    let mut limits = Limits::none();
    if is_of(faults.failing, name) {
        limits.calls_before_failure = Some(1);
        limits.piece = 1000;
    }
    let name = String::from_str(alloc, name).ok()?;
    Some(NamedWriter {
        name,
        inner: MemoryWriter::new(alloc, limits),
    })
}

// Whether the dump of this name is that of one of these clients, whose names are letters.
fn is_of(clients: &str, name: &str) -> bool {
    match name.chars().next() {
        Some(letter) => clients.contains(letter),
        None => false,
    }
}

// Adds what was written of the dump of this name. Where memory is refused it is missing, and the test fails.
fn add(alloc: Global, dumps: &mut Vec<Kept>, name: &str, octets: Vec<u8>) {
    if let Ok(name) = String::from_str(alloc, name) {
        let _ = dumps.push(Kept { name, octets });
    }
}

impl Outlet for OutletAhead {
    type Out = NamedWriter;

    ghost kept = { λ _. None };

    ghost started = { λ _. None };

    ghost failures = { λ outlet. outlet.failures };

    fn start(&mut self, name: &str) -> Result<NamedWriter, Unopened> {
        add(self.alloc, &mut self.started, name, Vec::new(self.alloc));
        match writer(self.alloc, &self.faults, name) {
            Some(writer) => Ok(writer),
            None => {
                self.failures += 1;
                Err(Unopened)
            }
        }
    }

    fn start_ahead(&mut self, name: &str) -> Option<NamedWriter> {
        if is_of(self.faults.not_ahead, name) {
            return None;
        }
        add(self.alloc, &mut self.ahead, name, Vec::new(self.alloc));
        writer(self.alloc, &self.faults, name)
    }

    fn keep(&mut self, name: &str, out: NamedWriter) -> Result<(), Unopened> {
        if is_of(self.faults.not_kept, name) {
            self.failures += 1;
            return Err(Unopened);
        }
        add(self.alloc, &mut self.kept, name, out.inner.into_octets());
        Ok(())
    }

    fn lost(&mut self, out: NamedWriter) {
        let NamedWriter { name, inner } = out;
        add(self.alloc, &mut self.lost, &name, inner.into_octets());
        self.failures = self.failures.saturating_add(1);
    }
}
