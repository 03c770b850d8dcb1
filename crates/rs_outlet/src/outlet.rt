//! Where dumps go: a trait whose contract names the dumps that were kept and the writers that were given away, and
//! counts the failures.
//!
//! Our choice: an outlet may list what it has kept and given away, as one over memory does, or list nothing, as a
//! folder does.

ghost use Rattle.std.specs.Prelude.{◌≡◌, ◌+◌, ◌<◌, ◌≤◌, ℕ, List, Option, IfOk, IfSome, OnOk, OnErr};
ghost use Rattle.rs_outlet.specs.Outlet.{KeptDump, KeepsTaken, TellsNothingTaken};
ghost use Rattle.rs_outlet.specs.Started.{GoesOut, GoesOutAhead, IsOut, IsLabelOut, ComesBack, LabelComesBack};
ghost use Rattle.rs_outlet.specs.Started.{TellsName};

use rs_mrt::Write;

/// An outlet's refusal. The outlet knows why, and its caller need not.
#[derive(Clone, Copy, Debug, PartialEq, Eq, Drop)]
pub struct Unopened;

/// Where dumps go. Each dump is written to a writer of its own, and kept once it is written whole. Each writer that
/// was given comes back: to `keep`, or else to `lost`.
pub trait Outlet {
    /// What takes the octets of one dump, on any thread.
    type Out: Write + Drop + Send;

    // The dumps that it has kept, in order, if it lists them.
    ghost kept: { Self → Option (List KeptDump) };

    // The names of the dumps whose writers it has given away, if it lists them. Then each writer has its name as
    // label.
    ghost started: { Self → Option (List (List ℕ)) };

    // How many failures it has counted: each refusal is one, and each writer that is lost.
    ghost failures: { Self → ℕ };

    /// Gives a writer for the dump of this name. If it is refused, it counts one failure. Either way the dumps that
    /// it has kept stay.
    fn start(&mut self, name: &str) -> Result<Self::Out, Unopened>
        requires { failures self.old < u64.MAX }
        ensures fresh { IfOk result (λ out. Self.Out.failures out ≡ 0) }
        ensures nothing_taken { IfOk result (λ out. TellsNothingTaken (kept self.old) (Self.Out.taken out)) }
        ensures named { IfOk result (λ out. TellsName (started self.old) (Self.Out.label out) name.now) }
        ensures ok_started { OnOk result (GoesOut (started self.old) (started self.new) name.now) }
        ensures ok_failures { OnOk result (failures self.new ≡ failures self.old) }
        ensures err_started { OnErr result (started self.new ≡ started self.old) }
        ensures err_failures { OnErr result (failures self.new ≡ failures self.old + 1) }
        ensures kept { kept self.new ≡ kept self.old };

    /// Gives a writer for the dump of this name ahead of its turn, so that several dumps can be written at the same
    /// time. Or it gives none, and the dump is started in its turn. Neither counts a failure, and the dumps that it
    /// has kept stay. An outlet that gives no writer ahead leaves this method as it is.
    fn start_ahead(&mut self, _name: &str) -> Option<Self::Out>
        ensures fresh { IfSome result (λ out. Self.Out.failures out ≡ 0) }
        ensures nothing_taken { IfSome result (λ out. TellsNothingTaken (kept self.old) (Self.Out.taken out)) }
        ensures named { IfSome result (λ out. TellsName (started self.old) (Self.Out.label out) _name.now) }
        ensures started { GoesOutAhead result (started self.old) (started self.new) _name.now }
        ensures failures { failures self.new ≡ failures self.old }
        ensures kept { kept self.new ≡ kept self.old }
    {
        None
    }

    /// Keeps the octets that a writer has taken, under the name for which the writer was given, once the dump is
    /// written whole. If it is refused, it keeps nothing and counts one failure.
    fn keep(&mut self, name: &str, out: Self::Out) -> Result<(), Unopened>
        requires named { TellsName (started self.old) (Self.Out.label out) name.now }
        requires started { IsOut (started self.old) name.now }
        requires failures { failures self.old < u64.MAX }
        ensures back { ComesBack (started self.old) (started self.new) name.now }
        ensures ok { OnOk result (KeepsTaken (kept self.old) (kept self.new) name.now (Self.Out.taken out)) }
        ensures ok_failures { OnOk result (failures self.new ≡ failures self.old) }
        ensures err { OnErr result (kept self.new ≡ kept self.old) }
        ensures err_failures { OnErr result (failures self.new ≡ failures self.old + 1) };

    /// Takes back a writer of a dump that isn't to be kept, because this dump or one before it failed. Nothing of
    /// that dump is to stay. It counts one failure, as long as its count has room.
    fn lost(&mut self, out: Self::Out)
        requires started { IsLabelOut (started self.old) (Self.Out.label out) }
        ensures back { LabelComesBack (started self.old) (started self.new) (Self.Out.label out) }
        ensures kept { kept self.new ≡ kept self.old }
        ensures failures { failures self.old < u64.MAX → failures self.new ≡ failures self.old + 1 }
        ensures no_fewer { failures self.old ≤ failures self.new };
}
