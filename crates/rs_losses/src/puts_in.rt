//! A source that knows which of its records were put in.

ghost use Rattle.std.specs.Prelude.{◌≡◌, Bool};

/// A source that knows whether the record that it shows was put in. No octet of that record tells: a recorded one may have
/// the same.
pub trait PutsIn {
    // Whether the record that is shown was put in.
    ghost put_in: { Self → Bool };

    /// Tells whether the record that is shown was put in.
    fn is_put_in(&self) -> bool
        ensures { result ≡ put_in self.now };
}
