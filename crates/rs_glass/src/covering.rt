//! The prefixes that cover a prefix: it itself and the less specific ones, at most 33 (RFC 4271, section 9.1.4).

ghost use Rattle.std.specs.Prelude.{◌≡◌, ◌≤◌};
ghost use Rattle.rs_update.specs.Prefix.{network_of};
ghost use Rattle.rs_session.specs.Change.{change_of};
ghost use Rattle.rs_session.specs.Concerning.{concerns};

use rs_session::{Body, Word};
use rs_update::{Prefix, covers};

// The prefix of so many of the first bits of a prefix: of those that cover it, the one of that length.
pub(crate) fn cover(prefix: Prefix, len: u8) -> Prefix
    requires { len ≤ prefix.len }
    ensures { result ≡ network_of prefix.address len }
{
    // For the prover: the prefix has at most 32 bits, so its cover has no more.
    let _bound = prefix.len();
    match Prefix::new(prefix.address(), len) {
        Some(wide) => wide,
        None => unreachable!(),
    }
}

// Whether a change concerns a prefix: it announces or withdraws one that covers it, or is a loss or a close.
pub(crate) fn concerns(word: &Word, prefix: Prefix) -> bool
    ensures { result ≡ concerns prefix (change_of word.now) }
{
    match &word.body {
        Body::Announce(changed, _) => covers(*changed, prefix),
        Body::Withdraw(changed) => covers(*changed, prefix),
        Body::Down => true,
        Body::Close(_) => true,
    }
}
