//! The changes of a session on their way into a ring.

ghost use Rattle.std.specs.Prelude.{◌≡◌, ◌+◌, ◌<◌, ◌≤◌, ◌^◌, ◌++◌, ◌∷◌, [], false, length};
ghost use Rattle.rs_session.specs.Stage.{May, most_changes};
ghost use Rattle.rs_worker.specs.Steps.{Takes, reason_of};
ghost use Rattle.rs_worker.specs.Worked.{HasSent, closes_any};

use crate::gate::Gate;
use rs_mrt::Source;
use rs_patience::{Patience, send_when_room};
use rs_ring::{SendRefused, Sender};
use rs_session::{Body, Reason, Session, Word, a_session_closes_once};
use std::sync::Wait;

// Sends each change of a session, and the close as the last one. Answers why the session ended.
pub(crate) fn send_all<S: Source, G: Gate>(
    rt: &impl Wait,
    peer: usize,
    session: &mut Session<S>,
    out: &mut Sender<Word>,
    gate: &G,
) -> Reason
    requires unsent { out.old.sent ≡ [] }
    requires unclosed { session.old.closed ≡ false }
    requires fits { most_changes S.room S.shows session.old ≤ 2 ^ 50 }
    ensures sent { HasSent (May S.comes S.shows session.old) out.new.sent result session.new.passed }
    ensures same { out.new.ring ≡ out.old.ring }
{
    let mut patience = Patience::of_many();
    for _ in rt.forever() {
        let word = next_change(session);
        let reason = closing_reason(&word);
        send(rt, peer, word, out, gate, &mut patience);
        if let Some(reason) = reason {
            return reason;
        }
    }
    unreachable!()
}

// The next change of a session. If memory is refused, it is a close with the reason `Memory`, which needs no memory.
fn next_change<S: Source>(session: &mut Session<S>) -> Word
    requires { session.old.closed ≡ false }
    ensures { Takes S.comes S.shows S.room session.old session.new result (reason_of result.body) }
{
    a_session_closes_once();
    match session.next_word() {
        Ok(Some(word)) => word,
        Ok(None) => unreachable!(),
        Err(_) => Word {
            time: 0,
            body: Body::Close(Reason::Memory),
        },
    }
}

// The reason for which this change closes the session, if it is a close.
fn closing_reason(word: &Word) -> Option<Reason>
    ensures { result ≡ reason_of word.now.body }
{
    match word.body {
        Body::Close(reason) => Some(reason),
        _ => None,
    }
}

// Sends a change, once there is room for it. Patience is kept from one wait for room to the next.
fn send<G: Gate>(
    rt: &impl Wait,
    peer: usize,
    word: Word,
    out: &mut Sender<Word>,
    gate: &G,
    patience: &mut Patience,
)
    requires open { closes_any out.old.sent ≡ false }
    requires fits { length out.old.sent < 2 ^ 51 }
    ensures sent { out.new.sent ≡ out.old.sent ++ word ∷ [] }
    ensures same { out.new.ring ≡ out.old.ring }
{
    gate.pass(peer, out.sent());
    match out.try_send(word) {
        Ok(_) => {}
        Err(SendRefused::Closed(_)) => unreachable!(),
        Err(SendRefused::Full(refused)) => send_when_room(rt, out, refused, patience),
    }
}
