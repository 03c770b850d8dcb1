//! What the recorded session of one peer says of a prefix.

ghost use Rattle.std.specs.Prelude.{◌≡◌, IfErr, IfOk, OnOk, if◌then◌else◌, true};
ghost use Rattle.rs_session.specs.Change.{change_of};
ghost use Rattle.rs_session.specs.Concerning.{concerns};
ghost use Rattle.rs_table.specs.Left.{after};
ghost use Rattle.rs_glass.specs.Causes.{cause_behind, cause_known};
ghost use Rattle.rs_glass.specs.Happened.{happens_on};
ghost use Rattle.rs_glass.specs.Recorded.{IsFaultOf, IsSaidBefore, IsSaidOf};

use crate::cause::{Cause, cause_known, cause_of};
use crate::covering::concerns;
use crate::fault::GlassFault;
use crate::listing::happens_on;
use crate::question::Question;
use crate::recording::Recording;
use crate::routes_left::RoutesLeft;
use crate::said::{Said, is_failed_read};
use rs_losses::PutsIn;
use rs_mrt::Source;
use rs_session::{PeerId, Session, Word};
use rs_table::{left_after_one_more, left_by_last_changes, left_by_part};
use rs_update::{Prefix, a_prefix_covers_itself};
use std::alloc::{AllocError, Global};

/// What the recorded session of a peer says of a prefix.
#[derive(Drop)]
pub(crate) struct Heard {
    /// What its changes say last of the prefix.
    pub(crate) said: Said,
    /// The routes that they leave on the prefix and on those that cover it.
    pub(crate) routes: RoutesLeft,
}

// Reads the recorded session of a peer.
pub(crate) fn hear<S: Source + PutsIn + Drop>(
    alloc: Global,
    recording: Recording<S>,
    question: &Question,
) -> Result<Heard, GlassFault>
    ensures says { IfOk result (λ heard.
        IsSaidOf S.comes S.shows question.now recording.id recording.source heard.routes heard.said) }
    ensures fault { IfErr result
        (IsFaultOf S.comes S.shows question.now recording.id recording.source recording.peer) }
{
    let Recording { peer, id, source } = recording;
    let heard = hear_changes(alloc, id, source, question)?;
    if is_failed_read(heard.said.close) {
        return Err(GlassFault::Read(peer));
    }
    Ok(heard)
}

// Reads the recorded session of a peer; a failed read is then the reason of the close. Changes that don't concern
// the prefix are passed over. They change neither the answer for the prefix nor the routes on prefixes that cover
// it.
fn hear_changes<S: Source + PutsIn + Drop>(
    alloc: Global,
    id: PeerId,
    source: S,
    question: &Question,
) -> Result<Heard, AllocError>
    ensures { IfOk result (λ heard.
        IsSaidBefore S.comes S.shows question.now id source heard.routes heard.said) }
{
    left_after_one_more();
    left_by_part();
    left_by_last_changes();
    a_prefix_covers_itself(question.prefix);
    let mut session = Session::over_by(alloc, source, id, question.errors);
    let mut said = Said::nothing();
    let mut routes = RoutesLeft::none(alloc);
    while let Some(word) = session.next_word_on(question.prefix, None)? {
        let cause = cause_shown(alloc, &session, question, &word)?;
        said = said.after(question.prefix, &word, cause);
        take_change(&mut routes, question.prefix, word)?;
    }
    Ok(Heard { said, routes })
}

// Why the change came that a session gave last, if it is one on the prefix. No message is read again for the others.
fn cause_shown<S: Source + PutsIn>(
    alloc: Global,
    session: &Session<S>,
    question: &Question,
    word: &Word,
) -> Result<Option<Cause>, AllocError>
    ensures { IfOk result (λ cause. happens_on question.now.prefix (change_of word.now) ≡ true
        → cause ≡ cause_known (S.put_in session.now.source)
        (cause_behind question.now.errors (S.shows session.now.source) (change_of word.now))) }
{
    if !happens_on(word, question.prefix) {
        return Ok(None);
    }
    let cause = match session.shown() {
        Some(recorded) => cause_of(alloc, question.errors, word, &recorded)?,
        None => None,
    };
    Ok(cause_known(session.source().is_put_in(), cause))
}

// Takes one change if it concerns the prefix.
fn take_change(routes: &mut RoutesLeft, prefix: Prefix, word: Word) -> Result<(), AllocError>
    ensures { OnOk result (routes.new
        ≡ (if concerns prefix (change_of word) then after routes.old (change_of word) else routes.old)) }
{
    if concerns(&word, prefix) {
        routes.take(word)?;
    }
    Ok(())
}
