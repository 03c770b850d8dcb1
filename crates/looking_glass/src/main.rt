//! A looking glass for the recorded sessions of a route server: why is this route missing, since when, and
//! what is in this file?
//!
//! The program reads the configuration of an exchange and the recorded session of each peer, and prints the
//! answer to one question.
//!
//! Supported standards: RFC 4271, RFC 6793, RFC 1997, RFC 7606, RFC 7947, RFC 6396.
#![tactic(auto)]

mod answering;

use crate::answering::answer;
use rs_glass_shell::{NoReply, PROGRAM, Reply, Unanswered, line_with_cause};
use rs_host::{DONE, end_with};
use rs_notes::print_texts;
use std::fs::Files;
use std::process::ExitCode;

fn main(rt: HostRuntime) -> ExitCode {
    let no_reply = match answer(&rt) {
        Ok(
            Reply {
                text,
                status,
                notes,
            },
        ) => match print!(&rt; "{text}") {
            Ok(()) => {
                if status == DONE {
                    print_texts(&rt, PROGRAM, &notes);
                }
                return ExitCode::from(status);
            }
            Err(error) => NoReply::new(Unanswered::from(error), false),
        },
        Err(no_reply) => no_reply,
    };
    end(&rt, &no_reply)
}

// Says why there is no answer, and gives the status of that. If a reader wants no more, nothing is said.
fn end<R: AllocGlobal + Files + Print + Eprint>(rt: &R, no_reply: &NoReply) -> ExitCode {
    let words = match &no_reply.why {
        Unanswered::Closed => return ExitCode::from(no_reply.status),
        Unanswered::Words(fault) => Some(fault),
        _ => None,
    };
    let text = line_with_cause(rt, &no_reply.why);
    end_with(rt, PROGRAM, words, text, no_reply.status)
}
