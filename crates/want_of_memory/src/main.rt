//! Writes one dump to a writer that counts, and says how it went: for runs in which one allocation is
//! refused, as `tools/refuse_each_allocation` makes them.
//!
//! Status 0 where the dump is written, which standard output says; 3 if memory was refused and nothing was
//! written; 1 for anything else.
#![tactic(auto)]

mod counter;

use counter::Counter;
use rs_choice::{Exchange, Local, PeerSpec, PlanFault};
use rs_dump::{DumpFault, write_dump};
use rs_table::{Route, Row};
use rs_update::{Attributes, Message, MessageFault, Prefix, read_message};
use std::alloc::{AllocError, Global};
use std::process::ExitCode;

// An UPDATE that announces 203.0.113.0/24 by AS_PATH 64501 with NEXT_HOP 192.0.2.11.
static UPDATE: [u8; 47] = [
    255, 255, 255, 255, 255, 255, 255, 255, 255, 255, 255, 255, 255, 255, 255, 255, 0, 47, 2, 0, 0,
    0, 20, 64, 1, 1, 0, 64, 2, 6, 2, 1, 0, 0, 251, 245, 64, 3, 4, 192, 0, 2, 11, 24, 203, 0, 113,
];

// Why there is no dump.
enum Ended {
    // Memory was refused, and nothing was written.
    Memory,
    // An answer that there is no cause for.
    Wrong,
}

impl From<AllocError> for Ended {
    fn from(_refused: AllocError) -> Ended {
        Ended::Memory
    }
}

impl From<PlanFault> for Ended {
    fn from(fault: PlanFault) -> Ended {
        match fault {
            PlanFault::Memory => Ended::Memory,
            _ => Ended::Wrong,
        }
    }
}

impl From<MessageFault> for Ended {
    fn from(fault: MessageFault) -> Ended {
        match fault {
            MessageFault::Memory => Ended::Memory,
            _ => Ended::Wrong,
        }
    }
}

// The attributes of the route, and its prefix.
fn route(alloc: Global) -> Result<(Attributes, Prefix), Ended> {
    match read_message(alloc, &UPDATE)? {
        Message::Update(update) => match (update.attributes, update.nlri.first()) {
            (Some(attributes), Some(prefix)) => Ok((attributes, *prefix)),
            _ => Err(Ended::Wrong),
        },
        _ => Err(Ended::Wrong),
    }
}

// The one peer.
fn peers(alloc: Global) -> Result<Vec<PeerSpec>, AllocError> {
    let mut peers = Vec::new(alloc);
    peers.push(PeerSpec {
        name: String::from_str(alloc, "a")?,
        asn: 64501,
        address: 0xC000_020B,
        id: 0xC000_020B,
        preference: 100,
        refuse_from: Vec::new(alloc),
    })?;
    Ok(peers)
}

// An exchange of that peer.
fn exchange(alloc: Global) -> Result<Exchange, Ended> {
    let peers = peers(alloc)?;
    let local = Local {
        asn: 64500,
        address: 0xC000_0201,
        id: 0xC000_0201,
        subnet: None,
    };
    Ok(Exchange::new(alloc, local, peers)?)
}

// Dumps a table of one row.
fn dump(alloc: Global) -> Result<Counter, Ended> {
    let (attributes, prefix) = route(alloc)?;
    let plan = exchange(alloc)?;
    if plan.count() == 0 {
        return Err(Ended::Wrong);
    }
    let rows = [Row {
        prefix,
        route: Route {
            peer: 0,
            time: 100,
            attributes: &attributes,
        },
    }];
    let mut out = Counter {
        writes: 0,
        octets: 0,
    };
    match write_dump(alloc, &mut out, &plan, 0, &rows, 0) {
        Ok(1) => Ok(out),
        Err(DumpFault::Memory) if out.writes == 0 => Err(Ended::Memory),
        _ => Err(Ended::Wrong),
    }
}

fn main(rt: HostRuntime) -> ExitCode {
    match dump(rt.alloc()) {
        Ok(out) => {
            let _ = println!(rt; "writes {} octets {}", out.writes, out.octets);
            ExitCode::SUCCESS
        }
        Err(Ended::Memory) => {
            let _ = eprintln!(rt; "want_of_memory: out of memory");
            ExitCode::from(3)
        }
        Err(Ended::Wrong) => ExitCode::FAILURE,
    }
}
