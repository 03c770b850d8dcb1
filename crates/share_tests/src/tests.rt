//! One reading for several peers: whose records come, in which order, and how they end.

use rs_mrt::{AFI_IPV4, BGP4MP, MESSAGE_AS4, MrtFault, Records, Source, SourceFault};
use rs_share::{ShareRefused, Shared, Taken, share};
use rs_types::PeerId;
use std::alloc::{AllocError, Global};
use std::sync::Wait;
use std::test::*;

// What a peer saw: the time of each record, the number of records of others right before it, and how many octets its
// body has. Then how the records ended, and how many records of others came behind the last one.
#[derive(Debug, PartialEq, Eq, Drop)]
struct Seen {
    records: Vec<(u32, u64, usize)>,
    end: Result<bool, SourceFault>,
    behind: u64,
}

// The peer of a number: AS 64501 and so on, at 192.0.2.1 and so on.
fn peer(number: u32) -> PeerId {
    PeerId {
        address: 0xC000_0200 | (number & 0xFF),
        asn: 64501u32.saturating_add(number & 0xFF),
    }
}

// Adds a record of a message of this peer, whose body has so many octets behind its fields.
fn add(file: &mut Vec<u8>, time: u32, from: PeerId, octets: usize) -> Result<(), AllocError> {
    write_record(file, time, MESSAGE_AS4, octets.saturating_add(20))?;
    file.extend_from_slice(&from.asn.to_be_bytes())?;
    file.extend_from_slice(&[0; 6])?;
    file.extend_from_slice(&AFI_IPV4.to_be_bytes())?;
    file.extend_from_slice(&from.address.to_be_bytes())?;
    file.extend_from_slice(&[0; 4])?;
    for _ in 0..octets {
        file.extend_from_slice(&[7])?;
    }
    Ok(())
}

// Adds a record that is shorter than its fields: it ends every session.
fn add_fault(file: &mut Vec<u8>, time: u32) -> Result<(), AllocError> {
    write_record(file, time, MESSAGE_AS4, 3)?;
    file.extend_from_slice(&[0; 3])
}

fn write_record(file: &mut Vec<u8>, time: u32, subtype: u16, len: usize) -> Result<(), AllocError> {
    file.extend_from_slice(&time.to_be_bytes())?;
    file.extend_from_slice(&BGP4MP.to_be_bytes())?;
    file.extend_from_slice(&subtype.to_be_bytes())?;
    file.extend_from_slice(&((len & 0xFFFF_FFFF) as u32).to_be_bytes())
}

// Takes the records of a peer, at most so many.
fn walk<S: Source, R: Wait>(
    alloc: Global,
    taken: Taken<'_, S, R>,
    most: usize,
) -> Result<Seen, AllocError> {
    let mut taken = taken;
    let mut records = Vec::new(alloc);
    let mut end = Ok(true);
    for _ in 0..most {
        end = taken.advance();
        if end != Ok(true) {
            break;
        }
        if let Some(record) = taken.shown() {
            records.push((record.time, taken.others(), record.body.len()))?;
        }
    }
    Ok(Seen {
        records,
        end,
        behind: taken.others(),
    })
}

// How many octets a file has at most: fewer than wait at most for two peers, so that the reader ends before they take any.
const FILE_LEN: usize = 65_536;

// Reads a file for two peers. Then each takes at most so many records.
fn for_two<R: Wait>(
    rt: &R,
    alloc: Global,
    file: &[u8],
    most: [usize; 2],
) -> Result<(Seen, Seen), AllocError> {
    if file.len() > FILE_LEN {
        return Err(AllocError);
    }
    let Ok(shared) = share(alloc, rt, Records::new(file), &[peer(1), peer(2)]) else {
        return Err(AllocError);
    };
    let Shared { reader, mut taken } = shared;
    let (Some(two), Some(one)) = (taken.pop(), taken.pop()) else {
        return Err(AllocError);
    };
    reader.read_all(rt);
    let [first, second] = most;
    Ok((walk(alloc, one, first)?, walk(alloc, two, second)?))
}

// More records than a file has.
const ALL: usize = 100;

#[test]
fn each_peer_takes_its_own_records(rt: HostRuntime) -> Result<(), Fail> {
    let alloc = rt.alloc();
    let mut file = Vec::new(alloc);
    add(&mut file, 1, peer(2), 19)?;
    add(&mut file, 2, peer(1), 20)?;
    add(&mut file, 3, peer(3), 21)?;
    add(&mut file, 4, peer(3), 22)?;
    add(&mut file, 5, peer(1), 23)?;
    add(&mut file, 6, peer(3), 24)?;
    let (one, two) = for_two(&rt, alloc, &file, [ALL, ALL])?;
    assert_eq!(rt;
        one,
        Seen {
            records: vec![in alloc; (2, 1, 40), (5, 2, 43)]?,
            end: Ok(false),
            behind: 1
        }
    );
    assert_eq!(rt;
        two,
        Seen {
            records: vec![in alloc; (1, 0, 39)]?,
            end: Ok(false),
            behind: 5
        }
    );
    Ok(())
}

#[test]
fn a_fault_ends_all_sessions(rt: HostRuntime) -> Result<(), Fail> {
    let alloc = rt.alloc();
    let mut file = Vec::new(alloc);
    add(&mut file, 1, peer(1), 19)?;
    add_fault(&mut file, 2)?;
    add(&mut file, 3, peer(1), 19)?;
    let (one, two) = for_two(&rt, alloc, &file, [2, 1])?;
    assert_eq!(rt; one.records, vec![in alloc; (1, 0, 39), (2, 0, 3)]?);
    assert_eq!(rt; two.records, vec![in alloc; (2, 1, 3)]?);
    let (one, _) = for_two(&rt, alloc, &file, [ALL, ALL])?;
    assert_eq!(rt; (one.records.len(), one.end), (2, Err(SourceFault::Read)));
    Ok(())
}

#[test]
fn an_end_within_a_record_ends_all_sessions(rt: HostRuntime) -> Result<(), Fail> {
    let alloc = rt.alloc();
    let mut file = Vec::new(alloc);
    add(&mut file, 1, peer(1), 19)?;
    add(&mut file, 2, peer(3), 19)?;
    file.extend_from_slice(&[0; 5])?;
    let (one, two) = for_two(&rt, alloc, &file, [ALL, ALL])?;
    let end = Err(SourceFault::Mrt(MrtFault::HeaderCutShort));
    assert_eq!(rt;
        one,
        Seen {
            records: vec![in alloc; (1, 0, 39)]?,
            end,
            behind: 1
        }
    );
    assert_eq!(rt;
        two,
        Seen {
            records: vec![in alloc;]?,
            end,
            behind: 2
        }
    );
    Ok(())
}

#[test]
fn two_peers_with_one_address_are_refused(rt: HostRuntime) -> Result<(), Fail> {
    let answer = share(
        rt.alloc(),
        &rt,
        Records::new(&[]),
        &[peer(1), peer(2), peer(1)],
    );
    assert!(rt; matches!(answer, Err(ShareRefused::Twice)));
    Ok(())
}
