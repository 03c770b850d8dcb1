//! What recorded files hold: records by kind and their times, and what is known of each peer. There are files that
//! end within a record, that are empty, that are no recordings, and that are compressed. The formats are those of RFC
//! 6396, sections 3 and 4.4; RFC 4271, sections 4.2 and 4.5; RFC 6793.

use super::{check_rows, file_of};
use rs_inventory::{InventoryFault, read_inventory};
use rs_mrt::{Bounds, MemoryReader, ReadLimits};
use std::alloc::Global;
use std::test::*;

// The kind is found by the Type, then the Subtype, then the Address Family.
const KINDS: &str = "
one of each kind, but two of sessions with two-octet AS numbers
    100 16.4 of-64501 MARKER CHANGES
    100 16.4 of-64501 MARKER OPEN
    100 16.4 of-64501 MARKER CEASE
    100 16.4 of-64501 MARKER KEEPALIVE
    100 16.4 of-64501 MARKER REFRESH
    100 16.4 of-64501 MARKER FAULTY_UPDATE
    100 16.5 of-64501 0005 0006
    100 16.1 of-two-octets MARKER KEEPALIVE
    100 16.0 of-two-octets 0005 0006
    100 16.9 of-64501 MARKER KEEPALIVE
    100 16.4 of-ipv6 MARKER KEEPALIVE
    100 13.1 C0000201 0000 0000
    100 16.4 0000FBF5 0000FBF4 0000 0001 C000020B
    100 12.1 00
  by inventory
    records 14, 1 Update, 1 Open, 1 Notification, 1 KeepAlive, 1 RouteRefresh, 1 Faulty, 1 StateChange, \
    2 TwoOctet, 1 AddPath, 1 Ipv6, 1 TableDumpV2, 1 CutShort, 1 Other

an address family that none is
    7 16.4 0000FBF5 0000FBF4 0000 0003 C000020B C0000201
  by inventory
    records 1, 1 Other

a local message
    7 16.6 of-two-octets
  by inventory
    records 1, 1 Other

a message with path identifiers
    7 16.8 nothing
  by inventory
    records 1, 1 AddPath

a local one
    7 16.11 nothing
  by inventory
    records 1, 1 AddPath

a Subtype that none is
    7 16.12 nothing
  by inventory
    records 1, 1 Other

two octets of AS number come before an IPv6 address
    7 16.1 of-ipv6
  by inventory
    records 1, 1 TwoOctet

with microseconds the fields stand four octets on
    7 17.5 0000FBF5 0000FBF4 0000 0002
  by inventory
    records 1, 1 CutShort

the same with microseconds
    7 17.5 00000000 0000FBF5 0000FBF4 0000 0002
  by inventory
    records 1, 1 Ipv6

three octets of microseconds
    7 17.1 000000
  by inventory
    records 1, 1 CutShort

TABLE_DUMP_V2
    7 13.4 nothing
  by inventory
    records 1, 1 TableDumpV2

a Type that none is
    7 14.4 nothing
  by inventory
    records 1, 1 Other

the earliest time and the latest
    300 16.4 of-64501 MARKER KEEPALIVE
    100 16.4 of-64501 MARKER KEEPALIVE
    200 16.4 of-64501 MARKER KEEPALIVE
  by inventory
    times Some(100) Some(300)
";

#[test]
fn each_record_is_of_one_kind(rt: HostRuntime) -> Result<(), Fail> {
    check_rows(rt.alloc(), KINDS)
}

const PEERS: &str = "
# Counts are of records, messages, changes of state, messages at fault, prefixes announced and withdrawn. The recorder is
# AS 64500 at 192.0.2.1.

records count for their peer alone
    100 16.4 of-64501 MARKER CHANGES
    101 16.4 of-64502 MARKER KEEPALIVE
    102 16.4 of-64501 MARKER CHANGES
    103 16.4 of-64501 MARKER FAULTY_UPDATE
    104 16.5 of-64501 0005 0004
  by inventory
    peers 2
    192.0.2.11 64501 counts [4, 3, 1, 1, 4, 2]
    192.0.2.12 64502 counts [1, 1, 0, 0, 0, 0]
    Some(PeerId { address: 3221225985, asn: 64500 })

# OPENs of two peers in both forms, with another identifier of the first peer in between: 192.0.2.111, then .112, then
# .111 again; 192.0.2.116. Records of two octets of AS number count for none.

identifiers of OPENs
    100 16.4 of-64501 MARKER OPEN
    100 16.4 of-64501 MARKER OPEN
    101 16.4 of-64501 MARKER 001D 01 04 FBF5 005A C0000270 00
    102 16.4 of-64501 MARKER OPEN
    103 16.1 of-as-trans MARKER OPEN-of-4200000006
    103 17.1 000186A0 of-as-trans MARKER OPEN-of-4200000006
    104 16.4 of-4200000006 MARKER KEEPALIVE
  by inventory
    peers 2
    192.0.2.11 64501 identifiers [3221226095, 3221226096, 3221226095]
    192.0.2.16 4200000006 identifiers [3221226100]
    192.0.2.16 4200000006 counts [1, 1, 0, 0, 0, 0]

an OPEN without four octets of AS number has the recorded one: 64501, and AS_TRANS
    100 16.1 of-two-octets MARKER OPEN
    100 16.1 of-as-trans MARKER 001D 01 04 5BA0 005A C0000274 00
  by inventory
    peers 2
    192.0.2.11 64501 identifiers [3221226095]
    192.0.2.16 23456 identifiers [3221226100]

# Sessions; state 6 is Established.

a session that comes up and goes down
    100 16.5 of-64501 0005 0006
    101 16.5 of-64501 0006 0001
  by inventory
    192.0.2.11 64501 sessions [SessionTimes { up: Some(100), down: Some(101), shown: false }]

a loss alone: when the session came up isn't recorded
    100 16.5 of-64501 0006 0001
  by inventory
    192.0.2.11 64501 sessions [SessionTimes { up: None, down: Some(100), shown: false }]

a loss by a NOTIFICATION alone
    100 16.4 of-64501 MARKER CEASE
    101 16.5 of-64501 0006 0001
  by inventory
    192.0.2.11 64501 sessions [SessionTimes { up: None, down: Some(100), shown: false }]

a session that comes up again was lost unseen
    100 16.5 of-64501 0005 0006
    101 16.5 of-64501 0005 0006
    102 16.5 of-64501 0006 0001
  by inventory
    192.0.2.11 64501 sessions [SessionTimes { up: Some(100), down: None, shown: false }, SessionTimes { up: Some(101), down: Some(102), shown: false }]

a loss after a loss says nothing
    100 16.5 of-64501 0005 0006
    101 16.4 of-64501 MARKER CEASE
    102 16.5 of-64501 0006 0001
    103 16.5 of-64501 0005 0006
  by inventory
    192.0.2.11 64501 sessions [SessionTimes { up: Some(100), down: Some(101), shown: false }, SessionTimes { up: Some(103), down: None, shown: false }]

an UPDATE behind a loss shows another session, which a loss ends
    100 16.5 of-64501 0005 0006
    101 16.5 of-64501 0006 0001
    102 16.4 of-64501 MARKER OPEN
    103 16.4 of-64501 MARKER UPDATE
    104 16.4 of-64501 MARKER UPDATE
    105 16.4 of-64501 MARKER CEASE
    106 16.5 of-64501 0006 0001
  by inventory
    192.0.2.11 64501 sessions [SessionTimes { up: Some(100), down: Some(101), shown: false }, SessionTimes { up: Some(103), down: Some(105), shown: true }]

an UPDATE before any loss shows no other session
    100 16.4 of-64501 MARKER UPDATE
    101 16.4 of-64501 MARKER CEASE
    102 16.4 of-64501 MARKER UPDATE
    103 16.5 of-64501 0005 0006
    104 16.4 of-64501 MARKER UPDATE
  by inventory
    192.0.2.11 64501 sessions [SessionTimes { up: None, down: Some(101), shown: false }, SessionTimes { up: Some(102), down: None, shown: true }, SessionTimes { up: Some(103), down: None, shown: false }]

changes that neither come to Established nor leave it
    100 16.5 of-64501 0001 0003
    101 16.5 of-64501 0006 0006
  by inventory
    192.0.2.11 64501 sessions []
";

#[test]
fn what_is_known_of_each_peer(rt: HostRuntime) -> Result<(), Fail> {
    check_rows(rt.alloc(), PEERS)
}

const ENDS: &str = "
two records of 51 octets
    100 16.4 of-64501 MARKER KEEPALIVE
    101 16.4 of-64501 MARKER KEEPALIVE
  by inventory octets 102
    records 2, 2 KeepAlive
    octets Some(102) end None
  by inventory octets 101
    records 1, 1 KeepAlive
    octets Some(51) end Some(BodyCutShort)
  by inventory octets 63
    records 1, 1 KeepAlive
    octets Some(51) end Some(BodyCutShort)
  by inventory octets 62
    records 1, 1 KeepAlive
    octets Some(51) end Some(HeaderCutShort)
  by inventory octets 52
    records 1, 1 KeepAlive
    octets Some(51) end Some(HeaderCutShort)
  by inventory octets 51
    records 1, 1 KeepAlive
    octets Some(51) end None
  by inventory octets 5
    records 0
    octets Some(0) end Some(HeaderCutShort)
  by inventory octets 0
    records 0
    octets Some(0) end None

# Of a record that is longer than any message makes one the octets aren't counted.

a record of 4,132 octets
    100 16.12 00*4120
  by inventory
    records 1, 1 Other
    octets Some(4132) end None

a record of 4,133 octets
    100 16.12 00*4121
  by inventory
    records 1, 1 Other
    octets None end None

a text, and no recording of any session
    octets 54686973206973206120746578742C20616E64206E6F207265636F7264696E67206F6620616E792073657373696F6E2E0A
  by inventory
    records 0
    octets Some(0) end Some(BodyCutShort)
    times None None
    peers 0

# Octets as gzip, bzip2, xz and zstd write an empty or a short file; records of other times, and of that which the first
# octets of bzip2 would be; too few octets. Of a compressed file nothing else is known.

gzip
    octets 1F8B 08 00 0000000000FF
  by whole inventory
    records 0
    octets Some(0) end None
    times None None
    compression Some(Gzip)
    None
    peers 0

bzip2
    octets 425A6839 314159265359 B44717C6
  by whole inventory
    records 0
    octets Some(0) end None
    times None None
    compression Some(Bzip2)
    None
    peers 0

xz
    octets FD377A585A00 0004E6D6B446
  by whole inventory
    records 0
    octets Some(0) end None
    times None None
    compression Some(Xz)
    None
    peers 0

zstd
    octets 28B52FFD 2400 01000099E9D851
  by whole inventory
    records 0
    octets Some(0) end None
    times None None
    compression Some(Zstd)
    None
    peers 0

a record of the time that gzip begins with, but for the method
    octets 1F8B 0900 0010 0004 00000000
  by inventory
    compression None
    records 1, 1 CutShort

a record of the time that bzip2 begins with
    octets 425A6839 0010 0004 00000000
  by inventory
    compression None
    records 1, 1 CutShort

a record of a time before that which zstd begins with
    octets 28B52FFC 0010 0004 00000000
  by inventory
    compression None
    records 1, 1 CutShort

two octets of gzip
    octets 1F8B
  by inventory
    compression None
    records 0
    octets Some(0) end Some(HeaderCutShort)

an empty file
    octets nothing
  by inventory
    compression None
    records 0
";

#[test]
fn files_end_where_their_octets_end(rt: HostRuntime) -> Result<(), Fail> {
    check_rows(rt.alloc(), ENDS)
}

const PIECES: &str = "
a file that comes in pieces holds the same
    100 16.4 of-64501 MARKER OPEN
    101 16.4 of-64501 MARKER CHANGES
    102 16.4 of-64502 MARKER KEEPALIVE
  by whole inventory pieces 0 to 100
    records 3, 1 Update, 1 Open, 1 KeepAlive
    octets Some(199) end None
    times Some(100) Some(102)
    compression None
    Some(PeerId { address: 3221225985, asn: 64500 })
    peers 2
    192.0.2.11 64501 counts [2, 2, 0, 0, 2, 1]
    192.0.2.11 64501 identifiers [3221226095]
    192.0.2.11 64501 sessions []
    192.0.2.12 64502 counts [1, 1, 0, 0, 0, 0]
    192.0.2.12 64502 identifiers []
    192.0.2.12 64502 sessions []
";

#[test]
fn a_file_in_pieces_holds_the_same(rt: HostRuntime) -> Result<(), Fail> {
    check_rows(rt.alloc(), PIECES)
}

const THREE_RECORDS: &str = "100 16.4 of-64501 MARKER OPEN
    101 16.4 of-64501 MARKER CHANGES
    102 16.4 of-64502 MARKER KEEPALIVE";

// Whether a read of a file fails after so many octets.
fn fails(alloc: Global, file: &[u8], count: usize) -> bool {
    let limits = ReadLimits {
        octets_before_failure: Some(count),
        piece: 9,
        ..ReadLimits::none()
    };
    let answer = read_inventory(alloc, MemoryReader::new(file, limits), Bounds::none());
    matches!(answer, Err(InventoryFault::Read))
}

#[test]
fn a_failed_read_gives_no_inventory(rt: HostRuntime) -> Result<(), Fail> {
    let file = file_of(rt.alloc(), THREE_RECORDS);
    let file = file.whole().ok_or("a file")?;
    for count in 0..file.len() {
        assert!(rt;
            fails(rt.alloc(), file, count),
            "a failure after {count} octets"
        );
    }
    Ok(())
}
