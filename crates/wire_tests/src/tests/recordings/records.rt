//! The records of recorded files, and what single records say.

use super::check_rows;
use std::test::*;

// The rows: the head of `recordings` says how they are read.
const RECORDS: &str = "
# What is said (RFC 6396, section 4.4): messages and changes of state of IPv4 peers, with AS numbers of four octets,
# with microseconds or without.

a message
    100 16.4 of-64501 MARKER UPDATE
    100 17.4 000F423F of-64501 MARKER UPDATE
    100 16.4 of-64501 nothing
  by entries
    100 192.0.2.11 AS64501 message FFFFFFFFFFFFFFFFFFFFFFFFFFFFFFFF002F02000000144001010040020602010000FBF5400304C000020B18CB0071
    100 192.0.2.11 AS64501 message FFFFFFFFFFFFFFFFFFFFFFFFFFFFFFFF002F02000000144001010040020602010000FBF5400304C000020B18CB0071
    100 192.0.2.11 AS64501 message
    end
    end

a change of state, the second one with an octet more
    100 16.5 of-64501 0003 0006
    100 16.5 of-64501 0006 0001 00
    100 17.5 00000000 of-64501 0006 0001
  by entries
    100 192.0.2.11 AS64501 state 3 to 6
    100 192.0.2.11 AS64501 state 6 to 1
    100 192.0.2.11 AS64501 state 6 to 1
    end
    end

Quagga: Clearing; BIRD: a dead connection; OpenBGPD: the recorder's address first
    100 16.5 of-64501 0006 0007
    100 16.5 0000FBF5 0000FBF4 0000 0001 00000000 C0000201 0006 0001
    100 16.5 0000FBF5 0000FBF4 0000 0001 C0000201 C000020B 0006 0001
  by entries
    100 192.0.2.11 AS64501 state 6 to 7
    100 0.0.0.0 AS64501 state 6 to 1
    100 192.0.2.1 AS64501 state 6 to 1
    end
    end

other records: TABLE_DUMP_V2, OSPFv2
    100 13.1 of-64501 MARKER UPDATE
    100 11.0 of-64501 MARKER UPDATE
  by entries
    100 other
    100 other
    end
    end

other records: AS numbers of two octets, the recorder's own messages, path identifiers (RFC 8050)
    100 16.0 nothing
    100 16.1 of-64501 MARKER UPDATE
    100 16.6 nothing
    100 16.7 of-64501 MARKER UPDATE
    100 16.9 of-64501 MARKER UPDATE
  by entries
    100 other
    100 other
    100 other
    100 other
    100 other
    end
    end

other records: IPv6, twelve octets of no family, microseconds alone of Subtype 1, microseconds that aren't fields
    100 16.4 0000FBF5 0000FBF4 0000 0002
    100 16.5 0000FBF5 0000FBF4 0000 0002 0006 0001
    100 16.4 000000000000000000000000
    100 17.1 00000000
    100 17.5 of-64501 0006 0001
  by entries
    100 other
    100 other
    100 other
    100 other
    100 other
    end
    end

# Records that are too short.

three octets of microseconds, of either Subtype
    100 17.4 000000
    100 17.1 000000
  by entries
    100 fault 4: a BGP4MP_ET record is shorter than its Microsecond Timestamp
    100 fault 4: a BGP4MP_ET record is shorter than its Microsecond Timestamp
    end
    end

microseconds alone; 11 octets; 12 octets of IPv4; 19 octets; a new state that is cut short
    100 17.4 00000000
    100 16.4 0000000000000000000000
    100 16.4 000000000000000000000001
    100 16.4 0000FBF5 0000FBF4 0000 0001 C000020B C00002
    100 16.5 of-64501 0006 00
  by entries
    100 fault 3: a BGP4MP record is shorter than its fields
    100 fault 3: a BGP4MP record is shorter than its fields
    100 fault 3: a BGP4MP record is shorter than its fields
    100 fault 3: a BGP4MP record is shorter than its fields
    100 fault 3: a BGP4MP record is shorter than its fields
    end
    end

a recorder writes all peers into one file
    100 16.4 of-64501 MARKER UPDATE
    100 16.4 of-64502 nothing
    100 16.4 0000FBF5 0000FBF4 0000 0002 20010DB8 00*11 01 20010DB8 00*11 02
    100 16.1 of-two-octets
    100 16.5 of-64503 0006 0001
    100 16.4 of-64504 MARKER KEEPALIVE
    101 17.4 00000000 of-64501 MARKER UPDATE
  by entries
    100 192.0.2.11 AS64501 message FFFFFFFFFFFFFFFFFFFFFFFFFFFFFFFF002F02000000144001010040020602010000FBF5400304C000020B18CB0071
    100 192.0.2.12 AS64502 message
    100 other
    100 other
    100 192.0.2.13 AS64503 state 6 to 1
    100 192.0.2.14 AS64504 message FFFFFFFFFFFFFFFFFFFFFFFFFFFFFFFF001304
    101 192.0.2.11 AS64501 message FFFFFFFFFFFFFFFFFFFFFFFFFFFFFFFF002F02000000144001010040020602010000FBF5400304C000020B18CB0071
    end
    end

# Records and their ends (RFC 6396, section 2). A source that has stopped stays so, and shows no record.

no record
    0 0.0 nothing
  by bodies octets 0
    end
    end
  by bodies octets 0 pieces 1
    end
    end

one record, in a file of 79 octets
    100 16.4 of-64501 MARKER UPDATE
  by bodies
    100 16.4 0000FBF50000FBF400000001C000020BC0000201FFFFFFFFFFFFFFFFFFFFFFFFFFFFFFFF002F02000000144001010040020602010000FBF5400304C000020B18CB0071
    end
    end
  by bodies octets 79
    100 16.4 0000FBF50000FBF400000001C000020BC0000201FFFFFFFFFFFFFFFFFFFFFFFFFFFFFFFF002F02000000144001010040020602010000FBF5400304C000020B18CB0071
    end
    end
  by bodies octets 1
    fault 1: the file ends in the header of a record
    fault 1: the file ends in the header of a record
  by bodies octets 11
    fault 1: the file ends in the header of a record
    fault 1: the file ends in the header of a record
  by bodies octets 12
    fault 2: the file ends in the body of a record
    fault 2: the file ends in the body of a record
  by bodies octets 78
    fault 2: the file ends in the body of a record
    fault 2: the file ends in the body of a record

# Records of 15 and 12 octets, which come whole before the file ends or a read fails.

two records
    1 13.1 010203
    2 13.2 nothing
  by bodies
    1 13.1 010203
    2 13.2
    end
    end
  by bodies octets 20
    1 13.1 010203
    fault 1: the file ends in the header of a record
    fault 1: the file ends in the header of a record
  by bodies octets 0 pieces 1 to 30
    end
    end
  by bodies octets 0 pieces 1 to 30 fails 0
    records could not be read
    records could not be read
  by bodies octets 11 pieces 1 to 30
    fault 1: the file ends in the header of a record
    fault 1: the file ends in the header of a record
  by bodies octets 11 pieces 1 to 30 fails 11
    records could not be read
    records could not be read
  by bodies octets 14 pieces 1 to 30
    fault 2: the file ends in the body of a record
    fault 2: the file ends in the body of a record
  by bodies octets 14 pieces 1 to 30 fails 14
    records could not be read
    records could not be read
  by bodies octets 15 pieces 1 to 30
    1 13.1 010203
    end
    end
  by bodies octets 15 pieces 1 to 30 fails 15
    1 13.1 010203
    records could not be read
    records could not be read
  by bodies octets 26 pieces 1 to 30
    1 13.1 010203
    fault 1: the file ends in the header of a record
    fault 1: the file ends in the header of a record
  by bodies octets 26 pieces 1 to 30 fails 26
    1 13.1 010203
    records could not be read
    records could not be read
  by bodies octets 27 pieces 1 to 30
    1 13.1 010203
    2 13.2
    end
    end
  by bodies octets 27 pieces 1 to 30 fails 27
    1 13.1 010203
    2 13.2
    records could not be read
    records could not be read

# A reader isn't asked again after a failed read: it would have given the second record.

a read that fails in the second record
    1 13.1 010203
    2 13.2 nothing
  by bodies pieces 100 fails 20
    1 13.1 010203
    records could not be read
    records could not be read

# Of a long body the first 4,121 octets are shown: the longest fields and the longest message.

a record of 10,012 octets and two after it
    7 13.1 01*10000
    1 13.1 010203
    2 13.2 nothing
  by lengths
    7 13.1 10000 octets
    1 13.1 3 octets
    2 13.2 0 octets
    end
    end
  by lengths pieces 1 to 3
    7 13.1 4121 octets
    1 13.1 3 octets
    2 13.2 0 octets
    end
    end
  by lengths pieces 100
    7 13.1 4121 octets
    1 13.1 3 octets
    2 13.2 0 octets
    end
    end
  by lengths pieces 4133
    7 13.1 4121 octets
    1 13.1 3 octets
    2 13.2 0 octets
    end
    end
  by lengths pieces 100000
    7 13.1 4121 octets
    1 13.1 3 octets
    2 13.2 0 octets
    end
    end
  by lengths pieces 1 to 3 fails 10012
    7 13.1 4121 octets
    records could not be read
    records could not be read
  by lengths pieces 4133 fails 10012
    7 13.1 4121 octets
    records could not be read
    records could not be read
  by lengths pieces 100000 fails 10012
    7 13.1 4121 octets
    records could not be read
    records could not be read
  by lengths pieces 1 to 3 fails 10011
    records could not be read
    records could not be read
  by lengths pieces 4133 fails 10011
    records could not be read
    records could not be read
  by lengths pieces 100000 fails 10011
    records could not be read
    records could not be read
  by lengths octets 10011 pieces 1 to 3
    fault 2: the file ends in the body of a record
    fault 2: the file ends in the body of a record
  by lengths octets 10011 pieces 100000
    fault 2: the file ends in the body of a record
    fault 2: the file ends in the body of a record
";

#[test]
fn records_say_what_their_rows_want(rt: HostRuntime) -> Result<(), Fail> {
    check_rows(rt.alloc(), RECORDS)
}
