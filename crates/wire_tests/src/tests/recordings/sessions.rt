//! What recorded sessions say: the changes of a peer's routes, its losses, and its close.

use super::check_rows;
use std::test::*;

// The rows: the head of `recordings` says how they are read.
const SESSIONS: &str = "
# Messages (RFC 4271, section 4).

an UPDATE announces
    100 16.4 of-64501 MARKER UPDATE
  by session
    100 +203.0.113.0/24
    0 closed: end of file

a KEEPALIVE
    100 16.4 of-64501 MARKER KEEPALIVE
  by session
    0 closed: end of file

an OPEN
    100 16.4 of-64501 MARKER 001D 01 04 FBF5 00B4 C000020B 00
  by session
    0 closed: end of file

a ROUTE-REFRESH (RFC 2918)
    100 16.4 of-64501 MARKER 0017 05 00010001
  by session
    0 closed: end of file

End-of-RIB (RFC 4724, section 2)
    100 16.4 of-64501 MARKER 0017 02 0000 0000
  by session
    0 closed: end of file

a NOTIFICATION is the loss of the session
    100 16.4 of-64501 MARKER CEASE
  by session
    100 down
    0 closed: end of file

a KEEPALIVE of 20 octets (section 6.1)
    100 16.4 of-64501 MARKER 0014 04 00
  by session
    100 closed: NOTIFICATION 1/2

a message of an unknown type (section 6.1)
    100 16.4 of-64501 MARKER 0013 06
  by session
    100 closed: NOTIFICATION 1/3

# Changes of state (RFC 6396, section 4.4.1): the session is lost where it leaves Established, 6.

Established to Idle
    100 16.5 of-64501 0006 0001
    100 17.5 000F423F of-64501 0006 0001
  by session
    100 down
    100 down
    0 closed: end of file

Established to Quagga's Clearing
    100 16.5 of-64501 0006 0007
    100 17.5 000F423F of-64501 0006 0007
  by session
    100 down
    100 down
    0 closed: end of file

Established to no state
    100 16.5 of-64501 0006 0000
    100 17.5 000F423F of-64501 0006 0000
  by session
    100 down
    100 down
    0 closed: end of file

a loss with an octet more
    100 16.5 of-64501 0006 0001 00
    100 17.5 000F423F of-64501 0006 0001 00
  by session
    100 down
    100 down
    0 closed: end of file

changes that are no loss
    100 16.5 of-64501 0006 0006
    100 17.5 000F423F of-64501 0006 0006
    100 16.5 of-64501 0005 0001
    100 17.5 000F423F of-64501 0005 0001
    100 16.5 of-64501 0007 0001
    100 17.5 000F423F of-64501 0007 0001
    100 16.5 of-64501 0001 0006
    100 17.5 000F423F of-64501 0001 0006
    100 16.5 of-64501 0003 0004
  by session
    0 closed: end of file

a session that is lost by a change of state is read on
    100 16.5 of-64501 0003 0006
    100 16.4 of-64501 MARKER UPDATE
    101 16.5 of-64501 0006 0001
    100 16.4 of-64501 MARKER UPDATE
  by session
    100 +203.0.113.0/24
    101 down
    100 +203.0.113.0/24
    0 closed: end of file
  by session octets 151
    100 +203.0.113.0/24
    101 down
    0 closed: end of file

a session that is lost by a NOTIFICATION is read on
    100 16.5 of-64501 0003 0006
    100 16.4 of-64501 MARKER UPDATE
    101 16.4 of-64501 MARKER CEASE
    100 16.4 of-64501 MARKER UPDATE
  by session
    100 +203.0.113.0/24
    101 down
    100 +203.0.113.0/24
    0 closed: end of file
  by session octets 168
    100 +203.0.113.0/24
    101 down
    0 closed: end of file

# The second time its change to Established isn't recorded. The first time the NOTIFICATION is followed by the change of
# state that it led to.

lost twice, and up again with other routes each time
    100 16.5 of-64501 0005 0006
    100 16.4 of-64501 MARKER 002D 02 0000 0014 MANDATORY 0801
    101 16.4 of-64501 MARKER CEASE
    101 16.5 of-64501 0006 0001
    102 16.5 of-64501 0005 0006
    102 16.4 of-64501 MARKER KEEPALIVE
    103 16.4 of-64501 MARKER 002D 02 0000 0014 MANDATORY 0802
    104 16.5 of-64501 0006 0003
    105 16.4 of-64501 MARKER 002F 02 0000 0014 MANDATORY 0803 0804
    106 16.4 of-64501 MARKER 0019 02 0002 0801 0000
  by session
    100 +1.0.0.0/8
    101 down
    101 down
    103 +2.0.0.0/8
    104 down
    105 +3.0.0.0/8
    105 +4.0.0.0/8
    106 -1.0.0.0/8
    0 closed: end of file

# Records that are too short to show whose they are, or whose message is too short (RFC 6396, sections 3, 4.4.3).

three octets of microseconds
    100 17.4 000000
  by session
    100 closed: recording's fault 4

three octets of microseconds, of another Subtype
    100 17.1 000000
  by session
    100 closed: recording's fault 4

microseconds alone
    100 17.4 00000000
  by session
    100 closed: recording's fault 3

eleven octets of fields
    100 16.4 0000000000000000000000
  by session
    100 closed: recording's fault 3

fields and no message
    100 16.4 of-64501 nothing
  by session
    100 closed: NOTIFICATION 1/2

# Records that are another's, or of another Type or Subtype, are passed over.

microseconds alone, of AS numbers of two octets
    100 17.1 00000000
  by session
    0 closed: end of file
    passed over 1

twelve octets, of no family
    100 16.4 000000000000000000000000
  by session
    0 closed: end of file
    passed over 1

TABLE_DUMP_V2
    100 13.1 00
  by session
    0 closed: end of file
    passed over 1

BIRD: the loss of a dead connection has no address
    100 16.5 0000FBF5 0000FBF4 0000 0001 00000000 C0000201 0006 0001
  by session
    0 closed: end of file
    passed over 1

OpenBGPD: the addresses of a change of state are swapped
    100 16.5 0000FBF5 0000FBF4 0000 0001 C0000201 C000020B 0006 0001
  by session
    0 closed: end of file
    passed over 1

BIRD: an OPEN and a first KEEPALIVE are those of a two-octet session
    100 16.1 of-two-octets MARKER 001D 01 04 FBF5 00B4 C000020B 00
    100 16.1 of-two-octets MARKER KEEPALIVE
  by session
    0 closed: end of file
    passed over 2

the peer's address with another AS, and its AS at another address
    100 16.5 0000FBF6 0000FBF4 0000 0001 C000020B C0000201 0006 0001
    100 16.5 0000FBF5 0000FBF4 0000 0001 C000020C C0000201 0006 0001
  by session
    0 closed: end of file
    passed over 2

as BIRD writes a session that ends with a dead connection, the routes stay
    100 16.1 of-two-octets MARKER KEEPALIVE
    100 16.5 of-64501 0005 0006
    101 16.4 of-64501 MARKER UPDATE
    102 16.5 0000FBF5 0000FBF4 0000 0001 00000000 C0000201 0006 0001
  by session
    101 +203.0.113.0/24
    0 closed: end of file
    passed over 2

# All peers in one file; of these records five are of others: of another peer, of IPv6, of a two-octet session, of
# another's state, and another's KEEPALIVE.

a collector's file
    100 16.4 of-64501 MARKER UPDATE
    100 16.4 of-64502 MARKER UPDATE
    100 16.4 0000FBF5 0000FBF4 0000 0002 20010DB8 00*11 01 20010DB8 00*11 02 MARKER KEEPALIVE
    100 16.1 of-two-octets MARKER KEEPALIVE
    100 16.5 of-64503 0006 0001
    100 16.4 of-64504 MARKER KEEPALIVE
    101 17.4 00000000 of-64501 MARKER 002F 02 0000 0014 MANDATORY 18C63364
  by session
    100 +203.0.113.0/24
    101 +198.51.100.0/24
    0 closed: end of file
    passed over 5
  by session pieces 1 to 100
    100 +203.0.113.0/24
    101 +198.51.100.0/24
    0 closed: end of file
    passed over 5

a record of 1,000,000 octets of another
    100 16.1 00*1000000
    100 16.4 of-64501 MARKER UPDATE
  by session pieces 1000000000
    100 +203.0.113.0/24
    0 closed: end of file
    passed over 1

# A message is no longer than 4,096 octets (RFC 4271, section 4.1).

5,000 octets of ones
    100 16.4 of-64501 FF*5000
  by session pieces 1
    100 closed: NOTIFICATION 1/2
  by session pieces 4096
    100 closed: NOTIFICATION 1/2
  by session pieces 100000
    100 closed: NOTIFICATION 1/2

# What is announced and withdrawn (RFC 4271, sections 3.1, 4.3).

a prefix that an UPDATE announces is not withdrawn by it
    100 16.4 of-64501 MARKER 0033 02 0004 18CB0071 0014 MANDATORY 18CB0071
  by session
    100 +203.0.113.0/24
    0 closed: end of file

lengths tell prefixes apart, and trailing bits do not
    100 16.4 of-64501 MARKER 002D 02 0000 0014 MANDATORY 080A
    101 16.4 of-64501 MARKER 001B 02 0004 180A0000 0000
    102 16.4 of-64501 MARKER 002D 02 0000 0014 MANDATORY 080A
    103 16.4 of-64501 MARKER 002E 02 0000 0014 MANDATORY 0C0AFF
    104 16.4 of-64501 MARKER 001A 02 0003 0C0AF3 0000
  by session
    100 +10.0.0.0/8
    101 -10.0.0.0/24
    102 +10.0.0.0/8
    103 +10.240.0.0/12
    104 -10.240.0.0/12
    0 closed: end of file

# 224.0.0.0/4 and 224.0.0.1/32 announced, 224.0.0.0/3 announced, 224.0.0.0/4 withdrawn, 224.0.0.0/3 withdrawn.

multicast prefixes give no change
    100 16.4 of-64501 MARKER 002D 02 0000 0014 MANDATORY 04E0
    101 16.4 of-64501 MARKER 0030 02 0000 0014 MANDATORY 20E0000001
    102 16.4 of-64501 MARKER 002D 02 0000 0014 MANDATORY 03E0
    103 16.4 of-64501 MARKER 0019 02 0002 04E0 0000
    104 16.4 of-64501 MARKER 0019 02 0002 03E0 0000
  by session
    102 +224.0.0.0/3
    104 -224.0.0.0/3
    0 closed: end of file

# Withdrawn: 1/8, 2/8, .. 12/8, and 5/8 again; announced: 20/8, 2/8, 4/8, 6/8, 8/8, 10/8, 12/8, 14/8, 3/8, 2/8, of which
# seven were withdrawn.

long lists are compared as short ones
    100 16.4 of-64501 MARKER 0059 02 001A 0801 0802 0803 0804 0805 0806 0807 0808 0809 080A 080B 080C 0805 0014 MANDATORY 0814 0802 0804 0806 0808 080A 080C 080E 0803 0802
  by session
    100 -1.0.0.0/8
    100 -5.0.0.0/8
    100 -7.0.0.0/8
    100 -9.0.0.0/8
    100 -11.0.0.0/8
    100 -5.0.0.0/8
    100 +20.0.0.0/8
    100 +2.0.0.0/8
    100 +4.0.0.0/8
    100 +6.0.0.0/8
    100 +8.0.0.0/8
    100 +10.0.0.0/8
    100 +12.0.0.0/8
    100 +14.0.0.0/8
    100 +3.0.0.0/8
    100 +2.0.0.0/8
    0 closed: end of file

# A fault in an UPDATE closes the session by RFC 4271 (section 6.3): here ORIGIN 3, which is no origin. After the close
# nothing is read. By RFC 7606 the prefixes of that UPDATE are withdrawn (section 7.1), and the session goes on.

a fault after changes
    100 16.4 of-64501 MARKER UPDATE
    101 16.4 of-64501 MARKER 002F 02 0000 0014 MANDATORY 18C63364
    102 16.4 of-64501 MARKER 002F 02 0000 0014 FAULTY 18C00002
    103 16.4 of-64501 MARKER 002F 02 0000 0014 MANDATORY 18C00003
    104 16.4 of-64502 MARKER KEEPALIVE
  by session
    100 +203.0.113.0/24
    101 +198.51.100.0/24
    102 closed: NOTIFICATION 3/6
  by session RFC 7606
    100 +203.0.113.0/24
    101 +198.51.100.0/24
    102 -192.0.2.0/24
    103 +192.0.3.0/24
    0 closed: end of file
    passed over 1

# Faults by RFC 7606: of several in one UPDATE the strongest counts (section 3).

an attribute that is not recognized and not optional
    100 16.4 of-64501 MARKER 001F 02 0000 0008 40630100 40010103
  by session RFC 7606
    100 closed: NOTIFICATION 3/2

a withdrawn prefix of 33 bits
    100 16.4 of-64501 MARKER 001C 02 0001 21 0004 40010103
  by session RFC 7606
    100 closed: NOTIFICATION 3/10

a second ORIGIN is discarded
    100 16.4 of-64501 MARKER 0033 02 0000 0018 40010100 40010103 40020602010000FBF5 400304C000020B 18CB0071
  by session RFC 7606
    100 +203.0.113.0/24
    0 closed: end of file

an AGGREGATOR of six octets is discarded
    100 16.4 of-64501 MARKER 0038 02 0000 001D MANDATORY C007060000FBF5C000 18CB0071
  by session RFC 7606
    100 +203.0.113.0/24
    0 closed: end of file

an ATOMIC_AGGREGATE that is optional withdraws
    100 16.4 of-64501 MARKER 0033 02 0000 0018 MANDATORY 80060100 18CB0071
  by session RFC 7606
    100 -203.0.113.0/24
    0 closed: end of file

MP_REACH_NLRI twice
    100 16.4 of-64501 MARKER 0033 02 0000 001C MANDATORY 800E0100 800E0100
  by session RFC 7606
    100 closed: NOTIFICATION 3/1

# It withdraws 1/8 and 2/8, and announces 2/8, 224/4 and 3/8.

what is treated as withdrawn comes after what is withdrawn
    100 16.4 of-64501 MARKER 0035 02 0004 0801 0802 0014 FAULTY 0802 04E0 0803
  by session RFC 7606
    100 -1.0.0.0/8
    100 -2.0.0.0/8
    100 -3.0.0.0/8
    0 closed: end of file

# Sessions that are asked for 203.0.113.0/24, up to a time: UPDATEs that list no prefix that covers it are passed over.

other prefixes, and one that is more specific
    100 16.4 of-64501 MARKER 002D 02 0000 0014 MANDATORY 0801
    101 16.4 of-64501 MARKER 0030 02 0000 0014 MANDATORY 19CB007100
    102 16.4 of-64501 MARKER UPDATE
    103 16.4 of-64501 MARKER 002D 02 0000 0014 MANDATORY 0801
  by prefix
    102 +203.0.113.0/24
    0 closed: end of file

a prefix that covers it is given, announced and withdrawn
    100 16.4 of-64501 MARKER 002D 02 0000 0014 MANDATORY 08CB
    101 16.4 of-64501 MARKER 0019 02 0002 08CB 0000
  by prefix
    100 +203.0.0.0/8
    101 -203.0.0.0/8
    0 closed: end of file

a fault beside it closes the session
    100 16.4 of-64501 MARKER 002D 02 0000 0014 MANDATORY 0801
    101 16.4 of-64501 MARKER 002D 02 0000 0014 FAULTY 0801
    102 16.4 of-64501 MARKER UPDATE
  by prefix
    101 closed: NOTIFICATION 3/6

a fault beside it by which routes are treated as withdrawn is passed over
    101 16.4 of-64501 MARKER 002D 02 0000 0014 FAULTY 0801
    102 16.4 of-64501 MARKER UPDATE
  by prefix RFC 7606
    102 +203.0.113.0/24
    0 closed: end of file

a later one is given though it is beside it
    100 16.4 of-64501 MARKER 002D 02 0000 0014 MANDATORY 0801
    101 16.4 of-64501 MARKER 002D 02 0000 0014 MANDATORY 0801
  by prefix until 100
    101 +1.0.0.0/8
    0 closed: end of file

a loss is given
    100 16.4 of-64501 MARKER 002D 02 0000 0014 MANDATORY 0801
    101 16.4 of-64501 MARKER CEASE
  by prefix
    101 down
    0 closed: end of file

# Files that end anywhere, come in pieces, and fail: first a file of 79 octets.

one UPDATE
    100 16.4 of-64501 MARKER UPDATE
  by session octets 79
    100 +203.0.113.0/24
    0 closed: end of file
  by session octets 78
    0 closed: recording's fault 2
  by session octets 12
    0 closed: recording's fault 2
  by session octets 11
    0 closed: recording's fault 1
  by session octets 1
    0 closed: recording's fault 1
  by session octets 0
    0 closed: end of file
  by session pieces 1
    100 +203.0.113.0/24
    0 closed: end of file
  by session pieces 1000
    100 +203.0.113.0/24
    0 closed: end of file
  by session pieces 1 fails 80
    100 +203.0.113.0/24
    0 closed: end of file
  by session pieces 1 fails 79
    100 +203.0.113.0/24
    0 closed: failed read
  by session pieces 1000 fails 79
    100 +203.0.113.0/24
    0 closed: failed read
  by session pieces 1 fails 78
    0 closed: failed read
  by session pieces 1000 fails 78
    0 closed: failed read
  by session pieces 1000 fails 0
    0 closed: failed read
";

#[test]
fn recorded_sessions_say_what_their_rows_want(rt: HostRuntime) -> Result<(), Fail> {
    check_rows(rt.alloc(), SESSIONS)
}
