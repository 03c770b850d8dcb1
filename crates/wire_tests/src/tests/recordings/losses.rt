//! Losses that a recording doesn't have, but that its other records show.

use super::check_rows;
use std::test::*;

// The rows: the head of `recordings` says how they are read.
const LOSSES: &str = "
# BIRD: the loss of a dead connection has the Peer IP Address 0.0.0.0.

a connection dies
    100 16.4 of-64501 MARKER UPDATE
    200 16.5 0000FBF5 0000FBF4 0000 0001 00000000 C0000201 0006 0001
    300 16.4 of-64501 MARKER UPDATE
  by session losses
    100 +203.0.113.0/24
    300 +203.0.113.0/24
    0 closed: end of file
    passed over 1
  by session inferred losses pieces 1 to 64
    100 +203.0.113.0/24
    200 down
    300 +203.0.113.0/24
    0 closed: end of file
    passed over 1
  by bodies inferred losses
    100 16.4 0000FBF50000FBF400000001C000020BC0000201FFFFFFFFFFFFFFFFFFFFFFFFFFFFFFFF002F02000000144001010040020602010000FBF5400304C000020B18CB0071
    200 16.5 0000FBF50000000000000001C000020B0000000000060000
    200 16.5 0000FBF50000FBF40000000100000000C000020100060001
    300 16.4 0000FBF50000FBF400000001C000020BC0000201FFFFFFFFFFFFFFFFFFFFFFFFFFFFFFFF002F02000000144001010040020602010000FBF5400304C000020B18CB0071
    end
    end
  by marks inferred losses pieces 1 to 64
    100
    200 put in
    200
    300
    end
  by marks losses
    100
    200
    300
    end
  by bodies inferred losses octets 85 pieces 1 to 64
    100 16.4 0000FBF50000FBF400000001C000020BC0000201FFFFFFFFFFFFFFFFFFFFFFFFFFFFFFFF002F02000000144001010040020602010000FBF5400304C000020B18CB0071
    fault 1: the file ends in the header of a record
    fault 1: the file ends in the header of a record
  by session inferred losses fails 103 pieces 1 to 64
    100 +203.0.113.0/24
    0 closed: failed read
  by session inferred losses beside another
    100 +203.0.113.0/24
    300 +203.0.113.0/24
    0 closed: end of file
    passed over 1

a NOTIFICATION to a dead connection
    100 16.4 of-64501 MARKER UPDATE
    200 16.4 0000FBF5 0000FBF4 0000 0001 00000000 C0000201 MARKER CEASE
  by session inferred losses pieces 1 to 64
    100 +203.0.113.0/24
    200 down
    0 closed: end of file
    passed over 1

another peer's connection dies
    100 16.4 of-64501 MARKER UPDATE
    200 16.5 0000FBF6 0000FBF4 0000 0001 00000000 C0000201 0006 0001
  by session inferred losses
    100 +203.0.113.0/24
    0 closed: end of file
    passed over 1

a connection that never was up dies
    100 16.4 of-64501 MARKER KEEPALIVE
    200 16.5 0000FBF5 0000FBF4 0000 0001 00000000 C0000201 0006 0001
  by session inferred losses
    0 closed: end of file
    passed over 1

# OpenBGPD: the addresses of a change of state are swapped.

swapped addresses
    100 16.5 of-64501 0005 0006
    200 16.5 0000FBF5 0000FBF4 0000 0001 C0000201 C000020B 0006 0001
    300 16.5 0000FBF5 0000FBF4 0000 0001 C0000201 C000020B 0006 0001
  by session inferred losses beside another pieces 1 to 64
    200 down
    0 closed: end of file
    passed over 2

swapped addresses that are another's
    100 16.5 of-64501 0005 0006
    200 16.5 0000FBF5 0000FBF4 0000 0001 C0000201 C000020C 0006 0001
    300 16.5 0000FBF6 0000FBF4 0000 0001 C0000201 C000020B 0006 0001
    400 16.5 0000FBF5 0000FBF4 0000 0001 C0000201 C000020B 0005 0006
  by session inferred losses
    0 closed: end of file
    passed over 3

# A session begins that is up (RFC 4271, section 8.2.2).

an OPEN and a change to Established are one loss
    100 16.4 of-64501 MARKER UPDATE
    200 16.4 of-64501 MARKER OPEN
    200 16.5 of-64501 0005 0006
    300 16.4 of-64501 MARKER UPDATE
  by session inferred losses pieces 1 to 64
    100 +203.0.113.0/24
    200 down
    300 +203.0.113.0/24
    0 closed: end of file
  by bodies inferred losses pieces 1 to 64
    100 16.4 0000FBF50000FBF400000001C000020BC0000201FFFFFFFFFFFFFFFFFFFFFFFFFFFFFFFF002F02000000144001010040020602010000FBF5400304C000020B18CB0071
    200 16.5 0000FBF50000000000000001C000020B0000000000060000
    200 16.4 0000FBF50000FBF400000001C000020BC0000201FFFFFFFFFFFFFFFFFFFFFFFFFFFFFFFF001D0104FBF5005AC000026F00
    200 16.5 0000FBF50000FBF400000001C000020BC000020100050006
    300 16.4 0000FBF50000FBF400000001C000020BC0000201FFFFFFFFFFFFFFFFFFFFFFFFFFFFFFFF002F02000000144001010040020602010000FBF5400304C000020B18CB0071
    end
    end

an OPEN with microseconds
    100 16.4 of-64501 MARKER UPDATE
    200 17.4 0003D090 of-64501 MARKER OPEN
  by session inferred losses
    100 +203.0.113.0/24
    200 down
    0 closed: end of file
  by bodies inferred losses pieces 1 to 64
    100 16.4 0000FBF50000FBF400000001C000020BC0000201FFFFFFFFFFFFFFFFFFFFFFFFFFFFFFFF002F02000000144001010040020602010000FBF5400304C000020B18CB0071
    200 17.5 0003D0900000FBF50000000000000001C000020B0000000000060000
    200 17.4 0003D0900000FBF50000FBF400000001C000020BC0000201FFFFFFFFFFFFFFFFFFFFFFFFFFFFFFFF001D0104FBF5005AC000026F00
    end
    end

an OPEN of two octets
    100 16.4 of-64501 MARKER UPDATE
    200 16.1 of-two-octets MARKER OPEN
  by session inferred losses
    100 +203.0.113.0/24
    200 down
    0 closed: end of file
    passed over 1

an OPEN behind a recorded loss
    100 16.4 of-64501 MARKER UPDATE
    150 16.5 of-64501 0006 0001
    200 16.4 of-64501 MARKER OPEN
  by session inferred losses
    100 +203.0.113.0/24
    150 down
    0 closed: end of file

the session begins twice
    100 16.5 of-64501 0005 0006
    200 16.5 of-64501 0005 0006
    300 16.5 of-64501 0005 0006
  by session inferred losses pieces 1 to 64
    200 down
    300 down
    0 closed: end of file

an OPEN of another peer
    100 16.4 of-64501 MARKER UPDATE
    200 16.4 of-64502 MARKER OPEN
  by session inferred losses
    100 +203.0.113.0/24
    0 closed: end of file
    passed over 1

# What a file has behind its last whole record is given as it is.

a record that is cut short
    100 16.4 of-64501 MARKER UPDATE
    200 16.4 of-64501 MARKER OPEN
    octets 0000012C 0010 0004 00000010 00
  by bodies inferred losses pieces 1 to 64
    100 16.4 0000FBF50000FBF400000001C000020BC0000201FFFFFFFFFFFFFFFFFFFFFFFFFFFFFFFF002F02000000144001010040020602010000FBF5400304C000020B18CB0071
    200 16.5 0000FBF50000000000000001C000020B0000000000060000
    200 16.4 0000FBF50000FBF400000001C000020BC0000201FFFFFFFFFFFFFFFFFFFFFFFFFFFFFFFF001D0104FBF5005AC000026F00
    fault 2: the file ends in the body of a record
    fault 2: the file ends in the body of a record
";

#[test]
fn losses_are_put_in_as_their_rows_want(rt: HostRuntime) -> Result<(), Fail> {
    check_rows(rt.alloc(), LOSSES)
}
