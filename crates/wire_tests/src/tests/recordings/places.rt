//! Where records begin in their file, and where the end of the file cuts one short (RFC 6396, section 2).

use super::check_rows;
use std::test::*;

// The rows: the head of `recordings` says how they are read.
const PLACES: &str = "
four records, of 15, 12, 5012 and 14 octets; of the third one the front is held
    100 13.1 010203
    200 13.1 nothing
    300 13.1 00*5000
    400 13.1 0102
  by places
    100 at 0
    200 at 15
    300 at 27
    400 at 5039
    end at 5053
    end at 5053
  by places pieces 1 to 3
    100 at 0
    200 at 15
    300 at 27
    400 at 5039
    end at 5053
    end at 5053
  by places pieces 4132 to 4134
    100 at 0
    200 at 15
    300 at 27
    400 at 5039
    end at 5053
    end at 5053
  by places octets 27 pieces 1 to 30
    100 at 0
    200 at 15
    end at 27
    end at 27

# The end of the file cuts a record short: in its header, before and behind its Timestamp.

two records, of 15 and 12 octets
    100 13.1 010203
    200 13.1 nothing
  by places octets 1 pieces 1 to 30
    fault 1: the file ends in the header of a record at 0
    cut at 0 behind 1 of its octets
    fault 1: the file ends in the header of a record at 0
    cut at 0 behind 1 of its octets
  by places octets 16 pieces 1 to 30
    100 at 0
    fault 1: the file ends in the header of a record at 15
    cut at 15 behind 1 of its octets
    fault 1: the file ends in the header of a record at 15
    cut at 15 behind 1 of its octets
  by places octets 18
    100 at 0
    fault 1: the file ends in the header of a record at 15
    cut at 15 behind 3 of its octets
    fault 1: the file ends in the header of a record at 15
    cut at 15 behind 3 of its octets
  by places octets 19 pieces 1 to 30
    100 at 0
    fault 1: the file ends in the header of a record at 15
    cut at 15 behind 4 of its octets, time 200
    fault 1: the file ends in the header of a record at 15
    cut at 15 behind 4 of its octets, time 200
  by places octets 26 pieces 1 to 30
    100 at 0
    fault 1: the file ends in the header of a record at 15
    cut at 15 behind 11 of its octets, time 200
    fault 1: the file ends in the header of a record at 15
    cut at 15 behind 11 of its octets, time 200

# Or in its body: at its beginning, in its front, right behind it, and at its end.

a record whose front is held, behind one of 15 octets
    100 13.1 010203
    300 13.1 00*5000
  by places octets 27 pieces 1 to 30
    100 at 0
    fault 2: the file ends in the body of a record at 15
    cut at 15 behind 12 of its octets, time 300
    fault 2: the file ends in the body of a record at 15
    cut at 15 behind 12 of its octets, time 300
  by places octets 100 pieces 1 to 30
    100 at 0
    fault 2: the file ends in the body of a record at 15
    cut at 15 behind 85 of its octets, time 300
    fault 2: the file ends in the body of a record at 15
    cut at 15 behind 85 of its octets, time 300
  by places octets 4148 pieces 4132 to 4134
    100 at 0
    fault 2: the file ends in the body of a record at 15
    cut at 15 behind 4133 of its octets, time 300
    fault 2: the file ends in the body of a record at 15
    cut at 15 behind 4133 of its octets, time 300
  by places octets 5026
    100 at 0
    fault 2: the file ends in the body of a record at 15
    cut at 15 behind 5011 of its octets, time 300
    fault 2: the file ends in the body of a record at 15
    cut at 15 behind 5011 of its octets, time 300

# Nothing is cut short behind a failed read, or behind the time up to which records are read.

a read fails, or a record is later
    100 13.1 010203
    200 13.1 010203
  by places fails 20 pieces 1 to 30
    100 at 0
    records could not be read at 15
    records could not be read at 15
  by places fails 29 pieces 1 to 30
    100 at 0
    records could not be read at 15
    records could not be read at 15
  by places until 150 pieces 1 to 30
    100 at 0
    end at 15
    end at 15
  by places until 150 octets 28 pieces 1 to 30
    100 at 0
    end at 15
    end at 15
  by places until 150 octets 26
    100 at 0
    fault 1: the file ends in the header of a record at 15
    cut at 15 behind 11 of its octets, time 200
    fault 1: the file ends in the header of a record at 15
    cut at 15 behind 11 of its octets, time 200
";

#[test]
fn records_have_the_places_that_their_rows_want(rt: HostRuntime) -> Result<(), Fail> {
    check_rows(rt.alloc(), PLACES)
}
