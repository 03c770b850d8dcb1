//! What a peer's changes say last of a prefix.

use super::changes::word;
use super::check_rows;
use super::exchanges::prefix;
use rs_explain::LastSaid;
use std::alloc::Global;
use std::test::Fail;

/// What changes say last of 203.0.113.0/24.
pub fn last_said(alloc: Global, changes: &str) -> Option<String> {
    let prefix = prefix("203.0.113.0/24")?;
    let mut last = LastSaid::nothing();
    for change in changes.split(';') {
        if !change.is_empty() {
            last = last.after(prefix, &word(alloc, change)?);
        }
    }
    format!(in alloc; "{last:?}").ok()
}

// Changes, and what they say last of 203.0.113.0/24. 192.0.2.0/24 is another prefix.
const SAID: &str = "
said: nothing | | NeverAnnounced
said: another prefix alone | 90 192.0.2.0/24 plain; 91 withdraw 203.0.113.0/24; 92 lost; 0 mrt-2 | NeverAnnounced
said: announced twice, and another withdrawn | 90 203.0.113.0/24 plain; 100 203.0.113.0/24 plain; \
    101 withdraw 192.0.2.0/24; 0 ended | Announced(100)

# What takes a route away first is named, with its time; the end of the file takes none away.
said: withdrawn before the loss | 90 203.0.113.0/24 plain; 100 203.0.113.0/24 plain; 101 withdraw 203.0.113.0/24; \
    102 lost | Ended(100, Ending { time: 101, by: Withdrawal })
said: lost | 90 203.0.113.0/24 plain; 100 203.0.113.0/24 plain; 101 192.0.2.0/24 plain; 102 lost | \
    Ended(100, Ending { time: 102, by: Loss })
said: closed | 90 203.0.113.0/24 plain; 100 203.0.113.0/24 plain; 101 withdraw 192.0.2.0/24; 103 bgp-3/6 | \
    Ended(100, Ending { time: 103, by: Close(Bgp { code: 3, subcode: 6 }) })
said: closed by the recording | 100 203.0.113.0/24 plain; 0 mrt-2 | Ended(100, Ending { time: 0, by: Close(Mrt(2)) })
said: lost, then closed | 100 203.0.113.0/24 plain; 101 lost; 103 bgp-3/6 | Ended(100, Ending { time: 101, by: Loss })

# A session that comes back announces again.
said: back | 100 203.0.113.0/24 plain; 101 lost; 102 203.0.113.0/24 plain | Announced(102)
said: back without the prefix | 100 203.0.113.0/24 plain; 101 lost; 102 192.0.2.0/24 plain | \
    Ended(100, Ending { time: 101, by: Loss })
";

#[test]
fn what_is_said_last_is_named_with_its_time(rt: HostRuntime) -> Result<(), Fail> {
    check_rows(&rt, rt.alloc(), SAID)
}
