// showmsg (document 01, What showmsg prints): reads one message from standard input, 259 octets at most, put together
// from as many reads as it takes, and prints its listing.
#![tactic(auto)]

use std::io;

// One octet more than the longest message has.
const MOST: usize = streams::MESSAGE + 1;

fn main(rt: HostRuntime) -> io::Result<()> {
    let mut room = [0u8; MOST];
    let octets = streams::up_to(&mut rt.stdin(), &mut room)?;
    streams::list(&mut io::writer(&rt), octets)
}
