// Traffic: reads messages from standard input, each behind its length in two octets, and prints the listing of each.
// What it must print was written by the second reader (tools/replay).
#![tactic(auto)]

use std::io;
use std::io::{Read, Write};

// The most octets of a case: some more than a message has.
const MOST: usize = 300;

// Says whether there was one more: none where the input ends or a length is too large for any.
fn next(input: &mut impl Read, out: &mut impl Write) -> io::Result<bool> {
    let Some(n) = streams::number(input)? else {
        return Ok(false);
    };
    let mut room = [0u8; MOST];
    let Some(room) = room.get_mut(..n as usize) else {
        return Ok(false);
    };
    streams::list(out, streams::up_to(input, room)?)?;
    Ok(true)
}

fn main(rt: HostRuntime) -> io::Result<()> {
    let mut input = rt.stdin();
    let mut out = io::writer(&rt);
    for _ in 0..streams::CASES {
        if !next(&mut input, &mut out)? {
            break;
        }
    }
    Ok(())
}
