// makemsg (document 02, Q-1): reads one listing from standard input, 8192 octets at most, put together from as many
// reads as it takes, and writes the octets of the message that it says, or the two lines of a refusal. What the first
// 8192 octets give, all would give: no valid listing has as many (`relisting_enough` on the page of demand 2).
#![tactic(auto)]

use rules::Fault;
use std::io;
use std::io::Write;

// The most octets that are read of a listing.
const TEXT: usize = 8192;

// Two lines, where round and writemsg say a refusal in other words, and rows and parts its parameter too: so there is
// no Display of one.
fn say_fault(out: &mut impl Write, fault: Fault) -> io::Result<()> {
    writeln!(out, "refused={}", fault.number)?;
    writeln!(out, "at={}", fault.place)
}

// An output is lent as an array and its size is answered beside it: no heap, as in streams.
fn make(out: &mut impl Write, text: &[u8]) -> io::Result<()> {
    let mut message = [0u8; streams::MESSAGE];
    let writing = relist::message_of(text, &mut message);
    let answer = writing.answer;
    match answer {
        Ok(size) => {
            let n = size as usize;
            out.write_all(&message[..n])
        }
        Err(fault) => say_fault(out, fault),
    }
}

fn main(rt: HostRuntime) -> io::Result<()> {
    let mut room = [0u8; TEXT];
    let text = streams::up_to(&mut rt.stdin(), &mut room)?;
    make(&mut io::writer(&rt), text)
}
