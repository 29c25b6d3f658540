// Listings that come back (document 02, Q-1), run: reads cases from standard input, the size of an area in two octets,
// then a text behind its length in two octets, and prints for each what `relist::message_of` answers, the whole area,
// which was full of A5H, and of a message whether its listing is the text. What it must print was written by the second
// reader, many rows by hand (tools/replay).
#![tactic(auto)]

use rules::Fault;
use std::io;
use std::io::{Read, Write};
use streams::Hex;

// The most octets that an area has, and the most that a text has.
const ROOM: usize = 300;

const TEXT: usize = 4096;

// What an area holds before.
const FILL: u8 = 0xA5;

// Is the text the listing of these octets?
fn comes_back(octets: &[u8], text: &[u8]) -> bool {
    let again = listing::listing(octets);
    again.text() == text
}

fn say_message(out: &mut impl Write, n: usize, area: &[u8], text: &[u8]) -> io::Result<()> {
    write!(out, "message {n} {} ", Hex(area))?;
    if n <= area.len() && comes_back(&area[..n], text) {
        writeln!(out, "same")
    } else {
        writeln!(out, "other")
    }
}

// A refusal and the whole area; makemsg says one in two lines, so there is no Display of it.
fn say_fault(out: &mut impl Write, fault: Fault, area: &[u8]) -> io::Result<()> {
    writeln!(
        out,
        "refused {} at {} {}",
        fault.number,
        fault.place,
        Hex(area)
    )
}

fn show(out: &mut impl Write, text: &[u8], area: &mut [u8]) -> io::Result<()> {
    let writing = relist::message_of(text, area);
    let answer = writing.answer;
    match answer {
        Ok(size) => say_message(out, size as usize, area, text),
        Err(fault) => say_fault(out, fault, area),
    }
}

// Says whether there was one more: none where the input ends or a length is too large for any.
fn next(input: &mut impl Read, out: &mut impl Write) -> io::Result<bool> {
    let Some(size) = streams::number(input)? else {
        return Ok(false);
    };
    let Some(n) = streams::number(input)? else {
        return Ok(false);
    };
    let mut area = [FILL; ROOM];
    let Some(area) = area.get_mut(..size as usize) else {
        return Ok(false);
    };
    let mut room = [0u8; TEXT];
    let Some(room) = room.get_mut(..n as usize) else {
        return Ok(false);
    };
    show(out, streams::up_to(input, room)?, area)?;
    Ok(true)
}

fn main(rt: HostRuntime) -> io::Result<()> {
    let mut input = rt.stdin();
    let mut out = io::writer(&rt);
    for _ in 0..streams::CASES {
        if !next(&mut input, &mut out)? {
            break;
        }
    }
    Ok(())
}
