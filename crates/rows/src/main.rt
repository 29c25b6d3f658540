// Every row of document 01's table and both sides of every limit: reads octets from standard input, each case behind
// its length in two octets, and prints one line for each: the octets, their listing, what a new listener answers to
// them, and the verdict. What it must print was written by the second reader, the table's rows by hand (tools/replay).
// Before the length stand the numbers of the edition and the way by which a case is heard and judged; a listing is of
// the present edition, types without a row carried, so the others' cases have none. By the strict way a listener is
// asked too that was reset with no way named. Of unknown numbers only the listener is asked: it gives 16.
#![tactic(auto)]

use listener::{Answer, Listener};
use rules::{Book, Fault};
use std::io;
use std::io::{Read, Write};

// The most octets of a case: some more than a message has.
const MOST: usize = 300;

// The numbers of an edition and a way, and octets that are heard and judged by them: numbers, since a listener is asked
// by unknown ones too. A case is said by functions over a writer: a listing is octets, and Display prints text. parts'
// has a message that is read, and other methods.
#[derive(Clone, Copy)]
struct Case<'a> {
    edition: u8,
    way: u8,
    octets: &'a [u8],
}

// Line ends become spaces. Each octet is stored, changed or not: a store under the test would go octet by octet.
fn in_one_line(lines: &mut [u8]) {
    for x in lines {
        *x = if *x == b'\n' { b' ' } else { *x };
    }
}

// A refusal with its place and its parameter, as parts says it behind a text: one for both would be longer, with its
// contract, than what it saves.
fn say_fault(out: &mut impl Write, fault: Fault) -> io::Result<()> {
    write!(
        out,
        " {} at {} in {}",
        fault.number, fault.place, fault.parameter
    )
}

impl Case<'_> {
    // The listing in one line.
    fn say_listing(&self, out: &mut impl Write) -> io::Result<()> {
        let mut listing = listing::listing(self.octets);
        in_one_line(&mut listing.octets);
        out.write_all(listing.text())
    }

    // The listing, or the edition and the way that have none.
    fn say_title(&self, out: &mut impl Write) -> io::Result<()> {
        if self.edition == rules::PRESENT && self.way == rules::LENIENT {
            self.say_listing(out)
        } else {
            write!(out, "edition {} way {} ", self.edition, self.way)
        }
    }

    // What a new listener answers to the octets.
    fn say_heard(&self, out: &mut impl Write, new: Listener) -> io::Result<()> {
        let heard = listener::listen(new, self.octets);
        match heard.answer {
            Answer::Waits => write!(out, " waits")?,
            Answer::Message(size) => write!(out, " size {size}")?,
            Answer::Refused(fault) => say_fault(out, fault)?,
        }
        write!(out, ", took {}, edition {}", heard.taken, heard.edition)
    }

    // What a listener answers that was reset to a way; where that is the strict one, also what one answers that was
    // reset to none (document 02, Q-11).
    fn say_listeners(&self, out: &mut impl Write) -> io::Result<()> {
        write!(out, "| L")?;
        self.say_heard(out, listener::reset_way(self.edition, self.way))?;
        if self.way == rules::STRICT {
            write!(out, " | default")?;
            self.say_heard(out, listener::reset(self.edition))?;
        }
        Ok(())
    }

    fn say_verdict(&self, out: &mut impl Write, book: Book) -> io::Result<()> {
        write!(out, " | read")?;
        match message::judge(book, self.octets) {
            Ok(size) => write!(out, " size {size}"),
            Err(fault) => say_fault(out, fault),
        }
    }

    fn show(&self, out: &mut impl Write) -> io::Result<()> {
        for x in self.octets {
            write!(out, "{x:02x} ")?;
        }
        write!(out, "| ")?;
        self.say_title(out)?;
        self.say_listeners(out)?;
        if let Some(book) = rules::known_book(self.edition, self.way) {
            self.say_verdict(out, book)?;
        }
        writeln!(out)
    }
}

// Says whether there was one more: none where the input ends or a length is too large for any.
fn next(input: &mut impl Read, out: &mut impl Write) -> io::Result<bool> {
    let Some(head) = streams::exactly::<4, _>(input)? else {
        return Ok(false);
    };
    let [edition, way, high, low] = head;
    let n = u16::from_be_bytes([high, low]);
    let mut room = [0u8; MOST];
    let Some(room) = room.get_mut(..n as usize) else {
        return Ok(false);
    };
    let octets = streams::up_to(input, room)?;
    let case = Case {
        edition,
        way,
        octets,
    };
    case.show(out)?;
    Ok(true)
}

fn main(rt: HostRuntime) -> io::Result<()> {
    let mut input = rt.stdin();
    let mut out = io::writer(&rt);
    for _ in 0..streams::CASES {
        if !next(&mut input, &mut out)? {
            break;
        }
    }
    Ok(())
}
