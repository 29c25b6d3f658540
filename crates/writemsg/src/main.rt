// Document 01's messages, dates on both sides of document 02's Q-2, drafts of the old and of an unknown edition (Q-5)
// and drafts written in the strict and in an unknown way (Q-11), printed as octets in hex, a line each; a refusal as
// its number and place; with each the edition that the answer names. Where nothing else is said the way is the lenient
// one.
#![tactic(auto)]

use draft::{Draft, Entry, Value};
use rules::Fault;
use std::io;
use std::io::Write;

// Octets as two capital hex digits and a space each, an octet with one write: each piece of a `write!` on the output
// would be one more. `streams::Hex` has small ones with nothing between them.
fn print_octets(out: &mut impl Write, octets: &[u8]) -> io::Result<()> {
    for x in octets {
        let mut text = *b"00 ";
        write!(&mut text[..], "{x:02X}")?;
        out.write_all(&text)?;
    }
    Ok(())
}

fn print_fault(out: &mut impl Write, fault: Fault) -> io::Result<()> {
    write!(out, "{} at {} ", fault.number, fault.place)
}

fn show_in(
    out: &mut impl Write,
    area: &mut [u8],
    way: u8,
    d: Draft,
    texts: &[u8],
) -> io::Result<()> {
    let writing = writer::write(way, d, texts, area);
    match writing.answer {
        Ok(size) => {
            if let Some(octets) = area.get(..size as usize) {
                print_octets(out, octets)?;
            }
        }
        Err(fault) => print_fault(out, fault)?,
    }
    writeln!(out, "edition {}", writing.edition)
}

// Here and below an edition and a way are numbers: drafts of unknown ones are shown too. The area is an array that is
// lent: no program has a heap.
fn show_by(out: &mut impl Write, way: u8, d: Draft, texts: &[u8]) -> io::Result<()> {
    let mut area = [0u8; 258];
    show_in(out, &mut area, way, d, texts)
}

fn show(out: &mut impl Write, d: Draft, texts: &[u8]) -> io::Result<()> {
    show_by(out, rules::LENIENT, d, texts)
}

// Builders: each says in a word what most cases have in common, over the one that says it all.
fn one_by(edition: u8, kind: u8, a: Entry) -> Draft {
    let mut d = draft::empty(edition, kind);
    d.entries[0] = a;
    d.count = 1;
    d
}

fn one(kind: u8, a: Entry) -> Draft {
    one_by(rules::PRESENT, kind, a)
}

fn old(kind: u8, a: Entry) -> Draft {
    one_by(rules::OLD, kind, a)
}

fn two(kind: u8, a: Entry, b: Entry) -> Draft {
    let mut d = one(kind, a);
    d.entries[1] = b;
    d.count = 2;
    d
}

fn code(kind: u8, x: u8) -> Entry {
    Entry {
        kind,
        value: Value::Code(x),
    }
}

fn carried(kind: u8, start: usize, length: usize) -> Entry {
    Entry {
        kind,
        value: Value::Carried { start, length },
    }
}

fn caller(start: usize, length: usize) -> Entry {
    Entry {
        kind: 0x02,
        value: Value::Text { start, length },
    }
}

fn time(month: u8, day: u8, hour: u8, minute: u8) -> Entry {
    Entry {
        kind: 0x01,
        value: Value::Date {
            month,
            day,
            hour,
            minute,
        },
    }
}

fn midnight(month: u8, day: u8) -> Entry {
    time(month, day, 0, 0)
}

// Drafts of the old edition on both sides of its limits, beside one of the present edition.
fn show_old(out: &mut impl Write) -> io::Result<()> {
    let digits = b"4091240912409124091";
    show(out, old(0x82, code(0x0B, 0xFF)), digits)?;
    show(out, old(0x80, caller(0, 18)), digits)?;
    show(out, old(0x80, caller(0, 19)), digits)?;
    show(out, one(0x80, caller(0, 19)), digits)?;
    show(out, old(0x80, code(0x16, 0x03)), digits)?;
    show(out, old(0x80, code(0x16, 0x01)), digits)?;
    show(out, old(0x82, code(0x13, 2)), digits)?;
    show(out, old(0x82, carried(0x13, 0, 5)), digits)?;
    show(out, old(0x80, midnight(2, 30)), digits)
}

// In the strict way an entry of a type that the draft's edition does not list is 12, and by the lenient way it is
// written; an unknown way comes before everything that is wrong with a draft.
fn show_ways(out: &mut impl Write) -> io::Result<()> {
    let digits = b"40912";
    show_by(out, rules::STRICT, one(0x82, code(0x13, 2)), digits)?;
    show_by(out, rules::STRICT, one(0x80, carried(0x05, 0, 5)), digits)?;
    show_by(out, rules::LENIENT, one(0x80, carried(0x05, 0, 5)), digits)?;
    show_by(
        out,
        rules::STRICT,
        two(0x82, code(0x13, 2), carried(0x17, 0, 5)),
        digits,
    )?;
    show_by(out, rules::STRICT, old(0x82, code(0x0B, 0xFF)), digits)?;
    show_by(out, rules::STRICT, old(0x82, carried(0x13, 0, 5)), digits)?;
    show_by(out, rules::STRICT, old(0x82, code(0x13, 2)), digits)?;
    show_by(out, 2, one(0x82, code(0x13, 2)), digits)?;
    show_by(out, 255, old(0x81, code(0x13, 2)), digits)
}

// An unknown edition comes before everything that is wrong with a draft.
fn show_unknown(out: &mut impl Write) -> io::Result<()> {
    let none = b"";
    show(out, one_by(2, 0x82, code(0x13, 2)), none)?;
    show(out, one_by(255, 0x81, code(0x13, 2)), none)?;
    show(out, draft::empty(2, 0x82), none)
}

fn main(rt: HostRuntime) -> io::Result<()> {
    let mut out = io::writer(&rt);
    let texts = b"740912";
    show(
        &mut out,
        two(0x80, time(6, 15, 14, 30), caller(1, 5)),
        texts,
    )?;
    show(&mut out, one(0x82, code(0x0B, 0xFF)), texts)?;
    show(&mut out, one(0x82, code(0x13, 2)), texts)?;
    show(&mut out, two(0x82, code(0x13, 2), code(0x13, 5)), texts)?;
    show(&mut out, two(0x80, code(0x04, 0x50), caller(0, 1)), texts)?;
    show(&mut out, one(0x81, code(0x13, 2)), texts)?;
    show(&mut out, draft::empty(rules::PRESENT, 0x82), texts)?;
    show(&mut out, two(0x82, code(0x13, 2), code(0x0B, 0x80)), texts)?;
    show(&mut out, one(0x80, caller(2, 5)), texts)?;
    show(&mut out, two(0x82, code(0x13, 2), midnight(4, 31)), texts)?;
    show(&mut out, one(0x80, midnight(2, 29)), texts)?;
    show(&mut out, one(0x80, midnight(2, 30)), texts)?;
    show_old(&mut out)?;
    show_unknown(&mut out)?;
    show_ways(&mut out)?;
    Ok(())
}
