// Reading by value, walking, captions and drafts, run (document 01, Drafts and The caption): reads cases from standard
// input, the numbers of an edition and a way, a message and a directory each behind its length in two octets, then the
// size of a text area in two octets, and prints for each what `reader::read_way`, the walker, `caption` and
// `writer::write` answer, with the edition that each names, and whether the message comes back from its draft; by the
// strict way also what `reader::read` answers. What it must print was written by the second reader, some rows by hand
// (tools/replay).
#![tactic(auto)]

use caption::Shown;
use draft::{Draft, Entry, Flat, Value};
use reader::Reading;
use rules::{Fault, Form, MOST};
use std::io;
use std::io::{Read, Write};
use streams::Hex;
use walker::Stepped;

// The most octets that a message's texts have: those of one parameter's contents.
const TEXTS: usize = rules::LONGEST;

// The most octets of a case: some more than a message has, and a directory's.
const HEARD: usize = 300;

const LENT: usize = 200;

// The number of no edition: 16 is promised of it.
const UNKNOWN: u8 = 2;

// A code that is no side: with a refusal `caption` leaves it (document 01, The caption).
const LENT_CODE: u8 = 7;

// The numbers of an edition and a way, and a message that is read, walked and captioned by them: numbers, since unknown
// ones are asked too. What is answered is said by functions over a writer, here and below: a Display of another crate's
// type (Fault, Entry, Flat, Reading, Stepped) would ask a wrapper of each.
#[derive(Clone, Copy)]
struct Case<'a> {
    edition: u8,
    way: u8,
    message: &'a [u8],
}

fn say_octets(out: &mut impl Write, octets: &[u8]) -> io::Result<()> {
    writeln!(out, "{}", Hex(octets))
}

fn say_fault(out: &mut impl Write, text: &str, fault: Fault) -> io::Result<()> {
    write!(
        out,
        "{text}{} at {} in {}",
        fault.number, fault.place, fault.parameter
    )
}

// The edition that an answer names ends its line.
fn say_edition(out: &mut impl Write, edition: u8) -> io::Result<()> {
    writeln!(out, " edition {edition}")
}

fn say_whether(out: &mut impl Write, text: &str, same: bool) -> io::Result<()> {
    let whether = if same { " same\n" } else { " other\n" };
    write!(out, "{text}{whether}")
}

// The text of a value, which lies in the area (document 01, Drafts): start and length as the draft has them, since
// `draft::lies`, a public function, is run here.
#[tactic(auto, using(rules::proofs::Returns::told_le))]
fn say_text(out: &mut impl Write, texts: &[u8], start: usize, size: usize) -> io::Result<()> {
    if draft::lies(texts, start, size) {
        let end = start + size;
        say_octets(out, &texts[start..end])
    } else {
        writeln!(out, "outside")
    }
}

// Four numbers, 0 where the value has fewer; of a moment five (document 02, Q-4). They are those that `draft::flatten`
// says, a public function that is run here: a match on `Value` would run none.
fn say_numbers(out: &mut impl Write, value: Flat) -> io::Result<()> {
    let [a, b, c, d, e] = value.numbers;
    write!(out, "{a} {b} {c} {d}")?;
    if value.form == Form::MomentValue {
        write!(out, " {e}")?;
    }
    writeln!(out)
}

// The first octet of the contents stands ahead of a marked text (document 02, Q-4).
fn say_mark(out: &mut impl Write, value: Flat) -> io::Result<()> {
    let mark = value.numbers[0];
    if value.form == Form::MarkedValue {
        write!(out, "{mark} ")?;
    }
    Ok(())
}

// Type, kind of value, and the value: its numbers, or a text in hex, behind its mark if it has one. By the kind's
// number, since `draft::has_text`, which is run here, takes it.
fn say_entry(out: &mut impl Write, entry: Entry, texts: &[u8]) -> io::Result<()> {
    let flat = draft::flatten(entry.value);
    let form = u8::from(flat.form);
    write!(out, "{:02x} {form} ", entry.kind)?;
    if draft::has_text(form) {
        say_mark(out, flat)?;
        say_text(out, texts, flat.start, flat.length)
    } else {
        say_numbers(out, flat)
    }
}

// A draft and its texts stay two parameters, here and below: `draft::same` and `writer::write` take them so.
fn say_entries(out: &mut impl Write, draft: Draft, texts: &[u8]) -> io::Result<()> {
    for entry in draft.entries.iter().take(draft.count) {
        say_entry(out, *entry, texts)?;
    }
    Ok(())
}

// The same draft of another edition.
fn moved_to(edition: u8, draft: Draft) -> Draft {
    Draft { edition, ..draft }
}

// The other edition; the present one beside an unknown one.
fn other_edition(edition: u8) -> u8 {
    if edition == rules::PRESENT {
        rules::OLD
    } else {
        rules::PRESENT
    }
}

// Drafts of two editions are never equal, and one of an unknown edition equals none, itself included (document 02,
// Q-5).
fn say_editions(out: &mut impl Write, draft: Draft, texts: &[u8]) -> io::Result<()> {
    let other = moved_to(other_edition(draft.edition), draft);
    say_whether(out, "edition", draft::same(draft, texts, other, texts))?;
    let unknown = moved_to(UNKNOWN, draft);
    say_whether(out, "unknown", draft::same(unknown, texts, unknown, texts))
}

// What was written is read again: it is the draft, no longer with another octet in its text area, and never the draft
// with no entries (document 01, Drafts).
fn say_again(
    out: &mut impl Write,
    way: u8,
    draft: Draft,
    texts: &[u8],
    written: &[u8],
) -> io::Result<()> {
    let mut area = [0u8; TEXTS];
    let reading = reader::read_way(draft.edition, way, written, &mut area);
    let again = reading.draft;
    say_whether(out, "again", draft::same(draft, texts, again, &area))?;
    area[0] = !area[0];
    say_whether(out, "spoilt", draft::same(draft, texts, again, &area))?;
    say_whether(
        out,
        "empty",
        draft::same(draft, texts, draft::empty(draft.edition, draft.kind), &area),
    )?;
    say_editions(out, draft, texts)
}

fn say_written(
    out: &mut impl Write,
    case: Case<'_>,
    edition: u8,
    draft: Draft,
    texts: &[u8],
    written: &[u8],
) -> io::Result<()> {
    write!(out, "write {} edition {edition}", written.len())?;
    say_whether(out, "", written == case.message)?;
    say_again(out, case.way, draft, texts, written)
}

// The draft is written, and what is written read again.
fn say_write(out: &mut impl Write, case: Case<'_>, draft: Draft, texts: &[u8]) -> io::Result<()> {
    let mut area = [0u8; streams::MESSAGE];
    let writing = writer::write(case.way, draft, texts, &mut area);
    match writing.answer {
        Ok(size) => {
            if let Some(written) = area.get(..size as usize) {
                say_written(out, case, writing.edition, draft, texts, written)?;
            }
        }
        Err(fault) => {
            say_fault(out, "write ", fault)?;
            say_edition(out, writing.edition)?;
        }
    }
    Ok(())
}

fn say_draft(out: &mut impl Write, text: &str, draft: Draft, octets: u16) -> io::Result<()> {
    write!(out, "{text}{:02x} {} {octets}", draft.kind, draft.count)
}

// The edition that the read names, and the one that its draft holds.
fn say_both(out: &mut impl Write, edition: u8, draft: Draft) -> io::Result<()> {
    writeln!(out, " edition {edition} {}", draft.edition)
}

// An entry whose text, where it has one, lies one octet further on: each of the three kinds with a text holds its own
// start, so the match names each.
fn further(entry: Entry) -> Entry {
    let kind = entry.kind;
    let value = entry.value;
    match value {
        Value::Text { start, length } => Entry {
            kind,
            value: Value::Text {
                start: start.wrapping_add(1),
                length,
            },
        },
        Value::Carried { start, length } => Entry {
            kind,
            value: Value::Carried {
                start: start.wrapping_add(1),
                length,
            },
        },
        Value::Marked {
            mark,
            start,
            length,
        } => Entry {
            kind,
            value: Value::Marked {
                mark,
                start: start.wrapping_add(1),
                length,
            },
        },
        _ => entry,
    }
}

fn elsewhere(draft: Draft) -> Draft {
    let mut entries = draft.entries;
    for entry in &mut entries {
        *entry = further(*entry);
    }
    Draft { entries, ..draft }
}

// A draft's texts may lie anywhere in their area (document 01, Drafts): here they begin at its octet 1.
fn say_elsewhere(out: &mut impl Write, case: Case<'_>) -> io::Result<()> {
    let mut area = [0u8; TEXTS + 1];
    let reading = reader::read_way(case.edition, case.way, case.message, &mut area[1..]);
    let draft = elsewhere(reading.draft);
    say_write(out, case, draft, &area)
}

// What a read answers: its draft with its entries, or the refusal.
fn say_reading(out: &mut impl Write, text: &str, reading: Reading, area: &[u8]) -> io::Result<()> {
    let draft = reading.draft;
    match reading.answer {
        Ok(octets) => {
            say_draft(out, text, draft, octets)?;
            say_both(out, reading.edition, draft)?;
            say_entries(out, draft, area)
        }
        Err(fault) => {
            say_fault(out, text, fault)?;
            say_both(out, reading.edition, draft)
        }
    }
}

// The whole read into an area that every message's texts fit; a draft is written too. Here and in `say_again`,
// `say_elsewhere`, `say_default` and `say_room` the area is an array that is lent: no heap.
fn say_read(out: &mut impl Write, case: Case<'_>) -> io::Result<()> {
    let mut area = [0u8; TEXTS];
    let reading = reader::read_way(case.edition, case.way, case.message, &mut area);
    say_reading(out, "read ", reading, &area)?;
    if reading.answer.is_ok() {
        say_write(out, case, reading.draft, &area)?;
        say_elsewhere(out, case)?;
    }
    Ok(())
}

// The whole read by which no way is named: it is strict (document 02, Q-11).
fn say_default(out: &mut impl Write, case: Case<'_>) -> io::Result<()> {
    let mut area = [0u8; TEXTS];
    let reading = reader::read(case.edition, case.message, &mut area);
    say_reading(out, "default ", reading, &area)
}

fn say_texts(out: &mut impl Write, answer: Result<u16, Fault>) -> io::Result<()> {
    match answer {
        Ok(octets) => write!(out, ": texts {octets}"),
        Err(fault) => say_fault(out, ": ", fault),
    }
}

// The whole read into an area of a stated size.
fn say_room(out: &mut impl Write, case: Case<'_>, area: &mut [u8]) -> io::Result<()> {
    let reading = reader::read_way(case.edition, case.way, case.message, area);
    write!(out, "room {}", area.len())?;
    say_texts(out, reading.answer)?;
    say_edition(out, reading.edition)
}

fn say_step(
    out: &mut impl Write,
    step: Result<Option<walker::Parameter>, Fault>,
) -> io::Result<()> {
    match step {
        Ok(Some(parameter)) => write!(
            out,
            "step {:02x} {} {}",
            parameter.kind, parameter.start, parameter.length
        ),
        Ok(None) => write!(out, "step none"),
        Err(fault) => say_fault(out, "step ", fault),
    }
}

fn say_stepped(out: &mut impl Write, stepped: Stepped) -> io::Result<()> {
    say_step(out, stepped.answer)?;
    say_edition(out, stepped.edition)
}

// Each parameter, 85 at most, and twice what comes after the last.
fn say_steps(out: &mut impl Write, case: Case<'_>) -> io::Result<()> {
    let mut walker = walker::new(case.edition, case.way, case.message);
    for _ in 0..=MOST {
        let stepped = walker::look(walker);
        say_stepped(out, stepped)?;
        walker = walker::next(walker);
        let Ok(Some(_)) = stepped.answer else {
            return say_stepped(out, walker::look(walker));
        };
    }
    Ok(())
}

// At how many places a parameter begins; where none does, the walker says so (document 01, Drafts). `say_steps` asks a
// walker from one to the next, this one `step_at` of every place: two public functions, each run here.
fn beginnings(case: Case<'_>) -> usize {
    let mut count: usize = 0;
    for place in 0..case.message.len() {
        let stepped = walker::step_at(case.edition, case.way, case.message, place);
        match stepped.answer {
            Ok(Some(_)) => count += 1,
            Ok(None) => {}
            Err(_) => return 0,
        }
    }
    count
}

fn say_beginnings(out: &mut impl Write, case: Case<'_>) -> io::Result<()> {
    writeln!(out, "begins {}", beginnings(case))
}

fn say_part(out: &mut impl Write, text: &str, start: usize, size: usize) -> io::Result<()> {
    write!(out, "{text}{start} {size}")
}

fn say_find(out: &mut impl Write, case: Case<'_>, directory: &[u8]) -> io::Result<()> {
    let finding = caption::find(case.edition, case.way, case.message, directory);
    match finding.answer {
        Ok(Shown::InMessage { start, length }) => say_part(out, "find message ", start, length)?,
        Ok(Shown::InDirectory { start, length }) => {
            say_part(out, "find directory ", start, length)?
        }
        Err(fault) => say_fault(out, "find ", fault)?,
    }
    say_edition(out, finding.edition)
}

fn say_caption(out: &mut impl Write, case: Case<'_>, directory: &[u8]) -> io::Result<()> {
    let mut side = LENT_CODE;
    let text = caption::caption(case.edition, case.way, case.message, directory, &mut side);
    writeln!(out, "caption {side}={}", Hex(text))
}

fn show(out: &mut impl Write, case: Case<'_>, directory: &[u8], area: &mut [u8]) -> io::Result<()> {
    say_read(out, case)?;
    if case.way == rules::STRICT {
        say_default(out, case)?;
    }
    say_room(out, case, area)?;
    say_steps(out, case)?;
    say_beginnings(out, case)?;
    say_find(out, case, directory)?;
    say_caption(out, case, directory)
}

// The octets behind the length that says how many there are, or none where the input ends before it or they have no
// room.
fn part<'a>(input: &mut impl Read, room: &'a mut [u8]) -> io::Result<Option<&'a [u8]>> {
    let Some(n) = streams::number(input)? else {
        return Ok(None);
    };
    let Some(room) = room.get_mut(..n as usize) else {
        return Ok(None);
    };
    let octets = streams::up_to(input, room)?;
    Ok(Some(octets))
}

// Says whether there was one more: none where the input ends or a length is too large for any.
fn next(input: &mut impl Read, out: &mut impl Write) -> io::Result<bool> {
    let Some(numbers) = streams::exactly::<2, _>(input)? else {
        return Ok(false);
    };
    let [edition, way] = numbers;
    let mut heard = [0u8; HEARD];
    let Some(message) = part(input, &mut heard)? else {
        return Ok(false);
    };
    let mut lent = [0u8; LENT];
    let Some(directory) = part(input, &mut lent)? else {
        return Ok(false);
    };
    let Some(room) = streams::number(input)? else {
        return Ok(false);
    };
    let mut area = [0u8; TEXTS];
    let Some(area) = area.get_mut(..room as usize) else {
        return Ok(false);
    };
    let case = Case {
        edition,
        way,
        message,
    };
    show(out, case, directory, area)?;
    Ok(true)
}

fn main(rt: HostRuntime) -> io::Result<()> {
    let mut input = rt.stdin();
    let mut out = io::writer(&rt);
    for _ in 0..streams::CASES {
        if !next(&mut input, &mut out)? {
            break;
        }
    }
    Ok(())
}
