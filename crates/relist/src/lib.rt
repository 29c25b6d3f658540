// Listings come back as messages (document 02, Q-1): a listing as showmsg prints it becomes the message with one
// parameter for each value line, or a refusal: 61 at the first line that no valid listing has there, 62 for more than
// 255 octets of parameters, 15 for an output that is too short. Everything is judged before anything is written. There
// is no heap: no call asks for memory, so that none can fail for want of it.
#![tactic(auto)]

ghost use Rattle.std.specs.Prelude.{◌≡◌, ◌+◌, ◌<◌, ◌≤◌, ◌==◌, [], position};
ghost use Rattle.std.proofs.Math.ListN as list;
ghost use Rattle.rules.specs.Table.{rules_of, style_of};
ghost use Rattle.rules.specs.declared.Book.TheVariants as book;
ghost use Rattle.rules.specs.Message.{octets};
ghost use Rattle.listing.specs.Numerals.{hex_value};
ghost use Rattle.listing.specs.Listing.{row_at, row_count};
ghost use Rattle.writer.specs.Writing.{output_after};
ghost use Rattle.relist.specs.Back.{hex_at, number_at, pairs_back, octets_back, state_back, reference_back, terminal_back, back_of, read_off};
ghost use Rattle.relist.specs.Relist.{line_in, taken, kind_said, closed, message_for, relisted, relisting};
ghost use Rattle.relist.specs.Reading.{longest_value, read_size, Holds, LineRead, RowRead, LaidBehind, TookRows, Sealed};

use rules::{Book, Class, Fault, Named};
use writer::Writing;

// The octets of parameters that a message holds: one with the longest contents takes them all.
const BODY: usize = 2 + rules::LONGEST;

// No value is longer: `longest_value`, which no constant of listing's says.
const VALUE: usize = 264;

// No contents that are read off one are longer: ten octets and the value.
const READ: usize = 10 + VALUE;

// What a value says: the first `length` of ten octets, and then the value itself from `from` on, which is nothing of it
// at its end: so `read_off` says it, and an Option would say no more. The array stays with its length beside it: there
// is no heap, and a slice would have nothing that lends it. It is no instance of writer's `Spelling`, which has no
// `from`.
#[derive(Clone, Copy)]
struct Back {
    octets: [u8; 10],
    length: usize,
    from: usize,
}

// The value lines of a text: where the next line begins, how many there are, the octets of their parameters. The octets
// lie in an area that `answer` holds, since there is no heap.
#[derive(Clone, Copy)]
struct Taken {
    at: usize,
    count: usize,
    size: usize,
}

// ---- octets read off a value

// Any octets are read off, and no `parse` or `to_digit` refuses one: what was read is judged by printing its line again
// (`listing::says`). So one octet, or the length, is enough to tell words apart (`reference_back`, `terminal_back`, the
// lamp in `back_of`); and a text comes with a place in it, since it may end before that, where `message::octet` is 0.
// `as u8` takes a value that fits, so `% 256` stands before it.

#[tactic(auto, using(rules::proofs::Telling::telling), unfolding(listing::specs::Numerals::hex_value))]
fn hex_value(x: u8) -> u8
    ensures { result ≡ hex_value x }
{
    if x <= b'9' {
        x.saturating_sub(b'0')
    } else {
        x - 55
    }
}

#[tactic(auto, using(rules::proofs::Telling::telling), unfolding(crate::specs::Back::hex_at))]
fn hex_at(text: &[u8], i: usize) -> u8
    requires { i ≤ 11 }
    ensures { result ≡ hex_at text.now i }
{
    let high = hex_value(message::octet(text, i)) as u16;
    let low = hex_value(message::octet(text, i + 1)) as u16;
    ((16 * high + low) % 256) as u8
}

// The number that the digits from a place on say, modulo 65536. The place counts up: a slice of the rest would want a
// default where the text ends before it, which an empty range says by itself.
fn number_at(text: &[u8], from: usize) -> u16
    ensures { result ≡ number_at text.now from }
{
    let mut number: u32 = 0;
    for i in from..text.len() {
        number = (10 * number + text[i].saturating_sub(b'0') as u32) % 65536;
    }
    number as u16
}

// Two octets and a mark, again and again: the first n octets of ten.
#[tactic(auto, unfolding(crate::specs::Back::pairs_back))]
fn pairs_back(text: &[u8], n: usize) -> Back
    ensures { result ≡ pairs_back text.now n }
{
    Back {
        octets: [
            message::octet(text, 0),
            message::octet(text, 1),
            message::octet(text, 3),
            message::octet(text, 4),
            message::octet(text, 6),
            message::octet(text, 7),
            message::octet(text, 9),
            message::octet(text, 10),
            message::octet(text, 12),
            message::octet(text, 13),
        ],
        length: n,
        from: text.len(),
    }
}

// Octets, and the value from a place on.
#[tactic(auto, unfolding(crate::specs::Back::octets_back, rules::specs::Laying::laid))]
fn octets_back<const N: usize>(head: [u8; N], from: usize) -> Back
    requires { N ≤ 10 }
    ensures { result ≡ octets_back head.entry from }
{
    let mut octets = [0u8; 10];
    octets[..N].copy_from_slice(&head);
    Back {
        octets,
        length: N,
        from,
    }
}

// A state, and its reference, high octet first.
#[tactic(auto, unfolding(crate::specs::Back::state_back))]
fn state_back(x: u8, text: &[u8], i: usize) -> Back
    ensures { result ≡ state_back x text.now i }
{
    let [high, low] = number_at(text, i).to_be_bytes();
    octets_back([x, high, low], text.len())
}

#[tactic(auto, using(rules::proofs::Telling::telling), unfolding(crate::specs::Back::reference_back))]
fn reference_back(text: &[u8]) -> Back
    ensures { result ≡ reference_back text.now }
{
    match message::octet(text, 2) {
        b' ' => state_back(0xFF, text, 3),
        b'f' => state_back(0, text, 4),
        _ => state_back(0x55, text, 6),
    }
}

#[tactic(auto, using(rules::proofs::Telling::telling), unfolding(crate::specs::Back::terminal_back))]
fn terminal_back(text: &[u8]) -> Back
    ensures { result ≡ terminal_back text.now }
{
    match message::octet(text, 0) {
        b'c' => octets_back([1, hex_at(text, 11)], text.len()),
        b'n' => octets_back([2], 7),
        _ => octets_back([3], 11),
    }
}

// What a value says in the style of a class. A match on an enum, and no closures: each arm has octets of its own.
#[tactic(auto, using(rules::proofs::Telling::telling), unfolding(crate::specs::Back::back_of, crate::specs::Back::one_back, crate::specs::Back::switch_back, crate::specs::Back::moment_back, rules::specs::Table::style_of))]
fn back_of(class: Class, text: &[u8]) -> Back
    ensures { result ≡ back_of (style_of class) text.now }
{
    match class {
        Class::Carried | Class::Unlisted => octets_back([], text.len()),
        Class::Number
        | Class::Absent
        | Class::Name
        | Class::ShortText
        | Class::Extension
        | Class::OldNumber => octets_back([], 0),
        Class::Date => pairs_back(text, 8),
        Class::Moment => pairs_back(text, if text.len() == 14 { 10 } else { 8 }),
        Class::Duration => pairs_back(text, 6),
        Class::Lamp => octets_back([if text.len() == 2 { 0xFF } else { 0 }], text.len()),
        Class::Identity => reference_back(text),
        Class::Waiting => octets_back([(number_at(text, 0) % 256) as u8], text.len()),
        Class::CallType
        | Class::Forwarded
        | Class::User
        | Class::Service
        | Class::OldForwarded
        | Class::OldUser => octets_back([hex_at(text, 0)], text.len()),
        Class::Charge => octets_back(
            [
                message::octet(text, 0),
                message::octet(text, 1),
                message::octet(text, 2),
                hex_at(text, 4),
            ],
            7,
        ),
        Class::Terminal => terminal_back(text),
        Class::Display => octets_back([hex_at(text, 0)], 3),
    }
}

// ---- lines

// The contents that a value says in the style of a class, laid down: how many octets.
fn lay_contents(class: Class, value: &[u8], out: &mut [u8; READ]) -> usize
    requires { list.length value.now ≤ longest_value }
    ensures { Holds (read_off (back_of (style_of class) value.now) value.now) out.new result }
{
    let back = back_of(class, value);
    let n = back.length;
    out[..n].copy_from_slice(&back.octets[..n]);
    if back.from < value.len() {
        let end = n + (value.len() - back.from);
        out[n..end].copy_from_slice(&value[back.from..]);
        end
    } else {
        n
    }
}

// What a line says by a row, laid down: how many octets, where it is the row's. Rows go by their number, here, in
// `row_length` and in `take_rows`, since listing's public functions tell them so (`key_length`, `kind_at`, `says`).
fn line_length(i: usize, line: &[u8], out: &mut [u8; READ]) -> Option<usize>
    requires { i < row_count }
    ensures { LineRead (rules_of book.PresentLenient) (row_at i) line.now out.new result }
{
    let start = listing::key_length(i) + 1;
    if line.len() <= start {
        return None;
    }
    let end = line.len() - 1;
    if VALUE < end - start {
        return None;
    }
    let class = rules::class_of(Book::PresentLenient, listing::kind_at(i));
    let n = lay_contents(class, &line[start..end], out);
    if listing::says(i, &out[..n], line) {
        Some(n)
    } else {
        None
    }
}

// The same where lines of these types stand before it.
fn row_length(i: usize, line: &[u8], kinds: &[u8], out: &mut [u8; READ]) -> Option<usize>
    requires { i < row_count }
    ensures { RowRead (rules_of book.PresentLenient) (row_at i) kinds.now line.now out.new result }
{
    let rival = rules::rival_of(Book::PresentLenient, listing::kind_at(i));
    if kinds.contains(&rival) {
        return None;
    }
    line_length(i, line, out)
}

// Where an octet first stands: the clause says `position` of a list, as caption's does. One function for both would be
// a public one that says no more than std's.
fn place_of(octet: u8, text: &[u8]) -> Option<usize>
    ensures { result ≡ position (λ x. x == octet) text.now }
{
    text.iter().position(|&x| x == octet)
}

// Where the line that begins at a place ends, with its line end; where the text ends, if the line has none: it ends in
// any case, so no Option. The text goes with a place, here, in `close` and in `take_rows`, since that is one of the
// three numbers of `Taken`, which lends nothing.
fn line_end(text: &[u8], at: usize) -> usize
    requires { at ≤ list.length text.now }
    ensures { result ≡ at + list.length (line_in (list.drop at text.now)) }
{
    match place_of(b'\n', &text[at..]) {
        Some(i) => at + i + 1,
        None => text.len(),
    }
}

// A parameter behind those before it, as far as the area goes: where it ends, or would end. writer's `put_parameter` is
// another: it has contents in two parts, and room for them.
fn lay_parameter(kind: u8, contents: &[u8], area: &mut [u8; BODY], size: usize) -> usize
    requires { (list.length contents.now < 256) × (size < 65536) }
    ensures { LaidBehind kind contents.now area.old size area.new result }
{
    let start = size + 2;
    let end = start + contents.len();
    if end <= area.len() {
        area[size] = kind;
        area[size + 1] = contents.len() as u8;
        area[start..end].copy_from_slice(contents);
    }
    end
}

// Row by row, each takes the next line where that is its own. The types so far stay an array with their count beside
// it: there is no heap for a list that grows.
fn take_rows(text: &[u8], first: usize, area: &mut [u8; BODY]) -> Taken
    requires { first ≤ list.length text.now }
    ensures { TookRows (taken (rules_of book.PresentLenient) (rules_of book.PresentLenient).rows [] (list.drop first text.now)) text.now area.new result }
{
    let mut kinds = [0u8; listing::ROWS];
    let mut contents = [0u8; READ];
    let mut at = first;
    let mut count: usize = 0;
    let mut size: usize = 0;
    for i in 0..listing::ROWS {
        let end = line_end(text, at);
        let kind = listing::kind_at(i);
        let Some(n) = row_length(i, &text[at..end], &kinds[..count], &mut contents) else {
            continue;
        };
        kinds[count] = kind;
        size = lay_parameter(kind, &contents[..n], area, size);
        at = end;
        count += 1;
    }
    Taken { at, count, size }
}

// ---- the answer

// The message type that the first line says.
#[tactic(auto, using(rules::proofs::Telling::telling), unfolding(crate::specs::Relist::kind_said))]
fn kind_in(line: &[u8]) -> Option<u8>
    ensures { result ≡ kind_said line.now }
{
    if listing::says_kind(0x80, line) {
        Some(0x80)
    } else if listing::says_kind(0x82, line) {
        Some(0x82)
    } else {
        None
    }
}

// What follows the value lines: the last line, and nothing behind it. A refusal's number stays one, as the public
// `writer::refusal` and `writer::with_room` take it.
#[tactic(auto, using(rules::proofs::Telling::telling), unfolding(crate::specs::Relist::closed))]
fn close(text: &[u8], lines: Taken, room: usize) -> Result<u16, Fault>
    requires { (lines.at ≤ list.length text.now) × (lines.count ≤ row_count) }
    ensures { result ≡ closed lines.count (list.drop lines.at text.now) lines.size room }
{
    let count = lines.count as u16;
    if count == 0 {
        return writer::refusal(61, 2);
    }
    let end = line_end(text, lines.at);
    if !listing::says_end(&text[lines.at..end]) {
        return writer::refusal(61, count + 2);
    }
    if end < text.len() {
        return writer::refusal(61, count + 3);
    }
    writer::with_room(62, lines.size, room)
}

// The message of a type and its parameters' octets, at the output's start. writer's `put_message` shares `sum_of` with
// it, and else only the store of the checksum, which a public function with a contract would make longer.
fn seal(kind: u8, body: &[u8], out: &mut [u8])
    requires { (list.length body.now ≤ 255) × (list.length body.now + 3 ≤ list.length out.old) }
    ensures { Sealed kind body.now out.old out.new }
{
    let n = body.len();
    let end = n + 2;
    out[0] = kind;
    out[1] = n as u8;
    out[2..end].copy_from_slice(body);
    let sum = writer::sum_of(&out[..end]);
    out[end] = 0u8.wrapping_sub(sum);
}

// The message at the output's start, or a refusal; octets after the message stay, and in a refusal all of them. The
// parameters are gathered in an array, since there is no heap, before the output changes.
fn answer(text: &[u8], out: &mut [u8]) -> Result<u16, Fault>
    ensures answer { result ≡ relisted (rules_of book.PresentLenient) text.now (list.length out.old) }
    ensures output { out.new ≡ output_after result (octets (message_for (rules_of book.PresentLenient) text.now)) out.old }
{
    let first = line_end(text, 0);
    let kind = kind_in(&text[..first]).ok_or(rules::noted(61, 1))?;
    let mut area = [0u8; BODY];
    let lines = take_rows(text, first, &mut area);
    let whole = close(text, lines, out.len())?;
    seal(kind, &area[..lines.size], out);
    Ok(whole)
}

// The message that a listing says, at the start of the output, or a refusal, which changes nothing; the answer names
// the present edition.
#[tactic(auto, unfolding(crate::specs::Relist::relisting, rules::specs::Table::rules_of))]
pub fn message_of(text: &[u8], out: &mut [u8]) -> Writing
    ensures answer { result ≡ relisting (rules_of book.PresentLenient) text.now (list.length out.old) }
    ensures output { out.new ≡ output_after result.answer (octets (message_for (rules_of book.PresentLenient) text.now)) out.old }
{
    Named {
        edition: rules::PRESENT,
        answer: answer(text, out),
    }
}
