// The writer (document 01, Drafts and Numbers): the octets of the message that a draft stands for, or the number and
// place of the refusal. Everything is judged before anything is written. There is no heap: no call asks for memory, so
// that none can fail for want of it.
#![tactic(auto)]

ghost use Rattle.std.specs.Prelude.{◌≡◌, ◌+◌, ◌%◌, ◌<◌, ◌≤◌, ◌++◌};
ghost use Rattle.std.proofs.Math.ListN as list;
ghost use Rattle.rules.specs.Octets.{total};
ghost use Rattle.rules.specs.Table.{rules_of, contents_fit};
ghost use Rattle.rules.specs.Message.{front, octets, most};
ghost use Rattle.draft.specs.Draft.{used, message_of};
ghost use Rattle.rules.specs.Laying.{laid};
ghost use Rattle.writer.specs.Writing.{unwritten, sized, write_of, write_in, output_after};
ghost use Rattle.writer.specs.Judging.{digits_of, padded, head_of, takes_of, measure_from};
ghost use Rattle.writer.specs.Laying.{LaidParameter, parameter_octets, Puttable, Layable};

use draft::{Draft, Entry, Value};
use rules::{Book, Class, Fault, Named};

// What a write answers, the size of the message at the start of the output or a refusal, and the edition that it names:
// the draft's; of a listing that comes back, the present one.
pub type Writing = rules::Named<Result<u16, Fault>>;

// What the contents of a value have before its text, which is all where it has none: the first `length` of ten octets,
// and 0 behind them. The array stays with its length beside it: there is no heap, and a slice would have nothing that
// lends it. relist's `Back` is no instance of it: one type would be public, with two numbers that promise nothing.
#[derive(Clone, Copy)]
struct Spelling {
    octets: [u8; 10],
    length: usize,
}

// Octets as they are.
#[tactic(auto, unfolding(crate::specs::Judging::padded, rules::specs::Laying::laid))]
fn spelled<const N: usize>(head: [u8; N]) -> Spelling
    requires { N ≤ 10 }
    ensures { result ≡ padded head.entry }
{
    let mut octets = [0u8; 10];
    octets[..N].copy_from_slice(&head);
    Spelling { octets, length: N }
}

// The two digits of each number.
fn digits<const N: usize>(numbers: [u8; N]) -> Spelling
    requires { N ≤ 5 }
    ensures { result ≡ padded (digits_of numbers.entry) }
{
    let mut octets = [0u8; 10];
    for (i, &x) in numbers.iter().enumerate() {
        octets[2 * i] = b'0' + x / 10;
        octets[2 * i + 1] = b'0' + x % 10;
    }
    Spelling {
        octets,
        length: 2 * N,
    }
}

// A date has its seconds where `second` is not 0 (document 02, Q-4); a reference is spelled high octet first. A match
// on an enum, and no closures: each arm takes other fields.
#[tactic(auto, unfolding(crate::specs::Judging::head_of))]
fn spell(v: Value) -> Spelling
    ensures { result ≡ padded (head_of v) }
{
    match v {
        Value::Date {
            month,
            day,
            hour,
            minute,
        }
        | Value::Moment {
            month,
            day,
            hour,
            minute,
            second: 0,
        } => digits([month, day, hour, minute]),
        Value::Moment {
            month,
            day,
            hour,
            minute,
            second,
        } => digits([month, day, hour, minute, second - 1]),
        Value::Duration {
            hours,
            minutes,
            seconds,
        } => digits([hours, minutes, seconds]),
        Value::State { state, reference } => {
            let [high, low] = reference.to_be_bytes();
            spelled([state, high, low])
        }
        Value::Code(x) | Value::Marked { mark: x, .. } => spelled([x]),
        Value::Text { .. } | Value::Carried { .. } => spelled([]),
    }
}

// Octets and others behind them, from the output's first octet on. The two stay two slices, here and in `laid_fit`,
// `joined_fit` and `put_parameter`: one lies in a spelling and one in the texts, and a struct of two borrows would be
// made and taken apart at each call.
fn put_both(out: &mut [u8], head: &[u8], text: &[u8])
    requires { list.length head.now + list.length text.now ≤ list.length out.old }
    ensures { out.new ≡ laid (head.now ++ text.now) out.old }
{
    let n = head.len();
    let end = n + text.len();
    out[..n].copy_from_slice(head);
    out[n..end].copy_from_slice(text);
}

// Do contents in two parts fit their class? They are laid down in one place, an array since there is no heap, to be
// judged as one slice.
fn laid_fit(class: Class, head: &[u8], text: &[u8]) -> bool
    requires { list.length head.now ≤ 10 }
    ensures { result ≡ contents_fit class (head.now ++ text.now) }
{
    if rules::LONGEST - head.len() < text.len() {
        return false;
    }
    let n = head.len() + text.len();
    let mut contents = [0u8; rules::LONGEST];
    put_both(&mut contents, head, text);
    contents::fits(class, &contents[..n])
}

// The same where one part may be empty: the other is judged where it lies.
fn joined_fit(class: Class, head: &[u8], text: &[u8]) -> bool
    requires { list.length head.now ≤ 10 }
    ensures { result ≡ contents_fit class (head.now ++ text.now) }
{
    if head.is_empty() {
        contents::fits(class, text)
    } else if text.is_empty() {
        contents::fits(class, head)
    } else {
        laid_fit(class, head, text)
    }
}

// The length of the contents of an entry that makes a legal parameter: its kind of value is its type's, its text lies
// inside, its contents fit. `put_entry` spells and cuts the value again: a function that gave both parts would lend
// from a spelling that its caller had to hold.
#[tactic(auto, using(rules::proofs::Telling::telling), unfolding(crate::specs::Judging::takes_of))]
fn entry_length(book: Book, e: Entry, texts: &[u8]) -> Option<usize>
    ensures { result ≡ takes_of (rules_of book) texts.now e }
{
    let class = rules::class_of(book, e.kind);
    let flat = draft::flatten(e.value);
    if u8::from(flat.form) != draft::form_of(class)
        || !draft::lies(texts, flat.start, flat.length)
    {
        return None;
    }
    let spelling = spell(e.value);
    let n = spelling.length;
    let end = flat.start + flat.length;
    if joined_fit(class, &spelling.octets[..n], &texts[flat.start..end]) {
        Some(n + flat.length)
    } else {
        None
    }
}

// The octets of all parameters together, or 12 at the first entry that makes no legal one.
fn measure_entries(book: Book, entries: &[Entry], texts: &[u8]) -> Result<usize, Fault>
    requires { list.length entries.now ≤ most }
    ensures { result ≡ measure_from (rules_of book) texts.now 0 0 entries.now }
{
    let mut size = 0;
    for (i, &e) in entries.iter().enumerate() {
        let length = entry_length(book, e, texts).ok_or(rules::noted(12, i as u16))?;
        size += 2 + length;
    }
    Ok(size)
}

// A refusal with its number and place. The number stays one here and in `with_room`, which are public and answer each:
// `unwritten`, `sized`.
pub fn refusal(number: u8, place: u16) -> Result<u16, Fault>
    ensures { result ≡ unwritten number place }
{
    Err(rules::noted(number, place))
}

// Parameters of so many octets in an output with so much room; the number is that of more than a message holds.
#[tactic(auto, using(rules::proofs::Telling::telling), unfolding(crate::specs::Writing::sized))]
pub fn with_room(number: u8, size: usize, room: usize) -> Result<u16, Fault>
    ensures { result ≡ sized number size room }
{
    if 255 < size {
        return refusal(number, 0);
    }
    let whole = size as u16 + 3;
    if room < whole as usize {
        refusal(15, whole)
    } else {
        Ok(whole)
    }
}

// What the writer answers, in document 01's order: 11, 14, the 85 entries of 13, 12 from the first entry on, the 255
// octets of 13, and 15. The draft and its texts stay two, here and in `put_front`, `put_message` and `write_by`: they
// are two parameters of the public `write`, and a struct of both would be made once and taken apart in each.
#[tactic(auto, using(rules::proofs::Telling::telling), unfolding(crate::specs::Writing::write_of))]
fn judge(book: Book, draft: Draft, texts: &[u8], room: usize) -> Result<u16, Fault>
    ensures { result ≡ write_of (rules_of book) draft texts.now room }
{
    if !rules::message_kind(draft.kind) {
        return refusal(11, 0);
    }
    if draft.count == 0 {
        return refusal(14, 0);
    }
    if rules::MOST < draft.count {
        return refusal(13, 0);
    }
    let size = measure_entries(book, &draft.entries[..draft.count], texts)?;
    with_room(13, size, room)
}

// A type, a length, and contents in two parts. relist's `lay_parameter` is another: its contents are one part, and it
// counts on where the area ends.
fn put_parameter(out: &mut [u8], kind: u8, head: &[u8], text: &[u8]) -> usize
    requires { (2 + (list.length head.now + list.length text.now) ≤ list.length out.old) × (list.length head.now + list.length text.now < 256) }
    ensures { LaidParameter kind (head.now ++ text.now) out.old out.new result }
{
    let n = head.len() + text.len();
    out[0] = kind;
    out[1] = n as u8;
    put_both(&mut out[2..], head, text);
    2 + n
}

// The parameter that an entry makes, from the output's first octet on.
fn put_entry(out: &mut [u8], e: Entry, texts: &[u8]) -> usize
    requires { Puttable e texts.now (list.length out.old) }
    ensures { (out.new ≡ laid (parameter_octets texts.now e) out.old) × (result ≡ list.length (parameter_octets texts.now e)) }
{
    let flat = draft::flatten(e.value);
    let spelling = spell(e.value);
    let n = spelling.length;
    let end = flat.start + flat.length;
    put_parameter(out, e.kind, &spelling.octets[..n], &texts[flat.start..end])
}

// All but the checksum: each parameter is laid down from its own place onward, in the output's rest.
fn put_front(draft: Draft, texts: &[u8], out: &mut [u8], size: u8) -> usize
    requires { Layable draft texts.now (list.length out.old) size }
    ensures { (out.new ≡ laid (front (message_of draft texts.now)) out.old) × (result ≡ list.length (front (message_of draft texts.now))) }
{
    out[0] = draft.kind;
    out[1] = size;
    let mut at = 2;
    for &e in &draft.entries[..draft.count] {
        at += put_entry(&mut out[at..], e, texts);
    }
    at
}

// The whole message: the checksum makes the sum of all octets 0 modulo 256 (000, section 2). What it shares with
// relist's `seal` is `sum_of`; beside that both have one store, which a public function with a contract would make
// longer.
fn put_message(draft: Draft, texts: &[u8], out: &mut [u8], size: u8)
    requires { Layable draft texts.now (list.length out.old) size }
    ensures { out.new ≡ laid (octets (message_of draft texts.now)) out.old }
{
    let end = put_front(draft, texts, out, size);
    let sum = sum_of(&out[..end]);
    out[end] = 0u8.wrapping_sub(sum);
}

// By a book: the message that a draft stands for at the start of the output, or a refusal; octets after the message
// stay, and in a refusal all of them.
#[tactic(auto, using(rules::proofs::Telling::telling), unfolding(crate::specs::Writing::output_after))]
fn write_by(book: Book, draft: Draft, texts: &[u8], out: &mut [u8]) -> Result<u16, Fault>
    ensures answer { result ≡ write_of (rules_of book) draft texts.now (list.length out.old) }
    ensures output { out.new ≡ output_after result (octets (message_of draft texts.now)) out.old }
{
    let size = judge(book, draft, texts, out.len())?;
    put_message(draft, texts, out, (size - 3) as u8);
    Ok(size)
}

// The sum of octets modulo 256 (000, section 2). turns has a sum too, which goes on from a sum so far: neither crate
// stands on the other, and the law of both is one (rules/proofs/Sums).
#[tactic(auto, using(rules::proofs::Sums::summing))]
pub fn sum_of(s: &[u8]) -> u8
    ensures { result ≡ total s.now % 256 }
{
    let mut sum: u8 = 0;
    for &x in s {
        sum = sum.wrapping_add(x);
    }
    sum
}

// Writes the message that a draft stands for, by the draft's edition: 16 where that or the way is unknown, and the
// output stays. So both stay numbers: `WritesBy.sixteen`.
#[tactic(auto, using(rules::proofs::Telling::telling), unfolding(crate::specs::Writing::write_in, crate::specs::Writing::output_after))]
pub fn write(way: u8, draft: Draft, texts: &[u8], out: &mut [u8]) -> Writing
    ensures answer { result ≡ write_in way draft texts.now (list.length out.old) }
    ensures output { out.new ≡ output_after result.answer (octets (message_of draft texts.now)) out.old }
{
    let edition = draft.edition;
    match rules::known_book(edition, way) {
        Some(book) => Named {
            edition,
            answer: write_by(book, draft, texts, out),
        },
        None => Named {
            edition: 0,
            answer: refusal(16, 0),
        },
    }
}
