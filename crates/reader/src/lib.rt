// Reading whole messages (document 01, Drafts): the draft of an accepted message and its texts, packed into a lent
// area. Nothing is written before the verdict is known.
#![tactic(auto)]

ghost use Rattle.std.specs.Prelude.{ℕ, ◌≡◌, ◌+◌, ◌*◌, ◌≤◌, ◌<◌, length, take, drop, slice_index};
ghost use Rattle.rules.specs.Table.{rules_of};
ghost use Rattle.rules.specs.Editions.{strict};
ghost use Rattle.message.specs.Parameters.{parameters_in, message_in};
ghost use Rattle.draft.specs.Meaning.{kind_of, number_of, digits_at, seconds_of, meant, text_in};
ghost use Rattle.rules.specs.Laying.{laid, laid_at};
ghost use Rattle.draft.specs.Packing.{value_at, entry_of, text_of, draft_of, texts_of};
ghost use Rattle.reader.specs.Read.{parameter_with, stands, text_size, taken_at, room_for, fitting_of, pack_of, area_after, read_of, read_in, area_in};

use draft::{Draft, Entry, Value};
use message::{Found, Parameters};
use rules::{Book, Fault, Form, MOST};

// What a read answers, and the edition that it names, which is the draft's. Not a `Result` with the draft in it, nor a
// `Named`: with a refusal too a draft is promised, the empty one of that edition (`Reads.refused`).
#[derive(Clone, Copy)]
pub struct Reading {
    pub edition: u8,
    pub answer: Result<u16, Fault>,
    pub draft: Draft,
}

// The entry of a parameter, how long its text is, and the place behind the parameter.
#[derive(Clone, Copy)]
pub struct Taken {
    pub entry: Entry,
    pub text: usize,
    pub place: usize,
}

// The number of two digits, of any octets: by `% 16`, as `number_of` has it, and not by `- 48`, which the judge's
// definitions have in `contents`.
#[tactic(auto, unfolding(draft::specs::Meaning::number_of))]
fn number_of(a: u8, b: u8) -> u8
    ensures { result ≡ number_of a b }
{
    10 * (a % 16) + b % 16
}

// At a place and no slice from it: `octet` gives 0 beyond the end, where no slice begins.
#[tactic(auto, unfolding(draft::specs::Meaning::digits_at))]
fn pair_at(contents: &[u8], i: usize) -> u8
    requires { i ≤ 8 }
    ensures { result ≡ digits_at contents.now i }
{
    number_of(message::octet(contents, i), message::octet(contents, i + 1))
}

// The first numbers of two digits.
fn pairs<const N: usize>(contents: &[u8]) -> [u8; N]
    requires { N ≤ 4 }
    ensures { (i : ℕ) → i < N → slice_index result i ≡ digits_at contents.now (2 * i) }
{
    std::array::from_fn(|i| pair_at(contents, 2 * i))
}

// The seconds behind a date, and one more; 0 where none were sent (document 02, Q-4): no `Option`, as in
// `Value::Moment`.
#[tactic(auto, using(rules::proofs::Telling::telling), unfolding(draft::specs::Meaning::seconds_of, draft::specs::Meaning::digits_at, draft::specs::Meaning::number_of))]
fn seconds_of(contents: &[u8]) -> u8
    ensures { result ≡ seconds_of contents.now }
{
    if contents.len() <= 8 {
        0
    } else {
        1 + pair_at(contents, 8)
    }
}

// The value that contents say, its text to be packed at a place. A match on the kind: each arm makes another variant.
#[tactic(auto, unfolding(draft::specs::Packing::value_at, draft::specs::Meaning::meant))]
fn value_of(kind: Form, contents: &[u8], at: usize) -> Value
    ensures { result ≡ value_at at (meant kind contents.now) }
{
    match kind {
        Form::DateValue => {
            let [month, day, hour, minute] = pairs::<4>(contents);
            Value::Date {
                month,
                day,
                hour,
                minute,
            }
        }
        Form::CodeValue => Value::Code(message::octet(contents, 0)),
        Form::StateValue => Value::State {
            state: message::octet(contents, 0),
            reference: rules::reference_of(
                message::octet(contents, 1),
                message::octet(contents, 2),
            ),
        },
        Form::TextValue => Value::Text {
            start: at,
            length: contents.len(),
        },
        Form::CarriedValue => Value::Carried {
            start: at,
            length: contents.len(),
        },
        Form::MomentValue => {
            let [month, day, hour, minute] = pairs::<4>(contents);
            Value::Moment {
                month,
                day,
                hour,
                minute,
                second: seconds_of(contents),
            }
        }
        Form::DurationValue => {
            let [hours, minutes, seconds] = pairs::<3>(contents);
            Value::Duration {
                hours,
                minutes,
                seconds,
            }
        }
        Form::MarkedValue => Value::Marked {
            mark: message::octet(contents, 0),
            start: at,
            length: contents.len().saturating_sub(1),
        },
    }
}

// The kind of a type's value.
#[tactic(auto, unfolding(draft::specs::Meaning::kind_of))]
fn form_at(book: Book, kind: u8) -> Form
    ensures { result ≡ kind_of (rules_of book) kind }
{
    rules::form_of(rules::class_of(book, kind))
}

// The contents of a parameter found.
fn contents_of(octets: &[u8], found: Found) -> &[u8]
    requires { found.start + found.length ≤ length octets.now }
    ensures { result.now ≡ take found.length (drop found.start octets.now) }
{
    let end = found.start + found.length as usize;
    &octets[found.start..end]
}

// The text that contents of a kind say: all of them, those behind the first, or none.
#[tactic(auto, unfolding(draft::specs::Meaning::text_in, draft::specs::Meaning::meant))]
fn text_part(kind: Form, contents: &[u8]) -> &[u8]
    ensures { result.now ≡ text_in (meant kind contents.now) }
{
    match kind {
        Form::TextValue | Form::CarriedValue => contents,
        Form::MarkedValue => match contents {
            [_, behind @ ..] => behind,
            [] => contents,
        },
        _ => &[],
    }
}

// The text of a parameter found. Book and octets are two arguments here and below: `pack`, `fits` and `entry` are
// promised of the two, and a struct of them would be made for each.
#[tactic(auto, unfolding(draft::specs::Packing::text_of, draft::specs::Packing::meaning_in))]
fn text_of(book: Book, octets: &[u8], found: Found) -> &[u8]
    requires { found.start + found.length ≤ length octets.now }
    ensures { result.now ≡ text_of (rules_of book) (stands octets.now found) }
{
    text_part(form_at(book, found.kind), contents_of(octets, found))
}

// The text octets of all parameters: repeats, those that do not count, carried contents too.
fn text_size(book: Book, octets: &[u8]) -> usize
    ensures { result ≡ text_size (rules_of book) octets.now }
{
    let mut size: usize = 0;
    for found in Parameters::new(octets, MOST) {
        size += text_of(book, octets, found).len();
    }
    size
}

// Octets laid down at a place of the area.
fn lay_text(text: &[u8], area: &mut [u8], at: usize)
    requires { at + length text.now ≤ length area.old }
    ensures { area.new ≡ laid_at text.now at area.old }
{
    let end = at + text.len();
    area[at..end].copy_from_slice(text);
}

// Each text behind the one before it, from octet 0 of the area on; how many octets they take.
fn lay_texts(book: Book, octets: &[u8], area: &mut [u8]) -> usize
    requires { text_size (rules_of book) octets.now ≤ length area.old }
    ensures size { result ≡ text_size (rules_of book) octets.now }
    ensures area { area.new ≡ laid (texts_of (rules_of book) (parameters_in octets.now)) area.old }
{
    let mut used: usize = 0;
    for found in Parameters::new(octets, MOST) {
        let text = text_of(book, octets, found);
        lay_text(text, area, used);
        used += text.len();
    }
    used
}

// An accepted message's texts in an area of so many octets: 9 with the octets that they need, where it has fewer.
fn short_of(book: Book, octets: &[u8], room: usize) -> Result<(), Fault>
    requires { length octets.now ≤ 258 }
    ensures { result ≡ room_for (rules_of book) octets.now room }
{
    let size = text_size(book, octets);
    if room < size {
        Err(rules::noted(9, size as u16))
    } else {
        Ok(())
    }
}

// Whether a read goes through with an area of so many octets: the verdict, then 9 (document 01, Numbers). Nothing is
// laid down.
pub fn fits(book: Book, octets: &[u8], room: usize) -> Result<(), Fault>
    ensures { result ≡ fitting_of (pack_of (rules_of book) octets.now room) }
{
    message::judge(book, octets)?;
    if room < rules::LONGEST {
        short_of(book, octets, room)
    } else {
        Ok(())
    }
}

// The verdict, then 9, and only then the texts: with a refusal the area is not touched.
pub fn pack(book: Book, octets: &[u8], area: &mut [u8]) -> Result<u16, Fault>
    ensures answer { result ≡ pack_of (rules_of book) octets.now (length area.old) }
    ensures area { area.new ≡ area_after (rules_of book) octets.now area.old }
{
    fits(book, octets, area.len())?;
    let size = lay_texts(book, octets, area);
    Ok(size as u16)
}

// The entry of a parameter, by its type and its contents, its text to be packed at a place of the area.
#[tactic(auto, unfolding(draft::specs::Packing::entry_of, draft::specs::Packing::meaning_in))]
pub fn entry_of(book: Book, kind: u8, contents: &[u8], used: usize) -> Entry
    ensures { result ≡ entry_of (rules_of book) used (parameter_with kind contents.now) }
{
    Entry {
        kind,
        value: value_of(form_at(book, kind), contents, used),
    }
}

// The entry of the parameter at a place of a message, its text to be packed at a place of the area. Message and place,
// as `taken_at` has them.
pub fn entry(book: Book, octets: &[u8], at: usize, used: usize) -> Option<Taken>
    ensures { result ≡ taken_at (rules_of book) octets.now at used }
{
    let found = message::parameter(octets, at)?;
    let entry = entry_of(book, found.kind, contents_of(octets, found), used);
    Some(Taken {
        entry,
        text: draft::text_length(entry.value),
        place: found.start + found.length as usize,
    })
}

// An entry for each parameter, one behind the other as `entry` takes them; the other places are not used. `entry` tells
// the next place, so no iterator goes along; each is stored at the draft's own number of entries.
fn draft_of(book: Book, octets: &[u8]) -> Draft
    ensures { result ≡ draft_of (rules_of book) (message_in octets.now) }
{
    let mut draft = draft::empty(rules::edition_of(book), message::octet(octets, 0));
    let mut place: usize = 2;
    let mut used: usize = 0;
    for _ in 0..MOST {
        let Some(taken) = entry(book, octets, place, used) else {
            break;
        };
        draft.entries[draft.count] = taken.entry;
        draft.count += 1;
        used += taken.text;
        place = taken.place;
    }
    draft
}

// A whole read by a book: the draft of the message, or one of 1 to 10 with its place.
fn read_by(book: Book, octets: &[u8], area: &mut [u8]) -> Reading
    ensures answer { result ≡ read_of (rules_of book) octets.now (length area.old) }
    ensures area { area.new ≡ area_after (rules_of book) octets.now area.old }
{
    let edition = rules::edition_of(book);
    let answer = pack(book, octets, area);
    let draft = if answer.is_ok() {
        draft_of(book, octets)
    } else {
        draft::empty(edition, 0)
    };
    Reading {
        edition,
        answer,
        draft,
    }
}

// A whole read: 16 where edition or way is unknown, else as their book says. They are told as numbers, since 16 is
// promised of unknown ones (`read_in`).
#[tactic(auto, using(rules::proofs::Telling::telling), unfolding(crate::specs::Read::read_in, crate::specs::Read::area_in))]
pub fn read_way(edition: u8, way: u8, octets: &[u8], area: &mut [u8]) -> Reading
    ensures answer { result ≡ read_in edition way octets.now (length area.old) }
    ensures area { area.new ≡ area_in edition way octets.now area.old }
{
    match rules::known_book(edition, way) {
        Some(book) => read_by(book, octets, area),
        None => Reading {
            edition: 0,
            answer: Err(rules::noted(16, 0)),
            draft: draft::empty(0, 0),
        },
    }
}

// A whole read in the strict way: where no way is named, types that the edition does not list are refused (document
// 02, Q-11). C has a call for this and one for `read_way`.
pub fn read(edition: u8, octets: &[u8], area: &mut [u8]) -> Reading
    ensures answer { result ≡ read_in edition strict octets.now (length area.old) }
    ensures area { area.new ≡ area_in edition strict octets.now area.old }
{
    read_way(edition, rules::STRICT, octets, area)
}
