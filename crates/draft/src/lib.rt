// Drafts (document 01, Drafts; document 02, Q-4 and Q-5): an edition, a message type and up to 85 entries, each a
// parameter type with its value.
#![tactic(auto)]

ghost use Rattle.std.specs.Prelude.{◌≡◌, ◌+◌, ◌≤◌};
ghost use Rattle.std.proofs.Math.ListN as list;
ghost use Rattle.rules.specs.Tests.{◌≤?◌};
ghost use Rattle.rules.specs.Pairwise.{same_octets};
ghost use Rattle.rules.specs.Table.{form_of, form_number};
ghost use Rattle.rules.specs.Message.{most};
ghost use Rattle.draft.specs.Meaning.{has_text};
ghost use Rattle.draft.specs.Draft.{no_entry, empty_of, text_long};
ghost use Rattle.draft.specs.Same.{flat_of, flat_plain, flat_text, same_text, same_flat, same_entry, same_entries, same_message, same_draft};

use rules::{Class, Form, MOST};

// A value of each kind (document 01, Drafts). A text and a carried one, a date and a moment stay variants of their own,
// with what they share in each: `meant` and C's record (kinds 3 and 4, 1 and 5) have them so. Texts are start and
// length: the area is lent at each call. No `PartialEq`: texts are equal by their octets, wherever they lie
// (`same_draft`).
#[derive(Clone, Copy)]
pub enum Value {
    Date {
        month: u8,
        day: u8,
        hour: u8,
        minute: u8,
    },
    Code(u8),
    State {
        state: u8,
        reference: u16,
    },
    Text {
        start: usize,
        length: usize,
    },
    Carried {
        start: usize,
        length: usize,
    },
    // A date whose seconds may have been sent (document 02, Q-4): `second` is the seconds + 1, or 0 where none were. A
    // number and no `Option`: `meant`, `spelled` and C's record have it so.
    Moment {
        month: u8,
        day: u8,
        hour: u8,
        minute: u8,
        second: u8,
    },
    Duration {
        hours: u8,
        minutes: u8,
        seconds: u8,
    },
    // A first octet, and the text of the octets behind it.
    Marked {
        mark: u8,
        start: usize,
        length: usize,
    },
}

// A parameter type, which every octet is, and its value.
#[derive(Clone, Copy)]
pub struct Entry {
    pub kind: u8,
    pub value: Value,
}

// A message type, the entries, and the number of the edition by which they are written (document 02, Q-5). There is no
// heap: the entries stand in an array by value with their number beside it, as in the record that C reads. Message
// types and editions stay numbers: the writer promises an answer to each, 11 and 16 to those of none.
#[derive(Clone, Copy)]
pub struct Draft {
    pub kind: u8,
    pub count: usize,
    pub entries: [Entry; MOST],
    pub edition: u8,
}

// An entry place that is not used: a code of 0 and no `Option`, since C's record has zeros there; a function and no
// `Default`, which is promised by its name (`no_entry`).
pub fn no_entry() -> Entry
    ensures { result ≡ no_entry }
{
    Entry {
        kind: 0,
        value: Value::Code(0),
    }
}

// A draft of an edition with no entries: all its places are `no_entry`.
#[tactic(auto, unfolding(crate::specs::Draft::empty_of))]
pub fn empty(edition: u8, kind: u8) -> Draft
    ensures { result ≡ empty_of edition kind }
{
    Draft {
        kind,
        edition,
        count: 0,
        entries: [no_entry(); MOST],
    }
}

// Do values of the kind with this number have a text? Its answer is promised of every number, those of no kind too.
#[tactic(auto, using(rules::proofs::Telling::telling), unfolding(crate::specs::Meaning::has_text))]
pub fn has_text(form: u8) -> bool
    ensures { result ≡ has_text form }
{
    form == Form::TextValue.into()
        || form == Form::CarriedValue.into()
        || form == Form::MarkedValue.into()
}

// The number of the kind of value that a class has, which is what is promised of it; `rules::form_of` has the kind.
pub fn form_of(class: Class) -> u8
    ensures { result ≡ form_number (form_of class) }
{
    rules::form_of(class).into()
}

// A value laid flat: its kind, its numbers (0 where it has fewer than five; the mark of a marked text is its first),
// and where its text lies. A value without one has the empty text at 0 and not an `Option`, so that values of all
// kinds are compared, and written, alike.
#[derive(Clone, Copy)]
pub struct Flat {
    pub form: Form,
    pub numbers: [u16; 5],
    pub start: usize,
    pub length: usize,
}

// Numbers without a text.
fn plain(form: Form, numbers: [u16; 5]) -> Flat
    ensures { result ≡ flat_plain form numbers }
{
    Flat {
        form,
        numbers,
        start: 0,
        length: 0,
    }
}

// A text with its mark, 0 where it has none.
fn marked(form: Form, mark: u8, start: usize, length: usize) -> Flat
    ensures { result ≡ flat_text form mark start length }
{
    Flat {
        form,
        numbers: [mark.into(), 0, 0, 0, 0],
        start,
        length,
    }
}

// A value laid flat, as `flat_of` has it; a match on the value, since each variant has fields of its own.
#[tactic(auto, unfolding(crate::specs::Same::flat_of))]
pub fn flatten(v: Value) -> Flat
    ensures { result ≡ flat_of v }
{
    match v {
        Value::Date {
            month,
            day,
            hour,
            minute,
        } => plain(
            Form::DateValue,
            [month.into(), day.into(), hour.into(), minute.into(), 0],
        ),
        Value::Code(x) => plain(Form::CodeValue, [x.into(), 0, 0, 0, 0]),
        Value::State { state, reference } => plain(
            Form::StateValue,
            [state.into(), reference, 0, 0, 0],
        ),
        Value::Text { start, length } => marked(Form::TextValue, 0, start, length),
        Value::Carried { start, length } => marked(Form::CarriedValue, 0, start, length),
        Value::Moment {
            month,
            day,
            hour,
            minute,
            second,
        } => plain(
            Form::MomentValue,
            [
                month.into(),
                day.into(),
                hour.into(),
                minute.into(),
                second.into(),
            ],
        ),
        Value::Duration {
            hours,
            minutes,
            seconds,
        } => plain(
            Form::DurationValue,
            [hours.into(), minutes.into(), seconds.into(), 0, 0],
        ),
        Value::Marked {
            mark,
            start,
            length,
        } => marked(Form::MarkedValue, mark, start, length),
    }
}

// How long the text of a value is, 0 where it has none.
#[tactic(auto, unfolding(crate::specs::Draft::text_long))]
pub fn text_length(v: Value) -> usize
    ensures { result ≡ text_long v }
{
    match v {
        Value::Text { length, .. } | Value::Carried { length, .. } | Value::Marked { length, .. } =>
            length,
        _ => 0,
    }
}

// Does a text lie inside its area? No start or length is too large to ask: two numbers, as a value and C's record hold
// them, and so any two may be asked.
#[tactic(auto, using(rules::proofs::Telling::telling))]
pub fn lies(texts: &[u8], start: usize, length: usize) -> bool
    ensures { result ≡ (start + length ≤? list.length texts.now) }
{
    let n = texts.len();
    start <= n && length <= n - start
}

// Texts are equal where both lie inside and their octets agree. From here to `same` a draft, or a part of it, and its
// area go as two arguments, as `same`'s promise and its callers have them: a struct would be made for one call, anew in
// each.
#[tactic(auto, using(rules::proofs::Telling::telling), unfolding(crate::specs::Same::same_text))]
fn same_text(s: &[u8], x: Flat, t: &[u8], y: Flat) -> bool
    ensures { result ≡ same_text s.now x t.now y }
{
    lies(s, x.start, x.length)
        && lies(t, y.start, y.length)
        && rules::same_octets(
            &s[x.start..x.start + x.length],
            &t[y.start..y.start + y.length],
        )
}

#[tactic(auto, using(rules::proofs::Telling::telling, rules::proofs::Telling::same_is, crate::proofs::Meaning::forms_tell), unfolding(crate::specs::Same::same_flat, crate::specs::Same::same_numbers))]
fn same_flat(s: &[u8], x: Flat, t: &[u8], y: Flat) -> bool
    ensures { result ≡ same_flat s.now x t.now y }
{
    x.form == y.form && x.numbers == y.numbers && same_text(s, x, t, y)
}

#[tactic(auto, using(rules::proofs::Telling::telling), unfolding(crate::specs::Same::same_entry))]
fn same_entry(s: &[u8], e: Entry, t: &[u8], f: Entry) -> bool
    ensures { result ≡ same_entry s.now e t.now f }
{
    e.kind == f.kind && same_flat(s, flatten(e.value), t, flatten(f.value))
}

// Entry by entry, by the number of both: over `zip` and `all` the proof was tried and did not close.
fn same_entries(a: Draft, s: &[u8], b: Draft, t: &[u8]) -> bool
    requires { a.count ≤ most }
    ensures { result ≡ same_entries s.now (list.take a.count a.entries) t.now (list.take a.count b.entries) }
{
    for i in 0..a.count {
        if !same_entry(s, a.entries[i], t, b.entries[i]) {
            return false;
        }
    }
    true
}

// Message type, number of entries, and the entries; one with over 85 entries is like none.
#[tactic(auto, using(rules::proofs::Telling::telling), unfolding(crate::specs::Same::same_message))]
fn same_message(a: Draft, s: &[u8], b: Draft, t: &[u8]) -> bool
    ensures { result ≡ same_message a s.now b t.now }
{
    a.kind == b.kind && a.count == b.count && a.count <= MOST && same_entries(a, s, b, t)
}

// Are two drafts, each with its text area, equal? Those of two editions never are; one of an unknown edition, with over
// 85 entries or with a text outside its area is equal to none.
#[tactic(auto, using(rules::proofs::Telling::telling), unfolding(crate::specs::Same::same_draft))]
pub fn same(a: Draft, s: &[u8], b: Draft, t: &[u8]) -> bool
    ensures { result ≡ same_draft a s.now b t.now }
{
    rules::is_edition(a.edition) && a.edition == b.edition && same_message(a, s, b, t)
}
