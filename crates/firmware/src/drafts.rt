// The draft's record (document 01, Drafts), laid down entry by entry from the octets of an accepted message: no draft
// by value stands on the stack.
ghost use Rattle.std.specs.Prelude.{◌≡◌, ◌+◌, ◌/◌, ◌%◌, ◌++◌, [], ◌∷◌, ◌≤◌, length, replicate};
ghost use Rattle.rules.specs.Table.{rules_of, form_number};
ghost use Rattle.rules.specs.Laying.{laid};
ghost use Rattle.draft.specs.Packing.{draft_of, texts_of};
ghost use Rattle.message.specs.Parameters.{parameters_in, message_in};
ghost use Rattle.reader.specs.Read.{text_size};
ghost use Rattle.firmware.specs.DraftRecord as record_of;
ghost use Rattle.firmware.specs.Sizes.{draft_size};

use draft::{Entry, Value};
use message::Parameters;
use rules::{Book, Form};

// The two low octets of a number, the low one first.
fn low_octets(n: usize) -> [u8; 2]
    ensures { result ≡ n % 256 ∷ n / 256 % 256 ∷ [] }
{
    let octets = n.to_le_bytes();
    [octets[0], octets[1]]
}

// Octets over the first of others, as many as are told at run time. A loop of its own, since std's copy of so many
// would have the archive ask for memmove, which the header does not name.
fn copy(from: &[u8], to: &mut [u8])
    requires { length from.now ≤ length to.old }
    ensures { to.new ≡ laid from.now to.old }
{
    for (i, x) in from.iter().enumerate() {
        to[i] = *x;
    }
}

// The octets of an entry whose value is a text.
#[tactic(auto, unfolding(crate::specs::DraftRecord::entry_cells, crate::specs::DraftRecord::numbers_of, crate::specs::DraftRecord::text_numbers, rules::specs::Table::form_number))]
fn text_cells(kind: u8, form: Form, start: usize, length: usize) -> [u8; 8]
    ensures { result ≡ record_of.cells_of kind (record_of.text_numbers (form_number form) start length) }
{
    let [from, above] = low_octets(start);
    let [size, more] = low_octets(length);
    [kind, form.into(), from, above, size, more, 0, 0]
}

// The octets of an entry, over the beginning of what is lent: its type, the kind of its value, and the numbers of the
// value, as the header's readers have them. Each arm lays its own: one copy behind them all has the eight octets put
// together at run time, 5 in 100 of a read of 85 parameters.
#[tactic(auto, unfolding(crate::specs::DraftRecord::entry_cells, crate::specs::DraftRecord::numbers_of, crate::specs::DraftRecord::text_numbers, rules::specs::Table::form_number))]
fn lay_entry(cells: &mut [u8], e: Entry)
    requires { 8 ≤ length cells.old }
    ensures { cells.new ≡ laid (record_of.entry_cells e) cells.old }
{
    let kind = e.kind;
    match e.value {
        Value::Date {
            month,
            day,
            hour,
            minute,
        } => copy(
            &[kind, Form::DateValue.into(), month, day, hour, minute, 0, 0],
            cells,
        ),
        Value::Code(x) => copy(&[kind, Form::CodeValue.into(), x, 0, 0, 0, 0, 0], cells),
        Value::State { state, reference } => {
            let [low, high] = low_octets(reference.into());
            copy(
                &[kind, Form::StateValue.into(), state, 0, low, high, 0, 0],
                cells,
            );
        }
        Value::Text { start, length } => copy(
            &text_cells(kind, Form::TextValue, start, length),
            cells,
        ),
        Value::Carried { start, length } => copy(
            &text_cells(kind, Form::CarriedValue, start, length),
            cells,
        ),
        Value::Moment {
            month,
            day,
            hour,
            minute,
            second,
        } => copy(
            &[
                kind,
                Form::MomentValue.into(),
                month,
                day,
                hour,
                minute,
                second,
                0,
            ],
            cells,
        ),
        Value::Duration {
            hours,
            minutes,
            seconds,
        } => copy(
            &[
                kind,
                Form::DurationValue.into(),
                hours,
                minutes,
                seconds,
                0,
                0,
                0,
            ],
            cells,
        ),
        Value::Marked {
            mark,
            start,
            length,
        } => {
            let [from, above] = low_octets(start);
            let [size, more] = low_octets(length);
            copy(
                &[
                    kind,
                    Form::MarkedValue.into(),
                    mark,
                    0,
                    from,
                    above,
                    size,
                    more,
                ],
                cells,
            );
        }
    }
}

// How many entries were laid down, and how many text octets: the one goes into the record, the other into the word.
#[derive(Clone, Copy)]
struct Filled {
    count: usize,
    used: usize,
}

// The entries of the message's parameters, each at its place, and their texts one behind the other, in one walk. No
// plainer as one value of the four, here and in `lay_draft`: all but the book are slices that C lends, used once.
fn lay_entries(book: Book, octets: &[u8], cells: &mut [u8], texts: &mut [u8]) -> Filled
    requires { (cells.old ≡ replicate draft_size 0) × (text_size (rules_of book) octets.now ≤ length texts.old) }
    ensures count { result.count ≡ (draft_of (rules_of book) (message_in octets.now)).count }
    ensures used { result.used ≡ text_size (rules_of book) octets.now }
    ensures cells { cells.new ≡ replicate 8 0 ++ record_of.entries_cells (draft_of (rules_of book) (message_in octets.now)).entries }
    ensures texts { texts.new ≡ laid (texts_of (rules_of book) (parameters_in octets.now)) texts.old }
{
    let mut count: usize = 0;
    let mut used: usize = 0;
    for found in Parameters::new(octets, rules::MOST) {
        let end = found.start + found.length as usize;
        let contents = &octets[found.start..end];
        let entry = reader::entry_of(book, found.kind, contents, used);
        let text = draft::text_length(entry.value);
        lay_entry(&mut cells[8 + 8 * count..], entry);
        copy(&contents[contents.len() - text..], &mut texts[used..]);
        count += 1;
        used += text;
    }
    Filled { count, used }
}

// The record of a message's draft, whatever it held, and the texts; how many text octets there are. C: the kind, the
// count and the edition are the record's octets 0 to 2.
pub(crate) fn lay_draft(book: Book, octets: &[u8], cells: &mut [u8], texts: &mut [u8]) -> usize
    requires { (length cells.old ≡ draft_size) × (text_size (rules_of book) octets.now ≤ length texts.old) }
    ensures used { result ≡ text_size (rules_of book) octets.now }
    ensures cells { cells.new ≡ record_of.draft_record (draft_of (rules_of book) (message_in octets.now)) }
    ensures texts { texts.new ≡ laid (texts_of (rules_of book) (parameters_in octets.now)) texts.old }
{
    cells.fill(0);
    let filled = lay_entries(book, octets, cells, texts);
    cells[0] = message::octet(octets, 0);
    cells[1] = filled.count as u8;
    cells[2] = rules::edition_of(book);
    filled.used
}
