// The listing of a message (document 01, What showmsg prints): a key=value line for each value that counts, in the
// order of the table; or the three lines of a refusal. It comes back by value, in a buffer of the longest listing, so
// that it needs no refusal of its own; nor from a heap, where it could fail for want of memory. And whether one line is
// that of a row with contents.
#![tactic(auto)]

ghost use Rattle.std.specs.Prelude.{◌≡◌, [], ◌∷◌, ◌++◌, suc, ◌<◌, ◌≤◌, length, take, drop, map, IfSome, IfNone};
ghost use Rattle.rules.specs.Tests.{◌≤?◌, ◌and◌};
ghost use Rattle.rules.specs.Pairwise.{same_octets};
ghost use Rattle.rules.specs.Table.{rules_of, style_of, ascii};
ghost use Rattle.rules.specs.declared.Book.TheVariants as book;
ghost use Rattle.rules.specs.Counting.{carried_in};
ghost use Rattle.message.specs.Parameters.{parameters_in};
ghost use Rattle.listing.specs.Numerals.{hex_digit, hex, decimal};
ghost use Rattle.listing.specs.Page.{HasRoom};
ghost use Rattle.listing.specs.Seen.{seen};
ghost use Rattle.listing.specs.Listing.{half, seconds, coded, clock, lamp_word, state_word, reference, currency, identity, moment, duration, charge, selector_word, selected, terminal, printed, kind_line, carried_line, number_line, line_text, line_of, says_line, row_at, row_count, part_lines, rows_at, lines_at, written, refusal_lines, listing_of, buffer_of, buffer_size};

use arrayvec::ArrayVec;
use message::{Parameters, Part};
use rules::{Book, Class, Fault};

// No listing is longer.
const LONGEST: usize = 553;

// A listing: its first `length` octets; those behind them are 0. Both fields are public and
// `buffer_of` names them: so it is an array with a length, and `text` gives the slice.
#[derive(Clone, Copy)]
pub struct ListingText {
    pub octets: [u8; LONGEST],
    pub length: usize,
}

impl ListingText {
    // The listing's octets.
    pub fn text(&self) -> &[u8]
        ensures { result.now ≡ take self.now.length self.now.octets }
    {
        self.octets.get(..self.length).unwrap_or(&self.octets)
    }
}

// What is printed so far. Each function that puts a text on it asks for room, since a page has no more than the longest
// listing (`longest`), and none of them can refuse: the public `listing` never does. No `Display`: contents are octets
// that need be no text.
type Page = ArrayVec<u8, LONGEST>;

// A row of the listing: a parameter type and its key.
#[derive(Clone, Copy)]
struct Row {
    kind: u8,
    key: &'static [u8],
}

pub const ROWS: usize = 27;

// The rows in the listing's order.
const TABLE: &[Row] = &[
    Row {
        kind: 0x01,
        key: b"time",
    },
    Row {
        kind: 0x02,
        key: b"caller",
    },
    Row {
        kind: 0x03,
        key: b"called",
    },
    Row {
        kind: 0x04,
        key: b"caller-absent",
    },
    Row {
        kind: 0x07,
        key: b"name",
    },
    Row {
        kind: 0x08,
        key: b"name-absent",
    },
    Row {
        kind: 0x0B,
        key: b"lamp",
    },
    Row {
        kind: 0x0D,
        key: b"message",
    },
    Row {
        kind: 0x0E,
        key: b"depositor",
    },
    Row {
        kind: 0x0F,
        key: b"left-time",
    },
    Row {
        kind: 0x10,
        key: b"network-caller",
    },
    Row {
        kind: 0x11,
        key: b"call-type",
    },
    Row {
        kind: 0x12,
        key: b"first-called",
    },
    Row {
        kind: 0x13,
        key: b"waiting",
    },
    Row {
        kind: 0x15,
        key: b"forwarded",
    },
    Row {
        kind: 0x16,
        key: b"user",
    },
    Row {
        kind: 0x1A,
        key: b"redirecting",
    },
    Row {
        kind: 0x20,
        key: b"charge",
    },
    Row {
        kind: 0x21,
        key: b"additional-charge",
    },
    Row {
        kind: 0x22,
        key: b"extra-charge",
    },
    Row {
        kind: 0x23,
        key: b"duration",
    },
    Row {
        kind: 0x30,
        key: b"provider",
    },
    Row {
        kind: 0x31,
        key: b"carrier",
    },
    Row {
        kind: 0x40,
        key: b"terminal",
    },
    Row {
        kind: 0x50,
        key: b"display",
    },
    Row {
        kind: 0x55,
        key: b"service",
    },
    Row {
        kind: 0xE0,
        key: b"extension",
    },
];

fn table() -> &'static [Row]
    ensures { map seen result.now ≡ (rules_of book.PresentLenient).rows }
{
    TABLE
}

// The row at a place, if there is one.
#[tactic(auto, using(crate::proofs::Keys::row_seen, crate::proofs::Keys::rows_many))]
fn entry(i: usize) -> Option<&'static Row>
    ensures row { IfSome result (λ r. (i < row_count) × (seen r.now ≡ row_at i)) }
    ensures none { IfNone result (row_count ≤ i) }
{
    table().get(i)
}

// ---- octets put behind those that stand there

fn put(text: &[u8], page: &mut Page)
    requires { HasRoom text.now page.old }
    ensures { page.new.items ≡ page.old.items ++ text.now }
{
    // There is room, so it is not refused.
    let _ = page.try_extend_from_slice(text);
}

// ---- numbers

// The digits of the quotient by ten, and then the last one. Not by `write!`, which would answer a Result for each
// number, though none can fail: the page is of octets, which need be no text, and a clause says each of them. So also
// the two digits of `hex`, by `hex_digit`.
#[tactic(auto, using(std::proofs::lemmas::Grind::common_steps, crate::proofs::Numerals::decimal_small, crate::proofs::Numerals::decimal_big))]
fn put_decimal(n: u16, page: &mut Page)
    requires { HasRoom (decimal n) page.old }
    ensures { page.new.items ≡ page.old.items ++ decimal n }
{
    if n < 10 {
        page.push(b'0' + n as u8);
    } else {
        put_decimal(n / 10, page);
        page.push(b'0' + (n % 10) as u8);
    }
}

#[tactic(auto, using(rules::proofs::Telling::telling), unfolding(crate::specs::Numerals::hex_digit))]
fn hex_digit(k: u8) -> u8
    requires { k < 16 }
    ensures { result ≡ hex_digit k }
{
    if k <= 9 { b'0' + k } else { b'A' + (k - 10) }
}

#[tactic(auto, unfolding(crate::specs::Numerals::hex))]
fn hex(x: u8) -> [u8; 2]
    ensures { result ≡ hex x }
{
    [hex_digit(x / 16), hex_digit(x % 16)]
}

// ---- pieces of values

// The octets that choose a word stay numbers, in `lamp_word`, `state_word`, `selector_word`, `kind_text` and
// `put_selected`: contents and a first octet are any, each has its word, and an enum would want a refusal.

// Two numbers of two digits with a mark between them.
#[tactic(auto, unfolding(crate::specs::Listing::half))]
fn half(contents: &[u8], i: usize, mark: u8) -> [u8; 5]
    requires { i ≤ 4 }
    ensures { result ≡ half contents.now i mark }
{
    [
        message::octet(contents, i),
        message::octet(contents, i + 1),
        mark,
        message::octet(contents, i + 2),
        message::octet(contents, i + 3),
    ]
}

// A colon and a number of two digits.
#[tactic(auto, unfolding(crate::specs::Listing::seconds))]
fn seconds(contents: &[u8], i: usize) -> [u8; 3]
    requires { i ≤ 8 }
    ensures { result ≡ seconds contents.now i }
{
    [
        b':',
        message::octet(contents, i),
        message::octet(contents, i + 1),
    ]
}

// Three octets as they are, and a space.
#[tactic(auto, unfolding(crate::specs::Listing::currency))]
fn currency(contents: &[u8]) -> [u8; 4]
    ensures { result ≡ currency contents.now }
{
    [
        message::octet(contents, 0),
        message::octet(contents, 1),
        message::octet(contents, 2),
        b' ',
    ]
}

// What stands behind the first k octets.
fn rest(contents: &[u8], k: usize) -> &[u8]
    ensures { result.now ≡ drop k contents.now }
{
    contents.get(k..).unwrap_or(&[])
}

#[tactic(auto, using(rules::proofs::Telling::telling), unfolding(crate::specs::Listing::lamp_word, rules::specs::Table::ascii))]
fn lamp_word(x: u8) -> &'static [u8]
    ensures { result.now ≡ lamp_word x }
{
    if x == 0 { b"off" } else { b"on" }
}

#[tactic(auto, using(rules::proofs::Telling::telling), unfolding(crate::specs::Listing::state_word, rules::specs::Table::ascii))]
fn state_word(x: u8) -> &'static [u8]
    ensures { result.now ≡ state_word x }
{
    if x == 0x55 { b"unset" } else { lamp_word(x) }
}

#[tactic(auto, using(rules::proofs::Telling::telling), unfolding(crate::specs::Listing::selector_word, rules::specs::Table::ascii))]
fn selector_word(x: u8) -> &'static [u8]
    ensures { result.now ≡ selector_word x }
{
    match x {
        1 => b"connection ",
        2 => b"number ",
        _ => b"subaddress ",
    }
}

#[tactic(auto, unfolding(crate::specs::Listing::reference))]
fn reference_in(contents: &[u8]) -> u16
    ensures { result ≡ reference contents.now }
{
    rules::reference_of(message::octet(contents, 1), message::octet(contents, 2))
}

// ---- values

// An octet in hex, a space, and what stands behind it.
#[tactic(auto, unfolding(crate::specs::Listing::coded, rules::specs::Table::ascii))]
fn put_coded(contents: &[u8], i: usize, page: &mut Page)
    requires { (i ≤ 3) × HasRoom (coded contents.now i) page.old }
    ensures { page.new.items ≡ page.old.items ++ coded contents.now i }
{
    put(&hex(message::octet(contents, i)), page);
    page.push(b' ');
    put(rest(contents, i + 1), page);
}

#[tactic(auto, unfolding(crate::specs::Listing::clock, rules::specs::Table::ascii))]
fn put_clock(contents: &[u8], page: &mut Page)
    requires { HasRoom (clock contents.now) page.old }
    ensures { page.new.items ≡ page.old.items ++ clock contents.now }
{
    put(&half(contents, 0, b'-'), page);
    page.push(b' ');
    put(&half(contents, 4, b':'), page);
}

#[tactic(auto, unfolding(crate::specs::Listing::identity, rules::specs::Table::ascii))]
fn put_identity(contents: &[u8], page: &mut Page)
    requires { HasRoom (identity contents.now) page.old }
    ensures { page.new.items ≡ page.old.items ++ identity contents.now }
{
    put(state_word(message::octet(contents, 0)), page);
    page.push(b' ');
    put_decimal(reference_in(contents), page);
}

// A date and time, with its seconds where they were sent (document 02, Q-4).
#[tactic(auto, using(std::proofs::lemmas::Grind::common_steps, rules::proofs::Telling::telling), unfolding(crate::specs::Listing::moment))]
fn put_moment(contents: &[u8], page: &mut Page)
    requires { HasRoom (moment contents.now) page.old }
    ensures { page.new.items ≡ page.old.items ++ moment contents.now }
{
    put_clock(contents, page);
    if contents.len() == 10 {
        put(&seconds(contents, 8), page);
    }
}

#[tactic(auto, unfolding(crate::specs::Listing::duration))]
fn put_duration(contents: &[u8], page: &mut Page)
    requires { HasRoom (duration contents.now) page.old }
    ensures { page.new.items ≡ page.old.items ++ duration contents.now }
{
    put(&half(contents, 0, b':'), page);
    put(&seconds(contents, 4), page);
}

#[tactic(auto, unfolding(crate::specs::Listing::charge))]
fn put_charge(contents: &[u8], page: &mut Page)
    requires { HasRoom (charge contents.now) page.old }
    ensures { page.new.items ≡ page.old.items ++ charge contents.now }
{
    put(&currency(contents), page);
    put_coded(contents, 3, page);
}

#[tactic(auto, using(rules::proofs::Telling::telling), unfolding(crate::specs::Listing::selected))]
fn put_selected(contents: &[u8], page: &mut Page)
    requires { HasRoom (selected contents.now) page.old }
    ensures { page.new.items ≡ page.old.items ++ selected contents.now }
{
    if message::octet(contents, 0) == 1 {
        put(&hex(message::octet(contents, 1)), page);
    } else {
        put(rest(contents, 1), page);
    }
}

#[tactic(auto, unfolding(crate::specs::Listing::terminal))]
fn put_terminal(contents: &[u8], page: &mut Page)
    requires { HasRoom (terminal contents.now) page.old }
    ensures { page.new.items ≡ page.old.items ++ terminal contents.now }
{
    put(selector_word(message::octet(contents, 0)), page);
    put_selected(contents, page);
}

// The value that contents say, in the style of their class. A match on an enum, and no closures: each arm puts
// something else.
#[tactic(auto, unfolding(rules::specs::Table::style_of, crate::specs::Listing::printed, crate::specs::Listing::display))]
fn put_value(class: Class, contents: &[u8], page: &mut Page)
    requires { HasRoom (printed (style_of class) contents.now) page.old }
    ensures { page.new.items ≡ page.old.items ++ printed (style_of class) contents.now }
{
    match class {
        Class::Carried | Class::Unlisted => {}
        Class::Date => put_clock(contents, page),
        Class::Lamp => put(lamp_word(message::octet(contents, 0)), page),
        Class::Identity => put_identity(contents, page),
        Class::Waiting => put_decimal(u16::from(message::octet(contents, 0)), page),
        Class::Moment => put_moment(contents, page),
        Class::Charge => put_charge(contents, page),
        Class::Duration => put_duration(contents, page),
        Class::Terminal => put_terminal(contents, page),
        Class::Display => put_coded(contents, 0, page),
        Class::CallType
        | Class::Forwarded
        | Class::User
        | Class::Service
        | Class::OldForwarded
        | Class::OldUser => put(&hex(message::octet(contents, 0)), page),
        Class::Number
        | Class::Absent
        | Class::Name
        | Class::ShortText
        | Class::Extension
        | Class::OldNumber => put(contents, page),
    }
}

// ---- lines

// The line of a row with contents.
#[tactic(auto, unfolding(crate::specs::Listing::line_of, crate::specs::Listing::line_text, rules::specs::Table::ascii))]
fn put_line(row: &Row, contents: &[u8], page: &mut Page)
    requires { HasRoom (line_text (line_of (rules_of book.PresentLenient) (seen row.now) contents.now)) page.old }
    ensures { page.new.items ≡ page.old.items ++ line_text (line_of (rules_of book.PresentLenient) (seen row.now) contents.now) }
{
    put(row.key, page);
    page.push(b'=');
    put_value(
        rules::class_of(Book::PresentLenient, row.kind),
        contents,
        page,
    );
    page.push(b'\n');
}

// Is this the line of a row with contents that fit its class?
fn is_line(row: &Row, contents: &[u8], line: &[u8]) -> bool
    requires { length (line_text (line_of (rules_of book.PresentLenient) (seen row.now) contents.now)) ≤ buffer_size }
    ensures { result ≡ same_octets (line_text (line_of (rules_of book.PresentLenient) (seen row.now) contents.now)) line.now }
{
    let mut page: Page = ArrayVec::new();
    put_line(row, contents, &mut page);
    rules::same_octets(page.as_slice(), line)
}

// The line of a row, if its type counts. The length goes by `as`: the proof of the slice's end does not close with
// `usize::from`.
#[tactic(auto, using(std::proofs::lemmas::Grind::common_steps, crate::proofs::Rows::row_line, crate::proofs::Rows::row_none, crate::proofs::Rows::part_inside))]
fn put_row(octets: &[u8], row: &Row, page: &mut Page)
    requires { HasRoom (written (part_lines (rules_of book.PresentLenient) octets.now (seen row.now))) page.old }
    ensures { page.new.items ≡ page.old.items ++ written (part_lines (rules_of book.PresentLenient) octets.now (seen row.now)) }
{
    if let Some(Part { start, length }) = message::counted(Book::PresentLenient, octets, row.kind) {
        put_line(row, &octets[start..start + length as usize], page);
    }
}

#[tactic(auto, using(std::proofs::lemmas::Grind::common_steps, crate::proofs::Rows::row_next, crate::proofs::Rows::rows_long, crate::proofs::Rows::no_rows))]
fn put_rows(octets: &[u8], page: &mut Page)
    requires { HasRoom (written (rows_at (rules_of book.PresentLenient) octets.now (rules_of book.PresentLenient).rows)) page.old }
    ensures { page.new.items ≡ page.old.items ++ written (rows_at (rules_of book.PresentLenient) octets.now (rules_of book.PresentLenient).rows) }
{
    for row in table() {
        put_row(octets, row, page);
    }
}

// A line of a key, `=` with it, and a number.
#[tactic(auto, unfolding(crate::specs::Listing::number_line, rules::specs::Table::ascii))]
fn put_number(key: &[u8], n: u16, page: &mut Page)
    requires { HasRoom (number_line key.now n) page.old }
    ensures { page.new.items ≡ page.old.items ++ number_line key.now n }
{
    put(key, page);
    put_decimal(n, page);
    page.push(b'\n');
}

#[tactic(auto, using(rules::proofs::Telling::telling), unfolding(crate::specs::Listing::kind_line, crate::specs::Listing::line_text, rules::specs::Table::ascii))]
fn kind_text(x: u8) -> &'static [u8]
    ensures { result.now ≡ line_text (kind_line x) }
{
    if x == 0x80 {
        b"kind=call\n"
    } else {
        b"kind=notice\n"
    }
}

// ---- the listing

// How many parameters are carried, repeats too.
fn carried(octets: &[u8]) -> u16
    ensures { result ≡ carried_in (rules_of book.PresentLenient) (parameters_in octets.now) }
{
    let count = Parameters::new(octets, rules::MOST)
        .filter(|found| !rules::is_listed(Book::PresentLenient, found.kind))
        .count();
    count as u16
}

#[tactic(auto, using(std::proofs::lemmas::Grind::common_steps, crate::proofs::Rows::message_text), unfolding(rules::specs::Table::ascii))]
fn put_message(octets: &[u8], page: &mut Page)
    requires { HasRoom (written (lines_at (rules_of book.PresentLenient) octets.now)) page.old }
    ensures { page.new.items ≡ page.old.items ++ written (lines_at (rules_of book.PresentLenient) octets.now) }
{
    put(kind_text(message::octet(octets, 0)), page);
    put_rows(octets, page);
    put_number(b"carried=", carried(octets), page);
}

#[tactic(auto, unfolding(crate::specs::Listing::refusal_lines, crate::specs::Listing::written, crate::specs::Listing::line_text, crate::specs::Listing::number_line, rules::specs::Table::ascii))]
fn put_refusal(fault: Fault, page: &mut Page)
    requires { HasRoom (written (refusal_lines fault)) page.old }
    ensures { page.new.items ≡ page.old.items ++ written (refusal_lines fault) }
{
    put_number(b"refused=", u16::from(fault.number), page);
    put_number(b"at=", fault.place, page);
    put_number(b"in=", u16::from(fault.parameter), page);
}

// The lines of a message, or those of its refusal.
fn put_listing(octets: &[u8], page: &mut Page)
    requires { HasRoom (listing_of (rules_of book.PresentLenient) octets.now) page.old }
    ensures { page.new.items ≡ page.old.items ++ listing_of (rules_of book.PresentLenient) octets.now }
{
    match message::judge(Book::PresentLenient, octets) {
        Ok(_) => put_message(octets, page),
        Err(fault) => put_refusal(fault, page),
    }
}

// The page as it is handed out.
fn text_of(page: &Page) -> ListingText
    ensures { result ≡ buffer_of page.now.items }
{
    let text = page.as_slice();
    let mut octets = [0u8; LONGEST];
    octets[..text.len()].copy_from_slice(text);
    ListingText {
        octets,
        length: text.len(),
    }
}

// What showmsg prints of any octets.
pub fn listing(octets: &[u8]) -> ListingText
    ensures { result ≡ buffer_of (listing_of (rules_of book.PresentLenient) octets.now) }
{
    let mut page: Page = ArrayVec::new();
    put_listing(octets, &mut page);
    text_of(&page)
}

// The parameter type of a row; 0 behind the last, and no Option, since the clause of this public function says a number
// for every i (`row_at`, `no_row`).
#[tactic(auto, using(crate::proofs::Keys::no_row_lem))]
pub fn kind_at(i: usize) -> u8
    ensures { result ≡ (row_at i).kind }
{
    match entry(i) {
        Some(row) => row.kind,
        None => 0,
    }
}

// How many octets the key of a row has; 0 behind the last, as in `kind_at`.
#[tactic(auto, using(crate::proofs::Keys::no_row_lem))]
pub fn key_length(i: usize) -> usize
    ensures { result ≡ length (row_at i).key }
{
    match entry(i) {
        Some(row) => row.key.len(),
        None => 0,
    }
}

// Is this the line of a row with these contents, which fit its class? The row goes by its number, as in `kind_at`: no
// other crate has rows.
#[tactic(auto, using(rules::proofs::Telling::telling), unfolding(crate::specs::Listing::says_line))]
pub fn says(i: usize, contents: &[u8], line: &[u8]) -> bool
    ensures { result ≡ (suc i ≤? row_count and says_line (rules_of book.PresentLenient) (row_at i) contents.now line.now) }
{
    match entry(i) {
        Some(row) => {
            let class = rules::class_of(Book::PresentLenient, row.kind);
            contents::fits(class, contents) && is_line(row, contents, line)
        }
        None => false,
    }
}

// Is this the line of a message's kind?
pub fn says_kind(x: u8, line: &[u8]) -> bool
    ensures { result ≡ same_octets (line_text (kind_line x)) line.now }
{
    rules::same_octets(kind_text(x), line)
}

// Is this the line that no parameter is carried?
#[tactic(auto, using(rules::proofs::Telling::telling), unfolding(crate::specs::Listing::carried_line, crate::specs::Listing::line_text, crate::specs::Numerals::decimal, crate::specs::Numerals::digits_by, rules::specs::Table::ascii))]
pub fn says_end(line: &[u8]) -> bool
    ensures { result ≡ same_octets (line_text (carried_line 0)) line.now }
{
    rules::same_octets(b"carried=0\n", line)
}
