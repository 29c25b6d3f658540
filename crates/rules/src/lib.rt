// What the judge of single octets is made of, and the tests that it needs: the class of a parameter type, the lengths
// of a class and the room they fit; whether two texts are the same, and what a reference of two octets is. What may
// stand in contents is crate `contents`. Every public function is total.
#![tactic(auto)]

ghost use Rattle.std.specs.Prelude.{◌≡◌, true, ◌+◌, ◌*◌, ◌-◌, ◌<◌, MatchResult};
ghost use Rattle.rules.specs.Tests.{◌=?◌, ◌and◌, ◌or◌};
ghost use Rattle.rules.specs.Pairwise.{same_octets};
ghost use Rattle.rules.specs.Octets.{reference_of};
ghost use Rattle.rules.specs.Contents.{within, in_set};
ghost use Rattle.rules.specs.Table.{rules_of, old_book, listed, rowed, class_of, class_fault, rival_of, form_of, form_number, whole, length_fits, row_in, plain_row, rows01, rows_old};
ghost use Rattle.rules.specs.Codes.{class_code, class_coded, old_codes, code_in, other_length, ranges};
ghost use Rattle.rules.specs.declared.Book.TheVariants as book;
ghost use Rattle.rules.specs.Editions.{known, book_of, known_book, named_by};
ghost use Rattle.rules.specs.Editions as editions;
ghost use Rattle.rules.specs.Message.{message_kind};
ghost use Rattle.rules.specs.Judge.{room_fits, range_possible};
ghost use Rattle.rules.specs.Judge as judge;
ghost use Rattle.rules.specs.Refusals as refusals;

// A message has at most so many parameters: each takes three of its 255 octets (document 01, The message).
pub const MOST: usize = 85;

// Contents have at most so many octets: the 255 of a message's parameters less a type and a length (document 01, The
// message).
pub const LONGEST: usize = 253;

// LAST_PRESENT, LAST_LISTED, FIRST_OLD and CARRIED are codes and no classes: octet 4 of C's listener record may hold
// any octet, and `code_in` is promised of each, those of no class too; `old_code` is asked by it.

// The classes of the present edition's rows have the codes from 1 up to this one.
const LAST_PRESENT: u8 = Class::Extension as u8;

// The classes of all editions' rows have the codes from 1 up to this one.
const LAST_LISTED: u8 = Class::OldUser as u8;

// The first of the classes that the old edition alone has.
const FIRST_OLD: u8 = Class::OldNumber as u8;

// The code of carried contents.
const CARRIED: u8 = Class::Carried as u8;

// The classes of contents, in the order of their codes.
#[derive(Clone, Copy, PartialEq, Eq)]
pub enum Class {
    Carried,
    Date,
    Number,
    Absent,
    Name,
    Lamp,
    Identity,
    CallType,
    Waiting,
    Forwarded,
    User,
    ShortText,
    Moment,
    Charge,
    Duration,
    Terminal,
    Display,
    Service,
    Extension,
    OldNumber,
    OldForwarded,
    OldUser,
    Unlisted,
}

// The book of rules: the edition, and the way with types that have no row in it. Four variants, and no struct of two
// enums: `rules_of`, by which every promise names a book, and the theorems have a case for each.
#[derive(Clone, Copy)]
pub enum Book {
    PresentStrict,
    PresentLenient,
    OldStrict,
    OldLenient,
}

// The numbers of the editions, the present one and the old one, and of the ways (document 02, Q-5 and Q-11): types
// without a row are refused by the strict way, and carried by the lenient one. No enums: an unknown number is told from
// outside, kept in a record (C's listener, octets 11 and 12), and answered by 16 (`is_edition`, `is_known`,
// `known_book`).
pub const PRESENT: u8 = 0;

pub const OLD: u8 = 1;

pub const STRICT: u8 = 0;

pub const LENIENT: u8 = 1;

// The kinds of value that a draft holds (document 01, Drafts; document 02, Q-4), in the order of their numbers: a code,
// the numbers of a date, a state with a reference, a text, a carried text; a date that may have seconds, a duration, a
// first octet with a text.
#[derive(Clone, Copy, PartialEq, Eq)]
pub enum Form {
    CodeValue,
    DateValue,
    StateValue,
    TextValue,
    CarriedValue,
    MomentValue,
    DurationValue,
    MarkedValue,
}

impl From<Form> for u8 {
    ghost from_gives = { λ f k. k ≡ form_number f };

    #[tactic(auto, unfolding(crate::specs::Table::form_number))]
    fn from(form: Form) -> u8 {
        form as u8
    }
}

// What the next octet is: the message type, the length L, a parameter type or (no room left) the checksum, a
// parameter length, an octet of contents. Nothing asks if two of Book, Stage, Spot, Fault
// or State are the same: so none of them derives `PartialEq`.
#[derive(Clone, Copy)]
pub enum Stage {
    Kind,
    Size,
    Header {
        room: u8,
    },
    Length {
        class: Class,
        room: u8,
    },
    Content {
        class: Class,
        length: u8,
        index: u8,
        memory: u8,
        room: u8,
    },
}

// The sum of the octets so far modulo 256, how many parameters began in them, and how many octets they are.
#[derive(Clone, Copy)]
pub struct Spot {
    pub sum: u8,
    pub parameter: u8,
    pub place: u16,
}

// The place and the number, and the parameter of the octet there: its number in the message, from 1; 0 where it stands
// in none (document 02, Q-3). Numbers, and 0 for none: so `noted`, the theorems (`Refusals`, `Demand3`) and octets 0
// and 7 of C's answer name a refusal.
#[derive(Clone, Copy)]
pub struct Fault {
    pub place: u16,
    pub number: u8,
    pub parameter: u8,
}

// Three outcomes, and so no `Result`: it waits, has a message of this size, or refuses.
#[derive(Clone, Copy)]
pub enum State {
    Waiting(Stage, Spot),
    Message(u16),
    Refused(Fault),
}

// An answer, and the edition that it names: the one it was told or, where no known one was told, 0.
#[derive(Clone, Copy)]
pub struct Named<A> {
    pub edition: u8,
    pub answer: A,
}

// A refusal that no parameter causes (document 01, Numbers given when the work is declined).
pub fn noted(number: u8, place: u16) -> Fault
    ensures { result ≡ refusals.noted number place }
{
    Fault {
        number,
        place,
        parameter: 0,
    }
}

// Is there an edition of this number?
#[tactic(auto, using(crate::proofs::Telling::telling), unfolding(crate::specs::Editions::edition))]
pub fn is_edition(edition: u8) -> bool
    ensures { result ≡ editions.edition edition }
{
    edition <= OLD
}

// Are there an edition and a way of these numbers? Where there are not, the answer is 16 (document 02, Q-5 and Q-11).
// It stands beside `known_book` since `is_known_settled` names it, and 17 comes ahead of 16 (`listener::listen`).
#[tactic(auto, using(crate::proofs::Telling::telling), unfolding(crate::specs::Editions::known))]
pub fn is_known(edition: u8, way: u8) -> bool
    ensures { result ≡ known edition way }
{
    is_edition(edition) && way <= LENIENT
}

// The book of an edition and a way, known or not, as its clause `book_of` has it, and so no `Option`: of an unknown one
// it is a strict book, by which the range of a listener is judged ahead of 16. Where those are 16, ask `known_book`.
#[tactic(auto, using(crate::proofs::Telling::telling), unfolding(crate::specs::Editions::book_of))]
pub fn book_of(edition: u8, way: u8) -> Book
    ensures { result ≡ book_of edition way }
{
    match (edition, way) {
        (PRESENT, LENIENT) => Book::PresentLenient,
        (OLD, LENIENT) => Book::OldLenient,
        (OLD, _) => Book::OldStrict,
        _ => Book::PresentStrict,
    }
}

// The book of an edition and a way that are known; where one is unknown the answer is 16 (document 02, Q-5 and Q-11).
// What to do with either each of `find`, `step_at`, `read_way` and `write` says itself: one function for them would be
// handed a closure and ask that it may be called, and no public function asks anything.
#[tactic(auto, using(crate::proofs::Telling::telling))]
pub fn known_book(edition: u8, way: u8) -> Option<Book>
    ensures { result ≡ known_book edition way }
{
    if is_known(edition, way) {
        Some(book_of(edition, way))
    } else {
        None
    }
}

// The edition that an answer names which has this number, 0 where it is none: with 16 and 17 it names 0. Both are
// numbers since octets 0 and 7 of C's answer hold them (`named_by`).
#[tactic(auto, using(crate::proofs::Telling::telling), unfolding(crate::specs::Editions::named_by))]
pub fn named_by(number: u8, edition: u8) -> u8
    ensures { result ≡ named_by number edition }
{
    match number {
        16 | 17 => 0,
        _ => edition,
    }
}

// The class of a code; a code of none is read as carried: total, as it promises, beside `TryFrom`.
#[tactic(auto, using(crate::proofs::Codes::or_carried))]
pub fn class_coded(code: u8) -> Class
    ensures { result ≡ class_coded code }
{
    Class::try_from(code).unwrap_or(Class::Carried)
}

// The code of a class, as `From` has it; by this name it is promised (docs/PROMISES.md).
pub fn code_of(c: Class) -> u8
    ensures { result ≡ class_code c }
{
    u8::from(c)
}

impl From<Class> for u8 {
    ghost from_gives = { λ c k. k ≡ class_code c };

    #[tactic(auto, unfolding(crate::specs::Codes::class_code))]
    fn from(class: Class) -> u8 {
        class as u8
    }
}

// A code that no class has.
#[derive(Clone, Copy, PartialEq, Eq)]
pub struct UnknownClass(pub u8);

impl TryFrom<u8> for Class {
    type Error = UnknownClass;

    ghost try_from_gives = { λ k r. MatchResult r (λ c. class_code c ≡ k) (λ e. (e.0 ≡ k) × (22 < k)) };

    #[tactic(auto, unfolding(crate::specs::Codes::class_code))]
    fn try_from(code: u8) -> Result<Class, UnknownClass> {
        match code {
            0 => Ok(Class::Carried),
            1 => Ok(Class::Date),
            2 => Ok(Class::Number),
            3 => Ok(Class::Absent),
            4 => Ok(Class::Name),
            5 => Ok(Class::Lamp),
            6 => Ok(Class::Identity),
            7 => Ok(Class::CallType),
            8 => Ok(Class::Waiting),
            9 => Ok(Class::Forwarded),
            10 => Ok(Class::User),
            11 => Ok(Class::ShortText),
            12 => Ok(Class::Moment),
            13 => Ok(Class::Charge),
            14 => Ok(Class::Duration),
            15 => Ok(Class::Terminal),
            16 => Ok(Class::Display),
            17 => Ok(Class::Service),
            18 => Ok(Class::Extension),
            19 => Ok(Class::OldNumber),
            20 => Ok(Class::OldForwarded),
            21 => Ok(Class::OldUser),
            22 => Ok(Class::Unlisted),
            _ => Err(UnknownClass(code)),
        }
    }
}

// Is it the code of a class that a row of the old edition has: a date, absent, a lamp, a short text, or one of its own?
#[tactic(auto, using(crate::proofs::Telling::telling), unfolding(crate::specs::Contents::in_set, crate::specs::Contents::within))]
fn old_code(code: u8) -> bool
    ensures { result ≡ in_set old_codes code }
{
    matches!(code, 1 | 3 | 5 | 11 | FIRST_OLD..=LAST_LISTED)
}

// Is it the code of a class that a book has: one of the edition's rows, or carried where the way is not the strict one?
// Of an unknown edition, of the rows of any: so edition, way and code stay three numbers and are no book and class.
#[tactic(auto, using(crate::proofs::Telling::telling), unfolding(crate::specs::Codes::code_in))]
pub fn code_in(edition: u8, way: u8, code: u8) -> bool
    ensures { result ≡ code_in edition way code }
{
    match (code, edition) {
        (CARRIED, _) => LENIENT <= way,
        (_, PRESENT) => code <= LAST_PRESENT,
        (_, OLD) => old_code(code),
        _ => code <= LAST_LISTED,
    }
}

#[tactic(auto, unfolding(crate::specs::Table::form_of))]
pub fn form_of(c: Class) -> Form
    ensures { result ≡ form_of c }
{
    match c {
        Class::Date => Form::DateValue,
        Class::Moment => Form::MomentValue,
        Class::Duration => Form::DurationValue,
        Class::Identity => Form::StateValue,
        Class::Terminal | Class::Display => Form::MarkedValue,
        Class::Carried | Class::Unlisted => Form::CarriedValue,
        Class::Number
        | Class::Name
        | Class::ShortText
        | Class::Charge
        | Class::Extension
        | Class::OldNumber => Form::TextValue,
        _ => Form::CodeValue,
    }
}

// The classes of the present edition's types (document 01, The message; document 02, Q-4); every other type has the
// class of types without a row, which is the book's. A match for each edition, this and `old_class`: a slice of rows
// searched for class and rival made a message a fifth to a third dearer.
#[tactic(auto, using(crate::proofs::Telling::telling), unfolding(crate::specs::Table::row_in))]
fn present_class(t: u8, others: Class) -> Class
    ensures { result ≡ (row_in (plain_row t others) rows01 t).class }
{
    match t {
        0x01 => Class::Date,
        0x02 | 0x03 | 0x0E | 0x10 | 0x12 | 0x1A => Class::Number,
        0x04 | 0x08 => Class::Absent,
        0x07 => Class::Name,
        0x0B => Class::Lamp,
        0x0D => Class::Identity,
        0x0F => Class::Moment,
        0x11 => Class::CallType,
        0x13 => Class::Waiting,
        0x15 => Class::Forwarded,
        0x16 => Class::User,
        0x20 | 0x21 | 0x22 => Class::Charge,
        0x23 => Class::Duration,
        0x30 | 0x31 => Class::ShortText,
        0x40 => Class::Terminal,
        0x50 => Class::Display,
        0x55 => Class::Service,
        0xE0 => Class::Extension,
        _ => others,
    }
}

// The same in the old edition (document 02, Q-5). The class of all others is told and no `Option` comes back:
// `plain_row t others` of both contracts has it so.
#[tactic(auto, using(crate::proofs::Telling::telling), unfolding(crate::specs::Table::row_in))]
fn old_class(t: u8, others: Class) -> Class
    ensures { result ≡ (row_in (plain_row t others) rows_old t).class }
{
    match t {
        0x01 => Class::Date,
        0x02 | 0x12 => Class::OldNumber,
        0x04 => Class::Absent,
        0x07 => Class::ShortText,
        0x0B => Class::Lamp,
        0x15 => Class::OldForwarded,
        0x16 => Class::OldUser,
        _ => others,
    }
}

// Is it a book of the old edition?
#[tactic(auto, unfolding(crate::specs::Table::old_book))]
fn is_old(b: Book) -> bool
    ensures { result ≡ old_book b }
{
    matches!(b, Book::OldStrict | Book::OldLenient)
}

// The number of a book's edition.
#[tactic(auto, unfolding(crate::specs::Table::rules_of))]
pub fn edition_of(b: Book) -> u8
    ensures { result ≡ (rules_of b).edition }
{
    match b {
        Book::PresentStrict | Book::PresentLenient => PRESENT,
        Book::OldStrict | Book::OldLenient => OLD,
    }
}

// The class of types without a row: they are carried, or refused.
#[tactic(auto, unfolding(crate::specs::Table::rules_of))]
fn others_of(b: Book) -> Class
    ensures { result ≡ (rules_of b).others }
{
    match b {
        Book::PresentStrict | Book::OldStrict => Class::Unlisted,
        Book::PresentLenient | Book::OldLenient => Class::Carried,
    }
}

// The class of a type: each edition has its table, and the book the class of types without a row.
#[tactic(auto, using(crate::proofs::Rivals::class_is))]
pub fn class_of(b: Book, t: u8) -> Class
    ensures { result ≡ class_of (rules_of b) t }
{
    if is_old(b) {
        old_class(t, others_of(b))
    } else {
        present_class(t, others_of(b))
    }
}

// Has the type a row of the book? One that has none is carried, or refused.
#[tactic(auto, using(crate::proofs::Rivals::listed_are))]
pub fn is_listed(b: Book, t: u8) -> bool
    ensures { result ≡ listed (rules_of b) t }
{
    is_rowed(class_of(b, t))
}

// Is it the class of a row?
#[tactic(auto, unfolding(crate::specs::Table::rowed))]
fn is_rowed(c: Class) -> bool
    ensures { result ≡ rowed c }
{
    !matches!(c, Class::Carried | Class::Unlisted)
}

// The other type of its pair; itself and no `None`, where it is no half of one: `rival_of` has it so.
#[tactic(auto, using(crate::proofs::Telling::telling, crate::proofs::Rivals::rival_is), unfolding(crate::proofs::Rivals::rivals))]
pub fn rival_of(b: Book, t: u8) -> u8
    ensures { result ≡ rival_of (rules_of b) t }
{
    match (edition_of(b), t) {
        (_, 0x02) => 0x04,
        (_, 0x04) => 0x02,
        (PRESENT, 0x07) => 0x08,
        (PRESENT, 0x08) => 0x07,
        _ => t,
    }
}

// Are types without a row refused?
#[tactic(auto, using(crate::proofs::Telling::telling), unfolding(crate::specs::Table::rules_of, crate::specs::Table::class_fault, crate::specs::Table::whole, crate::specs::Contents::some_length))]
pub fn is_strict(b: Book) -> bool
    ensures { result ≡ (class_fault (rules_of b).others =? 10) }
{
    matches!(b, Book::PresentStrict | Book::OldStrict)
}

// The lengths from the least to the most; crate `contents` has a range of its own, of digits.
#[derive(Clone, Copy)]
struct Lengths {
    least: u8,
    most: u8,
}

impl Lengths {
    // Is it one of them?
    fn have(self, n: u8) -> bool
        ensures { result ≡ within (self.least, self.most) n }
    {
        among(self.least, self.most, n)
    }

    // Does one of them fit the room?
    #[tactic(auto, using(crate::proofs::Telling::telling), unfolding(crate::specs::Judge::range_possible))]
    fn may_fit(self, room: u8) -> bool
        ensures { result ≡ range_possible (self.least, self.most) room }
    {
        let least = self.least as u16;
        let most = self.most as u16;
        let wide = room as u16;
        least + 2 <= wide && (wide <= most + 2 || least + 5 <= wide && least <= most)
    }
}

// The length of a class that its range has not, if there is one.
#[tactic(auto, unfolding(crate::specs::Codes::other_length))]
fn other_length(c: Class) -> Option<u8>
    ensures { result ≡ other_length c }
{
    match c {
        Class::Moment => Some(10),
        _ => None,
    }
}

// The range of a class's lengths. Unlisted has none: 1 to 0, as `whole` has it, and so no `Option`.
#[tactic(auto, using(crate::proofs::Telling::telling), unfolding(crate::specs::Codes::other_length, crate::specs::Table::whole, crate::specs::Codes::ranges))]
fn lengths_of(c: Class) -> Lengths
    ensures { (whole c).lengths ≡ ranges result.least result.most (other_length c) }
{
    let (least, most) = match c {
        Class::Date | Class::Moment => (8, 8),
        Class::Number | Class::ShortText => (1, 20),
        Class::Name => (1, 50),
        Class::Identity => (3, 3),
        Class::Charge => (14, 14),
        Class::Duration => (6, 6),
        Class::Terminal => (2, 21),
        Class::Extension => (10, 10),
        Class::OldNumber => (1, 18),
        Class::Display | Class::Carried => (1, 253),
        Class::Unlisted => (1, 0),
        _ => (1, 1),
    };
    Lengths { least, most }
}

// The number given to a type of this class where it cannot stand in its room: 10 where the class has no length at all.
// A number, as `class_fault` has it: it goes into a `Fault`.
#[tactic(auto, using(crate::proofs::Telling::telling), unfolding(crate::specs::Table::class_fault, crate::specs::Table::whole, crate::specs::Contents::some_length, crate::specs::Codes::ranges))]
pub fn class_fault(c: Class) -> u8
    ensures { result ≡ class_fault c }
{
    match c {
        Class::Unlisted => 10,
        _ => 3,
    }
}

// Is a number from the first to the second? Told two numbers, as its clause `within (lo, hi)` has them; `Lengths` asks
// it. Over `contains` of a range a goal stays open.
#[tactic(auto, using(crate::proofs::Telling::telling), unfolding(crate::specs::Contents::within))]
pub fn among(lo: u8, hi: u8, x: u8) -> bool
    ensures { result ≡ within (lo, hi) x }
{
    lo <= x && x <= hi
}

// May contents of the class have this length? The other one is asked for only where the range has failed.
#[tactic(auto, using(crate::proofs::Telling::telling, crate::proofs::OtherLength::lengths_are), unfolding(crate::proofs::OtherLength::is_other))]
fn length_ok(c: Class, n: u8) -> bool
    ensures { result ≡ length_fits c n }
{
    lengths_of(c).have(n) || other_length(c).is_some_and(|other| n == other)
}

// 0 or at least 3 octets are left after a parameter of this length.
#[tactic(auto, using(crate::proofs::Telling::telling), unfolding(crate::specs::Judge::room_fits))]
fn room_ok(n: u8, room: u8) -> bool
    ensures { result ≡ room_fits n room }
{
    let needs = n as u16;
    let wide = room as u16;
    wide == needs + 2 || needs + 5 <= wide
}

// May a parameter of the class have this length in its room?
#[tactic(auto, using(crate::proofs::Telling::telling))]
pub fn length_fits(c: Class, room: u8, n: u8) -> bool
    ensures { result ≡ (length_fits c n and room_fits n room) }
{
    length_ok(c, n) && room_ok(n, room)
}

// Does one of the lengths of the class fit the room?
#[tactic(auto, using(crate::proofs::Telling::telling, crate::proofs::OtherLength::possible_are), unfolding(crate::specs::Judge::possible, crate::proofs::OtherLength::other_possible))]
pub fn possible(c: Class, room: u8) -> bool
    ensures { result ≡ judge.possible c room }
{
    lengths_of(c).may_fit(room)
        || other_length(c).is_some_and(|other| {
            Lengths {
                least: other,
                most: other,
            }
            .may_fit(room)
        })
}

// A call message or a notice. The octet and no enum: `message_kind` is promised of each, and drafts of any message
// type have an answer.
#[tactic(auto, using(crate::proofs::Telling::telling), unfolding(crate::specs::Message::message_kind))]
pub fn message_kind(x: u8) -> bool
    ensures { result ≡ message_kind x }
{
    matches!(x, 0x80 | 0x82)
}

// Are two texts the same, octet by octet? Said by `same_octets`, as std's `==` is not.
#[tactic(auto, using(crate::proofs::Telling::same_is))]
pub fn same_octets(v: &[u8], w: &[u8]) -> bool
    ensures { result ≡ same_octets v.now w.now }
{
    v == w
}

// The reference that two octets of 0DH say, the high one first.
pub fn reference_of(high: u8, low: u8) -> u16
    ensures { result ≡ reference_of high low }
{
    u16::from_be_bytes([high, low])
}
