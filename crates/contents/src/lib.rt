// The octets of contents (document 01, The message; document 02, Q-2, Q-4 and Q-7): whether one may stand where it
// stands and what is remembered of it, octet by octet; how many may stand of contents as a whole, and whether these
// fit their class. Every public function is total.
#![tactic(auto)]

pub mod kinds;

ghost use Rattle.std.specs.Prelude.{◌≡◌, true, [], ◌∷◌, ◌++◌, ◌+◌, ◌*◌, ◌-◌, ◌≤◌};
ghost use Rattle.std.proofs.Math.ListN as list;
ghost use Rattle.rules.specs.Tests.{◌≤?◌, ◌=?◌, ◌and◌, ◌or◌, pick};
ghost use Rattle.rules.specs.Contents.{within, in_set, days, month_of};
ghost use Rattle.rules.specs.Table.{contents_fit, time_ranges, second_range, duration_ranges, display_set};
ghost use Rattle.rules.specs.Charge.{comma, missing, units, amount_by, amount_keep, currency_by, flags_at, flags_keep, charge_by, charge_keep};
ghost use Rattle.rules.specs.Terminal.{terminal_by, terminal_keep};
ghost use Rattle.rules.specs.Extension.{blank, extension_by, extension_keep};
ghost use Rattle.rules.specs.ContentJudge.{tens_by, ones_by, day_by, head_by, tens_fit, ones_fit, calendar_keep, ok_at, pair_stands, good_front};
ghost use Rattle.rules.specs.ContentJudge as content;
ghost use Rattle.rules.specs.OctetRows.{admitted, pair_by, calendar_by, mixed_by, ok_by, mixed, asked_kind, kind_front, ContentKind, Rowed, Short};
ghost use Rattle.rules.specs.OctetRows as rows;
ghost use Rattle.contents.specs.Asked.{asked_of};
ghost use Rattle.rules.specs.declared.Class.TheVariants as class;

use rules::Class;

// The numbers from the first to the second.
type Range = (u8, u8);

// The months, hours and minutes of a date (document 01, The message); seconds are as minutes.
const MONTHS: Range = (1, 12);

const HOURS: Range = (0, 23);

const MINUTES: Range = (0, 59);

// The hours of a duration (document 02, Q-4).
const LONG_HOURS: Range = (0, 99);

// The kinds of content octets: numbers, since each is a bit of a row, and a row has several.
const DIGIT: u8 = 1;

const NUMBER: u8 = 2;

const NAME: u8 = 4;

const LETTER: u8 = 8;

// How the octets of a class are judged: by the code that the first of them is, by the kind that all of them are of, or
// each by a rule of its own. A kind is its bit of a row.
#[derive(Clone, Copy)]
enum Asked {
    Code,
    Kind(u8),
    Mixed,
}

// Octets of a charge that are no digits, and the space of an extension (source 004, 5.4.18 and 5.4.27).
const DASH: u8 = b'-';

const COMMA: u8 = b',';

const SPACE: u8 = b' ';

// An octet beside the row that it is judged by.
#[derive(Clone, Copy)]
struct Octet {
    row: u8,
    value: u8,
}

// Does a row say that the kind admits its octet?
#[tactic(auto, using(rules::proofs::Telling::eq_is), unfolding(rules::specs::OctetRows::admitted))]
fn admits(row: u8, kind: u8) -> bool
    ensures { result ≡ admitted row kind }
{
    row & kind != 0
}

// The value of a digit; 0 below them.
fn digit_of(x: u8) -> u8
    ensures { result ≡ x - 48 }
{
    x.saturating_sub(b'0')
}

// The digits of a date. No twins: tens may begin a number of the range, ones must end one; and `two_digits` goes by
// rows alone, with no digit remembered.
#[tactic(auto, using(rules::proofs::Telling::telling), unfolding(rules::specs::ContentJudge::opens))]
fn tens_ok(range: Range, octet: Octet) -> bool
    ensures { result ≡ tens_by (admitted octet.row 1) range octet.value }
{
    admits(octet.row, DIGIT)
        && {
            let t = 10 * (digit_of(octet.value) as u16);
            range.0 as u16 <= t + 9 && t <= range.1 as u16
        }
}

#[tactic(auto, using(rules::proofs::Telling::telling), unfolding(rules::specs::Contents::within))]
fn ones_ok(range: Range, m: u8, octet: Octet) -> bool
    ensures { result ≡ ones_by (admitted octet.row 1) range m octet.value }
{
    admits(octet.row, DIGIT)
        && {
            let v = 10 * (m as u16) + digit_of(octet.value) as u16;
            range.0 as u16 <= v && v <= range.1 as u16
        }
}

// One of two digits for a number out of the range: the tens, or the ones after the tens m.
#[tactic(auto, using(rules::proofs::Telling::telling))]
fn pair_ok(range: Range, i: u8, m: u8, octet: Octet) -> bool
    ensures { result ≡ pick (i =? 0) (tens_by (admitted octet.row 1) range octet.value) (ones_by (admitted octet.row 1) range m octet.value) }
{
    match i {
        0 => tens_ok(range, octet),
        _ => ones_ok(range, m, octet),
    }
}

// The ones of a day, of which m are left from the tens on: more than 21 only after the tens 0, where 0 makes none.
#[tactic(auto, using(rules::proofs::Telling::telling))]
fn day_ok(m: u8, octet: Octet) -> bool
    ensures { result ≡ day_by (admitted octet.row 1) m octet.value }
{
    admits(octet.row, DIGIT)
        && digit_of(octet.value) <= m
        && (m <= 21 || 1 <= digit_of(octet.value))
}

// Two digits each for the month, a day of that month, the hour and the minute (document 02, Q-2). A match over the
// index and no list of ranges: the day's is what the month left, and is no constant. `moment_ok` goes on from here;
// `duration_ok` has three arms, which a list with a division and a remainder of the index would not make plainer.
#[tactic(auto, using(rules::proofs::Telling::telling))]
fn date_ok(i: u8, m: u8, octet: Octet) -> bool
    ensures { result ≡ calendar_by (admitted octet.row 1) time_ranges i m octet.value }
{
    match i {
        0..=1 => pair_ok(MONTHS, i, m, octet),
        2 => tens_ok((1, m), octet),
        3 => day_ok(m, octet),
        4..=5 => pair_ok(HOURS, i - 4, m, octet),
        6..=7 => pair_ok(MINUTES, i - 6, m, octet),
        _ => true,
    }
}

// Is the octet in one of some ranges, from the first to the second of each?
fn is_in(set: &[Range], x: u8) -> bool
    ensures { result ≡ in_set set.now x }
{
    set.iter().any(|range| rules::among(range.0, range.1, x))
}

// How the octets of a class are judged.
#[tactic(auto, using(rules::proofs::Telling::telling), unfolding(crate::specs::Asked::told, rules::specs::OctetRows::asked_kind))]
fn asked_of(c: Class) -> Asked
    ensures { result ≡ asked_of c }
{
    match c {
        Class::Number => Asked::Kind(NUMBER),
        Class::Name | Class::ShortText => Asked::Kind(NAME),
        Class::OldNumber => Asked::Kind(DIGIT),
        Class::Date
        | Class::Moment
        | Class::Charge
        | Class::Duration
        | Class::Terminal
        | Class::Display
        | Class::Extension => Asked::Mixed,
        _ => Asked::Code,
    }
}

// Are the octets of the class judged by their rows?
#[tactic(auto, using(rules::proofs::Telling::telling, rules::proofs::Telling::eq_is), unfolding(rules::specs::OctetRows::asks, crate::specs::Asked::told))]
pub fn asks(c: Class) -> bool
    ensures { result ≡ rows.asks c }
{
    !matches!(asked_of(c), Asked::Code)
}

// May octet x be the first of contents that are not judged by rows?
#[inline]
#[tactic(auto, using(rules::proofs::Telling::telling), unfolding(rules::specs::ContentJudge::judge_of, rules::specs::ContentJudge::column_at, rules::specs::OctetRows::asked_kind, rules::specs::Contents::in_set, rules::specs::Contents::within))]
fn code_ok(c: Class, x: u8) -> bool
    requires { asked_kind c ≡ 0 }
    ensures { result ≡ ok_at c 0 0 0 x }
{
    match c {
        Class::Absent => matches!(x, 0x4F..=0x50),
        Class::Lamp => matches!(x, 0x00 | 0xFF),
        Class::Identity => matches!(x, 0x00 | 0x55 | 0xFF),
        Class::CallType => matches!(x, 0x01..=0x07 | 0x10..=0x11 | 0x50..=0x51 | 0x81..=0xFF),
        Class::Forwarded => matches!(x, 0x00..=0x06 | 0x80..=0xFF),
        Class::User => matches!(x, 0x00..=0x0F),
        Class::Service => matches!(x, 0x00..=0x01 | 0x80..=0xFF),
        Class::OldForwarded => matches!(x, 0x00..=0x06),
        Class::OldUser => matches!(x, 0x00 | 0x03..=0x05 | 0x0A..=0x0D | 0x0F),
        _ => true,
    }
}

// A date, and two digits for the seconds, if they are sent (source 004, 5.4.10).
#[tactic(auto, using(rules::proofs::Telling::telling))]
fn moment_ok(i: u8, m: u8, octet: Octet) -> bool
    ensures { result ≡ calendar_by (admitted octet.row 1) (time_ranges ++ second_range ∷ []) i m octet.value }
{
    match i {
        0..=7 => date_ok(i, m, octet),
        8..=9 => pair_ok(MINUTES, i - 8, m, octet),
        _ => true,
    }
}

// Two digits each for the hours, the minutes and the seconds (source 004, 5.4.21).
#[tactic(auto, using(rules::proofs::Telling::telling))]
fn duration_ok(i: u8, m: u8, octet: Octet) -> bool
    ensures { result ≡ pair_by (admitted octet.row 1) duration_ranges i m octet.value }
{
    match i {
        0..=1 => pair_ok(LONG_HOURS, i, m, octet),
        2..=3 => pair_ok(MINUTES, i - 2, m, octet),
        4..=5 => pair_ok(MINUTES, i - 4, m, octet),
        _ => true,
    }
}

// Do the flags of a charge say that it is not available (source 004, 5.4.18, bit 4)? By division, here and in
// `in_units`, word for word as `missing` and `units` have it: a function for each, since one with the bit's number
// would say no more.
#[tactic(auto, using(rules::proofs::Telling::telling), unfolding(rules::specs::Charge::missing))]
fn is_missing(flags: u8) -> bool
    ensures { result ≡ missing flags }
{
    flags / 8 % 2 == 1
}

// Do they say that units are charged (bit 5)?
#[tactic(auto, using(rules::proofs::Telling::telling), unfolding(rules::specs::Charge::units))]
fn in_units(flags: u8) -> bool
    ensures { result ≡ units flags }
{
    flags / 16 % 2 == 1
}

// What is remembered is a number, in `currency_ok`, `flags_ok`, `amount_ok` and where it is kept, from `flags_kept` on:
// octet 7 of C's listener record may hold any, and `content_ok` and `remember` are promised of each.

// The second and third octet of a currency, behind letters (0) or dashes (1).
#[tactic(auto, using(rules::proofs::Telling::telling), unfolding(rules::specs::Charge::currency_by, rules::specs::Charge::dash))]
fn currency_ok(m: u8, octet: Octet) -> bool
    ensures { result ≡ currency_by (admitted octet.row 8) m octet.value }
{
    match m {
        0 => admits(octet.row, LETTER),
        1 => octet.value == DASH,
        _ => false,
    }
}

// Flags behind letters (0), which ask for a charge, or dashes (1), which ask that there is none or that it is units.
#[tactic(auto, using(rules::proofs::Telling::telling), unfolding(rules::specs::Charge::flags_at))]
fn flags_ok(m: u8, x: u8) -> bool
    ensures { result ≡ flags_at m x }
{
    match m {
        0 => !is_missing(x),
        1 => is_missing(x) || in_units(x),
        _ => false,
    }
}

// A digit, or this other octet.
#[tactic(auto, using(rules::proofs::Telling::telling))]
fn digit_or(other: u8, octet: Octet) -> bool
    ensures { result ≡ (octet.value =? other or admitted octet.row 1) }
{
    octet.value == other || admits(octet.row, DIGIT)
}

// Octet k of the ten behind the flags, where m is remembered: 0 a cost, 1 behind its comma, 2 units and a price, 3
// behind its comma, 4 units alone, 5 nothing.
#[tactic(auto, using(rules::proofs::Telling::telling), unfolding(rules::specs::Charge::amount_by, rules::specs::Charge::comma, rules::specs::Charge::dash))]
fn amount_ok(m: u8, k: u8, octet: Octet) -> bool
    ensures { result ≡ amount_by (admitted octet.row 1) m k octet.value }
{
    match (m, k) {
        (0, _) => digit_or(COMMA, octet),
        (1 | 3, _) => admits(octet.row, DIGIT),
        (2 | 4, 0..=4) => admits(octet.row, DIGIT),
        (2, _) => digit_or(COMMA, octet),
        (4 | 5, _) => octet.value == DASH,
        _ => false,
    }
}

// Currency, flags, and ten octets that they ask for (source 004, 5.4.18).
#[tactic(auto, using(rules::proofs::Telling::telling), unfolding(rules::specs::Charge::charge_by, rules::specs::Charge::dash))]
fn charge_ok(i: u8, m: u8, octet: Octet) -> bool
    ensures { result ≡ charge_by (admitted octet.row 1) (admitted octet.row 8) i m octet.value }
{
    match i {
        0 => octet.value == DASH || admits(octet.row, LETTER),
        1 | 2 => currency_ok(m, octet),
        3 => flags_ok(m, octet.value),
        4..=13 => amount_ok(m, i - 4, octet),
        _ => true,
    }
}

// What a terminal is selected by: a connection type (01H) where there are two octets, a number or a subaddress. Octets,
// here, in `terminal_ok` and in `terminal_along`: of an enum 01H alone would be asked again.
#[tactic(auto, using(rules::proofs::Telling::telling))]
fn selector_ok(n: usize, x: u8) -> bool
    ensures { result ≡ (within (2, 3) x or (n =? 2 and x =? 1)) }
{
    rules::among(2, 3, x) || n == 2 && x == 1
}

// The selector, then a connection's code, or digits (source 004, 5.4.24).
#[tactic(auto, using(rules::proofs::Telling::telling), unfolding(rules::specs::Terminal::terminal_by))]
fn terminal_ok(n: u8, i: u8, m: u8, octet: Octet) -> bool
    ensures { result ≡ terminal_by (admitted octet.row 2) n i m octet.value }
{
    match (i, m) {
        (0, _) => selector_ok(n as usize, octet.value),
        (_, 1) => octet.value <= 7,
        _ => admits(octet.row, NUMBER),
    }
}

// What a display text is (source 004, 5.4.25).
fn mark_ok(x: u8) -> bool
    ensures { result ≡ in_set display_set x }
{
    is_in(
        &[
            (0x00, 0x01),
            (0x03, 0x06),
            (0x70, 0x7F),
            (0x80, 0x81),
            (0x83, 0x86),
            (0xF0, 0xFF),
        ],
        x,
    )
}

#[tactic(auto, using(rules::proofs::Telling::telling), unfolding(rules::specs::ContentJudge::head_by))]
fn display_ok(i: u8, octet: Octet) -> bool
    ensures { result ≡ head_by (admitted octet.row 4) display_set i octet.value }
{
    match i {
        0 => mark_ok(octet.value),
        _ => admits(octet.row, NAME),
    }
}

// One to three digits and spaces behind them, then seven characters (source 004, 5.4.27).
#[tactic(auto, using(rules::proofs::Telling::telling), unfolding(rules::specs::Extension::extension_by, rules::specs::Extension::blank))]
fn extension_ok(i: u8, m: u8, octet: Octet) -> bool
    ensures { result ≡ extension_by (admitted octet.row 1) (admitted octet.row 4) i m octet.value }
{
    match (i, m) {
        (0, _) => admits(octet.row, DIGIT),
        (2, 1) => octet.value == SPACE,
        (1 | 2, _) => digit_or(SPACE, octet),
        (3..=9, _) => admits(octet.row, NAME),
        _ => true,
    }
}

// May an octet of contents of no one kind stand at index i of n, where m is remembered? Index and what is remembered go
// one by one: a pair of digits behind others is asked by an index of its own.
#[tactic(auto, unfolding(rules::specs::OctetRows::mixed_by))]
fn mixed_ok(c: Class, n: u8, i: u8, m: u8, octet: Octet) -> bool
    ensures { result ≡ mixed_by c n i m octet.row octet.value }
{
    match c {
        Class::Date => date_ok(i, m, octet),
        Class::Moment => moment_ok(i, m, octet),
        Class::Charge => charge_ok(i, m, octet),
        Class::Duration => duration_ok(i, m, octet),
        Class::Terminal => terminal_ok(n, i, m, octet),
        Class::Display => display_ok(i, octet),
        _ => extension_ok(i, m, octet),
    }
}

// May octet x stand at index i of n, where m is remembered? Where the class asks for its row, it goes by the row
// beside it.
#[tactic(auto, using(rules::proofs::Telling::telling), unfolding(rules::specs::OctetRows::ok_by))]
pub fn content_ok(c: Class, n: u8, i: u8, m: u8, row: u8, x: u8) -> bool
    ensures { result ≡ ok_by c n i m row x }
{
    match asked_of(c) {
        Asked::Code => i != 0 || code_ok(c, x),
        Asked::Kind(kind) => admits(row, kind),
        Asked::Mixed => mixed_ok(c, n, i, m, Octet { row, value: x }),
    }
}

// The days of a month; February has 29 (document 02, Q-2). A number: two digits of any octets make it (`days`).
#[tactic(auto, using(rules::proofs::Telling::telling), unfolding(rules::specs::Contents::days, rules::specs::Contents::short_month))]
fn days_in(month: u16) -> u8
    ensures { result ≡ days month }
{
    match month {
        2 => 29,
        4 | 6 | 9 | 11 => 30,
        _ => 31,
    }
}

// The days of the month that octet x makes with the tens: ten times them and a digit, as in `ones_ok`, in u16, since
// they may be any octets; `two_digits` has two digits, and needs u8 alone.
fn month_days(tens: u8, x: u8) -> u8
    ensures { result ≡ days (10 * tens + (x - 48)) }
{
    days_in(10 * (tens as u16) + digit_of(x) as u16)
}

// Of m days, how many are left from the tens on that octet x says.
fn days_left(m: u8, x: u8) -> u8
    ensures { result ≡ m - 10 * (x - 48) }
{
    m.saturating_sub(digit_of(x).saturating_mul(10))
}

// Of a date: the tens of the month, its days, what is left of them; behind the day the digit alone.
#[tactic(auto, using(rules::proofs::Telling::telling), unfolding(rules::specs::ContentJudge::calendar_keep))]
fn date_kept(i: u8, m: u8, x: u8) -> u8
    ensures { result ≡ calendar_keep i m x }
{
    match i {
        1 => month_days(m, x),
        2 => days_left(m, x),
        _ => digit_of(x),
    }
}

// Of a charge: letters or dashes; what the flags ask for; that a comma has come.
#[tactic(auto, using(rules::proofs::Telling::telling), unfolding(rules::specs::Charge::flags_keep))]
fn flags_kept(m: u8, x: u8) -> u8
    ensures { result ≡ flags_keep m x }
{
    match (is_missing(x), in_units(x), m) {
        (true, _, _) => 5,
        (false, false, _) => 0,
        (false, true, 0) => 2,
        (false, true, _) => 4,
    }
}

#[tactic(auto, using(rules::proofs::Telling::telling), unfolding(rules::specs::Charge::amount_keep, rules::specs::Charge::comma))]
fn amount_kept(m: u8, x: u8) -> u8
    ensures { result ≡ amount_keep m x }
{
    match (m, x) {
        (0, COMMA) => 1,
        (2, COMMA) => 3,
        _ => m,
    }
}

#[tactic(auto, using(rules::proofs::Telling::telling), unfolding(rules::specs::Charge::charge_keep, rules::specs::Charge::dash))]
fn charge_kept(i: u8, m: u8, x: u8) -> u8
    ensures { result ≡ charge_keep i m x }
{
    match (i, x) {
        (0, DASH) => 1,
        (1 | 2, _) => m,
        (3, _) => flags_kept(m, x),
        (4..=13, _) => amount_kept(m, x),
        _ => 0,
    }
}

// Of a terminal: that a connection type came first.
#[tactic(auto, using(rules::proofs::Telling::telling), unfolding(rules::specs::Terminal::terminal_keep))]
fn terminal_kept(i: u8, m: u8, x: u8) -> u8
    ensures { result ≡ terminal_keep i m x }
{
    match (i, x) {
        (0, 1) => 1,
        (0, _) => 0,
        _ => m,
    }
}

// Of an extension: that the country has one digit.
#[tactic(auto, using(rules::proofs::Telling::telling), unfolding(rules::specs::Extension::extension_keep, rules::specs::Extension::blank))]
fn extension_kept(i: u8, x: u8) -> u8
    ensures { result ≡ extension_keep i x }
{
    match (i, x) {
        (1, SPACE) => 1,
        _ => 0,
    }
}

// What is remembered after octet x: of a date as the calendar asks; what its own rule asks of a charge, a duration, a
// terminal and an extension; of all others nothing.
#[tactic(auto, unfolding(rules::specs::ContentJudge::judge_of))]
pub fn remember(c: Class, n: u8, i: u8, m: u8, x: u8) -> u8
    ensures { result ≡ content.remember c n i m x }
{
    match c {
        Class::Date | Class::Moment => date_kept(i, m, x),
        Class::Charge => charge_kept(i, m, x),
        Class::Duration => digit_of(x),
        Class::Terminal => terminal_kept(i, m, x),
        Class::Extension => extension_kept(i, x),
        _ => 0,
    }
}

// From here to `first_wrong` the answer is how many octets may stand, all of them where none is wrong, and so no
// `Option`: `good_front` says so. The table of rows is lent to each and its rows required (`Rowed`): named in each it
// would be copied to the stack in each, and a type around it would hold that one constant.

// Octets of a kind, as far as they go: a `for`, since the clause `kind_front` takes the octets off in turn.
fn kind_along(kinds: &[u8], kind: u8, v: &[u8]) -> usize
    requires { Rowed kinds.now × ContentKind kind }
    ensures { result ≡ kind_front kind v.now }
{
    for (i, &x) in v.iter().enumerate() {
        if !admits(kinds[x as usize], kind) {
            return i;
        }
    }
    v.len()
}

// Do two octets make a number out of the range, the tens first?
fn two_digits(range: Range, kinds: &[u8], a: u8, b: u8) -> bool
    requires { Rowed kinds.now }
    ensures { result ≡ (tens_fit range a and ones_fit range (a - 48) b) }
{
    if !admits(kinds[a as usize], DIGIT) {
        return false;
    }
    admits(kinds[b as usize], DIGIT) && rules::among(range.0, range.1, 10 * (a - 48) + (b - 48))
}

// Are there two octets at a place that make a number out of the range? The place counts from the front of the contents,
// as `pair_along` answers and `date_along` compares: from the rest of them each would add its place again.
fn pair_at(range: Range, kinds: &[u8], v: &[u8], at: usize) -> bool
    requires { Rowed kinds.now × (at ≤ 6) }
    ensures { result ≡ (2 ≤? pair_stands range (list.drop at v.now)) }
{
    at + 1 < v.len() && two_digits(range, kinds, v[at], v[at + 1])
}

// Two digits at a place for a number out of the range: the place behind those of them that may stand.
fn pair_along(range: Range, kinds: &[u8], v: &[u8], at: usize) -> usize
    requires { Rowed kinds.now × (at ≤ 6) }
    ensures { result ≡ at + pair_stands range (list.drop at v.now) }
{
    if pair_at(range, kinds, v, at) {
        return at + 2;
    }
    if v.len() <= at {
        return at;
    }
    let x = v[at];
    let octet = Octet {
        row: kinds[x as usize],
        value: x,
    };
    if tens_ok(range, octet) { at + 1 } else { at }
}

// The days of the month that contents begin with.
#[tactic(auto, unfolding(rules::specs::Contents::month_of))]
fn days_along(v: &[u8]) -> u8
    requires { 2 ≤ list.length v.now }
    ensures { result ≡ days (month_of v.now) }
{
    month_days(digit_of(v[0]), v[1])
}

// The digits of a date, as far as they go: month, day, hour and minute.
fn date_along(kinds: &[u8], v: &[u8]) -> usize
    requires { Rowed kinds.now }
    ensures { result ≡ good_front class.Date v.now }
{
    let month = pair_along(MONTHS, kinds, v, 0);
    if month < 2 {
        return month;
    }
    let day = pair_along((1, days_along(v)), kinds, v, 2);
    if day < 4 {
        return day;
    }
    let hour = pair_along(HOURS, kinds, v, 4);
    if hour < 6 {
        return hour;
    }
    let minute = pair_along(MINUTES, kinds, v, 6);
    if minute < 8 {
        return minute;
    }
    v.len()
}

// A selector and what it asks for, as far as they go.
fn terminal_along(kinds: &[u8], v: &[u8]) -> usize
    requires { Rowed kinds.now × (1 ≤ list.length v.now) }
    ensures { result ≡ good_front class.Terminal v.now }
{
    let first = v[0];
    if !selector_ok(v.len(), first) {
        return 0;
    }
    match first {
        1 if v[1] <= 7 => 2,
        1 => 1,
        _ => 1 + kind_along(kinds, NUMBER, &v[1..]),
    }
}

// A display's first octet and its text, as far as they go. No twin of `terminal_along`, which has a third way.
fn display_along(kinds: &[u8], v: &[u8]) -> usize
    requires { Rowed kinds.now × (1 ≤ list.length v.now) }
    ensures { result ≡ good_front class.Display v.now }
{
    if mark_ok(v[0]) {
        1 + kind_along(kinds, NAME, &v[1..])
    } else {
        0
    }
}

// Contents whose octets behind the fourteenth may be any, as far as they go. A walk of its own, beside `turns::reached`
// and `listener::by_octets`: it ends at the fourteenth octet, and promises `good_front`.
fn short_along(c: Class, kinds: &[u8], v: &[u8]) -> usize
    requires { Rowed kinds.now × Short c }
    ensures { result ≡ good_front c v.now }
{
    let n = v.len();
    let mut memory: u8 = 0;
    for index in 0..14 {
        let i = index as usize;
        if n <= i {
            return n;
        }
        let x = v[i];
        let octet = Octet {
            row: kinds[x as usize],
            value: x,
        };
        if !mixed_ok(c, 0, index, memory, octet) {
            return i;
        }
        memory = remember(c, 0, index, memory, x);
    }
    n
}

// Contents of no one kind, as far as they go.
fn mixed_along(c: Class, kinds: &[u8], v: &[u8]) -> usize
    requires { Rowed kinds.now × (asked_kind c ≡ mixed) × (1 ≤ list.length v.now) }
    ensures { result ≡ good_front c v.now }
{
    match c {
        Class::Date => date_along(kinds, v),
        Class::Terminal => terminal_along(kinds, v),
        Class::Display => display_along(kinds, v),
        _ => short_along(c, kinds, v),
    }
}

// Contents that are judged by rows, as far as they go. The table is laid down here, once for all of their octets: where
// a constant array is read it is copied to the stack.
fn by_rows(c: Class, v: &[u8]) -> usize
    requires { (rows.asks c ≡ true) × (1 ≤ list.length v.now) }
    ensures { result ≡ good_front c v.now }
{
    let kinds = kinds::KINDS;
    match asked_of(c) {
        Asked::Kind(kind) => kind_along(&kinds[..], kind, v),
        _ => mixed_along(c, &kinds[..], v),
    }
}

// How many octets of contents may stand where they stand (document 01, The message): all, or those before the first
// that may not.
pub fn first_wrong(c: Class, v: &[u8]) -> usize
    ensures { result ≡ good_front c v.now }
{
    let n = v.len();
    if n == 0 {
        return 0;
    }
    if asks(c) {
        by_rows(c, v)
    } else if code_ok(c, v[0]) {
        n
    } else {
        0
    }
}

// Do contents fit their class (document 01, The message)?
pub fn fits(c: Class, v: &[u8]) -> bool
    ensures { result ≡ contents_fit c v.now }
{
    if rules::LONGEST < v.len() {
        return false;
    }
    let n = v.len() as u8;
    // in a room that the parameter fills
    rules::length_fits(c, n + 2, n) && first_wrong(c, v) == v.len()
}
