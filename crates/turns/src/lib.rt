// Parameters in turn (document 01, The message): one function takes a header, the other its contents, and they call
// each other while the room falls. What they go along is lent once more (`&&[u8]`), and what they give is one number:
// so the two become one loop that needs no stack for a parameter.
#![tactic(auto)]

ghost use Rattle.std.specs.Prelude.{◌≡◌, ℕ, ◌+◌, ◌-◌, ◌*◌, ◌<◌, ◌≤◌, true, length as long, take, drop};
ghost use Rattle.rules.specs.Table.{Rules, rules_of};
ghost use Rattle.rules.specs.ContentJudge.{passing, judge_of};
ghost use Rattle.turns.specs.Turns.{stop, stop_in, summed, Turned, fits_at, Headed};

use rules::{Book, Class};

// Where octets come to: behind a message (0); to their own end (8), where the last header on the way stands at `place`,
// in a room, with the sum so far and so many parameters before it; or to the octet that spoils the message, with its
// number and the parameter that it stands in, 0 for the checksum. Place and parameter count from the first of the
// octets. Numbers for the ends, as in the word that it is read from: with an enum of the three all proved, and the
// shortest message cost 3 instructions in 100 more, and with what else has changed 7, where 5 are the limit.
#[derive(Clone, Copy)]
pub struct Stop {
    pub number: u8,
    pub parameter: u8,
    pub place: u16,
    pub room: u8,
    pub sum: u8,
}

// A stop as one number, and so in one register: that keeps `header` and `contents` one loop. By powers of 256, word for
// word as `stop_in` has it.
#[tactic(auto, using(crate::proofs::Words::unpacked))]
fn word(number: u8, place: usize, room: u8, sum: u8, parameter: usize) -> u64
    requires { (place ≤ 65535) × (parameter ≤ 255) }
    ensures { stop_in result ≡ stop number place room sum parameter }
{
    let low = number as u64 + 256 * (place as u64) + 16777216 * (room as u64);
    low + 4294967296 * (sum as u64) + 1099511627776 * (parameter as u64)
}

// The sum after the octets from a place to another (000, section 2); writer's `sum_of` begins at 0, and is not below
// this crate.
#[tactic(auto, using(rules::proofs::Sums::summing))]
fn sum_on(s: &[u8], start: usize, end: usize, sum: u8) -> u8
    requires { (start ≤ end) × (end ≤ long s.now) }
    ensures { result ≡ summed sum (take (end - start) (drop start s.now)) }
{
    let mut total = sum;
    for &x in &s[start..end] {
        total = total.wrapping_add(x);
    }
    total
}

// The checksum: a wrapping subtraction from 0, here, in `listener::at_check` and in `writer::put_message`; a function
// for the three would be a call in place of one operation.
fn check(s: &[u8], at: usize, sum: u8) -> u64
    requires { (at ≤ 255) × (at < long s.now) }
    ensures { (R : Rules) (count : ℕ) → Turned R s.now at 0 sum count (stop_in result) }
{
    if s[at] == 0u8.wrapping_sub(sum) {
        word(0, at + 1, 0, 0, 0)
    } else {
        word(6, at, 0, 0, 0)
    }
}

// A header that no contents follow: the checksum, or a type or a length that may not stand, or the octets' own end.
// Octets and place, in `check` and `cut` too, and no slice from there: `Turned` counts places from the first of the
// octets.
fn last(book: Book, s: &[u8], at: usize, room: u8, sum: u8, count: usize) -> u64
    requires { (at + room ≤ 255) × (fits_at (rules_of book) s.now at room ≡ true → long s.now ≤ at + 2) × (3 * count ≤ at) }
    ensures { Turned (rules_of book) s.now at room sum count (stop_in result) }
{
    let n = s.len();
    if n <= at {
        return word(8, at, room, sum, count);
    }
    if room == 0 {
        return check(s, at, sum);
    }
    let class = rules::class_of(book, s[at]);
    if rules::possible(class, room) {
        if n <= at + 1 {
            return word(8, at, room, sum, count);
        }
        if rules::length_fits(class, room, s[at + 1]) {
            word(8, at, room, sum, count)
        } else {
            word(4, at + 1, 0, 0, count + 1)
        }
    } else {
        word(rules::class_fault(class), at, 0, 0, count + 1)
    }
}

// How many octets of contents that are to have this length may stand where they stand, from the first on. The table of
// octets is laid down once for all of them. A walk of its own, beside `contents::short_along` and
// `listener::by_octets`: this one is told a length that the octets may fall short of, and promises `passing`.
fn reached(class: Class, v: &[u8], length: u8) -> usize
    requires { long v.now ≤ 255 }
    ensures { result ≡ passing (judge_of class) length 0 0 v.now }
{
    let kinds = contents::kinds::KINDS;
    let mut memory: u8 = 0;
    for (i, &x) in v.iter().enumerate() {
        let index = i as u8;
        if !contents::content_ok(class, length, index, memory, kinds[x as usize], x) {
            return i;
        }
        memory = contents::remember(class, length, index, memory, x);
    }
    v.len()
}

// Contents in which the octets end.
fn cut(
    book: Book,
    s: &[u8],
    at: usize,
    class: Class,
    length: u8,
    room: u8,
    sum: u8,
    count: usize,
) -> u64
    requires { Headed (rules_of book) s.now at class length room × (long s.now < at + 2 + length) × (3 * count ≤ at) }
    ensures { Turned (rules_of book) s.now at (room + 2 + length) sum count (stop_in result) }
{
    let start = at + 2;
    let good = reached(class, &s[start..], length);
    if start + good < s.len() {
        word(5, start + good, 0, 0, count + 1)
    } else {
        word(8, at, room + 2 + length, sum, count)
    }
}

// The header of a parameter, with so many before it; its contents follow where they are there. Place, room, sum and
// count go one by one, in `last`, `cut` and `contents` too, which each require the same of them: a struct of them would
// be made anew for each call, since all four change there.
#[cycle(contents_header)]
fn header(book: Book, m: &&[u8], at: usize, room: u8, sum: u8, count: usize) -> u64
    requires { (at + room ≤ 255) × (3 * count ≤ at) }
    ensures { Turned (rules_of book) m.now.now at room sum count (stop_in result) }
{
    let s = *m;
    if s.len() <= at + 2 {
        return last(book, s, at, room, sum, count);
    }
    let class = rules::class_of(book, s[at]);
    let length = s[at + 1];
    if rules::length_fits(class, room, length) {
        contents(book, m, at, class, length, room - 2 - length, sum, count)
    } else {
        last(book, s, at, room, sum, count)
    }
}

// The contents of the parameter at a place, in a class and of a length that its header told; the room after them.
#[cycle(contents_header)]
fn contents(
    book: Book,
    m: &&[u8],
    at: usize,
    class: Class,
    length: u8,
    room: u8,
    sum: u8,
    count: usize,
) -> u64
    requires { Headed (rules_of book) m.now.now at class length room × (3 * count ≤ at) }
    ensures { Turned (rules_of book) m.now.now at (room + 2 + length) sum count (stop_in result) }
{
    let s = *m;
    let start = at + 2;
    let end = start + length as usize;
    if s.len() < end {
        return cut(book, s, at, class, length, room, sum, count);
    }
    let good = contents::first_wrong(class, &s[start..end]);
    if good < length as usize {
        return word(5, start + good, 0, 0, count + 1);
    }
    header(book, m, end, room, sum_on(s, at, end, sum), count + 1)
}

// Goes along parameters from the first octet on, in a room and with the sum so far, to the end of the message, of the
// octets, or to the octet that spoils it. The word is taken apart by powers of 256, as `stop_in` has it.
#[tactic(auto, unfolding(crate::specs::Turns::stop_in))]
pub fn through(book: Book, s: &[u8], room: u8, sum: u8) -> Stop
    ensures { Turned (rules_of book) s.now 0 room sum 0 result }
{
    let w = header(book, &s, 0, room, sum, 0);
    Stop {
        number: (w % 256) as u8,
        place: (w / 256 % 65536) as u16,
        room: (w / 16777216 % 256) as u8,
        sum: (w / 4294967296 % 256) as u8,
        parameter: (w / 1099511627776 % 256) as u8,
    }
}
