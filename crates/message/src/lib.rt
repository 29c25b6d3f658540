// Whole messages on a slice: the verdict on any octets (document 01, The message and Numbers), whose parameters
// `turns` goes along; what stands at a place; and where what counts stands.
#![tactic(auto)]

ghost use Rattle.std.specs.Prelude.{◌≡◌, ◌<◌, ◌≤◌, true, length, slice_index};
ghost use Rattle.rules.specs.Table.{rules_of};
ghost use Rattle.rules.specs.Message.{message_kind};
ghost use Rattle.message.specs.Parts.{parameter_at, search_from, counted_at};
ghost use Rattle.message.specs.Verdict.{verdict_at, verdict_of};

use rules::{Book, Fault};

// Where the parameters came to, as a verdict: 8 at the number of octets where these end early, 7 where octets follow
// the message. They are numbers, as `turns::Stop` has them and says why.
#[tactic(auto, using(rules::proofs::Telling::telling), unfolding(crate::specs::Verdict::verdict_at))]
fn verdict_at(s: &[u8], number: u8, place: u16, parameter: u8) -> Result<u16, Fault>
    requires { number ≡ 8 → length s.now < 258 }
    ensures { result ≡ verdict_at s.now number place parameter }
{
    if number == 0 {
        if s.len() == place as usize {
            Ok(place)
        } else {
            Err(rules::noted(7, place))
        }
    } else if number == 8 {
        let end = s.len() as u16;
        Err(rules::noted(8, end))
    } else {
        Err(Fault {
            number,
            place,
            parameter,
        })
    }
}

// L, and then the parameters.
fn sized(book: Book, s: &[u8]) -> Result<u16, Fault>
    requires { (1 ≤ length s.now) × (message_kind (slice_index s.now 0) ≡ true) }
    ensures { result ≡ verdict_of (rules_of book) s.now }
{
    if s.len() <= 1 {
        return Err(rules::noted(8, 1));
    }
    let size = s[1];
    if size < 3 {
        return Err(rules::noted(2, 1));
    }
    let sum = s[0].wrapping_add(size);
    let stop = turns::through(book, &s[2..], size, sum);
    verdict_at(s, stop.number, stop.place + 2, stop.parameter)
}

// The verdict on any octets: 1 to 6 and 10 as the listener gives them; 8 where they end early; 7 where octets follow
// the message. How many there are is asked before each octet, here and in `sized`, and by no slice pattern: 8 tells it.
pub fn judge(book: Book, s: &[u8]) -> Result<u16, Fault>
    ensures { result ≡ verdict_of (rules_of book) s.now }
{
    if s.len() == 0 {
        return Err(rules::noted(8, 0));
    }
    if rules::message_kind(s[0]) {
        sized(book, s)
    } else {
        Err(rules::noted(1, 0))
    }
}

// What stands at a place of a message: the type of a parameter, where its contents start and how long they are; the
// next place is behind them. Start and length, here and in `Part`, and no slice: C's answer has both (octets 3 to 6).
#[derive(Clone, Copy)]
pub struct Found {
    pub kind: u8,
    pub start: usize,
    pub length: u8,
}

// Where contents stand: a part has no type, since it is asked for by one.
#[derive(Clone, Copy)]
pub struct Part {
    pub start: usize,
    pub length: u8,
}

// The octet at a place, 0 beyond the end: octets and place, and no `Option`, as `slice_index` has it.
pub fn octet(s: &[u8], i: usize) -> u8
    ensures { result ≡ slice_index s.now i }
{
    s.get(i).copied().unwrap_or(0)
}

// The parameter that begins at a place, of any octets: of a message, the first begins at 2. Numbers are compared, and
// no slice is matched: contents may be told that end beyond the octets, where there is none.
#[tactic(auto, using(rules::proofs::Telling::telling), unfolding(crate::specs::Parts::parameter_at))]
pub fn parameter(s: &[u8], at: usize) -> Option<Found>
    ensures { result ≡ parameter_at s.now at }
{
    let n = s.len();
    if n < 3 {
        return None;
    }
    if n - 3 < at {
        return None;
    }
    let length = s[at + 1];
    if n - 3 - at < length as usize {
        None
    } else {
        Some(Found {
            kind: s[at],
            start: at + 2,
            length,
        })
    }
}

// The parameters of octets, each behind the one before it, the first at 2; as many as there are turns.
#[derive(Clone, Copy)]
pub struct Parameters<'a> {
    octets: &'a [u8],
    place: usize,
    turns: usize,
}

impl<'a> Parameters<'a> {
    ghost use Rattle.message.specs.Walk.{founds_from, founds_left};

    pub fn new(octets: &'a [u8], turns: usize) -> Parameters<'a>
        ensures { founds_left result ≡ founds_from turns octets.now 2 }
    {
        Parameters {
            octets,
            place: 2,
            turns,
        }
    }
}

impl<'a> Iterator for Parameters<'a> {
    ghost use Rattle.std.specs.Iterator.{YieldsFirst, item_count};
    ghost use Rattle.message.specs.Walk.{founds_left};

    type Item = Found;

    ghost next_gives = { YieldsFirst founds_left };

    ghost remaining = { item_count founds_left };

    fn next(&mut self) -> Option<Found> {
        if self.turns == 0 {
            return None;
        }
        let found = parameter(self.octets, self.place)?;
        self.place = found.start + found.length as usize;
        self.turns -= 1;
        Some(found)
    }
}

fn search(s: &[u8], t: u8, rival: u8) -> Option<Part>
    ensures { result ≡ search_from (length s.now) t rival s.now 2 }
{
    let found = Parameters::new(s, s.len()).find(|found| found.kind == t || found.kind == rival)?;
    if found.kind == t {
        Some(Part {
            start: found.start,
            length: found.length,
        })
    } else {
        None
    }
}

// Where the contents of a type that count stand, in an accepted message.
pub fn counted(book: Book, s: &[u8], t: u8) -> Option<Part>
    ensures { result ≡ counted_at (rules_of book) s.now t }
{
    if rules::is_listed(book, t) {
        search(s, t, rules::rival_of(book, t))
    } else {
        None
    }
}
