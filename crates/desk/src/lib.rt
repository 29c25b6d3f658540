// The desk on which notices are settled (document 01, The desk; document 02, Q-6). It goes in by value and comes back
// by value.
#![tactic(auto)]

ghost use Rattle.std.specs.Prelude.{ℕ, ◌≡◌, ◌==◌, position, IfSome, IfNone};
ghost use Rattle.std.proofs.Math.Option.{none, some};
ghost use Rattle.std.proofs.Math.ListN as list;
ghost use Rattle.rules.specs.Tests.{pick};
ghost use Rattle.rules.specs.Table.{rules_of};
ghost use Rattle.rules.specs.Editions.{known, book_of};
ghost use Rattle.desk.specs.References as places_of;
ghost use Rattle.desk.specs.References.{place_with, absent, may_stand, places_fit, change_by, is_full, places_after};
ghost use Rattle.desk.specs.Settle.{new_desk, outcome, counted_in, waiting_after, lamp_after, change_in, change_of, settled_notice, settle_of, settled_by_none, settle_in};

use message::Part;
use rules::{Book, Fault};

// The places for references (document 02, Q-6); one that holds none, and the one that holds the last. They stay the
// array of `Desk.places`, a public field, in `places_fit`, `is_full`, `put` and `places_after` too: a struct around it
// would be made and taken apart in each.
pub const PLACES: usize = 16;

const FREE: u32 = 0;

const LAST: u32 = 65536;

// Three words of the rules, and no Option of a bool: a lamp that is off is not `Some(false)` to a reader.
#[derive(Clone, Copy, PartialEq, Eq)]
pub enum Lamp {
    Unknown,
    Off,
    On,
}

// In a place 0 is free; else it is one more than the reference that it holds. The places (`FREE`, `LAST`, `held`) are
// numbers, and no Options of a reference, since a desk with a place out of range comes in too and is 17:
// `Settles.seventeen` and the row `out_of_range` speak of it. There are always sixteen, with no heap, so an array. The
// number that waits is none until a notice sets it.
#[derive(Clone, Copy)]
pub struct Desk {
    pub waiting: Option<u8>,
    pub lamp: Lamp,
    pub places: [u32; PLACES],
}

// The desk as it then stands, and the answer. The desk is no part of the Result, since it comes back with a refusal
// too: `Settles.refusal_stays`.
#[derive(Clone, Copy)]
pub struct Outcome {
    pub desk: Desk,
    pub answer: Result<(), Fault>,
}

// An outcome, and the edition that its answer names: 0 with 16 and 17 (document 02, Q-5).
pub type Settling = rules::Named<Outcome>;

// What a notice does to a reference: one of three, since 55H is said to do nothing (`change_by`), so no Option.
#[derive(Clone, Copy)]
enum Change {
    Nothing,
    Adds(u16),
    Removes(u16),
}

// No `Default` beside it: it would be a second name of what this function promises, and nothing asks for the trait.
pub fn new_desk() -> Desk
    ensures { result ≡ new_desk }
{
    let places = [FREE; PLACES];
    Desk {
        waiting: None,
        lamp: Lamp::Unknown,
        places,
    }
}

// The first place that is the one sought. It stands apart from `put`, whose proof does not close with `position` in
// line.
fn place_of(sought: u32, places: &[u32]) -> Option<usize>
    ensures { result ≡ position (λ (y : ℕ). y == sought) places.now }
{
    places.iter().position(|&place| place == sought)
}

#[tactic(auto, using(crate::proofs::Holding::absent_is))]
fn is_absent(sought: u32, places: &[u32]) -> bool
    ensures { result ≡ absent sought places.now }
{
    !places.contains(&sought)
}

// Is a place free, or does it hold a reference that no later one holds?
#[tactic(auto, using(rules::proofs::Telling::telling), unfolding(crate::specs::References::may_stand))]
fn may_stand(place: u32, later: &[u32]) -> bool
    ensures { result ≡ may_stand place later.now }
{
    place == FREE || place <= LAST && is_absent(place, later)
}

fn places_fit(places: [u32; PLACES]) -> bool
    ensures { result ≡ places_fit places }
{
    for i in 0..PLACES {
        if !may_stand(places[i], &places[i + 1..]) {
            return false;
        }
    }
    true
}

fn held(reference: u16) -> u32
    ensures { result ≡ places_of.held reference }
{
    u32::from(reference) + 1
}

// Is a reference to be added where all places hold others?
#[tactic(auto, using(rules::proofs::Telling::telling), unfolding(crate::specs::References::is_full))]
fn is_full(places: [u32; PLACES], change: Change) -> bool
    ensures { result ≡ is_full change places }
{
    match change {
        Change::Adds(reference) => {
            is_absent(held(reference), &places) && is_absent(FREE, &places)
        }
        Change::Nothing | Change::Removes(_) => false,
    }
}

// The first place that is the one sought becomes another; where there is none, all stay.
fn put(places: [u32; PLACES], sought: u32, place: u32) -> [u32; PLACES]
    ensures { result ≡ list.set places (place_with sought places) place }
{
    let mut after = places;
    if let Some(at) = place_of(sought, &places) {
        after[at] = place;
    }
    after
}

// A reference that is new takes the lowest free place; the place of one that is taken out is free again. `is_full` asks
// a part of this by itself, since a refusal comes before anything is set.
#[tactic(auto, using(rules::proofs::Telling::telling), unfolding(crate::specs::References::places_after))]
fn places_after(places: [u32; PLACES], change: Change) -> [u32; PLACES]
    ensures { result ≡ places_after change places }
{
    match change {
        Change::Adds(reference) => {
            let place = held(reference);
            if is_absent(place, &places) {
                put(places, FREE, place)
            } else {
                places
            }
        }
        Change::Removes(reference) => put(places, held(reference), FREE),
        Change::Nothing => places,
    }
}

// FFH adds the reference, 00H takes it out, 55H does nothing.
#[tactic(auto, using(rules::proofs::Telling::telling), unfolding(crate::specs::References::change_by))]
fn change_by(state: u8, high: u8, low: u8) -> Change
    ensures { result ≡ change_by state high low }
{
    match state {
        0xFF => Change::Adds(rules::reference_of(high, low)),
        0x00 => Change::Removes(rules::reference_of(high, low)),
        _ => Change::Nothing,
    }
}

// Octet by octet, as the definition says it for contents of any length: a pattern of three would want one answer more,
// for fewer.
#[tactic(auto, unfolding(crate::specs::Settle::change_in))]
fn change_in(contents: &[u8]) -> Change
    ensures { result ≡ change_in contents.now }
{
    let state = message::octet(contents, 0);
    let high = message::octet(contents, 1);
    let low = message::octet(contents, 2);
    change_by(state, high, low)
}

// The contents of a type that count. Types stay numbers, as those of the table: any octet can be one.
fn contents_of<'a>(book: Book, octets: &'a [u8], t: u8) -> Option<&'a [u8]>
    ensures some { IfSome result (λ v. counted_in (rules_of book) octets.now t ≡ some v.now) }
    ensures none { IfNone result (counted_in (rules_of book) octets.now t ≡ none) }
{
    let Part { start, length } = message::counted(book, octets, t)?;
    let end = start + length as usize;
    Some(&octets[start..end])
}

// What a message does to a reference: as 0DH says where it counts.
#[tactic(auto, unfolding(crate::specs::Settle::change_of))]
fn change_of(book: Book, octets: &[u8]) -> Change
    ensures { result ≡ change_of (counted_in (rules_of book) octets.now 0x0D) }
{
    match contents_of(book, octets, 0x0D) {
        Some(contents) => change_in(contents),
        None => Change::Nothing,
    }
}

// The waiting number after a message: set where 13H counts.
#[tactic(auto, unfolding(crate::specs::Settle::waiting_after))]
fn waiting_after(book: Book, old: Option<u8>, octets: &[u8]) -> Option<u8>
    ensures { result ≡ waiting_after (counted_in (rules_of book) octets.now 0x13) old }
{
    match contents_of(book, octets, 0x13) {
        Some(contents) => Some(message::octet(contents, 0)),
        None => old,
    }
}

// The lamp after a message: set where 0BH counts, off with 00H.
#[tactic(auto, using(rules::proofs::Telling::telling), unfolding(crate::specs::Settle::lamp_after))]
fn lamp_after(book: Book, old: Lamp, octets: &[u8]) -> Lamp
    ensures { result ≡ lamp_after (counted_in (rules_of book) octets.now 0x0B) old }
{
    match contents_of(book, octets, 0x0B) {
        Some(contents) if message::octet(contents, 0) == 0x00 => Lamp::Off,
        Some(_) => Lamp::On,
        None => old,
    }
}

// A notice sets what counts; nothing of it where the reference that it adds has no place.
#[tactic(auto, using(rules::proofs::Telling::telling), unfolding(crate::specs::Settle::settled_notice, crate::specs::Settle::noticed, crate::specs::Settle::refused_with))]
fn settle_notice(book: Book, desk: Desk, octets: &[u8]) -> Result<Desk, Fault>
    ensures { outcome desk result ≡ settled_notice (counted_in (rules_of book) octets.now) desk }
{
    let change = change_of(book, octets);
    if is_full(desk.places, change) {
        return Err(rules::noted(21, 0));
    }
    let waiting = waiting_after(book, desk.waiting, octets);
    let lamp = lamp_after(book, desk.lamp, octets);
    let places = places_after(desk.places, change);
    Ok(Desk {
        waiting,
        lamp,
        places,
    })
}

// The desk after a message. One with a place out of range or a reference twice is 17, whatever the octets; then an
// unknown edition or way is 16; octets that the whole read declines with 1 to 8 or 10 get that number; 21 where a
// reference has no place. A call message changes nothing. The kind of message stays the octet that the rules name: an
// enum would be made for one test.
#[tactic(auto, using(rules::proofs::Telling::telling), unfolding(crate::specs::Settle::settle_of, crate::specs::Settle::settled_under, crate::specs::Settle::settled_by_none, crate::specs::Settle::refused_with, crate::specs::Settle::settled_message))]
fn desk_after(edition: u8, way: u8, desk: Desk, octets: &[u8]) -> Result<Desk, Fault>
    ensures { outcome desk result ≡ pick (known edition way) (settle_of (rules_of (book_of edition way)) desk octets.now) (settled_by_none desk) }
{
    if !places_fit(desk.places) {
        return Err(rules::noted(17, 0));
    }
    let Some(book) = rules::known_book(edition, way) else {
        return Err(rules::noted(16, 0));
    };
    message::judge(book, octets)?;
    if message::octet(octets, 0) == 0x82 {
        settle_notice(book, desk, octets)
    } else {
        Ok(desk)
    }
}

// Settles a whole message by an edition and a way: the desk as it then stands, as it was with a refusal. Both stay
// numbers, since unknown ones come in too and are 16: `SettlesBy.sixteen`.
#[tactic(auto, using(rules::proofs::Telling::telling), unfolding(crate::specs::Settle::settle_in, crate::specs::Told::told, rules::specs::Editions::named_by))]
pub fn settle(edition: u8, way: u8, desk: Desk, octets: &[u8]) -> Settling
    ensures { result ≡ settle_in edition way desk octets.now }
{
    match desk_after(edition, way, desk, octets) {
        Ok(after) => Settling {
            edition,
            answer: Outcome {
                desk: after,
                answer: Ok(()),
            },
        },
        Err(fault) => Settling {
            edition: rules::named_by(fault.number, edition),
            answer: Outcome {
                desk,
                answer: Err(fault),
            },
        },
    }
}
