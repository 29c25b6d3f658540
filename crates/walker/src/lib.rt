// The parameters of one lent message, one at a time (document 01, Drafts): a walker holds the message and a place, and
// the edition and the way that it is told (document 02, Q-5). The work is done on the slice and the place: `step_at`
// says what stands there, `place_after` where the next call goes.
#![tactic(auto)]

ghost use Rattle.std.specs.Prelude.{◌≡◌, Ok};
ghost use Rattle.rules.specs.Table.{rules_of};
ghost use Rattle.rules.specs.Message.{most};
ghost use Rattle.walker.specs.Steps.{walk_from, step_of, step_in, next_place};
ghost use Rattle.walker.specs.Moves.{Begun, Seen, Moved};

use message::Parameters;
use rules::{Book, Fault};

// A parameter: its type, where its contents start, how long they are, and the place behind them. It is flat, though the
// first three are message's `Found`: `given` says the four side by side, and a struct in it would only add a step.
#[derive(Clone, Copy, PartialEq, Eq)]
pub struct Parameter {
    pub kind: u8,
    pub start: usize,
    pub length: u8,
    pub next: usize,
}

// What stands at a place, a parameter or none, or a refusal; and the edition that the answer names: 0 with 16 (document
// 02, Q-5).
pub type Stepped = rules::Named<Result<Option<Parameter>, Fault>>;

// The parameter that begins at a place: parameters begin at 2 and behind one another, 85 at most.
fn walk_to(message: &[u8], at: usize) -> Option<Parameter>
    ensures { Ok result ≡ walk_from most message.now at 2 }
{
    let mut place: usize = 2;
    for found in Parameters::new(message, rules::MOST) {
        let next = found.start + found.length as usize;
        if place == at {
            return Some(Parameter {
                kind: found.kind,
                start: found.start,
                length: found.length,
                next,
            });
        }
        place = next;
    }
    None
}

// By a book: what stands at a place; octets that the whole read declines with 1 to 8 or 10 get that number, at every
// place.
fn step_by(book: Book, message: &[u8], at: usize) -> Result<Option<Parameter>, Fault>
    ensures { result ≡ step_of (rules_of book) message.now at }
{
    message::judge(book, message)?;
    Ok(walk_to(message, at))
}

// What stands at a place, by an edition and a way: 16 where one of them is unknown, at every place. So both stay
// numbers, here, in `place_after`, `new` and `Walker`: `WalksBy.sixteen`. The four are a walker's fields, but this
// function is public and takes them by themselves, and `place_after` says where its answer goes on.
#[tactic(auto, using(rules::proofs::Telling::telling), unfolding(crate::specs::Steps::step_in))]
pub fn step_at(edition: u8, way: u8, message: &[u8], at: usize) -> Stepped
    ensures { result ≡ step_in edition way message.now at }
{
    match rules::known_book(edition, way) {
        Some(book) => Stepped {
            edition,
            answer: step_by(book, message, at),
        },
        None => Stepped {
            edition: 0,
            answer: Err(rules::noted(16, 0)),
        },
    }
}

// The place of the next call: behind the parameter that begins at a place, the same place where none does.
#[tactic(auto, unfolding(crate::specs::Steps::next_place))]
fn place_after(edition: u8, way: u8, message: &[u8], at: usize) -> usize
    ensures { result ≡ next_place at (step_in edition way message.now at).answer }
{
    let stepped = step_at(edition, way, message, at);
    match stepped.answer {
        Ok(Some(parameter)) => parameter.next,
        Ok(None) | Err(_) => at,
    }
}

// A slice and a place in it, and no iterator: `next` moves on by what stands there and stays after the last, and
// `Begun`, `Seen` and `Moved` say so of `new`, `look` and `next`, which are public and so stay functions.
#[derive(Clone, Copy)]
pub struct Walker<'a> {
    pub message: &'a [u8],
    pub place: usize,
    pub edition: u8,
    pub way: u8,
}

// A walker before the first parameter, told its edition and its way.
pub fn new<'a>(edition: u8, way: u8, message: &'a [u8]) -> Walker<'a>
    ensures { Begun edition way message.entry result }
{
    Walker {
        message,
        place: 2,
        edition,
        way,
    }
}

// What stands at the walker's place.
pub fn look<'a>(w: Walker<'a>) -> Stepped
    ensures { Seen w.entry result }
{
    step_at(w.edition, w.way, w.message, w.place)
}

// The walker moved on, to the place of the next call.
pub fn next<'a>(w: Walker<'a>) -> Walker<'a>
    ensures { Moved w.entry result }
{
    let place = place_after(w.edition, w.way, w.message, w.place);
    Walker { place, ..w }
}
