// The caption of a message (document 01, The caption): a part of the message or a part of a lent directory. `find`
// says which, where and how long, or a refusal; `caption` returns that part itself, and which in a lent code.
#![tactic(auto)]

ghost use Rattle.std.specs.Prelude.{ℕ, ◌≡◌, ◌==◌, position, ◌+◌, ◌≤◌, ◌<◌, length, take, drop};
ghost use Rattle.rules.specs.Table.{rules_of};
ghost use Rattle.message.specs.Parts.{counted_at};
ghost use Rattle.rules.specs.First.{index_of};
ghost use Rattle.caption.specs.Lines.{names};
ghost use Rattle.caption.specs.Caption.{lookup, by_entry, by_caller, by_name, find_of, find_in, caption_in, code_of};

use message::Part;
use rules::{Book, Fault};

// Where the caption stands. Two variants with the same fields, so that the slice is named where it is cut; and places
// and lengths, no slices, since C is told where and how long: `Shows.side`, `Shows.start` and `Shows.size`.
#[derive(Clone, Copy, PartialEq, Eq)]
pub enum Shown {
    InMessage { start: usize, length: usize },
    InDirectory { start: usize, length: usize },
}

// What is shown, or a refusal, and the edition that the answer names: 0 with 16 (document 02, Q-5).
pub type Finding = rules::Named<Result<Shown, Fault>>;

// Where the text for a caller stands in the directory: a place and a length, as `Shown` has them.
#[derive(Clone, Copy)]
struct CallerText {
    start: usize,
    length: usize,
}

// Where an octet first stands: a function of its own, since `unwrap_or` behind `position` leaves a goal open in one
// piece. relist and desk have one too; one for all would be a public one that says no more than std's.
fn place_of(x: u8, s: &[u8]) -> Option<usize>
    ensures { result ≡ position (λ (y : ℕ). y == x) s.now }
{
    s.iter().position(|&y| y == x)
}

// A line with `=` whose text before the first one is the caller.
#[tactic(auto, using(crate::proofs::Cutting::line_words), unfolding(crate::specs::Lines::before, crate::specs::Lines::names))]
fn is_for(caller: &[u8], line: &[u8]) -> bool
    ensures { result ≡ names caller.now line.now }
{
    match place_of(b'=', line) {
        Some(equals) => rules::same_octets(&line[..equals], caller),
        None => false,
    }
}

// The first line of a text, up to its 0AH; the last perhaps has none.
#[tactic(auto, using(crate::proofs::Cutting::line_words))]
fn line_of(text: &[u8]) -> &[u8]
    ensures { result.now ≡ take (index_of 0x0A text.now) text.now }
{
    let end = place_of(0x0A, text).unwrap_or(text.len());
    &text[..end]
}

// The text after the first `=` on the first line for the caller. The place goes on by what a line takes, so no `for`
// counts it; an iterator over the lines would give each, but not where it stands, which is the answer.
fn entry_for(caller: &[u8], directory: &[u8]) -> Option<CallerText>
    ensures { result ≡ lookup caller.now directory.now }
{
    let mut at: usize = 0;
    while at < directory.len() {
        let line = line_of(&directory[at..]);
        if is_for(caller, line) {
            return Some(CallerText {
                start: at + caller.len() + 1,
                length: line.len() - caller.len() - 1,
            });
        }
        at += line.len() + 1;
    }
    None
}

// For a caller that counts: the directory's text, else the caller. Its place and length come in, and no slice, since
// they are the answer. The message and the directory stay two, here and in `by_caller`, `by_name` and `find_by`: they
// are two parameters of the public `find`, and a struct of both would be made once and taken apart in each.
fn by_entry(message: &[u8], directory: &[u8], start: usize, n: u8) -> Shown
    requires { start + n ≤ length message.now }
    ensures { result ≡ by_entry (lookup (take n (drop start message.now)) directory.now) start n }
{
    let size = n as usize;
    let caller = &message[start..start + size];
    let entry = entry_for(caller, directory);
    match entry {
        Some(CallerText { start, length }) => Shown::InDirectory { start, length },
        None => Shown::InMessage {
            start,
            length: size,
        },
    }
}

// Where no name counts: by the caller, else the empty part at the message's start, and no Option: `Captions.nothing`.
// Types stay numbers, here 02H and in `by_name` 07H: any octet can be one.
fn by_caller(book: Book, message: &[u8], directory: &[u8]) -> Shown
    ensures { result ≡ by_caller (counted_at (rules_of book) message.now 0x02) message.now directory.now }
{
    let part = message::counted(book, message, 0x02);
    match part {
        Some(Part { start, length }) => by_entry(message, directory, start, length),
        None => Shown::InMessage {
            start: 0,
            length: 0,
        },
    }
}

// In an accepted message: the name, else by the caller.
fn by_name(book: Book, message: &[u8], directory: &[u8]) -> Shown
    ensures { result ≡ by_name (rules_of book) (counted_at (rules_of book) message.now 0x07) message.now directory.now }
{
    let part = message::counted(book, message, 0x07);
    match part {
        Some(Part { start, length: n }) => {
            let length = n as usize;
            Shown::InMessage { start, length }
        }
        None => by_caller(book, message, directory),
    }
}

// By a book: which slice, where and how long; octets that the whole read declines with 1 to 8 or 10 get that number.
fn find_by(book: Book, message: &[u8], directory: &[u8]) -> Result<Shown, Fault>
    ensures { result ≡ find_of (rules_of book) message.now directory.now }
{
    message::judge(book, message)?;
    Ok(by_name(book, message, directory))
}

// What is shown, by an edition and a way: 16 where one of them is unknown. So both stay numbers here and in `caption`,
// which are public: `FindsBy.sixteen`.
#[tactic(auto, using(rules::proofs::Telling::telling), unfolding(crate::specs::Caption::find_in))]
pub fn find(edition: u8, way: u8, message: &[u8], directory: &[u8]) -> Finding
    ensures { result ≡ find_in edition way message.now directory.now }
{
    match rules::known_book(edition, way) {
        Some(book) => Finding {
            edition,
            answer: find_by(book, message, directory),
        },
        None => Finding {
            edition: 0,
            answer: Err(rules::noted(16, 0)),
        },
    }
}

// The part that `find` finds, and in the lent code which slice it is part of: 0 the message, 1 the directory. With
// every refusal the empty part at the message's start, and the code as it was; the refusal is `find`'s. The code stays
// a number in a lent octet: the clause `side` says it.
pub fn caption<'a>(
    edition: u8,
    way: u8,
    message: &'a [u8],
    directory: &'a [u8],
    side: &mut u8,
) -> &'a [u8]
    ensures part { result.now ≡ caption_in edition way message.now directory.now }
    ensures side { side.new ≡ code_of (find_in edition way message.now directory.now).answer side.old }
{
    let finding = find(edition, way, message, directory);
    let Ok(shown) = finding.answer else {
        return &message[..0];
    };
    match shown {
        Shown::InMessage { start, length } => {
            *side = 0;
            &message[start..start + length]
        }
        Shown::InDirectory { start, length } => {
            *side = 1;
            &directory[start..start + length]
        }
    }
}
