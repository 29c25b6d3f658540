// The listener: it takes octets in runs of any cut, and waits, has a message of a stated size, or refuses (document
// 01, Listening). It goes in by value and comes back by value, and keeps no octets.
#![tactic(auto)]

ghost use Rattle.std.specs.Prelude.{◌≡◌, ◌<◌, ◌≤◌, T};
ghost use Rattle.std.proofs.Math.ListN as list;
ghost use Rattle.rules.specs.Contents.{within};
ghost use Rattle.rules.specs.Table.{rules_of};
ghost use Rattle.rules.specs.Editions.{strict};
ghost use Rattle.rules.specs.Machine as machine;
ghost use Rattle.rules.specs.OctetRows.{AskedRow, AskedRows};
ghost use Rattle.rules.specs.Tests.{◌=?◌, ◌or◌, pick};
ghost use Rattle.rules.specs.Judge.{given, in_range, place_fits, count_fits};
ghost use Rattle.rules.specs.Judge as judge;
ghost use Rattle.rules.specs.declared.State.TheVariants as state;
ghost use Rattle.rules.specs.declared.Stage.TheVariants as stage;
ghost use Rattle.listener.specs.Heard.{answer_of, run_of, inside_of, Onward, heard_of, new_listener};
ghost use Rattle.listener.specs.Heard as heard;

use rules::{Book, Class, Fault, Spot, Stage, State};

// Edition and way are the numbers told at its reset, known or not (document 02, Q-5 and Q-11): its record in C has
// both, and gives back unknown ones.
#[derive(Clone, Copy)]
pub struct Listener {
    pub edition: u8,
    pub way: u8,
    pub state: State,
}

// Three answers, and so no Result: it waits, has a message of this size, or refuses.
#[derive(Clone, Copy)]
pub enum Answer {
    Waits,
    Message(u16),
    Refused(Fault),
}

// The listener as it then stands, its answer, how many octets of the run it took, the spoiling one counted, and the
// edition that the answer names: 0 with 16 and 17. No `Named` around them: `heard_of` has these four.
#[derive(Clone, Copy)]
pub struct Heard {
    pub listener: Listener,
    pub answer: Answer,
    pub taken: usize,
    pub edition: u8,
}

// Where a run left a state, and how many octets it took.
#[derive(Clone, Copy)]
struct Ran {
    state: State,
    taken: usize,
}

// What stays while contents come: their class, their length, and the room after them.
#[derive(Clone, Copy)]
struct Frame {
    class: Class,
    length: u8,
    room: u8,
}

// What moves with each octet of contents: the index of the one to come, what is remembered, and the spot.
#[derive(Clone, Copy)]
struct Inside {
    index: u8,
    memory: u8,
    spot: Spot,
}

// The spot after an octet that a stage took, which stands in this parameter. A place below 65535 is asked here, in the
// five functions of the stages and in `further`, and is no type of its own: C's record may hold any (octets 2 and 3),
// and `Spot` is what it holds. Book and stage are told, here and to `declined`, since `machine` speaks of both.
#[tactic(auto, using(rules::proofs::Telling::telling), unfolding(rules::specs::Judge::machine))]
fn moved(book: Book, stage: Stage, q: Spot, x: u8, parameter: u8) -> Spot
    requires { (q.place < 65535) × (parameter ≡ judge.stands_in stage q.parameter) }
    ensures { result ≡ machine.moved (judge.machine (rules_of book)) stage q x }
{
    let sum = q.sum.wrapping_add(x);
    Spot {
        sum,
        place: q.place + 1,
        parameter,
    }
}

// An octet that a stage refuses, which stands in this parameter. The refusal by its number, as `machine.declined` has
// it.
#[tactic(auto, using(rules::proofs::Telling::telling), unfolding(rules::specs::Judge::machine))]
fn declined(book: Book, stage: Stage, number: u8, q: Spot, parameter: u8) -> State
    requires { parameter ≡ judge.stands_in stage q.parameter }
    ensures { result ≡ machine.declined (judge.machine (rules_of book)) stage number q }
{
    State::Refused(Fault {
        number,
        place: q.place,
        parameter,
    })
}

// The octet at this index is to come; after the last of them a header, or the checksum.
#[tactic(auto, using(rules::proofs::Telling::telling), unfolding(rules::specs::Judge::contents))]
fn contents(class: Class, length: u8, index: u8, memory: u8, room: u8) -> Stage
    ensures { result ≡ judge.contents class length index memory room }
{
    if index == length {
        Stage::Header { room }
    } else {
        Stage::Content {
            class,
            length,
            index,
            memory,
            room,
        }
    }
}

// What each stage makes of an octet. They take what `onward` took out of the state: a struct of book, spot and octet
// would be made there for one call, and taken apart in it.
fn at_kind(book: Book, q: Spot, x: u8) -> State
    requires { q.place < 65535 }
    ensures { result ≡ machine.step (judge.machine (rules_of book)) (state.Waiting stage.Kind q) x }
{
    if rules::message_kind(x) {
        State::Waiting(Stage::Size, moved(book, Stage::Kind, q, x, 0))
    } else {
        declined(book, Stage::Kind, 1, q, 0)
    }
}

fn at_size(book: Book, q: Spot, x: u8) -> State
    requires { q.place < 65535 }
    ensures { result ≡ machine.step (judge.machine (rules_of book)) (state.Waiting stage.Size q) x }
{
    if 3 <= x {
        State::Waiting(Stage::Header { room: x }, moved(book, Stage::Size, q, x, 0))
    } else {
        declined(book, Stage::Size, 2, q, 0)
    }
}

fn at_check(book: Book, q: Spot, x: u8) -> State
    requires { q.place < 65535 }
    ensures { result ≡ machine.step (judge.machine (rules_of book)) (state.Waiting (stage.Header 0) q) x }
{
    if x == 0u8.wrapping_sub(q.sum) {
        State::Message(q.place + 1)
    } else {
        State::Refused(rules::noted(6, q.place))
    }
}

fn at_header(book: Book, room: u8, q: Spot, x: u8) -> State
    requires { (q.place < 65535) × (q.parameter < 255) }
    ensures { result ≡ machine.step (judge.machine (rules_of book)) (state.Waiting (stage.Header room) q) x }
{
    if room == 0 {
        at_check(book, q, x)
    } else {
        let class = rules::class_of(book, x);
        let begun = q.parameter + 1;
        if rules::possible(class, room) {
            State::Waiting(
                Stage::Length { class, room },
                moved(book, Stage::Header { room }, q, x, begun),
            )
        } else {
            let number = rules::class_fault(class);
            declined(book, Stage::Header { room }, number, q, begun)
        }
    }
}

fn at_length(book: Book, class: Class, room: u8, q: Spot, x: u8) -> State
    requires { q.place < 65535 }
    ensures { result ≡ machine.step (judge.machine (rules_of book)) (state.Waiting (stage.Length class room) q) x }
{
    if rules::length_fits(class, room, x) {
        let next = contents(class, x, 0, 0, room - 2 - x);
        State::Waiting(
            next,
            moved(book, Stage::Length { class, room }, q, x, q.parameter),
        )
    } else {
        declined(book, Stage::Length { class, room }, 4, q, q.parameter)
    }
}

// The octet at this index of contents is to come. Field by field, here and in `onward`: a stage, whose fields its
// definition names, holds no `Frame`.
fn content_at(f: Frame, index: u8, memory: u8) -> Stage
    ensures { result ≡ stage.Content f.class f.length index memory f.room }
{
    let class = f.class;
    Stage::Content {
        class,
        length: f.length,
        index,
        memory,
        room: f.room,
    }
}

// Contents after an octet that may stand in them.
#[tactic(auto, using(rules::proofs::Telling::telling), unfolding(rules::specs::Judge::stands_in, crate::specs::Heard::further))]
fn further(book: Book, f: Frame, index: u8, memory: u8, q: Spot, x: u8) -> Inside
    requires { (index < 255) × (q.place < 65535) }
    ensures { result ≡ heard.further (rules_of book) f index memory q x }
{
    let class = f.class;
    let here = content_at(f, index, memory);
    let kept = contents::remember(class, f.length, index, memory, x);
    let spot = moved(book, here, q, x, q.parameter);
    Inside {
        index: index + 1,
        memory: kept,
        spot,
    }
}

// The row of an octet by the table of octets, where the class asks for it. Else 0 and no `None`: `content_ok` takes a
// row of every class, and what it is matters only where one is asked for (`AskedRow`).
fn row_in(class: Class, kinds: &[u8], x: u8) -> u8
    requires { AskedRows class kinds.now }
    ensures { AskedRow class result x }
{
    if contents::asks(class) {
        kinds[x as usize]
    } else {
        0
    }
}

// Contents as far as they go: to their end, to the octet that spoils them, or to the end of the run. A walk of its own,
// beside `turns::reached` and `contents::short_along`: this one moves a spot too, and promises `Onward`. Run and place
// go together, here and in `along`, `by_turns` and `onward`, since `Onward` counts in the run. That the state is in
// range is required in these and in `run`: `listen` asks it once, and a type of such states would be built anew by each
// stage. Index, memory and spot move as three variables, since each is asked by itself here.
fn by_octets(book: Book, f: Frame, first: Inside, kinds: &[u8], octets: &[u8], from: usize) -> Ran
    requires { T (in_range (rules_of book) (inside_of f first.index first.memory first.spot)) × (from < list.length octets.now) × AskedRows f.class kinds.now }
    ensures { Onward (rules_of book) (inside_of f first.index first.memory first.spot) octets.now from result }
{
    let class = f.class;
    let mut index = first.index;
    let mut memory = first.memory;
    let mut q = first.spot;
    for i in from..octets.len() {
        let x = octets[i];
        let row = row_in(class, kinds, x);
        if !contents::content_ok(class, f.length, index, memory, row, x) {
            let here = content_at(f, index, memory);
            return Ran {
                state: declined(book, here, 5, q, q.parameter),
                taken: i + 1,
            };
        }
        let next = further(book, f, index, memory, q, x);
        index = next.index;
        memory = next.memory;
        q = next.spot;
        if index == f.length {
            return Ran {
                state: State::Waiting(Stage::Header { room: f.room }, q),
                taken: i + 1,
            };
        }
    }
    Ran {
        state: State::Waiting(content_at(f, index, memory), q),
        taken: octets.len(),
    }
}

// Contents as far as they go. The table of octets is laid down where their class asks for it, once for the run; hence
// two calls, the other with an empty table, of which `AskedRows` asks nothing.
fn along(book: Book, f: Frame, first: Inside, octets: &[u8], from: usize) -> Ran
    requires { T (in_range (rules_of book) (inside_of f first.index first.memory first.spot)) × (from < list.length octets.now) }
    ensures { Onward (rules_of book) (inside_of f first.index first.memory first.spot) octets.now from result }
{
    let class = f.class;
    if contents::asks(class) {
        let kinds = contents::kinds::KINDS;
        by_octets(book, f, first, &kinds[..], octets, from)
    } else {
        by_octets(book, f, first, &octets[..0], octets, from)
    }
}

// The parameter of an octet that spoils a message: none at the checksum, which is 0 in a `Fault` and in C's answer.
#[tactic(auto, using(rules::proofs::Telling::telling))]
fn parameter_of(number: u8, begun: u8) -> u8
    ensures { result ≡ pick (number =? 6) 0 begun }
{
    if number == 6 { 0 } else { begun }
}

// Parameters from a header on: to the message or the refusal that they come to, or to the last header on the way; one
// octet where that is this one. The ends are numbers, as `turns::Stop` has them and says why.
fn by_turns(book: Book, room: u8, q: Spot, octets: &[u8], i: usize) -> Ran
    requires { T (in_range (rules_of book) (state.Waiting (stage.Header room) q)) × (i < list.length octets.now) }
    ensures { Onward (rules_of book) (state.Waiting (stage.Header room) q) octets.now i result }
{
    let stop = turns::through(book, &octets[i..], room, q.sum);
    let gone = i + stop.place as usize;
    let place = q.place + stop.place;
    let begun = q.parameter + stop.parameter;
    match (stop.number, stop.place) {
        (0, _) => Ran {
            state: State::Message(place),
            taken: gone,
        },
        (8, 0) => Ran {
            state: at_header(book, room, q, octets[i]),
            taken: i + 1,
        },
        (8, _) => {
            let spot = Spot {
                sum: stop.sum,
                place,
                parameter: begun,
            };
            Ran {
                state: State::Waiting(Stage::Header { room: stop.room }, spot),
                taken: gone,
            }
        }
        _ => {
            let fault = Fault {
                number: stop.number,
                place,
                parameter: parameter_of(stop.number, begun),
            };
            Ran {
                state: State::Refused(fault),
                taken: gone + 1,
            }
        }
    }
}

// One octet further; as far as contents go; or, where a whole parameter can follow, as far as parameters go. A match
// and no table of functions, since each stage carries something else; each arm says what it took, since two of them
// jump.
fn onward(book: Book, stage: Stage, q: Spot, octets: &[u8], i: usize) -> Ran
    requires { T (in_range (rules_of book) (state.Waiting stage q)) × (i < list.length octets.now) }
    ensures { Onward (rules_of book) (state.Waiting stage q) octets.now i result }
{
    let x = octets[i];
    match stage {
        Stage::Kind => Ran {
            state: at_kind(book, q, x),
            taken: i + 1,
        },
        Stage::Size => Ran {
            state: at_size(book, q, x),
            taken: i + 1,
        },
        Stage::Header { room } => {
            if octets.len() - i < 3 {
                Ran {
                    state: at_header(book, room, q, x),
                    taken: i + 1,
                }
            } else {
                by_turns(book, room, q, octets, i)
            }
        }
        Stage::Length { class, room } => Ran {
            state: at_length(book, class, room, q, x),
            taken: i + 1,
        },
        Stage::Content {
            class,
            length,
            index,
            memory,
            room,
        } => {
            let frame = Frame {
                class,
                length,
                room,
            };
            let inside = Inside {
                index,
                memory,
                spot: q,
            };
            along(book, frame, inside, octets, i)
        }
    }
}

// Refusals are numbers here, in `in_parameter`, `named` and `fault_in_range`: octet 9 of C's record may hold any.
#[tactic(auto, using(rules::proofs::Telling::telling), unfolding(rules::specs::Judge::given, rules::specs::Contents::within))]
fn known_number(book: Book, k: u8) -> bool
    ensures { result ≡ given (rules_of book) k }
{
    (1..=6).contains(&k) || (k == 10 && rules::is_strict(book))
}

// A match over the stages here and one in `count_fits`: a definition each, and one match would hold both for each
// stage.
#[tactic(auto, using(rules::proofs::Telling::telling), unfolding(rules::specs::Judge::place_fits, rules::specs::Contents::within))]
fn place_fits(stage: Stage, at: u16) -> bool
    ensures { result ≡ place_fits stage at }
{
    let place = at as u32;
    match stage {
        Stage::Kind => at == 0,
        Stage::Size => at == 1,
        Stage::Header { room } => (5..=257).contains(&(place + room as u32)),
        Stage::Length { room, .. } => 1 <= room && (6..=258).contains(&(place + room as u32)),
        Stage::Content {
            length,
            index,
            room,
            ..
        } => {
            let i = index as u32;
            index < length && (5 + i..=257 + i).contains(&(place + length as u32 + room as u32))
        }
    }
}

#[tactic(auto, using(rules::proofs::Telling::telling), unfolding(rules::specs::Judge::amid))]
fn amid(count: u32, index: u32, place: u32) -> bool
    requires { (count ≤ 255) × (index ≤ 256) }
    ensures { result ≡ judge.amid count index place }
{
    1 <= count && 3 * count + index <= place
}

#[tactic(auto, using(rules::proofs::Telling::telling), unfolding(rules::specs::Judge::count_fits, rules::specs::Judge::behind))]
fn count_fits(stage: Stage, at: u16, parameter: u8) -> bool
    ensures { result ≡ count_fits stage at parameter }
{
    let place = at as u32;
    let count = parameter as u32;
    match stage {
        Stage::Kind | Stage::Size => parameter == 0,
        Stage::Header { .. } => 3 * count + 2 <= place,
        Stage::Length { .. } => amid(count, 0, place),
        Stage::Content { index, .. } => amid(count, 1 + index as u32, place),
    }
}

// Is it the number of a type, a length or contents, which stand in a parameter?
#[tactic(auto, using(rules::proofs::Telling::telling), unfolding(rules::specs::Contents::within))]
fn in_parameter(number: u8) -> bool
    ensures { result ≡ (within (3, 5) number or number =? 10) }
{
    (3..=5).contains(&number) || number == 10
}

#[tactic(auto, using(rules::proofs::Telling::telling), unfolding(rules::specs::Judge::named, rules::specs::Contents::within))]
fn named(number: u8, parameter: u8) -> bool
    ensures { result ≡ judge.named number parameter }
{
    if in_parameter(number) {
        (1..=rules::MOST).contains(&(parameter as usize))
    } else {
        parameter == 0
    }
}

#[tactic(auto, using(rules::proofs::Telling::telling), unfolding(rules::specs::Judge::in_range))]
fn fault_in_range(book: Book, f: Fault) -> bool
    ensures { result ≡ in_range (rules_of book) (state.Refused f) }
{
    known_number(book, f.number) && f.place <= 257 && named(f.number, f.parameter)
}

#[tactic(auto, using(rules::proofs::Telling::telling), unfolding(rules::specs::Judge::in_range))]
fn spot_in_range(book: Book, stage: Stage, q: Spot) -> bool
    ensures { result ≡ in_range (rules_of book) (state.Waiting stage q) }
{
    place_fits(stage, q.place) && count_fits(stage, q.place, q.parameter)
}

#[tactic(auto, using(rules::proofs::Telling::telling), unfolding(rules::specs::Judge::in_range, rules::specs::Contents::within))]
fn in_range(book: Book, s: State) -> bool
    ensures { result ≡ in_range (rules_of book) s }
{
    match s {
        State::Waiting(stage, q) => spot_in_range(book, stage, q),
        State::Message(n) => (6..=258).contains(&n),
        State::Refused(f) => fault_in_range(book, f),
    }
}

fn run(book: Book, s: State, octets: &[u8]) -> Ran
    requires { T (in_range (rules_of book) s) }
    ensures { result ≡ run_of (judge.machine (rules_of book)) s octets.now }
{
    let mut cur = s;
    let mut i = 0;
    // the place jumps by what a stage took
    while i < octets.len() {
        let State::Waiting(stage, q) = cur else {
            break;
        };
        let next = onward(book, stage, q, octets, i);
        cur = next.state;
        i = next.taken;
    }
    Ran {
        state: cur,
        taken: i,
    }
}

// What a state answers: less than it holds. The state comes back beside it, in `Heard`'s listener, so no answer has a
// stage.
impl From<State> for Answer {
    ghost from_gives = { λ s a. a ≡ answer_of s };

    #[tactic(auto, using(rules::proofs::Telling::telling), unfolding(crate::specs::Heard::answer_of))]
    fn from(s: State) -> Answer {
        match s {
            State::Waiting(_, _) => Answer::Waits,
            State::Message(n) => Answer::Message(n),
            State::Refused(f) => Answer::Refused(f),
        }
    }
}

// A refusal that no octet causes: nothing is taken, the listener comes back as it was, and no edition is named. It is
// told by its number, as `untaken` has it.
#[tactic(auto, using(rules::proofs::Telling::telling))]
fn untaken(l: Listener, number: u8) -> Heard
    ensures { result ≡ heard.untaken number l }
{
    Heard {
        listener: l,
        answer: Answer::Refused(rules::noted(number, 0)),
        taken: 0,
        edition: 0,
    }
}

// A new listener; a listener is reset by putting a new one in its place. It keeps the numbers told, unknown ones too.
#[tactic(auto, unfolding(crate::specs::Heard::new_listener, rules::specs::Judge::machine))]
pub fn reset_way(edition: u8, way: u8) -> Listener
    ensures { result ≡ new_listener edition way }
{
    Listener {
        edition,
        way,
        state: State::Waiting(
            Stage::Kind,
            Spot {
                sum: 0,
                place: 0,
                parameter: 0,
            },
        ),
    }
}

// A new listener of the strict way: where no way is named, types that the edition does not list are refused (document
// 02, Q-11). C has a call for this and one for `reset_way`.
pub fn reset(edition: u8) -> Listener
    ensures { result ≡ new_listener edition strict }
{
    reset_way(edition, rules::STRICT)
}

// Takes a run of octets, none included. A listener out of range gets 17, then one whose edition or way is unknown 16;
// both come back as they were. 17 comes first, and asks a book of unknown numbers too: hence not `known_book`.
pub fn listen(l: Listener, octets: &[u8]) -> Heard
    ensures { result ≡ heard_of l octets.now }
{
    let book = rules::book_of(l.edition, l.way);
    if !in_range(book, l.state) {
        return untaken(l, 17);
    }
    if !rules::is_known(l.edition, l.way) {
        return untaken(l, 16);
    }
    let ran = run(book, l.state, octets);
    Heard {
        listener: Listener {
            state: ran.state,
            ..l
        },
        answer: ran.state.into(),
        taken: ran.taken,
        edition: l.edition,
    }
}
