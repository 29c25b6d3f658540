// The listener, the reader, the desk, what counts and the caption for the boxes' firmware, which is C: records of
// octets, and answers packed into one word (include/anthercup.h says the same to C).
#![tactic(auto)]

mod desks;
mod drafts;
mod parts;

ghost use Rattle.std.specs.Prelude.{◌≡◌, Ok, ◌+◌, ◌*◌, ◌≤◌, length};
ghost use Rattle.rules.specs.Table.{rules_of};
ghost use Rattle.rules.specs.Editions.{strict, book_of};
ghost use Rattle.listener.specs.Told.{told};
ghost use Rattle.message.specs.Parts.{counted_at};
ghost use Rattle.message.specs.Verdict.{verdict_of};
ghost use Rattle.caption.specs.Caption.{find_in};
ghost use Rattle.reader.specs.Read.{pack_of, area_after};
ghost use Rattle.firmware.specs.Record as record_of;
ghost use Rattle.firmware.specs.Word as word;
ghost use Rattle.firmware.specs.Exports as exports;
ghost use Rattle.firmware.specs.Sizes.{listener_size, draft_size, part_size};

use caption::Shown;
use desks::DESK;
use listener::{Answer, Listener};
use message::Part;
use parts::PART;
use rules::{Fault, Spot, Stage, State};

// The octets of a listener's record.
const LISTENER: usize = 16;

// The octets of a draft's record.
const DRAFT: usize = 688;

// The numbers that a listener's record holds (C: include/anthercup.h has each at its octet): a stage by its number, and
// 0 for what a state does not use. `fields_waiting`, `fields_ended`, `fields_at` and `fields_for` make them so.
#[derive(Clone, Copy)]
struct Fields {
    stage: u8,
    sum: u8,
    place: u16,
    class: u8,
    length: u8,
    index: u8,
    memory: u8,
    room: u8,
    number: u8,
    spare: u32,
    parameter: u8,
}

// C lends each record as a slice, whose size is judged once: what reads or lays it (here, `lay`, `encode`, `read_into`,
// `lay_shown` and `caption_into`) has the size in its `requires`.
#[tactic(auto, unfolding(crate::specs::Record::fields_of))]
fn fields_of(cells: &[u8]) -> Fields
    requires { length cells.now ≡ listener_size }
    ensures { result ≡ record_of.fields_of cells.now }
{
    // place and spare last: where they are read among the others, octets one by one cost 1 in 100 more instructions
    Fields {
        stage: cells[0],
        sum: cells[1],
        class: cells[4],
        length: cells[5],
        index: cells[6],
        memory: cells[7],
        room: cells[8],
        number: cells[9],
        parameter: cells[10],
        spare: u32::from_le_bytes([cells[13], cells[14], cells[15], 0]),
        place: u16::from_le_bytes([cells[2], cells[3]]),
    }
}

// A listener of the record's edition and way, where what its stage does not use is 0 (`ok`, told as `record_of.known`
// has it). No plainer as one value of the two, here, in `opening_of`, `parameter_of`, `ended_of` and `state_of`: a
// Listener holds the two numbers, unknown ones too, for which `listen` answers 16.
#[tactic(auto, using(rules::proofs::Telling::telling), unfolding(crate::specs::Record::known))]
fn known(edition: u8, way: u8, ok: bool, state: State) -> Option<Listener>
    ensures { result ≡ record_of.known edition way ok state }
{
    if ok {
        Some(Listener {
            edition,
            way,
            state,
        })
    } else {
        None
    }
}

// Where a listener stands that waits.
fn spot_of(f: Fields) -> Spot
    ensures { result ≡ record_of.spot_of f }
{
    Spot {
        sum: f.sum,
        place: f.place,
        parameter: f.parameter,
    }
}

// Before a parameter: the message type, L, a parameter type or the checksum is to come. What is unused sums up to
// `idle`, and must be 0.
#[tactic(auto, using(rules::proofs::Telling::telling), unfolding(crate::specs::Record::opening_of))]
fn opening_of(edition: u8, way: u8, f: Fields, idle: u64) -> Option<Listener>
    requires { idle ≤ 10000000000 }
    ensures { result ≡ record_of.opening_of edition way f.stage (record_of.spot_of f) f.room idle }
{
    let spot = spot_of(f);
    match f.stage {
        0 => {
            let state = State::Waiting(Stage::Kind, spot);
            known(edition, way, idle + f.room as u64 == 0, state)
        }
        1 => {
            let state = State::Waiting(Stage::Size, spot);
            known(edition, way, idle + f.room as u64 == 0, state)
        }
        _ => {
            let state = State::Waiting(Stage::Header { room: f.room }, spot);
            known(edition, way, idle == 0, state)
        }
    }
}

// In a parameter: its length or an octet of its contents is to come.
#[tactic(auto, using(rules::proofs::Telling::telling), unfolding(crate::specs::Record::parameter_state))]
fn parameter_of(edition: u8, way: u8, f: Fields) -> Option<Listener>
    ensures { result ≡ record_of.parameter_state edition way f.stage (record_of.spot_of f) f.class f.length f.index f.memory f.room (f.number + f.spare) }
{
    if !rules::code_in(edition, way, f.class) {
        return None;
    }
    let class = rules::class_coded(f.class);
    let idle = f.number as u64 + f.spare as u64;
    let spot = spot_of(f);
    match f.stage {
        3 => {
            let unused = f.length as u64 + f.index as u64 + f.memory as u64 + idle;
            let stage = Stage::Length {
                class,
                room: f.room,
            };
            known(edition, way, unused == 0, State::Waiting(stage, spot))
        }
        _ => {
            let stage = Stage::Content {
                class,
                length: f.length,
                index: f.index,
                memory: f.memory,
                room: f.room,
            };
            known(edition, way, idle == 0, State::Waiting(stage, spot))
        }
    }
}

// A message or a refusal.
#[tactic(auto, using(rules::proofs::Telling::telling), unfolding(crate::specs::Record::ended_of))]
fn ended_of(edition: u8, way: u8, f: Fields, idle: u64) -> Option<Listener>
    requires { idle ≤ 10000000000 }
    ensures { result ≡ record_of.ended_of edition way f.stage f.place f.number f.parameter idle }
{
    match f.stage {
        5 => {
            let unused = idle + f.number as u64 + f.parameter as u64;
            known(edition, way, unused == 0, State::Message(f.place))
        }
        6 => {
            let fault = Fault {
                number: f.number,
                place: f.place,
                parameter: f.parameter,
            };
            known(edition, way, idle == 0, State::Refused(fault))
        }
        _ => None,
    }
}

// What is unused is summed up before the stage is asked for: with the sums in each function octets one by one cost up
// to 2 in 100 more instructions.
#[tactic(auto, using(rules::proofs::Telling::telling), unfolding(crate::specs::Record::state_of))]
fn state_of(edition: u8, way: u8, f: Fields) -> Option<Listener>
    ensures { result ≡ record_of.state_of edition way f }
{
    let inner = f.class as u64 + f.length as u64 + f.index as u64 + f.memory as u64;
    match f.stage {
        0..=2 => opening_of(edition, way, f, inner + f.number as u64 + f.spare as u64),
        3 | 4 => parameter_of(edition, way, f),
        _ => {
            let idle = inner + f.sum as u64 + f.room as u64 + f.spare as u64;
            ended_of(edition, way, f, idle)
        }
    }
}

#[tactic(auto, using(rules::proofs::Telling::telling), unfolding(crate::specs::Record::decode_of))]
fn decode(cells: &[u8]) -> Option<Listener>
    ensures { result ≡ record_of.decode_of cells.now }
{
    if cells.len() != LISTENER {
        return None;
    }
    let edition = cells[11];
    let way = cells[12];
    state_of(edition, way, fields_of(cells))
}

// The fields of a stage; what it does not use is 0. Its arguments stand in place of a struct update over fields of 0:
// that proved, and cost octets one by one up to 2 in 100 more instructions.
#[tactic(auto, unfolding(crate::specs::Record::fields_waiting))]
fn fields_waiting(
    stage: u8,
    q: Spot,
    class: u8,
    length: u8,
    index: u8,
    memory: u8,
    room: u8,
) -> Fields
    ensures { result ≡ record_of.fields_waiting stage q class length index memory room }
{
    Fields {
        stage,
        sum: q.sum,
        place: q.place,
        class,
        length,
        index,
        memory,
        room,
        number: 0,
        spare: 0,
        parameter: q.parameter,
    }
}

#[tactic(auto, unfolding(crate::specs::Record::fields_at))]
fn fields_at(stage: Stage, q: Spot) -> Fields
    ensures { result ≡ record_of.fields_at stage q }
{
    match stage {
        Stage::Kind => fields_waiting(0, q, 0, 0, 0, 0, 0),
        Stage::Size => fields_waiting(1, q, 0, 0, 0, 0, 0),
        Stage::Header { room } => fields_waiting(2, q, 0, 0, 0, 0, room),
        Stage::Length { class, room } => {
            fields_waiting(3, q, rules::code_of(class), 0, 0, 0, room)
        }
        Stage::Content {
            class,
            length,
            index,
            memory,
            room,
        } => fields_waiting(4, q, rules::code_of(class), length, index, memory, room),
    }
}

#[tactic(auto, unfolding(crate::specs::Record::fields_ended))]
fn fields_ended(stage: u8, place: u16, number: u8, parameter: u8) -> Fields
    ensures { result ≡ record_of.fields_ended stage place number parameter }
{
    Fields {
        stage,
        sum: 0,
        place,
        class: 0,
        length: 0,
        index: 0,
        memory: 0,
        room: 0,
        number,
        spare: 0,
        parameter,
    }
}

#[tactic(auto, unfolding(crate::specs::Record::fields_for))]
fn fields_for(s: State) -> Fields
    ensures { result ≡ record_of.fields_for s }
{
    match s {
        State::Waiting(stage, q) => fields_at(stage, q),
        State::Message(n) => fields_ended(5, n, 0, 0),
        State::Refused(f) => fields_ended(6, f.place, f.number, f.parameter),
    }
}

// C: the sixteen octets of the record, each where the header has it.
fn lay(cells: &mut [u8], edition: u8, way: u8, f: Fields)
    requires { length cells.old ≡ listener_size }
    ensures { cells.new ≡ record_of.laid_fields edition way f }
{
    let [low, high] = f.place.to_le_bytes();
    cells[0] = f.stage;
    cells[1] = f.sum;
    cells[2] = low;
    cells[3] = high;
    cells[4] = f.class;
    cells[5] = f.length;
    cells[6] = f.index;
    cells[7] = f.memory;
    cells[8] = f.room;
    cells[9] = f.number;
    cells[10] = f.parameter;
    cells[11] = edition;
    cells[12] = way;
    cells[13] = 0;
    cells[14] = 0;
    cells[15] = 0;
}

fn encode(cells: &mut [u8], l: Listener)
    requires { length cells.old ≡ listener_size }
    ensures { cells.new ≡ record_of.record_of l }
{
    let state = l.state;
    lay(cells, l.edition, l.way, fields_for(state));
}

// C: the word's octets, where the header has them; 0 in what an answer has not. The edition is 0 or 1, and the
// parameter one of at most 85: so the two share an octet. Put together by powers of 256, as `word.packed` has it.
fn packed(edition: u8, number: u8, place: u16, parameter: u8, size: u16, taken: usize) -> u64
    requires { taken ≤ 258 }
    ensures { result ≡ word.packed edition number place parameter size taken }
{
    let low = number as u64 + 256 * (place as u64) + 16777216 * (size as u64);
    let last = (parameter % 128) as u64 + 128 * ((edition % 2) as u64);
    low + 1099511627776 * (taken as u64) + 72057594037927936 * last
}

// A refusal, with its place and its parameter.
fn refused(edition: u8, f: Fault, taken: usize) -> u64
    requires { taken ≤ 258 }
    ensures { result ≡ word.packed edition f.number f.place f.parameter 0 taken }
{
    packed(edition, f.number, f.place, f.parameter, 0, taken)
}

// No plainer as a From, here and in `desk_word`: the edition, and here the octets taken, stand beside the answer.
#[tactic(auto, unfolding(listener::specs::Told::told))]
fn word_of(edition: u8, a: Answer, taken: usize) -> u64
    requires { taken ≤ 258 }
    ensures { result ≡ word.packed edition (told a).number (told a).place (told a).parameter (told a).size taken }
{
    match a {
        Answer::Waits => packed(edition, 0, 0, 0, 0, taken),
        Answer::Message(n) => packed(edition, 0, 0, 0, n, taken),
        Answer::Refused(f) => refused(edition, f, taken),
    }
}

// A refusal by number alone: at place 0, in no parameter, and no edition is named.
fn plain(number: u8) -> u64
    ensures { result ≡ word.packed 0 number 0 0 0 0 }
{
    packed(0, number, 0, 0, 0, 0)
}

// The texts, and the record where they were laid down. The edition and the way are known; they stay numbers here, in
// `counted_by` and in `counted_in`, since the word names the edition by number (`exports.packed_word`).
fn read_into(edition: u8, way: u8, octets: &[u8], cells: &mut [u8], texts: &mut [u8]) -> u64
    requires { length cells.old ≡ draft_size }
    ensures answer { result ≡ exports.packed_word edition (pack_of (rules_of (book_of edition way)) octets.now (length texts.old)) }
    ensures cells { cells.new ≡ exports.record_from (rules_of (book_of edition way)) octets.now cells.old (pack_of (rules_of (book_of edition way)) octets.now (length texts.old)) }
    ensures texts { texts.new ≡ area_after (rules_of (book_of edition way)) octets.now texts.old }
{
    let book = rules::book_of(edition, way);
    let fitting = reader::fits(book, octets, texts.len());
    match fitting {
        Ok(_) => {
            let used = drafts::lay_draft(book, octets, cells, texts);
            packed(edition, 0, 0, 0, used as u16, 0)
        }
        Err(fault) => refused(edition, fault, 0),
    }
}

#[tactic(auto, unfolding(crate::specs::Exports::desk_word, desk::specs::Told::told))]
fn desk_word(edition: u8, a: Result<(), Fault>) -> u64
    ensures { result ≡ exports.desk_word edition a }
{
    match a {
        Ok(_) => packed(edition, 0, 0, 0, 0, 0),
        Err(fault) => refused(edition, fault, 0),
    }
}

// In a message: the contents of a type that count, their length as the size, and their start in octets 5 and 6; 0 and
// 0 where none count.
fn counted_in(edition: u8, way: u8, octets: &[u8], kind: u8) -> u64
    requires { length octets.now ≤ 258 }
    ensures { result ≡ exports.part_word edition (counted_at (rules_of (book_of edition way)) octets.now kind) }
{
    let book = rules::book_of(edition, way);
    let part = message::counted(book, octets, kind);
    match part {
        Some(Part { start, length: n }) => packed(edition, 0, 0, 0, n as u16, start),
        None => packed(edition, 0, 0, 0, 0, 0),
    }
}

// What counts by known numbers, or one of 1 to 8 and 10 with its place.
fn counted_by(edition: u8, way: u8, octets: &[u8], kind: u8) -> u64
    ensures { result ≡ exports.counted_under edition way (verdict_of (rules_of (book_of edition way)) octets.now) octets.now kind }
{
    let book = rules::book_of(edition, way);
    let verdict = message::judge(book, octets);
    match verdict {
        Ok(_) => counted_in(edition, way, octets, kind),
        Err(fault) => refused(edition, fault, 0),
    }
}

// The record of a part: 0 says the message, 1 the directory.
#[tactic(auto, unfolding(crate::specs::Exports::part_from))]
fn lay_shown(cells: &mut [u8], shown: Shown)
    requires { length cells.old ≡ part_size }
    ensures { cells.new ≡ exports.part_from cells.old (Ok shown) }
{
    match shown {
        Shown::InMessage { start, length } => parts::lay_part(cells, 0, start, length),
        Shown::InDirectory { start, length } => parts::lay_part(cells, 1, start, length),
    }
}

// The record of the part that is found; as it was with a refusal. `caption::find` judges the two numbers.
fn caption_into(edition: u8, way: u8, octets: &[u8], directory: &[u8], cells: &mut [u8]) -> u64
    requires { length cells.old ≡ part_size }
    ensures answer { result ≡ exports.found_word (find_in edition way octets.now directory.now) }
    ensures cells { cells.new ≡ exports.part_from cells.old (find_in edition way octets.now directory.now).answer }
{
    let finding = caption::find(edition, way, octets, directory);
    let named = finding.edition;
    match finding.answer {
        Ok(shown) => {
            lay_shown(cells, shown);
            packed(named, 0, 0, 0, 0, 0)
        }
        Err(fault) => refused(named, fault, 0),
    }
}

// C (include/anthercup.h): the exports below have these names, and take an edition and a way as numbers. Those that are
// told both and a record's size ask for the size and then for the numbers themselves: one function for them would be
// handed closures over what C lends, and would be no plainer than two lines of `if`.

// Makes the record that of a new listener of an edition and a way, whatever it holds; another size than 16 is 17, an
// unknown edition or way 16, and the record stays.
pub fn anthercup_reset_way(edition: u8, way: u8, cells: &mut [u8]) -> u64
    ensures { (result ≡ exports.reset_answer edition way cells.old) × (cells.new ≡ exports.reset_record edition way cells.old) }
{
    if cells.len() == LISTENER {
        if rules::is_known(edition, way) {
            encode(cells, listener::reset_way(edition, way));
            packed(edition, 0, 0, 0, 0, 0)
        } else {
            plain(16)
        }
    } else {
        plain(17)
    }
}

// The same in the strict way: where no way is named, types that the edition does not list are refused (document 02,
// Q-11).
pub fn anthercup_reset(edition: u8, cells: &mut [u8]) -> u64
    ensures { (result ≡ exports.reset_answer edition strict cells.old) × (cells.new ≡ exports.reset_record edition strict cells.old) }
{
    anthercup_reset_way(edition, rules::STRICT, cells)
}

// Takes a run of octets. A record of another size, or with a code or number out of range, is 17, one of an unknown
// edition or way 16; both stay as they are.
pub fn anthercup_listen(cells: &mut [u8], octets: &[u8]) -> u64
    ensures { (result ≡ exports.listen_answer cells.old octets.now) × (cells.new ≡ exports.listen_record cells.old octets.now) }
{
    let Some(known) = decode(cells) else {
        return plain(17);
    };
    let heard = listener::listen(known, octets);
    let word = word_of(heard.edition, heard.answer, heard.taken);
    encode(cells, heard.listener);
    word
}

// A whole read: the draft's record and the texts, or one of 1 to 10 with its place and both as they were; a record of
// another size than 688 is 17, then an unknown edition or way 16.
pub fn anthercup_read_way(
    edition: u8,
    way: u8,
    octets: &[u8],
    cells: &mut [u8],
    texts: &mut [u8],
) -> u64
    ensures answer { result ≡ exports.read_answer edition way octets.now cells.old texts.old }
    ensures cells { cells.new ≡ exports.read_record edition way octets.now cells.old texts.old }
    ensures texts { texts.new ≡ exports.read_texts edition way octets.now cells.old texts.old }
{
    if cells.len() == DRAFT {
        if rules::is_known(edition, way) {
            read_into(edition, way, octets, cells, texts)
        } else {
            plain(16)
        }
    } else {
        plain(17)
    }
}

// The same in the strict way: where no way is named, types that the edition does not list are refused (document 02,
// Q-11).
pub fn anthercup_read(edition: u8, octets: &[u8], cells: &mut [u8], texts: &mut [u8]) -> u64
    ensures answer { result ≡ exports.read_answer edition strict octets.now cells.old texts.old }
    ensures cells { cells.new ≡ exports.read_record edition strict octets.now cells.old texts.old }
    ensures texts { texts.new ≡ exports.read_texts edition strict octets.now cells.old texts.old }
{
    anthercup_read_way(edition, rules::STRICT, octets, cells, texts)
}

// Clears a desk: makes the record that of a new one, whatever it holds; another size than 52 is 17.
pub fn anthercup_new_desk(cells: &mut [u8]) -> u64
    ensures { (result ≡ exports.new_desk_answer cells.old) × (cells.new ≡ exports.new_desk_record cells.old) }
{
    if cells.len() == DESK {
        desks::encode(cells, desk::new_desk());
        plain(0)
    } else {
        plain(17)
    }
}

// Settles a whole message on a desk. A record of another size, with a code or number out of range or with a reference
// twice is 17; an unknown edition or way 16; with these, with 1 to 8 and 10 and with 21, where a reference has no
// place, the record stays.
pub fn anthercup_settle(edition: u8, way: u8, cells: &mut [u8], octets: &[u8]) -> u64
    ensures { (result ≡ exports.settle_answer edition way cells.old octets.now) × (cells.new ≡ exports.settle_record edition way cells.old octets.now) }
{
    if !desks::is_record(cells) {
        return plain(17);
    }
    let found = desks::decode(cells);
    let done = desk::settle(edition, way, found, octets);
    desks::encode(cells, done.answer.desk);
    desk_word(done.edition, done.answer.answer)
}

// Where the contents of a type that count stand in a whole message, or one of 1 to 8 and 10 with its place; an unknown
// edition or way is 16.
pub fn anthercup_counted(edition: u8, way: u8, octets: &[u8], kind: u8) -> u64
    ensures { result ≡ exports.counted_answer edition way octets.now kind }
{
    if rules::is_known(edition, way) {
        counted_by(edition, way, octets, kind)
    } else {
        plain(16)
    }
}

// The caption of a whole message: the part's record, or one of 1 to 8 and 10 with its place and the record as it was; a
// record of another size than 24 is 17, then an unknown edition or way 16.
pub fn anthercup_caption(
    edition: u8,
    way: u8,
    octets: &[u8],
    directory: &[u8],
    cells: &mut [u8],
) -> u64
    ensures answer { result ≡ exports.caption_answer edition way octets.now directory.now cells.old }
    ensures cells { cells.new ≡ exports.caption_record edition way octets.now directory.now cells.old }
{
    if cells.len() == PART {
        caption_into(edition, way, octets, directory, cells)
    } else {
        plain(17)
    }
}
