// The desk's record (document 01, The desk; document 02, Q-6): 52 octets, judged before anything else and written
// whole. C lends it as a slice, whose size is judged once, by `is_record`: so what reads or lays it has the size in its
// `requires`.
ghost use Rattle.std.specs.Prelude.{◌≡◌, ◌++◌, ◌≤◌, length, take, drop};
ghost use Rattle.rules.specs.Laying.{laid};
ghost use Rattle.desk.specs.References.{place_count};
ghost use Rattle.firmware.specs.DeskRecord as record_of;
ghost use Rattle.firmware.specs.Sizes.{desk_size};

use desk::{Desk, Lamp, PLACES};

// The octets of a desk's record.
pub(crate) const DESK: usize = 52;

// C: the record's octets 0 and 1, here, in `waiting_of`, `waiting_code` and `waiting_number`: 0 unknown, and then no
// number; 1 known.
#[tactic(auto, using(rules::proofs::Telling::telling), unfolding(crate::specs::DeskRecord::is_waiting))]
fn is_waiting(code: u8, number: u8) -> bool
    ensures { result ≡ record_of.is_waiting code number }
{
    match code {
        0 => number == 0,
        _ => code == 1,
    }
}

#[tactic(auto, using(rules::proofs::Telling::telling), unfolding(crate::specs::DeskRecord::waiting_of))]
fn waiting_of(code: u8, number: u8) -> Option<u8>
    ensures { result ≡ record_of.waiting_of code number }
{
    match code {
        0 => None,
        _ => Some(number),
    }
}

// C: the record's octet 2, here and in `lamp_code`: 0 unknown, 1 off, 2 on. Total, since `is_desk` has judged the code
// before: a TryFrom would refuse once more.
#[tactic(auto, using(rules::proofs::Telling::telling), unfolding(crate::specs::DeskRecord::lamp_of))]
fn lamp_of(code: u8) -> Lamp
    ensures { result ≡ record_of.lamp_of code }
{
    match code {
        0 => Lamp::Unknown,
        1 => Lamp::Off,
        _ => Lamp::On,
    }
}

#[tactic(auto, using(rules::proofs::Telling::telling), unfolding(crate::specs::DeskRecord::is_desk))]
fn is_desk(code: u8, number: u8, lamp: u8, spare: u8) -> bool
    ensures { result ≡ record_of.is_desk code number lamp spare }
{
    is_waiting(code, number) && lamp <= 2 && spare == 0
}

// Size and codes; what the places hold is for the desk to judge.
#[tactic(auto, using(rules::proofs::Telling::telling), unfolding(crate::specs::DeskRecord::is_record))]
pub(crate) fn is_record(cells: &[u8]) -> bool
    ensures { result ≡ record_of.is_record cells.now }
{
    cells.len() == DESK && is_desk(cells[0], cells[1], cells[2], cells[3])
}

// A place: three octets, the low one first, as C has it; the fourth of a u32 is 0.
#[tactic(auto, unfolding(crate::specs::DeskRecord::place_in))]
fn place_in(cells: &[u8]) -> u32
    ensures { result ≡ record_of.place_in cells.now }
{
    let low = message::octet(cells, 0);
    let middle = message::octet(cells, 1);
    let high = message::octet(cells, 2);
    u32::from_le_bytes([low, middle, high, 0])
}

// Place by place and not by `from_fn`: the clause says the whole list, which `record_of.places_in` takes off in turn.
fn places_in(cells: &[u8]) -> [u32; PLACES]
    requires { length cells.now ≡ desk_size }
    ensures { result ≡ record_of.places_in place_count (drop 4 cells.now) }
{
    let mut places = [0u32; PLACES];
    for i in 0..PLACES {
        places[i] = place_in(&cells[4 + 3 * i..]);
    }
    places
}

pub(crate) fn decode(cells: &[u8]) -> Desk
    requires { length cells.now ≡ desk_size }
    ensures { result ≡ record_of.desk_in cells.now }
{
    let waiting = waiting_of(cells[0], cells[1]);
    let lamp = lamp_of(cells[2]);
    let places = places_in(cells);
    Desk {
        waiting,
        lamp,
        places,
    }
}

#[tactic(auto, unfolding(crate::specs::DeskRecord::waiting_code))]
fn waiting_code(waiting: Option<u8>) -> u8
    ensures { result ≡ record_of.waiting_code waiting }
{
    u8::from(waiting.is_some())
}

#[tactic(auto, unfolding(crate::specs::DeskRecord::waiting_number))]
fn waiting_number(waiting: Option<u8>) -> u8
    ensures { result ≡ record_of.waiting_number waiting }
{
    waiting.unwrap_or(0)
}

#[tactic(auto, unfolding(crate::specs::DeskRecord::lamp_code))]
fn lamp_code(l: Lamp) -> u8
    ensures { result ≡ record_of.lamp_code l }
{
    l as u8
}

// The three octets of a place, over the beginning of what is lent.
fn lay_place(cells: &mut [u8], place: u32)
    requires { 3 ≤ length cells.old }
    ensures { cells.new ≡ laid (record_of.place_cells place) cells.old }
{
    let [low, middle, high, _] = place.to_le_bytes();
    cells[0] = low;
    cells[1] = middle;
    cells[2] = high;
}

// Each place where it stands, behind the first four octets.
fn lay_places(cells: &mut [u8], places: [u32; PLACES])
    requires { length cells.old ≡ desk_size }
    ensures { cells.new ≡ take 4 cells.old ++ record_of.places_cells places }
{
    for (i, &place) in places.iter().enumerate() {
        lay_place(&mut cells[4 + 3 * i..], place);
    }
}

// C: the record's first four octets, each where the header has it, and the places.
pub(crate) fn encode(cells: &mut [u8], d: Desk)
    requires { length cells.old ≡ desk_size }
    ensures { cells.new ≡ record_of.desk_record d }
{
    let waiting = d.waiting;
    let lamp = d.lamp;
    let places = d.places;
    let code = waiting_code(waiting);
    let number = waiting_number(waiting);
    let light = lamp_code(lamp);
    cells[0] = code;
    cells[1] = number;
    cells[2] = light;
    cells[3] = 0;
    lay_places(cells, places);
}
