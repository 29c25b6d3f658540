// What the programs share: octets taken from a stream that may end anywhere, and octets and listings put on one. Each
// promise is about the octets that a reader has left and those that a writer holds, where these are known.
#![tactic(auto)]

ghost use Rattle.std.specs.Prelude.{◌≡◌, ◌≤◌, ◌<◌, length, take, vec_len, Some, IfOk, IfSome, IfNone, OnOk};
ghost use Rattle.std.specs.List.{flat_map};
ghost use Rattle.std.specs.Io.{ReadsAtMost};
ghost use Rattle.std.specs.Io.KnownBytes.{Appends, Consumes, IsAtEnd};
ghost use Rattle.rules.specs.Table.{rules_of};
ghost use Rattle.rules.specs.declared.Book.TheVariants as book;
ghost use Rattle.listing.specs.Listing.{listing_of};
ghost use Rattle.streams.specs.Octets.{EndsWithin, two_octets, small_hex};

use std::fmt::Display;
use std::io::{Read, Write};
use std::{fmt, io};

// Fills octets from the first on, put together from as many reads as it takes, and says how many there were. It counts
// by hand, since the place moves on by what a read gave; `take` with `read_to_end` promises no bound of a reader whose
// octets are not known, and `read_exact` not how many octets came before the end.
fn fill<R: Read>(input: &mut R, octets: &mut [u8]) -> io::Result<usize>
    ensures within { ReadsAtMost result octets.new }
    ensures taken { IfOk result (λ got. Consumes (R.remaining input.old) (R.remaining input.new) (take got octets.new)) }
    ensures ended { IfOk result (λ got. got < length octets.new → IsAtEnd (R.remaining input.new)) }
{
    let mut filled = 0;
    while filled < octets.len() {
        let got = input.read(&mut octets[filled..])?;
        if got == 0 {
            break;
        }
        filled += got;
    }
    Ok(filled)
}

// The next octets, as many as there is room for or, where the input ends before, what is left of it. The room is an
// array of the program's (showmsg, makemsg, rows, replay, parts, round): with a Vec it proved, but each program then
// had a heap and could run out of memory, which none of them can.
pub fn up_to<'a, R: Read>(input: &mut R, room: &'a mut [u8]) -> io::Result<&'a [u8]>
    ensures within { IfOk result (λ octets. length octets.now ≤ length room.old) }
    ensures taken { IfOk result (λ octets. Consumes (R.remaining input.old) (R.remaining input.new) octets.now) }
    ensures ended { IfOk result (λ octets. length octets.now < length room.old → IsAtEnd (R.remaining input.new)) }
{
    let got = fill(input, room)?;
    Ok(&room[..got])
}

// The next octets, so many, or none where the input ends before.
pub fn exactly<const N: usize, R: Read>(input: &mut R) -> io::Result<Option<[u8; N]>>
    ensures some { IfOk result (λ head. IfSome head (Consumes (R.remaining input.old) (R.remaining input.new))) }
    ensures none { IfOk result (λ head. IfNone head (EndsWithin N (R.remaining input.old) (R.remaining input.new))) }
{
    let mut octets = [0; N];
    if fill(input, &mut octets)? < N {
        return Ok(None);
    }
    Ok(Some(octets))
}

// The number in the next two octets, the high one first, or none where the input ends before.
pub fn number<R: Read>(input: &mut R) -> io::Result<Option<u16>>
    ensures some { IfOk result (λ told. IfSome told (λ n. Consumes (R.remaining input.old) (R.remaining input.new)
        (two_octets n))) }
    ensures none { IfOk result (λ told. IfNone told (EndsWithin 2 (R.remaining input.old) (R.remaining input.new))) }
{
    let Some(octets) = exactly(input)? else {
        return Ok(None);
    };
    Ok(Some(u16::from_be_bytes(octets)))
}

// Octets as they are printed: two small hex digits each, and nothing between them.
#[derive(Clone, Copy)]
pub struct Hex<'a>(pub &'a [u8]);

impl Display for Hex<'_> {
    ghost output = { λ hex. Some (flat_map small_hex hex.0.now) };

    fn fmt<W: fmt::Write>(&self, f: &mut fmt::Formatter<W>) -> fmt::Result {
        for &x in self.0 {
            write!(f, "{x:02x}")?;
        }
        Ok(())
    }
}

// The listing of any octets, as showmsg prints it.
pub fn list<W: Write>(out: &mut W, octets: &[u8]) -> io::Result<()>
    ensures { OnOk result (Appends (W.contents out.old) (W.contents out.new)
        (listing_of (rules_of book.PresentLenient) octets.now)) }
{
    let listing = listing::listing(octets);
    out.write_all(listing.text())
}

// The most octets that a message has (docs/RULES.md).
pub const MESSAGE: usize = 258;

// The most cases that rows, replay, round and parts read, so that each ends whatever comes. Each `main` goes over its
// cases itself, and each `next` reads its own head: one function for all would be handed the step, and have a `requires`
// that it may be called, which no public function has.
pub const CASES: u64 = 1000000;
