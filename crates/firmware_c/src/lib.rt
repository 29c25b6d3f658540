// The exports of the archive for the boxes' firmware, which is C (include/anthercup.h): each calls the function of its
// name in `firmware` and promises the same. C: the names, and an edition and a way as two numbers, are the header's.
#![tactic(auto)]

ghost use Rattle.std.specs.Prelude.{◌≡◌};
ghost use Rattle.rules.specs.Editions.{strict};
ghost use Rattle.firmware.specs.Exports as exports;

// Makes the record that of a new listener of an edition and a way, whatever it holds; another size than 16 is 17, an
// unknown edition or way 16, and the record stays.
#[unsafe(no_mangle)]
pub extern "C" fn anthercup_reset_way(edition: u8, way: u8, cells: &mut [u8]) -> u64
    ensures { (result ≡ exports.reset_answer edition way cells.old) × (cells.new ≡ exports.reset_record edition way cells.old) }
{
    firmware::anthercup_reset_way(edition, way, cells)
}

// The same in the strict way: where no way is named, types that the edition does not list are refused
// (docs/LENIENT.md).
#[unsafe(no_mangle)]
pub extern "C" fn anthercup_reset(edition: u8, cells: &mut [u8]) -> u64
    ensures { (result ≡ exports.reset_answer edition strict cells.old) × (cells.new ≡ exports.reset_record edition strict cells.old) }
{
    firmware::anthercup_reset(edition, cells)
}

// Takes a run of octets. A record of another size, or with a code or number out of range, is 17, one of an unknown
// edition or way 16; both stay as they are.
#[unsafe(no_mangle)]
pub extern "C" fn anthercup_listen(cells: &mut [u8], octets: &[u8]) -> u64
    ensures { (result ≡ exports.listen_answer cells.old octets.now) × (cells.new ≡ exports.listen_record cells.old octets.now) }
{
    firmware::anthercup_listen(cells, octets)
}

// A whole read: the draft's record and the texts, or one of 1 to 10 with its place and both as they were; a record of
// another size than 688 is 17, then an unknown edition or way 16.
#[unsafe(no_mangle)]
pub extern "C" fn anthercup_read_way(
    edition: u8,
    way: u8,
    octets: &[u8],
    cells: &mut [u8],
    texts: &mut [u8],
) -> u64
    ensures answer { result ≡ exports.read_answer edition way octets.now cells.old texts.old }
    ensures cells { cells.new ≡ exports.read_record edition way octets.now cells.old texts.old }
    ensures texts { texts.new ≡ exports.read_texts edition way octets.now cells.old texts.old }
{
    firmware::anthercup_read_way(edition, way, octets, cells, texts)
}

// The same in the strict way: where no way is named, types that the edition does not list are refused
// (docs/LENIENT.md).
#[unsafe(no_mangle)]
pub extern "C" fn anthercup_read(
    edition: u8,
    octets: &[u8],
    cells: &mut [u8],
    texts: &mut [u8],
) -> u64
    ensures answer { result ≡ exports.read_answer edition strict octets.now cells.old texts.old }
    ensures cells { cells.new ≡ exports.read_record edition strict octets.now cells.old texts.old }
    ensures texts { texts.new ≡ exports.read_texts edition strict octets.now cells.old texts.old }
{
    firmware::anthercup_read(edition, octets, cells, texts)
}

// Clears a desk: makes the record that of a new one, whatever it holds; another size than 52 is 17.
#[unsafe(no_mangle)]
pub extern "C" fn anthercup_new_desk(cells: &mut [u8]) -> u64
    ensures { (result ≡ exports.new_desk_answer cells.old) × (cells.new ≡ exports.new_desk_record cells.old) }
{
    firmware::anthercup_new_desk(cells)
}

// Settles a whole message on a desk. A record of another size, with a code or number out of range or with a reference
// twice is 17; an unknown edition or way 16; with these, with 1 to 8 and 10 and with 21, where a reference has no
// place, the record stays.
#[unsafe(no_mangle)]
pub extern "C" fn anthercup_settle(edition: u8, way: u8, cells: &mut [u8], octets: &[u8]) -> u64
    ensures { (result ≡ exports.settle_answer edition way cells.old octets.now) × (cells.new ≡ exports.settle_record edition way cells.old octets.now) }
{
    firmware::anthercup_settle(edition, way, cells, octets)
}

// Where the contents of a type that count stand in a whole message, or one of 1 to 8 and 10 with its place; an unknown
// edition or way is 16.
#[unsafe(no_mangle)]
pub extern "C" fn anthercup_counted(edition: u8, way: u8, octets: &[u8], kind: u8) -> u64
    ensures { result ≡ exports.counted_answer edition way octets.now kind }
{
    firmware::anthercup_counted(edition, way, octets, kind)
}

// The caption of a whole message: the part's record, or one of 1 to 8 and 10 with its place and the record as it was; a
// record of another size than 24 is 17, then an unknown edition or way 16.
#[unsafe(no_mangle)]
pub extern "C" fn anthercup_caption(
    edition: u8,
    way: u8,
    octets: &[u8],
    directory: &[u8],
    cells: &mut [u8],
) -> u64
    ensures answer { result ≡ exports.caption_answer edition way octets.now directory.now cells.old }
    ensures cells { cells.new ≡ exports.caption_record edition way octets.now directory.now cells.old }
{
    firmware::anthercup_caption(edition, way, octets, directory, cells)
}
