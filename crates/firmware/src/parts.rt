// The record of a part (document 01, The caption): 24 octets, only ever written: which of two slices, where the part
// starts in it and how long it is.
ghost use Rattle.std.specs.Prelude.{◌≡◌, ◌≤◌};
ghost use Rattle.std.proofs.Math.ListN as list;
ghost use Rattle.rules.specs.Laying.{laid};
ghost use Rattle.firmware.specs.PartRecord as record_of;
ghost use Rattle.firmware.specs.Sizes.{part_size};

// The octets of a part's record.
pub(crate) const PART: usize = 24;

// A number in eight octets, the lowest first, over the beginning of what is lent, as C reads it (include/anthercup.h).
fn lay_number(cells: &mut [u8], n: usize)
    requires { 8 ≤ list.length cells.old }
    ensures { cells.new ≡ laid (record_of.low_first 8 n) cells.old }
{
    cells[..8].copy_from_slice(&(n as u64).to_le_bytes());
}

// C: the record's octet 0, the side as a number, and seven octets kept at 0.
#[tactic(auto, unfolding(crate::specs::PartRecord::side_cells, rules::specs::Laying::laid))]
fn lay_side(cells: &mut [u8], side: u8)
    requires { 8 ≤ list.length cells.old }
    ensures { cells.new ≡ laid (record_of.side_cells side) cells.old }
{
    cells[..8].copy_from_slice(&[side, 0, 0, 0, 0, 0, 0, 0]);
}

// The whole record, whatever it held.
pub(crate) fn lay_part(cells: &mut [u8], side: u8, start: usize, length: usize)
    requires { list.length cells.old ≡ part_size }
    ensures { cells.new ≡ record_of.part_record side start length }
{
    lay_side(cells, side);
    lay_number(&mut cells[8..], start);
    lay_number(&mut cells[16..], length);
}
