//! The numbers of a body.
ghost use Rattle.std.specs.Prelude.{◌≡◌, ◌+◌, ◌*◌, ◌/◌, ◌≤◌, length, slice_index};
ghost use Rattle.time_grid.specs.Numbers.{number_at, number_of_four};
ghost use Rattle.time_grid.specs.Inside.Judging.{IsFirstOver};

use byteorder::{BigEndian, ByteOrder as Endian, LittleEndian};
use node_boxes::GREATEST_TIME;

/// The order in which a number's bytes stand in a body: the lowest first, or the highest first.
#[derive(Clone, Copy, Debug, PartialEq, Eq)]
pub enum ByteOrder {
    Little,
    Big,
}

/// The number that four bytes write, from place `4 * k` on.
pub(crate) fn number_at(order: ByteOrder, bytes: &[u8], k: usize) -> u32
    requires { 4 * k + 4 ≤ length bytes.now }
    ensures { result ≡ number_at order bytes.now k }
{
    number_of_four(order, &bytes[4 * k..4 * k + 4])
}

fn number_of_four(order: ByteOrder, four: &[u8]) -> u32
    requires { length four.now ≡ 4 }
    ensures { result ≡ number_of_four order (slice_index four.now 0) (slice_index four.now 1)
        (slice_index four.now 2) (slice_index four.now 3) }
{
    match order {
        ByteOrder::Little => LittleEndian::read_u32(four),
        ByteOrder::Big => BigEndian::read_u32(four),
    }
}

/// The place, counted in numbers, of the first number of a piece that is past the limit of times.
pub(crate) fn first_over(order: ByteOrder, piece: &[u8]) -> Option<usize>
    ensures { IsFirstOver (number_at order piece.now) (length piece.now / 4) result }
{
    for k in 0..piece.len() / 4 {
        if u64::from(number_at(order, piece, k)) > GREATEST_TIME {
            return Some(k);
        }
    }
    None
}
