// Numbers as bytes in either order.

ghost use Rattle.std.specs.Prelude.{◌≡◌, ◌≤◌, ◌<◌, ◌^◌, ◌*◌, ◌++◌, length, drop};
ghost use Rattle.machine_state.specs.Regions.{number_of, bytes_of, words_bytes, words_in};
ghost use Rattle.machine_state.specs.Widths.{width_of};

use crate::layout::Width;
use byteorder::{BigEndian, ByteOrder, LittleEndian};
use ldb_words::Order;

/// The number in the first bytes.
pub fn number(order: Order, bytes: &[u8], width: Width) -> u32
    requires { width_of width ≤ length bytes.now }
    ensures value { result ≡ number_of order (width_of width) bytes.now }
    ensures fits { result < 256 ^ width_of width }
{
    match (width, order) {
        (Width::Byte, _) => u32::from(bytes[0]),
        (Width::Half, Order::Little) => u32::from(LittleEndian::read_u16(bytes)),
        (Width::Half, Order::Big) => u32::from(BigEndian::read_u16(bytes)),
        (Width::Word, Order::Little) => LittleEndian::read_u32(bytes),
        (Width::Word, Order::Big) => BigEndian::read_u32(bytes),
    }
}

/// Writes the lowest bytes of a number over the first bytes.
pub fn write_number(bytes: &mut [u8], order: Order, width: Width, value: u32)
    requires { width_of width ≤ length bytes.old }
    ensures { bytes.new ≡ bytes_of order (width_of width) value ++ drop (width_of width) bytes.old }
{
    match (width, order) {
        (Width::Byte, _) => bytes[0] = (value & 0xff) as u8,
        (Width::Half, Order::Little) => LittleEndian::write_u16(bytes, (value & 0xffff) as u16),
        (Width::Half, Order::Big) => BigEndian::write_u16(bytes, (value & 0xffff) as u16),
        (Width::Word, Order::Little) => LittleEndian::write_u32(bytes, value),
        (Width::Word, Order::Big) => BigEndian::write_u32(bytes, value),
    }
}

/// Writes words over the first bytes, one after another.
pub fn write_words(bytes: &mut [u8], order: Order, words: &[u32])
    requires { 4 * length words.now ≤ length bytes.old }
    ensures { bytes.new ≡ words_bytes order words.now ++ drop (4 * length words.now) bytes.old }
{
    if let [first, rest @ ..] = words {
        write_number(bytes, order, Width::Word, *first);
        write_words(&mut bytes[4..], order, rest);
    }
}

/// Reads words from the first bytes, one after another.
pub fn read_words(bytes: &[u8], order: Order, words: &mut [u32])
    requires { 4 * length words.old ≤ length bytes.now }
    ensures { words.new ≡ words_in order (length words.old) bytes.now }
{
    for (at, word) in words.iter_mut().enumerate() {
        *word = number(order, &bytes[4 * at..], Width::Word);
    }
}
