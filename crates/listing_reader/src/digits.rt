//! The bytes that hexadecimal digits are, without a branch at each digit.
ghost use Rattle.std.specs.Prelude.{◌≡◌, ◌+◌, ◌*◌, ◌/◌, ◌%◌, ◌≤◌, length, nat_lt, slice_index, true};
ghost use Rattle.std.specs.List.{list_all};
ghost use Rattle.hex.specs.Hex.{decode_of, is_hex_digit};
ghost use Rattle.listing_reader.specs.HexValues.{value_of, AreBytesOf};

/// Whether each byte is a hexadecimal digit, in either case.
pub(crate) fn are_digits(text: &[u8]) -> bool
    ensures { result ≡ list_all is_hex_digit text.now }
{
    let mut worst = 0;
    for byte in text {
        worst = worst.max(distance(*byte));
    }
    worst < 10
}

/// Writes the bytes of hexadecimal digits, two a byte.
pub(crate) fn put_bytes(digits: &[u8], into: &mut [u8])
    requires twice { length digits.now ≡ 2 * length into.old }
    requires digits { list_all is_hex_digit digits.now ≡ true }
    ensures decoded { decode_of digits.now ≡ Ok into.new }
    ensures values { AreBytesOf digits.now into.new }
    ensures size { length into.new ≡ length into.old }
{
    for i in 0..into.len() {
        into[i] = byte_of(pair(digits, 2 * i));
    }
}

/// Two bytes from a place on as a number, the first one lowest.
fn pair(bytes: &[u8], at: usize) -> u16
    requires { at + 2 ≤ length bytes.now }
    ensures { result ≡ slice_index bytes.now at + 256 * slice_index bytes.now (at + 1) }
{
    u16::from_le_bytes([bytes[at], bytes[at + 1]])
}

/// The byte of two hexadecimal digits, both at once: the first digit is the low byte. The letters are 64 and more, and their low
/// four bits count from 1.
fn byte_of(digits: u16) -> u8
    requires high { is_hex_digit (digits % 256) ≡ true }
    requires low { is_hex_digit (digits / 256) ≡ true }
    ensures { result ≡ 16 * value_of (digits % 256) + value_of (digits / 256) }
{
    let values = digits + 9 * ((digits >> 6) & 0x101);
    (values % 16 * 16 + values / 256 % 16) as u8
}

/// How far a byte is from `0`, or, if that is less, four more than how far it is from the letter A, in either case: below 10 exactly
/// where the byte is a hexadecimal digit.
fn distance(byte: u8) -> u8
    ensures { nat_lt result 10 ≡ is_hex_digit byte }
{
    let digit = byte.wrapping_sub(b'0');
    let letter = (byte & 0xdf).wrapping_sub(b'A').saturating_add(4);
    digit.min(letter)
}
