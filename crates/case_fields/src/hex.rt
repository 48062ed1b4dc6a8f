// Bytes in hex: two digits each, the higher first.
ghost use Rattle.std.specs.Prelude.{◌<◌, IfSome};

use word_writer::put::put_byte;

// The value of a hex digit.
fn value_of(digit: u8) -> Option<u8>
    ensures { IfSome result (λ value. value < 16) }
{
    match digit {
        b'0'..=b'9' => Some(digit - b'0'),
        b'a'..=b'f' => Some(digit - b'a' + 10),
        _ => None,
    }
}

// The bytes of a field, at the start of the slice. More than it holds are malformed too.
pub fn read_hex<'a>(field: &[u8], bytes: &'a mut [u8]) -> Option<&'a [u8]> {
    if field.len() % 2 != 0 {
        return None;
    }
    let read = bytes.get_mut(..field.len() / 2)?;
    for (byte, pair) in read.iter_mut().zip(field.chunks_exact(2)) {
        *byte = value_of(pair[0])? * 16 + value_of(pair[1])?;
    }
    Some(read)
}

fn digit_of(value: u8) -> u8
    requires { value < 16 }
{
    if value < 10 {
        b'0' + value
    } else {
        b'a' + value - 10
    }
}

// Bytes in hex, written at a place of a page. The place after them comes back.
pub fn put_hex(page: &mut [u8], at: usize, bytes: &[u8]) -> usize {
    let mut next = at;
    for byte in bytes {
        next = put_byte(page, next, digit_of(byte / 16));
        next = put_byte(page, next, digit_of(byte % 16));
    }
    next
}
