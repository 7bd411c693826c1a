//! Numbers in decimal digits.
ghost use Rattle.std.specs.Prelude.{decimal};
ghost use Rattle.std.specs.Fmt.{signed_decimal};
ghost use Rattle.sink_buffer.specs.Texts.{Puts};

use itoa::Buffer;
use sink_buffer::TextOut;

/// Puts a number in decimal digits.
pub fn put_unsigned<T: TextOut>(out: &mut T, number: u64)
    ensures { Puts T.stands out.old (decimal number) out.new }
{
    let mut digits = Buffer::new();
    out.put(digits.format(number).as_bytes());
}

/// Puts a number in decimal digits, after a minus sign if it is below 0.
pub fn put_signed<T: TextOut>(out: &mut T, number: i64)
    ensures { Puts T.stands out.old (signed_decimal number) out.new }
{
    let mut digits = Buffer::new();
    out.put(digits.format(number).as_bytes());
}
