//! Numbers among the words: decimal digits without a sign and without a leading zero.
ghost use Rattle.std.specs.Prelude.{◌≡◌, IfSome};
ghost use Rattle.cmd_line.specs.Numbers.{number_in};
ghost use Rattle.cmd_line.specs.Ranges.{IsWithin};

use itoa::Buffer;

/// The greatest number of 32 bits.
pub(crate) const GREATEST_U32: u64 = 4_294_967_295;

/// The number that the word writes, if it lies between these.
pub fn number_in(word: &str, least: u64, most: u64) -> Option<u64>
    ensures value { result ≡ number_in least most word.now }
    ensures within { IfSome result (IsWithin least most) }
{
    let Ok(number) = word.parse::<u64>() else {
        return None;
    };
    let mut digits = Buffer::new();
    if digits.format(number) == word && least <= number && number <= most {
        Some(number)
    } else {
        None
    }
}
