// Hexadecimal digits, those of 16 bytes at once.
ghost use Rattle.std.specs.Prelude.{◌≡◌, ◌*◌, ◌<◌, Some, None, All, length, map, nat_lt, if◌then◌else◌};
ghost use Rattle.std.specs.List.{list_all};
ghost use Rattle.std.specs.Result.{result_ok};
ghost use Rattle.hex.specs.Hex.{decode_of, encode_lower, hex_digit_value};
ghost use Rattle.dbm_lines.specs.Digits.{digit_at, value_of_digit};

use std::simd::prelude::*;

/// How many bytes are read and written at once.
const BLOCK: usize = 16;

const DIGITS: [u8; 16] = *b"0123456789abcdef";

/// Puts the digits of the bytes, in lower case, into `digits`, which has room for just these.
pub fn encode(bytes: &[u8], digits: &mut [u8])
    requires { length digits.old ≡ 2 * length bytes.now }
    ensures { digits.new ≡ encode_lower bytes.now }
{
    let blocks = bytes.len() / BLOCK;
    for block in 0..blocks {
        let at = BLOCK * block;
        let run = u8x16::from_slice(&bytes[at..]);
        digits_of(run).copy_to_slice(&mut digits[2 * at..]);
    }
    let at = BLOCK * blocks;
    if at < bytes.len() {
        encode_last(&bytes[at..], &mut digits[2 * at..]);
    }
}

/// The same for less than a block, which is filled up with bytes of its own.
fn encode_last(bytes: &[u8], digits: &mut [u8])
    requires fits { length digits.old ≡ 2 * length bytes.now }
    requires short { length bytes.now < 16 }
    ensures { digits.new ≡ encode_lower bytes.now }
{
    let mut block = [0; BLOCK];
    block[..bytes.len()].copy_from_slice(bytes);
    let run = digits_of(u8x16::from_array(block)).to_array();
    digits.copy_from_slice(&run[..digits.len()]);
}

/// The digits of the bytes of a block.
#[inline(always)]
fn digits_of(block: u8x16) -> u8x32
    ensures { result ≡ encode_lower block }
{
    let high = digit_of_each(block >> u8x16::splat(4));
    let low = digit_of_each(block & u8x16::splat(15));
    high.shuffle(
        low,
        [
            0, 16, 1, 17, 2, 18, 3, 19, 4, 20, 5, 21, 6, 22, 7, 23, 8, 24, 9, 25, 10, 26, 11, 27,
            12, 28, 13, 29, 14, 30, 15, 31,
        ],
    )
}

/// The digit of each value.
#[inline(always)]
fn digit_of_each(values: u8x16) -> u8x16
    requires { All (λ value. value < 16) values }
    ensures { result ≡ map digit_at values }
{
    u8x16::from_array(DIGITS).swizzle_dyn(values)
}

/// Puts the bytes that digits of either case stand for into `bytes`, which has room for just these.
/// Answers whether each byte is a digit; if not, any bytes may stand there.
pub fn decode(digits: &[u8], bytes: &mut [u8]) -> bool
    requires { length digits.now ≡ 2 * length bytes.old }
    ensures { (if result then Some bytes.new else None) ≡ result_ok (decode_of digits.now) }
{
    let blocks = bytes.len() / BLOCK;
    for block in 0..blocks {
        let at = BLOCK * block;
        let Some(run) = bytes_of(u8x32::from_slice(&digits[2 * at..])) else {
            return false;
        };
        u8x16::from_array(run).copy_to_slice(&mut bytes[at..]);
    }
    let at = BLOCK * blocks;
    if at == bytes.len() {
        return true;
    }
    decode_last(&digits[2 * at..], &mut bytes[at..])
}

/// The same for less than a block, which is filled up with digits of its own.
fn decode_last(digits: &[u8], bytes: &mut [u8]) -> bool
    requires fits { length digits.now ≡ 2 * length bytes.old }
    requires short { length bytes.old < 16 }
    ensures { (if result then Some bytes.new else None) ≡ result_ok (decode_of digits.now) }
{
    let mut block = [b'0'; 2 * BLOCK];
    block[..digits.len()].copy_from_slice(digits);
    let Some(run) = bytes_of(u8x32::from_array(block)) else {
        return false;
    };
    bytes.copy_from_slice(&run[..bytes.len()]);
    true
}

/// The bytes that the digits of a block stand for, if each is a digit.
#[inline(always)]
fn bytes_of(digits: u8x32) -> Option<[u8; BLOCK]>
    ensures { result ≡ result_ok (decode_of digits) }
{
    let values = value_of_each(digits);
    if !are_values(values) {
        return None;
    }
    let high: u8x16 = values.swizzle([0, 2, 4, 6, 8, 10, 12, 14, 16, 18, 20, 22, 24, 26, 28, 30]);
    let low: u8x16 = values.swizzle([1, 3, 5, 7, 9, 11, 13, 15, 17, 19, 21, 23, 25, 27, 29, 31]);
    Some((high * u8x16::splat(16) + low).to_array())
}

/// Whether each is the value of a digit.
#[inline(always)]
fn are_values(values: u8x32) -> bool
    ensures { result ≡ list_all (λ value. nat_lt value 16) values }
{
    values.simd_lt(u8x32::splat(16)).all()
}

/// The value of each digit, and a greater one than a digit has where a byte is none.
#[inline(always)]
fn value_of_each(digits: u8x32) -> u8x32
    ensures { map value_of_digit result ≡ map hex_digit_value digits }
{
    // 198 more puts `0` to `9` at 246 to 255. All are 6 less then, or 0, and 16 more makes 0 to 9 of
    // the digits alone.
    let decimal = (digits + u8x32::splat(198)).saturating_sub(u8x32::splat(6)) + u8x32::splat(16);
    // `A` to `F` and `a` to `f` are 0 to 5, and 10 more makes no greater one small.
    let letter = (digits & u8x32::splat(0xdf)) - u8x32::splat(b'A');
    let letter = letter.simd_min(u8x32::splat(245)) + u8x32::splat(10);
    decimal.simd_min(letter)
}
