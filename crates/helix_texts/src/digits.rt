//! Bytes and digits, put into a buffer from an offset on. Each function answers where the text ends.

ghost use Rattle.std.specs.Prelude.{◌≡◌, ◌+◌, ◌<◌, ◌≤◌, [], ◌∷◌, ◌++◌, take, length};
ghost use Rattle.helix_texts.specs.Texts.{last_digits};

/// The character of the digit zero.
const ZERO: u8 = b'0';

/// Puts one byte.
#[inline(always)]
pub fn put(out: &mut [u8], at: usize, byte: u8) -> usize
    requires { at < length out.old }
    ensures end { result ≡ at + 1 }
    ensures text { take result out.new ≡ take at out.old ++ byte ∷ [] }
{
    out[at] = byte;
    at + 1
}

/// Puts some bytes.
pub fn put_all(out: &mut [u8], at: usize, bytes: &[u8]) -> usize
    requires { at + length bytes.now ≤ length out.old }
    ensures end { result ≡ at + length bytes.now }
    ensures text { take result out.new ≡ take at out.old ++ bytes.now }
{
    for (i, byte) in bytes.iter().enumerate() {
        out[at + i] = *byte;
    }
    at + bytes.len()
}

/// Puts two digits.
#[inline(always)]
pub fn put_two(out: &mut [u8], at: usize, number: u32) -> usize
    requires room { at + 2 ≤ length out.old }
    requires number { number < 100 }
    ensures end { result ≡ at + 2 }
    ensures text { take result out.new ≡ take at out.old ++ last_digits 2 number }
{
    let tens = put(out, at, ZERO + (number / 10) as u8);
    put(out, tens, ZERO + (number % 10) as u8)
}

/// Puts four digits.
#[inline(always)]
pub fn put_four(out: &mut [u8], at: usize, number: u32) -> usize
    requires room { at + 4 ≤ length out.old }
    requires number { number < 10000 }
    ensures end { result ≡ at + 4 }
    ensures text { take result out.new ≡ take at out.old ++ last_digits 4 number }
{
    let hundreds = put_two(out, at, number / 100);
    put_two(out, hundreds, number % 100)
}

/// Puts three digits.
#[inline(always)]
pub fn put_three(out: &mut [u8], at: usize, number: u32) -> usize
    requires room { at + 3 ≤ length out.old }
    requires number { number < 1000 }
    ensures end { result ≡ at + 3 }
    ensures text { take result out.new ≡ take at out.old ++ last_digits 3 number }
{
    let hundreds = put(out, at, ZERO + (number / 100) as u8);
    put_two(out, hundreds, number % 100)
}

/// Puts the last digits of a number, `width` of them, two at a time.
pub fn put_digits(out: &mut [u8], at: usize, width: usize, number: u64) -> usize
    requires room { at + width ≤ length out.old }
    ensures end { result ≡ at + width }
    ensures text { take result out.new ≡ take at out.old ++ last_digits width number }
{
    let mut rest = number;
    let mut done = 0;
    while done + 2 <= width {
        let pair = rest % 100;
        rest /= 100;
        out[at + width - 1 - done] = ZERO + (pair % 10) as u8;
        out[at + width - 2 - done] = ZERO + (pair / 10) as u8;
        done += 2;
    }
    if done == width {
        return at + width;
    }
    out[at] = ZERO + (rest % 10) as u8;
    at + width
}
