//! The bytes that a line writes.

use helix_base::Memory;
use std::alloc::Global;

/// The number that a hexadecimal digit writes.
fn digit(byte: u8) -> Option<u8> {
    match byte {
        b'0'..=b'9' => Some(byte - b'0'),
        b'a'..=b'f' => Some(byte - b'a' + 10),
        b'A'..=b'F' => Some(byte - b'A' + 10),
        _ => None,
    }
}

/// The byte that two hexadecimal digits write.
fn byte_of(first: Option<u8>, second: Option<u8>) -> Option<u8> {
    match (first, second) {
        (Some(high), Some(low)) if high < 16 && low < 16 => Some(high * 16 + low),
        _ => None,
    }
}

/// The bytes of a text, in which `%` and two hexadecimal digits are one byte.
pub fn bytes_of(alloc: Global, text: &str) -> Result<Vec<u8>, Memory> {
    let mut bytes = Vec::new(alloc);
    // Digits of a byte that are still to come.
    let mut digits: Vec<u8> = Vec::new(alloc);
    let mut escaped = false;
    for byte in text.as_bytes() {
        if escaped {
            digits.push(*byte)?;
            if digits.len() == 2 {
                if let Some(one) = byte_of(digit(digits[0]), digit(digits[1])) {
                    bytes.push(one)?;
                }
                digits.clear();
                escaped = false;
            }
        } else if *byte == b'%' {
            escaped = true;
        } else {
            bytes.push(*byte)?;
        }
    }
    Ok(bytes)
}

/// Appends a text, with `%` and two hexadecimal digits for a control character.
pub fn push_shown(alloc: Global, all: &mut String, text: &str) -> Result<(), Memory> {
    for character in text.chars() {
        let code = character as u32;
        if code < 32 || code == 127 {
            let shown = format!(in alloc; "%{code:02x}")?;
            all.push_str(shown.as_str())?;
        } else {
            all.push(character)?;
        }
    }
    Ok(())
}
