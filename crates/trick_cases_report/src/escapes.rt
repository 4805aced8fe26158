//! Bytes as they are written in a line: `\n`, `\t` and `\\` are a line feed, a tab and a backslash, and `\xHH` is any
//! byte.

use std::alloc::{AllocError, Global};

// The number of a hexadecimal digit; 0 for another byte.
fn digit(byte: u8) -> u8 {
    match byte {
        b'0'..=b'9' => byte.saturating_sub(b'0'),
        b'a'..=b'f' => byte.saturating_sub(b'a').saturating_add(10),
        _ => 0,
    }
}

// The first byte that is written, and what stands after it.
fn split_first(rest: &[u8]) -> Option<(u8, &[u8])> {
    match rest {
        [b'\\', b'n', behind @ ..] => Some((b'\n', behind)),
        [b'\\', b't', behind @ ..] => Some((b'\t', behind)),
        [b'\\', b'\\', behind @ ..] => Some((b'\\', behind)),
        [b'\\', b'x', high, low, behind @ ..] => {
            let byte = digit(*high).saturating_mul(16).saturating_add(digit(*low));
            Some((byte, behind))
        }
        [byte, behind @ ..] => Some((*byte, behind)),
        [] => None,
    }
}

/// Adds the bytes that a text says.
pub(crate) fn add_bytes_of(bytes: &mut Vec<u8>, text: &str) -> Result<(), AllocError> {
    let mut rest = text.as_bytes();
    for _byte in 0..text.len() {
        let Some((byte, behind)) = split_first(rest) else {
            break;
        };
        bytes.push(byte)?;
        rest = behind;
    }
    Ok(())
}

/// The bytes that a text says.
pub(crate) fn bytes_of(alloc: Global, text: &str) -> Result<Vec<u8>, AllocError> {
    let mut bytes = Vec::new(alloc);
    add_bytes_of(&mut bytes, text)?;
    Ok(bytes)
}
