use std::alloc::{AllocError, Global};

fn digit_of(letter: u8) -> Option<u8> {
    match letter {
        b'0'..=b'9' => Some(letter - b'0'),
        b'a'..=b'f' => Some(letter - b'a' + 10),
        _ => None,
    }
}

// A byte that is spelled with a backslash and these letters after it, and how many of them spell it.
fn escape_at(letters: &[u8]) -> Option<(u8, usize)> {
    match letters {
        [b'r', ..] => Some((b'\r', 1)),
        [b'n', ..] => Some((b'\n', 1)),
        [b't', ..] => Some((b'\t', 1)),
        [b'\\', ..] => Some((b'\\', 1)),
        [b'x', high, low, ..] => match (digit_of(*high), digit_of(*low)) {
            (Some(high), Some(low)) => Some((high << 4 | low, 3)),
            _ => None,
        },
        _ => None,
    }
}

fn unescaped(alloc: Global, text: &str) -> Result<Vec<u8>, AllocError> {
    let letters = text.as_bytes();
    let mut bytes = Vec::new(alloc);
    let mut skip = 0usize;
    for (at, letter) in letters.iter().enumerate() {
        if skip > 0 {
            skip -= 1;
            continue;
        }
        let rest = letters.get(at.saturating_add(1)..).unwrap_or_default();
        match (*letter, escape_at(rest)) {
            (b'\\', Some((byte, length))) => {
                bytes.push(byte)?;
                skip = length;
            }
            _ => bytes.push(*letter)?,
        }
    }
    Ok(bytes)
}

/// The bytes that a field spells. A backslash that begins no escape stands for itself.
pub fn bytes_of(alloc: Global, text: &str) -> Vec<u8> {
    match unescaped(alloc, text) {
        Ok(bytes) => bytes,
        Err(_) => Vec::new(alloc),
    }
}

fn push_spelled(text: &mut String, byte: u8) -> Result<(), AllocError> {
    match byte {
        b'\r' => text.push_str("\\r")?,
        b'\n' => text.push_str("\\n")?,
        b'\t' => text.push_str("\\t")?,
        b'\\' => text.push_str("\\\\")?,
        b' '..=b'~' => text.push(char::from(byte))?,
        _ => {
            text.push_str("\\x")?;
            for digit in [byte / 16, byte % 16] {
                text.push(char::from(b"0123456789abcdef"[usize::from(digit % 16)]))?;
            }
        }
    }
    Ok(())
}

fn escaped(alloc: Global, bytes: &[u8]) -> Result<String, AllocError> {
    let mut text = String::new(alloc);
    for byte in bytes {
        push_spelled(&mut text, *byte)?;
    }
    Ok(text)
}

/// How a field spells these bytes.
pub fn spelled(alloc: Global, bytes: &[u8]) -> String {
    match escaped(alloc, bytes) {
        Ok(text) => text,
        Err(_) => String::new(alloc),
    }
}
