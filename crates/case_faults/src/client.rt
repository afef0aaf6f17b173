// What a client makes of the bytes that it got.
use front_base::number_of;
use std::alloc::{AllocError, Global};

// What follows the body of a reply with that head, none where the body isn't whole.
fn after_body<'b>(head: &str, rest: &'b str) -> Option<&'b str> {
    if let Some((_, length)) = head.split_once("\r\nContent-Length: ") {
        let (length, _) = length.split_once("\r\n").unwrap_or((length, ""));
        let length = number_of(length.as_bytes())?;
        let after = rest.as_bytes().get(length as usize..)?;
        return str::from_utf8(after).ok();
    }
    if head.contains("\r\nTransfer-Encoding: chunked") {
        let (_, after) = rest.split_once("\r\n0\r\n\r\n")?;
        return Some(after);
    }
    Some(rest)
}

/// Writes the status of each reply, and `cut` behind what isn't whole.
pub fn push_replies(line: &mut String, bytes: &[u8]) -> Result<(), AllocError> {
    let mut text = str::from_utf8(bytes).unwrap_or("");
    for _ in 0..8 {
        if text.is_empty() {
            return Ok(());
        }
        let Some((head, rest)) = text.split_once("\r\n\r\n") else {
            return line.push_str(" cut");
        };
        line.push_str(" ")?;
        line.push_str(head.split(' ').nth(1).unwrap_or("?"))?;
        let Some(after) = after_body(head, rest) else {
            return line.push_str(" cut");
        };
        text = after;
    }
    Ok(())
}

// A sum of bytes by which two texts of one length are told apart (FNV-1a, 32 bits).
fn sum_of(bytes: &[u8]) -> u32 {
    let mut sum: u32 = 2_166_136_261;
    for byte in bytes {
        sum = (sum ^ u32::from(*byte)).wrapping_mul(16_777_619);
    }
    sum
}

/// Writes how many bytes these are, and their sum.
pub fn push_bytes(alloc: Global, line: &mut String, bytes: &[u8]) -> Result<(), AllocError> {
    let text = format!(in alloc; " {} {:x}", bytes.len(), sum_of(bytes))?;
    line.push_str(text.as_str())
}
