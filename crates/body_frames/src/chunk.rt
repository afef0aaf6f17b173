// Bodies written in chunks (RFC 9112, section 7.1).
ghost use Rattle.std.specs.Prelude.{◌≡◌, ◌<◌, IfOk, length};
ghost use Rattle.body_frames.specs.Chunks.{chunk_text, last_text};

use front_base::{Bytes, NoMemory};
use std::alloc::Global;

/// The chunk of a piece: its size in hexadecimal, CR LF, the piece, CR LF. A chunk of nothing would end the body, so a
/// piece isn't empty.
pub fn chunk_frame(alloc: Global, piece: &[u8]) -> Result<Bytes, NoMemory>
    requires { 0 < length piece.now }
    ensures { IfOk result (λ bytes. bytes ≡ chunk_text piece.now) }
{
    let size = format!(in alloc; "{:x}\r\n", piece.len())?;
    let mut bytes = size.into_bytes();
    bytes.extend_from_slice(piece)?;
    bytes.extend_from_slice(b"\r\n")?;
    Ok(Bytes::new(bytes))
}

/// What ends a body in chunks: a chunk of size 0, and no trailer.
pub fn last_frame() -> [u8; 5]
    ensures { result ≡ last_text }
{
    *b"0\r\n\r\n"
}
