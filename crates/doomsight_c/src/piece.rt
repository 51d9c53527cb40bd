//! A piece of some bytes, copied.

ghost use Rattle.doomsight_c.specs.Piece.{CopiesFrom};

/// Copies the bytes from the offset on to the front of the buffer, as far as both go, and tells how many.
pub fn copy_piece(bytes: &[u8], offset: usize, buf: &mut [u8]) -> usize
    ensures { CopiesFrom bytes.now offset buf.old buf.new result }
{
    if bytes.len() <= offset {
        return 0;
    }
    let rest = &bytes[offset..];
    let count = if rest.len() < buf.len() {
        rest.len()
    } else {
        buf.len()
    };
    buf[..count].copy_from_slice(&rest[..count]);
    count
}
