//! A lump as it is to be written.

/// A name, padded with NUL, and the bytes under it.
#[derive(Clone, Copy)]
pub struct OutputLump<'a> {
    pub name: [u8; 8],
    pub bytes: &'a [u8],
}
