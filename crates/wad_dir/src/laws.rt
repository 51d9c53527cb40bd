//! That reading and printing speak of one format.

ghost use Rattle.wad_dir.specs.Print.{PrintsItsLength, ReadsWhatIsPrinted};

/// A printed WAD whose names have eight bytes has 12 bytes of header, the bytes of its lumps, and 16 bytes for each
/// lump.
pub fn prints_its_length()
    ensures { PrintsItsLength }
{}

/// A printed WAD is read as the same kind and the same lumps, in order.
pub fn reads_what_is_printed()
    ensures { ReadsWhatIsPrinted }
{}
