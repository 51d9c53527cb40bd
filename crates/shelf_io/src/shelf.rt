//! What is outside the program, as it sees it.

ghost use Rattle.std.specs.Prelude.{◌≡◌, ◌≤◌, ◌∷◌, ◌++◌, [], length, IfOk, IsTrue, OnOk, OnErr, Some};
ghost use Rattle.std.specs.Option.{option_map};
ghost use Rattle.std.specs.Str.{bytes_eq};
ghost use Rattle.shelf_io.specs.Shelf.{ShelfState, Files, Rose, NoneFell, SameCounts, ReadsFile, ReadCause, SameCause, MayBeEmpty, MayHaveFront, BeginsAmong, NoneBegun, put, append_to};
ghost use Rattle.shelf_io.specs.Sink.{SinkState, HasFront};

use sight_names::{Failed, Memory, ShelfFault};

/// Why it isn't known whether two names mean one file.
#[derive(Clone, Copy, PartialEq, Eq)]
pub enum SameFault {
    /// It can't be found out.
    Failed,
    Memory(Memory),
}

/// A place for files, by name.
pub trait Shelf {
    /// What it shows.
    ghost state: { Self → ShelfState };

    /// Reads from a place of a file into the buffer. All files stay, and what is begun.
    fn read(&mut self, name: &str, at: u64, buf: &mut [u8]) -> Result<usize, ShelfFault>
        ensures within { IfOk result (λ k. k ≤ length buf.old) }
        ensures told { (files : Files) → (state self.old).files ≡ Some files → ReadsFile (files name.now) at buf.old buf.new result }
        ensures files { (state self.new).files ≡ (state self.old).files }
        ensures begun { (state self.new).begun ≡ (state self.old).begun }
        ensures counts { NoneFell (state self.old) (state self.new) }
        ensures cause { ReadCause (state self.old) (state self.new) result };

    /// Makes the file empty. After `Failed` it is as before or empty. Other files stay. At most this name is begun by it.
    fn create(&mut self, name: &str) -> Result<(), Failed>
        ensures made { OnOk result ((state self.new).files ≡ option_map (λ files. put files name.now []) (state self.old).files) }
        ensures failed { OnErr result (MayBeEmpty (state self.old).files (state self.new).files name.now) }
        ensures begun { BeginsAmong (state self.old).begun (state self.new).begun (name.now ∷ []) }
        ensures counts { NoneFell (state self.old) (state self.new) }
        ensures quiet { OnOk result (SameCounts (state self.old) (state self.new)) }
        ensures cause { OnErr result (Rose (state self.old).write_faults (state self.new).write_faults) };

    /// Adds the bytes to the file, and makes it where it is missing. After `Failed` it has a front of
    /// them more. Other files stay. At most this name is begun by it.
    fn append(&mut self, name: &str, bytes: &[u8]) -> Result<(), Failed>
        ensures added { OnOk result ((state self.new).files ≡ option_map (λ files. append_to files name.now bytes.now) (state self.old).files) }
        ensures failed { OnErr result (MayHaveFront (state self.old).files (state self.new).files name.now bytes.now) }
        ensures begun { BeginsAmong (state self.old).begun (state self.new).begun (name.now ∷ []) }
        ensures counts { NoneFell (state self.old) (state self.new) }
        ensures quiet { OnOk result (SameCounts (state self.old) (state self.new)) }
        ensures cause { OnErr result (Rose (state self.old).write_faults (state self.new).write_faults) };

    /// Puts what was created and added under the name in its place for good. All files that are told stay, since they show what
    /// they are given at once. Nothing is begun by it, and unless it fails, nothing of this name is begun any more.
    fn settle(&mut self, name: &str) -> Result<(), Failed>
        ensures files { (state self.new).files ≡ (state self.old).files }
        ensures begun { BeginsAmong (state self.old).begun (state self.new).begun [] }
        ensures settled { OnOk result (NoneBegun (state self.new).begun (name.now ∷ [])) }
        ensures counts { NoneFell (state self.old) (state self.new) }
        ensures quiet { OnOk result (SameCounts (state self.old) (state self.new)) }
        ensures cause { OnErr result (Rose (state self.old).write_faults (state self.new).write_faults) };

    /// Whether two names mean one file, one that is there or one that could be made. Names that are equal do, and of told files no
    /// others. All files stay, and what is begun.
    fn is_one_file(&mut self, one: &str, other: &str) -> Result<bool, SameFault>
        ensures told { (files : Files) → (state self.old).files ≡ Some files → IfOk result (λ is_one. is_one ≡ bytes_eq one.now other.now) }
        ensures equal { IfOk result (λ is_one. IsTrue (bytes_eq one.now other.now) → IsTrue is_one) }
        ensures files { (state self.new).files ≡ (state self.old).files }
        ensures begun { (state self.new).begun ≡ (state self.old).begun }
        ensures counts { NoneFell (state self.old) (state self.new) }
        ensures cause { SameCause (state self.old) (state self.new) result };
}

/// A place for text.
pub trait Sink {
    /// What it shows.
    ghost state: { Self → SinkState };

    /// Adds the bytes. After `Failed` a front of them was added.
    fn put(&mut self, bytes: &[u8]) -> Result<(), Failed>
        ensures added { OnOk result ((state self.new).held ≡ option_map (λ held. held ++ bytes.now) (state self.old).held) }
        ensures failed { OnErr result (HasFront (state self.old).held (state self.new).held bytes.now) }
        ensures counts { (state self.old).faults ≤ (state self.new).faults }
        ensures quiet { OnOk result ((state self.new).faults ≡ (state self.old).faults) }
        ensures cause { OnErr result (Rose (state self.old).faults (state self.new).faults) };
}
