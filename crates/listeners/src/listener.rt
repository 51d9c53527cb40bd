//! What hears findings.

ghost use Rattle.std.specs.Prelude.{◌≡◌, ◌<◌, ◌^◌, ◌++◌, ◌∷◌, [], length, IfOk, OnOk, OnErr};
ghost use Rattle.listeners.specs.Listening.{ListenerState, AreWordsAt, keep_of, listener_text};

use crate::finding::{Finding, Keep};
use sight_names::Memory;

/// Hears the findings of a build, and has a text to say of them.
pub trait Listener: Drop {
    /// What it heard, what it writes of that, and after how many set pairs it is done.
    ghost listener_state: { Self → ListenerState };

    /// Hears a finding. It is done where this is the last set pair of its quota. After `Memory` it is as before: it ran out, or the
    /// text would have more than 2^63 - 1 bytes.
    fn hear(&mut self, finding: &Finding) -> Result<Keep, Memory>
        ensures heard { OnOk result ((listener_state self.new).heard ≡ (listener_state self.old).heard ++ finding.now ∷ []) }
        ensures answer { IfOk result (λ keep. keep ≡ keep_of (listener_state self.old) finding.now) }
        ensures writes { (listener_state self.new).writes ≡ (listener_state self.old).writes }
        ensures quota { (listener_state self.new).quota ≡ (listener_state self.old).quota }
        ensures memory { OnErr result (listener_state self.new ≡ listener_state self.old) };

    /// Fills the buffer from a byte of its text on, and answers how many bytes it wrote: as many as the buffer holds, or as the text has
    /// from there on. It takes no memory.
    fn words_at(&self, at: u64, buf: &mut [u8]) -> usize
        ensures words { AreWordsAt (listener_text (listener_state self.now)) at buf.old buf.new result }
        ensures short { length (listener_text (listener_state self.now)) < 2 ^ 63 };
}
