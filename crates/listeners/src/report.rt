//! The texts of a list of listeners as one.

ghost use Rattle.std.specs.Prelude.{◌≡◌, ◌-◌, ◌<◌, ◌^◌, map, length, nat_lt};
ghost use Rattle.listeners.specs.Listening.{AreWordsAt, listener_text};
ghost use Rattle.listeners.specs.Told.{texts};

use crate::listener::Listener;

/// Fills the buffer from a byte of the text of a boxed listener on, and answers how many bytes it wrote. It takes no memory.
pub fn words_of(listener: &Box<dyn Listener>, at: u64, buf: &mut [u8]) -> usize
    ensures words { AreWordsAt (listener_text (listener_state listener.now)) at buf.old buf.new result }
    ensures short { length (listener_text (listener_state listener.now)) < 2 ^ 63 }
{
    listener.words_at(at, buf)
}

/// Whether its text has a byte there.
fn has_byte(listener: &Box<dyn Listener>, at: u64) -> bool
    ensures has { result ≡ nat_lt at (length (listener_text (listener_state listener.now))) }
    ensures short { length (listener_text (listener_state listener.now)) < 2 ^ 63 }
{
    let mut byte = [0];
    words_of(listener, at, &mut byte) == 1
}

/// How many bytes its text has, by bisection.
fn text_len(listener: &Box<dyn Listener>) -> u64
    ensures { result ≡ length (listener_text (listener_state listener.now)) }
{
    if !has_byte(listener, 0) {
        return 0;
    }
    let mut low = 0u64;
    let mut high = 1u64 << 63;
    while low < high {
        let middle = low + (high - low) / 2;
        if has_byte(listener, middle) {
            low = middle + 1;
        } else {
            high = middle;
        }
    }
    low
}

/// The place in what is behind a text that was written to its end, so many bytes of it.
fn place_behind(listener: &Box<dyn Listener>, at: u64, written: usize) -> u64
    requires { written ≡ length (listener_text (listener_state listener.now)) - at }
    ensures { result ≡ at - length (listener_text (listener_state listener.now)) }
{
    if written > 0 || at == 0 {
        return 0;
    }
    at - text_len(listener)
}

/// Fills the buffer from a byte of all texts of the list on, one behind the other, and answers how many bytes it wrote: as many as the buffer
/// holds, or as the texts have from there on. It takes no memory.
pub fn pieces(list: &[Box<dyn Listener>], at: u64, buf: &mut [u8]) -> usize
    ensures { AreWordsAt (texts (map (λ b. listener_state b) list.now)) at buf.old buf.new result }
{
    let mut at = at;
    let mut filled = 0;
    for listener in list {
        let written = words_of(listener, at, &mut buf[filled..]);
        filled += written;
        if filled == buf.len() {
            return filled;
        }
        at = place_behind(listener, at, written);
    }
    filled
}
