// Notes of splits that stay open. A byte holds two things: a guessed value, 0, 1 or unknown, in its two
// low bits, and above them the note, which is c + 1 where the split at this place does not close for c. The
// two share it since the work slices have one byte of room for a place, and there is no heap.
ghost use Rattle.std.specs.Prelude.{◌≡◌, ◌+◌, ◌<◌};
ghost use Rattle.knowledge.specs.Window.{most_frames};
ghost use Rattle.splits.specs.Inner.NoteBytes.{guess_in, note_in, note_of, noted_with, with_note};

use gates::UNKNOWN;
use knowledge::MOST_FRAMES;

// A byte is its note times this, plus the guessed value.
const NOTE_UNIT: u8 = 4;

// There is a window for each c below this: it has c + 1 frames or more.
const WINDOWS: u8 = MOST_FRAMES as u8;

// The c for which the split at this byte's place is noted as one that does not close.
pub fn noted_c(byte: u8) -> Option<u8>
    ensures { note_of result ≡ note_in byte }
{
    (byte / NOTE_UNIT).checked_sub(1)
}

// The value that is guessed for this byte's place: below 4, and unknown from 2 on.
pub fn guess_in(byte: u8) -> u8
    ensures { result ≡ guess_in byte }
{
    byte % NOTE_UNIT
}

// A byte with the note of c in place of its own. The guessed value stays.
fn with_note(byte: u8, c: u8) -> u8
    requires { c < most_frames }
    ensures { result ≡ with_note byte (c + 1) }
{
    guess_in(byte) + NOTE_UNIT * (c + 1)
}

// Notes each value of a set in the window of c, by c + 1 at its place. The guessed values stay.
#[tactic(auto, using(values::proofs::ListLaws::rewritten_more, crate::proofs::NoteLaws::kept), unfolding(crate::specs::Inner::NoteBytes::noted_with, crate::specs::Inner::NoteBytes::note_over, values::specs::Inner::Rewriting::rewritten))]
pub fn note_known(known: &[u8], c: u8, noted: &mut [u8])
    ensures { noted.new ≡ noted_with known.now c noted.old }
{
    if c >= WINDOWS {
        return;
    }
    // no zip with noted.iter_mut(): of the bytes behind it nothing is known, and no proof closed
    for (place, value) in known.iter().enumerate() {
        if *value < UNKNOWN {
            values::store(noted, place, with_note(values::byte_at(noted, place), c));
        }
    }
}
