// The further lines of one kind, one after the other, up to the end of the file or a line of another kind.
ghost use Rattle.std.specs.Prelude.{◌≡◌, ◌≤◌, ◌<◌, ℕ, List, length, drop};
ghost use Rattle.model.specs.Common.{Outcome, accept};
ghost use Rattle.model.specs.Refusal.{told};
ghost use Rattle.further_read.specs.Kind.{places as places_read, places_told, beside};

use frame_read::frame::Frame;
use lines::line_at;
use model::Refusal;

// A kind whose numbers, a job's or a station's, rise from line to line: a line says what stands in its number's place.
// (Not reading's `Kind`: nothing says beforehand how many lines there are, and each is read with the lowest number that it may have.)
pub trait Kind {
    type Place: Copy;

    const BYTE: u8;

    ghost BYTE: { ℕ };

    ghost one: { Self → ℕ → List ℕ → Outcome (ℕ × Self.Place) };

    // A line's number and its place: `low` is the lowest number that is above those of all lines before.
    fn line(&self, frame: &Frame<'_>, low: u8) -> Result<(u8, Self::Place), Refusal>
        ensures { told result ≡ one self.now low frame.now };
}

// What the lines from a place of the file say, into the places that they number; and the place behind them.
pub fn read_kind<K: Kind>(
    kind: &K,
    places: &mut [K::Place],
    file: &[u8],
    at: usize,
) -> Result<usize, Refusal>
    requires inside { at ≤ length file.now }
    requires room { (low : ℕ) (f : List ℕ) (i : ℕ) (p : K.Place) → K.one kind.now low f ≡ accept (i, p) → (i < length places.old) × (i < 255) }
    ensures { beside places.new (told result) ≡ places_told file.now (places_read K.BYTE (K.one kind.now) (length (drop at file.now)) 0 places.old (drop at file.now)) }
{
    let mut place = at;
    let mut low = 0;
    // A `while`: a turn goes on by a line.
    while place < file.len() {
        let Some(end) = line_at(file, place) else {
            return Err(Refusal::Line);
        };
        let frame = Frame::new(file, place, end);
        if frame.kind() != K::BYTE {
            break;
        }
        let (number, line) = kind.line(&frame, low)?;
        places[usize::from(number)] = line;
        low = number + 1;
        place = end + 1;
    }
    Ok(place)
}
