// Further lines of a kind whose numbers, a job's or a station's, rise from line to line.
ghost use Rattle.std.specs.Prelude.{◌≡◌, ◌&&◌, leb, ltb};

// The number is below the limit, and not below `low`, the lowest that is above those of all lines before.
pub fn rises(number: u8, limit: u8, low: u8) -> bool
    ensures { result ≡ (ltb number limit && leb low number) }
{
    number < limit && low <= number
}
