// A frame where it stands in a file. A clause sees its bytes.
ghost use Rattle.std.specs.Prelude.{◌≡◌, ◌+◌, ◌<◌, length, drop, Some};
ghost use Rattle.std.proofs.Math.Option.{some};
ghost use Rattle.model.specs.Line.{read_line, at as byte_of, wide as wide_of, frame_is};
ghost use Rattle.lines.specs.Read.{line_at};
ghost use Rattle.frame_read.specs.Frame.{frame_at, InFile};

use lines::byte_at;
use std::marker::Model;

// `at` is the place of its first digit, and it has `size` bytes.
#[derive(Drop)]
pub struct Frame<'a> {
    file: &'a [u8],
    at: usize,
    size: usize,
}

impl<'a> Model for Frame<'a> {
    ghost use Rattle.std.specs.Prelude.{ℕ, List};
    ghost use Rattle.frame_read.specs.Frame.{frame_at, InFile};

    ghost Value = { List ℕ };

    ghost view = { λ f. frame_at f.file.now f.at f.size };

    ghost invariant = { λ f. InFile f.file.now f.at f.size };
}

impl<'a> Frame<'a> {
    // The frame of the line from `at` to the 0A at `end`.
    pub fn new(file: &'a [u8], at: usize, end: usize) -> Frame<'a>
        requires { line_at file.now at ≡ Some end }
        ensures { read_line (drop at file.now) ≡ some (result, drop (end + 1) file.now) }
    {
        Frame::standing(file, at, (end - at) / 2)
    }

    // The frame of any digits: `size` bytes from `at`.
    pub fn standing(file: &'a [u8], at: usize, size: usize) -> Frame<'a>
        requires { InFile file.now at size }
        ensures { result ≡ frame_at file.now at size }
    {
        Frame { file, at, size }
    }

    // Its first byte.
    pub fn kind(&self) -> u8
        ensures { result ≡ byte_of self.now 0 }
    {
        byte_at(self.file, self.at)
    }

    // Byte k of the frame.
    pub fn byte(&self, k: usize) -> u8
        requires { k < length self.now }
        ensures { result ≡ byte_of self.now k }
    {
        byte_at(self.file, self.at + 2 * k)
    }

    // The two-byte number at byte k of the frame, high byte first.
    pub fn wide(&self, k: usize) -> u16
        requires { k + 1 < length self.now }
        ensures { result ≡ wide_of self.now k }
    {
        let at = self.at + 2 * k;
        u16::from_be_bytes([byte_at(self.file, at), byte_at(self.file, at + 2)])
    }

    // How many bytes it has.
    pub fn len(&self) -> usize
        ensures { result ≡ length self.now }
    {
        self.size
    }

    // Whether the frame is of a kind and length.
    #[tactic(auto, using(model::proofs::BoolLaws::and_true, model::proofs::BoolLaws::and_false), unfolding(model::specs::Line::frame_is))]
    pub fn is(&self, kind: u8, length: usize) -> bool
        ensures { result ≡ frame_is kind length self.now }
    {
        self.kind() == kind && self.len() == length
    }
}
