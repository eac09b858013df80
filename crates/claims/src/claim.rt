// The lines of a plan text where they stand: the B0 line, and a B1 line.
// Not by reading's `read_one`: there a line that is due and missing has a refusal of its own, and here every fault is the same None.
// (A kind is its byte, as in the definitions `claim_head` and `claim_line`. Text and place stand apart, as in lines.)
ghost use Rattle.std.specs.Prelude.{◌≤◌, length};
ghost use Rattle.claims.specs.Claim.{ReadsHead, ReadsJob};

use frame_read::frame::Frame;
use lines::line_at;

// What a B0 line with 01 says, and the place behind it. The total is not judged, and not read.
#[derive(Clone, Copy)]
pub struct Head {
    pub n: u8,
    pub latency: u16,
    pub next: usize,
}

// What a B1 line says, and the place behind it.
#[derive(Clone, Copy)]
pub struct JobLine {
    pub job: u8,
    pub start: u16,
    pub next: usize,
}

// The first line of a text, where it is a B0 line with 01.
pub fn read_head(text: &[u8]) -> Option<Head>
    ensures { ReadsHead text.now result }
{
    let end = line_at(text, 0)?;
    let frame = Frame::new(text, 0, end);
    if !frame.is(0xB0, 9) {
        return None;
    }
    if frame.byte(1) != 1 {
        return None;
    }
    let n = frame.byte(2);
    let latency = frame.wide(3);
    Some(Head {
        n,
        latency,
        next: end + 1,
    })
}

// The line at a place, where it is a B1 line.
pub fn read_job(text: &[u8], at: usize) -> Option<JobLine>
    requires { at ≤ length text.now }
    ensures { ReadsJob text.now at result }
{
    let end = line_at(text, at)?;
    let frame = Frame::new(text, at, end);
    if !frame.is(0xB1, 4) {
        return None;
    }
    let job = frame.byte(1);
    let start = frame.wide(2);
    Some(JobLine {
        job,
        start,
        next: end + 1,
    })
}
