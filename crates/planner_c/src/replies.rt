// The answers as C gets them: numbers alone.
ghost use Rattle.std.specs.Prelude.{◌≡◌};
ghost use Rattle.planner_c.specs.Replies.{number_of, reply_of, text_of};

use model::{Answer, Refusal};

// The answer of a run. `kind` is 0 spent, 1 a plan, 2 no plan, 3 refused; a number that the answer has not is 0.
#[repr(C)]
#[derive(Clone, Copy)]
pub struct Reply {
    pub kind: u8,
    pub refusal: u8,
    pub latency: u16,
    pub total: u32,
}

// The answer of writing: how many bytes and 0, or 0 and the refusal.
#[repr(C)]
#[derive(Clone, Copy)]
pub struct Text {
    pub length: usize,
    pub refusal: u8,
}

// The reply of a run's answer.
impl From<Answer> for Reply {
    ghost from_gives = { λ answer reply. reply ≡ reply_of answer };

    #[tactic(auto, unfolding(crate::specs::Replies::reply_of))]
    fn from(answer: Answer) -> Reply {
        match answer {
            Answer::Spent(total) => Reply {
                kind: 0,
                refusal: 0,
                latency: 0,
                total,
            },
            Answer::Plan(latency, total) => Reply {
                kind: 1,
                refusal: 0,
                latency,
                total,
            },
            Answer::NoPlan(total) => Reply {
                kind: 2,
                refusal: 0,
                latency: 0,
                total,
            },
            Answer::Refused(refusal) => Reply {
                kind: 3,
                refusal: refusal.number(),
                latency: 0,
                total: 0,
            },
        }
    }
}

// The text's length, or the refusal.
impl From<Result<usize, Refusal>> for Text {
    ghost from_gives = { λ answer text. text ≡ text_of answer };

    #[tactic(auto, unfolding(crate::specs::Replies::text_of))]
    fn from(answer: Result<usize, Refusal>) -> Text {
        match answer {
            Ok(length) => Text { length, refusal: 0 },
            Err(reason) => Text {
                length: 0,
                refusal: reason.number(),
            },
        }
    }
}

// 0 where the plan text passes, else the refusal. (No `From`: neither type is of this crate.)
#[tactic(auto, unfolding(crate::specs::Replies::number_of))]
pub fn number_of(answer: Result<(), Refusal>) -> u8
    ensures { result ≡ number_of answer }
{
    match answer {
        Ok(()) => 0,
        Err(refusal) => refusal.number(),
    }
}
