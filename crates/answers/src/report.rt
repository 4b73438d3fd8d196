// What a call reports: its answer as a number, and a search's counts.
ghost use Rattle.std.specs.Prelude.{◌≡◌};
ghost use Rattle.answers.specs.Answers.{answer_of, reports};

use crate::refusal::Refusal;

// What a search counts: the blocks that it lists, the signatures that it compares and the bits that it reads. All 0 for another call.
#[derive(Clone, Copy, Debug, Default, PartialEq, Eq)]
pub struct Counts {
    pub found: u32,
    pub compares: u32,
    pub bits: u32,
}

// The answer, 0 or the refusal's number, and the counts, all 0 where the call is refused: as numbers, which C and a line of text are told.
#[derive(Clone, Copy, Debug, PartialEq, Eq)]
pub struct Report {
    pub answer: u32,
    pub counts: Counts,
}

impl From<Result<Counts, Refusal>> for Report {
    ghost from_gives = { reports };

    fn from(outcome: Result<Counts, Refusal>) -> Report {
        match outcome {
            Ok(counts) => Report { answer: 0, counts },
            Err(refusal) => Report {
                answer: refusal.into(),
                counts: Counts::default(),
            },
        }
    }
}

// The answer: 0 where the call was carried out, else the refusal's number.
pub fn answer<T>(outcome: &Result<T, Refusal>) -> u32
    ensures { result ≡ answer_of outcome.now }
{
    match outcome {
        Ok(_) => 0,
        Err(refusal) => u32::from(*refusal),
    }
}
