// Why a call is refused: the first of document 01's questions whose answer is no.
ghost use Rattle.std.specs.Prelude.{◌≡◌};
ghost use Rattle.answers.specs.Answers.{number_of};

use std::error::Error;
use std::fmt;

// A question by what its no says, with the question's number.
#[derive(Clone, Copy, Debug, PartialEq, Eq)]
pub enum Refusal {
    // the slip is not as long as its kind is, at the tables' width
    NotASlip = 1,
    // the slip is of no kind that there is
    UnknownKind = 2,
    // a field that the slip's kind does not use is not 0
    FieldUsed = 3,
    // the lengths, that of a signature or query too, the number of blocks, the width or words 0 and 1 do not fit
    Unfit = 4,
    // the block is none of the tables'
    NoBlock = 5,
    // the signature or query does not fit the width
    TooLarge = 6,
    // the block is filed already
    Filed = 7,
    // the block is not filed
    NotFiled = 8,
    // the scratch, or the marks, are too short
    ShortScratch = 9,
    // the output is too short
    ShortOutput = 10,
    // the tables are not sound
    Unsound = 11,
    // the text is too long
    LongText = 12,
    // a word cannot set so many positions
    NoSuchCount = 13,
}

impl From<Refusal> for u32 {
    ghost from_gives = { λ refusal number. number ≡ number_of refusal };

    fn from(refusal: Refusal) -> u32 {
        refusal as u32
    }
}

impl fmt::Display for Refusal {
    fn fmt<W: fmt::Write>(&self, f: &mut fmt::Formatter<W>) -> fmt::Result {
        f.write_str(match self {
            Refusal::NotASlip => "the slip is not as long as its kind",
            Refusal::UnknownKind => "the slip is of no kind that there is",
            Refusal::FieldUsed => "a field that the slip's kind does not use is not 0",
            Refusal::Unfit =>
                "the lengths or the first words of the tables do not fit, or the length of a signature",
            Refusal::NoBlock => "the block is none of the tables'",
            Refusal::TooLarge => "the signature does not fit the width",
            Refusal::Filed => "the block is filed already",
            Refusal::NotFiled => "the block is not filed",
            Refusal::ShortScratch => "the scratch or the marks are too short",
            Refusal::ShortOutput => "the output is too short",
            Refusal::Unsound => "the tables are not sound",
            Refusal::LongText => "the text is too long",
            Refusal::NoSuchCount => "a word cannot set so many positions",
        })
    }
}

impl Error for Refusal {}
