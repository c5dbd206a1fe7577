//! The answer to a change: a few owned numbers.
ghost use Rattle.std.specs.Prelude.{◌≡◌, ◌≤◌, [], ◌∷◌, length};
ghost use Rattle.ctf_protocol.specs.answers.Answers.{says, number as number_said};
ghost use Rattle.ctf_answers.specs.Counts.{counts_view};

use crate::answers::Answer;
use crate::count::Count;
use crate::singles::Single;

/// The answer to a change that is not refused: no field, or one or two numbers.
#[derive(Clone, Copy)]
pub struct Counts {
    pub first: Option<Count>,
    pub second: Option<Count>,
}

impl Counts {
    pub fn of_success() -> Counts
        ensures { counts_view result ≡ [] }
    {
        Counts {
            first: None,
            second: None,
        }
    }

    pub fn one(key: &'static str, number: u64) -> Counts
        requires { length key.now ≤ 6 }
        ensures { counts_view result ≡ says key.now (number_said number) ∷ [] }
    {
        Counts {
            first: Some(Count { key, number }),
            second: None,
        }
    }

    pub fn two(key: &'static str, number: u64, key2: &'static str, number2: u64) -> Counts
        requires first { length key.now ≤ 6 }
        requires second { length key2.now ≤ 6 }
        ensures { counts_view result ≡ says key.now (number_said number)
            ∷ says key2.now (number_said number2) ∷ [] }
    {
        Counts {
            first: Some(Count { key, number }),
            second: Some(Count {
                key: key2,
                number: number2,
            }),
        }
    }

    /// The answer with these numbers.
    pub fn answer<'a>(self) -> Answer<'a>
        ensures { result ≡ counts_view self }
    {
        match (self.first, self.second) {
            (None, None) => Answer::of_success(),
            (Some(a), None) => Answer::one(a.key, Single::Number(a.number)),
            (None, Some(a)) => Answer::one(a.key, Single::Number(a.number)),
            (Some(a), Some(b)) => Answer::two(
                a.key,
                Single::Number(a.number),
                b.key,
                Single::Number(b.number),
            ),
        }
    }
}
