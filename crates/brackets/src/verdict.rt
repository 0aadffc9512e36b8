// What a threshold makes of a bracket.
ghost use Rattle.std.specs.Prelude.{Some};
ghost use Rattle.brackets.specs.Words.{word};

use std::fmt;

#[derive(Clone, Copy, Debug, PartialEq, Eq)]
pub enum Verdict {
    Sound,
    Attention,
    Undecided,
}

impl fmt::Display for Verdict {
    ghost output = { λ v. Some (word v) };

    fn fmt<W: fmt::Write>(&self, f: &mut fmt::Formatter<W>) -> fmt::Result {
        match self {
            Verdict::Sound => f.pad("sound"),
            Verdict::Attention => f.pad("attention"),
            Verdict::Undecided => f.pad("undecided"),
        }
    }
}
