// The kinds of sheet file.
ghost use Rattle.std.specs.Prelude.{Some, ◌++◌, codes, decimal};
ghost use Rattle.sheet_file.specs.Kinds.{Decodes, word};

use std::error::Error;
use std::fmt;

// Which kind of need a file holds.
#[derive(Clone, Copy, Debug, PartialEq, Eq)]
pub enum FileKind {
    Plain,
    Graded,
}

// A byte that stands for no kind.
#[derive(Clone, Copy, Debug, PartialEq, Eq)]
pub struct UnknownKind(pub u8);

impl TryFrom<u8> for FileKind {
    type Error = UnknownKind;

    ghost try_from_gives = { Decodes };

    fn try_from(byte: u8) -> Result<Self, UnknownKind> {
        match byte {
            1 => Ok(FileKind::Plain),
            2 => Ok(FileKind::Graded),
            _ => Err(UnknownKind(byte)),
        }
    }
}

impl fmt::Display for FileKind {
    ghost output = { λ kind. Some (word kind) };

    fn fmt<W: fmt::Write>(&self, f: &mut fmt::Formatter<W>) -> fmt::Result {
        match self {
            FileKind::Plain => f.pad("plain"),
            FileKind::Graded => f.pad("graded"),
        }
    }
}

impl fmt::Display for UnknownKind {
    ghost output = { λ unknown. Some (codes "no kind of sheet file has byte " ++ decimal unknown.0) };

    fn fmt<W: fmt::Write>(&self, f: &mut fmt::Formatter<W>) -> fmt::Result {
        write!(f, "no kind of sheet file has byte {}", self.0)
    }
}

impl Error for UnknownKind {}
