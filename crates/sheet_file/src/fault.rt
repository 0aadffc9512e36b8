// A fault of a sheet file.
ghost use Rattle.std.specs.Prelude.{◌≡◌, Some};
ghost use Rattle.sheets.specs.Refusals.{number as number_of};
ghost use Rattle.sheet_file.specs.Layers.{layer_of, word};
ghost use Rattle.sheet_file.specs.Texts.{fault_text};

use sheets::Refusal;
use std::fmt;

#[derive(Clone, Copy, Debug, PartialEq, Eq)]
pub struct Fault {
    pub refusal: Refusal,
    // counted from 0
    pub record: usize,
    // where that record begins, or should begin
    pub byte: usize,
}

// Who met the fault: the reader itself, or the sheet that it reads into.
#[derive(Clone, Copy, Debug, PartialEq, Eq)]
pub enum Layer {
    Sheet,
    Reader,
}

impl Fault {
    pub fn number(&self) -> u8
        ensures answer { result ≡ number_of self.now.refusal }
    {
        self.refusal.number()
    }

    pub fn layer(&self) -> Layer
        ensures answer { result ≡ layer_of (number_of self.now.refusal) }
    {
        match self.refusal {
            Refusal::WrongMark | Refusal::Truncated | Refusal::TrailingBytes => Layer::Reader,
            _ => Layer::Sheet,
        }
    }
}

impl fmt::Display for Layer {
    ghost output = { λ l. Some (word l) };

    fn fmt<W: fmt::Write>(&self, f: &mut fmt::Formatter<W>) -> fmt::Result {
        match self {
            Layer::Sheet => f.pad("sheet"),
            Layer::Reader => f.pad("reader"),
        }
    }
}

impl fmt::Display for Fault {
    ghost output = { λ e. Some (fault_text (number_of e.refusal) e.«record» e.byte) };

    fn fmt<W: fmt::Write>(&self, f: &mut fmt::Formatter<W>) -> fmt::Result {
        write!(
            f,
            "fault {} {} {} {}",
            self.number(),
            self.layer(),
            self.record,
            self.byte
        )
    }
}
