// Worked figures: one theorem over their list, and calls and lists of calls on worked sheets as tests.
#![tactic(auto)]

ghost use Rattle.std.specs.Prelude.{◌≡◌, length};
ghost use Rattle.figures.specs.Figures.{figures, FiguresHold};

// How many figures there are, each of which is what the definitions give.
pub fn figures_hold() -> usize
    ensures theorem { FiguresHold }
    ensures answer { result ≡ length figures }
{
    20
}

#[cfg(test)]
mod lists;

#[cfg(test)]
mod tests {
    use sheets::{BaySheet, Refusal};

    #[test]
    fn fits_on_sheet_a(rt: HostRuntime) {
        let mut places = [0u16; 4];
        let mut sheet = BaySheet::open(&mut places);
        assert_eq!(rt; sheet.size(3), Ok(()));
        assert_eq!(rt; sheet.fit(3), Ok(0));
        assert_eq!(rt; sheet.fit(5), Ok(1));
        assert_eq!(rt; sheet.fit(7), Err(Refusal::Comparable(0)));
        assert_eq!(rt; sheet.fit(1), Err(Refusal::Comparable(0)));
        assert_eq!(rt; sheet.fit(8), Err(Refusal::UnknownComponent));
        assert_eq!(rt; sheet.fit(0), Err(Refusal::EmptyNeed));
    }

    #[test]
    fn fits_where_there_is_no_room(rt: HostRuntime) {
        let mut places = [0u16; 0];
        let mut sheet = BaySheet::open(&mut places);
        assert_eq!(rt; sheet.fit(1), Err(Refusal::Full));
    }
}
