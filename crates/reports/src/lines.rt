// The lines of a report on a sheet, each added to the text so far.
ghost use Rattle.std.specs.Prelude.{◌≡◌, ◌++◌, string_bytes, OnOk};
ghost use Rattle.sheets.specs.Answers.{road_ends};
ghost use Rattle.sheets.specs.Sheets.{road_standing};
ghost use Rattle.reports.specs.Lines.{depth_line, depth_lines, polynomial_line};

use algebras::Polynomial;
use brackets::{Depth, Threshold};
use needs::Kind;
use sheets::RoadSheet;
use std::alloc::AllocError;

fn push_depth<K: Kind>(
    text: &mut String,
    sheet: &RoadSheet<'_, K>,
    threshold: Threshold,
    depth: Depth,
) -> Result<(), AllocError>
    ensures after { OnOk result (string_bytes text.new ≡ string_bytes text.old ++ depth_line (road_ends K.Kind.levels K.Kind.TOP (road_standing sheet.now) depth.of) threshold.of depth.of) }
{
    let (low, high) = sheet.bracket_at(depth);
    let verdict = sheet.judge_at(depth, threshold);
    let depth = u8::from(depth);
    writeln!(text, "depth {depth} {low} {high} {verdict}")
}

// The lines of all depths up to the last one.
#[tactic(auto, using(crate::proofs::Texts::depths_more))]
pub(crate) fn push_depths<K: Kind>(
    text: &mut String,
    sheet: &RoadSheet<'_, K>,
    threshold: Threshold,
    last: Depth,
) -> Result<(), AllocError>
    ensures after { OnOk result (string_bytes text.new ≡ string_bytes text.old ++ depth_lines (road_ends K.Kind.levels K.Kind.TOP (road_standing sheet.now)) threshold.of last.of) }
{
    for number in 1..=u8::from(last) {
        let Ok(depth) = Depth::try_from(number) else {
            unreachable!()
        };
        push_depth(text, sheet, threshold, depth)?;
    }
    Ok(())
}

// The coefficients of the total to a depth, from the power 0 up to the greatest that a sheet can have.
pub(crate) fn push_polynomial<K: Kind>(
    text: &mut String,
    sheet: &RoadSheet<'_, K>,
    depth: Depth,
) -> Result<(), AllocError>
    ensures after { OnOk result (string_bytes text.new ≡ string_bytes text.old ++ polynomial_line K.Kind.levels K.Kind.TOP (road_standing sheet.now) depth.of) }
{
    let polynomial = sheet.total_at::<Polynomial>(depth);
    let powers = sheet.components() * usize::from(K::TOP) + 1;
    text.push_str("poly")?;
    for power in 0..powers {
        let coefficient = polynomial.signed(power);
        write!(text, " {coefficient}")?;
    }
    text.push('\n')
}
