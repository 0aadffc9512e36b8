// The whole report on a sheet file, as text.
ghost use Rattle.std.specs.Prelude.{◌≡◌, IfOk, string_bytes, Decides, slice_index};
ghost use Rattle.sheets.specs.Refusals.{number as number_of};
ghost use Rattle.sheets.specs.Sheets.{road_standing};
ghost use Rattle.sheet_file.specs.Forms.{form_of};
ghost use Rattle.sheet_file.specs.Kinds.{word};
ghost use Rattle.reports.specs.Lines.{last_depth, report_text};
ghost use Rattle.reports.specs.Reported.{fault_line, ReportedAs, Reported};

use crate::lines::{push_depths, push_polynomial};
use algebras::Count;
use brackets::{Depth, Threshold};
use needs::Kind;
use sheet_file::{Fault, FileKind, Filed, read};
use sheets::{BaySheet, Refusal, RoadSheet};
use std::alloc::{AllocError, Global};

// The longest file that a report takes, in bytes.
pub const LONGEST: usize = 4096;

// How many needs a report has places for.
const PLACES: usize = 12;

// The line of a fault.
fn fault_report(heap: Global, fault: Fault) -> Result<String, AllocError>
    ensures answer { IfOk result (λ text. string_bytes text ≡ fault_line (number_of fault.refusal) fault.«record» fault.byte) }
{
    format!(in heap; "{fault}\n")
}

// Full depth, where the report ends.
fn full_depth<K: Kind>(sheet: &RoadSheet<'_, K>) -> Depth
    ensures answer { result.of ≡ last_depth K.Kind.levels K.Kind.TOP (road_standing sheet.now) }
{
    let Ok(depth) = Depth::try_from(sheet.held().max(1) as u8) else {
        unreachable!()
    };
    depth
}

// The lines of a sheet.
fn sheet_report<K: Kind>(
    heap: Global,
    kind: FileKind,
    threshold: Threshold,
    sheet: &RoadSheet<'_, K>,
) -> Result<String, AllocError>
    ensures answer { IfOk result (λ text. string_bytes text ≡ report_text K.Kind.levels K.Kind.TOP (road_standing sheet.now) (word kind) threshold.of) }
{
    let components = sheet.components();
    let asked = u16::from(threshold);
    let mut text = format!(in heap; "sheet {kind} {components} {asked}\n")?;
    let last = full_depth(sheet);
    push_depths(&mut text, sheet, threshold, last)?;
    push_polynomial(&mut text, sheet, last)?;
    let states = sheet.total_at::<Count>(last).bits();
    writeln!(text, "states {states}")?;
    Ok(text)
}

// The report on a file that is read as a sheet of one kind.
fn report_as<K: Filed>(
    heap: Global,
    input: &[u8],
    kind: FileKind,
    places: &mut [K],
) -> Result<String, AllocError>
    ensures answer { IfOk result (λ text. ReportedAs (form_of K.Kind K.Filed.own) (word kind) places.old input.now (string_bytes text)) }
{
    let mut sheet = BaySheet::open(places);
    match read(input, &mut sheet) {
        Ok(threshold) => sheet_report(heap, kind, threshold, &sheet.put_out()),
        Err(fault) => fault_report(heap, fault),
    }
}

// Whether a file is read as graded: its byte 2, where the head has the kind, tells.
fn is_graded(input: &[u8]) -> bool
    ensures answer { Decides result (slice_index input.now 2 ≡ 2) }
{
    match input.get(2) {
        Some(byte) => matches!(FileKind::try_from(*byte), Ok(FileKind::Graded)),
        None => false,
    }
}

// The report on a sheet file; a file that is too long is refused unread.
pub fn report(heap: Global, input: &[u8]) -> Result<String, AllocError>
    ensures answer { IfOk result (λ text. Reported input.now (string_bytes text)) }
{
    if input.len() > LONGEST {
        let fault = Fault {
            refusal: Refusal::TrailingBytes,
            record: 0,
            byte: LONGEST,
        };
        return fault_report(heap, fault);
    }
    if is_graded(input) {
        report_as::<u32>(heap, input, FileKind::Graded, &mut [0; PLACES])
    } else {
        report_as::<u16>(heap, input, FileKind::Plain, &mut [0; PLACES])
    }
}
