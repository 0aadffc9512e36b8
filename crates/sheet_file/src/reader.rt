// Reading a sheet file into a sheet in the bay.
ghost use Rattle.std.specs.Prelude.{◌≡◌, ℕ, ◌≤◌, List, ◌++◌, length, codes, MatchResult, OnErr, ◌≢◌};
ghost use Rattle.sheets.specs.Refusals.{number, place};
ghost use Rattle.sheets.specs.Sheets.{bay_standing, bay_storage};
ghost use Rattle.sheets.specs.Standings.{opened};
ghost use Rattle.sheet_file.specs.Forms.{form_of};
ghost use Rattle.sheet_file.specs.Reading.{Front, WrongHead, WrongRecord};
ghost use Rattle.sheet_file.specs.Faults.{Read, Faulty};
ghost use Rattle.sheet_file.specs.Steps.{Longer};

use crate::fault::Fault;
use crate::filed::Filed;
use brackets::Threshold;
use sheets::{BaySheet, Refusal};

// The head of a file, which sizes a sheet as opened: the threshold, and the bytes behind the head.
fn read_head<'b, K: Filed>(
    bytes: &'b [u8],
    sheet: &mut BaySheet<'_, K>,
) -> Result<(Threshold, &'b [u8]), Refusal>
    requires opened { bay_standing sheet.old ≡ opened }
    ensures storage { bay_storage sheet.new ≡ bay_storage sheet.old }
    ensures answer { MatchResult result (λ x. (head : List ℕ) × (bytes.now ≡ head ++ x.1.now) × Front (form_of K.Kind K.Filed.own) (bay_storage sheet.old) head 1 x.0.of (bay_standing sheet.new) (bay_storage sheet.new)) (λ e. WrongHead (form_of K.Kind K.Filed.own) bytes.now (number e)) }
{
    let fields = match bytes {
        [b'T', b'S', fields @ ..] => fields,
        [_, _, ..] => return Err(Refusal::WrongMark),
        _ => return Err(Refusal::Truncated),
    };
    let [kind, components, high, low, rest @ ..] = fields else {
        return Err(Refusal::Truncated);
    };
    if *kind != K::BYTE {
        return Err(Refusal::WrongMark);
    }
    sheet.size(usize::from(*components))?;
    let asked = u16::from_be_bytes([*high, *low]);
    let threshold = Threshold::try_from(asked)?;
    Ok((threshold, rest))
}

// One record of weights or a need, carried out on the sheet: the bytes behind it.
fn read_record<'b, K: Filed>(
    bytes: &'b [u8],
    sheet: &mut BaySheet<'_, K>,
) -> Result<&'b [u8], Refusal>
    requires record { ((rest : List ℕ) → bytes.now ≢ codes "EN" ++ rest) }
    ensures answer { MatchResult result (λ rest. (more : List ℕ) × (bytes.now ≡ more ++ rest.now) × (2 ≤ length more) × Longer (form_of K.Kind K.Filed.own) more (bay_standing sheet.old) (bay_storage sheet.old) (bay_standing sheet.new) (bay_storage sheet.new)) (λ e. WrongRecord (form_of K.Kind K.Filed.own) (bay_standing sheet.old) (bay_storage sheet.old) bytes.now (number e) (place e) × (bay_storage sheet.new ≡ bay_storage sheet.old)) }
{
    match bytes {
        [b'W', b'T', fields @ ..] => {
            let filed = K::split_weights(fields).ok_or(Refusal::Truncated)?;
            sheet.set(usize::from(filed.component), filed.row)?;
            Ok(filed.rest)
        }
        [b'N', b'D', fields @ ..] => {
            let (need, rest) = K::split_need(fields).ok_or(Refusal::Truncated)?;
            sheet.fit(need)?;
            Ok(rest)
        }
        [_, _, ..] => Err(Refusal::WrongMark),
        _ => Err(Refusal::Truncated),
    }
}

// All records up to the end, carried out on a sheet as opened.
fn read_records<K: Filed>(input: &[u8], sheet: &mut BaySheet<'_, K>) -> Result<Threshold, Fault>
    requires opened { bay_standing sheet.old ≡ opened }
    ensures answer { MatchResult result (λ t. Read (form_of K.Kind K.Filed.own) (bay_storage sheet.old) input.now t.of (bay_standing sheet.new) (bay_storage sheet.new)) (λ e. Faulty (form_of K.Kind K.Filed.own) (bay_storage sheet.old) input.now e (bay_storage sheet.new)) }
{
    let (threshold, mut rest) = read_head(input, sheet).map_err(|refusal| Fault {
        refusal,
        record: 0,
        byte: 0,
    })?;
    let mut record = 1;
    loop {
        let byte = input.len() - rest.len();
        if let [b'E', b'N', behind @ ..] = rest {
            if behind.is_empty() {
                return Ok(threshold);
            }
            return Err(Fault {
                refusal: Refusal::TrailingBytes,
                record: record + 1,
                byte: byte + 2,
            });
        }
        rest = read_record(rest, sheet).map_err(|refusal| Fault {
            refusal,
            record,
            byte,
        })?;
        record += 1;
    }
}

// Reads a sheet file into a sheet, which is first put back to its opening, and so it is again after a fault.
pub fn read<K: Filed>(input: &[u8], sheet: &mut BaySheet<'_, K>) -> Result<Threshold, Fault>
    ensures answer { MatchResult result (λ t. Read (form_of K.Kind K.Filed.own) (bay_storage sheet.old) input.now t.of (bay_standing sheet.new) (bay_storage sheet.new)) (λ e. Faulty (form_of K.Kind K.Filed.own) (bay_storage sheet.old) input.now e (bay_storage sheet.new)) }
    ensures standing { OnErr result (bay_standing sheet.new ≡ opened) }
{
    sheet.reopen();
    let answer = read_records(input, sheet);
    if answer.is_err() {
        sheet.reopen();
    }
    answer
}
