// A list of calls, sent to a sheet that is opened for it.
ghost use Rattle.std.specs.Prelude.{◌≡◌, MatchResult, slice_set};
ghost use Rattle.sheets.specs.Sheets.{road_standing, road_storage, road_causes, Outcome};
ghost use Rattle.sheets.specs.Causes.Call.{total as total_asked};
ghost use Rattle.calls.specs.Pages.{page_of, TotalsOf, LawOf};

use crate::answer::Answer;
use crate::call::Call;
use crate::send::send;
use crate::sheet::Sheet;
use algebras::Algebra;
use needs::Kind;
use sheets::{BaySheet, Refusal, RoadSheet};

// Keeps an answer in its place, if there is one.
fn keep<T: Copy>(answers: &mut [T], place: usize, answer: T)
    ensures after { answers.new ≡ slice_set answers.old place answer }
{
    if place < answers.len() {
        answers[place] = answer;
    }
}

// Puts a sheet out, if it stands in the bay.
fn on_road<'a, K: Kind>(sheet: Sheet<'a, K>) -> RoadSheet<'a, K>
    ensures standing { road_standing result ≡ (page_of sheet.entry).standing }
    ensures storage { road_storage result ≡ (page_of sheet.entry).storage }
{
    match sheet {
        Sheet::Bay(bay) => bay.put_out(),
        Sheet::Road(road) => road,
    }
}

// Opens a sheet on the places, sends it the calls one after another and keeps each answer in its place, as far as there are
// places for answers. The sheet is put out in the end, if it stands in the bay.
fn send_all<'a, K: Kind, A: Algebra>(
    places: &'a mut [K],
    calls: &[Call<K>],
    answers: &mut [Answer<K, A::Value>],
) -> RoadSheet<'a, K>
    ensures law { LawOf K.Kind A.Algebra places.old calls.now answers.old answers.new (road_standing result) (road_storage result) }
{
    let mut sheet = Sheet::Bay(BaySheet::open(places));
    for (i, call) in calls.iter().enumerate() {
        let (after, answer) = send::<K, A>(sheet, *call);
        sheet = after;
        keep(answers, i, answer);
    }
    on_road(sheet)
}

// Sends a list of calls to a sheet that is opened on the places, and then asks the sheet, on the road, for one total more: the
// sheet, and whether the total was refused. A refused total leaves its place as it was.
pub fn replay<'a, K: Kind, A: Algebra>(
    places: &'a mut [K],
    calls: &[Call<K>],
    answers: &mut [Answer<K, A::Value>],
    depth: u8,
    total: &mut A::Value,
) -> (RoadSheet<'a, K>, Result<(), Refusal>)
    ensures law { LawOf K.Kind A.Algebra places.old calls.now answers.old answers.new (road_standing result.0) (road_storage result.0) }
    ensures refused { Outcome result.1 (road_causes K.Kind result.0 (total_asked depth)) }
    ensures answer { MatchResult result.1 (λ _. TotalsOf K.Kind A.Algebra (road_standing result.0) depth total.new) (λ _. total.new ≡ total.old) }
{
    let sheet = send_all::<K, A>(places, calls, answers);
    let outcome = sheet.total::<A>(depth, total);
    (sheet, outcome)
}
