// One call, sent to a sheet.
ghost use Rattle.std.specs.Prelude.{◌≡◌, IfOk, ◌≢◌};
ghost use Rattle.sheets.specs.Sheets.{road_standing, road_causes, Outcome};
ghost use Rattle.sheets.specs.Causes.Call.{total as total_asked};
ghost use Rattle.calls.specs.declared.call.Call.TheVariants.{PutOut as put_out_call, CallIn as call_in_call, Total as total_call};
ghost use Rattle.calls.specs.Pages.{bay_page, road_page, page_of, answer_of, StepOf, TotalsOf};

use crate::answer::Answer;
use crate::call::{AlgebraName, Call};
use crate::sheet::Sheet;
use algebras::{Algebra, Count, Fixed, Polynomial};
use brackets::Depth;
use needs::Kind;
use sheets::{BaySheet, Refusal, RoadSheet};

// A call to a sheet that stays in the bay.
fn change<K: Kind, A: Algebra>(
    bay: &mut BaySheet<'_, K>,
    call: Call<K>,
) -> Result<Answer<K, A::Value>, Refusal>
    requires stays { call ≢ put_out_call }
    ensures step { StepOf K.Kind A.Algebra call (bay_page bay.old) (answer_of result) (bay_page bay.new) }
{
    Ok(match call {
        Call::Size(components) => {
            bay.size(components)?;
            Answer::Done
        }
        Call::Set(component, row) => {
            bay.set(component, row)?;
            Answer::Done
        }
        Call::SetByReadings(component, readings) => {
            bay.set_by_readings(component, readings)?;
            Answer::Done
        }
        Call::Fit(need) => Answer::Place(bay.fit(need)?),
        Call::Strike(place) => Answer::Need(bay.strike(place)?),
        _ => Answer::Elsewhere,
    })
}

// A total as a value of its own.
fn total_in<K: Kind, A: Algebra>(road: &RoadSheet<'_, K>, depth: u8) -> Result<A::Value, Refusal>
    ensures refused { Outcome result (road_causes K.Kind road.now (total_asked depth)) }
    ensures answer { IfOk result (λ x. TotalsOf K.Kind A.Algebra (road_standing road.now) depth x) }
{
    Ok(road.total_at::<A>(Depth::try_from(depth)?))
}

// A total in the algebra that the call names.
fn total<K: Kind, A: Algebra>(
    road: &RoadSheet<'_, K>,
    algebra: AlgebraName,
    depth: u8,
) -> Result<Answer<K, A::Value>, Refusal>
    ensures step { StepOf K.Kind A.Algebra (total_call algebra depth) (road_page road.now) (answer_of result) (road_page road.now) }
{
    Ok(match algebra {
        AlgebraName::Fixed => Answer::Fixed(total_in::<K, Fixed>(road, depth)?),
        AlgebraName::Polynomial => Answer::Polynomial(total_in::<K, Polynomial>(road, depth)?),
        AlgebraName::Count => Answer::Count(total_in::<K, Count>(road, depth)?),
        AlgebraName::Own => Answer::Own(total_in::<K, A>(road, depth)?),
    })
}

// A call to a sheet that stays on the road.
fn ask<K: Kind, A: Algebra>(
    road: &mut RoadSheet<'_, K>,
    call: Call<K>,
) -> Result<Answer<K, A::Value>, Refusal>
    requires stays { call ≢ call_in_call }
    ensures step { StepOf K.Kind A.Algebra call (road_page road.old) (answer_of result) (road_page road.new) }
{
    Ok(match call {
        Call::Find(need) => Answer::Found(road.find(need)),
        Call::Total(algebra, depth) => total::<K, A>(road, algebra, depth)?,
        Call::Bracket(depth) => Answer::Bracket(road.bracket(depth)?),
        Call::Judge(depth, threshold) => Answer::Verdict(road.judge(depth, threshold)?),
        Call::Try(component, supposed, depth) => {
            Answer::Bracket(road.try_with(component, supposed, depth)?)
        }
        _ => Answer::Elsewhere,
    })
}

// What a call is answered that was carried out or refused.
fn answered<K, V>(outcome: Result<Answer<K, V>, Refusal>) -> Answer<K, V>
    ensures answer { result ≡ answer_of outcome }
{
    outcome.unwrap_or_else(|refusal| Answer::Refused(refusal))
}

// Sends a sheet one call: the sheet afterwards, and the answer.
pub(crate) fn send<'a, K: Kind, A: Algebra>(
    sheet: Sheet<'a, K>,
    call: Call<K>,
) -> (Sheet<'a, K>, Answer<K, A::Value>)
    ensures step { StepOf K.Kind A.Algebra call (page_of sheet.entry) result.1 (page_of result.0) }
{
    match sheet {
        Sheet::Bay(mut bay) => match call {
            Call::PutOut => (Sheet::Road(bay.put_out()), Answer::Done),
            _ => {
                let answer = answered(change::<K, A>(&mut bay, call));
                (Sheet::Bay(bay), answer)
            }
        },
        Sheet::Road(mut road) => match call {
            Call::CallIn => (Sheet::Bay(road.call_in()), Answer::Done),
            _ => {
                let answer = answered(ask::<K, A>(&mut road, call));
                (Sheet::Road(road), answer)
            }
        },
    }
}
