// Worked lists of calls: each premise of the law over lists occurs in one of them.
use algebras::{Algebra, Fixed, Residue};
use brackets::Verdict;
use calls::{AlgebraName, Answer, Call, replay};
use sheets::{Refusal, Supposed};

const LONGEST: usize = 16;

// The calls that each list begins with.
const START: [Call<u16>; 6] = [
    Call::Size(3),
    Call::Set(0, [48, 0, 0]),
    Call::SetByReadings(1, [0.5, 0.0, 0.0]),
    Call::Set(2, [32, 0, 0]),
    Call::Fit(3),
    Call::Fit(5),
];

// The answers of the first calls and the rest of a list on three places, and the last total.
fn answers(rest: [Call<u16>; 10]) -> ([Answer<u16, Residue>; LONGEST], u64) {
    let mut calls = [Call::PutOut; LONGEST];
    let (start, end) = calls.split_at_mut(START.len());
    start.copy_from_slice(&START);
    end.copy_from_slice(&rest);
    let mut places = [0u16; 3];
    let mut answers = [Answer::Elsewhere; LONGEST];
    let mut total = Fixed::zero();
    let _ = replay::<u16, Fixed>(&mut places, &calls, &mut answers, 12, &mut total);
    (answers, total.bits())
}

// Two tries alike, of which the deeper lies inside the other; totals of several algebras; calls that are
// refused, and calls that the other side takes.
#[test]
fn brackets_in_a_list(rt: HostRuntime) {
    let (kept, total) = answers([
        Call::Fit(7),
        Call::Find(5),
        Call::PutOut,
        Call::Try(0, Supposed::Sure, 1),
        Call::Try(0, Supposed::Sure, 2),
        Call::Total(AlgebraName::Count, 2),
        Call::Strike(0),
        Call::CallIn,
        Call::Set(0, [64, 0, 0]),
        Call::PutOut,
    ]);
    assert_eq!(rt; kept[2], Answer::Done);
    assert_eq!(rt; kept[5], Answer::Place(1));
    assert_eq!(rt; kept[6], Answer::Refused(Refusal::Comparable(0)));
    assert_eq!(rt; kept[7], Answer::Elsewhere);
    assert_eq!(rt; kept[9], Answer::Bracket((0, 1 << 32)));
    assert_eq!(rt; kept[10], Answer::Bracket((3 << 30, 3 << 30)));
    assert_eq!(rt; kept[11], Answer::Count(Residue::from(3)));
    assert_eq!(rt; kept[12], Answer::Elsewhere);
    assert_eq!(rt; total, 3 << 46);
}

// Sound, and then changes that raise only.
#[test]
fn sound_in_a_list(rt: HostRuntime) {
    let (kept, _) = answers([
        Call::PutOut,
        Call::Judge(2, 16384),
        Call::CallIn,
        Call::Fit(6),
        Call::SetByReadings(1, [0.75, 0.0, 0.0]),
        Call::Set(3, [64, 0, 0]),
        Call::PutOut,
        Call::Judge(1, 16384),
        Call::Judge(3, 16384),
        Call::Find(6),
    ]);
    assert_eq!(rt; kept[7], Answer::Verdict(Verdict::Sound));
    assert_eq!(rt; kept[9], Answer::Place(2));
    assert_eq!(rt; kept[11], Answer::Refused(Refusal::UnknownComponent));
    assert_eq!(rt; kept[13], Answer::Verdict(Verdict::Undecided));
    assert_eq!(rt; kept[14], Answer::Verdict(Verdict::Sound));
    assert_eq!(rt; kept[15], Answer::Found(Some(2)));
}

// Attention, and then changes that lower only.
#[test]
fn attention_in_a_list(rt: HostRuntime) {
    let (kept, total) = answers([
        Call::PutOut,
        Call::Judge(2, 24576),
        Call::CallIn,
        Call::Strike(0),
        Call::SetByReadings(2, [0.25, 0.0, 0.0]),
        Call::PutOut,
        Call::Judge(12, 24576),
        Call::Find(3),
        Call::Judge(13, 24576),
        Call::Total(AlgebraName::Own, 1),
    ]);
    assert_eq!(rt; kept[7], Answer::Verdict(Verdict::Attention));
    assert_eq!(rt; kept[9], Answer::Need(3));
    assert_eq!(rt; kept[12], Answer::Verdict(Verdict::Attention));
    assert_eq!(rt; kept[13], Answer::Found(None));
    assert_eq!(rt; kept[14], Answer::Refused(Refusal::BadDepth));
    assert_eq!(rt; kept[15], Answer::Own(Residue::from(3 << 44)));
    assert_eq!(rt; total, 3 << 44);
}
