// The numbers that stand for refusals and answers (documents 01 and 02).
ghost use Rattle.std.specs.Prelude.{◌≡◌};
ghost use Rattle.lock_rules.specs.Numbers.{refusal_number, returned_of};

use crate::{Answer, Refusal};

impl From<Refusal> for u8 {
    ghost from_gives = { λ refusal number. number ≡ refusal_number refusal };

    #[tactic(auto, unfolding(crate::specs::Numbers::refusal_number))]
    fn from(refusal: Refusal) -> u8 {
        match refusal {
            Refusal::NotSound => 11,
            Refusal::NoSuchThread => 12,
            Refusal::NoSuchObject => 13,
            Refusal::NotIdle => 14,
            Refusal::ThreadIdle => 15,
            Refusal::ThreadParked => 16,
            Refusal::NoSuchOperation => 17,
            Refusal::LimitOutOfRange => 23,
        }
    }
}

impl From<Answer> for u8 {
    ghost from_gives = { λ answer number. number ≡ returned_of answer };

    fn from(answer: Answer) -> u8 {
        match answer {
            Answer::GoneOn => 0,
            Answer::Finished(_) => 1,
            Answer::Parked => 2,
            Answer::NotOwner => 18,
            Answer::TooDeep => 19,
            Answer::NoRule => 20,
        }
    }
}
