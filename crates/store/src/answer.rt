ghost use Rattle.std.specs.Prelude.{◌≡◌};
ghost use Rattle.store.specs.code.Refusals.{number_of, answer_of};

// A refusal by its number, 0 where the call was accepted, and a count, 0 where it was refused. Numbers, since include/odm_store.h has them so for C.
#[repr(C)]
#[derive(Clone, Copy)]
pub struct Answer {
    pub refusal: u32,
    pub count: u32,
}

// What document 01's table refuses, and order 1's 16; each has its number there.
#[derive(Clone, Copy, Debug, PartialEq, Eq)]
pub enum Refusal {
    BufferLength,
    NotValid,
    TooLong,
    WrittenForm,
    Element,
    Attribute,
    Value,
    OtherStudy,
    Series,
    Word,
    AlreadyLive,
    NotLive,
    Limit,
    ShortOutput,
    NotLast,
    MixedItems,
}

impl From<Refusal> for u32 {
    ghost from_gives = { λ r n. n ≡ number_of r };

    fn from(refusal: Refusal) -> u32 {
        match refusal {
            Refusal::BufferLength => 1,
            Refusal::NotValid => 2,
            Refusal::TooLong => 3,
            Refusal::WrittenForm => 4,
            Refusal::Element => 5,
            Refusal::Attribute => 6,
            Refusal::Value => 7,
            Refusal::OtherStudy => 8,
            Refusal::Series => 9,
            Refusal::Word => 10,
            Refusal::AlreadyLive => 11,
            Refusal::NotLive => 12,
            Refusal::Limit => 13,
            Refusal::ShortOutput => 14,
            Refusal::NotLast => 15,
            Refusal::MixedItems => 16,
        }
    }
}

// A call's answer: the count, or the number of what refuses it.
impl From<Result<u32, Refusal>> for Answer {
    ghost from_gives = { λ r a. a ≡ answer_of r };

    fn from(count: Result<u32, Refusal>) -> Answer {
        match count {
            Ok(count) => Answer { refusal: 0, count },
            Err(refusal) => Answer {
                refusal: u32::from(refusal),
                count: 0,
            },
        }
    }
}
