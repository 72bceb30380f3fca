ghost use Rattle.std.specs.Prelude.{◌≡◌};
ghost use Rattle.store.specs.Change.{kind_number};
ghost use Rattle.store.specs.Image.{kind_of};
ghost use Rattle.store.specs.code.Deciding.{kind_said, decision_of, word_numbered};
ghost use Rattle.store.specs.Word.{decide};

use crate::answer::Refusal;

// The words by their numbers: document 01 has one decision over the word's number, and `decide` takes any.
pub const INSERT: u8 = 1;

pub const UPDATE: u8 = 2;

pub const UPSERT: u8 = 3;

pub const REMOVE: u8 = 4;

pub const CONTEXT: u8 = 5;

// What a change does; its row has the kind's number.
#[derive(Clone, Copy, Debug, PartialEq, Eq)]
pub enum Kind {
    Make,
    Write,
    End,
}

impl Kind {
    // The kind that a number stands for.
    #[tactic(auto, unfolding(crate::specs::Image::kind_of, names::specs::Pick::pick))]
    pub fn of(number: usize) -> Kind
        ensures { kind_said result ≡ kind_of number }
    {
        match number {
            1 => Kind::Make,
            2 => Kind::Write,
            _ => Kind::End,
        }
    }
}

impl From<Kind> for u32 {
    ghost from_gives = { λ k n. n ≡ kind_number (kind_said k) };

    #[tactic(auto, unfolding(crate::specs::Change::kind_number))]
    fn from(kind: Kind) -> u32 {
        match kind {
            Kind::Make => 1,
            Kind::Write => 2,
            Kind::End => 3,
        }
    }
}

// The kind of the change that a word asks for, if any, for an entity that is live or not; `given` says that it is an item with Value or IsNull.
#[tactic(auto, unfolding(crate::specs::Word::decide, crate::specs::Word::updated, crate::specs::code::Deciding::word_numbered, names::specs::Pick::pick))]
pub fn decide(word: u8, live: bool, given: bool) -> Result<Option<Kind>, Refusal>
    ensures { decision_of result ≡ decide (word_numbered word) live given }
{
    match (word, live, given) {
        (INSERT, true, _) => Err(Refusal::AlreadyLive),
        (INSERT | UPSERT, false, _) => Ok(Some(Kind::Make)),
        (_, false, _) => Err(Refusal::NotLive),
        (UPDATE | UPSERT, true, true) => Ok(Some(Kind::Write)),
        (REMOVE, true, _) => Ok(Some(Kind::End)),
        (_, true, _) => Ok(None),
    }
}
