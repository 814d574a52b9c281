// Keys that are numbers.
ghost use Rattle.std.specs.Prelude.{◌≡◌, ◌<◌, ⊤};
ghost use Rattle.pending.specs.KeysLemmas.{below_path};

use crate::key::{Key, NONE};
use std::alloc::AllocError;
use std::fmt;
use std::marker::PhantomData;

// What a number is the number of, by its name.
pub trait Kind {
    const NAME: &'static str;
}

// A number from 0 to 254. Its kind T tells what it is the number of, and no value of T is kept.
#[derive_where(PartialEq, Eq)]
pub struct Id<T> {
    number: u8,
    kind: PhantomData<T>,
    ghost below: { number < 255 },
}

// By hand: with a type parameter no copy is derived beside a ghost field, and a `Model` would hide the bound that `Key` has as a law.
impl<T> Clone for Id<T> {
    ghost is_clone = { λ x y. y ≡ x };

    ghost is_infallible = { λ _. ⊤ };

    fn clone(&self) -> Result<Id<T>, AllocError> {
        Ok(*self)
    }
}

impl<T> Copy for Id<T> {}

// By hand, so that a client and a task read as such.
impl<T: Kind> fmt::Debug for Id<T> {
    fn fmt<W: fmt::Write>(&self, f: &mut fmt::Formatter<W>) -> fmt::Result {
        let Id { number, .. } = self;
        f.debug_struct(T::NAME).field("number", number).finish()
    }
}

impl<T> Key for Id<T> {
    ghost code = { λ k. k.number };

    ghost below = { λ k. k.below };

    ghost same = { λ j k e i. record { number = e i; kind = j.kind; below = below_path e j.below k.below i } };

    fn number(&self) -> u8 {
        self.number
    }

    fn from_number(number: u8) -> Option<Id<T>> {
        if number == NONE {
            return None;
        }
        Some(Id {
            number,
            kind: PhantomData,
        })
    }
}
