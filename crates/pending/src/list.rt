// The once-pending list.
ghost use Rattle.std.specs.Prelude.{◌≡◌, Some, true, false, [], ◌∷◌, ◌++◌, length, if◌then◌else◌, nat_eq, slice_index, slice_set};
ghost use Rattle.std.specs.Option.{option_map};
ghost use Rattle.pending.specs.Numbers.{has, distinct};
ghost use Rattle.pending.specs.Chains.{Linked, Distinct, Ended, Clear, Counted};
ghost use Rattle.pending.specs.Orders.{is_empty, add_answer, added, oldest, rest};

use crate::key::{Key, NONE};
use calls::refusal::Refusal;
use std::marker::PhantomData;
use std::mem;

// Keys in their order of arrival, each at most once: their numbers are linked.
// docs/pending.md names the store: a head, a tail and a table of 255 next numbers, where 255 stands for none.
// A number's next one is 255 if it is the last, or not there at all.
// No `Model`: a refusal leaves the whole store as it was, and not its order alone.
#[derive(Drop)]
pub struct PendingList<K> {
    head: u8,
    tail: u8,
    next: [u8; 255],
    // Kept, so that none need be counted.
    len: u8,
    kind: PhantomData<K>,
    ghost linked: { Linked head next },
    ghost distinct: { Distinct head next },
    ghost ended: { Ended head tail next },
    ghost clear: { Clear head next },
    ghost counted: { Counted len head next },
}

impl<K: Key> PendingList<K> {
    ghost use Rattle.pending.specs.Lists.{order};

    #[tactic(auto, using(crate::proofs::Stores::fresh_facts, crate::proofs::Stores::fresh_chain))]
    pub fn new() -> PendingList<K>
        ensures { order result ≡ [] }
    {
        PendingList {
            head: NONE,
            tail: NONE,
            next: [NONE; 255],
            len: 0,
            kind: PhantomData,
        }
    }

    // How many keys are pending: no key is counted twice.
    pub fn len(&self) -> u8
        ensures answer { result ≡ length (order self.now) }
        ensures once { distinct (order self.now) ≡ true }
    {
        self.len
    }

    #[tactic(auto, using(crate::proofs::Stores::list_is_empty))]
    pub fn is_empty(&self) -> bool
        ensures { result ≡ is_empty (order self.now) }
    {
        self.head == NONE
    }

    #[tactic(auto, using(crate::proofs::Stores::list_has))]
    pub fn is_pending(&self, key: &K) -> bool
        ensures { result ≡ has (K.code key.now) (order self.now) }
    {
        let number = key.number();
        self.next[number as usize] != NONE || self.tail == number
    }

    // Puts the key last. A pending one is refused, and nothing changes.
    pub fn add(&mut self, key: &K) -> Result<(), Refusal>
        ensures answer { result ≡ add_answer (K.code key.now) (order self.old) }
        ensures moves { order self.new ≡ added (K.code key.now) (order self.old) }
        ensures refused { has (K.code key.now) (order self.old) ≡ true → self.new ≡ self.old }
    {
        if self.is_pending(key) {
            return Err(Refusal::AlreadyPending);
        }
        self.append(key);
        Ok(())
    }

    // Takes the oldest key. Where there is none, nothing changes.
    #[tactic(auto, using(crate::proofs::Stores::list_oldest, crate::proofs::Stores::rest_none))]
    pub fn take(&mut self) -> Option<K>
        ensures answer { option_map K.code result ≡ oldest (order self.old) }
        ensures moves { order self.new ≡ rest (order self.old) }
        ensures none { order self.old ≡ [] → self.new ≡ self.old }
    {
        let first = K::from_number(self.head)?;
        self.remove(&first);
        Some(first)
    }

    // Puts a key that is not pending last.
    fn append(&mut self, key: &K)
        requires { has (K.code key.now) (order self.old) ≡ false }
        ensures { order self.new ≡ order self.old ++ K.code key.now ∷ [] }
    {
        let number = key.number();
        let last = self.tail;
        if last == NONE {
            self.head = number;
        } else {
            self.next[last as usize] = number;
        }
        self.tail = number;
        self.len += 1;
    }

    // Takes the oldest key out.
    fn remove(&mut self, first: &K)
        requires { oldest (order self.old) ≡ Some (K.code first.now) }
        ensures { order self.new ≡ rest (order self.old) }
    {
        self.head = unlink(&mut self.next, first);
        self.tail = tail_behind(self.head, self.tail);
        self.len -= 1;
    }
}

// The tail of what begins with `head`, if it is not empty.
fn tail_behind(head: u8, tail: u8) -> u8
    ensures { result ≡ (if nat_eq head 255 then 255 else tail) }
{
    if head == NONE { NONE } else { tail }
}

// Takes the number that is next to the key's out of the table.
fn unlink<K: Key>(next: &mut [u8; 255], key: &K) -> u8
    ensures answer { result ≡ slice_index next.old (K.code key.now) }
    ensures moves { next.new ≡ slice_set next.old (K.code key.now) 255 }
{
    mem::replace(&mut next[key.number() as usize], NONE)
}
