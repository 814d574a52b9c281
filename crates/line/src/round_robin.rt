// The line that serves its clients in turn.
ghost use Rattle.std.specs.Prelude.{◌≡◌, ◌^◌, ◌<◌, ◌≤◌, IfSome, IfOk, Some, ◌==◌, unwrap_or};
ghost use Rattle.std.specs.Result.{result_err};
ghost use Rattle.line.specs.Lines.{waiting, put_answer, Put, Took, Puts, Takes, number_of};
ghost use Rattle.line.specs.Making.{make_refusal};
ghost use Rattle.line.specs.Turns.{bit, with_bit, without_bit, LeastPatience, joined, left};
ghost use Rattle.line.specs.TurnsLemmas.{round_law};

use crate::line::Line;
use crate::size::Size;
use calls::refusal::Refusal;
use pending::client::Client;
use pending::key::Key;

// Whoever waits has its bit set. The turn goes round from the client last taken.
#[derive(Drop)]
pub struct RoundRobin {
    clients: u8,
    last: u8,
    // By docs/lines.md one bit for each of the 32 clients that there can be.
    word: u32,
    ghost few: { clients ≤ 32 },
    ghost inside: { last < clients },
    ghost known: { word < 2 ^ clients },
}

impl RoundRobin {
    ghost use Rattle.line.specs.RoundRobin.{view, Made};

    // A line for so many clients, with a place for each.
    pub fn new(clients: u8, places: u8) -> Result<RoundRobin, Refusal>
        ensures answer { result_err result ≡ make_refusal clients (places == clients) }
        ensures made { IfOk result (Made clients) }
    {
        let Size { clients, places } = Size::new(clients, places)?;
        if places != clients {
            return Err(Refusal::PlacesOutOfRange);
        }
        Ok(RoundRobin {
            clients,
            last: clients - 1,
            word: 0,
        })
    }

    // The client whose turn is next, if anybody waits: the first behind the last one, or else the first of all.
    fn next_client(&self) -> Option<u8>
        ensures { result ≡ (view self.now).next }
    {
        // In two steps, since there is no shift by 32.
        let later = (self.word >> self.last) >> 1;
        if later != 0 {
            return Some(self.last + 1 + later.trailing_zeros() as u8);
        }
        if self.word != 0 {
            return Some(self.word.trailing_zeros() as u8);
        }
        None
    }

    #[tactic(auto, using(crate::specs::Bits::bit_test))]
    fn has_bit(&self, client: u8) -> bool
        requires { client < 32 }
        ensures { result ≡ bit self.now.word client }
    {
        (self.word >> client) & 1 == 1
    }

    // How many clients wait.
    #[tactic(auto, using(crate::specs::Bits::ones_waiting))]
    fn waiting(&self) -> u8
        ensures { result ≡ waiting (view self.now).waits self.now.clients }
    {
        self.word.count_ones() as u8
    }

    // Sets the bit of a client that does not wait.
    fn join(&mut self, client: u8)
        requires { client < self.old.clients }
        ensures moves { Put (view self.old) client (view self.new) }
        ensures word { self.new.word ≡ with_bit self.old.word client }
        ensures last { self.new.last ≡ self.old.last }
    {
        self.word |= 1 << client;
    }

    // Clears the bit of the next client, and counts the turns from it.
    fn pass(&mut self, next: u8)
        requires { (view self.old).next ≡ Some next }
        ensures least { LeastPatience (view self.old) next }
        ensures moves { Took (view self.old) next (view self.new) }
        ensures word { self.new.word ≡ without_bit self.old.word next }
        ensures last { self.new.last ≡ next }
    {
        self.word &= !(1 << next);
        self.last = next;
    }
}

impl Line for RoundRobin {
    ghost use Rattle.line.specs.RoundRobin.{view};
    ghost use Rattle.line.specs.RoundRobinLemmas.{round};

    ghost view = { view };

    ghost sound = { λ l. round_law _ _ _ (round l) };

    fn clients(&self) -> u8 {
        self.clients
    }

    #[tactic(auto, using(crate::specs::Bits::bit_high))]
    fn is_waiting(&self, client: u8) -> bool {
        client < self.clients && self.has_bit(client)
    }

    fn is_full(&self) -> bool {
        self.waiting() >= self.clients
    }

    fn is_empty(&self) -> bool {
        self.next_client().is_none()
    }

    // Not the trait's: who does not wait finds a place, since there is one for each client.
    #[tactic(auto, using(crate::specs::RoundRobinLemmas::place_free))]
    fn check_put(&self, client: u8) -> Result<(), Refusal> {
        if client >= self.clients {
            return Err(Refusal::NoSuchClient);
        }
        if self.is_waiting(client) {
            return Err(Refusal::AlreadyRequested);
        }
        Ok(())
    }

    // Not a body of the trait's, which could not promise what this line adds; added clauses replace the trait's, so these stand again.
    fn put(&mut self, client: u8) -> Result<(), Refusal>
        ensures answer { result ≡ put_answer (view self.old) client }
        ensures moves { Puts view self.old client result self.new }
        ensures word { self.new.word ≡ joined result client self.old.word }
        ensures last { self.new.last ≡ self.old.last }
    {
        self.check_put(client)?;
        self.join(client);
        Ok(())
    }

    fn take(&mut self) -> Option<Client>
        ensures answer { number_of result ≡ (view self.old).next }
        ensures moves { Takes view self.old result self.new }
        ensures least { IfSome result (λ g. LeastPatience (view self.old) g.number) }
        ensures word { self.new.word ≡ left (view self.old).next self.old.word }
        ensures last { self.new.last ≡ unwrap_or (view self.old).next self.old.last }
    {
        let next = self.next_client()?;
        self.pass(next);
        Client::from_number(next)
    }
}
