// The line that serves first who came first.
ghost use Rattle.std.specs.Prelude.{◌≡◌, ◌<◌, ◌≤◌, true, false, [], ◌∷◌, ◌++◌, length, MatchResult};
ghost use Rattle.std.specs.Result.{result_err};
ghost use Rattle.pending.specs.Numbers.{below};
ghost use Rattle.pending.specs.Orders.{rest};
ghost use Rattle.pending.specs.Lists.{order};
ghost use Rattle.line.specs.Lines.{waiting, is_full, put_answer, Put, Puts, Takes, number_of};
ghost use Rattle.line.specs.Making.{make_refusal, places_fit};
ghost use Rattle.line.specs.Arrivals.{arrived};
ghost use Rattle.line.specs.ArrivalsLemmas.{queue_law};

use crate::line::Line;
use crate::size::Size;
use calls::refusal::Refusal;
use pending::client::Client;
use pending::key::Key;
use pending::list::PendingList;

// The waiting clients stand in a once-pending list, in their order of arrival.
#[derive(Drop)]
pub struct FirstCome {
    size: Size,
    queue: PendingList<Client>,
    ghost placed: { length (order queue) ≤ size.places },
    ghost known: { below size.clients (order queue) ≡ true },
}

impl FirstCome {
    ghost use Rattle.line.specs.FirstCome.{arrivals, view, Made};

    // A line for one client: a place in which any other can be made.
    pub fn new() -> FirstCome
        ensures { Made 1 1 result }
    {
        FirstCome::empty(Size {
            clients: 1,
            places: 1,
        })
    }

    // Makes a line for so many clients, with so many places, in the place of this one: it is too large to be passed about.
    pub fn make(&mut self, clients: u8, places: u8) -> Result<(), Refusal>
        ensures answer { result_err result ≡ make_refusal clients (places_fit clients places) }
        ensures moves { MatchResult result (λ _. Made clients places self.new) (λ _. self.new ≡ self.old) }
    {
        let size = Size::new(clients, places)?;
        *self = FirstCome::empty(size);
        Ok(())
    }

    fn empty(size: Size) -> FirstCome
        ensures { Made size.clients size.places result }
    {
        FirstCome {
            size,
            queue: PendingList::new(),
        }
    }

    // How many clients wait.
    #[tactic(auto, using(crate::specs::ArrivalsLemmas::queue_waiting))]
    fn waiting(&self) -> u8
        ensures { result ≡ waiting (view self.now).waits self.now.size.clients }
    {
        self.queue.len()
    }

    // Puts a client that does not wait behind all others, in a free place.
    fn join(&mut self, client: u8)
        requires known { client < self.old.size.clients }
        requires absent { (view self.old).waits client ≡ false }
        requires free { is_full (view self.old) ≡ false }
        ensures moves { Put (view self.old) client (view self.new) }
        ensures exact { arrivals self.new ≡ arrivals self.old ++ client ∷ [] }
    {
        let client = Client::from_number(client).unwrap();
        // It is not refused, since it is not pending.
        self.queue.add(&client).unwrap();
    }
}

impl Line for FirstCome {
    ghost use Rattle.line.specs.FirstCome.{arrivals, view};
    ghost use Rattle.line.specs.FirstComeLemmas.{queue};

    ghost view = { view };

    ghost sound = { λ l. queue_law _ _ _ (queue l) };

    fn clients(&self) -> u8 {
        self.size.clients
    }

    #[tactic(auto, using(crate::specs::ArrivalsLemmas::has_above))]
    fn is_waiting(&self, client: u8) -> bool {
        client < self.size.clients
            && Client::from_number(client).is_some_and(|client| self.queue.is_pending(&client))
    }

    fn is_full(&self) -> bool {
        self.waiting() >= self.size.places
    }

    fn is_empty(&self) -> bool {
        self.queue.is_empty()
    }

    // Not a body of the trait's, which could not promise what this line adds; added clauses replace the trait's, so these stand again.
    fn put(&mut self, client: u8) -> Result<(), Refusal>
        ensures answer { result ≡ put_answer (view self.old) client }
        ensures moves { Puts view self.old client result self.new }
        ensures exact { arrivals self.new ≡ arrived result client (arrivals self.old) }
    {
        self.check_put(client)?;
        self.join(client);
        Ok(())
    }

    fn take(&mut self) -> Option<Client>
        ensures answer { number_of result ≡ (view self.old).next }
        ensures moves { Takes view self.old result self.new }
        ensures exact { arrivals self.new ≡ rest (arrivals self.old) }
    {
        // Asked first, so that the whole line is seen to stay as it was.
        if self.is_empty() {
            return None;
        }
        self.queue.take()
    }
}
