// A line with one place, for any number of clients.
ghost use Rattle.std.specs.Prelude.{◌≡◌, ◌≤◌, true, None};
ghost use Rattle.line.specs.Lines.{number_of};
ghost use Rattle.line_tests.specs.OnePlaces.{known, one_view};
ghost use Rattle.line_tests.specs.OnePlacesLemmas.{one_law};

use calls::refusal::Refusal;
use line::line::Line;
use pending::client::Client;
use pending::key::Key;

// Whoever comes last is served first, since nobody waits beside it.
#[derive(Drop)]
pub struct OnePlace {
    clients: u8,
    waiting: Option<Client>,
    // True of any byte; so a proof knows, where it does not read the field, that each client has a key.
    ghost few: { clients ≤ 255 },
    ghost known: { known clients (number_of waiting) ≡ true },
}

impl OnePlace {
    pub fn new(clients: u8) -> OnePlace
        ensures clients { result.clients ≡ clients }
        ensures nobody { result.waiting ≡ None }
    {
        OnePlace {
            clients,
            waiting: None,
        }
    }
}

impl Line for OnePlace {
    ghost view = { λ l. one_view l.clients (number_of l.waiting) };

    ghost sound = { λ l. one_law _ _ l.known };

    fn clients(&self) -> u8 {
        self.clients
    }

    fn is_waiting(&self, client: u8) -> bool {
        self.waiting
            .is_some_and(|waiting| waiting.number() == client)
    }

    #[tactic(auto, using(crate::specs::OnePlacesLemmas::one_full))]
    fn is_full(&self) -> bool {
        self.waiting.is_some()
    }

    fn is_empty(&self) -> bool {
        self.waiting.is_none()
    }

    fn put(&mut self, client: u8) -> Result<(), Refusal> {
        self.check_put(client)?;
        self.waiting = Client::from_number(client);
        Ok(())
    }

    // Not `Option::take`, by which the proof did not close where nobody waits.
    fn take(&mut self) -> Option<Client> {
        let waiting = self.waiting?;
        self.waiting = None;
        Some(waiting)
    }
}
