// What a waiting line is.
ghost use Rattle.std.specs.Prelude.{◌≡◌};
ghost use Rattle.line.specs.Lines.{LineView, LineLaw, is_full, is_empty, put_answer, Puts, Takes, number_of};

use calls::refusal::Refusal;
use pending::client::Client;

// A line of waiting clients. It alone decides who of them is next, and no two lines need decide alike.
// Any number may be put or asked about: the line judges it. No `Model`: a refusal leaves the whole line as it was, and not its view alone.
pub trait Line {
    // Its clients, its places and the bound on patience, which never change; who waits, how patiently, and who is next.
    ghost view: { Self → LineView };

    // How many clients the line is for.
    fn clients(&self) -> u8
        ensures { result ≡ (view self.now).size.clients };

    fn is_waiting(&self, client: u8) -> bool
        ensures { result ≡ (view self.now).waits client };

    // No place is free.
    fn is_full(&self) -> bool
        ensures { result ≡ is_full (view self.now) };

    fn is_empty(&self) -> bool
        ensures { result ≡ is_empty (view self.now) };

    // What a put of the client would answer.
    fn check_put(&self, client: u8) -> Result<(), Refusal>
        ensures { result ≡ put_answer (view self.now) client }
    {
        if client >= self.clients() {
            return Err(Refusal::NoSuchClient);
        }
        if self.is_waiting(client) {
            return Err(Refusal::AlreadyRequested);
        }
        if self.is_full() {
            return Err(Refusal::LineFull);
        }
        Ok(())
    }

    // Puts the client in line. A refusal leaves the line as it was.
    fn put(&mut self, client: u8) -> Result<(), Refusal>
        ensures answer { result ≡ put_answer (view self.old) client }
        ensures moves { Puts view self.old client result self.new };

    // Takes the next client out of the line. Where nobody waits, the line is left as it was.
    fn take(&mut self) -> Option<Client>
        ensures answer { number_of result ≡ (view self.old).next }
        ensures moves { Takes view self.old result self.new };

    ghost sound: { (l : Self) → LineLaw (view l) };
}
