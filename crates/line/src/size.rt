// How large a line is.
ghost use Rattle.std.specs.Prelude.{◌≡◌, ◌≤◌, IfOk};
ghost use Rattle.std.specs.Result.{result_err};
ghost use Rattle.line.specs.Making.{make_refusal, places_fit};

use calls::refusal::Refusal;

// From 1 to 32 clients, and from 1 place to a place for each.
#[derive(Clone, Copy)]
pub(crate) struct Size {
    pub(crate) clients: u8,
    pub(crate) places: u8,
    ghost few: { clients ≤ 32 },
    ghost some: { 1 ≤ places },
    ghost fitting: { places ≤ clients },
}

impl Size {
    pub(crate) fn new(clients: u8, places: u8) -> Result<Size, Refusal>
        ensures answer { result_err result ≡ make_refusal clients (places_fit clients places) }
        ensures clients { IfOk result (λ size. size.clients ≡ clients) }
        ensures places { IfOk result (λ size. size.places ≡ places) }
    {
        if !(1..=32).contains(&clients) {
            return Err(Refusal::ClientsOutOfRange);
        }
        if !(1..=clients).contains(&places) {
            return Err(Refusal::PlacesOutOfRange);
        }
        Ok(Size { clients, places })
    }
}
