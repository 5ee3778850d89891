// How much room a payload has for blocks.
ghost use Rattle.std.specs.Prelude.{◌≡◌};
ghost use Rattle.sending.specs.Cuts.{room_bytes};

// The two kinds of payload for which messages are cut.
#[derive(Clone, Copy, PartialEq, Eq, Debug)]
pub enum Room {
    // a payload of 30 bytes, EB 52 among them
    OneX,
    // a payload of 60 bytes
    TwoX,
}

impl Room {
    // How many bytes the payload has for blocks: a table, since that is no number of its kind.
    pub fn bytes(self) -> usize
        ensures answer { result ≡ room_bytes self }
    {
        match self {
            Room::OneX => 28,
            Room::TwoX => 58,
        }
    }
}
