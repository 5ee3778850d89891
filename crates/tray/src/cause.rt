// Why a fault is told.
ghost use Rattle.std.specs.Prelude.{◌≡◌, ◌<◌, ◌≤◌, ◌⊎◌, MatchOption};
ghost use Rattle.tray.specs.Causes.{numbers, most_cause};

// What was wrong: a block isn't read, or the message that it completes fails its check. No Option of a block's cause: a message
// has a cause too, at a layer of its own.
#[derive(Clone, Copy, PartialEq, Eq, Debug)]
pub enum Cause {
    Block(walk::Cause),
    Message,
}

impl Cause {
    // No TryFrom: the error would be a type of its own, since only the tray's reader knows the place that is refused.
    // The cause at one of the two layers by its number, none where the layer has no such cause.
    pub(crate) fn at(layer: u8, number: u8) -> Option<Cause>
        requires layer { (1 ≤ layer) × (layer ≤ 2) }
        ensures answer { MatchOption result ((number ≡ 0) ⊎ (most_cause layer < number)) (λ cause. numbers cause ≡ (layer, number)) }
    {
        match (layer, number) {
            (1, 1) => Some(Cause::Block(walk::Cause::Torn)),
            (1, 2) => Some(Cause::Block(walk::Cause::Crc)),
            (1, 3) => Some(Cause::Block(walk::Cause::Part)),
            (1, 4) => Some(Cause::Block(walk::Cause::Short)),
            (2, 1) => Some(Cause::Message),
            _ => None,
        }
    }

    // A table, and no `as`: a case has a field.
    // The number of the layer: 1 block, 2 message.
    pub fn layer(self) -> u8
        ensures answer { result ≡ (numbers self).0 }
    {
        match self {
            Cause::Block(_) => 1,
            Cause::Message => 2,
        }
    }

    // The number of the cause at its layer: a block has four causes, a message one.
    pub fn number(self) -> u8
        ensures answer { result ≡ (numbers self).1 }
    {
        match self {
            Cause::Block(cause) => cause.number(),
            Cause::Message => 1,
        }
    }
}
