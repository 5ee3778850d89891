// Kinds of message: which numbers they have, and how their bodies are read.
ghost use Rattle.std.specs.Prelude.{◌≡◌, ℕ, Bool, List, None, Ok, Option};
ghost use Rattle.buffers.specs.Places.{Bytes, Smallest, told};
ghost use Rattle.body.specs.Format.{Reserved};
ghost use Rattle.body.specs.Laws.{Writing, Accepts, RefusesFirst};
ghost use Rattle.body.specs.Messages.{Said};
ghost use Rattle.body.specs.Reading.{reading};

use refusal::Refusal;

// A format of bodies: the message numbers that have it, what each body says or where it is wrong, and its laws.
pub trait Format {
    // which message numbers are of this kind
    ghost numbers: { ℕ → Bool };

    // the place at which a body is wrong
    ghost fault: { List ℕ → Option ℕ };

    // what a body says that is nowhere wrong
    ghost says: { List ℕ → Said };

    // in words: the byte at a place of a body is wrong, or lacks
    ghost faulty: { List ℕ → ℕ → Type 0 };

    // the place of a message's first value that no body can have
    ghost wrong: { Said → Option ℕ };

    // the bytes of a message, by what stands in the reserved bits
    ghost bytes: { Reserved → Said → List ℕ };

    // Whether a message number is of this kind.
    fn takes(number: u8) -> bool
        ensures answer { result ≡ numbers number };

    // Reads a body and lets the message go.
    // In each impl: a default can't name `Kind` at every lifetime, and a generic function over it leads back to the impl.
    fn check(body: &[u8]) -> Result<(), Refusal>
        ensures answer { result ≡ told (λ _. tt) (reading fault says body.now) };

    // a body is refused at its smallest wrong place
    ghost smallest: { (b : List ℕ) → Smallest (faulty b) (fault b) };

    // a body that is nowhere wrong is some writing of what it says
    ghost only: { (b : List ℕ) → Bytes b → fault b ≡ None → Writing wrong bytes (says b) b };

    // each writing of a message is read as that message
    ghost every: { (m : Said) (b : List ℕ) → Writing wrong bytes m b → Ok m ≡ reading fault says b };
}

// A kind of message. A message may hold parts of the body that it is read from.
pub trait Kind<'a>: Format {
    type Message;

    // what a message says
    ghost said: { Self.Message → Said };

    // Reads a body into its message.
    fn read(body: &'a [u8]) -> Result<Self::Message, Refusal>
        ensures answer { told said result ≡ reading Self.Format.fault Self.Format.says body.now };
}

// Reads a body of any kind. It is accepted as a message exactly if it is some writing of that message, whatever stands in the
// reserved bits; otherwise it is refused at the smallest place at which it is wrong.
pub fn read_body<'a, K: Kind<'a>>(body: &'a [u8]) -> Result<K::Message, Refusal>
    ensures answer { told K.Kind.said result ≡ reading K.Format.fault K.Format.says body.now }
    ensures accepts { Accepts (λ m. Writing K.Format.wrong K.Format.bytes m body.now) (told K.Kind.said result) }
    ensures refuses { RefusesFirst (K.Format.faulty body.now) (told K.Kind.said result) }
{
    K::read(body)
}
