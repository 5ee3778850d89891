// What a sending tells of itself, and with each answer that it keeps the rule, which its value alone does not say.
ghost use Rattle.std.specs.Prelude.{◌≡◌, length};
ghost use Rattle.sending.specs.Sendings.{IsSending, message};
ghost use Rattle.sending.specs.Model.{part_shown};
ghost use Rattle.sending.specs.Wanted.{wanted_part};

use super::sending::Sending;

impl Sending {
    // The number of its message.
    pub fn number(&self) -> u8
        ensures answer { result ≡ self.now.number }
        ensures rule { IsSending self.now }
    {
        self.number
    }

    // The version of its message.
    pub fn version(&self) -> u8
        ensures answer { result ≡ self.now.version }
        ensures rule { IsSending self.now }
    {
        self.version
    }

    // How many parts it has.
    pub fn parts(&self) -> usize
        ensures answer { result ≡ length self.now.parts }
        ensures rule { IsSending self.now }
    {
        self.parts.count()
    }

    // The message, in one piece.
    pub fn message(&self) -> &[u8]
        ensures answer { result.now ≡ (message self.now).bytes }
        ensures rule { IsSending self.now }
    {
        self.parts.joined()
    }

    // The bytes of part i, if there is one.
    pub fn part(&self, i: usize) -> Option<&[u8]>
        ensures answer { part_shown result ≡ wanted_part self.now i }
        ensures rule { IsSending self.now }
    {
        self.parts.get(i)
    }
}
