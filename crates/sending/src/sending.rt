// A sending in memory.
use super::parts::Parts;
use std::marker::Model;

// A message in one to four parts. Every one that exists keeps the rule `IsSending`.
#[derive(Drop)]
pub struct Sending {
    pub(crate) number: u8,
    pub(crate) version: u8,
    pub(crate) parts: Parts,
}

impl Model for Sending {
    ghost use Rattle.sending.specs.Sendings as value;

    ghost Value = { value.Sending };

    ghost view = { λ s. record { number = s.number; version = s.version; parts = s.parts } };

    ghost invariant = { λ s. value.IsSending (record { number = s.number; version = s.version; parts = s.parts }) };
}
