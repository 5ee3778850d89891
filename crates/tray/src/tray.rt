// A tray that is accepted, and how far its entries are given.
ghost use Rattle.std.specs.Prelude.{◌≡◌, ◌++◌, false, drop, is_some};
ghost use Rattle.tray.specs.Reading.{messages_fault, faults_fault, entries_in};
ghost use Rattle.tray.specs.Steps.{messages_ahead, faults_ahead};

use super::row::Row;

// The used part of a tray, every byte of it right.
#[derive(Clone, Copy, PartialEq, Eq, Debug)]
pub struct Tray<'a> {
    pub(crate) bytes: &'a [u8],
    pub(crate) messages: Row,
    pub(crate) faults: Row,
    ghost messages_right: { is_some (messages_fault messages.left messages.place (drop messages.place bytes.now)) ≡ false },
    ghost faults_right: { is_some (faults_fault faults.left faults.place (drop faults.place bytes.now)) ≡ false },
    ghost whole: { messages_ahead messages bytes.now ++ faults_ahead faults bytes.now ≡ entries_in bytes.now },
}

// The entries of a tray that are still to be given, in order: messages, then faults. No part of it is a tray: a tray's rows are
// whole, these get shorter.
#[derive(Drop, Debug)]
pub struct Entries<'a> {
    pub(crate) bytes: &'a [u8],
    pub(crate) messages: Row,
    pub(crate) faults: Row,
    ghost messages_right: { is_some (messages_fault messages.left messages.place (drop messages.place bytes.now)) ≡ false },
    ghost faults_right: { is_some (faults_fault faults.left faults.place (drop faults.place bytes.now)) ≡ false },
}
