// What a text asks for: its command with its numbers.
use crate::entry::Entry;
use crate::flaw::Flaw;
use crate::mem::HandOut;
use crate::numbers::Numbers;
use crate::verb::command_of;
use crate::word::word;
use access::vector::Vector;
use model::Request;

#[derive(Clone, Copy)]
pub enum Command {
    // The words behind the command are written, and nothing else.
    Say,
    // For n user domains, with this protection unit.
    Fresh(i32, u32),
    Entry(Entry),
    Close,
    // The calling task's number, and what it asks.
    Call(i32, Request),
    Probe {
        domain: i32,
        base: u32,
        size: u32,
        wishes: u32,
    },
    HandOut(HandOut),
    Audit(i32, Vector),
    Dump,
}

// The command of a text (crate::text), or why it is not made; None for a blank line, which asks for nothing.
pub fn parse(text: &[u8]) -> Option<Result<Command, Flaw>> {
    if text.is_empty() {
        return None;
    }
    Some(command_of(word(text, 0), Numbers::of(text)))
}
