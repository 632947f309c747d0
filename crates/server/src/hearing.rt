//! What a script is to a worker: its events, and the datagrams that can't be read.
ghost use Rattle.std.specs.Prelude.{◌≡◌, ◌+◌, ◌-◌, ◌^◌, ◌<◌, ◌++◌, ◌∷◌, [], List, IfOk, OnOk, option_to_list};
ghost use Rattle.scripts.specs.declared.script.Block.{Block};
ghost use Rattle.server.specs.Page.{Readings, AreReadings, event_of, unread_line};
ghost use Rattle.server.specs.Hearing.{HasHeard};

use notifier_model::Event;
use scripts::{Block, Page};
use sip_read::{Addr, Message, ReadError, read};
use sip_text::NoMemory;
use std::alloc::Global;

/// What has been heard of a script so far.
#[derive(Drop)]
pub struct HeardScript {
    pub events: Vec<Event>,
    /// The lines of the datagrams that can't be read.
    pub unread: Page,
    /// How many datagrams there were.
    pub datagrams: u64,
}

impl HeardScript {
    /// Takes in a datagram.
    fn datagram(&mut self, alloc: Global, source: Addr, octets: &[u8]) -> Result<(), NoMemory>
        requires { self.old.datagrams < 2 ^ 64 - 1 }
        ensures events { OnOk result ((readings : Readings) → AreReadings readings →
            self.new.events.items ≡ self.old.events.items ++ option_to_list (event_of source (readings octets.now))) }
        ensures unread { OnOk result ((readings : Readings) → AreReadings readings →
            self.new.unread ≡ self.old.unread ++ unread_line self.new.datagrams (readings octets.now)) }
        ensures datagrams { OnOk result (self.new.datagrams ≡ self.old.datagrams + 1) }
    {
        self.datagrams += 1;
        match read(alloc, octets) {
            Ok(Message::Request(request)) => {
                self.events.push(Event::Request(source, request))?;
            }
            Ok(Message::Response(response)) => {
                self.events.push(Event::Reply(response))?;
            }
            Err(ReadError::NoMemory) => return Err(NoMemory),
            Err(error) => {
                self.unread
                    .unread(alloc, self.datagrams, error.number() as u8)?;
            }
        }
        Ok(())
    }

    /// Takes in what happened, if it is an event.
    fn event(&mut self, event: Option<Event>) -> Result<(), NoMemory>
        ensures events { OnOk result (self.new.events.items ≡ self.old.events.items ++ option_to_list event) }
        ensures unread { OnOk result (self.new.unread ≡ self.old.unread) }
        ensures datagrams { OnOk result (self.new.datagrams ≡ self.old.datagrams) }
    {
        if let Some(event) = event {
            self.events.push(event)?;
        }
        Ok(())
    }

    /// Takes in a block.
    fn block(&mut self, alloc: Global, block: Block) -> Result<(), NoMemory>
        requires { self.old.datagrams < 2 ^ 64 - 1 }
        ensures { OnOk result ((blocks : List Block) → HasHeard blocks self.old
            → HasHeard (blocks ++ block ∷ []) self.new) }
    {
        match block {
            Block::Sip(source, octets) => self.datagram(alloc, source, octets.as_slice())?,
            Block::Change(change) => self.event(Event::of(change))?,
            Block::Tick(time) => self.event(Some(Event::Tick(time)))?,
        }
        Ok(())
    }
}

/// Hears all of a script.
pub fn hear(alloc: Global, blocks: Vec<Block>) -> Result<HeardScript, NoMemory>
    ensures { IfOk result (HasHeard blocks.items) }
{
    let mut hearing = HeardScript {
        events: Vec::new(alloc),
        unread: Page::new(alloc),
        datagrams: 0,
    };
    for block in blocks {
        hearing.block(alloc, block)?;
    }
    Ok(hearing)
}
