//! What is known of one dialog, and what calls make of it.
ghost use Rattle.std.specs.Prelude.{◌≡◌, [], Some, None, true, length, OnOk, OnErr, IfOk, IfErr};
ghost use Rattle.first_contact.specs.Steps as steps;
ghost use Rattle.first_contact.specs.Outcomes.{IsOffered, IsHeard, known_then};

use notifier_model::Out;
use sip_text::{Addr, NoMemory};
use std::alloc::Global;

/// The status of an answer that says that the dialog or its usage is gone (RFC 3261 section 12.2.1.2).
pub const GONE: u16 = 481;

/// The least status of a final answer (RFC 3261 section 7.2).
pub const FINAL: u16 = 200;

/// How many NOTIFYs of one dialog wait at most.
pub const MOST: usize = 64;

/// A NOTIFY of a dialog.
#[derive(Drop)]
pub struct Notice {
    /// The number of its CSeq.
    pub number: u32,
    /// Where it goes.
    pub to: Addr,
    /// Whether none follows it.
    pub is_last: bool,
    /// What is sent.
    pub out: Out,
}

/// What there is room for.
#[derive(Clone, Copy, Debug)]
pub struct Room {
    /// Whether one more dialog may begin.
    pub begins: bool,
    /// Whether a NOTIFY may wait of a dialog in which none waits.
    pub first_waits: bool,
    /// Whether one more may wait of a dialog in which one does.
    pub more_wait: bool,
}

/// What is known of a dialog.
#[derive(Drop)]
pub struct Contact {
    /// Where its latest NOTIFY goes.
    pub(crate) to: Addr,
    /// The number of the one that is under way there: of the first one, or of the next that was let through since.
    pub(crate) under_way: u32,
    /// Whether that address answered it.
    pub(crate) is_known: bool,
    /// Whether none follows the latest.
    pub(crate) is_ending: bool,
    /// What waits for the answer to the one under way, in order.
    pub(crate) held: Vec<Notice>,
}

/// What became of a NOTIFY that was offered.
#[derive(Drop)]
pub enum Offered {
    /// It is to be sent now.
    Through {
        notice: Notice,
        /// How many are never sent that waited.
        lost: usize,
    },
    /// It waits.
    Waits,
    /// It is never sent.
    Lost,
}

/// What became of the NOTIFYs that waited.
#[derive(Drop)]
pub struct Passed {
    /// Those that are to be sent now, in this order.
    pub through: Vec<Notice>,
    /// How many are never sent.
    pub lost: usize,
}

/// What a final answer makes of a dialog.
#[derive(Drop)]
pub(crate) enum Heard {
    /// Nothing: it tells of no NOTIFY that is under way.
    Nothing,
    /// The address has answered, and more may follow. What waited for that.
    Opened(Vec<Notice>),
    /// The address has answered, and none follows: nothing more is to be known.
    Ends,
    /// Another address has answered.
    Elsewhere,
}

/// Whether two addresses are the same.
pub fn is_same_addr(a: Addr, b: Addr) -> bool
    ensures { result ≡ steps.same_addr a b }
{
    a.ip == b.ip && a.port == b.port
}

impl Notice {
    /// The NOTIFY that an out is. An `Err` hands back any other out.
    pub fn new(out: Out) -> Result<Notice, Out>
        ensures notify { IfOk result (λ n. steps.notice_of out ≡ Some n) }
        ensures other { IfErr result (λ o. (o ≡ out) × (steps.notice_of out ≡ None)) }
    {
        let (number, to, is_last) = match &out {
            Out::Notify {
                to,
                number,
                terminated,
                ..
            } => (*number, *to, *terminated),
            _ => return Err(out),
        };
        Ok(Notice {
            number,
            to,
            is_last,
            out,
        })
    }

    /// The local tag of its dialog.
    pub fn tag(&self) -> &str
        ensures { result.now ≡ steps.tag_in self.now.out }
    {
        match &self.out {
            Out::Notify { tag, .. } => tag.as_str(),
            _ => "",
        }
    }
}

impl Contact {
    /// One of whose address nothing is known: this NOTIFY goes there first.
    pub(crate) fn begun(alloc: Global, notice: &Notice) -> Contact
        ensures { steps.seen result ≡ steps.begun notice.now }
    {
        Contact {
            to: notice.to,
            under_way: notice.number,
            is_known: false,
            is_ending: notice.is_last,
            held: Vec::new(alloc),
        }
    }

    /// A NOTIFY is let through: the address has answered. How many waited, which are dropped.
    fn pass(&mut self, is_last: bool) -> usize
        ensures contact { steps.seen self.new ≡ record (steps.seen self.old) { is_ending = is_last; held = [] } }
        ensures lost { result ≡ length self.old.held.items }
    {
        let lost = self.held.len();
        self.held.clear();
        self.is_ending = is_last;
        lost
    }

    /// Whether one more may wait, where there is room for one.
    fn has_place(&self, room: Room) -> bool
        ensures { result ≡ steps.has_place room (steps.seen self.now) }
    {
        if self.held.is_empty() {
            return room.first_waits;
        }
        room.more_wait && self.held.len() < MOST
    }

    /// A NOTIFY waits. An `Err` says that an allocation failed: it is dropped, and nothing changes.
    fn hold(&mut self, notice: Notice) -> Result<(), NoMemory>
        ensures held { OnOk result (Some (steps.seen self.new) ≡ (steps.waits notice (steps.seen self.old)).contact) }
        ensures unchanged { OnErr result (steps.seen self.new ≡ steps.seen self.old) }
    {
        let is_last = notice.is_last;
        if self.held.push(notice).is_err() {
            return Err(NoMemory);
        }
        self.is_ending = is_last;
        Ok(())
    }

    /// A further NOTIFY is offered, to the same address. An `Err` says that an allocation failed: it is dropped, and nothing changes.
    pub(crate) fn offer(&mut self, room: Room, notice: Notice) -> Result<Offered, NoMemory>
        ensures contact { OnOk result ((steps.offered_there room notice (steps.seen self.old)).contact ≡ Some (steps.seen self.new)) }
        ensures offered { IfOk result (IsOffered (steps.offered_there room notice (steps.seen self.old))) }
        ensures unchanged { OnErr result (steps.seen self.new ≡ steps.seen self.old) }
    {
        if self.is_known {
            let lost = self.pass(notice.is_last);
            return Ok(Offered::Through { notice, lost });
        }
        if self.has_place(room) {
            self.hold(notice)?;
            return Ok(Offered::Waits);
        }
        self.is_ending = notice.is_last;
        Ok(Offered::Lost)
    }

    /// A further NOTIFY goes to this address, behind which none follows, or more do. True where it is let through at once, since the address has
    /// answered and none waits for that: else nothing changes.
    pub(crate) fn go_on(&mut self, to: Addr, is_last: bool) -> bool
        ensures goes { result ≡ steps.is_free to (steps.seen self.old) }
        ensures contact { Some (steps.seen self.new) ≡ steps.gone_on result is_last (Some (steps.seen self.old)) }
    {
        let goes = self.is_known && self.held.is_empty() && is_same_addr(self.to, to);
        if goes {
            self.is_ending = is_last;
        }
        goes
    }

    /// Whether an answer to this number, or a give-up of it, tells of the one under way, or of a known address.
    pub(crate) fn is_told_by(&self, number: u32) -> bool
        ensures { result ≡ steps.is_told_by number (steps.seen self.now) }
    {
        self.is_known || number == self.under_way
    }

    /// The address has answered. What waited for that.
    fn open(&mut self, alloc: Global) -> Vec<Notice>
        ensures contact { steps.seen self.new ≡ record (steps.seen self.old) { is_known = true; held = [] } }
        ensures waited { result.items ≡ self.old.held.items }
    {
        self.is_known = true;
        std::mem::replace(&mut self.held, Vec::new(alloc))
    }

    /// Whether an answer from this address comes from where its NOTIFYs go, or that has answered before. The IP addresses count alone: between a
    /// phone and the service a NAT may send an answer from another port than the one to which the NOTIFY went.
    fn opens(&self, source: Addr) -> bool
        ensures { result ≡ steps.opens source (steps.seen self.now) }
    {
        self.is_known || source.ip == self.to.ip
    }

    /// A final answer from this address came to the NOTIFY with this number. What it makes of the dialog: until that is done nothing changes,
    /// unless its address has answered.
    pub(crate) fn hear(&mut self, alloc: Global, number: u32, source: Addr) -> Heard
        ensures heard { IsHeard number source (Some (steps.seen self.old)) result }
        ensures contact { Some (steps.seen self.new) ≡ known_then result (Some (steps.seen self.old)) }
    {
        if !self.is_told_by(number) {
            return Heard::Nothing;
        }
        if !self.opens(source) {
            return Heard::Elsewhere;
        }
        if self.is_ending {
            return Heard::Ends;
        }
        Heard::Opened(self.open(alloc))
    }

    /// Another address has answered the one under way. The next one that waits, if one does, which is under way then. An `Err` says that
    /// an allocation failed: nothing changes.
    pub(crate) fn pass_on(&mut self, alloc: Global) -> Result<Vec<Notice>, NoMemory>
        ensures contact { OnOk result (steps.seen self.new ≡ steps.moved_on (steps.seen self.old)) }
        ensures next { IfOk result (λ next. next.items ≡ (steps.passed_on (steps.seen self.old)).through) }
        ensures unchanged { OnErr result (steps.seen self.new ≡ steps.seen self.old) }
    {
        let Some(next) = self.held.first() else {
            return Ok(Vec::new(alloc));
        };
        let number = next.number;
        let Ok(held) = self.held.split_off(1) else {
            return Err(NoMemory);
        };
        self.under_way = number;
        Ok(std::mem::replace(&mut self.held, held))
    }

    /// What waited.
    pub(crate) fn into_held(self) -> Vec<Notice>
        ensures { result.items ≡ self.held.items }
    {
        let Contact { held, .. } = self;
        held
    }
}
