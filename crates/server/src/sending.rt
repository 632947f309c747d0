//! What the port of a crew sends of a script.
ghost use Rattle.std.specs.Prelude.{◌≡◌, true, false};
ghost use Rattle.crew.specs.Kept.{SameSeats};
ghost use Rattle.crew.specs.Ports.{PortSeats, Closes};
ghost use Rattle.feeds.specs.Fed.{Sends};

use crew::Port;
use feeds::send_event;
use notifier_model::Event;
use std::sync::Wait;

/// Sends these events in order. False where one was not sent; then those behind it are not sent either.
fn send_all<H: Wait>(rt: &H, port: &mut Port, events: Vec<Event>) -> bool
    requires still_open { port.old.is_open ≡ true }
    ensures seats { SameSeats port.old port.new }
    ensures sent { result ≡ true → Sends port.old events.items port.new }
{
    for event in events {
        if !send_event(rt, port, event) {
            return false;
        }
    }
    true
}

/// Sends the events of a script and closes the port. True where each event was sent and each worker got the end mark.
pub(crate) fn send_script<H: Wait>(rt: &H, port: &mut Port, events: Vec<Event>) -> bool
    requires still_open { port.old.is_open ≡ true }
    ensures closed { port.new.is_open ≡ false }
    ensures seats { SameSeats port.old port.new }
    ensures sent { result ≡ true → (sent : PortSeats) × Sends port.old events.items sent × Closes sent port.new }
{
    let is_sent = send_all(rt, port, events);
    let is_closed = port.close(rt).is_ok();
    is_sent && is_closed
}
