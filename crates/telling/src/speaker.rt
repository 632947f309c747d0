//! Speakers that ask one line behind the other.
ghost use Rattle.std.specs.Prelude.{◌≡◌, ◌<◌, ◌≤◌, ℕ, length, IfOk, MatchOption, OnOk, Ok, Some};
ghost use Rattle.transport.specs.Devices.{one_more};

use control_lines::{Speaker, SpeakerFault, TRIES, UdpSpeaker};
use sip_text::Addr;
use std::net::Net;
use std::sync::Wait;

/// So many answers to a line are waited for shortly, and the last one longer: the service may be beginning anew.
const SHORT_WAITS: u32 = TRIES - 1;

/// A speaker that asks one line behind the other.
pub trait LineSpeaker: Speaker {
    /// How many answers to earlier lines could be taken for one to the next line, if they still come.
    ghost owed: { Self → ℕ };

    /// Makes sure that what still comes in answer to earlier lines isn't taken for an answer to the next one. Asks nothing.
    fn turn_over<R: Wait + Net>(&mut self, rt: &R) -> Result<(), SpeakerFault>
        ensures asked { Self.asked self.new ≡ Self.asked self.old }
        ensures turns { Self.turns self.new ≡ Self.turns self.old }
        ensures none { OnOk result (owed self.new ≡ 0) };
}

/// A speaker over UDP that keeps its socket for as long as each line is answered the first time it is asked: answers have no token, so
/// behind a line that was asked again a late answer could be taken for one to the next line. That one gets a socket of its own.
#[derive(Drop)]
pub struct UdpLineSpeaker {
    speaker: UdpSpeaker,
    /// Where the service is.
    service: Addr,
    asked: u64,
    /// How many answers may still come.
    owed: u32,
}

impl UdpLineSpeaker {
    /// A speaker for the service whose control lines come in at this address. It has asked nothing yet.
    pub fn to<R: Wait + Net>(rt: &R, service: Addr) -> Result<UdpLineSpeaker, SpeakerFault>
        ensures service { IfOk result (λ s. s.service ≡ service) }
        ensures speaker { IfOk result (λ s. s.speaker.service ≡ service) }
        ensures none { IfOk result (λ s. (s.asked ≡ 0) × (s.owed ≡ 0)) }
    {
        Ok(UdpLineSpeaker {
            speaker: UdpSpeaker::to(rt, service)?,
            service,
            asked: 0,
            owed: 0,
        })
    }

    /// Nobody answered in time, so an answer may still come. The last one of a line is waited for longer.
    fn owe(&mut self) -> Result<(), SpeakerFault>
        ensures owed { OnOk result (0 < self.new.owed) }
        ensures asked { self.new.asked ≡ self.old.asked }
    {
        self.owed = self.owed.saturating_add(1);
        if self.owed == SHORT_WAITS {
            self.speaker.wait_longer()?;
        }
        Ok(())
    }
}

impl Speaker for UdpLineSpeaker {
    ghost asked = { λ s. s.asked };

    fn ask<R: Wait>(
        &mut self,
        rt: &R,
        line: &[u8],
        room: &mut [u8],
    ) -> Result<Option<usize>, SpeakerFault>
        ensures within { (n : ℕ) → result ≡ Ok (Some n) → n ≤ length room.new }
        ensures asked { self.new.asked ≡ one_more self.old.asked }
        ensures owed { IfOk result (λ came. MatchOption came (0 < self.new.owed) (λ _. self.new.owed ≡ self.old.owed)) }
    {
        self.asked = self.asked.saturating_add(1);
        let came = self.speaker.ask(rt, line, room)?;
        match came {
            Some(_) => Ok(came),
            None => {
                self.owe()?;
                Ok(None)
            }
        }
    }
}

impl LineSpeaker for UdpLineSpeaker {
    ghost owed = { λ s. s.owed };

    fn turn_over<R: Wait + Net>(&mut self, rt: &R) -> Result<(), SpeakerFault>
        ensures asked { self.new.asked ≡ self.old.asked }
        ensures none { OnOk result (self.new.owed ≡ 0) }
        ensures service { self.new.service ≡ self.old.service }
        // Where answers are owed, the next line is asked by a speaker made anew for that service.
        ensures speaker { OnOk result (0 < self.old.owed → self.new.speaker.service ≡ self.old.service) }
    {
        if self.owed > 0 {
            self.speaker = UdpSpeaker::to(rt, self.service)?;
            self.owed = 0;
        }
        Ok(())
    }
}
