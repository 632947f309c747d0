//! `notifyd tell -`: the lines of standard input.
ghost use Rattle.std.specs.Prelude.{◌≡◌, ◌⊎◌, IfOk, IfErr};
ghost use Rattle.arguments.specs.Choices.{loopback};
ghost use Rattle.plans.specs.Plans.{reached};
ghost use Rattle.telling.specs.declared.end.LinesEnd.TheVariants as ends;
ghost use Rattle.asking.specs.Input.{SpeaksTo, TellsInput, TellsAll};

use crate::asking::CONTROL;
use crate::terminal::shows_errors;
use arguments::LinesCall;
use std::alloc::Global;
use std::io::{BufReader, Input};
use std::net::Net;
use std::random::RandomSource;
use std::rt::Clock;
use std::sync::Wait;
use telling::{LinesEnd, Tally, Teller, Telling, UdpLineSpeaker};

/// One who is to tell the lines of standard input to the service that the call names, or to the one at 127.0.0.1:5061.
fn new_telling<R>(
    rt: &R,
    call: LinesCall,
    tally: Tally,
) -> Result<Telling<BufReader<R::Reader, Global>, UdpLineSpeaker>, LinesEnd>
where
    R: Wait + Net + Input + RandomSource + Eprint + AllocGlobal,
    ensures service { IfOk result (λ t. SpeaksTo (reached call.control (loopback 5061)) t.teller.speaker) }
    ensures progress { IfOk result (λ t. t.takes_progress ≡ call.takes_progress) }
    ensures none { IfErr result (λ end. (end ≡ ends.Fault) ⊎ (end ≡ ends.NoMemory)) }
{
    let Ok(speaker) = UdpLineSpeaker::to(rt, call.control.unwrap_or(CONTROL)) else {
        return Err(tally.close(rt, LinesEnd::Fault));
    };
    let Ok(reader) = BufReader::new(rt.alloc(), rt.reader()) else {
        return Err(tally.close(rt, LinesEnd::NoMemory));
    };
    let teller = Teller::new(rt, speaker);
    Ok(Telling::new(rt, reader, teller, call.takes_progress, tally))
}

/// Tells the lines of standard input to the service that the call names, or to the one at 127.0.0.1:5061.
fn tell_to<R>(rt: &R, call: LinesCall) -> LinesEnd
where
    R: Wait + Net + Clock + Input + RandomSource + Eprint + AllocGlobal,
    ensures told { TellsAll call result ⊎ (result ≡ ends.Fault) ⊎ (result ≡ ends.NoMemory) }
{
    let tally = Tally::new(rt, call.tells_counts || shows_errors());
    match new_telling(rt, call, tally) {
        Ok(mut telling) => telling.tell_lines(rt),
        Err(end) => end,
    }
}

/// Tells the lines of standard input to the service that the call names, or to the one at 127.0.0.1:5061. Answers the exit status.
pub(crate) fn tell_input<R>(rt: &R, call: LinesCall) -> u8
where
    R: Wait + Net + Clock + Input + RandomSource + Eprint + AllocGlobal,
    ensures status { (result ≡ 0) ⊎ (result ≡ 1) ⊎ (result ≡ 3) ⊎ (result ≡ 4) }
    ensures told { TellsInput call result }
{
    tell_to(rt, call).status()
}
