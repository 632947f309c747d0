//! `notifyd`, a notifier of SIP event notification (RFC 6665).
//!
//! `notifyd serve [options] [<mailbox>...]` is the server that an operator runs, `notifyd tell <line>` tells it what
//! happened, `notifyd tell -` what the lines of standard input say. `notifyd udp [--seed <64 hex digits>] [--stop] <port> <control port> <workers> <count> <mailbox>...` is a
//! notifier on 127.0.0.1 that ends after so many datagrams and a CLOSE. `notifyd script [--seed <64 hex digits>] [--stop]
//! <workers> <mailbox>...` reads a script from standard input and prints what the notifier sends; without arguments it is
//! `notifyd script 1 alice`.
//!
//! What is proved of them are the contracts of [`commands::serve`], [`asking::tell`], [`udp_command::udp::run`] and [`server::run`]. Here
//! stand the words, the packages, each in a box, the two streams and the exit status. Begin with `server::run` where a script is
//! meant, with `commands::serve` where a server is.
#![tactic(auto)]

ghost use Rattle.std.specs.Prelude.{◌≡◌, IfOk};
ghost use Rattle.arguments.specs.Wanted.{first_seen};

use arguments::{ExitStatus, Wanted};
use asking::{say_what_is_read, tell};
use commands::{print_help, serve};
use message_summary::Mailboxes;
use package::{ClosingCell, Package};
use refer::Transfers;
use sip_text::{NoMemory, Text};
use std::process::ExitCode;
use std::rt::Env;
use std::{env, io};
use transport::{Sink, Source};
use udp_command::udp;

/// The words behind the program's name. One that isn't UTF-8 is a bad argument.
fn words_of(rt: &(impl Env + AllocGlobal)) -> Result<Vec<Text>, ExitStatus> {
    let words = match env::args(rt) {
        Ok(words) => words,
        Err(fault) if fault.kind() == io::ErrorKind::OutOfMemory => {
            return Err(ExitStatus::OutOfMemory);
        }
        Err(_) => return Err(ExitStatus::BadArguments),
    };
    let mut texts = Vec::new(rt.alloc());
    for word in words.skip(1) {
        if texts.push(Text::new(word)).is_err() {
            return Err(ExitStatus::OutOfMemory);
        }
    }
    Ok(texts)
}

/// Tells on standard error what went wrong, if anything did. Answers the exit status.
fn end(rt: &impl Eprint, status: ExitStatus) -> ExitCode {
    if let Some(line) = status.line() {
        let _ = eprintln!(rt; "{line}");
    }
    ExitCode::from(status.code())
}

/// Whether the word is one that asks for a text alone.
fn asks_for_text(word: &Text) -> bool {
    word.is("--help") || word.is("-h") || word.is("--version")
}

fn main(rt: HostRuntime) -> ExitCode {
    let words = match words_of(&rt) {
        Ok(words) => words,
        Err(status) => return end(&rt, status),
    };
    let alloc = rt.alloc();
    let make = move |wanted: Wanted| -> Result<Box<dyn Package>, NoMemory>
        ensures { IfOk result (λ made. seen made ≡ first_seen wanted) }
    {
        let cell = ClosingCell::new(alloc)?;
        match wanted {
            Wanted::Mailboxes(names) => {
                Ok(Box::new(alloc, Mailboxes::new(alloc, names, cell)?)?)
            }
            Wanted::Transfers => Ok(Box::new(alloc, Transfers::new(alloc, cell)?)?),
        }
    };
    let mut sink = Sink::new(io::writer(&rt));
    let status = match words.as_slice() {
        [word] if asks_for_text(word) => return ExitCode::from(serve(rt, words.as_slice(), &make)),
        [word] if word.is("help") => return ExitCode::from(print_help(&rt)),
        [word, rest @ ..] if word.is("serve") => return ExitCode::from(serve(rt, rest, &make)),
        [word, rest @ ..] if word.is("tell") => return ExitCode::from(tell(&rt, rest)),
        [word, ..] if word.is("udp") => { udp::run(rt, alloc, words.as_slice(), &mut sink, &make) }
        words => {
            if words.is_empty() {
                say_what_is_read(&rt);
            }
            let mut source = Source::new(rt.reader());
            server::run(rt, words, &mut source, &mut sink, &make)
        }
    };
    end(&rt, status)
}
