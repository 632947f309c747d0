//! The arguments of the program on the network.
ghost use Rattle.std.specs.Prelude.{IfOk, Some};
ghost use Rattle.arguments.specs.declared.udp_arguments.UdpArguments.{UdpArguments};
ghost use Rattle.arguments.specs.UdpArguments.{AreUdpArguments, AnswersUdpArguments};
ghost use Rattle.arguments.specs.UdpReading.{port_of, read_numbers, udp_crew_at, udp_stop_at, udp_at, read_udp_arguments, GivesUdpArguments};
ghost use Rattle.sip_text.specs.Bytes.{Finds};

use crate::arguments::{ArgumentsError, MOST_WORKERS, copy_texts};
use crate::value::{between, seed_bytes};
use sip_text::{Text, Values, count_of, short_of};
use std::alloc::Global;

/// What the program on the network was asked to do.
#[derive(Debug, Drop)]
pub struct UdpArguments {
    /// From which the words of local tags are drawn.
    pub seed: [u8; 32],
    /// Whether a planned stop ends what the workers do.
    pub stop: bool,
    /// Where datagrams of SIP are read and sent: 1 to 65535.
    pub port: u16,
    /// Where control lines are read: 1 to 65535.
    pub control_port: u16,
    /// 1 to 256.
    pub workers: u32,
    /// How many datagrams are read at the first port.
    pub count: u32,
    /// One or more.
    pub mailboxes: Values<Text>,
}

/// The numbers among the arguments.
#[derive(Clone, Copy)]
struct UdpNumbers {
    port: u16,
    control_port: u16,
    workers: u32,
    count: u32,
}

/// The number of a port.
#[tactic(auto, unfolding(crate::specs::UdpReading::port_of))]
fn port_number(word: &Text) -> Option<u16>
    ensures { Finds (λ x. x) result (port_of word.now) }
{
    let number = short_of(word.as_str().as_bytes())?;
    if number == 0 { None } else { Some(number) }
}

#[tactic(auto, unfolding(crate::specs::UdpReading::read_numbers))]
fn read_numbers(
    port: &Text,
    control_port: &Text,
    workers: &Text,
    count: &Text,
) -> Option<UdpNumbers>
    ensures { Finds (λ x. x) result (read_numbers port.now control_port.now workers.now count.now) }
{
    let port = port_number(port)?;
    let control_port = port_number(control_port)?;
    let workers = between(1, MOST_WORKERS, workers.as_str().as_bytes())?;
    let count = count_of(count.as_str().as_bytes())?;
    Some(UdpNumbers {
        port,
        control_port,
        workers,
        count,
    })
}

/// The numbers and the mailboxes.
#[tactic(auto, unfolding(crate::specs::UdpReading::udp_crew_at))]
fn read_udp_crew(
    alloc: Global,
    seed: [u8; 32],
    stop: bool,
    words: &[Text],
) -> Result<UdpArguments, ArgumentsError>
    ensures { GivesUdpArguments result (udp_crew_at seed stop words.now) }
{
    let [port, control_port, workers, count, mailboxes @ ..] = words else {
        return Err(ArgumentsError::Bad);
    };
    let Some(numbers) = read_numbers(port, control_port, workers, count) else {
        return Err(ArgumentsError::Bad);
    };
    if mailboxes.is_empty() {
        return Err(ArgumentsError::Bad);
    }
    let mailboxes = copy_texts(alloc, mailboxes)?;
    Ok(UdpArguments {
        seed,
        stop,
        port: numbers.port,
        control_port: numbers.control_port,
        workers: numbers.workers,
        count: numbers.count,
        mailboxes: Values::new(mailboxes),
    })
}

/// What stands behind the seed.
#[tactic(auto, unfolding(crate::specs::UdpReading::udp_stop_at))]
fn read_udp_stop(
    alloc: Global,
    seed: [u8; 32],
    words: &[Text],
) -> Result<UdpArguments, ArgumentsError>
    ensures { GivesUdpArguments result (udp_stop_at seed words.now) }
{
    match words {
        [flag, words @ ..] if flag.is("--stop") => read_udp_crew(alloc, seed, true, words),
        _ => read_udp_crew(alloc, seed, false, words),
    }
}

/// What stands behind the first word.
#[tactic(auto, unfolding(crate::specs::UdpReading::udp_at))]
fn read_udp_call(alloc: Global, words: &[Text]) -> Result<UdpArguments, ArgumentsError>
    ensures { GivesUdpArguments result (udp_at words.now) }
{
    match words {
        [flag, digits, words @ ..] if flag.is("--seed") => match seed_bytes(digits.as_str()) {
            Some(seed) => read_udp_stop(alloc, seed, words),
            None => Err(ArgumentsError::Bad),
        },
        _ => read_udp_stop(alloc, [0; 32], words),
    }
}

#[tactic(auto, unfolding(crate::specs::UdpReading::read_udp_arguments))]
fn read_udp_arguments(alloc: Global, words: &[Text]) -> Result<UdpArguments, ArgumentsError>
    ensures { GivesUdpArguments result (read_udp_arguments words.now) }
{
    match words {
        [program, words @ ..] if program.is("udp") => read_udp_call(alloc, words),
        _ => Err(ArgumentsError::Bad),
    }
}

/// What the words behind the program's name ask for of the program on the network.
pub fn parse_udp_arguments(alloc: Global, words: &[Text]) -> Result<UdpArguments, ArgumentsError>
    // What is answered is what the words mean.
    ensures found { IfOk result (AreUdpArguments words.now) }
    // What the words mean is answered, unless memory runs out.
    ensures only { (a : UdpArguments) → AreUdpArguments words.now a → AnswersUdpArguments result a }
{
    read_udp_arguments(alloc, words)
}
