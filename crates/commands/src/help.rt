//! What `notifyd serve --help`, `-h` and `--version` print.

ghost use Rattle.std.specs.Prelude.{◌≡◌, ◌≢◌, true, None, IfSome};
ghost use Rattle.commands.specs.Refused.{asks_for_text, AskForText};

use sip_text::Text;

pub(crate) const VERSION: &str = "notifyd 1.1";

pub(crate) const HELP: &str = "\
usage: notifyd serve [options] [<mailbox>...]      (also --option=value)
       notifyd tell [--control <a.b.c.d:port>] <line>
       notifyd tell [--control <a.b.c.d:port>] - [--progress] [--progress-bar]
       notifyd tell --json [--control <a.b.c.d:port>] STATUS

  --listen <a.b.c.d:port>    where SIP datagrams come in (127.0.0.1:5060)
  --contact <a.b.c.d:port>   where phones reach the service (as --listen)
  --control <a.b.c.d:port>   where control lines come in (127.0.0.1:5061)
  --workers <1 to 256>       worker threads (one a processor)
  --mailboxes <file>         a mailbox a line, or 1000-1999; # in front: a comment
  --any-mailbox              the first MAIL line of a mailbox makes it (needs
                             --journal)
  --max-mailboxes <number>   so many at most where lines make them (65536)
  --state <file>             MAIL lines that are done first; # in front: a comment
  --journal <folder>         what is kept there outlives a crash (nothing is kept)
  --journal-bytes <octets>   a file of it has about so many at most (16777216)
  --sync <seconds>           from one write to the disk to the next (1), or never,
                             or always: what is sent awaits the disk
  --passwords <file>         who may subscribe and refer: user:realm:hash a line,
                             as htdigest writes them; # in front: a comment
  --watch <user:mailbox>     a mailbox that this user may watch too (repeatable)
  --nonce-time <seconds>     how long an answer to a challenge is good (300)
  --old-digest               answers without qop are taken too
  --allow <a.b.c.d/bits>     SIP is heard from here alone (repeatable)
  --control-allow <a.b.c.d/bits>  control lines are heard from here and from
                             this machine alone (repeatable)
  --feed-from <a.b.c.d/bits>  NOTIFYs of voicemail systems are heard from here
                             (repeatable; from nowhere)
  --feed-listen <a.b.c.d:port>    where those come in (127.0.0.1:5062)
  --rate <a second>/<at once>     what is heard of each source address (all)
  --guesses <at once>/<a minute>  wrong passwords of a source or user (5/20)
  --per-source <1 to 65536>  live subscriptions of a source address (any number)
  --seed <64 hex digits>     for local tags (the system's randomness)
  --keep-subscriptions       no farewell at the end
  --no-refer                 no package refer: a REFER is answered 489
  --log-requests             a line for each request that is answered
  --log-json                 each line of the log is a JSON object
  --until-input-ends         closes where standard input ends; see notifyd-run
  --min-time <seconds>       the shortest time granted (60)
  --max-time <seconds>       the longest time granted (3600)
  --default-time <seconds>   granted to who asks for none (3600)
  --refer-time <seconds>     granted to a REFER (180)
  --max-cseq <number>        the last number of a NOTIFY (2147483647)
  --table <1 to 65536>       live subscriptions of a worker (16384)
  --serials <number>         subscriptions that a worker accepts (4294967295)
  --kept <1 to 4096>         answers that a worker keeps (4096)
  --inbox <1 to 65536>       places of a worker's inbox (1024)
  --outbox <1 to 65536>      places of the outbox (1024)
  --repeats <0 to 65536>     unanswered NOTIFYs that are sent again (16384)
  --open <1 to 65536>        how many of them one subscription may have (1024)
  --linger <0 to 32>         seconds that a stop waits for answers (2)
  --outage <0 to 3600>       seconds that don't count while each send fails (600)
  --max-datagram <octets>    the longest SIP datagram that is read (8192)
  --max-texts <octets>       how much is kept of a request (2048)
  --receive-buffer <octets>  room asked for datagrams that wait (4194304)

Lines for tell: MAIL, PROGRESS, STATUS, SHOW, DUMP, WATCHERS, RELOAD, CLOSE.
With - the MAIL lines of standard input are told (and PROGRESS lines with
--progress); see notifyd(8).";

/// The text that a word asks for.
fn word_text(word: &str) -> Option<&'static str>
    ensures asked { IfSome result (λ _. asks_for_text word.now ≡ true) }
    ensures only { asks_for_text word.now ≡ true → result ≢ None }
{
    if word == "--help" || word == "-h" {
        Some(HELP)
    } else if word == "--version" {
        Some(VERSION)
    } else {
        None
    }
}

/// The text that the words ask for, where they ask for that alone.
pub(crate) fn asked_text(words: &[Text]) -> Option<&'static str>
    ensures asked { IfSome result (λ _. AskForText words.now) }
    ensures only { AskForText words.now → result ≢ None }
{
    match words {
        [word] => word_text(word.as_str()),
        _ => None,
    }
}
