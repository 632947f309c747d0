//! Runs that go on after a growth that was refused. `rt try --fail-alloc N` refuses the Nth growth; each line here says that all
//! is as it should be in each such run, or the program ends with an error.

use crate::trials::{Trial, run_once, words_of};
use arguments::{ArgumentsError, ExitStatus, parse_arguments};
use scripts::{Page, ScriptError, parse_script, read_script};
use sip_read::Addr;
use std::alloc::Global;
use std::rt::Files;
use std::sync::Wait;
use std::thread::Threads;
use std::{fs, io};
use transport::Source;

/// Whether four blocks are read, or memory was short.
fn reads_blocks(alloc: Global, script: &[u8]) -> bool {
    let blocks = parse_script(alloc, script);
    let is_so = match &blocks {
        Ok(blocks) => blocks.len() == 4,
        Err(error) => *error == ScriptError::NoMemory,
    };
    drop(blocks);
    is_so
}

/// Whether a script is read whole, or memory was short.
fn reads_script(alloc: Global, script: &[u8]) -> bool {
    let mut source = Source::new(script);
    let bytes = read_script(alloc, &mut source);
    let is_so = match &bytes {
        Ok(bytes) => bytes.as_slice() == script && source.failures() == 0,
        Err(error) => *error == ScriptError::NoMemory,
    };
    drop(bytes);
    is_so
}

const ADDR: Addr = Addr {
    ip: [127, 0, 0, 1],
    port: 5070,
};

const TAG: &str = "w0-1-76b8e0ada0f13d90";

/// Whether each thing that is told adds its line to a page, or leaves it as it was; all of them are the wanted page.
fn grows(alloc: Global, wanted: &[u8]) -> bool {
    let mut page = Page::new(alloc);
    let mut is_right = true;
    let mut is_whole = true;
    for line in 0..5u8 {
        let before = page.as_slice().len();
        let told = match line {
            0 => page.unread(alloc, 1, 1),
            1 => page.worker(alloc, 0, 1, 2),
            2 => page.answer(alloc, ADDR, b"SIP/2.0 200 OK\r\n\r\n"),
            3 => page.notify(alloc, TAG, 1, ADDR, b""),
            _ => page.start(alloc, TAG, "sip:carol@127.0.0.1"),
        };
        is_right = is_right && told.is_ok() == (page.as_slice().len() > before);
        is_whole = is_whole && told.is_ok();
    }
    is_right && (!is_whole || page.as_slice() == wanted)
}

/// Whether arguments are read, or memory was short.
fn reads_arguments(alloc: Global) -> bool {
    let Ok(words) = words_of(alloc, &["script", "1", "alice"]) else {
        return true;
    };
    let arguments = parse_arguments(alloc, words.as_slice());
    let is_so = match &arguments {
        Ok(arguments) => arguments.workers == 1,
        Err(error) => *error == ArgumentsError::NoMemory,
    };
    drop(arguments);
    is_so
}

/// Whether a call writes a page with this beginning, or nothing. A device fault is a growth of the writer, or a thread, that was
/// refused.
fn is_page_or_nothing<H>(rt: H, words: &[&str], script: &[u8], first: &[u8]) -> bool
where
    H: Threads + Wait + AllocGlobal + Copy + Send + 'static,
{
    let Ok(words) = words_of(rt.alloc(), words) else {
        return true;
    };
    let (status, sink) = run_once(rt, words.as_slice(), script, Trial::Cut, u32::MAX);
    let written = sink.writer().taken.as_slice();
    match status {
        ExitStatus::Done => written.starts_with(first),
        ExitStatus::OutOfMemory | ExitStatus::DeviceFault => written.is_empty(),
        _ => false,
    }
}

/// Tells whether each call is done, or says that memory was short and changes nothing.
pub(crate) fn tell_all<H>(rt: H) -> io::Result<()>
where
    H: Threads + Wait + Files + Print + AllocGlobal + Copy + Send + 'static,
{
    let alloc = rt.alloc();
    let blocks = fs::read(&rt, "blocks.script")?;
    let mail = fs::read(&rt, "mail.script")?;
    let lines = fs::read(&rt, "lines.page")?;
    let (blocks, mail) = (blocks.as_slice(), mail.as_slice());
    let one = b"UNREAD 2 1\nWORKER 0 4 4 closed\n".as_slice();
    let two = b"UNREAD 2 1\nWORKER 0 ".as_slice();
    for (done, is_so) in [
        (
            "blocks are read, or memory was short",
            reads_blocks(alloc, blocks),
        ),
        (
            "a script is read, or memory was short",
            reads_script(alloc, blocks),
        ),
        ("a page grows, or stays", grows(alloc, lines.as_slice())),
        (
            "arguments are read, or memory was short",
            reads_arguments(alloc),
        ),
        (
            "one worker writes its page or nothing",
            is_page_or_nothing(rt, &[], mail, one),
        ),
        (
            "two workers write their page or nothing",
            is_page_or_nothing(rt, &["script", "2", "alice", "bob"], mail, two),
        ),
    ] {
        println!(rt; "{done}: {is_so}")?;
    }
    Ok(())
}
