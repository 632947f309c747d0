//! Runs a script by one or several workers.
ghost use Rattle.std.specs.Prelude.{◌≡◌, ◌≢◌, ◌≤◌, ◌<◌, ◌∷◌, ◌++◌, [], List, length, vec_len, IfOk, IfErr, Err};
ghost use Rattle.std.specs.List.{flat_map};
ghost use Rattle.scripts.specs.declared.script.Block.{Block};
ghost use Rattle.crew.specs.Ready.{start_of};
ghost use Rattle.server.specs.Page.{most_bytes, IsShortScript, IsPage};
ghost use Rattle.server.specs.Runs.{starts_of, Runs};
ghost use Rattle.server.specs.Hearing.{IsHeard};
ghost use Rattle.server.specs.Working.{printed};

use crate::crew_work::work_together;
use crate::hearing::{HeardScript, hear};
use crate::printing::print_works;
use crate::work::{Work, work_alone};
use notifier_model::Setup;
use package::Package;
use scripts::{Page, ScriptError, parse_script, read_script, write_page};
use sip_read::laws::one_reading;
use sip_text::NoMemory;
use std::alloc::Global;
use std::io::{Read, Write};
use std::sync::Wait;
use std::thread::Threads;
use transport::{Sink, Source};

/// What is heard of the script that the bytes are.
fn hear_script(alloc: Global, bytes: &[u8]) -> Result<HeardScript, ScriptError>
    requires short { length bytes.now ≤ most_bytes }
    ensures heard { IfOk result (IsHeard bytes.now) }
    ensures bad { result ≡ Err ScriptError.BadScript → (blocks : List Block) → IsShortScript bytes.now blocks → ⊥ }
    ensures no_device { IfErr result (λ e. e ≢ ScriptError.Device) }
{
    let blocks = parse_script(alloc, bytes)?;
    let hearing = hear(alloc, blocks)?;
    Ok(hearing)
}

/// The page with these lines of what can't be read, and then what the workers did.
fn whole_page(alloc: Global, unread: Page, works: &[Work]) -> Result<Page, NoMemory>
    ensures { IfOk result (λ page. page ≡ unread ++ flat_map printed works.now) }
{
    let mut page = unread;
    print_works(alloc, &mut page, works)?;
    Ok(page)
}

/// The page of the script that the bytes are, by one worker on this thread.
fn page_by_one<P: Package>(
    alloc: Global,
    bytes: &[u8],
    setup: &Setup,
    boxes: Vec<P>,
) -> Result<Page, ScriptError>
    requires short { length bytes.now ≤ most_bytes }
    ensures page { IfOk result (IsPage (start_of P.seen setup.now 0 boxes.items ∷ []) bytes.now) }
    ensures bad { result ≡ Err ScriptError.BadScript → (blocks : List Block) → IsShortScript bytes.now blocks → ⊥ }
    ensures no_device { IfErr result (λ e. e ≢ ScriptError.Device) }
{
    one_reading();
    let HeardScript { events, unread, .. } = hear_script(alloc, bytes)?;
    let work = work_alone(alloc, setup, boxes, events)?;
    let works = [work];
    let page = whole_page(alloc, unread, works.as_slice())?;
    Ok(page)
}

/// The page of the script that the bytes are, by a crew.
fn page_by_crew<H, P>(
    rt: H,
    alloc: Global,
    bytes: &[u8],
    setup: &Setup,
    boxes: Vec<Vec<P>>,
) -> Result<Page, ScriptError>
where
    H: Threads + Wait + Copy + Send + 'static,
    P: Package + 'static,
    requires short { length bytes.now ≤ most_bytes }
    requires few { vec_len boxes ≤ 256 }
    ensures page { IfOk result (IsPage (starts_of P.seen setup.now boxes.items) bytes.now) }
    ensures bad { result ≡ Err ScriptError.BadScript → (blocks : List Block) → IsShortScript bytes.now blocks → ⊥ }
    ensures device { result ≡ Err ScriptError.Device → (blocks : List Block) × IsShortScript bytes.now blocks }
{
    one_reading();
    let HeardScript { events, unread, .. } = hear_script(alloc, bytes)?;
    let works = work_together(rt, alloc, setup, boxes, events)?;
    let page = whole_page(alloc, unread, works.as_slice())?;
    Ok(page)
}

/// Reads a whole script, has one worker with these packages handle its events, and writes the page of what it sent: first
/// the datagrams that can't be read, then the worker's line and its outs (see `specs/Page`). The worker's number is 0. All of
/// it is done on the caller's thread. Packages are of one type: where they differ each stands in a `Box<dyn Package>`.
///
/// Nothing is written before the whole script is read and handled. Errors are looked for in this order: Device on reading,
/// BadScript, Device on writing; NoMemory may come at any point until writing begins. After a failed write a front of the
/// page is out.
pub fn script_one<R: Read, W: Write, P: Package>(
    alloc: Global,
    source: &mut Source<R>,
    sink: &mut Sink<W>,
    setup: &Setup,
    boxes: Vec<P>,
) -> Result<(), ScriptError>
    // It starts no thread.
    ensures { Runs R.remaining W.contents ⊥ (start_of P.seen setup.now 0 boxes.items ∷ []) result source.old source.new sink.old sink.new }
{
    let bytes = read_script(alloc, source)?;
    let page = page_by_one(alloc, bytes.as_slice(), setup, boxes)?;
    write_page(sink, page.as_slice())
}

/// The same by several workers, one for each list of packages, each on a thread of its own. The first worker's number is 0.
/// Each event of the script goes to its home among them, and a tick to all. The caller's thread sends the events, and a further
/// thread takes what the workers send; all threads have ended when it returns.
///
/// Errors are looked for in this order: Device on reading, BadScript, Device where a thread could not be started, Device on
/// writing; NoMemory may come at any point until writing begins. A worker that didn't come to the end of its events is NoMemory.
pub fn script_many<H, R: Read, W: Write, P>(
    rt: H,
    alloc: Global,
    source: &mut Source<R>,
    sink: &mut Sink<W>,
    setup: &Setup,
    boxes: Vec<Vec<P>>,
) -> Result<(), ScriptError>
where
    H: Threads + Wait + Copy + Send + 'static,
    P: Package + 'static,
    requires some { 0 < vec_len boxes }
    requires few { vec_len boxes ≤ 256 }
    // It starts threads.
    ensures { Runs R.remaining W.contents (Unit {0}) (starts_of P.seen setup.now boxes.items) result source.old source.new sink.old sink.new }
{
    let bytes = read_script(alloc, source)?;
    let page = page_by_crew(rt, alloc, bytes.as_slice(), setup, boxes)?;
    write_page(sink, page.as_slice())
}
