//! What workers print.
ghost use Rattle.std.specs.Prelude.{◌≡◌, ◌++◌, OnOk};
ghost use Rattle.std.specs.List.{flat_map};
ghost use Rattle.server.specs.Page.{out_text};
ghost use Rattle.server.specs.Working.{printed};

use crate::work::Work;
use notifier_model::Out;
use scripts::Page;
use sip_text::NoMemory;
use std::alloc::Global;

/// Appends an out.
fn print(alloc: Global, page: &mut Page, out: &Out) -> Result<(), NoMemory>
    ensures { OnOk result (page.new ≡ page.old ++ out_text out.now) }
{
    match out {
        Out::Answer { to, bytes } => page.answer(alloc, *to, bytes.as_slice()),
        Out::Notify {
            tag,
            number,
            terminated: _,
            to,
            note: _,
            bytes,
        } => page.notify(alloc, tag.as_str(), *number, *to, bytes.as_slice()),
        Out::Start { tag, refer_to } => page.start(alloc, tag.as_str(), refer_to.as_str()),
    }
}

/// Appends outs, in order.
fn print_all(alloc: Global, page: &mut Page, outs: &[Out]) -> Result<(), NoMemory>
    ensures { OnOk result (page.new ≡ page.old ++ flat_map out_text outs.now) }
{
    for out in outs {
        print(alloc, page, out)?;
    }
    Ok(())
}

/// Appends the worker's line and all that it sent.
fn print_work(alloc: Global, page: &mut Page, work: &Work) -> Result<(), NoMemory>
    ensures { OnOk result (page.new ≡ page.old ++ printed work.now) }
{
    let made = work.outs.len() as u64;
    page.worker(alloc, work.number, work.handled, made)?;
    print_all(alloc, page, work.outs.as_slice())
}

/// Appends the workers, in order.
pub fn print_works(alloc: Global, page: &mut Page, works: &[Work]) -> Result<(), NoMemory>
    ensures { OnOk result (page.new ≡ page.old ++ flat_map printed works.now) }
{
    for work in works {
        print_work(alloc, page, work)?;
    }
    Ok(())
}
