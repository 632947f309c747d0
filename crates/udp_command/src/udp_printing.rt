//! The lines that tell how the workers ended.
ghost use Rattle.std.specs.Prelude.{◌≡◌, string_bytes, IfOk};
ghost use Rattle.udp_command.specs.UdpLines as spec;

use crew::{End, WorkerReport};
use sip_text::NoMemory;
use std::alloc::Global;

/// How a worker ended.
fn end_text(alloc: Global, end: End) -> Result<String, NoMemory>
    ensures { IfOk result (λ text. string_bytes text ≡ spec.end_text end) }
{
    let text = match end {
        End::Closed => String::from_str(alloc, "closed")?,
        End::NoMemory(events) => format!(in alloc; "nomemory {events}")?,
        End::Abandoned(_) => String::from_str(alloc, "abandoned")?,
    };
    Ok(text)
}

/// The line of a worker.
fn worker_line(alloc: Global, worker: usize, report: &WorkerReport) -> Result<String, NoMemory>
    ensures { IfOk result (λ line. string_bytes line ≡ spec.worker_line worker report.now) }
{
    let end = end_text(alloc, report.end)?;
    let line = format!(in alloc;
        "WORKER {worker} {} {} {end}\n",
        report.handled, report.made
    )?;
    Ok(line)
}

/// The lines of all workers, in their order: `WORKER <w> <events handled> <outs made> <end>`.
pub fn worker_lines(alloc: Global, reports: &[WorkerReport]) -> Result<String, NoMemory>
    ensures { IfOk result (λ lines. string_bytes lines ≡ spec.worker_lines reports.now) }
{
    let mut lines = String::new(alloc);
    for at in 0..reports.len() {
        let line = worker_line(alloc, at, &reports[at])?;
        lines.push_str(line.as_str())?;
    }
    Ok(lines)
}
