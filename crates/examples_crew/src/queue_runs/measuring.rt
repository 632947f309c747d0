//! What an event takes on its way through both queues.

use crate::queue_runs::pipeline::hand_over;
use notifier_model::{Event, Out};
use std::alloc::Global;
use std::rt::Runtime;
use std::sync::Wait;
use std::thread::Threads;
use std::time::Instant;
use std::{io, mem};

/// Hands this many events of each port over, and prints what one takes.
fn measure_one<R: Runtime + Threads + Wait + Sync>(
    rt: &R,
    alloc: Global,
    capacity: u32,
    count: u32,
) -> io::Result<()> {
    if capacity == 0 {
        return Ok(());
    }
    let start = Instant::now(rt)?;
    let Ok(outs) = hand_over(rt, alloc, capacity, count) else {
        return println!(rt; "capacity {capacity}: out of memory");
    };
    let nanos = start.elapsed(rt)?.as_nanos();
    if outs == 0 {
        return println!(rt; "capacity {capacity}: no event");
    }
    println!(rt;
        "house, capacity {capacity}: {} ns an event, {outs} events",
        nanos / u128::from(outs)
    )
}

/// Prints for each of these capacities what an event takes, where each port brings as many as the first number says.
pub(crate) fn measure<R: Runtime + Threads + Wait + Sync>(
    rt: &R,
    alloc: Global,
    numbers: &[u32],
) -> io::Result<()> {
    println!(rt;
        "an event has {} bytes, an out {}",
        mem::size_of::<Event>(),
        mem::size_of::<Out>()
    )?;
    let Some((count, capacities)) = numbers.split_first() else {
        return Ok(());
    };
    for capacity in capacities {
        measure_one(rt, alloc, *capacity, *count)?;
    }
    Ok(())
}
