//! Worked examples of the two queues, with threads and without.
//!
//! `pipeline::hand_over` is the way of an event through both queues: two ports, two workers, one taker, each in a
//! thread of its own, with all seats settled in the end. `cases` are the small ones: a receiver that is gone, senders that are
//! gone, an outbox of one worker, and a call that sleeps and is woken. `measuring` prints the time that an event takes.

mod cases;
pub(crate) mod measuring;
mod pipeline;

use crate::page::Page;
use crate::queue_runs::cases::{
    gone_late, left_late, posted_one_by_one, taken_after, without_receiver, without_senders,
};
use crate::queue_runs::pipeline::hand_over;
use std::alloc::Global;
use std::sync::Wait;
use std::thread::Threads;

/// Says whether each small case went as it should.
fn show_cases<R: Threads + Wait + Sync>(rt: &R, alloc: Global, page: &mut Page) {
    let is_back = without_receiver(rt, alloc) == Some((1, false));
    page.judge("a gone receiver hands the event back: ", is_back);
    let has_left = without_senders(rt, alloc) == Some(true);
    page.judge("\ndropped senders have left: ", has_left);
    let is_taken = posted_one_by_one(rt, alloc) == Some([0, 1, 0, 2]);
    page.judge("\nan out is posted and taken: ", is_taken);
    let is_drained = taken_after(rt, alloc) == Some([1, 2, 0]);
    page.judge("\na worker that is done is drained: ", is_drained);
    let is_woken = gone_late(rt, alloc) == Some(true);
    page.judge("\na sender that sleeps is woken: ", is_woken);
    let is_woken = left_late(rt, alloc) == Some(true);
    page.judge("\na receiver that sleeps is woken: ", is_woken);
    page.say("\n");
}

/// Hands so many events of each port over, through queues of one item, and says how many came.
fn show_all<R: Threads + Wait + Sync>(rt: &R, alloc: Global, count: u32, page: &mut Page) {
    match hand_over(rt, alloc, 1, count) {
        Ok(outs) => {
            page.tell(alloc, "2 ports, 2 workers, capacity 1: ", u64::from(outs));
            page.tell(alloc, " outs of ", 2 * u64::from(count));
            page.say(" events\n");
        }
        Err(_) => page.say("out of memory\n"),
    }
}

/// The small cases, and a thousand and five thousand events of each port.
pub(crate) fn queues<R: Threads + Wait + Sync>(rt: &R, alloc: Global, page: &mut Page) {
    show_cases(rt, alloc, page);
    show_all(rt, alloc, 1000, page);
    show_all(rt, alloc, 5000, page);
}
