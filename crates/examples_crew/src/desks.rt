//! Desks that two threads share, without a crew.
//!
//! A SUBSCRIBE for alice's mailbox gives an answer and a NOTIFY. A change of that mailbox gives a NOTIFY where it comes later,
//! and nothing where it comes first, since then nobody watches. So whatever two threads do with one desk, the SUBSCRIBE
//! gives two outs, and the change one or none. Two desks have a lock each: a change of the one may wait for a change of the
//! other.

use crate::boxes::{Boxes, Manner, Props, mailboxes_of};
use crate::error::RunError;
use crate::events::{mail, subscribe};
use crate::gates::Stage;
use crate::names::Names;
use crate::page::Page;
use crate::running::{Plan, setup_of};
use crate::scenes::tell_meeting;
use crew::{Replay, SharedDesk};
use notifier::Desk;
use package::{Class, Package};
use std::alloc::Global;
use std::sync::{Arc, Wait};
use std::thread;
use std::thread::Threads;

/// What a desk is told.
#[derive(Clone, Copy)]
pub(crate) enum News {
    /// Alice's phone subscribes to her mailbox.
    Subscription,
    /// A voice message comes for her.
    Voice,
}

/// In which order a desk is told the news.
#[derive(Clone, Copy)]
struct Order {
    name: &'static str,
    first: News,
    second: News,
}

impl Order {
    const SUBSCRIPTION_FIRST: Order = Order {
        name: "the SUBSCRIBE first: ",
        first: News::Subscription,
        second: News::Voice,
    };

    const CHANGE_FIRST: Order = Order {
        name: "the change first: ",
        first: News::Voice,
        second: News::Subscription,
    };
}

/// The mailbox of alice.
fn alice(alloc: Global, manner: Manner, props: &Props) -> Result<Boxes, RunError> {
    mailboxes_of(alloc, (Names::One("alice"), manner), props)
}

/// A desk with this package, for two threads.
fn shared_desk<P: Package>(
    alloc: Global,
    package: P,
) -> Result<Arc<SharedDesk<P>, Global>, RunError> {
    let setup = setup_of(Plan::USUAL)?;
    let mut held = Vec::new(alloc);
    held.push(package)?;
    let desk = Desk::new(alloc, &setup, 0, held)?;
    Ok(Arc::new(alloc, SharedDesk::new(Replay::new(alloc, desk)))?)
}

/// How many outs the desk gives for the news.
fn hear<R: Wait, P: Package>(
    rt: &R,
    alloc: Global,
    desk: &SharedDesk<P>,
    news: News,
) -> Result<usize, RunError> {
    let event = match news {
        News::Subscription => subscribe(alloc, "alice", "c1", "")?,
        News::Voice => mail(alloc, "alice", Class::Voice, 1)?,
    };
    match desk.handle(rt, alloc, event) {
        Ok(outs) => Ok(outs.len()),
        Err(_) => Err(RunError::Memory),
    }
}

/// How many outs two desks, or one, give for the news: this thread tells it the one, and a thread of its own the other.
fn hear_both<R, P>(
    rt: R,
    alloc: Global,
    desks: (&SharedDesk<P>, Arc<SharedDesk<P>, Global>),
    news: (News, News),
) -> Result<(usize, usize), RunError>
where
    R: Threads + Wait + Copy + Send + 'static,
    P: Package + 'static,
{
    let (here, desk) = desks;
    let news_there = news.1;
    let Ok(child) = thread::spawn(&rt, move || hear(&rt, alloc, &*desk, news_there)) else {
        return Err(RunError::NoThread);
    };
    let here_outs = hear(&rt, alloc, here, news.0);
    let there_outs = child.join(&rt);
    Ok((here_outs?, there_outs?))
}

/// Tells a desk with this package the one and then the other, and what it gave for the SUBSCRIBE and for the change.
fn show_in_turn<R: Wait, P: Package>(
    rt: &R,
    alloc: Global,
    package: P,
    order: Order,
    page: &mut Page,
) -> Result<(), RunError> {
    let desk = shared_desk(alloc, package)?;
    let first = hear(rt, alloc, &*desk, order.first)? as u64;
    let second = hear(rt, alloc, &*desk, order.second)? as u64;
    let (asked, changed) = match order.first {
        News::Subscription => (first, second),
        News::Voice => (second, first),
    };
    page.tell(alloc, order.name, asked);
    page.tell(alloc, " outs of the SUBSCRIBE, ", changed);
    page.say(" of the change\n");
    Ok(())
}

/// Two threads at one desk with this package, told alike for both orders.
fn show_both<R, P>(rt: R, alloc: Global, package: P, page: &mut Page) -> Result<(), RunError>
where
    R: Threads + Wait + Copy + Send + 'static,
    P: Package + 'static,
{
    let desk = shared_desk(alloc, package)?;
    let there = Arc::try_clone(&desk)?;
    let news = (News::Subscription, News::Voice);
    let (asked, changed) = hear_both(rt, alloc, (&*desk, there), news)?;
    if asked == 2 && changed <= 1 {
        page.say("two at a desk: 2 outs of the SUBSCRIBE, none or 1 of the change\n");
    } else {
        page.tell(alloc, "two at a desk: ", asked as u64);
        page.tell(alloc, " outs of the SUBSCRIBE, ", changed as u64);
        page.say(" of the change\n");
    }
    Ok(())
}

/// Two threads at two desks: the package of each holds its change until the other's has one.
fn show_meeting<R, P>(
    rt: R,
    alloc: Global,
    packages: (P, P),
    stage: &Stage,
    page: &mut Page,
) -> Result<(), RunError>
where
    R: Threads + Wait + Copy + Send + 'static,
    P: Package + 'static,
{
    let here = shared_desk(alloc, packages.0)?;
    let there = shared_desk(alloc, packages.1)?;
    let outs = hear_both(rt, alloc, (&*here, there), (News::Voice, News::Voice))?;
    page.say("desks meet: ");
    tell_meeting(outs == (0, 0) && stage.was_kept(), page);
    Ok(())
}

/// Alice subscribes and her mailbox changes, each package in a box: in either order, at one desk from two threads at once, and the
/// change alone at two desks that wait for one another.
pub(crate) fn shared_desks<R>(rt: R, alloc: Global, page: &mut Page) -> Result<(), RunError>
where
    R: Threads + Wait + Copy + Send + 'static,
{
    let props = Props::new(alloc, false)?;
    let package: Box<dyn Package> = Box::new(alloc, alice(alloc, Manner::Plain, &props)?)?;
    show_in_turn(&rt, alloc, package, Order::SUBSCRIPTION_FIRST, page)?;
    let package: Box<dyn Package> = Box::new(alloc, alice(alloc, Manner::Plain, &props)?)?;
    show_in_turn(&rt, alloc, package, Order::CHANGE_FIRST, page)?;
    let package: Box<dyn Package> = Box::new(alloc, alice(alloc, Manner::Plain, &props)?)?;
    show_both(rt, alloc, package, page)?;
    let first: Box<dyn Package> = Box::new(alloc, alice(alloc, Manner::MeetsFirst, &props)?)?;
    let second: Box<dyn Package> = Box::new(alloc, alice(alloc, Manner::MeetsSecond, &props)?)?;
    show_meeting(rt, alloc, (first, second), &props.stage, page)
}
