//! Crews whose ports are fed by steps of a table, each from a thread of its own.

use crate::boxes::{Manner, Props, Role};
use crate::error::RunError;
use crate::feeding::{Fed, Feeder, Step};
use crate::gathering::Gathered;
use crate::names::{MAILBOXES, Names};
use crate::page::Page;
use crate::running::{Came, Plan, make_ready, run};
use crew::Report;
use package::Closing;
use std::alloc::Global;
use std::rt::Clock;
use std::sync::Wait;
use std::thread::Threads;

/// What is told of a scene.
#[derive(Clone, Copy)]
pub(crate) enum Tells {
    /// What each worker did.
    Workers,
    /// And whether the two sides met.
    Meeting,
    /// And what the mailboxes left.
    Closing,
    /// What the port answered alone: to two closings, to an event, to a tick, and whether it is closed.
    Port,
}

/// A crew, and what it is fed.
#[derive(Clone, Copy)]
pub(crate) struct Scene {
    pub(crate) name: &'static str,
    pub(crate) plan: Plan,
    /// Whether the gate holds worker 0 until worker 1 has come.
    pub(crate) holds_worker: bool,
    pub(crate) roles: &'static [Role],
    pub(crate) feeds: &'static [&'static [Step]],
    pub(crate) tells: Tells,
}

/// Queues of one place.
const ONE_PLACE: Plan = Plan {
    places: 1,
    stop: false,
};

/// Queues of one place, and a planned stop.
pub(crate) const STOP: Plan = Plan {
    places: 1,
    stop: true,
};

/// Queues of so many places that few waits are left where others keep the processors busy.
const MANY_PLACES: Plan = Plan {
    places: 4096,
    stop: false,
};

/// Rounds of many mails: one of SUBSCRIBEs, and then as often as each of many mailboxes is changed.
const ROUNDS: u32 = 1_251;

const ALICE: Names = Names::One("alice");

pub(crate) const BOB: Names = Names::One("bob");

/// One worker, with alice's mailbox.
pub(crate) const ONE: &[Role] = &[(ALICE, Manner::Plain)];

/// Two workers, with alice's mailbox and with bob's.
pub(crate) const TWO: &[Role] = &[(ALICE, Manner::Plain), (BOB, Manner::Plain)];

/// Four workers, with those of four hundred mailboxes whose home they are.
const FOUR: &[Role] = &[
    (Names::At(0), Manner::Plain),
    (Names::At(1), Manner::Plain),
    (Names::At(2), Manner::Plain),
    (Names::At(3), Manner::Plain),
];

/// Two ports, of which one is closed; the other brings nothing.
const UNCLOSED: &[&[Step]] = &[&[Step::Close], &[]];

/// The same, but the other brings ten changes.
const UNCLOSED_AFTER_TEN: &[&[Step]] = &[&[Step::Close], &[Step::Rounds(ALICE, 1, 11)]];

/// The scenes.
pub(crate) const SCENES: [Scene; 12] = [
    // two ports: alice subscribes and gets one mail change, bob subscribes
    Scene {
        name: "two_workers",
        plan: ONE_PLACE,
        holds_worker: false,
        roles: TWO,
        feeds: &[
            &[Step::Rounds(ALICE, 0, 2), Step::Close],
            &[Step::Rounds(BOB, 0, 1), Step::Close],
        ],
        tells: Tells::Workers,
    },
    Scene {
        name: "mail_through_one_place",
        plan: ONE_PLACE,
        holds_worker: false,
        roles: TWO,
        feeds: &[&[Step::Rounds(ALICE, 0, 1001), Step::Close]],
        tells: Tells::Workers,
    },
    // four ports, four workers and four hundred watchers, each of whom is told of each change of a mailbox
    Scene {
        name: "many_mails",
        plan: MANY_PLACES,
        holds_worker: false,
        roles: FOUR,
        feeds: &[
            &[Step::Rounds(Names::From(0), 0, ROUNDS), Step::Close],
            &[Step::Rounds(Names::From(MAILBOXES), 0, ROUNDS), Step::Close],
            &[
                Step::Rounds(Names::From(2 * MAILBOXES), 0, ROUNDS),
                Step::Close,
            ],
            &[
                Step::Rounds(Names::From(3 * MAILBOXES), 0, ROUNDS),
                Step::Close,
            ],
        ],
        tells: Tells::Workers,
    },
    // alice and bob subscribe through one port, and then the time comes to both workers
    Scene {
        name: "time_for_all",
        plan: ONE_PLACE,
        holds_worker: false,
        roles: TWO,
        feeds: &[&[
            Step::Rounds(ALICE, 0, 1),
            Step::Rounds(BOB, 0, 1),
            Step::Tick(31),
            Step::Close,
        ]],
        tells: Tells::Workers,
    },
    // alice subscribes, and her last NOTIFY ends the subscription; bob's worker gets the stop alone
    Scene {
        name: "planned_stop",
        plan: STOP,
        holds_worker: false,
        roles: TWO,
        feeds: &[&[Step::Rounds(ALICE, 0, 1), Step::Close]],
        tells: Tells::Workers,
    },
    // the box says at its third change that memory ran out; a stop is planned, and is not handled
    Scene {
        name: "refused_change",
        plan: STOP,
        holds_worker: false,
        roles: &[(ALICE, Manner::Refuses(2))],
        feeds: &[&[Step::Rounds(ALICE, 0, 6), Step::Close]],
        tells: Tells::Workers,
    },
    // worker 0 before its first event and worker 1 before its second wait for each other, so one after the other they never meet
    Scene {
        name: "workers_meet",
        plan: ONE_PLACE,
        holds_worker: true,
        roles: TWO,
        feeds: &[
            &[Step::Rounds(ALICE, 0, 1), Step::Close],
            &[Step::Rounds(BOB, 0, 2), Step::Close],
        ],
        tells: Tells::Meeting,
    },
    // the box of worker 0 holds its change until the box of worker 1 has one
    Scene {
        name: "boxes_meet",
        plan: ONE_PLACE,
        holds_worker: false,
        roles: &[(ALICE, Manner::Waits), (BOB, Manner::Comes)],
        feeds: &[
            &[Step::Rounds(ALICE, 1, 2), Step::Close],
            &[Step::Rounds(BOB, 1, 2), Step::Close],
        ],
        tells: Tells::Meeting,
    },
    // of two ports one is closed, and the other goes away unclosed
    Scene {
        name: "dropped_ports",
        plan: Plan::USUAL,
        holds_worker: false,
        roles: ONE,
        feeds: UNCLOSED,
        tells: Tells::Workers,
    },
    Scene {
        name: "dropped_after_ten",
        plan: Plan::USUAL,
        holds_worker: false,
        roles: ONE,
        feeds: UNCLOSED_AFTER_TEN,
        tells: Tells::Workers,
    },
    // a port that was closed
    Scene {
        name: "closed_port",
        plan: ONE_PLACE,
        holds_worker: false,
        roles: ONE,
        feeds: &[&[
            Step::Close,
            Step::Close,
            Step::Rounds(ALICE, 1, 2),
            Step::Tick(5),
            Step::LookClosed,
        ]],
        tells: Tells::Port,
    },
    // two mail changes for alice, and what the packages of her worker leave
    Scene {
        name: "closings",
        plan: Plan::USUAL,
        holds_worker: false,
        roles: ONE,
        feeds: &[&[Step::Rounds(ALICE, 1, 3), Step::Close]],
        tells: Tells::Closing,
    },
];

/// What feeds the ports, by phones that know this tag. The last one gets the first port.
fn feeders_of(
    alloc: Global,
    feeds: &[&'static [Step]],
    tag: &str,
) -> Result<Vec<Feeder>, RunError> {
    let mut feeders = Vec::new(alloc);
    for steps in feeds {
        let tag = String::from_str(alloc, tag)?;
        feeders.push(Feeder::Steps(steps, tag))?;
    }
    Ok(feeders)
}

/// Runs the crew of a scene with these props, whose phones know this tag, and gathers what it posts.
pub(crate) fn perform<R>(
    rt: R,
    alloc: Global,
    scene: &Scene,
    props: &Props,
    tag: &str,
    gathered: &mut Gathered,
) -> Result<Came, RunError>
where
    R: Threads + Wait + Clock + Copy + Send + 'static,
{
    let mut feeders = feeders_of(alloc, scene.feeds, tag)?;
    let ready = make_ready(alloc, scene.plan, scene.roles, props)?;
    run(rt, alloc, ready, &mut feeders, gathered)
}

/// Whether the two sides met.
pub(crate) fn tell_meeting(has_met: bool, page: &mut Page) {
    page.say(if has_met {
        "they met\n"
    } else {
        "they missed one another\n"
    });
}

/// What a package left, in words.
fn show_closing(alloc: Global, closing: Option<&Closing>, page: &mut Page) {
    match closing {
        Some(
            Closing {
                event,
                resources,
                changes,
            },
        ) => {
            page.say(event.as_str());
            page.tell(alloc, ": ", *resources);
            page.tell(alloc, " resources, ", *changes);
            page.say(" changes\n");
        }
        None => page.say("nothing left\n"),
    }
}

/// What the only port answered, in words.
fn show_port(alloc: Global, fed: &[Fed], page: &mut Page) {
    let Some(fed) = fed.first() else {
        return;
    };
    let [first, again, sent, ticked, closed] = fed.refused;
    page.judge("closes: ", first == 0);
    page.judge(", again: ", again == 0);
    page.tell(alloc, ", not sent: ", u64::from(sent));
    page.judge(", ticks: ", ticked == 0);
    page.judge(", closed: ", closed == 0);
    page.say("\n");
}

/// Whether a worker passed the gate otherwise than once before each event, if one did.
fn show_gate(report: &Report, props: &Props, page: &mut Page) {
    if !props.stage.was_passed(report) {
        page.say("a worker did not pass the gate once before each event\n");
    }
}

/// How many events were not sent, if any.
fn show_refused(alloc: Global, fed: &[Fed], page: &mut Page) {
    let mut refused = 0u32;
    for fed in fed {
        for more in fed.refused {
            refused = refused.saturating_add(more);
        }
    }
    if refused > 0 {
        page.tell(alloc, "", u64::from(refused));
        page.say(" not sent\n");
    }
}

/// Plays a scene.
pub(crate) fn play_scene<R>(
    rt: R,
    alloc: Global,
    scene: &Scene,
    page: &mut Page,
) -> Result<(), RunError>
where
    R: Threads + Wait + Clock + Copy + Send + 'static,
{
    let props = Props::new(alloc, scene.holds_worker)?;
    let mut gathered = Gathered::nothing(alloc, scene.roles.len(), false)?;
    let came = perform(rt, alloc, scene, &props, "", &mut gathered)?;
    let fed = came.fed.as_slice();
    if matches!(scene.tells, Tells::Port) {
        show_port(alloc, fed, page);
        return Ok(());
    }
    gathered.show(alloc, &came.report, page);
    show_gate(&came.report, &props, page);
    show_refused(alloc, fed, page);
    match scene.tells {
        Tells::Meeting => tell_meeting(props.stage.was_kept(), page),
        Tells::Closing => show_closing(alloc, props.mail.get(), page),
        Tells::Workers | Tells::Port => {}
    }
    Ok(())
}
