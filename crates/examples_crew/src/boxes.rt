//! The packages of the crews.
ghost use Rattle.std.specs.Prelude.{◌≤◌, IsTrue, vec_len, IfOk};
ghost use Rattle.package.specs.Changes.{is_forget};

use crate::error::RunError;
use crate::gates::Stage;
use crate::names::{Names, names_of};
use message_summary::Mailboxes;
use package::{Change, ClosingCell, Outcome, Package};
use refer::Transfers;
use sip_text::NoMemory;
use std::alloc::Global;
use std::sync::Arc;
use std::sync::atomic::Ordering;

/// What the packages of all workers of a crew are made of.
pub(crate) type Crowd = Vec<Vec<Part>>;

/// What a mailbox package does besides, at each change.
#[derive(Clone, Copy)]
pub(crate) enum Manner {
    /// Nothing.
    Plain,
    /// It waits at the first place until the other side has come.
    Waits,
    /// It tells at the first place that it has come.
    Comes,
    /// It tells at the first place that it has come, and waits at the second.
    MeetsFirst,
    /// It tells at the second place that it has come, and waits at the first.
    MeetsSecond,
    /// It takes so many changes, and then says that memory ran out.
    Refuses(u32),
}

/// The mailboxes that a worker holds, and their manner.
pub(crate) type Role = (Names, Manner);

/// What the packages of a crew share: where they meet, and where the first of each kind leaves its Closing. Each worker has
/// transfers too where these have a cell.
#[derive(Drop)]
pub(crate) struct Props {
    pub(crate) stage: Arc<Stage, Global>,
    pub(crate) mail: Arc<ClosingCell>,
    pub(crate) transfers: Option<Arc<ClosingCell>>,
}

impl Props {
    /// A stage whose gate is open, or holds worker 0, and a cell for the mailboxes.
    pub(crate) fn new(alloc: Global, holds_worker: bool) -> Result<Props, RunError> {
        Ok(Props {
            stage: Arc::new(alloc, Stage::new(holds_worker))?,
            mail: ClosingCell::new(alloc)?,
            transfers: None,
        })
    }
}

/// Mailboxes of one worker.
#[derive(Drop)]
pub(crate) struct Boxes {
    inner: Mailboxes,
    manner: Manner,
    stage: Arc<Stage, Global>,
}

/// A package of a crew, before it stands in its box.
#[derive(Drop)]
pub(crate) enum Part {
    Mail(Boxes),
    Transfers(Transfers),
}

/// Does at the places what the manner asks for, and tells whether a mail change may go on.
fn act(manner: &mut Manner, stage: &Stage) -> bool {
    match *manner {
        Manner::Plain => {}
        Manner::Waits => stage.wait(&stage.first),
        Manner::Comes => stage.first.store(true, Ordering::SeqCst),
        Manner::MeetsFirst => {
            stage.first.store(true, Ordering::SeqCst);
            stage.wait(&stage.second);
        }
        Manner::MeetsSecond => {
            stage.second.store(true, Ordering::SeqCst);
            stage.wait(&stage.first);
        }
        Manner::Refuses(0) => return false,
        Manner::Refuses(left) => *manner = Manner::Refuses(left - 1),
    }
    true
}

/// Whether this change may go on. The manner is asked at mail changes.
fn may_change(manner: &mut Manner, stage: &Stage, change: &Change) -> bool
    ensures { IsTrue (is_forget change.now) → IsTrue result }
{
    if !matches!(change, Change::Mail(_)) {
        return true;
    }
    act(manner, stage)
}

impl Package for Boxes {
    ghost seen = { λ boxes. ⟦<Mailboxes as Package>⟧.seen boxes.inner };

    fn event(&self) -> &str {
        self.inner.event()
    }

    fn content_type(&self) -> &str {
        self.inner.content_type()
    }

    fn holds(&self, resource: &str) -> bool {
        self.inner.holds(resource)
    }

    fn change(&mut self, alloc: Global, change: &Change) -> Result<Outcome, NoMemory> {
        if !may_change(&mut self.manner, &self.stage, change) {
            return Err(NoMemory);
        }
        self.inner.change(alloc, change)
    }

    fn body(&self, alloc: Global, resource: &str) -> Result<Option<Vec<u8>>, NoMemory> {
        self.inner.body(alloc, resource)
    }

    fn is_over(&self, resource: &str) -> bool {
        self.inner.is_over(resource)
    }
}

/// The mailboxes of a worker, which leave their Closing in the cell.
pub(crate) fn mailboxes_of(alloc: Global, role: Role, props: &Props) -> Result<Boxes, RunError> {
    let stage = Arc::try_clone(&props.stage)?;
    let cell = Arc::try_clone(&props.mail)?;
    let inner = Mailboxes::new(alloc, names_of(alloc, role.0)?, cell)?;
    Ok(Boxes {
        inner,
        manner: role.1,
        stage,
    })
}

/// What the packages of a worker are made of.
fn parts_of(alloc: Global, role: Role, props: &Props) -> Result<Vec<Part>, RunError> {
    let mut parts = Vec::new(alloc);
    parts.push(Part::Mail(mailboxes_of(alloc, role, props)?))?;
    if let Some(cell) = &props.transfers {
        let transfers = Transfers::new(alloc, Arc::try_clone(cell)?)?;
        parts.push(Part::Transfers(transfers))?;
    }
    Ok(parts)
}

/// What the packages of these workers are made of.
pub(crate) fn crowd_of(alloc: Global, roles: &[Role], props: &Props) -> Result<Crowd, RunError> {
    let mut crowd = Vec::new(alloc);
    for role in roles {
        crowd.push(parts_of(alloc, *role, props)?)?;
    }
    Ok(crowd)
}

/// The packages of a worker, each as `place` makes it of its part.
fn packages_of<P, F>(alloc: Global, parts: Vec<Part>, place: &F) -> Result<Vec<P>, RunError>
where
    P: Package,
    F: Fn(Part) -> Result<P, NoMemory>,
    requires { F.IsAlwaysCallable place.now }
{
    let mut packages = Vec::new(alloc);
    for part in parts {
        packages.push(place(part)?)?;
    }
    Ok(packages)
}

/// The packages of all workers, each as `place` makes it of its part, if a crew may have so many.
pub(crate) fn place_all<P, F>(
    alloc: Global,
    crowd: Crowd,
    place: &F,
) -> Result<Vec<Vec<P>>, RunError>
where
    P: Package,
    F: Fn(Part) -> Result<P, NoMemory>,
    requires { F.IsAlwaysCallable place.now }
    ensures { IfOk result (λ all. vec_len all ≤ 256) }
{
    let mut all = Vec::new(alloc);
    for parts in crowd {
        all.push(packages_of(alloc, parts, place)?)?;
    }
    if all.len() > 256 {
        return Err(RunError::NoRun);
    }
    Ok(all)
}
