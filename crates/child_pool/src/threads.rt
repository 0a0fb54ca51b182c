// A job that runs in a thread of its own.
ghost use Rattle.std.specs.Prelude.{◌≡◌, ◌<◌, ◌-◌, ◌^◌, IfOk, length};
ghost use Rattle.std.specs.Arc.{arc_value};
ghost use Rattle.std.specs.Option.{ForSome};
ghost use Rattle.child_pool.specs.Crews.{TellsFate};

use crate::hints::Hints;
use crate::pool::Work;
use crate::steps::build;
use opam_names::OutOfMemory;
use outside_io::{Fate, Job, Workshop};
use std::alloc::{AllocError, Global};
use std::snapshot::Snapshot;
use std::sync::{Arc, Wait};
use std::thread;
use std::thread::{Promise, PromisedHandle, Threads};

/// What a thread promises: the told fate of this job in this shop.
#[derive(Drop)]
pub struct FateOf<W: Workshop> {
    pub shop: Snapshot<W>,
    pub job: Snapshot<Job>,
}

impl<W: Workshop> Promise<Result<Fate, OutOfMemory>> for FateOf<W> {
    ghost kept_by = { λ p r. IfOk r (λ fate. TellsFate (W.told p.shop.value) p.job.value fate) };
}

type Handle<W> = PromisedHandle<Result<Fate, OutOfMemory>, FateOf<W>>;

/// A job that runs, in a thread if one could be made.
#[derive(Drop)]
pub struct Child<W: Workshop> {
    pub place: u32,
    pub id: u32,
    pub shop: Arc<W>,
    pub job: Arc<Job>,
    pub handle: Option<Handle<W>>,
    ghost short: { length (arc_value job).commands < 2 ^ 32 - 1 },
    ghost kept: { ∥ ForSome handle (λ h. (h.promise.shop.value ≡ arc_value shop)
        × (h.promise.job.value ≡ arc_value job)) ∥₁ },
}

/// What the threads of a pool are started with. A crew over it is made in three lines, where the shop may be sent to a
/// thread:
///
/// ```text
/// let parts = PoolParts::new(rt, alloc, shop)?;
/// let begin = |place: u32, id: u32, job: Job| -> Result<Child<W>, OutOfMemory>
///     requires { length job.commands < 2 ^ 32 - 1 }
/// { parts.start(alloc, place, id, job) };
/// let mut crew = PoolCrew::new(alloc, parts.share()?, workers, begin);
/// ```
#[derive(Drop)]
pub struct PoolParts<R: Drop, W: Workshop + Drop> {
    pub rt: R,
    pub shop: Arc<W>,
    pub hints: Arc<Hints>,
}

impl<
    R: Threads + Wait + Clone + Send + Sync + Drop + 'static,
    W: Workshop + Send + Sync + Drop + 'static,
> PoolParts<R, W> {
    /// For a pool whose jobs are built in this shop.
    pub fn new(rt: &R, alloc: Global, shop: &Arc<W>) -> Result<PoolParts<R, W>, OutOfMemory>
        ensures { IfOk result (λ parts. arc_value parts.shop ≡ arc_value shop.now) }
    {
        Ok(PoolParts {
            rt: rt.clone()?,
            shop: Arc::try_clone(shop)?,
            hints: Arc::new(alloc, Hints::new())?,
        })
    }

    /// The same parts once more.
    pub fn share(&self) -> Result<PoolParts<R, W>, OutOfMemory>
        ensures { IfOk result (λ parts. arc_value parts.shop ≡ arc_value self.now.shop) }
    {
        Ok(PoolParts {
            rt: self.rt.clone()?,
            shop: Arc::try_clone(&self.shop)?,
            hints: Arc::try_clone(&self.hints)?,
        })
    }

    /// Starts a job in a thread of its own, if one can be made; it rings for this place when it has ended. Where no
    /// thread can be made the job is built when its end is asked for.
    pub fn start(
        &self,
        alloc: Global,
        place: u32,
        id: u32,
        job: Job,
    ) -> Result<Child<W>, OutOfMemory>
        requires { length job.commands < 2 ^ 32 - 1 }
        ensures { IfOk result (λ c. (c.id ≡ id) × (arc_value c.shop ≡ arc_value self.now.shop)
            × (arc_value c.job ≡ job)) }
    {
        // all that may want memory comes before the thread
        let job = Arc::new(alloc, job)?;
        let theirs = Arc::try_clone(&job)?;
        let workshop = Arc::try_clone(&self.shop)?;
        let ours = Arc::try_clone(&self.shop)?;
        let bell = Arc::try_clone(&self.hints)?;
        let there = self.rt.clone()?;
        let promise = FateOf {
            shop: Snapshot::of(&*self.shop),
            job: Snapshot::of(&*job),
        };
        let started = thread::spawn_with(
            &self.rt,
            promise,
            move || -> Result<Fate, OutOfMemory>
                requires { length (arc_value theirs).commands < 2 ^ 32 - 1 }
                ensures { IfOk result (λ fate. TellsFate (W.told (arc_value workshop)) (arc_value theirs) fate) }
            {
                let fate = build(alloc, &*workshop, &*theirs);
                bell.ring(&there, place);
                fate
            },
        );
        let handle = started.ok();
        if handle.is_none() {
            self.hints.ring(&self.rt, place);
        }
        Ok(Child {
            place,
            id,
            shop: ours,
            job,
            handle,
        })
    }
}

impl<W: Workshop + Drop> Work for Child<W> {
    ghost number = { λ c. c.id };

    ghost job = { λ c. arc_value c.job };

    ghost told = { λ c. W.told (arc_value c.shop) };

    fn id(&self) -> u32 {
        self.id
    }

    fn place(&self) -> u32 {
        self.place
    }

    fn end<R: Threads>(self, rt: &R, alloc: Global) -> Result<Fate, OutOfMemory> {
        let Child {
            place: _,
            id: _,
            shop,
            job,
            handle,
        } = self;
        match handle {
            Some(handle) => handle.join(rt),
            None => build(alloc, &*shop, &*job),
        }
    }
}
