//! The documents that many threads share.
ghost use Rattle.std.specs.Prelude.{◌≡◌, ◌≤◌, length, vec_len, vec_capacity, IfErr, IfOk};
ghost use Rattle.sdb_growlock.specs.LockRule.{ForEach};
ghost use Rattle.sdb_striped_lock.specs.Capacity.{HasCapacity};
ghost use Rattle.sdb_oplog.specs.Keys.{plain_key, shard_of};
ghost use Rattle.sdb_desk.specs.ShardView.{machine_of};
ghost use Rattle.sdb_backend.specs.AuditModel.{ExtendsEveryPass};
ghost use Rattle.sdb_backend.specs.CallAnswers.{ComparedAtKey, RunsAtExtension};
ghost use Rattle.sdb_backend.specs.CloseModel.{IsCloseRefusal};
ghost use Rattle.sdb_backend.specs.HistoryOrder.{Extends, share_of};
ghost use Rattle.sdb_backend.specs.PassModel.{pass_number, next_pass_number, IsPassOfBackend, IsHostOfBackend, HasEmptyShares, PassHasSeen, HasEveryPass, IsSamePass, IsNewPass, IsEnterRefusal};
ghost use Rattle.sdb_backend.specs.declared.shard_value.Held.{Held as HeldShard};

use crate::audit::Audit;
use crate::counts::{Counts, StoredCounts};
use crate::pass::{Host, Pass};
use crate::pass_check::seat_sets_of;
use crate::shard_value::Held;
use crate::work_limits::WorkLimits;
use sdb_growlock::Job;
use sdb_oplog::{Code, Key};
use sdb_striped_lock::{CloseBuffers, SeatSet, SplitFault, StripedLock};
use std::alloc::{AllocError, Global};
use std::sync::Wait;

/// A document store for many threads, with lock striping: a key's lock is that of its shard. Each
/// call as a desk acquires one lock, makes one call of the shard and releases the lock.
/// Transforming and applying run without a lock.
///
/// ```
/// let (backend, mut host) = Backend::new(alloc, rt)?;
/// let mut pass = backend.enter(&mut host)?;
/// // `submission` was made by the pass: its `by` is `pass.number()`.
/// let now = Moment::zero();
/// let reply = submit(alloc, &backend, &mut pass, &key, submission, now, &NoGate);
/// assert!(rt; matches!(reply, Reply::Stored { v: 0, .. }));
/// assert_eq!(rt; backend.fetch(&mut pass, &key)?.version, 1);
/// ```
#[derive(Drop)]
pub struct Backend<R> {
    pub(crate) alloc: Global,
    pub(crate) rt: R,
    pub(crate) locks: StripedLock<Held>,
    pub(crate) counts: StoredCounts,
    pub(crate) limits: WorkLimits,
}

/// The reason why a backend can't be closed.
#[derive(Clone, Copy, PartialEq, Eq, Debug, Drop)]
pub enum CloseError {
    /// A pass is missing, so an operation may still be stored.
    MissingPass,
    /// The allocation of the list of seats failed.
    OutOfMemory,
}

/// A refused close, with all its arguments. The passes are in the order of their numbers.
#[derive(Drop)]
pub struct CloseRefused<R> {
    pub error: CloseError,
    pub backend: Backend<R>,
    pub host: Host,
    pub passes: Vec<Pass>,
}

impl<R: Drop> Backend<R> {
    /// Creates a backend without documents, and its host. The backend keeps the allocator, and `rt`
    /// to wait for locks.
    ///
    /// # Errors
    ///
    /// [`AllocError`] if an allocation fails.
    ///
    /// ```
    /// let (backend, mut host) = Backend::new(alloc, rt)?;
    /// let pass = backend.enter(&mut host)?;
    /// assert_eq!(rt; pass.number(), 1);
    /// ```
    pub fn new(alloc: Global, rt: R) -> Result<(Backend<R>, Host), AllocError>
        ensures host { IfOk result (λ made. IsHostOfBackend made.1 made.0) }
        ensures next { IfOk result (λ made. next_pass_number made.1 ≡ 1) }
        ensures empty { IfOk result (λ made. HasEmptyShares made.1) }
    {
        let (locks, seats) = StripedLock::new(alloc)?;
        let counts = StoredCounts::new();
        let backend = Backend {
            alloc,
            rt,
            locks,
            counts,
            limits: WorkLimits::new(),
        };
        Ok((backend, Host { seats }))
    }

    /// Creates a pass with a new number, starting with 1, or with the number after a restoration. The
    /// pass has observed what its host has, and nothing is stored under its number. It doesn't wait.
    ///
    /// # Errors
    ///
    /// [`Code::E11`] if 2^64 - 2 passes were created, [`Code::E10`] if an allocation fails. The
    /// host is then unchanged.
    ///
    /// ```
    /// let first = backend.enter(&mut host)?;
    /// let second = backend.enter(&mut host)?;
    /// assert_eq!(rt; (first.number(), second.number()), (1, 2));
    /// ```
    pub fn enter(&self, host: &mut Host) -> Result<Pass, Code>
        requires { IsHostOfBackend host.old self.now }
        ensures host { IsHostOfBackend host.new self.now }
        ensures ok { IfOk result (λ pass. IsNewPass self.now host.old host.new pass) }
        ensures err { IfErr result (λ code. IsEnterRefusal host.old host.new code) }
    {
        match self.locks.split(self.alloc, &mut host.seats) {
            Ok(seats) => Ok(Pass { seats }),
            Err(SplitFault::OutOfNumbers) => Err(Code::E11),
            Err(SplitFault::OutOfMemory) => Err(Code::E10),
        }
    }

    /// Compares what two passes have observed of a key's shard: one history extends both. Neither
    /// pass observes anything new. It doesn't wait.
    pub fn compare(&self, first: &mut Pass, second: &mut Pass, key: &Key)
        requires passes { IsPassOfBackend first.old self.now × IsPassOfBackend second.old self.now }
        ensures first { IsSamePass self.now (shard_of (plain_key key.now)) first.old first.new }
        ensures second { IsSamePass self.now (shard_of (plain_key key.now)) second.old second.new }
        ensures compared { ComparedAtKey (plain_key key.now) first.old first.new second.old second.new }
    {
        self.locks
            .compare(&mut first.seats, &mut second.seats, key.shard());
    }

    /// Closes the backend, given its host and all its passes, and returns the audit of its logs.
    /// The audit extends the history that each pass has observed, and contains only entries that
    /// the passes stored. It doesn't wait.
    ///
    /// # Errors
    ///
    /// [`CloseError::MissingPass`] if a pass is missing, as those of the numbers before a
    /// [restoration](crate::Restoration) are. [`CloseError::OutOfMemory`] if an allocation fails.
    /// [`CloseRefused`] returns all arguments unchanged, except for the order of the passes.
    ///
    /// ```
    /// let mut passes = Vec::with_capacity(alloc, 1)?;
    /// passes.push_reserved(pass);
    /// match backend.close(host, passes) {
    ///     Ok(audit) => assert_eq!(rt; audit.documents()?.len(), 0),
    ///     Err(refused) => assert!(rt; refused.error == CloseError::OutOfMemory),
    /// }
    /// ```
    pub fn close(self, host: Host, mut passes: Vec<Pass>) -> Result<Audit, CloseRefused<R>>
        requires host { IsHostOfBackend host self }
        requires passes { ForEach (λ p. IsPassOfBackend p self) passes.items }
        ensures ok { IfOk result (λ audit. HasEveryPass (next_pass_number host) passes.items
            × ExtendsEveryPass audit passes.items) }
        ensures err { IfErr result (λ r. IsCloseRefusal self host passes.items r) }
    {
        if !host.has_every_pass(&mut passes) {
            return Err(CloseRefused {
                error: CloseError::MissingPass,
                backend: self,
                host,
                passes,
            });
        }
        match reserve_close_buffers(self.alloc, passes.len()) {
            Ok((places, seats)) => {
                let Backend { alloc, locks, .. } = self;
                let shards = locks.close(host.into_seats(), seat_sets_of(passes, seats), places);
                Ok(Audit::new(alloc, shards))
            }
            Err(_) => Err(CloseRefused {
                error: CloseError::OutOfMemory,
                backend: self,
                host,
                passes,
            }),
        }
    }
}

impl<R> Backend<R> {
    /// Returns the numbers of stored documents and entries. A submission that is being stored may
    /// not be counted yet. It doesn't wait.
    ///
    /// ```
    /// let counts = backend.counts();
    /// assert_eq!(rt; (counts.documents, counts.entries), (1, 1));
    /// ```
    pub fn counts(&self) -> Counts {
        self.counts.load()
    }

    /// Sets whether the backend is full. A submission that a full one would store is answered E10,
    /// as if an allocation failed; duplicates, other refusals and reads are answered as before. The
    /// default is `false`.
    pub fn set_full(&self, is_full: bool) {
        self.limits.set_full(is_full);
    }

    /// Returns whether the backend is full.
    pub fn is_full(&self) -> bool {
        self.limits.is_full()
    }
}

impl<R: Wait> Backend<R> {
    // Runs the job on the documents of the key's shard, with the lock acquired.
    pub(crate) fn run<J: Job<Held>>(&self, pass: &mut Pass, key: &Key, job: J) -> J::Answer
        requires pass { IsPassOfBackend pass.old self.now }
        requires ready { (x v : HeldShard) → PassHasSeen pass.old (plain_key key.now) x
            → Extends (machine_of v.shard) (machine_of x.shard)
            → share_of (pass_number pass.old) (machine_of x.shard)
            ≡ share_of (pass_number pass.old) (machine_of v.shard)
            → J.precondition job (pass_number pass.old) v }
        ensures pass { IsPassOfBackend pass.new self.now }
        ensures ran { RunsAtExtension (plain_key key.now)
            (λ v w. J.postcondition job (pass_number pass.old) v w result) pass.old pass.new }
    {
        self.locks.with(&self.rt, &mut pass.seats, key.shard(), job)
    }
}

// Reserves space for the seats of all passes, by pass and by shard.
fn reserve_close_buffers(
    alloc: Global,
    passes: usize,
) -> Result<(CloseBuffers<Held>, Vec<SeatSet<Held>>), AllocError>
    ensures places { IfOk result (λ r. HasCapacity passes r.0) }
    ensures seats { IfOk result (λ r. (vec_len r.1 ≡ 0) × (passes ≤ vec_capacity r.1)) }
{
    let places = CloseBuffers::new(alloc, passes)?;
    let seats = Vec::with_capacity(alloc, passes)?;
    Ok((places, seats))
}
