//! The state that all loops of a server share.
ghost use Rattle.std.specs.Prelude.{◌≡◌, IfOk};
ghost use Rattle.sdb_backend.specs.PassModel.{IsHostOfBackend};
ghost use Rattle.sdb_backend.specs.declared.pass.Host.{Host as HostState};
ghost use Rattle.sdb_connection.specs.LoopModel.{IsHostOfLoops, loops_backend};

use sdb_backend::Backend;
use sdb_link::{LoopTime, Metrics, ServerStatus, resident_memory};
use sdb_loop_state::{LoopOptions, LoopState};
use sdb_progress::SaveProgress;
use std::alloc::{AllocError, Global};
use std::sync::{Arc, Wait};

/// The state that all loops of a server share: the documents, the policy, the counts of
/// connections and clients, and the flags of the server's life cycle.
#[derive(Drop)]
pub struct LoopServer<R, P> {
    pub(crate) backend: Backend<R>,
    pub(crate) policy: P,
    pub(crate) metrics: Metrics,
    pub(crate) loops: LoopState,
}

impl<R: Drop, P: Drop> LoopServer<R, P> {
    /// Creates a server without clients, for the backend's documents, under a policy: a
    /// [`Table`](sdb_projection::Table) has projections only. Each number of the options is set to
    /// the nearest permitted one.
    ///
    /// # Errors
    ///
    /// [`AllocError`] if an allocation fails.
    ///
    /// ```
    /// let (backend, mut host) = Backend::new(alloc, rt)?;
    /// let options = LoopOptions { loops: 2, clients: 1_000 };
    /// let state = LoopServer::new(alloc, backend, Table::new(alloc), options)?.with_log(true);
    /// let state = Arc::new(alloc, state)?;
    /// ```
    pub fn new(
        alloc: Global,
        backend: Backend<R>,
        policy: P,
        options: LoopOptions,
    ) -> Result<LoopServer<R, P>, AllocError>
        ensures { IfOk result (λ s. (h : HostState) → IsHostOfBackend h backend → IsHostOfLoops h s) }
    {
        Ok(LoopServer {
            backend,
            policy,
            metrics: Metrics::new(),
            loops: LoopState::new(alloc, options)?,
        })
    }

    /// Sets whether the start and the end of each session are logged on standard error. The default
    /// is `false`.
    pub fn with_log(mut self, is_logging: bool) -> LoopServer<R, P>
        ensures { loops_backend result ≡ loops_backend self }
    {
        self.loops.settings.is_logging = is_logging;
        self
    }

    /// Sets whether clients connect through a proxy, which writes their addresses into
    /// `X-Forwarded-For`. The log then has the last one of the last such header field, since a client
    /// can send others. The default is `false`.
    pub fn with_proxy(mut self, is_proxied: bool) -> LoopServer<R, P>
        ensures { loops_backend result ≡ loops_backend self }
    {
        self.loops.settings.is_proxied = is_proxied;
        self
    }

    /// Sets whether the passes of ended sessions are kept and returned. The default is `true`. A
    /// server that is never stopped needs none of them, but the backend can't be closed without.
    pub fn with_passes_kept(mut self, is_keeping: bool) -> LoopServer<R, P>
        ensures { loops_backend result ≡ loops_backend self }
    {
        self.loops.settings.is_keeping = is_keeping;
        self
    }

    /// Sets the number of sessions, 1 or more, after whose end the server is stopped. It isn't if the
    /// number is `None`, the default. Clients beyond this number are closed with 1013.
    pub fn with_session_limit(mut self, limit: Option<u64>) -> LoopServer<R, P>
        ensures { loops_backend result ≡ loops_backend self }
    {
        self.loops.counts.set_session_limit(limit);
        self
    }

    /// Sets the resident memory in bytes above which no operation is stored: those that would be are
    /// answered E10, until the memory is below it. The loops compare once a second. Without a limit,
    /// the default, all are stored.
    pub fn with_memory_limit(mut self, limit: Option<u64>) -> LoopServer<R, P>
        ensures { loops_backend result ≡ loops_backend self }
    {
        self.loops.settings.memory_limit = limit;
        self
    }

    /// Sets the progress of a thread that saves stored operations. Without one, the default, no output
    /// waits for a save.
    ///
    /// - The output of a client's turn is held until a round is committed that began after the turn.
    ///   Meanwhile the client isn't read from.
    /// - A session gets only a number that is reserved.
    /// - Sessions whose output is held for half a minute are closed with 1013, and that output is
    ///   discarded.
    /// - If nothing more [is saved](SaveProgress::is_over), the held output of a session that ends is
    ///   discarded.
    ///
    /// The thread that saves calls [`notify_committed`](LoopServer::notify_committed) after each round.
    ///
    /// ```
    /// let progress = Arc::new(alloc, SaveProgress::new(reserved))?;
    /// let state = LoopServer::new(alloc, backend, Table::new(alloc), options)?
    ///     .with_progress(Arc::try_clone(&progress)?);
    /// ```
    pub fn with_progress(mut self, progress: Arc<SaveProgress, Global>) -> LoopServer<R, P>
        ensures { loops_backend result ≡ loops_backend self }
    {
        self.loops.settings.progress = Some(progress);
        self
    }

    /// Returns the backend, so that it can be closed after all sessions have ended. It doesn't wait
    /// for them.
    pub fn into_backend(self) -> Backend<R>
        ensures { result ≡ loops_backend self }
    {
        let LoopServer { backend, .. } = self;
        backend
    }
}

impl<R, P> LoopServer<R, P> {
    /// Returns the backend.
    pub fn backend(&self) -> &Backend<R>
        ensures { result.now ≡ loops_backend self.now }
    {
        &self.backend
    }

    /// Returns the state of the server at this time of a loop.
    pub(crate) fn status(&self, time: LoopTime) -> ServerStatus {
        let counts = self.backend.counts();
        let progress = self.loops.settings.progress();
        ServerStatus {
            clients: self.loops.counts.clients(),
            documents: counts.documents,
            entries: counts.entries,
            start: (time.moment_millis / 1_000).saturating_sub(time.second),
            uptime: time.second,
            resident: resident_memory(),
            memory_limit: self.loops.settings.memory_limit,
            is_full: self.backend.is_full(),
            tally: self.metrics.load(),
            saving: progress.map(|progress| progress.record().load()),
        }
    }

    /// Compares the memory of the process with its limit, if there is one.
    pub fn check_memory(&self) {
        if let (Some(limit), Some(resident)) = (
            self.loops.settings.memory_limit,
            resident_memory(),
        ) {
            self.backend.set_full(resident > limit);
        }
    }

    /// Stops the server: `listen_on_loops` accepts no more connections, closes each session with status
    /// 1001, and returns. A stop is final.
    pub fn stop<W: Wait>(&self, rt: &W) {
        self.loops.stop(rt);
    }

    /// Wakes all loops and the thread that supplies passes. The thread that saves calls this after each
    /// round, whether it was committed or has failed.
    pub fn notify_committed<W: Wait>(&self, rt: &W) {
        self.loops.wake_everyone(rt);
    }
}
