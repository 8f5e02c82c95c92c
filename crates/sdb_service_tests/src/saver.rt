//! Tests of the rounds of `sdb_store`.
use sdb_backend::Backend;
use sdb_progress::{SaveProgress, Ticket};
use sdb_store::{LineWriter, RoundListener, SaveFault, Saver, WriteFault, save_until_closed};

// A journal that keeps its last group. It requests a round while it writes one.
#[derive(Drop)]
struct RequestingWriter<'a> {
    progress: &'a SaveProgress,
    is_moved: bool,
    group: Vec<Vec<u8>>,
    ticket: Option<Ticket>,
}

impl LineWriter for RequestingWriter<'_> {
    ghost use Rattle.std.specs.Prelude.{⊤};

    ghost trusts = { λ _. ⊤ };

    ghost has_lines = { λ _ _. ⊤ };

    fn check(&self) -> Result<(), WriteFault> {
        if self.is_moved {
            Err(WriteFault::Moved)
        } else {
            Ok(())
        }
    }

    fn take_written(&mut self) -> Option<u64> {
        None
    }

    fn write(&mut self, group: Vec<Vec<u8>>) -> Result<(), (WriteFault, Vec<Vec<u8>>)> {
        self.ticket = Some(self.progress.request());
        self.group = group;
        Ok(())
    }
}

// A listener that does nothing.
#[derive(Drop)]
struct NoListener;

impl RoundListener for NoListener {
    fn notify(&self, _saved: Result<(), SaveFault>) {}
}

// The last round writes a block of numbers, and commits no ticket that is taken after its begin.
#[test]
fn the_last_round_is_saved(rt: HostRuntime) {
    let alloc = rt.alloc();
    let (backend, mut host) = Backend::new(alloc, rt).expect(&rt, "out of memory");
    let mut pass = backend.enter(&mut host).expect(&rt, "a pass");
    backend.list_unsaved(&mut pass);
    let mut saver = Saver::new(alloc, pass, 0);
    let progress = SaveProgress::new(0);
    let mut writer = RequestingWriter {
        progress: &progress,
        is_moved: false,
        group: Vec::new(alloc),
        ticket: None,
    };
    assert!(rt; !progress.reserve_number(1));
    progress.close();
    let saved = save_until_closed(
        &rt,
        &backend,
        &mut saver,
        &mut writer,
        &progress,
        &NoListener,
    );
    assert!(rt; saved.is_ok() && progress.is_over());
    let ticket = writer.ticket.expect(&rt, "a write");
    assert!(rt; !progress.is_committed(ticket));
    assert_eq!(rt; writer.group.len(), 1);
    let line = writer.group.first().expect(&rt, "a line");
    assert!(rt; line.as_slice() == br#"{"given":1024}"#.as_slice());
    assert!(rt; progress.reserve_number(1_024) && !progress.reserve_number(1_025));
}

// Nothing is written.
#[test]
fn a_moved_journal_ends_the_rounds(rt: HostRuntime) {
    let alloc = rt.alloc();
    let (backend, mut host) = Backend::new(alloc, rt).expect(&rt, "out of memory");
    let mut pass = backend.enter(&mut host).expect(&rt, "a pass");
    backend.list_unsaved(&mut pass);
    let mut saver = Saver::new(alloc, pass, 0);
    let progress = SaveProgress::new(0);
    let mut writer = RequestingWriter {
        progress: &progress,
        is_moved: true,
        group: Vec::new(alloc),
        ticket: None,
    };
    assert!(rt; !progress.reserve_number(1));
    let saved = save_until_closed(
        &rt,
        &backend,
        &mut saver,
        &mut writer,
        &progress,
        &NoListener,
    );
    assert!(rt; saved == Err(SaveFault::Moved) && progress.is_over());
    assert!(rt; writer.ticket.is_none() && !progress.reserve_number(1));
}
