// The end of standard input, which ends the rounds.
use probe_rounds::Going;
use std::alloc::{AllocError, Global};
use std::io::Read;
use std::sync::Arc;
use std::sync::atomic::{AtomicBool, Ordering};
use std::thread;
use std::thread::Threads;

/// Rounds go on until standard input has ended.
#[derive(Drop)]
pub struct InputGoing {
    // Whether it has; none where nobody looks.
    over: Option<Arc<AtomicBool>>,
    asked: u64,
    noes: u64,
}

// Notes once the reader ends or fails.
fn note_end<I: Read>(input: &mut I, over: &AtomicBool) {
    let mut buf = [0u8; 256];
    for _ in 0..u64::MAX {
        match input.read(&mut buf) {
            Ok(count) if count > 0 => {}
            _ => break,
        }
    }
    over.store(true, Ordering::SeqCst);
}

// What a thread that reads standard input notes, none where there is no such thread.
fn watch<R: Threads>(host: HostRuntime, rt: &R) -> Result<Option<Arc<AtomicBool>>, AllocError> {
    let over = Arc::new(host.alloc(), AtomicBool::new(false))?;
    let own = Arc::try_clone(&over)?;
    let is_read = thread::spawn(rt, move || note_end(&mut host.stdin(), &own)).is_ok();
    Ok(if is_read { Some(over) } else { None })
}

impl InputGoing {
    /// Rounds go on: nobody looks at standard input.
    pub fn always() -> InputGoing {
        InputGoing {
            over: None,
            asked: 0,
            noes: 0,
        }
    }

    /// A thread looks at standard input, and reads it; none where no thread could be started.
    pub fn by_input<R: Threads>(host: HostRuntime, rt: &R) -> Option<InputGoing> {
        let over = watch(host, rt).ok()??;
        Some(InputGoing {
            over: Some(over),
            asked: 0,
            noes: 0,
        })
    }
}

impl Going for InputGoing {
    ghost asked = { λ g. g.asked };

    ghost noes = { λ g. g.noes };

    fn goes_on(&mut self) -> bool {
        self.asked = self.asked.saturating_add(1);
        let is_over = match &self.over {
            Some(over) => over.load(Ordering::SeqCst),
            None => false,
        };
        if is_over {
            self.noes = self.noes.saturating_add(1);
        }
        !is_over
    }
}
