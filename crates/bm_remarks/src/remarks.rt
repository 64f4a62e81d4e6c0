//! The thread that writes remarks, so that nobody waits for who reads them.

ghost use Rattle.std.specs.Prelude.{◌≡◌, IfNone, IfOk, IfSome, string_bytes};
ghost use Rattle.bm_remarks.specs.Forms.{IsIn};

use bm_config::RemarkForm;
use bm_latent::millis;
use bm_operator::Remark;
use crossbeam_channel::{Receiver, Sender, bounded};
use std::alloc::{AllocError, Global};
use std::io::Write;
use std::sync::atomic::{AtomicU64, Ordering};
use std::sync::{Arc, Wait};
use std::thread;
use std::thread::Threads;
use std::time::{Clock, Duration, Instant};

/// How many remarks wait at the most to be written.
const MOST_REMARKS: usize = 1_024;

/// How long the last remarks may take to be written, once the master ends.
const LAST_SECONDS: u64 = 2;

/// How remarks are written.
#[derive(Clone, Copy)]
struct RemarkStyle {
    alloc: Global,
    form: RemarkForm,
    /// When the master began. None where the clock failed: then it is 0 in each remark.
    began: Option<Instant>,
}

impl RemarkStyle {
    // The remark in its form, with its line end.
    fn text<R: Clock>(&self, rt: &R, remark: &Remark<'_>) -> Result<String, AllocError>
        ensures { IfOk result (λ text. IsIn self.now.form remark.now (string_bytes text)) }
    {
        match self.form {
            RemarkForm::Text => remark.line(self.alloc),
            RemarkForm::Json => remark.object(self.alloc, self.age_ms(rt)),
        }
    }

    // The milliseconds since the master began; 0 where the clock fails.
    fn age_ms<R: Clock>(&self, rt: &R) -> u64
        ensures { IfNone self.now.began (result ≡ 0) }
    {
        match self.began {
            Some(began) => match began.elapsed(rt) {
                Ok(age) => millis(age),
                Err(_) => 0,
            },
            None => 0,
        }
    }
}

/// Where remarks are told. Telling never waits: what finds no room is counted, and the count is
/// told once all that had room was written.
#[derive(Drop)]
pub struct Remarks {
    style: RemarkStyle,
    lines: Sender<String, Global>,
    /// Nothing comes here: it is disconnected once the thread has ended.
    end: Receiver<(), Global>,
    /// How many remarks found no room since that was last told.
    untold: Arc<AtomicU64, Global>,
}

/// What the thread of remarks owns.
#[derive(Drop)]
struct RemarkWriter<F> {
    style: RemarkStyle,
    faults: F,
    lines: Receiver<String, Global>,
    untold: Arc<AtomicU64, Global>,
}

impl<F: Write> RemarkWriter<F> {
    // Writes a line. What can't be written is passed over.
    fn write(&mut self, line: &str) {
        let _ = self.faults.write_all(line.as_bytes());
    }

    // Tells how many remarks were not told, if some were not.
    fn write_untold<R: Clock>(&mut self, rt: &R) {
        let count = self.untold.swap(0, Ordering::SeqCst);
        if count > 0
            && let Ok(line) = self.style.text(rt, &Remark::NotTold { count })
        {
            self.write(line.as_str());
        }
    }

    // Writes each remark, until nobody is left who tells.
    fn write_all<R: Wait + Clock>(&mut self, rt: &R) {
        for _ in rt.forever() {
            if let Ok(line) = self.lines.try_recv(rt) {
                self.write(line.as_str());
            } else {
                self.write_untold(rt);
                match self.lines.recv(rt) {
                    Ok(line) => self.write(line.as_str()),
                    Err(_) => break,
                }
            }
        }
        self.write_untold(rt);
    }
}

impl Remarks {
    /// Starts the thread that writes to `faults`, each remark in this form. None where it can't be
    /// started, or memory is wanting.
    pub fn open<R, F>(rt: &R, alloc: Global, form: RemarkForm, faults: F) -> Option<Remarks>
    where
        R: Wait + Clock + Threads + Copy + Drop + Send + 'static,
        F: Write + Drop + Send + 'static,
        ensures { IfSome result (λ remarks. remarks.style.form ≡ form) }
    {
        let (lines, taken) = bounded(alloc, MOST_REMARKS).ok()?;
        let (ends, end) = bounded::<(), Global>(alloc, 1).ok()?;
        let untold = Arc::new(alloc, AtomicU64::new(0)).ok()?;
        let counted = Arc::try_clone(&untold).ok()?;
        let style = RemarkStyle {
            alloc,
            form,
            began: Instant::now(rt).ok(),
        };
        let rt = *rt;
        let writer = RemarkWriter {
            style,
            faults,
            lines: taken,
            untold: counted,
        };
        // It is never joined: a write for which nobody reads has no end.
        thread::spawn(&rt, move || {
            let mut writer = writer;
            writer.write_all(&rt);
            drop(ends);
        })
        .ok()?;
        Some(Remarks {
            style,
            lines,
            end,
            untold,
        })
    }

    /// Tells a remark, or counts it where there is no room, or no memory.
    pub fn tell<R: Wait + Clock>(&self, rt: &R, remark: &Remark<'_>) {
        let is_told = match self.style.text(rt, remark) {
            Ok(line) => self.lines.try_send(rt, line).is_ok(),
            Err(_) => false,
        };
        if !is_told {
            self.untold.fetch_add(1, Ordering::SeqCst);
        }
    }

    /// No remark comes any more: the last ones have some time to be written.
    pub fn end<R: Wait + Clock>(self, rt: &R) {
        let Remarks { lines, end, .. } = self;
        drop(lines);
        let _ = end.recv_timeout(rt, Duration::from_secs(LAST_SECONDS));
    }
}
