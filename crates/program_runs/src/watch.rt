use std::time::{Clock, Instant};

/// When a run began, and what was told of it.
///
/// Nothing is told where it isn't shown, in the first second, or where the clock can't be read.
#[derive(Drop)]
pub struct Watch<'a, R: Clock + Eprint> {
    rt: &'a R,
    began: Option<Instant>,
    seconds: u64,
}

impl<'a, R: Clock + Eprint> Watch<'a, R> {
    /// A run that begins now. `is_shown` is whether its progress is to be told.
    pub fn start(rt: &'a R, is_shown: bool) -> Self {
        let began = if is_shown {
            Instant::now(rt).ok()
        } else {
            None
        };
        Watch {
            rt,
            began,
            seconds: 0,
        }
    }

    // The whole seconds since the start, where they are more than when something was told last.
    fn next_second(&self) -> Option<u64> {
        let began = self.began?;
        let seconds = began.elapsed(self.rt).ok()?.as_secs();
        if seconds > self.seconds {
            Some(seconds)
        } else {
            None
        }
    }

    /// Tells that so many bytes were `done`, as `read`, over what was told before on the same line.
    pub fn tell(&mut self, bytes: u64, done: &str) {
        let Some(seconds) = self.next_second() else {
            return;
        };
        self.seconds = seconds;
        // Where nothing can be said, the run goes on.
        let _ = eprint!(self.rt; "\rfactoplan: {seconds} s, {bytes} bytes {done} ");
    }

    /// Takes the line away again, where one was told.
    pub fn clear(&self) {
        if self.seconds > 0 {
            let _ = self.rt.eprint("\r\u{1b}[K");
        }
    }
}
