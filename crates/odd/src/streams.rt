ghost use Rattle.std.specs.Prelude.{◌≡◌, ◌<◌, ◌≤◌, length, take, IfSome};
ghost use Rattle.std.specs.Io.KnownBytes.{Appends};

use odd_base::{Sink, SinkFault};
use odd_text::count::next_count;
use std::io::Write;

/// An output of the process. It tells nothing of what is written.
#[derive(Drop)]
pub struct StdSink<S: Write> {
    stream: S,
    faults: u64,
}

impl<S: Write> StdSink<S> {
    pub fn new(stream: S) -> StdSink<S>
        ensures no_faults { ⟦<StdSink<S> as Sink>⟧.faults result ≡ 0 }
    {
        StdSink { stream, faults: 0 }
    }
}

// Writes a front of the bytes and flushes it. None where that failed, or where nothing was taken.
fn write_front<S: Write>(stream: &mut S, bytes: &[u8]) -> Option<usize>
    ensures some { IfSome result (λ n. 0 < n) }
    ensures within { IfSome result (λ n. n ≤ length bytes.now) }
    ensures appended { IfSome result (λ n. Appends (S.contents stream.old) (S.contents stream.new) (take n bytes.now)) }
{
    match stream.write(bytes) {
        Ok(0) | Err(_) => None,
        Ok(n) => match stream.flush() {
            Ok(()) => Some(n),
            Err(_) => None,
        },
    }
}

impl<S: Write> Sink for StdSink<S> {
    ghost use Rattle.std.specs.Prelude.{None, false};

    ghost written = { λ s. None };

    ghost faults = { λ s. s.faults };

    ghost room = { λ s. 0 };

    ghost steady = { λ s. false };

    fn put(&mut self, bytes: &[u8]) -> Result<usize, SinkFault> {
        if bytes.is_empty() {
            return Ok(0);
        }
        match write_front(&mut self.stream, bytes) {
            Some(n) => Ok(n),
            None => {
                self.faults = next_count(self.faults);
                Err(SinkFault)
            }
        }
    }
}
