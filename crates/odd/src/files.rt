ghost use Rattle.std.specs.Prelude.{◌≡◌, ◌<◌, ◌≤◌, length, take, IfSome};
ghost use Rattle.std.specs.Io.KnownBytes.{Consumes, IsAtEnd};

use odd_base::{Shelf, ShelfFault};
use odd_text::Text;
use odd_text::count::next_count;
use std::fs;
use std::io::Read;
use std::rt::Files;

/// Files on disk. It tells no contents.
#[derive(Drop)]
pub struct FileShelf<'a, R: Files>
where
    R::File: Drop,
{
    rt: &'a R,
    file: Option<R::File>,
    begins: u64,
    faults: u64,
    reads: u64,
}

impl<'a, R: Files> FileShelf<'a, R>
where
    R::File: Drop,
{
    /// A shelf of which no file is begun.
    pub fn new(rt: &'a R) -> FileShelf<'a, R>
        ensures not_begun { ⟦<FileShelf<'a, R> as Shelf>⟧.begins result ≡ 0 }
        ensures no_faults { ⟦<FileShelf<'a, R> as Shelf>⟧.faults result ≡ 0 }
        ensures no_reads { ⟦<FileShelf<'a, R> as Shelf>⟧.reads result ≡ 0 }
    {
        FileShelf {
            rt,
            file: None,
            begins: 0,
            faults: 0,
            reads: 0,
        }
    }
}

// Reads into the front of the buffer, and says how many bytes; none into a buffer with room only at the end of the
// file. None where that failed.
fn read_front<F: Read>(file: &mut F, buf: &mut [u8]) -> Option<usize>
    ensures within { IfSome result (λ n. n ≤ length buf.new) }
    ensures moved { IfSome result (λ n. Consumes (F.remaining file.old) (F.remaining file.new) (take n buf.new)) }
    ensures ends { IfSome result (λ n. n ≡ 0 → 0 < length buf.new → IsAtEnd (F.remaining file.new)) }
{
    match file.read(buf) {
        Ok(n) => Some(n),
        Err(_) => None,
    }
}

impl<R: Files> Shelf for FileShelf<'_, R>
where
    R::File: Drop,
{
    ghost use Rattle.std.specs.Prelude.{None, false};

    ghost holds = { λ s. None };

    ghost rest = { λ s. None };

    ghost faults = { λ s. s.faults };

    ghost reads = { λ s. s.reads };

    ghost begins = { λ s. s.begins };

    ghost steady = { λ s. false };

    fn begin(&mut self, name: &Text) -> Result<(), ShelfFault> {
        self.begins = next_count(self.begins);
        self.file = None;
        match fs::open(self.rt, name.as_str()) {
            Ok(file) => {
                self.file = Some(file);
                Ok(())
            }
            Err(_) => {
                self.faults = next_count(self.faults);
                Err(ShelfFault)
            }
        }
    }

    fn read(&mut self, buf: &mut [u8]) -> Result<usize, ShelfFault> {
        let front = match &mut self.file {
            Some(file) if self.begins > 0 => read_front(file, buf),
            _ => None,
        };
        match front {
            Some(0) => Ok(0),
            Some(n) => {
                self.reads = next_count(self.reads);
                Ok(n)
            }
            None => {
                self.faults = next_count(self.faults);
                Err(ShelfFault)
            }
        }
    }
}
