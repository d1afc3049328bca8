ghost use Rattle.std.specs.Prelude.{◌≡◌, count_by};
ghost use Rattle.odd_case_files.specs.Outcome.{differs};

use crate::fault::CaseFault;
use crate::part::{Part, read_parts};
use crate::paths::sorted_paths;
use std::alloc::Global;
use std::rt::Files;
use std::{fmt, fs};

/// What is asked of cases.
pub trait Asking {
    /// What the answer to a case has otherwise than it wants, where something is.
    fn difference(&self, alloc: Global, parts: Vec<Part<'_>>) -> Result<Option<String>, CaseFault>;
}

/// A case by the path of its file, and what its answer has otherwise than it wants.
#[derive(Drop)]
pub struct Outcome {
    pub path: String,
    pub difference: Option<String>,
}

impl fmt::Display for Outcome {
    fn fmt<W: fmt::Write>(&self, f: &mut fmt::Formatter<W>) -> fmt::Result {
        let path = self.path.as_str();
        match &self.difference {
            Some(difference) => write!(f, "{path}:{difference}"),
            None => write!(f, "{path}: as wanted"),
        }
    }
}

/// The outcomes of the cases of a folder, in the order of their paths.
pub fn outcomes_of<R: Files + AllocGlobal + Clone + Drop, A: Asking>(
    rt: &R,
    asking: &A,
    folder: &str,
) -> Result<Vec<Outcome>, CaseFault> {
    let mut outcomes = Vec::new(rt.alloc());
    for path in sorted_paths(rt, folder)? {
        let difference = difference_told(rt, asking, path.as_str())?;
        outcomes.push(Outcome { path, difference })?;
    }
    Ok(outcomes)
}

// What the answer to the case of a file has otherwise than it wants, or why it is not read or not answered.
fn difference_told<R: Files + AllocGlobal, A: Asking>(
    rt: &R,
    asking: &A,
    path: &str,
) -> Result<Option<String>, CaseFault> {
    match file_difference(rt, asking, path) {
        Ok(difference) => Ok(difference),
        Err(fault) => Ok(Some(format!(in rt.alloc(); " {fault}")?)),
    }
}

// What the answer to the case of a file has otherwise than it wants.
fn file_difference<R: Files + AllocGlobal, A: Asking>(
    rt: &R,
    asking: &A,
    path: &str,
) -> Result<Option<String>, CaseFault> {
    let text = fs::read_to_string(rt, path)?;
    let parts = read_parts(rt.alloc(), text.as_str())?;
    asking.difference(rt.alloc(), parts)
}

/// How many of the outcomes differ.
pub fn count_differing(outcomes: &[Outcome]) -> usize
    ensures { result ≡ count_by differs outcomes.now }
{
    outcomes
        .iter()
        .filter(|outcome| outcome.difference.is_some())
        .count()
}
