ghost use Rattle.std.specs.Prelude.{◌≡◌, ◌≢◌, ◌↔◌, ◌∷◌, ℕ, All, false, List, codes, IsTrue, IfSome, IsNone};
ghost use Rattle.odd_cli.specs.Words.{Asks, IsFileWord, IsTaskFirst, Task as ATask, WordsMean, command_of, command_word, told, with_aside};
ghost use Rattle.odd_cli.specs.declared.words.Command.{Command as ACommand};
ghost use Rattle.odd_cli.specs.declared.words.Job.{Job as AJob};

use odd_text::{Text, Words};

/// What the program is to do.
#[derive(Clone, Copy, Debug, PartialEq, Eq)]
pub enum Command {
    /// Writes the merged ODD of a chain of files.
    Merge,
    /// Writes the schema of a chain of files.
    Compile,
    /// Writes the account of an element of a chain of files.
    Explain,
}

/// The job of a list of words: the command, whether constraints are taken out, how many files the chain has, and
/// the number of `trial`, which is 0 for any other command.
#[derive(Clone, Copy, Debug, PartialEq, Eq)]
pub struct Job {
    pub command: Command,
    pub aside: bool,
    pub files: usize,
    pub number: u32,
}

fn is_word(word: &Text, text: &str) -> bool
    ensures { IsTrue result ↔ (word.now ≡ text.now) }
{
    word.as_str() == text
}

// Whether all words are file words.
fn are_files(words: &[Text]) -> bool
    ensures { IsTrue result ↔ All IsFileWord words.now }
{
    words.iter().all(|word| !is_word(word, "--"))
}

/// What is done with a chain of files.
#[derive(Clone, Copy)]
pub enum Task<'a> {
    /// Its merged ODD is written.
    Merge,
    /// Its schema is written.
    Compile,
    /// The account of the element at the ident is written.
    Explain(&'a Text),
}

impl Task<'_> {
    /// The command that asks for it.
    pub fn command(self) -> Command
        ensures { result ≡ command_of (told self.entry) }
    {
        match self {
            Task::Merge => Command::Merge,
            Task::Compile => Command::Compile,
            Task::Explain(_) => Command::Explain,
        }
    }
}

/// What words ask for: what is done, whether constraints are taken out, and the names of the files of the chain.
#[derive(Clone, Copy)]
pub struct Asked<'a> {
    pub task: Task<'a>,
    pub aside: bool,
    pub chain: &'a [Text],
}

// Whether words begin with `aside`, and the words without it.
fn after_aside(words: &[Text]) -> (bool, &[Text])
    ensures words { words.now ≡ with_aside result.0 result.1.now }
    ensures without { result.0 ≡ false → (rest : List (List ℕ)) → words.now ≢ codes "aside" ∷ rest }
{
    match words.split_first() {
        Some((first, rest)) if is_word(first, "aside") => (true, rest),
        _ => (false, words),
    }
}

// The command of a word.
fn command_named(word: &Text) -> Option<Command>
    ensures some { IfSome result (λ command. word.now ≡ command_word command) }
    ensures none { IsNone result → (command : ACommand) → word.now ≢ command_word command }
{
    match word.as_str() {
        "merge" => Some(Command::Merge),
        "compile" => Some(Command::Compile),
        "explain" => Some(Command::Explain),
        _ => None,
    }
}

// What words after `aside` say is done, and the words after these.
fn task_named(words: &[Text]) -> Option<(Task<'_>, &[Text])>
    ensures some { IfSome result (λ p. IsTaskFirst words.now (told p.0) p.1.now) }
    ensures none { IsNone result → (task : ATask) (rest : List (List ℕ)) → IsTaskFirst words.now task rest → ⊥ }
{
    let (first, rest) = words.split_first()?;
    match command_named(first)? {
        Command::Merge => Some((Task::Merge, rest)),
        Command::Compile => Some((Task::Compile, rest)),
        Command::Explain => {
            let (ident, chain) = rest.split_first()?;
            if is_word(ident, "--") {
                return None;
            }
            Some((Task::Explain(ident), chain))
        }
    }
}

/// What the words ask for, where they have a job.
pub fn job_asked(words: &Words) -> Option<Asked<'_>>
    ensures asks { IfSome result (λ asked. Asks words.now (told asked.task) asked.aside asked.chain.now) }
    ensures none { IsNone result → (job : AJob) → WordsMean words.now job → ⊥ }
{
    let (aside, rest) = after_aside(words.as_slice());
    let (task, chain) = task_named(rest)?;
    if chain.is_empty() || !are_files(chain) {
        return None;
    }
    Some(Asked { task, aside, chain })
}

/// The job of the words, where they have one.
pub fn read_words(words: &Words) -> Option<Job>
    ensures job { IfSome result (WordsMean words.now) }
    ensures none { IsNone result → (job : AJob) → WordsMean words.now job → ⊥ }
{
    let asked = job_asked(words)?;
    Some(Job {
        command: asked.task.command(),
        aside: asked.aside,
        files: asked.chain.len(),
        number: 0,
    })
}
