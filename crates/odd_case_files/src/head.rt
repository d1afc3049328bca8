/// What is shown of one file, or of lines.
#[derive(Clone, Copy)]
pub enum Shown {
    /// The tree of the file.
    Tree,
    /// What the first child of its root says as a `content`.
    Content,
    /// The memberships that its root gives as a declaration.
    Classes,
    /// Which of some words the patterns match, with which the lines begin.
    Patterns(Over),
    /// What is told of values, with which the lines begin.
    Values,
}

impl Shown {
    /// Its name.
    pub fn name(self) -> &'static str {
        match self {
            Shown::Tree => "tree",
            Shown::Content => "content",
            Shown::Classes => "classes",
            Shown::Patterns(_) => "patterns",
            Shown::Values => "values",
        }
    }
}

/// What is asked of the docs of a chain.
#[derive(Clone, Copy, PartialEq, Eq)]
pub enum Asked {
    /// The library after the last.
    Library,
    /// The members of its classes.
    Members,
    /// What its elements offer.
    Offers,
    /// The same where no library is asked for what it breaks.
    OffersUnasked,
    /// The members of its classes of type `model`, in a table whose lists together hold no more idents than this.
    Table(usize),
    /// What the last chooses.
    Chosen,
}

impl Asked {
    /// Its name.
    pub fn name(self) -> &'static str {
        match self {
            Asked::Library => "library",
            Asked::Members => "members",
            Asked::Offers => "offers",
            Asked::OffersUnasked => "offers unasked",
            Asked::Table(_) => "table",
            Asked::Chosen => "chosen",
        }
    }
}

/// What patterns are over.
#[derive(Clone, Copy)]
pub enum Over {
    Letters,
    Children,
}

/// What can fault in a run.
#[derive(Clone, Copy)]
pub enum Device {
    Shelf,
    Out,
    Note,
}

/// What a part of a case says.
#[derive(Clone, Copy)]
pub enum Head<'a> {
    Words,
    File(&'a str),
    Code(u8),
    Note,
    Out,
    OutHas,
    Fails(Device, u64),
    Shown(Shown),
    Asked,
    AllWords(u32, &'a str),
    Docs,
    Of(Asked),
}

/// The head of a code.
pub fn read_code<'a>(code: &str) -> Option<Head<'a>> {
    Some(Head::Code(code.parse::<u8>().ok()?))
}

/// The head of a device and the call of it that faults.
pub fn read_failing<'a>(text: &str) -> Option<Head<'a>> {
    let (device, call) = text.split_once(' ')?;
    let device = match device {
        "shelf" => Device::Shelf,
        "out" => Device::Out,
        "note" => Device::Note,
        _ => return None,
    };
    Some(Head::Fails(device, call.parse::<u64>().ok()?))
}

/// The head of all words of up to a length, over symbols.
pub fn read_all_words(text: &str) -> Option<Head<'_>> {
    let (length, symbols) = text.split_once(' ')?;
    Some(Head::AllWords(length.parse::<u32>().ok()?, symbols))
}

/// A head below which a text stands.
pub fn read_text_head(head: &str) -> Option<Head<'_>> {
    match head {
        "note" => Some(Head::Note),
        "out" => Some(Head::Out),
        "out has" => Some(Head::OutHas),
        "tree" => Some(Head::Shown(Shown::Tree)),
        "content" => Some(Head::Shown(Shown::Content)),
        "classes" => Some(Head::Shown(Shown::Classes)),
        "asked" => Some(Head::Asked),
        "patterns" => Some(Head::Shown(Shown::Patterns(Over::Letters))),
        "patterns of children" => Some(Head::Shown(Shown::Patterns(Over::Children))),
        "values" => Some(Head::Shown(Shown::Values)),
        "docs" => Some(Head::Docs),
        "library" => Some(Head::Of(Asked::Library)),
        "members" => Some(Head::Of(Asked::Members)),
        "offers" => Some(Head::Of(Asked::Offers)),
        "offers unasked" => Some(Head::Of(Asked::OffersUnasked)),
        "chosen" => Some(Head::Of(Asked::Chosen)),
        _ => read_named(head),
    }
}

// The head of a limit or of a name, below which a text stands.
fn read_named(head: &str) -> Option<Head<'_>> {
    if let Some(limit) = head.strip_prefix("table ") {
        return Some(Head::Of(Asked::Table(limit.parse::<usize>().ok()?)));
    }
    match head.strip_prefix("file ") {
        Some(name) if !name.contains(' ') => Some(Head::File(name)),
        _ => None,
    }
}
