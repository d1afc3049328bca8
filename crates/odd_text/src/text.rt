ghost use Rattle.std.specs.Prelude.{◌≡◌, ◌↔◌, ◌++◌, [], IsTrue, IfOk, OnOk, OnErr, encode_utf8, string_bytes};
ghost use Rattle.odd_text.specs.Text.{text_cmp};

use crate::copy::TryCopy;
use crate::memory::NoMemory;
use crate::order::ExactOrd;
use crate::seq::Seq;
use std::alloc::Global;
use std::cmp::Ordering;
use std::marker::Model;
use std::rc::Rc;

/// A text in UTF-8, seen as its bytes. Copies share them, and a text that grows while others have its bytes takes its
/// own first.
#[derive(Debug, Drop)]
pub struct Text {
    alloc: Global,
    // none before the first byte
    inner: Option<Rc<String>>,
}

/// A list of texts, as those of a command line.
pub type Words = Seq<Text>;

impl Model for Text {
    ghost use Rattle.std.specs.Prelude.{List, ℕ};
    ghost use Rattle.odd_text.specs.Text.{shared_bytes};

    ghost Value = { List ℕ };

    ghost view = { λ t. shared_bytes t.inner };
}

impl Text {
    /// The empty text. It takes no memory before the first push.
    pub fn new(alloc: Global) -> Text
        ensures { result ≡ [] }
    {
        Text { alloc, inner: None }
    }

    /// A text of its own with the bytes of `text`.
    pub fn from_str(alloc: Global, text: &str) -> Result<Text, NoMemory>
        ensures { IfOk result (λ made. made ≡ text.now) }
    {
        Text::from_string(alloc, String::from_str(alloc, text)?)
    }

    /// The text that has grown in `text`, with its very bytes.
    pub fn from_string(alloc: Global, text: String) -> Result<Text, NoMemory>
        ensures { IfOk result (λ made. made ≡ string_bytes text) }
    {
        if text.is_empty() {
            return Ok(Text::new(alloc));
        }
        let mut text = text;
        text.shrink_to_fit();
        let shared = Rc::new(alloc, text)?;
        Ok(Text {
            alloc,
            inner: Some(shared),
        })
    }

    /// The text, with the bytes that it has.
    pub fn as_str(&self) -> &str
        ensures { result.now ≡ self.now }
    {
        match &self.inner {
            Some(shared) => shared.as_ref().as_str(),
            None => "",
        }
    }

    /// Takes all characters away. The memory for them is kept where no other text shares it.
    pub fn clear(&mut self)
        ensures { self.new ≡ [] }
    {
        if let Some(shared) = &mut self.inner {
            if let Some(own) = Rc::get_mut(shared) {
                own.clear();
                return;
            }
        }
        self.inner = None;
    }

    /// Puts a text at the end. Without memory the text stays as it was.
    pub fn push_str(&mut self, text: &str) -> Result<(), NoMemory>
        ensures ok { OnOk result (self.new ≡ self.old ++ text.now) }
        ensures err { OnErr result (self.new ≡ self.old) }
    {
        if let Some(shared) = &mut self.inner {
            if let Some(own) = Rc::get_mut(shared) {
                own.push_str(text)?;
                return Ok(());
            }
        }
        let mut apart = String::from_str(self.alloc, self.as_str())?;
        apart.push_str(text)?;
        self.inner = Some(Rc::new(self.alloc, apart)?);
        Ok(())
    }

    /// Puts a character at the end, in UTF-8. Without memory the text stays as it was.
    pub fn push(&mut self, character: char) -> Result<(), NoMemory>
        ensures ok { OnOk result (self.new ≡ self.old ++ encode_utf8 character) }
        ensures err { OnErr result (self.new ≡ self.old) }
    {
        if let Some(shared) = &mut self.inner {
            if let Some(own) = Rc::get_mut(shared) {
                own.push(character)?;
                return Ok(());
            }
        }
        let mut apart = String::from_str(self.alloc, self.as_str())?;
        apart.push(character)?;
        self.inner = Some(Rc::new(self.alloc, apart)?);
        Ok(())
    }
}

impl TryCopy for Text {
    fn copy(&self, alloc: Global) -> Result<Text, NoMemory> {
        let inner = match &self.inner {
            Some(shared) => Some(shared.clone()?),
            None => None,
        };
        Ok(Text { alloc, inner })
    }
}

impl PartialEq for Text {
    ghost use Rattle.std.specs.Prelude.{◌==◌};
    ghost use Rattle.std.specs.Cmp.Lexicographic.{pointwise};
    ghost use Rattle.std.proofs.Common.{rules};
    ghost use Rattle.std.specs.Cmp.Rules.{comparing};

    ghost eq = { pointwise ◌==◌ };

    ghost laws = { Prim.search (comparing, rules) };

    fn eq(&self, other: &Text) -> bool
        ensures value { result ≡ pointwise ◌==◌ self.now other.now }
        ensures same { IsTrue result ↔ (self.now ≡ other.now) }
    {
        self.as_str() == other.as_str()
    }
}

impl Eq for Text {
    ghost use Rattle.std.proofs.Common.{rules};
    ghost use Rattle.std.specs.Cmp.Rules.{comparing};

    ghost laws = { Prim.search (comparing, rules) };
}

impl Ord for Text {
    ghost use Rattle.odd_text.specs.Text.{text_cmp};
    ghost use Rattle.std.proofs.Common.{rules};
    ghost use Rattle.std.specs.Cmp.Rules.{comparing};

    ghost cmp = { text_cmp };

    ghost total = { Prim.search (comparing, rules) };

    ghost matches_partial_cmp = { Prim.search (comparing, rules) };

    ghost matches_eq = { Prim.search (comparing, rules) };

    fn cmp(&self, other: &Text) -> Ordering {
        self.as_str().cmp(other.as_str())
    }
}

impl PartialOrd for Text {
    ghost use Rattle.odd_text.specs.Text.{text_cmp};
    ghost use Rattle.std.specs.Ordering.{as_partial_cmp};
    ghost use Rattle.std.proofs.Common.{rules};
    ghost use Rattle.std.specs.Cmp.{partial_order_from_own_ties};
    ghost use Rattle.std.specs.Cmp.Rules.{comparing};

    ghost partial_cmp = { as_partial_cmp text_cmp };

    ghost laws = { partial_order_from_own_ties (Prim.search (comparing, rules)) (Prim.search (comparing, rules)) };

    fn partial_cmp(&self, other: &Text) -> Option<Ordering> {
        Some(self.cmp(other))
    }
}

impl ExactOrd for Text {
    ghost use Rattle.std.specs.FinMap.{slice_cmp-IsAntisymmetric, nat_cmp-IsAntisymmetric};

    ghost exact = { slice_cmp-IsAntisymmetric nat_cmp-IsAntisymmetric };
}
