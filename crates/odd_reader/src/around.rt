ghost use Rattle.std.specs.Prelude.{◌≡◌, ◌++◌, [], IfOk, reverse, unwrap_or};
ghost use Rattle.std.specs.Option.{option_copied};
ghost use Rattle.odd_reader.specs.Resolving.{Gives, around, attribute_named, attributes_named, element_named, resolved};
ghost use Rattle.odd_tree.specs.Names.{in_force, last_bound};

use crate::children::Children;
use crate::declarations::{declarations, may_all_bind};
use crate::element::OpenElement;
use crate::misfit::Misfit;
use crate::twice::is_named_twice;
use crate::xml::XmlNamespace;
use odd_text::{Name, NoMemory, Text, TryCopy};
use odd_tokens::{WrittenAttr, WrittenName, WrittenTag};
use odd_tree::{Attr, Attrs, Bindings};
use std::alloc::Global;

/// What a start tag stands in: the open elements, the outermost first, and the namespace of the prefix `xml`.
#[derive(Drop)]
pub struct Around<'a> {
    pub alloc: Global,
    pub open: &'a [OpenElement],
    pub xml: &'a XmlNamespace,
}

impl<'a> Around<'a> {
    /// The element of a tag, with its names resolved by its own declarations and those around it. A tag with a declaration that may
    /// not be made, a prefix that is not bound or two attributes of one name is Misplaced.
    pub fn opened(&self, tag: WrittenTag) -> Result<OpenElement, Misfit>
        ensures { Gives (resolved (reverse self.now.open.now) tag) result }
    {
        let WrittenTag {
            at,
            name: written,
            attrs,
        } = tag;
        let (binds, plain) = declarations(self.alloc, attrs)?;
        if !may_all_bind(&binds) {
            return Err(Misfit::Misplaced);
        }
        let binds = Bindings::new(self.alloc, binds)?;
        let name = self.element_name(&binds, &written)?;
        let attrs = self.attributes(&binds, plain)?;
        if is_named_twice(self.alloc, &attrs)? {
            return Err(Misfit::Misplaced);
        }
        Ok(OpenElement {
            written,
            name,
            attrs,
            binds,
            children: Children::new(self.alloc),
            at,
        })
    }

    // The namespace to which a prefix is bound in a tag with these declarations of its own.
    fn bound<'b>(&'b self, own: &'b Bindings, prefix: &Text) -> Option<&'b Text>
        ensures { option_copied result ≡ last_bound (around (reverse self.now.open.now) ++ own.now) prefix.now }
    {
        match own.find(prefix) {
            Some(ns) => Some(ns),
            None => self.bound_around(prefix),
        }
    }

    // The namespace to which a prefix is bound by the open elements.
    fn bound_around(&self, prefix: &Text) -> Option<&Text>
        ensures { option_copied result ≡ last_bound (around (reverse self.now.open.now)) prefix.now }
    {
        for element in self.open.iter().rev() {
            if let Some(ns) = element.binds.find(prefix) {
                return Some(ns);
            }
        }
        None
    }

    // The namespace of a prefix that is not empty.
    fn namespace(&self, own: &Bindings, prefix: &Text) -> Result<Text, Misfit>
        ensures { Gives (in_force (around (reverse self.now.open.now) ++ own.now) prefix.now) result }
    {
        if prefix.as_str() == "xml" {
            return Ok(self.xml.share(self.alloc)?);
        }
        match self.bound(own, prefix) {
            Some(ns) => Ok(ns.copy(self.alloc)?),
            None => Err(Misfit::Misplaced),
        }
    }

    // The default namespace, which is empty where there is none.
    fn default_namespace(&self, own: &Bindings) -> Result<Text, NoMemory>
        ensures { IfOk result (λ ns. ns ≡ unwrap_or (last_bound (around (reverse self.now.open.now) ++ own.now) []) []) }
    {
        match self.bound(own, &Text::new(self.alloc)) {
            Some(ns) => ns.copy(self.alloc),
            None => Ok(Text::new(self.alloc)),
        }
    }

    fn element_name(&self, own: &Bindings, written: &WrittenName) -> Result<Name, Misfit>
        ensures { Gives (element_named (around (reverse self.now.open.now) ++ own.now) written.now) result }
    {
        let ns = if written.prefix.as_str().is_empty() {
            self.default_namespace(own)?
        } else {
            self.namespace(own, &written.prefix)?
        };
        let local = written.local.copy(self.alloc)?;
        Ok(Name { ns, local })
    }

    fn attribute_name(&self, own: &Bindings, written: WrittenName) -> Result<Name, Misfit>
        ensures { Gives (attribute_named (around (reverse self.now.open.now) ++ own.now) written) result }
    {
        let WrittenName { prefix, local } = written;
        let ns = if prefix.as_str().is_empty() {
            prefix
        } else {
            self.namespace(own, &prefix)?
        };
        Ok(Name { ns, local })
    }

    fn attributes(&self, own: &Bindings, plain: Vec<WrittenAttr>) -> Result<Attrs, Misfit>
        ensures { Gives (attributes_named (around (reverse self.now.open.now) ++ own.now) plain.items) result }
    {
        if plain.is_empty() {
            return Ok(Attrs::new(self.alloc));
        }
        let mut attrs = Vec::with_capacity(self.alloc, plain.len())?;
        for attr in plain {
            let WrittenAttr { name, value } = attr;
            let name = self.attribute_name(own, name)?;
            attrs.push(Attr { name, value })?;
        }
        Ok(Attrs::of(self.alloc, attrs)?)
    }
}
