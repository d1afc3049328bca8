ghost use Rattle.std.specs.Prelude.{◌≡◌, None, Some, IfOk, MatchResult, codes, ◌||◌, not, if◌then◌else◌};
ghost use Rattle.std.specs.List.{list_all, list_any};
ghost use Rattle.odd_reader.specs.Resolving.{binds_made, is_declared, is_nothing, may_bind as can_bind, plain_made, prefix_declared};
ghost use Rattle.odd_text.specs.Same.{is_same};
ghost use Rattle.odd_tree.specs.Names.{xml_namespace};

use odd_text::{Bind, NoMemory, Scope};
use odd_tokens::{WrittenAttr, WrittenAttrs, WrittenName};
use odd_tree::XML;
use std::alloc::Global;

// The namespace to which nothing is bound.
const XMLNS: &str = "http://www.w3.org/2000/xmlns/";

// What an attribute declares, the prefix empty for the default namespace, or the attribute itself.
fn declaration(attr: WrittenAttr) -> Result<Bind, WrittenAttr>
    ensures { MatchResult result (λ b. (prefix_declared attr.name ≡ Some b.prefix) × (b.ns ≡ attr.value)) (λ a. (prefix_declared attr.name ≡ None) × (a ≡ attr)) }
{
    let WrittenAttr { name, value } = attr;
    let WrittenName { prefix, local } = name;
    if prefix.as_str() == "xmlns" {
        return Ok(Bind {
            prefix: local,
            ns: value,
        });
    }
    if prefix.as_str().is_empty() && local.as_str() == "xmlns" {
        return Ok(Bind { prefix, ns: value });
    }
    Err(WrittenAttr {
        name: WrittenName { prefix, local },
        value,
    })
}

// Whether an attribute is a declaration.
fn declares(attr: &WrittenAttr) -> bool
    ensures { result ≡ is_declared attr.now }
{
    let prefix = attr.name.prefix.as_str();
    prefix == "xmlns" || (prefix.is_empty() && attr.name.local.as_str() == "xmlns")
}

// Whether one of the attributes is a declaration.
fn some_declare(attrs: &WrittenAttrs) -> bool
    ensures { result ≡ list_any is_declared attrs.now }
{
    attrs.as_slice().iter().any(declares)
}

/// Parts the declarations from the other attributes. The only error is NoMemory, for want of memory.
pub fn declarations(
    alloc: Global,
    attrs: WrittenAttrs,
) -> Result<(Scope, Vec<WrittenAttr>), NoMemory>
    ensures { IfOk result (λ parts. (parts.0 ≡ binds_made attrs) × (parts.1.items ≡ plain_made attrs)) }
{
    let mut binds = Scope::new(alloc);
    if !some_declare(&attrs) {
        return Ok((binds, attrs.into_items()));
    }
    let mut plain = Vec::new(alloc);
    for attr in attrs.into_items() {
        match declaration(attr) {
            Ok(bind) => binds.push(bind)?,
            Err(attr) => plain.push(attr)?,
        }
    }
    binds.fit();
    Ok((binds, plain))
}

/// Whether each of the declarations may be made.
pub fn may_all_bind(binds: &Scope) -> bool
    ensures { result ≡ list_all can_bind binds.now }
{
    binds.as_slice().iter().all(may_bind)
}

// Namespaces in XML 1.0, section 3: what may be bound.
fn may_bind(bind: &Bind) -> bool
    ensures { result ≡ can_bind bind.now }
{
    let prefix = bind.prefix.as_str();
    let ns = bind.ns.as_str();
    keeps_xml(prefix, ns) && prefix != "xmlns" && ns != XMLNS && is_bound(prefix, ns)
}

// Whether the prefix xml is bound to its own namespace, or neither is there.
fn keeps_xml(prefix: &str, ns: &str) -> bool
    ensures { result ≡ (if is_same prefix.now (codes "xml") then is_same ns.now xml_namespace else not (is_same ns.now xml_namespace)) }
{
    (prefix == "xml") == (ns == XML)
}

// Only the default namespace may be none.
fn is_bound(prefix: &str, ns: &str) -> bool
    ensures { result ≡ (is_nothing prefix.now || not (is_nothing ns.now)) }
{
    prefix.is_empty() || !ns.is_empty()
}
