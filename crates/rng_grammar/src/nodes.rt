ghost use Rattle.std.specs.Prelude.{◌≡◌, ◌↔◌, ◌⊎◌, List, ℕ, IfOk, OnOk, slice_get, slice_set, sum_by};
ghost use Rattle.std.specs.FinMap.{find};
ghost use Rattle.std.specs.List.{Contains};
ghost use Rattle.odd_text.specs.Text.{text_cmp};
ghost use Rattle.rng_grammar.specs.Counted.{counted};
ghost use Rattle.rng_grammar.specs.Linked.{Reaches};
ghost use Rattle.rng_grammar.specs.Nodes.{element_nodes as the_element_nodes, linked_nodes as the_linked_nodes, nodes};
ghost use Rattle.rng_grammar.specs.Weighing.{AreArrows, ArePlaces, AreWeights, HasArrows, LeadsTo, body_weight, parts_in, weight_in};
ghost use Rattle.rng_grammar.specs.declared.grammar.Define.{Define as ADefine};
ghost use Rattle.rng_grammar.specs.declared.grammar.Expr.{out-Expr};

use crate::grammar::{AttrPart, Body, Defines, Expr, Grammar, Rules};
use odd_graph::{Nodes, ordered};
use odd_text::{Map, NoMemory, Text, TryCopy};
use std::alloc::Global;
use std::slice;

/// How many nodes a grammar has after linking, when each reference to a define that holds no `element` stands for what that
/// define has: the patterns of its start, and the attributes' values and the content of each define that holds an `element`. A
/// reference to such a define is one node. It is 2^64 - 1 where there are more. No define that holds no `element` may come back
/// to itself by references through such defines. The only error is NoMemory, for want of memory.
pub fn linked_nodes(alloc: Global, grammar: &Grammar) -> Result<u64, NoMemory>
    requires { (name : List ℕ) → Reaches grammar.now name name → ⊥ }
    ensures { IfOk result (λ count. count ≡ counted (the_linked_nodes grammar.now)) }
{
    let places = places(alloc, &grammar.defines)?;
    let weights = weights(alloc, &places, grammar)?;
    let start = pattern_nodes(&places, weights.as_slice(), &grammar.start, &mut 0);
    let elements = elements_nodes(&places, weights.as_slice(), &grammar.defines);
    Ok(start.saturating_add(elements))
}

// The place among the defines of the first one of each name, counted from 0.
type Places = Map<Text, usize>;

// The places of the names of defines.
fn places(alloc: Global, defines: &Defines) -> Result<Places, NoMemory>
    ensures { IfOk result (ArePlaces defines.now) }
{
    let mut places = Places::new(alloc);
    for (place, define) in defines.as_slice().iter().enumerate() {
        if places.find(&define.name).is_none() {
            places.put(define.name.copy(alloc)?, place)?;
        }
    }
    Ok(places)
}

// How many nodes a reference to each define is: one to a define that holds an `element`, and to another those of its pattern.
fn weights(alloc: Global, places: &Places, grammar: &Grammar) -> Result<Vec<u64>, NoMemory>
    requires places { ArePlaces grammar.now.defines places.now }
    requires apart { (name : List ℕ) → Reaches grammar.now name name → ⊥ }
    ensures { IfOk result (λ weights. AreWeights grammar.now places.now weights.items) }
{
    let arrows = arrows(alloc, places, &grammar.defines)?;
    let order = ordered(alloc, arrows.as_slice())?;
    let mut weights = vec![in alloc; 0_u64; grammar.defines.len()]?;
    for place in order.as_slice() {
        weigh(places, &mut weights, &grammar.defines, *place);
    }
    Ok(weights)
}

// Puts the weight of the define at a place, beside those of the defines to which it refers.
fn weigh(places: &Places, weights: &mut Vec<u64>, defines: &Defines, place: usize)
    ensures { (d : ADefine) → slice_get defines.now place ≡ Some d → weights.new.items ≡ slice_set weights.old.items place (counted (body_weight (weight_in places.now weights.old.items) d.body)) }
{
    if let Some(define) = defines.get(place) {
        let nodes = body_nodes(places, weights.as_slice(), &define.body);
        if let Some(weight) = weights.get_mut(place) {
            *weight = nodes;
        }
    }
}

// The graph of the defines by their places: an arrow leads from a define that holds no `element` to each to which its pattern refers.
fn arrows(alloc: Global, places: &Places, defines: &Defines) -> Result<Vec<Nodes>, NoMemory>
    ensures { IfOk result (λ arrows. AreArrows places.now defines.now arrows.items) }
{
    let mut arrows = Vec::new(alloc);
    for define in defines.as_slice() {
        arrows.push(body_arrows(alloc, places, &define.body)?)?;
    }
    Ok(arrows)
}

// The arrows from a define.
fn body_arrows(alloc: Global, places: &Places, body: &Body) -> Result<Nodes, NoMemory>
    ensures { IfOk result (HasArrows places.now body.now) }
{
    let mut arrows = Nodes::new(alloc);
    if let Body::Part(pattern) = body {
        add_arrows(&mut arrows, places, pattern, &mut 0)?;
    }
    Ok(arrows)
}

// Adds the places of the names to which a pattern refers.
fn add_arrows(
    arrows: &mut Nodes,
    places: &Places,
    pattern: &Expr,
    last: &mut usize,
) -> Result<(), NoMemory>
    ensures { OnOk result ((place : ℕ) → Contains arrows.new place ↔ (Contains arrows.old place ⊎ LeadsTo places.now pattern.now place)) }
{
    if let Expr::Ref(name) = pattern {
        add_place(arrows, places, name, last)?;
        return Ok(());
    }
    for part in parts(pattern) {
        add_arrows(arrows, places, part, last)?;
    }
    Ok(())
}

// Adds the place of a name, where it has one.
fn add_place(
    arrows: &mut Nodes,
    places: &Places,
    name: &Text,
    last: &mut usize,
) -> Result<(), NoMemory>
    ensures { OnOk result ((place : ℕ) → Contains arrows.new place ↔ (Contains arrows.old place ⊎ (find text_cmp name.now places.now ≡ Some place))) }
{
    if let Some(place) = place_of(places, name, last) {
        arrows.push(place)?;
    }
    Ok(())
}

// The place of a name, where it has one. It is looked for first behind the one that was found last, since the members of a class
// are referred to in the order of their names, and then where that one was: a part that stands several times is referred to again.
fn place_of(places: &Places, name: &Text, last: &mut usize) -> Option<usize>
    ensures { result ≡ find text_cmp name.now places.now }
{
    let next = last.saturating_add(1);
    if let Some(place) = place_at(places, name, next) {
        *last = next;
        return Some(place);
    }
    if let Some(place) = place_at(places, name, *last) {
        return Some(place);
    }
    let place = places.find(name).copied();
    *last = place.unwrap_or(next);
    place
}

// The place of a name, where its entry is the one at `at`.
fn place_at(places: &Places, name: &Text, at: usize) -> Option<usize>
    ensures { (place : ℕ) → result ≡ Some place → find text_cmp name.now places.now ≡ Some place }
{
    match places.entries().get(at) {
        Some((key, place)) if key == name => Some(*place),
        _ => None,
    }
}

// The patterns that stand in one.
fn parts(pattern: &Expr) -> &[Expr]
    ensures { result.now ≡ parts_in (out-Expr pattern.now) }
{
    match pattern {
        Expr::Group(parts) => parts.as_slice(),
        Expr::Choice(parts) => parts.as_slice(),
        Expr::List(part) => slice::from_ref(part.get()),
        Expr::Optional(part) => slice::from_ref(part.get()),
        Expr::ZeroOrMore(part) => slice::from_ref(part.get()),
        Expr::OneOrMore(part) => slice::from_ref(part.get()),
        _ => &[],
    }
}

// The nodes of a reference to a define.
fn body_nodes(places: &Places, weights: &[u64], body: &Body) -> u64
    ensures { result ≡ counted (body_weight (weight_in places.now weights.now) body.now) }
{
    match body {
        Body::Element { .. } => 1,
        Body::Part(pattern) => pattern_nodes(places, weights, pattern, &mut 0),
    }
}

// The nodes of a pattern: its parts and itself, or those of the define to which it refers.
fn pattern_nodes(places: &Places, weights: &[u64], pattern: &Expr, last: &mut usize) -> u64
    ensures { result ≡ counted (nodes (weight_in places.now weights.now) pattern.now) }
{
    if let Expr::Ref(name) = pattern {
        return weight(places, weights, name, last);
    }
    let mut count = 1_u64;
    for part in parts(pattern) {
        count = count.saturating_add(pattern_nodes(places, weights, part, last));
    }
    count
}

// The nodes of a reference to a name: none where no define has it.
fn weight(places: &Places, weights: &[u64], name: &Text, last: &mut usize) -> u64
    ensures { result ≡ weight_in places.now weights.now name.now }
{
    match place_of(places, name, last) {
        Some(place) => weights.get(place).copied().unwrap_or(0),
        None => 0,
    }
}

// The nodes of the defines that hold an `element`.
fn elements_nodes(places: &Places, weights: &[u64], defines: &Defines) -> u64
    ensures { result ≡ counted (sum_by (λ d. the_element_nodes (weight_in places.now weights.now) d.body) defines.now) }
{
    let mut count = 0_u64;
    for define in defines.as_slice() {
        count = count.saturating_add(element_nodes(places, weights, &define.body));
    }
    count
}

// The nodes of the attributes' values and of the content, where there is an `element`.
fn element_nodes(places: &Places, weights: &[u64], body: &Body) -> u64
    ensures { result ≡ counted (the_element_nodes (weight_in places.now weights.now) body.now) }
{
    match body {
        Body::Element { attrs, content, .. } => {
            let values = match attrs {
                AttrPart::AnyAttributes => 0,
                AttrPart::Listed(rules) => rules_nodes(places, weights, rules),
            };
            values.saturating_add(pattern_nodes(places, weights, content, &mut 0))
        }
        Body::Part(_) => 0,
    }
}

// The nodes of the values of attributes.
fn rules_nodes(places: &Places, weights: &[u64], rules: &Rules) -> u64
    ensures { result ≡ counted (sum_by (λ rule. nodes (weight_in places.now weights.now) rule.value) rules.now) }
{
    let mut count = 0_u64;
    for rule in rules.as_slice() {
        count = count.saturating_add(pattern_nodes(places, weights, &rule.value, &mut 0));
    }
    count
}
