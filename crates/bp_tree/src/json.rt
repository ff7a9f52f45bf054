// Trees in the JSON form.
ghost use Rattle.std.specs.Prelude.{◌≡◌, true, map};
ghost use Rattle.serde_json.specs.View.{view};
ghost use Rattle.bp_tree.specs.Edges.{IsGrowing, IsLength};
ghost use Rattle.bp_tree.specs.Json.{is_json, is_space};
ghost use Rattle.bp_tree.specs.Calls.{JudgesElement, AddsElement, AddsElements};
ghost use Rattle.bp_tree.specs.Growing.{no_nodes};
ghost use Rattle.bp_tree.specs.Reading.{HasList, ReadsEdges, ReadsElement, ReadsElements, ReadsValue, edge_of};

use crate::fault::of_the_whole;
use crate::{Edge, Grower, ReadTree, TreeFault, TreeKind};
use bp_base::{MOST_LENGTH, Name};
use serde_json::Value;
use std::alloc::Global;

// An element of `edges`: two texts, which needn't be names, and a number.
#[derive(Clone, Copy)]
struct Element<'v> {
    upper: &'v str,
    lower: &'v str,
    length: u64,
}

/// Whether the bytes are in the JSON form: the first that is no space, tab, LF or CR is `{`.
pub fn is_json(bytes: &[u8]) -> bool
    ensures { result ≡ is_json bytes.now }
{
    for byte in bytes {
        if !is_space(*byte) {
            return *byte == b'{';
        }
    }
    false
}

fn is_space(byte: u8) -> bool
    ensures { result ≡ is_space byte }
{
    byte == b' ' || byte == b'\t' || byte == b'\n' || byte == b'\r'
}

/// Adds the edges of bytes in the JSON form.
pub fn read_json(alloc: Global, grower: &mut Grower, bytes: &[u8]) -> Result<(), ReadTree>
    requires none { grower.old ≡ no_nodes }
    requires growing { IsGrowing grower.old }
    ensures growing { IsGrowing grower.new }
    ensures edges { ReadsEdges true bytes.now grower.new result }
{
    let value = value_of(alloc, bytes)?;
    let elements = elements_of(alloc, &value)?;
    match add_elements(grower, &elements) {
        Ok(()) => Ok(()),
        Err(fault) => Err(ReadTree::Fault(fault)),
    }
}

#[tactic(auto, unfolding(crate::specs::Json::IsValue))]
fn value_of(alloc: Global, bytes: &[u8]) -> Result<Value, ReadTree>
    ensures { ReadsValue bytes.now result }
{
    match Value::from_slice(alloc, bytes) {
        Ok(value) => Ok(value),
        Err(error) if error.is_memory() => Err(ReadTree::NoMemory),
        Err(_) => Err(of_the_whole(TreeKind::BadJson)),
    }
}

// The elements of `edges`.
fn elements_of<'v>(alloc: Global, value: &'v Value) -> Result<Vec<Element<'v>>, ReadTree>
    ensures { ReadsElements (view value.now) result }
{
    let Some(list) = list_of(value) else {
        return Err(of_the_whole(TreeKind::BadShape));
    };
    let Ok(mut elements) = Vec::with_capacity(alloc, list.len()) else {
        return Err(ReadTree::NoMemory);
    };
    for item in list {
        let Some(element) = element_of(item) else {
            return Err(of_the_whole(TreeKind::BadShape));
        };
        elements.push_reserved(element);
    }
    Ok(elements)
}

// The list of the key `edges`.
#[tactic(auto, unfolding(crate::specs::Json::HasElements))]
fn list_of(value: &Value) -> Option<&[Value]>
    ensures { HasList (view value.now) result }
{
    Some(value.get("edges")?.as_array()?.as_slice())
}

fn element_of(value: &Value) -> Option<Element<'_>>
    ensures { ReadsElement (view value.now) result }
{
    let [upper, lower, length] = value.as_array()?.as_slice() else {
        return None;
    };
    Some(Element {
        upper: upper.as_str()?,
        lower: lower.as_str()?,
        length: length.as_u64()?,
    })
}

// Adds the edges of all elements.
fn add_elements(grower: &mut Grower, elements: &[Element<'_>]) -> Result<(), TreeFault>
    requires none { grower.old ≡ no_nodes }
    requires growing { IsGrowing grower.old }
    ensures growing { IsGrowing grower.new }
    ensures elements { AddsElements (map edge_of elements.now) grower.new result }
{
    for (at, element) in elements.iter().enumerate() {
        if let Err(kind) = add_element(grower, element) {
            return Err(TreeFault {
                line: at as u64 + 1,
                kind,
            });
        }
    }
    Ok(())
}

fn add_element(grower: &mut Grower, element: &Element<'_>) -> Result<(), TreeKind>
    requires { IsGrowing grower.old }
    ensures growing { IsGrowing grower.new }
    ensures element { AddsElement grower.old (edge_of element.now) grower.new result }
{
    let edge = judged(element)?;
    grower.add(&edge)
}

// The element's edge, where its names and its length are such.
fn judged(element: &Element<'_>) -> Result<Edge, TreeKind>
    ensures { JudgesElement (edge_of element.now) result }
{
    let Some(upper) = Name::new(element.upper.as_bytes()) else {
        return Err(TreeKind::BadName);
    };
    let Some(lower) = Name::new(element.lower.as_bytes()) else {
        return Err(TreeKind::BadName);
    };
    if element.length < 1 || element.length > MOST_LENGTH {
        return Err(TreeKind::BadLength);
    }
    Ok(Edge {
        upper,
        lower,
        length: element.length,
    })
}
