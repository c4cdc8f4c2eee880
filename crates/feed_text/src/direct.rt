//! The text of the usual JSON documents, directly from MySQL's binary JSON.
//!
//! These functions give up on the others: documents with opaque values, with an object of more than 64 members or with equal
//! keys, and documents that can't be parsed. They may then leave a part of the text.

ghost use Rattle.std.specs.Prelude.{◌≡◌, ◌<◌, ◌+◌, ◌++◌, OnOk, OnErr, true, false, length, take};
ghost use Rattle.feed_text.specs.Buffers.{text_in};
ghost use Rattle.rows_jsonb.specs.DocumentTrees.{document_tree};
ghost use Rattle.rows_jsonb.specs.JsonbValues.{object_key};
ghost use Rattle.feed_text.specs.Containers.{value_of};
ghost use Rattle.feed_text.specs.KeyOrder.{IsFound};
ghost use Rattle.feed_text.specs.DirectText.{separator, WritesTyped, WritesTypedScalar, WritesTree, WritesItems, WritesMembers, WritesMember, WritesDocument};

use crate::buffer::TextBuffer;
use crate::direct_parts::{Container, NotDirect};
use crate::direct_scalars::write_scalar;
use crate::document_form::DocumentForm;
use crate::key_order::put_order;
use crate::short_strings::{append_key, append_separator};
use arrayvec::ArrayVec;
use std::alloc::Allocator;

/// The last of the types that are containers.
const LAST_CONTAINER: u8 = 3;

/// Appends the text of the value with this type byte that the bytes begin with. Up to `depth` containers may nest in it; the
/// number of its values is subtracted from `budget`. Each format of containers has code of its own, without tests of the format.
/// An error may leave a part of the text.
#[cycle(direct)]
#[inline(always)]
fn write_value<A: Allocator, F: DocumentForm>(
    out: &mut TextBuffer<A>,
    type_byte: u8,
    bytes: &[u8],
    depth: usize,
    budget: &mut usize,
) -> Result<(), NotDirect>
    ensures ok { OnOk result (WritesTyped F.form depth type_byte bytes.now budget.old budget.new (text_in out.old) (text_in out.new)) }
    ensures kept { take (length (text_in out.old)) (text_in out.new) ≡ text_in out.old }
{
    match type_byte {
        0 => write_small_object::<A, F>(out, bytes, depth, budget),
        1 => write_large_object::<A, F>(out, bytes, depth, budget),
        2 => write_small_array::<A, F>(out, bytes, depth, budget),
        3 => write_large_array::<A, F>(out, bytes, depth, budget),
        _ => write_counted_scalar::<A, F>(out, type_byte, bytes, budget),
    }
}

/// Appends the text of a scalar, and subtracts one from `budget`. An error appends nothing.
#[inline(always)]
fn write_counted_scalar<A: Allocator, F: DocumentForm>(
    out: &mut TextBuffer<A>,
    type_byte: u8,
    bytes: &[u8],
    budget: &mut usize,
) -> Result<(), NotDirect>
    ensures ok { OnOk result (WritesTypedScalar F.form type_byte bytes.now (text_in out.old) (text_in out.new)) }
    ensures counted { OnOk result (budget.new + 1 ≡ budget.old) }
    ensures err { OnErr result (text_in out.new ≡ text_in out.old) }
{
    if *budget == 0 {
        return Err(NotDirect);
    }
    *budget -= 1;
    write_scalar::<A, F>(out, type_byte, bytes)
}

/// Appends the text of the object with offsets of two bytes that the bytes begin with. An error may leave a part of it.
#[cycle(direct)]
#[inline(never)]
fn write_small_object<A: Allocator, F: DocumentForm>(
    out: &mut TextBuffer<A>,
    bytes: &[u8],
    depth: usize,
    budget: &mut usize,
) -> Result<(), NotDirect>
    ensures ok { OnOk result (WritesTyped F.form depth 0 bytes.now budget.old budget.new (text_in out.old) (text_in out.new)) }
    ensures kept { take (length (text_in out.old)) (text_in out.new) ≡ text_in out.old }
{
    let container = Container::read(false, false, bytes)?;
    write_object::<A, F>(out, &container, depth, budget)
}

/// Appends the text of the object with offsets of four bytes that the bytes begin with. An error may leave a part of it.
#[cycle(direct)]
#[inline(never)]
fn write_large_object<A: Allocator, F: DocumentForm>(
    out: &mut TextBuffer<A>,
    bytes: &[u8],
    depth: usize,
    budget: &mut usize,
) -> Result<(), NotDirect>
    ensures ok { OnOk result (WritesTyped F.form depth 1 bytes.now budget.old budget.new (text_in out.old) (text_in out.new)) }
    ensures kept { take (length (text_in out.old)) (text_in out.new) ≡ text_in out.old }
{
    let container = Container::read(true, false, bytes)?;
    write_object::<A, F>(out, &container, depth, budget)
}

/// Appends the text of the array with offsets of two bytes that the bytes begin with. An error may leave a part of it.
#[cycle(direct)]
#[inline(never)]
fn write_small_array<A: Allocator, F: DocumentForm>(
    out: &mut TextBuffer<A>,
    bytes: &[u8],
    depth: usize,
    budget: &mut usize,
) -> Result<(), NotDirect>
    ensures ok { OnOk result (WritesTyped F.form depth 2 bytes.now budget.old budget.new (text_in out.old) (text_in out.new)) }
    ensures kept { take (length (text_in out.old)) (text_in out.new) ≡ text_in out.old }
{
    let container = Container::read(false, true, bytes)?;
    write_array::<A, F>(out, &container, depth, budget)
}

/// Appends the text of the array with offsets of four bytes that the bytes begin with. An error may leave a part of it.
#[cycle(direct)]
#[inline(never)]
fn write_large_array<A: Allocator, F: DocumentForm>(
    out: &mut TextBuffer<A>,
    bytes: &[u8],
    depth: usize,
    budget: &mut usize,
) -> Result<(), NotDirect>
    ensures ok { OnOk result (WritesTyped F.form depth 3 bytes.now budget.old budget.new (text_in out.old) (text_in out.new)) }
    ensures kept { take (length (text_in out.old)) (text_in out.new) ≡ text_in out.old }
{
    let container = Container::read(true, true, bytes)?;
    write_array::<A, F>(out, &container, depth, budget)
}

/// Appends the text of an array. An error may leave a part of it.
#[cycle(direct)]
#[inline(always)]
fn write_array<A: Allocator, F: DocumentForm>(
    out: &mut TextBuffer<A>,
    array: &Container<'_>,
    depth: usize,
    budget: &mut usize,
) -> Result<(), NotDirect>
    requires { array.now.is_array ≡ true }
    ensures ok { OnOk result (WritesTree F.form depth (value_of array.now) budget.old budget.new (text_in out.old) (text_in out.new)) }
    ensures kept { take (length (text_in out.old)) (text_in out.new) ≡ text_in out.old }
{
    if depth == 0 || *budget == 0 {
        return Err(NotDirect);
    }
    *budget -= 1;
    write_items::<A, F>(out, array, depth - 1, budget)
}

/// Appends the text of an object. An error may leave a part of it.
#[cycle(direct)]
#[inline(always)]
fn write_object<A: Allocator, F: DocumentForm>(
    out: &mut TextBuffer<A>,
    object: &Container<'_>,
    depth: usize,
    budget: &mut usize,
) -> Result<(), NotDirect>
    requires { object.now.is_array ≡ false }
    ensures ok { OnOk result (WritesTree F.form depth (value_of object.now) budget.old budget.new (text_in out.old) (text_in out.new)) }
    ensures kept { take (length (text_in out.old)) (text_in out.new) ≡ text_in out.old }
{
    if depth == 0 || *budget == 0 {
        return Err(NotDirect);
    }
    *budget -= 1;
    write_members::<A, F>(out, object, depth - 1, budget)
}

/// Appends the elements of an array in brackets. An error may leave a part of this.
#[cycle(direct)]
#[inline(always)]
fn write_items<A: Allocator, F: DocumentForm>(
    out: &mut TextBuffer<A>,
    array: &Container<'_>,
    depth: usize,
    budget: &mut usize,
) -> Result<(), NotDirect>
    ensures ok { OnOk result (WritesItems F.form depth (value_of array.now) budget.old budget.new (text_in out.old) (text_in out.new)) }
    ensures kept { take (length (text_in out.old)) (text_in out.new) ≡ text_in out.old }
{
    out.put(b'[')?;
    let mut is_first = true;
    'items: for pos in 0..array.count {
        append_separator(out, is_first)?;
        let (type_byte, bytes) = array.value_at(pos)?;
        write_value::<A, F>(out, type_byte, bytes, depth, budget)?;
        is_first = false;
    }
    out.put(b']')?;
    Ok(())
}

/// Appends the members of an object in braces. An error may leave a part of this.
#[cycle(direct)]
#[inline(always)]
fn write_members<A: Allocator, F: DocumentForm>(
    out: &mut TextBuffer<A>,
    object: &Container<'_>,
    depth: usize,
    budget: &mut usize,
) -> Result<(), NotDirect>
    requires { object.now.is_array ≡ false }
    ensures ok { OnOk result (WritesMembers F.form depth (value_of object.now) budget.old budget.new (text_in out.old) (text_in out.new)) }
    ensures kept { take (length (text_in out.old)) (text_in out.new) ≡ text_in out.old }
{
    let mut order = ArrayVec::new();
    put_order(object, &mut order)?;
    let order = order.as_slice();
    out.put(b'{')?;
    let mut is_first = true;
    'members: for pos in order {
        write_member::<A, F>(out, is_first, object, u32::from(*pos), depth, budget)?;
        is_first = false;
    }
    out.put(b'}')?;
    Ok(())
}

/// Appends the text of a member of an object, after a comma unless `is_first`. An error may leave a part of it.
#[cycle(direct)]
#[inline(always)]
fn write_member<A: Allocator, F: DocumentForm>(
    out: &mut TextBuffer<A>,
    is_first: bool,
    object: &Container<'_>,
    pos: u32,
    depth: usize,
    budget: &mut usize,
) -> Result<(), NotDirect>
    requires object { object.now.is_array ≡ false }
    requires below { pos < object.now.count }
    requires known { IsFound (object_key (value_of object.now) pos) }
    ensures ok { OnOk result (WritesMember F.form depth (value_of object.now) pos budget.old budget.new (text_in out.old ++ separator is_first) (text_in out.new)) }
    ensures kept { take (length (text_in out.old)) (text_in out.new) ≡ text_in out.old }
{
    let (key, len) = object.known_key_at(pos);
    append_key::<A, F>(out, is_first, key, len)?;
    let (type_byte, bytes) = object.value_at(pos)?;
    write_value::<A, F>(out, type_byte, bytes, depth, budget)
}

/// The maximum number of nested containers.
const MAX_DEPTH: usize = 100;

/// Appends the text of a JSON document that is a container. An error may leave a part of it.
pub(crate) fn write_document<A: Allocator, F: DocumentForm>(
    out: &mut TextBuffer<A>,
    bytes: &[u8],
) -> Result<(), NotDirect>
    ensures ok { OnOk result (WritesDocument F.form (document_tree bytes.now) (text_in out.old) (text_in out.new)) }
    ensures kept { take (length (text_in out.old)) (text_in out.new) ≡ text_in out.old }
{
    if bytes.is_empty() || bytes[0] > LAST_CONTAINER {
        return Err(NotDirect);
    }
    let (first, rest) = bytes.split_at(1);
    let Ok(document) = Container::of_type(first[0], rest) else {
        return Err(NotDirect);
    };
    let mut budget = document.bytes.len() + 1;
    write_value::<A, F>(out, first[0], rest, MAX_DEPTH, &mut budget)
}
