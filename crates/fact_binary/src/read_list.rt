//! Readers of lists and sections (core specification, "Binary format", "Vectors" and "Modules").

ghost use Rattle.std.specs.Prelude.{◌≡◌, ℕ, ◌<◌, ◌^◌, ◌++◌, List, length, IfOk};
ghost use Rattle.std.specs.List.{flat_map, AllByRecursion};
ghost use Rattle.fact_binary.specs.Answers.{IfRead};
ghost use Rattle.fact_binary.specs.Grammar.{list, IsList};
ghost use Rattle.fact_binary.specs.Spelling.{section};

use crate::error::DecodeError;
use crate::reading::{byte_at, sized_at, u32_at};
use fact_wasm::Seq;
use std::alloc::Global;

/// How the items of a list are read, in a module that imports so many functions.
pub trait ReadItem<T: Drop> {
    ghost code: { ℕ → T → List ℕ };

    ghost fits: { ℕ → T → Type 0 };

    fn read(alloc: Global, imports: u32, bytes: &[u8]) -> Result<(T, &[u8]), DecodeError>
        ensures found { IfOk result (λ x. fits imports x.0 × (bytes.now ≡ code imports x.0 ++ x.1.now)) }
        ensures only { (y : _) (rest : List ℕ) → fits imports y → bytes.now ≡ code imports y ++ rest → IfRead result (λ x. (x.0 ≡ y) × (x.1.now ≡ rest)) };
}

/// So many items.
fn items_at<I: ReadItem<T>, T: Drop>(
    alloc: Global,
    imports: u32,
    count: u32,
    bytes: &[u8],
) -> Result<(Vec<T>, &[u8]), DecodeError>
    ensures found { IfOk result (λ x. (length x.0.items ≡ count) × AllByRecursion (I.fits imports) x.0.items × (bytes.now ≡ flat_map (I.code imports) x.0.items ++ x.1.now)) }
    ensures only { (ys : List _) (rest : List ℕ) → length ys ≡ count → AllByRecursion (I.fits imports) ys → bytes.now ≡ flat_map (I.code imports) ys ++ rest
        → IfRead result (λ x. (x.0.items ≡ ys) × (x.1.now ≡ rest)) }
{
    let mut items = Vec::new(alloc);
    let mut left = bytes;
    for _ in 0..count {
        let (item, after) = I::read(alloc, imports, left)?;
        items.push(item)?;
        left = after;
    }
    Ok((items, left))
}

/// A list: its length and its items.
pub fn list_at<I: ReadItem<T>, T: Drop>(
    alloc: Global,
    imports: u32,
    bytes: &[u8],
) -> Result<(Seq<T>, &[u8]), DecodeError>
    ensures found { IfOk result (λ x. IsList (I.fits imports) x.0 × (bytes.now ≡ list (I.code imports) x.0 ++ x.1.now)) }
    ensures only { (ys : List _) (rest : List ℕ) → IsList (I.fits imports) ys → bytes.now ≡ list (I.code imports) ys ++ rest
        → IfRead result (λ x. (x.0 ≡ ys) × (x.1.now ≡ rest)) }
{
    let (count, rest) = u32_at(bytes)?;
    let (items, rest) = items_at::<I, T>(alloc, imports, count, rest)?;
    Ok((Seq::from_vec(items), rest))
}

/// A list that is all of the bytes.
fn whole_list<I: ReadItem<T>, T: Drop>(
    alloc: Global,
    imports: u32,
    bytes: &[u8],
) -> Result<Seq<T>, DecodeError>
    ensures found { IfOk result (λ xs. IsList (I.fits imports) xs × (bytes.now ≡ list (I.code imports) xs)) }
    ensures only { (ys : List _) → IsList (I.fits imports) ys → bytes.now ≡ list (I.code imports) ys → IfRead result (λ xs. xs ≡ ys) }
{
    let (items, left) = list_at::<I, T>(alloc, imports, bytes)?;
    if !left.is_empty() {
        return Err(DecodeError::NotInGrammar);
    }
    Ok(items)
}

/// A section: its id, the byte length of its content, and the content, which is a list.
pub fn section_at<I: ReadItem<T>, T: Drop>(
    alloc: Global,
    imports: u32,
    id: u8,
    bytes: &[u8],
) -> Result<(Seq<T>, &[u8]), DecodeError>
    ensures found { IfOk result (λ x. (length (list (I.code imports) x.0) < 2 ^ 32) × IsList (I.fits imports) x.0 × (bytes.now ≡ section id (list (I.code imports) x.0) ++ x.1.now)) }
    ensures only { (ys : List _) (rest : List ℕ) → length (list (I.code imports) ys) < 2 ^ 32 → IsList (I.fits imports) ys → bytes.now ≡ section id (list (I.code imports) ys) ++ rest
        → IfRead result (λ x. (x.0 ≡ ys) × (x.1.now ≡ rest)) }
{
    let (first, rest) = byte_at(bytes)?;
    if first != id {
        return Err(DecodeError::NotInGrammar);
    }
    let (content, after) = sized_at(rest)?;
    let items = whole_list::<I, T>(alloc, imports, content)?;
    Ok((items, after))
}
