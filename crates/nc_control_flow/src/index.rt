//! Places by label and by block number.

ghost use Rattle.std.specs.Prelude.{◌≡◌, ◌≤◌, ◌<◌, ◌^◌, ℕ, [], ◌∷◌, ◌++◌, ◌==◌, List, length, IfOk, OnOk, if◌then◌else◌};
ghost use Rattle.std.specs.Str.{bytes_eq};
ghost use Rattle.nc_control_flow.specs.Parts.{views};
ghost use Rattle.nc_control_flow.specs.Targets.{is_label, is_number};
ghost use Rattle.nc_control_flow.specs.Index.{label_places, number_places, IsIndex};

use arrayvec::ArrayVec;
use nc_blocks::{Block, NAME_LIMIT, NameText};
use std::alloc::{AllocError, Global};
use std::collections::HashMap;

/// A label as a key.
pub(crate) type Name = ArrayVec<u8, NAME_LIMIT>;

/// The label with these bytes.
fn name_of(bytes: &[u8]) -> Name
    requires { length bytes.now ≤ NAME_LIMIT }
    ensures { result.items ≡ bytes.now }
{
    let mut name = ArrayVec::new();
    for byte in bytes {
        name.push(*byte);
    }
    name
}

/// Notes one more place of a label.
fn note_label(
    alloc: Global,
    labels: &mut HashMap<Name, Vec<u32>>,
    name: &[u8],
    place: u32,
) -> Result<(), AllocError>
    requires { length name.now ≤ NAME_LIMIT }
    ensures { OnOk result ((q : List ℕ) → label_places labels.new q
        ≡ (if bytes_eq name.now q then label_places labels.old name.now ++ place ∷ [] else label_places labels.old q)) }
{
    let key = name_of(name);
    let mut places = labels.remove(&key).unwrap_or(Vec::new(alloc));
    places.push(place)?;
    labels.insert(key, places)?;
    Ok(())
}

/// Notes one more place of a block number.
fn note_number(
    alloc: Global,
    numbers: &mut HashMap<u32, Vec<u32>>,
    number: u32,
    place: u32,
) -> Result<(), AllocError>
    ensures { OnOk result ((q : ℕ) → number_places numbers.new q
        ≡ (if number == q then number_places numbers.old number ++ place ∷ [] else number_places numbers.old q)) }
{
    numbers
        .entry(number)?
        .or_insert(Vec::new(alloc))
        .push(place)?;
    Ok(())
}

/// The places of a label.
pub(crate) fn places_of_label<'a>(labels: &'a HashMap<Name, Vec<u32>>, name: &[u8]) -> &'a [u32]
    requires { length name.now ≤ NAME_LIMIT }
    ensures { result.now ≡ label_places labels.now name.now }
{
    match labels.get(&name_of(name)) {
        Some(places) => places.as_slice(),
        None => &[],
    }
}

/// The places of a block number.
pub(crate) fn places_of_number(numbers: &HashMap<u32, Vec<u32>>, number: u32) -> &[u32]
    ensures { result.now ≡ number_places numbers.now number }
{
    match numbers.get(&number) {
        Some(places) => places.as_slice(),
        None => &[],
    }
}

/// The places of the labels and block numbers of a program.
#[derive(Drop)]
pub(crate) struct Index {
    /// Those of each label.
    pub labels: HashMap<Name, Vec<u32>>,
    /// Those of each block number.
    pub numbers: HashMap<u32, Vec<u32>>,
}

impl Index {
    /// The places of the labels and block numbers of these blocks.
    pub(crate) fn of(alloc: Global, blocks: &[(u32, Block)]) -> Result<Index, AllocError>
        requires { length blocks.now < 2 ^ 32 }
        ensures { IfOk result (λ index. IsIndex (views blocks.now) index.labels index.numbers) }
    {
        let mut labels = HashMap::new(alloc);
        let mut numbers = HashMap::new(alloc);
        for (place, (_, block)) in blocks.iter().enumerate() {
            note_label_of(alloc, &mut labels, &block.label, place as u32)?;
            note_number_of(alloc, &mut numbers, block.number, place as u32)?;
        }
        Ok(Index { labels, numbers })
    }
}

/// Notes the label of a block at a place, if it has one.
fn note_label_of(
    alloc: Global,
    labels: &mut HashMap<Name, Vec<u32>>,
    label: &Option<NameText>,
    place: u32,
) -> Result<(), AllocError>
    ensures { OnOk result ((q : List ℕ) → label_places labels.new q
        ≡ label_places labels.old q ++ (if is_label q label.now then place ∷ [] else [])) }
{
    match label {
        Some(name) => note_label(alloc, labels, name.as_bytes(), place),
        None => Ok(()),
    }
}

/// Notes the number of a block at a place, if it has one.
fn note_number_of(
    alloc: Global,
    numbers: &mut HashMap<u32, Vec<u32>>,
    number: Option<u32>,
    place: u32,
) -> Result<(), AllocError>
    ensures { OnOk result ((q : ℕ) → number_places numbers.new q
        ≡ number_places numbers.old q ++ (if is_number q number then place ∷ [] else [])) }
{
    match number {
        Some(number) => note_number(alloc, numbers, number, place),
        None => Ok(()),
    }
}
