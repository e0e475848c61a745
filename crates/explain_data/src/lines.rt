//! Values as lines.
use crate::assumptions::GrantedData;
use out_of_memory::NoMemory;
use serde::Serialize;
use serde_json::{Value, to_value, to_vec};
use std::alloc::{AllocError, Global};

/// A value as a line of bytes, with the end of the line.
pub fn line_of<T: Serialize>(alloc: Global, value: &T) -> Result<Vec<u8>, NoMemory> {
    match to_vec(alloc, value) {
        Ok(mut bytes) => {
            bytes.push(b'\n')?;
            Ok(bytes)
        }
        Err(_) => Err(NoMemory),
    }
}

/// Adds a member to an object.
fn add_member(
    alloc: Global,
    value: &mut Value,
    name: &str,
    member: Value,
) -> Result<(), AllocError> {
    if let Some(members) = value.as_object_mut() {
        members.insert(String::from_str(alloc, name)?, member)?;
    }
    Ok(())
}

/// The line of a verdict, with what the run takes for granted.
pub fn verdict_line(
    alloc: Global,
    mut verdict: Value,
    granted: Vec<GrantedData>,
) -> Result<Vec<u8>, NoMemory> {
    let Ok(member) = to_value(alloc, &granted) else {
        return Err(NoMemory);
    };
    add_member(alloc, &mut verdict, "assumed", member)?;
    line_of(alloc, &verdict)
}
