//! Lists of which only the beginning is kept.
ghost use Rattle.std.specs.Prelude.{◌≡◌, ◌++◌, ◌∷◌, [], take, IfOk};
ghost use Rattle.explain_pictures.specs.Kept.{IsShortened};

use out_of_memory::NoMemory;

/// Adds an item to a list, while the list is shorter than so many items. `NoMemory` where too little memory is found.
pub(crate) fn keep<T: Copy>(list: &mut Vec<T>, limit: usize, item: T) -> Result<(), NoMemory>
    ensures { IfOk result (λ _. take limit list.new.items ≡ take limit (list.old.items ++ (item ∷ []))) }
{
    if list.len() < limit {
        list.push(item)?;
    }
    Ok(())
}

/// Adds an item to a list. `NoMemory` where too little memory is found.
pub(crate) fn add<T: Copy>(list: &mut Vec<T>, item: T) -> Result<(), NoMemory>
    ensures { IfOk result (λ _. list.new.items ≡ list.old.items ++ (item ∷ [])) }
{
    list.push(item)?;
    Ok(())
}

/// Shortens a list to so many items, and says whether it was longer.
pub(crate) fn shortened<T: Copy>(list: &mut Vec<T>, limit: usize) -> bool
    ensures { IsShortened limit list.old.items list.new.items result }
{
    let is_longer = list.len() > limit;
    list.truncate(limit);
    is_longer
}
