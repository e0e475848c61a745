//! How many blocks have T and D words.
ghost use Rattle.std.specs.Prelude.{◌≡◌, ◌≤◌, length};
ghost use Rattle.std.specs.List.{count_by};
ghost use Rattle.explain_assumptions.specs.Firsts as model;

use crate::remarks::Remark;

/// How many of these remarks are about T words.
pub(crate) fn tool_count(remarks: &[Remark]) -> usize
    ensures value { result ≡ count_by model.is_of_tool remarks.now }
    ensures few { result ≤ length remarks.now }
{
    let mut count = 0;
    for remark in remarks {
        if remark.is_of_tool() {
            count += 1;
        }
    }
    count
}

/// How many of these remarks are about D words.
pub(crate) fn tool_offset_count(remarks: &[Remark]) -> usize
    ensures value { result ≡ count_by model.is_of_tool_offset remarks.now }
    ensures few { result ≤ length remarks.now }
{
    let mut count = 0;
    for remark in remarks {
        if remark.is_of_tool_offset() {
            count += 1;
        }
    }
    count
}
