//! Lists of handles of maps or of sets.
ghost use Rattle.bforest_indexed.specs.Handles.{Adds, Holds};
ghost use Rattle.std.specs.Prelude.{OnErr, OnOk, [], length, vec_capacity, vec_len, ◌+◌, ◌-◌, ◌<◌, ◌≡◌, ◌≤◌};

use std::alloc::AllocError;

/// Takes memory for `more` handles beside those that are there, where there is less: for as many again as there are, or for `more`.
pub(crate) fn hold<H>(handles: &mut Vec<H>, more: usize) -> Result<(), AllocError>
    ensures items { handles.new.items ≡ handles.old.items }
    ensures len { vec_len handles.new ≡ vec_len handles.old }
    ensures ok { OnOk result (vec_len handles.old + more ≤ vec_capacity handles.new) }
    ensures holds { Holds (vec_len handles.old + more) (vec_capacity handles.old)
        (vec_capacity handles.new) }
    ensures kept { OnErr result (vec_capacity handles.new ≡ vec_capacity handles.old) }
    ensures short { OnErr result (vec_capacity handles.old < vec_len handles.old + more) }
{
    let len = handles.len();
    if more <= handles.capacity() - len {
        return Ok(());
    }
    handles.reserve_exact(more.max(len))
}

/// Adds empty handles until there are `count`, in memory that is taken once.
pub(crate) fn add_empty<H: Drop + Default>(
    handles: &mut Vec<H>,
    count: usize,
) -> Result<(), AllocError>
    ensures more { OnOk result (Adds H.is_default handles.old.items (count - length handles.old.items)
        handles.new.items) }
    ensures refused { OnErr result (handles.new.items ≡ handles.old.items) }
    ensures holds { Holds count (vec_capacity handles.old) (vec_capacity handles.new) }
    ensures kept { OnErr result (vec_capacity handles.new ≡ vec_capacity handles.old) }
    ensures short { OnErr result (vec_capacity handles.old < count) }
{
    let more = count.saturating_sub(handles.len());
    hold(handles, more)?;
    for _ in 0..more {
        handles.push_reserved(H::default());
    }
    Ok(())
}

/// Makes each handle empty. It ends no tree.
pub(crate) fn empty_all<H: Drop + Default>(handles: &mut Vec<H>)
    ensures empty { Adds H.is_default [] (length handles.old.items) handles.new.items }
    ensures memory { vec_capacity handles.new ≡ vec_capacity handles.old }
{
    let count = handles.len();
    handles.clear();
    for _ in 0..count {
        handles.push_reserved(H::default());
    }
}
