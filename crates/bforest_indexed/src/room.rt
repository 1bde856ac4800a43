//! Room for many maps or sets, reserved.
ghost use Rattle.bforest.specs.Refusal.{Full, Memory};
ghost use Rattle.bforest_indexed.specs.Handles.{Holds};
ghost use Rattle.std.specs.Prelude.{IfErr, IfOk, OnErr, OnOk, vec_capacity, ◌*◌, ◌<◌, ◌≡◌, ◌≤◌};

use crate::handles::hold;
use bforest::OutOfMemory;

/// Returns how many slots `count` trees take in all, of at most `nodes` nodes each, or fails where the limit does not allow so many.
pub(crate) fn slots_for(count: usize, nodes: usize, limit: u32) -> Result<u32, OutOfMemory>
    ensures slots { IfOk result (λ slots. (slots ≡ count * nodes) × (slots ≤ limit)) }
    ensures full { IfErr result (λ why. (why ≡ Full) × (limit < count * nodes)) }
{
    match count.checked_mul(nodes) {
        Some(slots) if slots <= limit as usize => Ok(slots as u32),
        _ => Err(OutOfMemory::Full),
    }
}

/// Takes memory for `count` handles in all, where there is less.
pub(crate) fn reserve_handles<H>(handles: &mut Vec<H>, count: usize) -> Result<(), OutOfMemory>
    ensures same { handles.new.items ≡ handles.old.items }
    ensures enough { OnOk result (count ≤ vec_capacity handles.new) }
    ensures holds { Holds count (vec_capacity handles.old) (vec_capacity handles.new) }
    ensures kept { OnErr result (vec_capacity handles.new ≡ vec_capacity handles.old) }
    ensures memory { IfErr result (λ why. (why ≡ Memory) × (vec_capacity handles.old < count)) }
{
    let more = count.saturating_sub(handles.len());
    hold(handles, more).map_err(|_| OutOfMemory::Memory)
}
