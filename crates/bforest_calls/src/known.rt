//! What is known of handles between calls: that they are live, and under which comparator the list of each increases.
ghost use Rattle.bforest_calls.specs.Machine.{AreKnown, IsKnown, KnowsNothing, State, Step};
ghost use Rattle.bforest_calls.specs.Spared.{IsSpared, reach_of};
ghost use Rattle.std.specs.Prelude.{All, IfSome, IsTrue, None, Some, get_or, slice_set, ◌%◌, ◌≡◌, ◌≢◌, ℕ};

use crate::call::Call;
use crate::collection::Collection;

/// How many handles are remembered: one of those whose indices have the same remainder by this number.
const SLOTS: usize = 8;

/// Handles that are live, each with a comparator under which its list increases, by their indices. At most eight are remembered.
#[derive(Clone, Copy)]
pub struct Known {
    slots: [Option<(usize, usize)>; SLOTS],
}

impl Known {
    /// No handle is remembered.
    pub fn new() -> Known
        ensures none { KnowsNothing result }
    {
        Known {
            slots: [None; SLOTS],
        }
    }

    /// What stands in the place of a handle: what is known of it, or of another one.
    pub(crate) fn of(&self, h: usize) -> Option<(usize, usize)>
        ensures { result ≡ get_or self.now.slots (h % 8) None }
    {
        self.slots[h % SLOTS]
    }

    /// Remembers what a call told, in the place of its handle.
    pub(crate) fn learn(&mut self, told: Option<(usize, usize)>)
        ensures nothing { told ≡ None → self.new.slots ≡ self.old.slots }
        ensures told { IfSome told (λ it. self.new.slots ≡ slice_set self.old.slots (it.0 % 8) (Some it)) }
    {
        if let Some((h, _)) = told {
            self.slots[h % SLOTS] = told;
        }
    }

    /// Forgets each handle that the call does not spare. What is left is known after the call, too, whatever it answers.
    pub(crate) fn forget<K: Copy, V: Copy, T: Collection<K, V>>(
        &mut self,
        call: &Call<K, V>,
        handles: &[T],
    )
        ensures { (most : ℕ) (reads : _) (orders : _) (trees : _) (given : _) (new : State K V)
            → AreKnown orders (record { forest = trees; handles = T.numbers handles.now }) self.old
            → Step most reads orders (record { forest = trees; handles = T.numbers handles.now })
            call.now given new → AreKnown orders new self.new }
    {
        forget_in(call, handles, &mut self.slots);
    }
}

/// Forgets each handle that the call does not spare, of those remembered in these places.
fn forget_in<K: Copy, V: Copy, T: Collection<K, V>>(
    call: &Call<K, V>,
    handles: &[T],
    slots: &mut [Option<(usize, usize)>],
)
    ensures { (most : ℕ) (reads : _) (orders : _) (trees : _) (given : _) (new : State K V)
        → All (IsKnown orders (record { forest = trees; handles = T.numbers handles.now })) slots.old
        → Step most reads orders (record { forest = trees; handles = T.numbers handles.now })
        call.now given new → All (IsKnown orders new) slots.new }
{
    let reach = reach_of(call);
    for slot in slots.iter_mut() {
        *slot = spared(*slot, reach, handles);
    }
}

/// What is known of a handle, where a call with this reach spares it.
fn spared<K: Copy, V: Copy, T: Collection<K, V>>(
    slot: Option<(usize, usize)>,
    reach: Reach,
    handles: &[T],
) -> Option<(usize, usize)>
    ensures { IfSome result (λ it. (slot ≡ Some it) × IsSpared (T.numbers handles.now) reach it.0) }
{
    match slot {
        Some((h, _)) if spares(reach, h, handles) => slot,
        _ => None,
    }
}

/// Whether what is known of handle `g` is still known after a call with this reach.
fn spares<K: Copy, V: Copy, T: Collection<K, V>>(reach: Reach, g: usize, handles: &[T]) -> bool
    ensures { IsTrue result → IsSpared (T.numbers handles.now) reach g }
{
    match reach {
        Reach::Nothing => true,
        Reach::Tree(h) => are_apart(h, g, handles),
        Reach::Sublist(h) => h == g || are_apart(h, g, handles),
        Reach::Name(to) => to != g,
        Reach::Parts(h, to) => to != g && are_apart(h, g, handles),
        Reach::Forest => false,
    }
}

/// Whether two handles are there and have different numbers.
fn are_apart<K: Copy, V: Copy, T: Collection<K, V>>(h: usize, g: usize, handles: &[T]) -> bool
    ensures { IsTrue result
        → get_or (T.numbers handles.now) h None ≢ get_or (T.numbers handles.now) g None }
{
    h < handles.len() && g < handles.len() && !handles[h].is_same_handle(&handles[g])
}

/// What a call may change.
#[derive(Clone, Copy)]
enum Reach {
    /// No tree and no handle.
    Nothing,
    /// A handle and its tree.
    Tree(usize),
    /// A handle and its tree, whose list then has no other keys than before, in their order.
    Sublist(usize),
    /// Which tree a handle names: no tree that was there changes.
    Name(usize),
    /// A handle and its tree, and which tree another handle names.
    Parts(usize, usize),
    /// All trees.
    Forest,
}

/// What a call may change.
fn reach_of<K: Copy, V: Copy>(call: &Call<K, V>) -> Reach
    ensures { result ≡ reach_of call.now }
{
    match call {
        Call::Get { .. }
        | Call::GetOrLess { .. }
        | Call::GetOrGreater { .. }
        | Call::First { .. }
        | Call::Last { .. }
        | Call::Len { .. }
        | Call::IsSubset { .. }
        | Call::IsDisjoint { .. }
        | Call::Iter { .. }
        | Call::IterBack { .. }
        | Call::Read { .. }
        | Call::Range { .. } => Reach::Nothing,
        Call::Insert { h, .. }
        | Call::GetOrInsert { h, .. }
        | Call::Update { h, .. }
        | Call::UpdateOrInsert { h, .. }
        | Call::Shift { h, .. }
        | Call::Remove { h, .. }
        | Call::RemoveRange { h, .. }
        | Call::Unite { h, .. }
        | Call::Intersect { h, .. }
        | Call::Subtract { h, .. }
        | Call::Edit { h, .. } => Reach::Tree(*h),
        Call::PopFirst { h }
        | Call::PopLast { h }
        | Call::Compact { h }
        | Call::Clear { h }
        | Call::Retain { h, .. } => Reach::Sublist(*h),
        Call::Alias { to, .. } | Call::DeepClone { to, .. } => Reach::Name(*to),
        Call::Load { h, .. } => Reach::Name(*h),
        Call::SplitOff { h, to, .. } => Reach::Parts(*h, *to),
        Call::ForestClear => Reach::Forest,
    }
}
