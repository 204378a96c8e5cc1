// Columns: token sets that lie side by side in slots, as those of a row of the lane table do: context_set/mod.rs.
#![tactic(auto)]

ghost use Rattle.std.specs.Prelude.{◌≡◌, ◌+◌, ◌≤◌, ◌<◌, replicate};
ghost use Rattle.base.specs.Lists.{each_of};
ghost use Rattle.rules.specs.Tokens.{disjoint};
ghost use Rattle.rules.specs.Lanes.{pairwise_disjoint};
ghost use Rattle.room.specs.Areas.{view};
ghost use Rattle.room.specs.Bounds.{LongEnough, IsSlot, slot_count};
ghost use Rattle.lookahead.specs.Sets.{set_at};
ghost use Rattle.context_set.specs.Columns.{columns_at, columns_up_to, columns_joined, Columned};

use lookahead::{clear_set, is_disjoint, join_into};

// The columns from the slot `at` on become empty. context_set/mod.rs: new
pub fn clear_columns(work: &mut [u64], width: usize, at: usize)
    requires { LongEnough work.old × (at + width ≤ slot_count) }
    ensures { Columned at width (replicate width 0) (view work.old) (view work.new) }
{
    for c in 0..width {
        clear_set(work, at + c);
    }
}

// The columns from the slot `from` on are joined into those from `into` on, which lie before them. context_set/mod.rs: union
pub fn join_columns(work: &mut [u64], width: usize, into: usize, from: usize)
    requires { LongEnough work.old × (into + width ≤ from) × (from + width ≤ slot_count) }
    ensures { Columned into width (columns_joined into from width (view work.old)) (view work.old) (view work.new) }
{
    for c in 0..width {
        join_into(work, into + c, from + c);
    }
}

// The set of the slot shares no token with those behind it, up to `end`.
fn disjoint_behind(work: &[u64], slot: usize, end: usize) -> bool
    requires { LongEnough work.now × (slot < end) × (end ≤ slot_count) }
    ensures { result ≡ each_of (disjoint (set_at (view work.now) slot)) (columns_up_to (view work.now) (slot + 1) end) }
{
    let first = slot + 1;
    (first..end).all(
        |other|
            requires { LongEnough work.now × IsSlot slot × IsSlot other }
        { is_disjoint(work, slot, other) },
    )
}

// No two columns share a token. context_set/mod.rs: the test of union
pub fn columns_disjoint(work: &[u64], width: usize, at: usize) -> bool
    requires { LongEnough work.now × (at + width ≤ slot_count) }
    ensures { result ≡ pairwise_disjoint (columns_at (view work.now) at width) }
{
    let end = at + width;
    (at..end).all(|slot| disjoint_behind(work, slot, end))
}
