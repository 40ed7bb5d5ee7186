ghost use Rattle.std.specs.Prelude.{◌≡◌, ◌+◌, ◌^◌, ◌<◌, option_map, Some, IfOk, OnOk};
ghost use Rattle.fs_content.specs.Listing.{all_offered};
ghost use Rattle.fs_rules.specs.Reading.{names_answer};
ghost use Rattle.fs_rules.specs.Slots.{entries_behind};
ghost use Rattle.node_cache.specs.Cached.{held_of};
ghost use Rattle.plan_rules.specs.Told.{slots_of};
ghost use Rattle.plan_looks.specs.Names.{groups_from};
ghost use Rattle.content_laws.specs.Answers.{entries_in, names_from};
ghost use Rattle.plan_content.specs.Listings.{cookie_behind};

use crate::groups::{groups_in, slots_in};
use fs_content::Run;
use fs_dir::Slot;
use fs_layout::Attrs;
use nfs_proto::Answer;
use node_cache::{Held, NoMemory};
use std::alloc::Global;

/// The cookie of the first slot: 1 and 2 are those of the directory itself and of its parent.
const FIRST_SLOT_COOKIE: u32 = 3;

/// The names of the directory with this number and record behind a cookie, by the slots that are held: itself, its
/// parent, and its names. As many as fit into so many bytes, at least one where one is left, and whether these are
/// the last. Of the names just those that are given are copied.
pub(crate) fn list_names(
    alloc: Global,
    held: &Held,
    number: u32,
    attrs: &Attrs,
    cookie: u32,
    count: u32,
) -> Result<Answer, NoMemory>
    requires { option_map (λ e. e.attrs) (held_of number held.now.entries) ≡ Some attrs.now }
    ensures { IfOk result (λ answer. answer ≡ names_answer count (entries_behind cookie (entries_in number attrs.now.parent (slots_of held.now number)))) }
{
    let mut run = Run::new(alloc, count);
    run.offer_behind(alloc, cookie, number, b".", 1)?;
    run.offer_behind(alloc, cookie, attrs.parent, b"..", 2)?;
    offer_groups(
        alloc,
        &mut run,
        cookie,
        held,
        number,
        0,
        groups_in(attrs),
        FIRST_SLOT_COOKIE,
    )?;
    Ok(Answer::Names {
        entries: run.entries,
        eof: !run.leaves_some,
    })
}

// Offers the names in so many groups of slots from one on, where they stand behind a cookie. The first slot has the
// cookie `first`.
fn offer_groups(
    alloc: Global,
    run: &mut Run,
    behind: u32,
    held: &Held,
    number: u32,
    group: u32,
    left: u32,
    first: u32,
) -> Result<(), NoMemory>
    requires { group + left < 2 ^ 31 }
    ensures { OnOk result (run.new ≡ all_offered run.old (entries_behind behind (names_from first (groups_from held.now number group left)))) }
{
    if left == 0 {
        return Ok(());
    }
    let slots = slots_in(held, number, group);
    let next = offer_slots(alloc, run, behind, slots, first)?;
    offer_groups(alloc, run, behind, held, number, group + 1, left - 1, next)
}

// Offers the names in slots, of which the first has the cookie `first`, where they stand behind a cookie. Gives the
// cookie of the slot behind them.
fn offer_slots(
    alloc: Global,
    run: &mut Run,
    behind: u32,
    slots: &[Slot],
    first: u32,
) -> Result<u32, NoMemory>
    ensures offered { OnOk result (run.new ≡ all_offered run.old (entries_behind behind (names_from first slots.now))) }
    ensures next { IfOk result (λ cookie. cookie ≡ cookie_behind first slots.now) }
{
    let mut cookie = first;
    for slot in slots {
        if slot.is_in_use() {
            run.offer_behind(alloc, behind, slot.number, slot.name.as_slice(), cookie)?;
        }
        cookie = cookie.saturating_add(1);
    }
    Ok(cookie)
}
