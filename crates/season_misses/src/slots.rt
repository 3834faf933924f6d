//! Which slots.
ghost use Rattle.std.specs.Prelude.{◌≡◌, ◌≤◌, ◌++◌, [], ◌∷◌, decimal, string_bytes, IfOk, OnOk};
ghost use Rattle.std.specs.List.{flat_map};
ghost use Rattle.season_misses.specs.Phrases as phrases;

use crate::label::Label;
use crate::lists::listed;
use league::{SlotSet, slot_count};
use std::alloc::{AllocError, Global};

/// Slots in a row, by the first and the last of them.
type Run = (u16, u16);

/// Adds a slot before the runs: to the first of them, where it comes right before it.
fn push_slot(runs: &mut Vec<Run>, slot: u16) -> Result<(), AllocError>
    ensures { OnOk result (runs.new.items ≡ phrases.with_slot slot runs.old.items) }
{
    if let Some(run) = runs.first().copied() {
        if u32::from(slot) + 1 == u32::from(run.0) {
            runs[0] = (slot, run.1);
            return Ok(());
        }
    }
    runs.insert(0, (slot, slot))?;
    Ok(())
}

/// The runs of slots in a row, of ascending slots.
fn runs_of(alloc: Global, slots: &[u16]) -> Result<Vec<Run>, AllocError>
    ensures { IfOk result (λ runs. runs.items ≡ phrases.runs_of slots.now) }
{
    let mut runs = Vec::new(alloc);
    let mut left = slots.len();
    while left > 0 {
        left -= 1;
        push_slot(&mut runs, slots[left])?;
    }
    Ok(runs)
}

/// Adds a number.
fn push_number(items: &mut Vec<Label>, number: u16) -> Result<(), AllocError>
    ensures { OnOk result (items.new.items ≡ items.old.items ++ decimal number ∷ []) }
{
    let text = format!(in *items.allocator(); "{number}")?;
    items.push(Label::new(text))?;
    Ok(())
}

/// Adds a run in words: three slots or more are one item.
fn push_items(items: &mut Vec<Label>, run: Run) -> Result<(), AllocError>
    ensures { OnOk result (items.new.items ≡ items.old.items ++ phrases.run_items run) }
{
    let (first, last) = run;
    if first == last {
        return push_number(items, first);
    }
    if u32::from(first) + 1 == u32::from(last) {
        push_number(items, first)?;
        return push_number(items, last);
    }
    let text = format!(in *items.allocator(); "{first} to {last}")?;
    items.push(Label::new(text))?;
    Ok(())
}

/// The items of some runs.
fn items_of(alloc: Global, runs: &[Run]) -> Result<Vec<Label>, AllocError>
    ensures { IfOk result (λ items. items.items ≡ flat_map phrases.run_items runs.now) }
{
    let mut items = Vec::new(alloc);
    for run in runs {
        push_items(&mut items, *run)?;
    }
    Ok(items)
}

/// Slots in a row.
fn slots_list(alloc: Global, slots: &[u16]) -> Result<String, AllocError>
    ensures { IfOk result (λ text. string_bytes text ≡ phrases.slots_list slots.now) }
{
    let runs = runs_of(alloc, slots)?;
    let items = items_of(alloc, &runs)?;
    listed(alloc, "and", &items)
}

/// Some slots that aren't the whole season.
fn some_slots(alloc: Global, slots: &[u16]) -> Result<String, AllocError>
    ensures { IfOk result (λ text. string_bytes text ≡ phrases.some_slots slots.now) }
{
    match slots {
        [] => String::from_str(alloc, "no slot"),
        [slot] => format!(in alloc; "slot {slot}"),
        _ => {
            let list = slots_list(alloc, slots)?;
            format!(in alloc; "slots {list}")
        }
    }
}

/// Some slots together, of a league of n teams.
pub(crate) fn all_slots(alloc: Global, n: u16, slots: &SlotSet) -> Result<String, AllocError>
    requires { n ≤ 40 }
    ensures { IfOk result (λ text. string_bytes text ≡ phrases.all_slots n slots.now) }
{
    if slots.len() == slot_count(n) as usize {
        return String::from_str(alloc, "the whole season");
    }
    some_slots(alloc, slots.numbers())
}

/// Each of some slots, of a league of n teams.
pub(crate) fn each_slot(alloc: Global, n: u16, slots: &SlotSet) -> Result<String, AllocError>
    requires { n ≤ 40 }
    ensures { IfOk result (λ text. string_bytes text ≡ phrases.each_slot n slots.now) }
{
    if slots.len() == slot_count(n) as usize {
        return String::from_str(alloc, "each slot");
    }
    each_of_slots(alloc, slots.numbers())
}

/// Each of some slots that aren't the whole season.
fn each_of_slots(alloc: Global, slots: &[u16]) -> Result<String, AllocError>
    ensures { IfOk result (λ text. string_bytes text ≡ phrases.each_of_slots slots.now) }
{
    if slots.len() < 2 {
        return some_slots(alloc, slots);
    }
    let list = slots_list(alloc, slots)?;
    format!(in alloc; "each of the slots {list}")
}

/// So many slots in a row, in a league of n teams.
pub(crate) fn windows(alloc: Global, n: u16, intp: u32) -> Result<String, AllocError>
    requires { n ≤ 40 }
    ensures { IfOk result (λ text. string_bytes text ≡ phrases.windows_text n intp) }
{
    if u32::from(slot_count(n)) < intp {
        return format!(in alloc; " in {intp} slots in a row, more than the season has");
    }
    if intp == 1 {
        return String::from_str(alloc, " in each slot");
    }
    format!(in alloc; " in any {intp} slots in a row")
}
