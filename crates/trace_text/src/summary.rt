ghost use Rattle.std.specs.Prelude.{◌≡◌, ℕ, [], ◌∷◌, ◌||◌, ◌==◌, ◌++◌, is_some, IfOk, OnOk};
ghost use Rattle.std.specs.List.{list_any};
ghost use Rattle.std.specs.FinMap.{get, len};
ghost use Rattle.trace_text.specs.Summary.{is_call, is_inner, is_done, is_refused, lacks_memory, callers_of, AreCounts, count_text, calls_text, rest_text, summary_text};

use call_model::{Entry, Reply};
use finite_maps::NumberMap;
use script_text::put_number;
use std::alloc::{AllocError, Global};
use vfs_tree::{Errno, World};

/// How many entries of each sort there are, and who has called.
#[derive(Debug, Drop)]
struct Counts {
    calls: usize,
    callers: NumberMap<()>,
    done: usize,
    refused: usize,
    no_memory: usize,
    inner: usize,
}

fn tests_call(entry: &Entry) -> bool
    ensures { result ≡ is_call entry.now }
{
    match entry {
        Entry::Call { .. } => true,
        Entry::Inner { .. } => false,
    }
}

fn tests_done(entry: &Entry) -> bool
    ensures { result ≡ is_done entry.now }
{
    match entry {
        Entry::Call { reply, .. } => !matches!(reply, Reply::Fail { .. }),
        Entry::Inner { .. } => false,
    }
}

fn tests_refused(entry: &Entry) -> bool
    ensures { result ≡ is_refused entry.now }
{
    match entry {
        Entry::Call {
            reply: Reply::Fail { errno },
            ..
        } => *errno != Errno::ENOMEM,
        _ => false,
    }
}

fn tests_lack(entry: &Entry) -> bool
    ensures { result ≡ lacks_memory entry.now }
{
    match entry {
        Entry::Call {
            reply: Reply::Fail { errno },
            ..
        } => *errno == Errno::ENOMEM,
        _ => false,
    }
}

fn tests_inner(entry: &Entry) -> bool
    ensures { result ≡ is_inner entry.now }
{
    match entry {
        Entry::Call { .. } => false,
        Entry::Inner { .. } => true,
    }
}

fn add_caller(callers: &mut NumberMap<()>, entry: &Entry) -> Result<(), AllocError>
    ensures { OnOk result ((caller : ℕ) → is_some (get callers.new caller) ≡ (is_some (get callers.old caller) || list_any (λ c. caller == c) (callers_of (entry.now ∷ [])))) }
{
    if let Entry::Call { caller, .. } = entry {
        callers.insert(*caller, ())?;
    }
    Ok(())
}

fn counts_of(alloc: Global, entries: &[Entry]) -> Result<Counts, AllocError>
    ensures { IfOk result (λ counts. AreCounts counts entries.now) }
{
    let mut counts = Counts {
        calls: 0,
        callers: NumberMap::new(alloc),
        done: 0,
        refused: 0,
        no_memory: 0,
        inner: 0,
    };
    for entry in entries {
        add_caller(&mut counts.callers, entry)?;
        counts.calls += usize::from(tests_call(entry));
        counts.done += usize::from(tests_done(entry));
        counts.refused += usize::from(tests_refused(entry));
        counts.no_memory += usize::from(tests_lack(entry));
        counts.inner += usize::from(tests_inner(entry));
    }
    Ok(counts)
}

#[tactic(auto, unfolding(crate::specs::Summary::count_text))]
fn put_count(out: &mut Vec<u8>, what: &[u8], n: usize) -> Result<(), AllocError>
    ensures { OnOk result (out.new.items ≡ out.old.items ++ count_text what.now n) }
{
    out.extend_from_slice(what)?;
    out.push(b' ')?;
    put_number(out, n as u64)?;
    out.extend_from_slice(b"\n")
}

fn put_calls(out: &mut Vec<u8>, counts: &Counts) -> Result<(), AllocError>
    ensures { OnOk result (out.new.items ≡ out.old.items ++ calls_text counts.now.calls (len counts.now.callers) counts.now.done counts.now.refused counts.now.no_memory) }
{
    put_count(out, b"calls", counts.calls)?;
    put_count(out, b"callers", counts.callers.len())?;
    put_count(out, b"ok", counts.done)?;
    put_count(out, b"error", counts.refused)?;
    put_count(out, b"nomemory", counts.no_memory)
}

fn put_rest(
    out: &mut Vec<u8>,
    inner: usize,
    entries: usize,
    mounts: usize,
) -> Result<(), AllocError>
    ensures { OnOk result (out.new.items ≡ out.old.items ++ rest_text inner entries mounts) }
{
    put_count(out, b"inner", inner)?;
    put_count(out, b"entries", entries)?;
    put_count(out, b"mounts", mounts)?;
    out.extend_from_slice(b"end\n")
}

/// Appends the summary. The only fault is want of memory.
pub fn put_summary(
    alloc: Global,
    out: &mut Vec<u8>,
    entries: &[Entry],
    world: &World,
) -> Result<(), AllocError>
    ensures { OnOk result (out.new.items ≡ out.old.items ++ summary_text entries.now world.now) }
{
    let counts = counts_of(alloc, entries)?;
    put_calls(out, &counts)?;
    put_rest(out, counts.inner, entries.len(), world.mounts.len())
}
