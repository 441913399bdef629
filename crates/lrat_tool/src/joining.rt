//! A log that is read by parts, each by a worker.

ghost use Rattle.std.specs.Prelude.{◌≡◌, ◌≤◌, ◌<◌, ◌++◌, ℕ, List, length, map, IfOk, IfErr, IfSome, vec_len, Ok, Err};
ghost use Rattle.lrat_tool.specs.Bad.{IfAt};
ghost use Rattle.lrat_tool.specs.Held.{IsHeld};
ghost use Rattle.lrat_tool.specs.Logs.{LogEntry, log_meant};
ghost use Rattle.lrat_tool.specs.Parts.{AreEven, ArePut, AreParts, EachRead, IsJoined, IsLogIn, IsLogOf, IsPut, IsReadOf, entry_at, lines_in, lines_joined};
ghost use Rattle.lrat_tool.specs.Words.{lines_of};

use super::bad_text::BadText;
use super::lines::last_line;
use super::log::{Log, end_entry, last_of, no_entries, read_log};
use super::part_log::PartLog;
use super::parts::parts_of;
use super::piece::Piece;
use gl_logic::NoMemory;
use std::alloc::{AllocError, Global};
use std::thread::{self, Threads};

/// The log of a part of a text, as if it were all.
fn read_part(alloc: Global, text: &[u8], first: u32, part: Piece) -> Result<PartLog, BadText>
    requires small { length text.now < 4294967295 }
    requires within { part.end ≤ length text.now }
    ensures { IsReadOf first (lines_in text.now part) result }
{
    let bytes = &text[part.first as usize..part.end as usize];
    let log = read_log(alloc, bytes, first)?;
    Ok(PartLog {
        log,
        lines: last_line(bytes),
    })
}

/// The logs of parts, each read by a worker.
fn read_parts<R: Threads + Sync>(
    rt: &R,
    alloc: Global,
    text: &[u8],
    first: u32,
    parts: Vec<Piece>,
) -> Result<Vec<Result<PartLog, BadText>>, AllocError>
    requires small { length text.now < 4294967295 }
    requires parts { AreParts text.now parts.items }
    ensures count { IfOk result (λ v. vec_len v ≡ vec_len parts) }
    ensures each { IfOk result (λ v. EachRead first (map (lines_in text.now) parts.items) v.items) }
{
    let each = |part: Piece| -> Result<PartLog, BadText>
        requires { (length text.now < 4294967295) × (part.end ≤ length text.now) }
        ensures { IsReadOf first (lines_in text.entry.now part) result }
    { read_part(alloc, text, first, part) };
    thread::map_vec(rt, parts, &each)
}

/// Puts an entry of another log last, so many lines later. Tells whether its number is greater than those before it.
fn put_entry(log: &mut Log, first: u32, other: &Log, k: usize, lines: u32) -> Result<bool, NoMemory>
    requires even { AreEven other.now }
    requires within { k < length other.now.ids.items }
    ensures { (es ds : List LogEntry) → IsHeld first es log.old → IsHeld first ds other.now → IfOk result (IsPut first es (entry_at ds k) lines log.new) }
{
    let id = other.ids[k];
    if id <= last_of(log.ids.as_slice(), first) {
        return Ok(false);
    }
    let Some(line) = other.lines[k].checked_add(lines) else {
        return Err(NoMemory);
    };
    log.clauses.push_all(other.clauses.at(k))?;
    log.hints.push_all(other.hints.at(k))?;
    end_entry(log, id, line, other.rats[k])?;
    Ok(true)
}

/// Puts the entries of another log last, so many lines later. Tells whether their numbers are greater than those before them.
fn put_entries(log: &mut Log, first: u32, other: &Log, lines: u32) -> Result<bool, NoMemory>
    requires { (ds : List LogEntry) × IsHeld first ds other.now }
    ensures { (es ds : List LogEntry) → IsHeld first es log.old → IsHeld first ds other.now → IfOk result (ArePut first es ds lines log.new) }
{
    for k in 0..other.ids.len() {
        if !put_entry(log, first, other, k, lines)? {
            return Ok(false);
        }
    }
    Ok(true)
}

/// Puts the log of the part that follows behind that of the parts before. Tells whether all numbers rise.
fn append(whole: &mut PartLog, first: u32, next: &PartLog) -> Result<bool, NoMemory>
    requires { (ms : List (List ℕ)) × IsLogOf first ms next.now }
    ensures { (ls ms : List (List ℕ)) → IsLogOf first ls whole.old → IsLogOf first ms next.now → IfOk result (IsJoined first (ls ++ ms) whole.new) }
{
    if !put_entries(&mut whole.log, first, &next.log, whole.lines)? {
        return Ok(false);
    }
    let Some(lines) = whole.lines.checked_add(next.lines) else {
        return Err(NoMemory);
    };
    whole.lines = lines;
    Ok(true)
}

/// The log of all parts, where each was read and all numbers rise. A part is dropped when its entries stand behind those before.
fn joined(alloc: Global, first: u32, reads: Vec<Result<PartLog, BadText>>) -> Option<Log>
    requires { (parts : List (List (List ℕ))) × (length parts ≡ length reads.items) × EachRead first parts reads.items }
    ensures { (parts : List (List (List ℕ))) → length parts ≡ length reads.items → EachRead first parts reads.items → IfSome result (IsLogIn first (lines_joined parts)) }
{
    let mut reads = reads;
    let Ok(log) = no_entries(alloc) else {
        return None;
    };
    let mut whole = PartLog { log, lines: 0 };
    while let Some(read) = reads.pop() {
        let Ok(part) = read else {
            return None;
        };
        let Ok(true) = append(&mut whole, first, &part) else {
            return None;
        };
    }
    Some(whole.log)
}

/// The entries of a log behind so many first clauses, where each of its parts has its form, all numbers rise, and memory suffices.
fn read_by_parts<R: Threads + Sync>(
    rt: &R,
    alloc: Global,
    text: &[u8],
    first: u32,
    workers: u32,
) -> Option<Log>
    requires small { length text.now < 4294967295 }
    requires one { 1 ≤ workers }
    ensures { IfSome result (IsLogIn first (lines_of text.now)) }
{
    let Ok(parts) = parts_of(alloc, text, workers) else {
        return None;
    };
    let Ok(reads) = read_parts(rt, alloc, text, first, parts) else {
        return None;
    };
    joined(alloc, first, reads)
}

/// The entries of a log behind so many first clauses, of which each worker reads a part. Where this tells of no log, one worker
/// reads all of it: so the first line that is bad is told whatever the parts.
pub(crate) fn read_log_by<R: Threads + Sync>(
    rt: &R,
    alloc: Global,
    text: &[u8],
    first: u32,
    workers: u32,
) -> Result<Log, BadText>
    requires small { length text.now < 4294967295 }
    requires one { 1 ≤ workers }
    ensures ok { IfOk result (λ log. (es : List LogEntry) × (log_meant first text.now ≡ Ok es) × IsHeld first es log) }
    ensures bad { IfErr result (IfAt (λ n. log_meant first text.now ≡ Err n)) }
{
    if workers > 1 {
        if let Some(log) = read_by_parts(rt, alloc, text, first, workers) {
            return Ok(log);
        }
    }
    read_log(alloc, text, first)
}
