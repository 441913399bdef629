//! Whether hints show a clause.

ghost use Rattle.std.specs.Prelude.{◌≡◌, ◌≤◌, ◌<◌, ◌^◌, [], length, All, ℤ, IfOk, OnOk};
ghost use Rattle.std.specs.List.{list_any};
ghost use Rattle.cnf_rup.specs.Shown.{first_unshown, is_among, is_tautology, negated, stop, turn_at, turn_of};
ghost use Rattle.cnf_rup.specs.Marked.{AreWithin, IsOpenUnit};
ghost use Rattle.cnf_rup.specs.Books.{clauses_of};

use super::clause::Entry;
use super::clause_status::ClauseStatus;
use super::trail::Trail;
use gl_logic::NoMemory;

/// Takes the literals of a clause as false, in a trail without a literal.
pub fn take_as_false(trail: &mut Trail, clause: &[i32]) -> Result<(), NoMemory>
    requires none { trail.old.literals ≡ [] }
    requires within { AreWithin trail.old.room clause.now }
    requires unset { trail.old.unset ≤ trail.old.room }
    requires small { trail.old.room < 2 ^ 32 }
    ensures literals { OnOk result (trail.new.literals ≡ negated clause.now) }
    ensures room { trail.new.room ≡ trail.old.room }
    ensures unset { trail.new.unset ≤ trail.new.room }
{
    for literal in clause {
        trail.set(-*literal)?;
    }
    Ok(())
}

/// Whether one of the literals is true.
pub fn is_one_true(trail: &Trail, clause: &[i32]) -> bool
    requires { AreWithin trail.now.room clause.now }
    ensures { result ≡ list_any (is_among trail.now.literals) clause.now }
{
    for literal in clause {
        if trail.is_true(*literal) {
            return true;
        }
    }
    false
}

/// What a clause is where the literals of the trail are true.
pub fn turn(trail: &Trail, clause: &[i32]) -> ClauseStatus
    requires within { AreWithin trail.now.room clause.now }
    requires small { trail.now.room < 2 ^ 32 }
    ensures turn { result ≡ turn_of trail.now.literals clause.now }
    ensures unit { (l : ℤ) → result ≡ ClauseStatus.Unit l → IsOpenUnit trail.now.room trail.now.literals l }
{
    let mut free = None;
    for literal in clause {
        if trail.is_false(*literal) {
            continue;
        }
        if trail.is_true(*literal) {
            return ClauseStatus::Neither;
        }
        match free {
            Some(other) if other != *literal => return ClauseStatus::Neither,
            _ => free = Some(*literal),
        }
    }
    match free {
        Some(literal) => ClauseStatus::Unit(literal),
        None => ClauseStatus::Conflict,
    }
}

/// What the clause that a hint names is.
fn turn_at_hint(trail: &Trail, entries: &[Entry], hint: u32) -> ClauseStatus
    requires some { 0 < hint }
    requires within { All (λ e. AreWithin trail.now.room e.clause) entries.now }
    requires small { trail.now.room < 2 ^ 32 }
    ensures turn { result ≡ turn_at (clauses_of entries.now) trail.now.literals hint }
    ensures unit { (l : ℤ) → result ≡ ClauseStatus.Unit l → IsOpenUnit trail.now.room trail.now.literals l }
{
    match entries.get(hint as usize - 1) {
        None => ClauseStatus::Neither,
        Some(entry) => turn(trail, entry.clause.as_slice()),
    }
}

/// Where the hints come to a conflict, none; else the place where they stop.
fn follow(trail: &mut Trail, entries: &[Entry], hints: &[u32]) -> Result<Option<u32>, NoMemory>
    requires hints { All (λ h. 0 < h) hints.now }
    requires within { All (λ e. AreWithin trail.old.room e.clause) entries.now }
    requires unset { trail.old.unset ≤ trail.old.room }
    requires small { trail.old.room < 2 ^ 32 }
    ensures stop { IfOk result (λ r. r ≡ stop (clauses_of entries.now) trail.old.literals 0 hints.now) }
    ensures room { trail.new.room ≡ trail.old.room }
{
    let mut place = 0;
    for hint in hints {
        match turn_at_hint(trail, entries, *hint) {
            ClauseStatus::Conflict => return Ok(None),
            ClauseStatus::Unit(literal) => trail.set(literal)?,
            ClauseStatus::Neither => return Ok(Some(place)),
        }
        place += 1;
    }
    Ok(Some(place))
}

/// None where the hints show the clause; else the place of the first hint that names no clause or is not unit at its turn,
/// or the count of hints. The time is in proportion to the literals of the clause and of the clauses that the hints name.
pub fn check(
    trail: &mut Trail,
    entries: &[Entry],
    clause: &[i32],
    hints: &[u32],
) -> Result<Option<u32>, NoMemory>
    requires clause { AreWithin trail.old.room clause.now }
    requires hints { All (λ h. 0 < h) hints.now }
    requires within { All (λ e. AreWithin trail.old.room e.clause) entries.now }
    ensures unshown { IfOk result (λ r. r ≡ first_unshown (clauses_of entries.now) clause.now hints.now) }
    ensures room { trail.new.room ≡ trail.old.room }
{
    trail.clear();
    take_as_false(trail, clause)?;
    if is_one_true(trail, clause) {
        return Ok(None);
    }
    follow(trail, entries, hints)
}
