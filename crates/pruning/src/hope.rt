// Is there hope for a state of the search? A shorter search over the committed places alone: one that may be aborted is passed over
// where its reads are legal, since an aborted place leaves the registers as they are. The answer false is certain: nothing completes
// the state.
ghost use Rattle.std.specs.Prelude.{◌≡◌, true, false, cond, ◌-◌, ◌^◌, ◌<◌};
ghost use Rattle.std.proofs.Math.Option.{none};
ghost use Rattle.std.specs.Int.Bits.{bit_and};
ghost use Rattle.lists.specs.Bits.{bit_at};
ghost use Rattle.places.specs.Facts.{end_row, after_of};
ghost use Rattle.places.specs.State.{placed_of, Sound, Placeable, Keeps};
ghost use Rattle.places.specs.Told.{told};
ghost use Rattle.places.specs.Tree.{legal_reads};
ghost use Rattle.places.specs.Choice.{among};
ghost use Rattle.pruning.specs.Runs.{Hope, HopeBy, Ready, Renewed, Stays, Orphaned, other_than, StillNeeded};

use crate::effects::{HELPED, orphaned};
use crate::tree::Tree;
use places::facts::{ABORTED, AFTER, ALLOWED, COMMITTED, END, Facts};
use places::lookup::Constraints;
use places::sets;
use places::state::{Search, code_at};

// Fewer unplaced than this are searched without asking.
pub const FEW: usize = 5;

// A set of the lowest four is below this, and needs no counting.
const LOWEST_FOUR: u64 = 16;

// The effect of one that overwrites all registers.
const OVERWRITES_ALL: u64 = 4294967295;

// The set, and t in it only if it passes.
fn kept(set: u64, t: usize, passes: bool) -> u64
    requires { bit_at t set ≡ 1 }
    ensures { result ≡ cond passes set (set - 2 ^ t) }
{
    if passes {
        return set;
    }
    sets::without(set, t)
}

// The unplaced whose store reads are legal after the places filled.
fn ready_among(constraints: &Constraints, s: Search) -> u64
    requires { Sound s }
    ensures { Ready (told constraints.now) s result }
{
    let mut ready = s.unplaced;
    for t in sets::members(s.unplaced) {
        ready = kept(ready, t, constraints.legal_reads(s, t));
    }
    ready
}

// May t be ready, now that a commit with this effect on it is the last place of s? It may if it was before, unless a read of it is
// spoilt; if it was not, it may be only where something that it reads was written.
fn still_ready(constraints: &Constraints, s: Search, ready: u64, t: usize, effect: u64) -> bool
    requires sound { Sound s }
    requires t_bound { t < 10 }
    ensures { Stays (legal_reads (told constraints.now) (placed_of s) t) ready t effect → result ≡ true }
{
    if effect % HELPED != 0 {
        return false;
    }
    if sets::has(ready, t) {
        return true;
    }
    if effect == 0 {
        return false;
    }
    constraints.legal_reads(s, t)
}

// May t come next with another outcome than this, where no one counts but those that are needed?
fn other_than(facts: &[Facts; 11], need: u64, t: usize, outcome: u64) -> bool
    requires { t < 10 }
    ensures { result ≡ other_than facts.now need t outcome }
{
    if facts[t][AFTER] & need != 0 {
        return false;
    }
    facts[t][ALLOWED] != outcome
}

// What is needed still when each that is ready and may be aborted has been passed over.
fn still_needed(facts: &[Facts; 11], need: u64, ready: u64) -> u64
    requires { ready < 1024 }
    ensures { StillNeeded facts.now ready need result }
{
    for t in sets::members(need & ready) {
        if other_than(facts, need, t, COMMITTED) {
            return still_needed(facts, sets::without(need, t), ready);
        }
    }
    need
}

// Is there one of these that needs a value which is not there, and which nobody unplaced could write?
pub fn stranded(constraints: &Constraints, s: Search, need: u64) -> bool
    requires sound { Sound s }
    requires need_bound { need < 1024 }
    ensures { result ≡ true → Orphaned (told constraints.now) s need }
{
    orphaned(constraints, &[OVERWRITES_ALL; 10], s, need)
}

// Those of a set that must come before the end.
pub fn before_end(facts: &[Facts; 11], set: u64) -> u64
    ensures { result ≡ bit_and set (after_of facts.now end_row) }
{
    set & facts[END][AFTER]
}

impl<'a> Tree<'a> {
    // The unplaced whose store reads may be legal after the places filled, from those before the last, which is x committed.
    fn ready_after(&self, s: Search, x: usize, ready: u64) -> u64
        requires sound { Sound s }
        requires x_bound { x < 10 }
        ensures { Keeps (Renewed (legal_reads (told self.now.constraints)) (placed_of s) x ready) s.unplaced result }
    {
        let effects = &self.effects[x];
        let mut after = s.unplaced;
        for t in sets::members(s.unplaced) {
            let passes = still_ready(&self.constraints, s, ready, t, effects[t]);
            after = kept(after, t, passes);
        }
        after
    }

    // Can all that are needed be placed after the places of s, with commits of the unplaced in between?
    #[cycle(leads_possible)]
    fn possible(&self, s: Search, need: u64, ready: u64) -> bool
        requires sound { Sound s }
        requires ready { Ready (told self.now.constraints) s ready }
        ensures { Hope (told self.now.constraints) s need result }
    {
        let rest = still_needed(self.constraints.facts, need, ready);
        if rest == 0 {
            return true;
        }
        for t in sets::members(ready) {
            if self.leads(s, rest, ready, t) {
                return true;
            }
        }
        false
    }

    // Can they, if t commits next?
    #[cycle(leads_possible)]
    fn leads(&self, s: Search, need: u64, ready: u64, t: usize) -> bool
        requires placeable { Placeable s t }
        requires ready { Ready (told self.now.constraints) s ready }
        ensures { HopeBy (told self.now.constraints) s need t result }
    {
        if !other_than(self.constraints.facts, need, t, ABORTED) {
            return false;
        }
        let next = s.place(t, COMMITTED);
        let rest = need & next.unplaced;
        if orphaned(&self.constraints, &self.effects[t], next, rest) {
            return false;
        }
        let after = self.ready_after(next, t, ready);
        self.possible(next, rest, after)
    }

    // Is there one stranded now, by the last place? A commit has overwritten what it has, one that could have committed leaves others
    // without its writes, and any other place takes nothing away. Who is stranded before any place is filled has been asked already.
    fn bereft(&self, s: Search, need: u64) -> bool
        requires sound { Sound s }
        requires need_bound { need < 1024 }
        ensures { result ≡ true → Orphaned (told self.now.constraints) s need }
    {
        if s.filled == 0 {
            return false;
        }
        let last = code_at(s.placed, 0);
        let x = last / 2;
        if last % 2 == 1 {
            return orphaned(&self.constraints, &self.effects[x], s, need);
        }
        if self.constraints.facts[x][ALLOWED] == ABORTED {
            return false;
        }
        stranded(&self.constraints, s, need)
    }

    // Is there hope? It is asked once for a state, before its first candidate is tried, and only where there is much to try.
    pub fn hopeful(&self, s: Search, candidates: u64) -> bool
        requires { Sound s }
        ensures { result ≡ false → among (told self.now.constraints) s candidates ≡ none }
    {
        if candidates < LOWEST_FOUR {
            return true;
        }
        if candidates != s.unplaced {
            return true;
        }
        if sets::count(candidates) < FEW {
            return true;
        }
        let facts = self.constraints.facts;
        let ready = ready_among(&self.constraints, s);
        let unready = before_end(facts, s.unplaced ^ ready);
        if self.bereft(s, unready) {
            return false;
        }
        let need = before_end(facts, candidates);
        self.possible(s, need, ready)
    }
}
