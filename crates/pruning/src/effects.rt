// What the commit of a transaction does to the store reads of others, and which of them nobody can make good again.
ghost use Rattle.std.specs.Prelude.{◌≡◌, true, false, cond, List, ℕ, ◌*◌, ◌+◌, ◌^◌, ◌<◌, eqb};
ghost use Rattle.std.specs.Int.Bits.{bit_or};
ghost use Rattle.lists.specs.Bits.{bit_at};
ghost use Rattle.places.specs.Facts.{reads_asked};
ghost use Rattle.places.specs.State.{Sound, placed_of};
ghost use Rattle.places.specs.Told.{told};
ghost use Rattle.places.specs.Tree.{asking, legal_at, legal_reads};
ghost use Rattle.pruning.specs.Runs.{Effect, RowEffects, Effects, Writes, Written, NoSource, Lost, Orphan, Orphaned};

use lists::sets::with_register;
use places::facts::{ABORTED, ALLOWED, Facts, REGISTERS, REQUIRED, SEARCHED, WRITTEN};
use places::lookup::Constraints;
use places::sets;
use places::state::Search;

// What a commit does to the store reads of a transaction is one number. Below this stand the registers that it overwrites with another
// value than was read, one bit each; this itself stands in it where a value that was read is written. So 0 is nothing at all.
// Kept as one number: `Effect` of the specs states it so, and one test tells that there is nothing.
pub const HELPED: u64 = 4294967296;

// The set of registers, and r in it if a table holds something at it.
fn noted(set: u32, r: usize, entry: u64) -> u32
    requires { r < 32 }
    ensures { result ≡ cond (eqb entry 0) set (bit_or set (2 ^ r)) }
{
    if entry == 0 {
        return set;
    }
    with_register(set, r)
}

// The registers that t writes.
fn registers_of(facts: &[Facts; 11], t: usize) -> u32
    requires { t < 10 }
    ensures { Writes facts.now t result }
{
    let mut registers = 0u32;
    for r in 0..REGISTERS {
        registers = noted(registers, r, facts[t][WRITTEN + r]);
    }
    registers
}

// The registers that each transaction writes.
pub fn registers_written(facts: &[Facts; 11]) -> [u32; 10]
    ensures { Written facts.now result }
{
    let mut registers = [0u32; 10];
    for t in 0..SEARCHED {
        registers[t] = registers_of(facts, t);
    }
    registers
}

// What the commit of x does to the store read of register by t.
fn effect_at(facts: &[Facts; 11], x: usize, t: usize, register: usize) -> u64
    requires x_bound { x < 10 }
    requires t_bound { t < 10 }
    requires register_bound { register < 32 }
    ensures { Effect (λ (o p : List ℕ). legal_at o facts.now p t register) x result }
{
    let w = facts[x][WRITTEN + register];
    if w == 0 {
        return 0;
    }
    let v = facts[t][REQUIRED + register];
    if v == 0 {
        return 0;
    }
    if w == v {
        return HELPED;
    }
    sets::bit(register)
}

// What it does to the store reads of t from the registers asked about, where x writes those of `writes`.
fn effect(constraints: &Constraints, x: usize, t: usize, writes: u32) -> u64
    requires x_bound { x < 10 }
    requires t_bound { t < 10 }
    requires writes { Writes constraints.now.facts.now x writes }
    ensures { Effect
        (λ (o p : List ℕ). legal_reads (asking o constraints.now.facts.now constraints.now.asked) p t) x result }
{
    let mut done = 0u64;
    for r in sets::members(constraints.reads_asked(t) & u64::from(writes)) {
        done |= effect_at(constraints.facts, x, t, r);
    }
    done
}

// What it does to each transaction.
fn effects_of(constraints: &Constraints, x: usize, writes: u32) -> [u64; 10]
    requires x_bound { x < 10 }
    requires writes { Writes constraints.now.facts.now x writes }
    ensures { RowEffects constraints.now.facts.now constraints.now.asked x result }
{
    let mut effects = [HELPED; 10];
    for t in 0..SEARCHED {
        effects[t] = effect(constraints, x, t, writes);
    }
    effects
}

// What each commit does to each transaction: that of x to t stands in row x at t.
pub fn effects_among(constraints: &Constraints, writes: &[u32; 10]) -> [[u64; 10]; 10]
    requires { Written constraints.now.facts.now writes.now }
    ensures { Effects constraints.now.facts.now constraints.now.asked result }
{
    let mut effects = [[HELPED; 10]; 10];
    for x in 0..SEARCHED {
        effects[x] = effects_of(constraints, x, writes[x]);
    }
    effects
}

// Could w, which is not t itself, write the value to register? What it writes is asked first, since few write just that value.
fn source(facts: &[Facts; 11], w: usize, t: usize, register: usize, value: u64) -> bool
    requires w_bound { w < 10 }
    requires register_bound { register < 32 }
    ensures { result ≡ false → NoSource facts.now t register value w }
{
    if facts[w][WRITTEN + register] != value {
        return false;
    }
    if w == t {
        return false;
    }
    facts[w][ALLOWED] != ABORTED
}

// Could one of the set?
fn sourced(facts: &[Facts; 11], set: u64, t: usize, register: usize, value: u64) -> bool
    requires set_bound { set < 1024 }
    requires register_bound { register < 32 }
    ensures { result ≡ false → (k : ℕ) → bit_at k set ≡ 1 → NoSource facts.now t register value k }
{
    for w in sets::members(set) {
        if source(facts, w, t, register, value) {
            return true;
        }
    }
    false
}

// Is it before the first place, and the store read of register by t legal there?
fn legal_at_first(constraints: &Constraints, s: Search, t: usize, register: usize) -> bool
    requires sound { Sound s }
    requires t_bound { t < 10 }
    requires register_bound { register < 32 }
    ensures { result ≡ true
        → legal_at constraints.now.starts.now constraints.now.facts.now (placed_of s) t register ≡ true }
{
    if s.filled != 0 {
        return false;
    }
    constraints.legal_at(s.placed, s.filled, t, register)
}

// Is the store read of register by t not legal after the places filled, with nobody unplaced who could make it so? Once a place is
// filled, whether somebody could is asked first: a register that was just overwritten seldom holds what was read.
fn orphan_at(constraints: &Constraints, s: Search, t: usize, register: usize) -> bool
    requires sound { Sound s }
    requires t_bound { t < 10 }
    requires register_bound { register < 32 }
    ensures { result ≡ true → Lost constraints.now.starts.now constraints.now.facts.now s t register }
{
    if legal_at_first(constraints, s, t, register) {
        return false;
    }
    let value = constraints.facts[t][REQUIRED + register];
    if sourced(constraints.facts, s.unplaced, t, register, value) {
        return false;
    }
    !constraints.legal_at(s.placed, s.filled, t, register)
}

// Is one of the store reads of t? Of the registers asked about those are visited that are overwritten.
fn orphan(constraints: &Constraints, s: Search, t: usize, overwritten: u64) -> bool
    requires sound { Sound s }
    requires t_bound { t < 10 }
    ensures { result ≡ true → Orphan constraints.now.starts.now constraints.now.facts.now s t
        (reads_asked constraints.now.facts.now constraints.now.asked t) }
{
    for r in sets::members(constraints.reads_asked(t) & overwritten) {
        if orphan_at(constraints, s, t, r) {
            return true;
        }
    }
    false
}

// Is one of a transaction that is needed? Of each those registers are visited that a commit overwrites, by its effects.
pub fn orphaned(constraints: &Constraints, effects: &[u64; 10], s: Search, need: u64) -> bool
    requires sound { Sound s }
    requires need_bound { need < 1024 }
    ensures { result ≡ true → Orphaned (told constraints.now) s need }
{
    for t in sets::members(need) {
        if orphan(constraints, s, t, effects[t] % HELPED) {
            return true;
        }
    }
    false
}
