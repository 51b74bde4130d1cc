// The lowest completion: a search over the orders and outcomes of at most ten transactions. `places` has the places filled and what
// they leave in a register, `pruning` the test that leaves a state which nothing completes, and here transactions and outcomes are chosen.
#![tactic(auto)]

ghost use Rattle.std.specs.Prelude.{◌≡◌, false, ◌≤◌, ◌<◌};
ghost use Rattle.lists.specs.Bits.{bit_at, members};
ghost use Rattle.places.specs.State.{placed_of, whole, Sound, Placeable, Within};
ghost use Rattle.places.specs.Told.{told};
ghost use Rattle.places.specs.Tree.{constraints, allows_outcome, rule_next, ends_at, first_completion, Answered};
ghost use Rattle.places.specs.Choice.{among, from};

use places::facts::{ABORTED, AFTER, ALLOWED, COMMITTED, EITHER, END, Facts, NONE};
use places::lookup::Constraints;
use places::sets;
use places::state::Search;
use pruning::effects::{HELPED, effects_among, registers_written};
use pruning::hope::{FEW, before_end, stranded};
use pruning::tree::Tree;
use pruning::unwritten::registers_asked;

// The rule by which t may come next: none while one that ended before it began has no place, or if a store read of it is not legal.
fn rule_next(constraints: &Constraints, s: Search, t: usize) -> u64
    requires sound { Sound s }
    requires t_bound { t < 10 }
    ensures { result ≡ rule_next (told constraints.now) (placed_of s) (members s.unplaced) t }
{
    if constraints.facts[t][AFTER] & s.unplaced != 0 {
        return NONE;
    }
    if !constraints.legal_reads(s, t) {
        return NONE;
    }
    constraints.facts[t][ALLOWED]
}

// Does a rule allow the outcome?
fn allows(rule: u64, outcome: u64) -> bool
    ensures { result ≡ allows_outcome rule outcome }
{
    if rule == outcome {
        return true;
    }
    rule == EITHER
}

// May an order end with the places filled: not while there is something still to be placed, which the ones of those unplaced that must come
// before the end count, or if a store read of the end is not legal.
fn ends(constraints: &Constraints, s: Search) -> bool
    requires { Sound s }
    ensures { result ≡ ends_at (told constraints.now) (placed_of s) (members s.unplaced) }
{
    if sets::count(constraints.facts[END][AFTER] & s.unplaced) != 0 {
        return false;
    }
    constraints.legal_reads(s, END)
}

// The first completion of the places filled: these alone if an order may end with them, and else one whose next transaction is one of the
// candidates, lowest first. The answer has its places as a state has them.
#[cycle(choose_outcome_choose_transaction)]
fn choose_transaction(tree: &Tree, s: Search, candidates: u64) -> Option<u64>
    requires sound { Sound s }
    requires within { Within s.unplaced candidates }
    ensures { Answered (whole s) result (among (told tree.now.constraints) s candidates) }
{
    if ends(&tree.constraints, s) {
        return Some(s.placed);
    }
    if candidates == 0 {
        return None;
    }
    if !tree.hopeful(s, candidates) {
        return None;
    }
    choose_outcome(tree, s, candidates, sets::lowest(candidates))
}

// The first completion whose next transaction is t, aborted first, or else one of the other candidates.
#[cycle(choose_outcome_choose_transaction)]
fn choose_outcome(tree: &Tree, s: Search, candidates: u64, t: usize) -> Option<u64>
    requires placeable { Placeable s t }
    requires within { Within s.unplaced candidates }
    requires candidates_value { bit_at t candidates ≡ 1 }
    requires unplaced_value { ends_at (told tree.now.constraints) (placed_of s) (members s.unplaced) ≡ false }
    ensures { Answered (whole s) result (from (told tree.now.constraints) s candidates t) }
{
    let rule = rule_next(&tree.constraints, s, t);
    if allows(rule, ABORTED) {
        let next = s.place(t, ABORTED);
        if let Some(order) = choose_transaction(tree, next, next.unplaced) {
            return Some(order);
        }
    }
    if allows(rule, COMMITTED) {
        let next = s.place(t, COMMITTED);
        if let Some(order) = choose_transaction(tree, next, next.unplaced) {
            return Some(order);
        }
    }
    let rest = sets::without(candidates, t);
    if rest == 0 {
        return None;
    }
    choose_transaction(tree, s, rest)
}

// The lowest completion of n transactions, from nothing placed.
pub fn find(starts: &[u32; 32], facts: &[Facts; 11], n: usize) -> Option<u64>
    requires { n ≤ 10 }
    ensures { Answered n result (first_completion (constraints starts.now facts.now) n) }
{
    let s = Search {
        unplaced: sets::bit(n) - 1,
        filled: 0,
        placed: 1,
    };
    let all = Constraints::new(starts, facts);
    if n < FEW {
        let tree = Tree {
            constraints: all,
            effects: &[[HELPED; 10]; 10],
        };
        return choose_transaction(&tree, s, s.unplaced);
    }
    if stranded(&all, s, before_end(facts, s.unplaced)) {
        return None;
    }
    let writes = registers_written(facts);
    let asked = registers_asked(starts, facts, &writes);
    let constraints = Constraints {
        starts,
        facts,
        asked,
    };
    let effects = effects_among(&constraints, &writes);
    let tree = Tree {
        constraints,
        effects: &effects,
    };
    choose_transaction(&tree, s, s.unplaced)
}
