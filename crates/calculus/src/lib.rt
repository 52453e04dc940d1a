// The polyadic π-calculus. Its rules are the definitions in specs/; a function here does nothing when it is called: its
// contract is a theorem about them, and the prover has checked it.
#![tactic(auto)]

ghost use Rattle.std.specs.Prelude.{◌≡◌, ℕ, true, false, List, ◌++◌, Some, Option};
ghost use Rattle.calculus.specs.Trees.{Process, output, input, choice, restriction, replication, write};
ghost use Rattle.calculus.specs.Names.{rename, raise, lower, exchange, free, lowered};
ghost use Rattle.calculus.specs.Laws.{Law};
ghost use Rattle.calculus.specs.Congruence.{Congruent};
ghost use Rattle.calculus.specs.Reduction.{Reduces, InReductions};
ghost use Rattle.calculus.specs.Contexts.{Context, fill, before, after, place, active};
ghost use Rattle.calculus.specs.Steps.{forth, back, Label, law_at, communication_at, Step, Steps, communications};
ghost use Rattle.calculus.specs.Offers.{sending, receiving, offers};
ghost use Rattle.calculus.specs.Sorts.{Sorting, respects};
ghost use Rattle.calculus.specs.Playing.{played, played_all};
ghost use Rattle.calculus.specs.Examples.{two_senders, first_sent, second_sent};

// A list of single steps with k communications reduces its first term to its last in k reductions.
pub fn steps_give_reductions()
    ensures { (labels : List Label) (p q : Process) → Steps labels p q → InReductions (communications labels) p q }
{}

// What reduces in k reductions is reached by some list of single steps with k communications.
pub fn reductions_have_steps()
    ensures { (k : ℕ) (p q : Process) → InReductions k p q → (labels : List Label) × Steps labels p q × (communications labels ≡ k) }
{}

// A label plays exactly the single step that it names, so a term and a label have at most one result; lists likewise.
pub fn labels_decide_steps()
    ensures step { (label : Label) (p q : Process) → (Step label p q → played label p ≡ Some q) × (played label p ≡ Some q → Step label p q) }
    ensures steps { (labels : List Label) (p q : Process) → (Steps labels p q → played_all labels p ≡ Some q) × (played_all labels p ≡ Some q → Steps labels p q) }
{}

// Lowering undoes raising; raising undoes lowering where the pointer that is dropped is not free, as after raising it
// never is; exchanging twice changes nothing. At every depth.
pub fn renamings_undo_each_other()
    ensures raised { (depth : ℕ) (p : Process) → rename lower depth (rename raise depth p) ≡ p }
    ensures lowered { (depth : ℕ) (p : Process) → free depth p ≡ false → rename raise depth (rename lower depth p) ≡ p }
    ensures unused { (depth : ℕ) (p : Process) → free depth (rename raise depth p) ≡ false }
    ensures exchanged { (depth : ℕ) (p : Process) → rename exchange depth (rename exchange depth p) ≡ p }
{}

// Each law's two directions undo each other: after a step by a law, the same law read the other way at the same place
// leads to where the step began. Back from the restriction of nothing it is told the sort.
pub fn laws_undo_themselves()
    ensures forth { (law : Law) (at : ℕ) (p q : Process) → Step (law_at law forth at) p q → (lost : Option ℕ) × (played (law_at law (back lost) at) q ≡ Some p) }
    ensures back { (law : Law) (lost : Option ℕ) (at : ℕ) (p q : Process) → Step (law_at law (back lost) at) q p → played (law_at law forth at) p ≡ Some q }
{}

// What respects a sorting under a list of name sorts does so after every single step, every list of steps, every
// reduction and any number of them; and of two congruent processes both do or neither.
pub fn sorts_are_preserved()
    ensures step { (sorting : Sorting) (names : List ℕ) (label : Label) (p q : Process) → Step label p q → respects sorting names p ≡ true → respects sorting names q ≡ true }
    ensures steps { (sorting : Sorting) (names : List ℕ) (labels : List Label) (p q : Process) → Steps labels p q → respects sorting names p ≡ true → respects sorting names q ≡ true }
    ensures congruence { (sorting : Sorting) (names : List ℕ) (p q : Process) → Congruent p q → respects sorting names p ≡ respects sorting names q }
    ensures reduction { (sorting : Sorting) (names : List ℕ) (p q : Process) → Reduces p q → respects sorting names p ≡ true → respects sorting names q ≡ true }
    ensures reductions { (sorting : Sorting) (names : List ℕ) (k : ℕ) (p q : Process) → InReductions k p q → respects sorting names p ≡ true → respects sorting names q ≡ true }
{}

// No two processes have one writing, and no writing is the start of another.
pub fn writing_is_prefix_free()
    ensures injective { (p q : Process) → write p ≡ write q → p ≡ q }
    ensures prefix_free { (p q : Process) (r s : List ℕ) → write p ++ r ≡ write q ++ s → (p ≡ q) × (r ≡ s) }
{}

// A node's own writing stands between what is before it and what is after it, and a place belongs to one node only.
pub fn places_belong_to_nodes()
    ensures around { (c : Context) (p : Process) → write (fill c p) ≡ before c ++ (write p ++ after c) }
    ensures one { (c d : Context) (p q : Process) → fill c p ≡ fill d q → place c ≡ place d → (c ≡ d) × (p ≡ q) }
{}

// A restriction over a name that is not used is congruent to its body.
pub fn unused_restriction_vanishes()
    ensures { (sort : ℕ) (p : Process) → free 0 p ≡ false → Congruent (restriction sort p) (lowered p) }
{}

// Two senders and one receiver on a channel: either object arrives, in one reduction, and the two ends are not congruent.
pub fn two_senders_end_two_ways()
    ensures first { InReductions 1 two_senders first_sent }
    ensures second { InReductions 1 two_senders second_sent }
    ensures apart { Congruent first_sent second_sent → ⊥ }
{}

// A communication is a step at an active place only: never below a prefix, in an arm of a choice, or below a replication.
pub fn communication_wants_an_active_place()
    ensures active { (c : Context) (p q : Process) → Step (communication_at (place c)) (fill c p) q → active c ≡ true }
    ensures output { (subject : ℕ) (objects : List ℕ) (p q : Process) (at : ℕ) → Step (communication_at at) (output subject objects p) q → ⊥ }
    ensures input { (subject count : ℕ) (p q : Process) (at : ℕ) → Step (communication_at at) (input subject count p) q → ⊥ }
    ensures choice { (p q r : Process) (at : ℕ) → Step (communication_at at) (choice p q) r → ⊥ }
    ensures replication { (p q : Process) (at : ℕ) → Step (communication_at at) (replication p) q → ⊥ }
{}

// What reduces, up to congruence too, has an output and an input that stand below no prefix; so a process that is itself
// an output or an input does not reduce.
pub fn reduction_wants_both_offers()
    ensures offers { (p q : Process) → Reduces p q → (offers sending p ≡ true) × (offers receiving p ≡ true) }
    ensures output { (subject : ℕ) (objects : List ℕ) (p q : Process) → Reduces (output subject objects p) q → ⊥ }
    ensures input { (subject count : ℕ) (p q : Process) → Reduces (input subject count p) q → ⊥ }
{}
