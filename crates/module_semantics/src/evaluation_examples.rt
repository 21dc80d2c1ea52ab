// Worked examples of evaluation: what the definitions give, computed.
ghost use Rattle.std.specs.Prelude.{◌≡◌, ℕ, List, [], ◌∷◌, ◌++◌, codes, pos, negsuc, replicate, true, false};
ghost use Rattle.module_tree.specs.Syntax as tree;
ghost use Rattle.module_semantics.specs.Bodies.{body_run, host_ran, host_line};
ghost use Rattle.module_semantics.specs.Modules.{module_run};
ghost use Rattle.module_semantics.specs.Examples.{alone, largest, body_alone, letters, with_module, before};
ghost use Rattle.module_semantics.specs.Examples.{after, stopped, keys, export_let, nothing, module_alone};
ghost use Rattle.module_semantics.specs.Examples.{module_with, module_stopped};
ghost use Rattle.module_semantics.specs.Evaluation.{value_of};

use crate::ModParam;
use hmr_types::{EvalFault, HandlerKind, Slot, Value};
use module_tree::Op;

/// Numbers: `*` before `-`, and nothing outside plus or minus 9007199254740991.
#[tactic(auto, unfolding(crate::specs::Values::number))]
pub fn numbers_are_whole_and_in_range()
    ensures product_first { alone
        (tree.binary Op.Sub (tree.num 2) (tree.binary Op.Mul (tree.num 3) (tree.num 4)))
        ≡ Ok (Value.Num (negsuc 9)) }
    ensures minus_zero { alone (tree.neg (tree.num 0)) ≡ Ok (Value.Num (pos 0)) }
    ensures least { alone (tree.neg largest) ≡ Ok (Value.Num (negsuc 9007199254740990)) }
    ensures below_least { alone (tree.binary Op.Sub (tree.neg largest) (tree.num 1)) ≡ Err EvalFault.Range }
    ensures above_largest { alone (tree.binary Op.Add largest (tree.num 1)) ≡ Err EvalFault.Range }
    ensures product_above { alone (tree.binary Op.Mul largest largest) ≡ Err EvalFault.Range }
{}

/// Texts: `+` joins where one side is a text, and nothing else takes one.
#[tactic(auto, unfolding(crate::specs::Values::number, crate::specs::Values::text))]
pub fn texts_are_joined()
    ensures text_and_number { alone (tree.binary Op.Add (tree.text (codes "a")) (tree.num 1))
        ≡ Ok (Value.Str (codes "a1")) }
    ensures number_and_text { alone (tree.binary Op.Add (tree.neg (tree.num 7)) (tree.text (codes "a")))
        ≡ Ok (Value.Str (codes "-7a")) }
    ensures two_digits { alone (tree.binary Op.Add (tree.text (codes "1")) (tree.text (codes "2")))
        ≡ Ok (Value.Str (codes "12")) }
    ensures undefined_and_text { alone (tree.binary Op.Add tree.undefined (tree.text (codes "!")))
        ≡ Ok (Value.Str (codes "undefined!")) }
    ensures no_difference { alone (tree.binary Op.Sub (tree.text (codes "a")) (tree.num 1))
        ≡ Err EvalFault.NotNumber }
    ensures no_sum_with_undefined { alone (tree.binary Op.Add (tree.num 1) tree.undefined)
        ≡ Err EvalFault.NotNumber }
    ensures longest { alone (letters 4096) ≡ Ok (Value.Str (replicate 4096 97)) }
    ensures too_long { alone (letters 4097) ≡ Err EvalFault.Range }
    ensures too_long_together { alone (tree.binary Op.Add (letters 4096) (letters 1)) ≡ Err EvalFault.Range }
{}

/// What is evaluated of `??` and of a choice, and what counts as false.
#[tactic(auto, unfolding(crate::specs::Values::number, crate::specs::Values::text, crate::specs::Entries::entry_at))]
pub fn only_what_is_wanted_is_evaluated()
    ensures right_of_undefined { alone (tree.binary Op.Null tree.undefined (tree.num 5))
        ≡ Ok (Value.Num (pos 5)) }
    ensures left_where_it_is_there { alone (tree.binary Op.Null (tree.num 0) (tree.neg (tree.text [])))
        ≡ Ok (Value.Num (pos 0)) }
    ensures right_faults { alone (tree.binary Op.Null tree.undefined (tree.neg (tree.text [])))
        ≡ Err EvalFault.NotNumber }
    ensures both_sides_of_a_product { alone (tree.binary Op.Mul (tree.text []) (tree.name (codes "x")))
        ≡ Err (EvalFault.Uninitialised (codes "x")) }
    ensures left_fault_first { alone (tree.binary Op.Sub (tree.name (codes "x")) (tree.name (codes "y")))
        ≡ Err (EvalFault.Uninitialised (codes "x")) }
    ensures empty_text_is_false { alone (tree.choose (tree.text []) (tree.num 1) (tree.num 2))
        ≡ Ok (Value.Num (pos 2)) }
    ensures zero_is_false { alone (tree.choose (tree.num 0) (tree.num 1) (tree.num 2))
        ≡ Ok (Value.Num (pos 2)) }
    ensures undefined_is_false { alone (tree.choose tree.undefined (tree.num 1) (tree.num 2))
        ≡ Ok (Value.Num (pos 2)) }
    ensures minus_one_is_true { alone (tree.choose (tree.neg (tree.num 1)) (tree.num 1) (tree.num 2))
        ≡ Ok (Value.Num (pos 1)) }
    ensures other_part_is_passed_over { alone
        (tree.choose (tree.text (codes "0")) (tree.num 1) (tree.name (codes "x")))
        ≡ Ok (Value.Num (pos 1)) }
{}

/// A key that the bag lacks is `undefined`; of a module given as a parameter an export that it lacks
/// is, and one that has no value yet is a fault of that name.
#[tactic(auto, unfolding(crate::specs::Entries::entry_at, crate::specs::Values::number))]
pub fn members_and_keys()
    ensures lacking_key { alone (tree.bag (codes "k")) ≡ Ok Value.Undef }
    ensures member { value_of (with_module ((codes "n", Slot.Val (Value.Num (pos 3))) ∷ []))
        (tree.member 0 false (codes "n"))
        ≡ Ok (Value.Num (pos 3)) }
    ensures lacking_member { value_of (with_module []) (tree.member 0 false (codes "n")) ≡ Ok Value.Undef }
    ensures unset_member { value_of (with_module ((codes "n", Slot.Unset) ∷ []))
        (tree.member 0 true (codes "n"))
        ≡ Err (EvalFault.Uninitialised (codes "n")) }
    ensures of_undefined { value_of (with_module []) (tree.member 1 false (codes "n"))
        ≡ Err EvalFault.UndefinedRead }
    ensures safely_of_undefined { value_of (with_module []) (tree.member 1 true (codes "n"))
        ≡ Ok Value.Undef }
{}

/// `console.log("x", undefined, -0)` is one line; without values the line is empty.
#[tactic(auto, unfolding(crate::specs::Values::number, crate::specs::Values::text))]
pub fn lines()
    ensures joined { (body_alone
        (tree.log (tree.text (codes "x") ∷ tree.undefined ∷ tree.neg (tree.num 0) ∷ []) ∷ []) []).lines
        ≡ codes "x undefined 0" ∷ [] }
    ensures empty { (body_alone (tree.log [] ∷ []) []).lines ≡ [] ∷ [] }
    ensures host { (host_ran (codes "L") 12 []).lines ≡ codes "host L 12" ∷ [] }
{}

/// A body's fault leaves what stands before it, and nothing runs after it.
#[tactic(auto, unfolding(crate::specs::Values::number, crate::specs::Values::text, crate::specs::Entries::entry_at, crate::specs::Entries::with_entry))]
pub fn faults_of_bodies()
    ensures thrown { body_alone (before ∷ tree.throw (tree.text (codes "no")) ∷ after ∷ []) []
        ≡ stopped (EvalFault.Thrown (codes "no")) }
    ensures unset { body_alone (before ∷ tree.assign (codes "n") (tree.num 1) ∷ after ∷ []) []
        ≡ stopped (EvalFault.Uninitialised (codes "n")) }
    ensures no_number { body_alone
        (before ∷ tree.log (tree.num 1 ∷ tree.neg tree.undefined ∷ []) ∷ after ∷ []) []
        ≡ stopped EvalFault.NotNumber }
    ensures range { body_alone
        (before ∷ tree.branch (tree.value (letters 4097)) tree.no_stmts tree.no_stmts ∷ after ∷ []) []
        ≡ stopped EvalFault.Range }
    ensures undefined_read { body_alone
        (before ∷ tree.invalidate (Some (tree.member 0 false (codes "n"))) ∷ after ∷ [])
        (ModParam.Undef ∷ [])
        ≡ stopped EvalFault.UndefinedRead }
    ensures bag_full { body_run
        (record
        { params = []; body = tree.one_stmt (tree.bag_set (codes "key") (tree.num 1)) tree.no_stmts })
        [] [] (keys 64)
        ≡ record {
          fault = Some EvalFault.BagFull;
          lines = [];
          changes = [];
          invalidations = [];
          bag = keys 64;
        } }
{}

/// A module's fault leaves what stands before it: its variables, lines, registrations and bag. What
/// is declared after it stays unset.
#[tactic(auto, unfolding(crate::specs::Values::number, crate::specs::Values::text, crate::specs::Entries::entry_at, crate::specs::Entries::with_entry))]
pub fn faults_of_modules()
    ensures thrown { module_alone (module_with (tree.act (tree.throw tree.undefined)))
        ≡ module_stopped (EvalFault.Thrown (codes "undefined")) }
    ensures read_before_its_declaration { module_alone
        (module_with (tree.act (tree.log (tree.name (codes "b") ∷ []))))
        ≡ module_stopped (EvalFault.Uninitialised (codes "b")) }
    ensures assigned_before_its_declaration { module_alone
        (module_with (tree.act (tree.assign (codes "b") (tree.num 1))))
        ≡ module_stopped (EvalFault.Uninitialised (codes "b")) }
    ensures no_number { module_alone
        (module_with (tree.act (tree.assign (codes "a") (tree.binary Op.Mul (tree.text []) (tree.num 1)))))
        ≡ module_stopped EvalFault.NotNumber }
    ensures range { module_alone
        (module_with (tree.act (tree.bag_set (codes "k") (tree.binary Op.Mul largest largest))))
        ≡ module_stopped EvalFault.Range }
    ensures undefined_read { module_alone
        (module_with (tree.act (tree.throw (tree.member 0 false (codes "n")))))
        ≡ module_stopped EvalFault.UndefinedRead }
    ensures bag_full { (module_run (tree.act (tree.bag_set (codes "key") (tree.num 1)) ∷ []) []
        (keys 64)).fault
        ≡ Some EvalFault.BagFull }
{}

/// An import is read as it stood when the evaluation began: a module that imports itself finds its own
/// exports unset, and a body that assigns one finds the old value.
#[tactic(auto, unfolding(crate::specs::Values::number, crate::specs::Entries::entry_at, crate::specs::Entries::with_entry))]
pub fn imports_stand_still()
    ensures own_export_is_unset { (module_run
        (export_let (codes "a") (tree.num 1) ∷ export_let (codes "b") (tree.name (codes "mine")) ∷ [])
        ((codes "mine", Slot.Unset) ∷ []) []).fault
        ≡ Some (EvalFault.Uninitialised (codes "mine")) }
    ensures old_value_in_a_body { body_run
        (record {
          params = [];
          body = tree.one_stmt (tree.assign (codes "a") (tree.num 2))
              (tree.one_stmt (tree.bag_set (codes "k") (tree.name (codes "mine"))) tree.no_stmts);
        })
        ((codes "mine", Slot.Val (Value.Num (pos 1))) ∷ (codes "a", Slot.Val (Value.Num (pos 1))) ∷ [])
        [] []
        ≡ record {
          fault = None;
          lines = [];
          changes = (codes "a", Value.Num (pos 2)) ∷ [];
          invalidations = [];
          bag = (codes "k", Value.Num (pos 1)) ∷ [];
        } }
    ensures own_variable_is_new { (body_run
        (record {
          params = [];
          body = tree.one_stmt (tree.assign (codes "a") (tree.num 2))
              (tree.one_stmt (tree.bag_set (codes "k") (tree.name (codes "a"))) tree.no_stmts);
        })
        ((codes "a", Slot.Val (Value.Num (pos 1))) ∷ []) [] []).bag
        ≡ (codes "k", Value.Num (pos 2)) ∷ [] }
{}

/// Handlers register in order. A bare `accept` and `decline` register nothing.
pub fn handlers_register_in_order()
    ensures { (module_alone
        (tree.prune (tree.host (codes "P")) ∷ tree.own None ∷ tree.own (Some (tree.host (codes "O")))
        ∷ tree.deps true (codes "./a.js" ∷ codes "./b.js" ∷ []) (Some nothing)
        ∷ tree.deps false (codes "./c.js" ∷ []) None ∷ tree.decline
        ∷ tree.dispose (tree.code nothing) ∷ [])).registered
        ≡ record { kind = HandlerKind.Prune; deps = []; what = tree.host (codes "P") }
        ∷ record { kind = HandlerKind.Own; deps = []; what = tree.host (codes "O") }
        ∷ record {
          kind = HandlerKind.Dep;
          deps = codes "./a.js" ∷ codes "./b.js" ∷ [];
          what = tree.code nothing;
        }
        ∷ record { kind = HandlerKind.Dispose; deps = []; what = tree.code nothing } ∷ [] }
{}

/// A key that is set again keeps its place, and a new one stands last. A full bag still takes a value
/// at a key that it has.
#[tactic(auto, unfolding(crate::specs::Values::number, crate::specs::Entries::entry_at, crate::specs::Entries::with_entry))]
pub fn keys_keep_their_order()
    ensures order { (body_alone
        (tree.bag_set (codes "b") (tree.num 1) ∷ tree.bag_set (codes "a") (tree.num 2)
        ∷ tree.bag_set (codes "b") (tree.num 3) ∷ []) []).bag
        ≡ (codes "b", Value.Num (pos 3)) ∷ (codes "a", Value.Num (pos 2)) ∷ [] }
    ensures full_at_a_known_key { (body_run
        (record { params = []; body = tree.one_stmt (tree.bag_set (63 ∷ []) (tree.num 63)) tree.no_stmts })
        [] [] (keys 64)).fault
        ≡ None }
    ensures last_place { (body_run
        (record { params = []; body = tree.one_stmt (tree.bag_set (63 ∷ []) (tree.num 63)) tree.no_stmts })
        [] [] (keys 63)).bag
        ≡ keys 64 }
    ensures host { host_ran (codes "L") 7 (keys 64)
        ≡ record {
          fault = Some EvalFault.BagFull;
          lines = host_line (codes "L") 7 ∷ [];
          changes = [];
          invalidations = [];
          bag = keys 64;
        } }
    ensures host_keeps_its_number { (host_ran (codes "L") 7 ((codes "host", Value.Num (pos 1)) ∷ [])).bag
        ≡ (codes "host", Value.Num (pos 7)) ∷ [] }
{}
