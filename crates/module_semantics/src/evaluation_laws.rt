// Laws of evaluation: each clause holds of the definitions, for every tree, state and bag.
ghost use Rattle.std.specs.Prelude.{◌≡◌, ◌++◌, ℕ, List, true};
ghost use Rattle.module_tree.specs.Syntax.{StmtTree, StmtTrees, HandlerTree, ModuleTree};
ghost use Rattle.module_tree.specs.Tree.{stmts};
ghost use Rattle.hmr_types.specs.declared.value.Value.{Value};
ghost use Rattle.hmr_types.specs.declared.value.Slot.{Slot};
ghost use Rattle.module_semantics.specs.declared.evaluation.ModParam.{ModParam};
ghost use Rattle.module_semantics.specs.Bodies.{State, Context, next, run_all, body_run, host_ran};
ghost use Rattle.module_semantics.specs.Modules.{items_run, module_run, declared_names};
ghost use Rattle.module_semantics.specs.Progress.{Extends};
ghost use Rattle.module_semantics.specs.Entries.{is_bag, names_of};

/// What stands later runs on what the earlier left, and not at all after a fault; so what came before
/// a fault stays.
pub fn a_fault_ends_all()
    ensures statements { (c : Context) (xs ys : List StmtTree) (s : State)
        → run_all c (stmts (xs ++ ys)) s ≡ next (run_all c (stmts xs) s) (λ t. run_all c (stmts ys) t) }
    ensures items { (c : Context) (xs ys : ModuleTree) (s : State)
        → items_run c (xs ++ ys) s ≡ next (items_run c xs s) (λ t. items_run c ys t) }
{}

/// Nothing that was made is taken back, with or without a fault: lines, changes, invalidations and
/// registrations grow at their end, and each variable and each key keeps its place.
pub fn what_was_made_stays()
    ensures statements { (c : Context) (ts : StmtTrees) (s : State) → Extends s (run_all c ts s).0 }
    ensures items { (c : Context) (m : ModuleTree) (s : State) → Extends s (items_run c m s).0 }
{}

/// The variables of a module are its declared names, in order, whether or not a fault came.
pub fn variables_are_the_declared_names()
    ensures { (m : ModuleTree) (imports : List (List ℕ × Slot)) (bag : List (List ℕ × Value))
        → names_of (module_run m imports bag).vars ≡ declared_names m }
{}

/// A bag of at most 64 different keys is left as one.
pub fn bags_stay_bags()
    ensures modules { (m : ModuleTree) (imports : List (List ℕ × Slot)) (bag : List (List ℕ × Value))
        → is_bag bag ≡ true → is_bag (module_run m imports bag).bag ≡ true }
    ensures bodies { (code : HandlerTree) (env : List (List ℕ × Slot)) (mods : List ModParam)
        (bag : List (List ℕ × Value)) → is_bag bag ≡ true → is_bag (body_run code env mods bag).bag ≡ true }
    ensures hosts { (label : List ℕ) (number : ℕ) (bag : List (List ℕ × Value))
        → is_bag bag ≡ true → is_bag (host_ran label number bag).bag ≡ true }
{}
