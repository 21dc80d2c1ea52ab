// Laws of the module language as a client takes it: each clause holds of the definitions, for every
// text, name and bag.
ghost use Rattle.std.specs.Prelude.{◌≡◌, ℕ, true, List, [], Option, Ok, Err, flat_map};
ghost use Rattle.module_tree.specs.Syntax.{HandlerTree, ModuleTree};
ghost use Rattle.hmr_types.specs.declared.analysis.Analysis.{Analysis};
ghost use Rattle.hmr_types.specs.declared.analysis.TextFault.{TextFault};
ghost use Rattle.core_model.specs.Names.{Name};
ghost use Rattle.core_model.specs.Sources.{Text};
ghost use Rattle.client_model.specs.Language.{BindsImports, Bag, Slots, links_of};
ghost use Rattle.client_model.specs.Runtime.{Opening, bag_of};
ghost use Rattle.client_model.specs.Past.{Past, runtime_after};
ghost use Rattle.module_semantics.specs.Entries.{is_bag, names_of};
ghost use Rattle.module_semantics.specs.ModuleText.{parsing};
ghost use Rattle.module_semantics.specs.Modules.{declared_names};
ghost use Rattle.module_language.specs.Bagless.{is_bagless_module};
ghost use Rattle.module_language.specs.Meaning.{ItemsMean};
ghost use Rattle.module_language.specs.ModuleLanguage.{module_language, linked_by};

use hmr_types::Outcome;

/// Each binding of a module's text is from one of the module's imports.
pub fn module_texts_bind_their_imports()
    ensures { BindsImports module_language }
{}

/// The links of a text are its imports item by item, each module that an item's specifier means with
/// each of the item's names; a text that reads as no module has none.
pub fn links_are_the_texts_imports()
    ensures module { (n : Name) (t : Text) (m : ModuleTree) → parsing t ≡
        Ok m → links_of module_language n t ≡ flat_map (linked_by n) m }
    ensures none { (n : Name) (t : Text) (fault : TextFault) → parsing t ≡
        Err fault → links_of module_language n t ≡ [] }
{}

/// Where a text has a good outcome, each specifier of it means a module; so the modules that a callback
/// lists stand in the places of its specifiers.
pub fn specifiers_of_good_texts_mean_modules()
    ensures { (n : Name) (t : Text) (m : ModuleTree) (a : Analysis) → parsing t ≡
        Ok m → module_language.transformed n t ≡ Outcome.Good a → ItemsMean n m }
{}

/// A bag of at most 64 different keys is left as one: by evaluations, by callbacks and by closures of
/// the embedding program.
pub fn evaluations_keep_bags()
    ensures evaluated { (n : Name) (t : Text) (imports : Slots) (before : Bag) → is_bag before ≡
        true → is_bag (module_language.evaluated n t imports before).bag ≡ true }
    ensures ran { (code : HandlerTree) (scope : Slots) (arguments : List (Option Slots)) (before : Bag) →
        is_bag before ≡ true → is_bag (module_language.ran code scope arguments before).bag ≡ true }
    ensures hosted { (label : Text) (number : ℕ) (before : Bag) → is_bag before ≡
        true → is_bag (module_language.hosted label number before).bag ≡ true }
{}

/// So each bag that a client keeps is one, whatever messages it took.
pub fn clients_keep_bags()
    ensures { (opening : Opening) (past : Past) (n : Name) →
        is_bag (bag_of (runtime_after module_language opening past) n) ≡ true }
{}

/// The variables that the evaluation of a module's text leaves are the module's declared names, in
/// order, whether or not a fault came.
pub fn variables_are_the_declared_names()
    ensures { (n : Name) (t : Text) (m : ModuleTree) (imports : Slots) (before : Bag) → parsing t ≡
        Ok m → names_of (module_language.evaluated n t imports before).vars ≡ declared_names m }
{}

/// The evaluation of a text that uses `data` in handlers alone doesn't hang on its bag: it is that with the
/// empty bag, but that it leaves the bag as it was.
pub fn texts_without_data_do_not_hang_on_it()
    ensures { (n : Name) (t : Text) (m : ModuleTree) (imports : Slots) (before : Bag) →
        parsing t ≡ Ok m → is_bagless_module m ≡ true →
        module_language.evaluated n t imports before
        ≡ record (module_language.evaluated n t imports []) { bag = before } }
{}
