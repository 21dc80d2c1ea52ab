// The instances of a client, for everything that comes to it: their numbers, which are live,
// what they are linked to, and that it exports what they import.
ghost use Rattle.std.specs.Prelude.{◌≡◌, ℕ, ◌≤◌, length, is_some};
ghost use Rattle.core_model.specs.Names.{Name, same_name};
ghost use Rattle.core_model.specs.View.{is_in};
ghost use Rattle.client_model.specs.Language.{Language};
ghost use Rattle.client_model.specs.Runtime.{Opening};
ghost use Rattle.client_model.specs.Instance.{live_at};
ghost use Rattle.client_model.specs.Applying.{live_of};
ghost use Rattle.client_model.specs.Past.{Past, runtime_after};
ghost use Rattle.world_laws.specs.Instances.{AreNumbered, AreLinked, AreLinkedWhole};
ghost use Rattle.world_laws.specs.Instances.{AreExported, AreCounted};

/// Each instance has as its number the place at which it was made, from 1; so each number, and each
/// number that an instance is linked to, is at most the number of instances made.
pub fn instances_are_numbered()
    ensures places { (language : Language) (opening : Opening) (past : Past) →
        AreNumbered (runtime_after language opening past).instances }
    ensures counted { (language : Language) (opening : Opening) (past : Past) →
        AreCounted (runtime_after language opening past).instances }
{}

/// A name has at most one live instance, and has one exactly where the page has a module of that name.
pub fn page_is_live()
    ensures one { (language : Language) (opening : Opening) (past : Past) (n : Name) →
        length (live_of (λ m. same_name m n) (runtime_after language opening past)) ≤ 1 }
    ensures page { (language : Language) (opening : Opening) (past : Past) (n : Name) →
        is_some (live_at (runtime_after language opening past).instances n)
        ≡ is_in (runtime_after language opening past).page.view n }
{}

/// Each link of each instance is to an instance that was made of the import's name.
pub fn links_are_to_their_imports()
    ensures { (language : Language) (opening : Opening) (past : Past) →
        AreLinked (runtime_after language opening past).instances }
{}

/// Each name that an instance's text imports over one of its links is exported by the instance at the
/// link's other end, whatever became of either since.
pub fn links_export_what_is_imported()
    ensures { (language : Language) (opening : Opening) (past : Past) →
        AreExported language (runtime_after language opening past).instances }
{}

/// Each import of an instance's text has a link, and nothing else has, whatever became of the instance
/// since it was made.
pub fn imports_have_links()
    ensures { (language : Language) (opening : Opening) (past : Past) →
        AreLinkedWhole language (runtime_after language opening past).instances }
{}
