// What the variables of instances hold.
ghost use Rattle.client_model.specs.Language.{Language};
ghost use Rattle.journal_laws.specs.Runs.{OfEachRun};
ghost use Rattle.journal_laws.specs.Values.{ValuesAreLeft, AreEvaluations, AreUnrun, AreEvaluatedOnce};
ghost use Rattle.journal_laws.specs.Values.{AreRuns};

/// The variables of each instance, live or not, are those that its evaluation made, with what the runs of
/// its own handlers assigned since.
pub fn values_are_what_was_left()
    ensures { (language : Language) → OfEachRun language ValuesAreLeft }
{}

/// Each evaluation is that of its instance's text, over the bag of its name and over what the instances that
/// it is linked to held at that time, none of which had failed. An instance isn't run where one that it is
/// linked to had failed; its variables are all unset. Every other was evaluated once.
pub fn evaluations_are_of_the_text()
    ensures evaluations { (language : Language) → OfEachRun language (AreEvaluations language) }
    ensures unrun { (language : Language) → OfEachRun language AreUnrun }
    ensures once { (language : Language) → OfEachRun language AreEvaluatedOnce }
{}

/// Each run of a handler is that of its code over its instance's own variables, over what the instances that
/// it is linked to held at that time, and over the bag of its name; or that of its closure over the bag.
/// Disposers and prune handlers get no modules.
pub fn runs_are_of_the_handlers_code()
    ensures { (language : Language) → OfEachRun language (AreRuns language) }
{}
