// The promise over whole runs: what is handed over, and what is never kept back, stated of one number's history and of every
// list of calls made on a reader. There is no code here but the functions whose contracts are the theorems.
#![tactic(auto)]

ghost use Rattle.runs.specs.Promises.{OneNumberStands, EachCallProlongsThePast};
ghost use Rattle.runs.specs.Witness.{SomeRunMeetsThePremise};

// What is promised of one number's slot, over every history of it.
pub fn one_number_stands()
    ensures stands { OneNumberStands }
{}

// What a call that keeps to the rules promises of every past of its reader.
pub fn each_call_prolongs_the_past()
    ensures prolongs { EachCallProlongsThePast }
{}

// The promises are not empty: a run with lost and repeated frames meets their premise, and a message of three parts is handed
// over in it.
pub fn some_run_meets_the_premise()
    ensures meets { SomeRunMeetsThePremise }
{}
