// The worked cases of the subject as one table, proved of the definitions that the contracts cite. There is no code here but the
// function whose contract is the table.
#![tactic(auto)]

ghost use Rattle.cases.specs.Table.{WorkedCases};

// Every worked case comes out as the table says.
pub fn worked_cases_stand()
    ensures stand { WorkedCases }
{}
