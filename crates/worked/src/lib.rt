// Facts about the rules' definitions, each held by a function whose contract it is.
#![tactic(auto)]

ghost use Rattle.rules.specs.ChooseLaws.{Sentences, Raises, Sampling};
ghost use Rattle.rules.specs.Reports.{ReportLaw};
ghost use Rattle.worked.specs.Examples.{Examples};

// What was worked out by hand holds of the definitions.
pub fn worked_examples() -> u8
    ensures { Examples }
{
    0
}

// The tests of choosing decide the sentences that stand beside them, raises act as they should, and the report is the smallest
// fifth of the survivors, those first that stand ahead.
pub fn choosing_says() -> u8
    ensures sentences { Sentences }
    ensures raises { Raises }
    ensures report { ReportLaw }
{
    0
}

// The samples of a candidate are those that the sentence beside them names.
pub fn samples_say() -> u8
    ensures { Sampling }
{
    0
}
