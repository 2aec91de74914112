// Theorems about the text of a file, each on the contract of a function. What the functions return says nothing.
ghost use Rattle.transcript.specs.Example.{Example, WholeDay};
ghost use Rattle.transcript.specs.Laws.{Files, GoesOn, Parts};

/// The file of five records gives its five lines, and a whole day gives a line for each record up to a letter of no kind.
pub fn examples_stand() -> u8
    ensures five { Example }
    ensures day { WholeDay }
{
    0
}

/// A run goes on behind each record unless it was refused by 1, 2 or 3.
pub fn runs_end() -> u8
    ensures { GoesOn }
{
    0
}

/// Each part of the day takes its kinds, and no other.
pub fn parts_take() -> u8
    ensures { Parts }
{
    0
}

/// The debt of an acceptance can be filed directly after it.
pub fn debts_are_filed() -> u8
    ensures { Files }
{
    0
}
