// The promise of the whole exchange: a function for each group of theorems, whose contract states them.
#![tactic(auto)]

ghost use Rattle.promise.specs.Cases.{AllRows};
ghost use Rattle.promise.specs.Crash.{LedgerCodec, LedgerFits, MainStopped, Accepts, Writable, OneStep};
ghost use Rattle.promise.specs.Limits.{AllRefusals, AllFull};
ghost use Rattle.promise.specs.Promise.{Main, MainRun, Parts, Always, OnRuns, Kept, KeptRun, Faithful, Exact, Replays, Lawful, Opens};

// The rulings in their order are serial, and the shelves are what they left: for the relation, and for every list of commands.
pub fn whole_stands() -> u8
    ensures reached { Main }
    ensures runs { MainRun }
{
    0
}

// What the whole is built on, or follows from it.
pub fn parts_stand() -> u8
    ensures reached { Parts Always }
    ensures runs { Parts OnRuns }
    ensures kept { Kept }
    ensures later { KeptRun }
{
    0
}

// The steps as functions are steps of the relation, done whenever they may be; a house's state is its file's replay; every file opens.
pub fn steps_stand() -> u8
    ensures faithful { Faithful }
    ensures exact { Exact }
    ensures replays { Replays }
    ensures lawful { Lawful }
    ensures opens { Opens }
{
    0
}

// Where machines stop at any moment, inside a record too, nothing comes about that whole steps don't make.
pub fn stops_stand() -> u8
    ensures codec { LedgerCodec }
    ensures covered { MainStopped }
    ensures fits { LedgerFits }
    ensures accepts { Accepts }
    ensures writable { Writable }
    ensures one { OneStep }
{
    0
}

// The worked cases come out as they are written down, and so do the other refusals and the limits.
pub fn cases_stand() -> u8
    ensures rows { AllRows }
    ensures refusals { AllRefusals }
    ensures full { AllFull }
{
    0
}
