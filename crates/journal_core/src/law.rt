//! What a file stands for is one thing.
ghost use Rattle.journal_core.specs.OneMeaning.{EachFileHasOneMeaning};

/// In each format each file holds exactly one list of records, or meets exactly one refusal. The contract is the law; the
/// call does nothing.
pub fn each_file_has_one_meaning()
    ensures { EachFileHasOneMeaning }
{}
