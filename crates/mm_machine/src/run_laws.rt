//! The laws of steps that are run.

ghost use Rattle.mm_machine.specs.Language.RunLaws.{PartsAreRun, SureByCounting};

/// Which steps are run: all of them, or those before the first unknown one.
///
/// It shows what the definitions mean; no code calls on it.
pub fn parts_are_run()
    ensures { PartsAreRun }
{}

/// Steps are as decoding leaves them exactly if this holds from step to step, with a count of the saves.
///
/// For the law `decodes_surely` of `mm_verdict`.
pub fn sure_by_counting()
    ensures { SureByCounting }
{}
