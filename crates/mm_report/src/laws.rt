//! What holds of all reports. Each function does nothing; what it promises is the law.

ghost use Rattle.mm_report.specs.Language.Laws.{CleanIsDerived, OneReport};

/// A session has one report at most.
///
/// So the bytes that `write_report` writes depend on the names and the pieces of the files, and the name of the top file.
/// They depend on nothing else.
pub fn one_report()
    ensures { OneReport }
{
    mm_keep::files_have_one_database(); // A law: files have one database at most.
    mm_keep::one_answer_each(); // A law: a session has one answer each.
}

/// If a report has no line before its summary, no item is at fault, and some labels derive the statement of each `$p`.
pub fn clean_is_derived()
    ensures { CleanIsDerived }
{
    mm_keep::proved_is_derivable(); // A law: what is proved is derived by labels.
}
