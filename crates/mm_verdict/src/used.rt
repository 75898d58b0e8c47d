//! Which labels of a proof its steps name.

ghost use Rattle.std.specs.Prelude.{◌≡◌, ◌||◌, ℕ, length};
ghost use Rattle.mm_verdict.specs.Code.{Cited.{is_item, marked_at}, UsedLabels.{IsLabelWithin, label_named}};

use mm_machine::Action;

/// Marks the label that an action names, if it names one.
pub fn mark(marks: &mut Vec<bool>, action: Action)
    requires { IsLabelWithin (length marks.old.items) action }
    ensures count { length marks.new.items ≡ length marks.old.items }
    ensures each { (k : ℕ) → marked_at marks.new.items k ≡ (marked_at marks.old.items k || is_item (label_named action) k) }
{
    if let Action::Label(k) = action {
        marks[k] = true;
    }
}
